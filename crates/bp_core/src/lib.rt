//! The ground that every crate shares: rectangles, stamps, numbers, review words, texts, lists and
//! rules; lists of rows in order of a key (`Keyed`, `find_row`); rows that differ; and numbers in digits.
#![tactic(auto)]

mod byte_strings;
mod calls;
mod differing;
mod digits;
mod kept;
mod keyed;
mod lists;
mod numbers;
mod paths;
mod rectangle;
mod refusals;
mod review;
mod rules;
mod sorted;
mod stamps;
mod texts;

pub use byte_strings::Bytes;
pub use calls::Calls;
pub use differing::{UniqueText, all_differ, texts_differ};
pub use digits::{MOST_DIGITS, are_digits, number_in, ordinal_in, unpadded_in};
pub use kept::{Put, Row};
pub use keyed::{Keyed, two_keys};
pub use lists::{ListOf, NumberList, PutList, RectList, RowList, StampList, TextList};
pub use numbers::{DocNo, PageNo, StaffNo};
pub use paths::path_of;
pub use rectangle::Rect;
pub use refusals::{OutOfMemory, Refusal};
pub use review::{Basis, Role, Treatment};
pub use rules::{Rule, RuleKind};
pub use sorted::{ascends, find_row, put_row, remove_row, rows_between};
pub use stamps::{Ink, Stamp};
pub use texts::Text;
