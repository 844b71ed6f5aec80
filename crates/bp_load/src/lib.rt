//! Load files, both ways: OPT (a line a page) and DAT (a line a document, and a line of column names).
#![tactic(auto)]

mod dat;
mod documents;
mod fields;
mod lines;
mod opt;

pub use dat::{Dat, TextTable, read_columns, read_dat, write_dat};
pub use documents::{docs_after, is_begdoc, until_break};
pub use opt::{OptLine, OptList, opt_writable, read_opt, write_opt};
