//! The check of a volume of any producer by its load files: labels without a gap, documents that
//! begin and end where DAT and OPT both say, counts, images of one page, texts that are there, and
//! the digests of a manifest.
//!
//! `check_volume` is the call; its contract cites `check_of` of specs/Check.antt, all steps in their
//! order, and `after_step` of specs/Checking.antt, what is left in the source.
#![tactic(auto)]

mod breaks;
mod check;
mod checked;
mod columns;
mod counts;
mod files;
mod images;
mod labels;
mod listing;
mod manifest;
mod paths;
mod plans;
mod records;
mod refusals;

pub use check::check_volume;
pub use checked::Checked;
pub use files::{DAT, FILE_LIMIT, IMAGE, LISTED, MANIFEST, OPT, TEXT};
pub use labels::MOST_LABEL_DIGITS;
pub use refusals::ImportRefusal;
