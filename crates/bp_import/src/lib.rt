//! A batch that comes in: DAT, OPT and words file of a folder, and the images that they name, read
//! into a `Batch`, whole or with the first rule that it breaks.
#![tactic(auto)]

mod batch;
mod breaks;
mod columns;
mod digest;
mod documents;
mod families;
mod files;
mod laws;
mod plans;
mod records;
mod refusals;
mod scans;
mod strips;
mod tables;
mod word_pages;

pub use batch::read_batch;
pub use columns::MAX_COLUMN;
pub use files::{DAT, FILE_LIMIT, IMAGE, OPT, WORDS};
pub use laws::one_batch;
pub use refusals::ImportRefusal;
