//! ITU-T T.6 (Group 4): the strip of a page, in one facsimile block, both ways.
//!
//! `code_page` gives the strip of a page; its contract cites `strip_of` of specs/Written.antt, the
//! coding procedure of T.6. `read_strip` gives the page of a strip, or the first place where it breaks
//! a rule: `StripReads` of specs/Read.antt and `StripFault` of specs/Faults.antt. `StripRows` and
//! `StripWriter` do the same a row at a time, as runs (specs/SoFar.antt); `PageRows` reads the rows of a
//! page's strip into room that was taken before, and has no answer to give. `laws` says that the
//! strip of a page is read as the page's rows and as no others, and that any bits are read as some rows
//! or have some fault.
#![tactic(auto)]

mod bit_copy;
mod bit_writer;
mod canonical;
mod canonical_strip;
pub mod laws;
mod lengths;
mod line_reader;
mod line_writer;
mod mark;
mod missing;
mod mode_reader;
mod near_index;
mod near_reader;
mod page;
mod page_rows;
mod quick_reader;
mod reading;
mod row;
mod row_code;
mod row_room;
mod run_places;
mod run_reader;
mod same_row;
mod strip_reader;
mod strip_rows;
mod strip_writer;
mod tables;
mod turns;

pub use canonical_strip::is_canonical;
pub use page::code_page;
pub use page_rows::PageRows;
pub use row_code::RowCode;
pub use row_room::RowRoom;
pub use strip_reader::{StripReader, read_strip};
pub use strip_rows::StripRows;
pub use strip_writer::StripWriter;
