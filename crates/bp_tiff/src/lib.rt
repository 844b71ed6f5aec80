//! Pages as TIFF files (TIFF 6.0): written plain or in Group 4, and read in every form that holds
//! one bilevel page.
//!
//! `write_tiff` gives the file of a page, and `write_strip` that of a page whose codes are there
//! already; their contracts cite `tiff_of` of specs/Tiff.antt, the file to the byte. `read_tiff`
//! gives the page of a file or the first rule that it breaks, `take_tiff` makes the page in the
//! file's own memory where it can, and `judge_tiff` tells the rule and makes no page: `TiffReads`
//! and `TiffFault` of specs/Read.antt. `written_is_read` and `one_answer` are their laws.
#![tactic(auto)]

mod directory;
mod entries;
mod fields;
mod form;
mod head;
mod judging;
mod laws;
mod layout;
mod numbers;
mod passes;
mod places;
mod reading;
mod rules;
mod standing;
mod strips;
mod tags;
mod values;
mod writing;

pub use directory::Directory;
pub use form::Form;
pub use judging::judge_tiff;
pub use laws::{one_answer, one_page_a_file, written_is_read};
pub use layout::{Coding, Layout, Scale, Sides, Strips, read_layout};
pub use numbers::ByteOrder;
pub use reading::{read_tiff, take_tiff};
pub use values::Values;
pub use writing::{Strip, TiffParts, tiff_parts, write_strip, write_tiff};
