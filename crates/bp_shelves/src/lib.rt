//! Rows of documents in ascending order of key, each document's on a shelf of its own (`Shelves`), so
//! that a row that comes or goes moves no row of another document.
#![tactic(auto)]

mod shelved;
mod shelves;
mod stocking;

pub use shelved::Shelved;
pub use shelves::Shelves;
