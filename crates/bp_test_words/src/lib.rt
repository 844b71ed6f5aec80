//! Cases as lines of text, for programs that try the crates: a line asks for one thing and says
//! behind ` = ` what is to be told. Begin at `Tally::take`, which splits a line, and at `Words`, which
//! reads what it asks. No clause says what is told: it is compared with what the line says.
#![tactic(auto)]

mod bytes;
mod tally;
mod words;

pub use bytes::{escaped, hex_words};
pub use tally::{Case, Tally};
pub use words::Words;
