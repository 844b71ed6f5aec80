//! Days at a matter, as lines of text: calls, imports, loads, faults of the keeper, kept rows,
//! productions and what is pressed of them, each made by the real calls, and what came in words.
//! Begin at `Day::new` and `make`; a command line of the program is made by `carry_out`. The head of
//! each module lists its kinds of lines.
//!
//! Words stand one space apart. A text is one word: `-` is the empty one, `_` a space, `%0a` the byte
//! of these two digits. A key is named by the byte that its digest is 32 times. A treatment is
//! `produce`, `redact` or a ground; a box is LEFT TOP WIDTH HEIGHT. A line that can't be read is told
//! `not read`.
#![tactic(auto)]

mod asked;
mod batches;
mod calls;
mod commands;
mod day;
mod given;
mod keeping;
mod lines;
mod looked_up;
mod looks;
mod presses;
mod seen;
mod strips;
mod told;

pub use commands::carry_out;
pub use day::Day;
pub use lines::{differing, make};
