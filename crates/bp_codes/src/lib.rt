//! The code tables of ITU-T T.6, exact and fast to read.
#![tactic(auto)]

mod ahead;
mod black_index;
mod code;
mod glyph_table;
mod in_print;
mod index;
pub mod laws;
mod mode_index;
mod reversed;
mod span;
mod tables;
mod white_index;

pub use ahead::{black_ahead, mode_ahead, white_ahead};
pub use code::{Code, Found, NoCode};
pub use glyph_table::{GlyphTable, glyphs};
pub use span::{BitSpan, Fill};
pub use tables::{CodeTable, black, modes, white};
