//! Pages as they go out: burned, with their number below, and slip sheets.
//!
//! `burn` blackens boxes, and `burn_in_place` does so in the page that it is lent; `produced` covers
//! boxes, all black or with the code of their ground in white, and adds the band with designation and
//! label; `covered_runs` covers one row, as runs, and `produced_strip` makes the strip of the page that
//! goes out of the page's strip, a row at a time, which `CoveredRows` reads and covers in room that was
//! taken before; `strip_of_rows` makes it of such rows and sees no more of the page; `slip_page` makes
//! the sheet that stands for a withheld document, and `slip_strip` its strip, of which only the rows
//! with text are drawn. Their contracts cite `burned`, `covered`, `produced_of` and `slip_of`.
#![tactic(auto)]

mod band;
mod burning;
mod covered_rows;
mod drawing;
mod glyph_rows;
mod letters;
mod out_room;
mod paper;
mod room;
mod slip_strips;
mod slips;
mod stamps;
mod strips;

pub use band::{BAND_ROWS, produced};
pub use burning::{burn, burn_in_place, burn_row};
pub use covered_rows::{CoveredRow, CoveredRows};
pub use glyph_rows::{glyph, has_glyphs};
pub use out_room::OutRoom;
pub use paper::SLIP_DOTS;
pub use slip_strips::slip_strip;
pub use slips::{SLIP_HEIGHT, SLIP_WIDTH, slip_page};
pub use stamps::covered_runs;
pub use strips::{produced_strip, strip_of_rows};
