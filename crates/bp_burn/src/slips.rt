// The sheet that stands for a withheld document.
ghost use Rattle.std.specs.Prelude.{◌≡◌, IfOk, IsTrue};
ghost use Rattle.bp_burn.specs.Band.{slip_of, slip_text};
ghost use Rattle.bp_burn.specs.Drawn.{has_glyphs};

use crate::band::{BAND_ROWS, draw_band};
use crate::drawing::draw_text;
use crate::paper::white_page;
use bp_codes::glyphs;
use bp_core::{Basis, OutOfMemory, Text};
use bp_rows::Page;
use std::alloc::Global;

/// The width of a slip sheet in pixels: that of a letter page at 200 dots to the inch.
pub const SLIP_WIDTH: u32 = 1700;

/// The height of a slip sheet above its band, in pixels.
pub const SLIP_HEIGHT: u32 = 2200;

// Where its text begins, in pixels.
pub(crate) const SLIP_TOP: u32 = 1000;

pub(crate) const SLIP_LEFT: u32 = 200;

/// The sheet that stands for a document withheld on this ground, with the band of a page that goes
/// out.
pub fn slip_page(
    alloc: Global,
    basis: Basis,
    label: &Text,
    designation: &Text,
) -> Result<Page, OutOfMemory>
    requires label { IsTrue (has_glyphs label.now) }
    requires designation { IsTrue (has_glyphs designation.now) }
    ensures { IfOk result (λ page. page ≡ slip_of basis label.now designation.now) }
{
    let mut page = white_page(alloc, SLIP_WIDTH, SLIP_HEIGHT + BAND_ROWS)?;
    let text = slip_text(basis).as_bytes();
    draw_text(&mut page, &glyphs(), text, SLIP_TOP, SLIP_LEFT, 0);
    draw_band(&mut page, SLIP_HEIGHT, label, designation);
    Ok(page)
}

/// What a slip sheet says.
pub fn slip_text(basis: Basis) -> &'static str
    ensures { result.now ≡ slip_text basis }
{
    match basis {
        Basis::Ac => "DOCUMENT WITHHELD - AC",
        Basis::Wp => "DOCUMENT WITHHELD - WP",
        Basis::Pi => "DOCUMENT WITHHELD - PI",
        Basis::Ts => "DOCUMENT WITHHELD - TS",
    }
}
