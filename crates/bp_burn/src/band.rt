// The band below a page that goes out.
ghost use Rattle.std.specs.Prelude.{◌≡◌, ◌+◌, IfOk, IsTrue};
ghost use Rattle.bp_rows.specs.Image.{IsPage};
ghost use Rattle.bp_rows.specs.Limits.{sides_are_imported};
ghost use Rattle.bp_burn.specs.Band.{band_texts, produced_of};
ghost use Rattle.bp_burn.specs.Drawn.{has_glyphs};
ghost use Rattle.bp_burn.specs.Ink.{inked};

use crate::burning::copy_with_rows;
use crate::drawing::{draw_text, hidden_columns};
use crate::stamps::cover_rows;
use bp_codes::glyphs;
use bp_core::{Ink, OutOfMemory, StampList, Text};
use bp_rows::Page;
use std::alloc::Global;

/// The rows of the band, in pixels.
pub const BAND_ROWS: u32 = 32;

// The first row of its texts, and the columns left of the designation and right of the label, in
// pixels.
const TEXT_TOP: u32 = 5;

const MARGIN: u32 = 16;

/// The page that goes out: its boxes covered, and below it a band of 32 rows, with the designation
/// at the left and the label at the right, each cut off at the edges of the page.
pub fn produced(
    alloc: Global,
    ink: Ink,
    page: &Page,
    stamps: &StampList,
    label: &Text,
    designation: &Text,
) -> Result<Page, OutOfMemory>
    requires sides { IsTrue (sides_are_imported page.now.width page.now.height) }
    requires label { IsTrue (has_glyphs label.now) }
    requires designation { IsTrue (has_glyphs designation.now) }
    ensures { IfOk result (λ out.
        out ≡ produced_of ink page.now stamps.now label.now designation.now) }
{
    let height = page.height();
    let mut out = copy_with_rows(alloc, page, BAND_ROWS)?;
    cover_rows(&mut out, height, 0, ink, stamps.as_slice());
    draw_band(&mut out, height, label, designation);
    Ok(out)
}

/// Draws the texts of the band below the first rows of a page, which are so many.
pub fn draw_band(page: &mut Page, height: u32, label: &Text, designation: &Text)
    requires page { IsPage page.old }
    requires band { page.old.height ≡ height + BAND_ROWS }
    requires label { IsTrue (has_glyphs label.now) }
    requires designation { IsTrue (has_glyphs designation.now) }
    ensures { page.new ≡
        inked page.old (band_texts page.old.width height label.now designation.now) }
{
    let table = glyphs();
    let top = height + TEXT_TOP;
    let label = label.as_str().as_bytes();
    let width = page.width();
    let hidden = MARGIN as u128 + hidden_columns(label.len());
    draw_text(
        page,
        &table,
        designation.as_str().as_bytes(),
        top,
        MARGIN,
        0,
    );
    draw_text(page, &table, label, top, width, hidden);
}
