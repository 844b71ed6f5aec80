// The strip of a page that goes out, made of the page's strip a row at a time.
ghost use Rattle.std.specs.Prelude.{◌≡◌, ◌++◌, ◌∷◌, ◌<◌, ◌≤◌, Bool, List, [], IfOk, IsTrue, OnOk};
ghost use Rattle.bp_rows.specs.Image.{Image};
ghost use Rattle.bp_rows.specs.Limits.{sides_are_imported};
ghost use Rattle.bp_t6.specs.SoFar.{HasAdded, last_line};
ghost use Rattle.bp_t6.specs.Written.{bits_strip, white_line};
ghost use Rattle.bp_burn.specs.Band.{produced_of};
ghost use Rattle.bp_burn.specs.Covered.{covered};
ghost use Rattle.bp_burn.specs.Drawn.{has_glyphs};
ghost use Rattle.bp_burn.specs.RowsOut.{AreOf, OfSomePage, IsLine};
ghost use Rattle.bp_burn.specs.Strips.{HasStrip, IsPageStrip, band_rows};

use crate::band::{BAND_ROWS, draw_band};
use crate::covered_rows::{CoveredRow, CoveredRows};
use crate::out_room::OutRoom;
use crate::paper::white_page;
use crate::room::likely_size;
use bp_core::{Bytes, Ink, OutOfMemory, StampList, Text};
use bp_rows::{MAX_WIDTH, Page};
use bp_t6::StripWriter;
use std::alloc::Global;

/// The strip of the page that goes out, as `produced` makes it, of the strip of a page of these
/// sides in pixels (ITU-T T.6). Beside both strips it keeps some rows of the page and the band's.
pub fn produced_strip(
    alloc: Global,
    ink: Ink,
    strip: &[u8],
    width: u32,
    height: u32,
    stamps: &StampList,
    label: &Text,
    designation: &Text,
) -> Result<Bytes, OutOfMemory>
    requires sides { IsTrue (sides_are_imported width height) }
    requires strip { IsPageStrip width height strip.now }
    requires label { IsTrue (has_glyphs label.now) }
    requires designation { IsTrue (has_glyphs designation.now) }
    ensures { (p : Image) → HasStrip width height strip.now p
        → IfOk result (λ out.
        out ≡ bits_strip (produced_of ink p stamps.now label.now designation.now)) }
{
    let room = OutRoom::take(alloc, width)?;
    let rows = CoveredRows::over(room, ink, strip, height, stamps);
    strip_of_rows(alloc, rows, label, designation)
}

/// The strip of the page that goes out, as `produced` makes it, of the rows of the page, none of which
/// was read yet: they are lent covered, one after another. It sees no more of the page, and its band is
/// of this label and this designation.
pub fn strip_of_rows(
    alloc: Global,
    rows: CoveredRows<'_>,
    label: &Text,
    designation: &Text,
) -> Result<Bytes, OutOfMemory>
    requires sides { IsTrue (sides_are_imported rows.width rows.height) }
    requires page { OfSomePage rows }
    requires none { rows.row ≡ 0 }
    requires label { IsTrue (has_glyphs label.now) }
    requires designation { IsTrue (has_glyphs designation.now) }
    ensures { (p : Image) → AreOf rows.entry p
        → IfOk result (λ out.
        out ≡ bits_strip
        (produced_of rows.entry.ink p rows.entry.stamps label.now designation.now)) }
{
    let width = rows.width();
    let mut writer = covered_strip(alloc, rows)?;
    add_band(alloc, &mut writer, width, label, designation)?;
    writer.finish(alloc)
}

// The strip under way of the page covered. What adds a row sees it covered.
fn covered_strip(alloc: Global, lent: CoveredRows<'_>) -> Result<StripWriter, OutOfMemory>
    requires sides { IsTrue (sides_are_imported lent.width lent.height) }
    requires page { OfSomePage lent }
    requires none { lent.row ≡ 0 }
    ensures width { IfOk result (λ writer. writer.width ≡ lent.entry.width) }
    ensures added { (p : Image) → AreOf lent.entry p
        → IfOk result (λ writer. HasAdded writer (covered lent.entry.ink p lent.entry.stamps).rows) }
{
    let mut rows = lent;
    let width = rows.width();
    let height = rows.height();
    let size = likely_size(width, height, rows.stamps());
    let mut writer = start_writer(alloc, size, width)?;
    for row in 0..height {
        let _row = row;
        rows.next();
        add_row(&mut writer, rows.row())?;
    }
    Ok(writer)
}

// A writer without rows that has room for a strip of so many bytes.
fn start_writer(alloc: Global, size: usize, width: u32) -> Result<StripWriter, OutOfMemory>
    requires some { 0 < width }
    requires wide { width ≤ MAX_WIDTH }
    ensures width { IfOk result (λ writer. writer.width ≡ width) }
    ensures none { IfOk result (λ writer. HasAdded writer []) }
{
    let mut writer = StripWriter::start(alloc, width)?;
    writer.reserve(size)?;
    Ok(writer)
}

// Adds a row that is lent covered. Where its code is lent too, that is copied.
fn add_row(writer: &mut StripWriter, row: CoveredRow<'_>) -> Result<(), OutOfMemory>
    requires { (above : List Bool) × (line : List Bool) × IsLine writer.old.width above line row }
    ensures width { writer.new.width ≡ writer.old.width }
    ensures added { (lines : List (List Bool)) (line : List Bool) → HasAdded writer.old lines
        → IsLine writer.old.width (last_line (white_line writer.old.width) lines) line row.entry
        → OnOk result (HasAdded writer.new (lines ++ line ∷ [])) }
{
    match row {
        CoveredRow::Painted(page) => writer.add_page_row(page, 0),
        CoveredRow::Bare(places) => writer.add_places(places),
        CoveredRow::Coded(places, code) => writer.add_code(places, &code),
    }
}

/// Adds the rows of the band.
pub fn add_band(
    alloc: Global,
    writer: &mut StripWriter,
    width: u32,
    label: &Text,
    designation: &Text,
) -> Result<(), OutOfMemory>
    requires some { 0 < width }
    requires wide { width ≤ MAX_WIDTH }
    requires width { writer.old.width ≡ width }
    requires label { IsTrue (has_glyphs label.now) }
    requires designation { IsTrue (has_glyphs designation.now) }
    ensures width { writer.new.width ≡ writer.old.width }
    ensures added { (lines : List (List Bool)) → HasAdded writer.old lines
        → OnOk result (HasAdded writer.new
        (lines ++ band_rows width label.now designation.now)) }
{
    let mut band = white_page(alloc, width, BAND_ROWS)?;
    draw_band(&mut band, 0, label, designation);
    add_rows(writer, &band)
}

/// Adds the rows of a page.
pub fn add_rows(writer: &mut StripWriter, page: &Page) -> Result<(), OutOfMemory>
    requires { writer.old.width ≡ page.now.width }
    ensures width { writer.new.width ≡ writer.old.width }
    ensures added { (lines : List (List Bool)) → HasAdded writer.old lines
        → OnOk result (HasAdded writer.new (lines ++ page.now.rows)) }
{
    for row in 0..page.height() {
        writer.add_page_row(page, row)?;
    }
    Ok(())
}
