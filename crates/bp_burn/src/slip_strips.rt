// The strip of the sheet that stands for a withheld document, made a row at a time.
ghost use Rattle.std.specs.Prelude.{◌≡◌, ◌++◌, ◌<◌, ◌≤◌, Bool, List, IfOk, IsTrue, OnOk};
ghost use Rattle.bp_t6.specs.SoFar.{HasAdded};
ghost use Rattle.bp_t6.specs.Written.{bits_strip};
ghost use Rattle.bp_burn.specs.Band.{slip_of};
ghost use Rattle.bp_burn.specs.Drawn.{has_glyphs};
ghost use Rattle.bp_burn.specs.Strips.{slip_text_rows, white_rows};

use crate::drawing::draw_text;
use crate::letters::TEXT_ROWS;
use crate::paper::white_page;
use crate::slips::{SLIP_HEIGHT, SLIP_LEFT, SLIP_TOP, SLIP_WIDTH, slip_text};
use crate::strips::{add_band, add_rows};
use bp_codes::glyphs;
use bp_core::{Basis, Bytes, OutOfMemory, Text};
use bp_t6::StripWriter;
use std::alloc::Global;

/// The strip of the sheet that `slip_page` makes (ITU-T T.6). Only the rows of its texts are drawn.
pub fn slip_strip(
    alloc: Global,
    basis: Basis,
    label: &Text,
    designation: &Text,
) -> Result<Bytes, OutOfMemory>
    requires label { IsTrue (has_glyphs label.now) }
    requires designation { IsTrue (has_glyphs designation.now) }
    ensures { IfOk result (λ strip. strip ≡ bits_strip (slip_of basis label.now designation.now)) }
{
    let mut writer = StripWriter::start(alloc, SLIP_WIDTH)?;
    add_white_rows(&mut writer, SLIP_TOP)?;
    add_slip_text(alloc, &mut writer, basis)?;
    add_white_rows(&mut writer, SLIP_HEIGHT - SLIP_TOP - TEXT_ROWS)?;
    add_band(alloc, &mut writer, SLIP_WIDTH, label, designation)?;
    writer.finish(alloc)
}

// Adds so many white rows.
fn add_white_rows(writer: &mut StripWriter, rows: u32) -> Result<(), OutOfMemory>
    ensures width { writer.new.width ≡ writer.old.width }
    ensures added { (lines : List (List Bool)) → HasAdded writer.old lines
        → OnOk result (HasAdded writer.new (lines ++ white_rows writer.old.width rows)) }
{
    for _row in 0..rows {
        writer.add_places(&[])?;
    }
    Ok(())
}

// Adds the rows that say why the document is withheld.
fn add_slip_text(alloc: Global, writer: &mut StripWriter, basis: Basis) -> Result<(), OutOfMemory>
    requires { writer.old.width ≡ SLIP_WIDTH }
    ensures width { writer.new.width ≡ writer.old.width }
    ensures added { (lines : List (List Bool)) → HasAdded writer.old lines
        → OnOk result (HasAdded writer.new (lines ++ slip_text_rows basis)) }
{
    let mut rows = white_page(alloc, SLIP_WIDTH, TEXT_ROWS)?;
    let text = slip_text(basis).as_bytes();
    draw_text(&mut rows, &glyphs(), text, 0, SLIP_LEFT, 0);
    add_rows(writer, &rows)
}
