// The rows of the strips, put one behind another.
ghost use Rattle.std.specs.Prelude.{◌≡◌, ◌+◌, ◌*◌, ◌≤◌, ◌<◌, ◌^◌, ◌++◌, [], length, take, drop, OnOk, IfOk, IfErr};
ghost use Rattle.bp_rows.specs.Bits.{row_bytes};
ghost use Rattle.bp_core.specs.Answers.{IfRule};
ghost use Rattle.bp_tiff.specs.Appending.{AppendsStrip, HasReadStrips, HoldsAll};
ghost use Rattle.bp_tiff.specs.Layout.{IsLaid};
ghost use Rattle.bp_tiff.specs.Pixels.{PackedBreaks};
ghost use Rattle.bp_tiff.specs.Read.{Breaks, StripsBreak, strip_bytes, strip_rows};

use crate::layout::Layout;
use crate::rules::strips;
use bp_codes::BitSpan;
use bp_core::{Refusal, Rule};
use bp_rows::{MAX_WIDTH, bytes_of_strip};
use bp_t6::StripReader;
use std::alloc::Global;

/// Appends the rows of all strips.
pub fn put_strips(
    alloc: Global,
    bytes: &[u8],
    layout: &Layout,
    out: &mut Vec<u8>,
) -> Result<(), Refusal>
    requires laid { IsLaid bytes.now layout.now }
    requires empty { out.old.items ≡ [] }
    ensures found { OnOk result (HoldsAll bytes.now layout.now out.new.items) }
    ensures refused { let l = layout.now in
        IfErr result (IfRule (StripsBreak bytes.now l l.strips.count 0)) }
{
    let mut reader = StripReader::new(alloc);
    for k in 0..layout.strips.count {
        if let Err(refusal) = put_strip(&mut reader, bytes, layout, k, out) {
            return Err(refusal);
        }
    }
    Ok(())
}

fn put_strip(
    reader: &mut StripReader,
    bytes: &[u8],
    layout: &Layout,
    k: u32,
    out: &mut Vec<u8>,
) -> Result<(), Refusal>
    requires laid { IsLaid bytes.now layout.now }
    requires within { k < layout.now.strips.count }
    ensures found { OnOk result (
        AppendsStrip bytes.now layout.now k out.old.items out.new.items) }
    ensures refused { IfErr result (IfRule (Breaks bytes.now layout.now k)) }
{
    let strip = strip_at(bytes, layout, k);
    let rows = rows_at(layout, k);
    let width = layout.sides.width;
    if layout.coding.is_t6 {
        let span = BitSpan {
            bytes: strip,
            fill: layout.coding.fill,
        };
        reader.read_rows(&span, width, rows, k * layout.strips.rows, out)
    } else {
        put_packed(strip, width, rows, out)
    }
}

/// The bytes of strip k.
pub fn strip_at<'a>(bytes: &'a [u8], layout: &Layout, k: u32) -> &'a [u8]
    requires laid { IsLaid bytes.now layout.now }
    requires within { k < layout.now.strips.count }
    ensures gives { result.now ≡ strip_bytes bytes.now layout.now k }
    ensures short { length result.now < 2 ^ 32 }
{
    let offset = layout.strips.offsets.at(bytes, &layout.directory, k) as usize;
    let length = layout.strips.lengths.at(bytes, &layout.directory, k) as usize;
    part(bytes, offset, length)
}

fn part(bytes: &[u8], offset: usize, size: usize) -> &[u8]
    requires { offset + size ≤ length bytes.now }
    ensures gives { result.now ≡ take size (drop offset bytes.now) }
    ensures long { length result.now ≡ size }
{
    &bytes[offset..offset + size]
}

/// How many rows strip k has.
pub fn rows_at(layout: &Layout, k: u32) -> u32
    requires { k * layout.now.strips.rows ≤ layout.now.sides.height }
    ensures { result ≡ strip_rows layout.now k }
{
    let height = layout.sides.height;
    let before = k * layout.strips.rows;
    layout.strips.rows.min(height - before)
}

// Appends the rows of a strip without compression as they stand.
fn put_packed(strip: &[u8], width: u32, rows: u32, out: &mut Vec<u8>) -> Result<(), Refusal>
    requires wide { width ≤ MAX_WIDTH }
    requires high { rows ≤ 20032 }
    ensures found { OnOk result (
        out.new.items ≡ out.old.items ++ take (rows * row_bytes width) strip.now) }
    ensures long { OnOk result (rows * row_bytes width ≤ length strip.now) }
    ensures refused { IfErr result (IfRule (PackedBreaks width rows strip.now)) }
{
    test_packed(strip, width, rows)?;
    let size = bytes_of_strip(width, rows);
    out.extend_from_slice(&strip[..size])?;
    Ok(())
}

/// A strip without compression has the bytes of so many rows, or is too short.
pub fn test_packed(strip: &[u8], width: u32, rows: u32) -> Result<(), Refusal>
    requires wide { width ≤ MAX_WIDTH }
    requires high { rows ≤ 20032 }
    ensures long { IfOk result (λ _. rows * row_bytes width ≤ length strip.now) }
    ensures refused { IfErr result (IfRule (PackedBreaks width rows strip.now)) }
{
    if strip.len() < bytes_of_strip(width, rows) {
        return Err(Refusal::Rule(strips()));
    }
    Ok(())
}
