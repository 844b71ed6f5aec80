// Pages that stand in their file in one strip of Group 4.
ghost use Rattle.std.specs.Prelude.{◌≡◌, ◌+◌, ◌≤◌, ◌<◌, ◌^◌, true, length, take, drop, IfOk, IfSome, IsTrue};
ghost use Rattle.bp_codes.specs.declared.span.Fill.TheVariants.{High};
ghost use Rattle.bp_import.specs.Scans.{comes_in};
ghost use Rattle.bp_import.specs.Strips.{IsOneStrip, frame_of};
ghost use Rattle.bp_tiff.specs.Layout.{IsLaid};
ghost use Rattle.bp_tiff.specs.Read.{TiffReads, strip_bytes};

use bp_codes::Fill;
use bp_core::OutOfMemory;
use bp_matter::{Frame, KeptPage};
use bp_rows::import_sides;
use bp_tiff::{Layout, read_layout};
use std::alloc::Global;

/// The page of a file of one strip of Group 4, white as 0 and the first bit highest, whose sides are
/// those of an import. It is read a row at a time, without pixels. None of any other file, and where the
/// strip breaks a rule.
pub(crate) fn page_of_one_strip(
    alloc: Global,
    bytes: &[u8],
) -> Result<Option<KeptPage>, OutOfMemory>
    ensures found { IfOk result (λ page. IfSome page (TiffReads bytes.now)) }
    ensures fits { IfOk result (λ page. IfSome page (λ p. IsTrue (comes_in p))) }
{
    let layout = match read_layout(bytes) {
        Ok(layout) => layout,
        Err(_) => return Ok(None),
    };
    if !is_one_strip(&layout) {
        return Ok(None);
    }
    let page = KeptPage::of_strip(alloc, frame_of(&layout), first_strip(bytes, &layout))?;
    Ok(page)
}

// Whether the page is one of an import, in one strip of Group 4 whose bits are as a page keeps them.
fn is_one_strip(layout: &Layout) -> bool
    ensures { result ≡ true → IsOneStrip layout.now }
{
    layout.coding.is_t6
        && !layout.coding.zero_is_black
        && is_high(layout.coding.fill)
        && layout.strips.count == 1
        && layout.strips.rows >= layout.sides.height
        && import_sides(layout.sides.width, layout.sides.height)
}

// Whether the first bit is the highest of its byte.
fn is_high(fill: Fill) -> bool
    ensures { result ≡ true → fill ≡ High }
{
    match fill {
        Fill::High => true,
        Fill::Low => false,
    }
}

// What the file says of its page beside the rows.
fn frame_of(layout: &Layout) -> Frame
    ensures { result ≡ frame_of layout.now }
{
    Frame {
        width: layout.sides.width,
        height: layout.sides.height,
        xres: layout.scale.xres,
        yres: layout.scale.yres,
        unit: layout.scale.unit,
    }
}

// The bytes of the only strip.
fn first_strip<'a>(bytes: &'a [u8], layout: &Layout) -> &'a [u8]
    requires laid { IsLaid bytes.now layout.now }
    requires one { layout.now.strips.count ≡ 1 }
    ensures gives { result.now ≡ strip_bytes bytes.now layout.now 0 }
    ensures short { length result.now < 2 ^ 32 }
{
    let offset = layout.strips.offsets.at(bytes, &layout.directory, 0) as usize;
    let size = layout.strips.lengths.at(bytes, &layout.directory, 0) as usize;
    part(bytes, offset, size)
}

fn part(bytes: &[u8], offset: usize, size: usize) -> &[u8]
    requires { offset + size ≤ length bytes.now }
    ensures gives { result.now ≡ take size (drop offset bytes.now) }
    ensures long { length result.now ≡ size }
{
    &bytes[offset..offset + size]
}
