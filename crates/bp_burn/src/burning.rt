// Boxes burned into pages.
ghost use Rattle.std.specs.Prelude.{◌≡◌, ◌+◌, ◌<◌, ◌≤◌, ◌&&◌, ℕ, ◌∷◌, [], IfOk, IsTrue, nat_le, nat_lt};
ghost use Rattle.bp_core.specs.Rectangle.{LiesInside, has_pixel};
ghost use Rattle.bp_rows.specs.Burned.{burned, covers_pixel};
ghost use Rattle.bp_rows.specs.Limits.{sides_are_allowed};
ghost use Rattle.bp_burn.specs.Ink.{above, in_row, inked, with_white_rows};

use bp_core::{OutOfMemory, Rect, RectList};
use bp_rows::{Page, bytes_of_strip};
use std::alloc::Global;

/// Makes the pixels of a row black that some box has, and no other.
pub fn burn_row(page: &mut Page, row: u32, boxes: &RectList)
    requires { row < page.old.height }
    ensures { page.new ≡ inked page.old (in_row row boxes.now) }
{
    let width = page.width();
    for area in boxes.as_slice() {
        let (from, to) = columns_in_row(area, row, width);
        page.blacken(row, from, to);
    }
}

// The columns that a box has in a row of a page, from the first up to the last, which is not one.
fn columns_in_row(area: &Rect, row: u32, width: u32) -> (u32, u32)
    ensures order { result.0 ≤ result.1 }
    ensures within { result.1 ≤ width }
    ensures pixels { (c : ℕ) → c < width →
        (nat_le result.0 c && nat_lt c result.1) ≡ has_pixel area.now row c }
{
    let from = area.left.min(width);
    if area.top <= row && row - area.top < area.height {
        (from, from + area.width.min(width - from))
    } else {
        (from, from)
    }
}

/// The page with the pixels black that some box has, and every other pixel as it was. A box may
/// pass the edges of the page.
pub fn burn(alloc: Global, page: &Page, boxes: &RectList) -> Result<Page, OutOfMemory>
    ensures { IfOk result (λ out. out ≡ burned page.now boxes.now) }
{
    let height = page.height();
    let mut out = copy_with_rows(alloc, page, 0)?;
    burn_boxes(&mut out, boxes.as_slice(), height);
    Ok(out)
}

/// Makes the pixels of a page black that some box has, and no other. A box may pass the edges of the
/// page. It takes no memory.
pub fn burn_in_place(page: &mut Page, boxes: &[Rect])
    ensures { page.new ≡ burned page.old boxes.now }
{
    let height = page.height();
    burn_boxes(page, boxes, height);
}

/// Makes the pixels of the first rows of a page, which are so many, black that some box has.
pub fn burn_boxes(page: &mut Page, boxes: &[Rect], rows: u32)
    requires { rows ≤ page.old.height }
    ensures { page.new ≡ inked page.old (above rows boxes.now) }
{
    let width = page.width();
    for area in boxes {
        page.blacken_box(&clipped(area, width, rows));
    }
}

// What of a box lies in a page of these sides.
fn clipped(area: &Rect, width: u32, height: u32) -> Rect
    ensures inside { LiesInside result width height }
    ensures pixels { (r c : ℕ) → c < width →
        has_pixel result r c ≡ (nat_lt r height && has_pixel area.now r c) }
{
    let left = area.left.min(width);
    let top = area.top.min(height);
    Rect {
        left,
        top,
        width: area.width.min(width - left),
        height: area.height.min(height - top),
    }
}

/// A page of the same pixels, with so many white rows below them.
pub fn copy_with_rows(alloc: Global, page: &Page, more: u32) -> Result<Page, OutOfMemory>
    requires { IsTrue (sides_are_allowed page.now.width (page.now.height + more)) }
    ensures { IfOk result (λ out. out ≡ with_white_rows page.now more) }
{
    let strip = page.strip();
    let height = page.height() + more;
    let size = bytes_of_strip(page.width(), height);
    let mut rows = Vec::with_capacity(alloc, size)?;
    rows.extend_from_slice(strip)?;
    rows.resize(size, 0)?;
    let out = Page::from_strip(
        page.width(),
        height,
        page.xres(),
        page.yres(),
        page.unit(),
        rows,
    );
    Ok(out.unwrap())
}
