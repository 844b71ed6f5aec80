// Rows that stand in the file as a page keeps them: without compression, one behind another.
ghost use Rattle.std.specs.Prelude.{◌≡◌, ◌+◌, ◌*◌, ◌≤◌, ◌<◌, true, false, length, None, IfSome};
ghost use Rattle.bp_rows.specs.Bits.{row_bytes};
ghost use Rattle.bp_tiff.specs.Appending.{HoldsAll};
ghost use Rattle.bp_tiff.specs.Layout.{IsLaid};
ghost use Rattle.bp_tiff.specs.Standing.{Follows, StandTogether, rows_from};

use crate::layout::Layout;
use crate::strips::rows_at;
use bp_rows::bytes_of_strip;

/// Where the rows of all strips stand in the file, one behind another, if they do.
pub fn place_of_rows(bytes: &[u8], layout: &Layout) -> Option<usize>
    requires laid { IsLaid bytes.now layout.now }
    ensures within { let size = layout.now.sides.height * row_bytes layout.now.sides.width in
        IfSome result (λ at. at + size ≤ length bytes.now) }
    ensures holds { let l = layout.now in
        IfSome result (λ at. HoldsAll bytes.now l (rows_from bytes.now l at l.sides.height)) }
    ensures none { result ≡ None → ¬ (StandTogether bytes.now layout.now) }
{
    if layout.coding.is_t6 {
        return None;
    }
    let first = layout.strips.offsets.at(bytes, &layout.directory, 0) as usize;
    for k in 0..layout.strips.count {
        if !strip_follows(bytes, layout, first, k) {
            return None;
        }
    }
    Some(first)
}

// Whether strip k begins where the rows before it end, and has bytes for all of its own.
fn strip_follows(bytes: &[u8], layout: &Layout, first: usize, k: u32) -> bool
    requires laid { IsLaid bytes.now layout.now }
    requires within { k < layout.now.strips.count }
    ensures yes { result ≡ true → Follows bytes.now layout.now first k }
    ensures no { result ≡ false → ¬ (Follows bytes.now layout.now first k) }
{
    let offset = layout.strips.offsets.at(bytes, &layout.directory, k) as usize;
    let length = layout.strips.lengths.at(bytes, &layout.directory, k) as usize;
    let before = bytes_of_strip(layout.sides.width, k * layout.strips.rows);
    let size = bytes_of_strip(layout.sides.width, rows_at(layout, k));
    offset.checked_sub(first) == Some(before) && size <= length
}
