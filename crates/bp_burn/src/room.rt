// Room for strips that go out.
ghost use Rattle.std.specs.Prelude.{◌≡◌, ◌*◌, ◌/◌, ◌≤◌, min};

use bp_core::{Rect, StampList};

// A strip of printed text has about a byte for so many pixels.
const PIXELS_A_BYTE: u64 = 128;

/// How many bytes the strip of a page of these sides is likely to take whose boxes are covered: by the
/// pixels outside of its boxes alone, so that nothing that is covered decides how much room is taken.
pub fn likely_size(width: u32, height: u32, stamps: &StampList) -> usize
    ensures { result ≤ width * height / PIXELS_A_BYTE }
{
    let page = u64::from(width) * u64::from(height);
    let mut bare = page;
    for stamp in stamps.as_slice() {
        bare = bare.saturating_sub(pixels_of(&stamp.rect, width, height));
    }
    (bare / PIXELS_A_BYTE) as usize
}

// How many pixels a rectangle has at most on a page of these sides.
fn pixels_of(area: &Rect, width: u32, height: u32) -> u64
    ensures { result ≡ min area.now.width width * min area.now.height height }
{
    u64::from(area.width.min(width)) * u64::from(area.height.min(height))
}
