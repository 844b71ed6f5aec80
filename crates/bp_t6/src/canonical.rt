// Whether a horizontal mode is the one that the coder chooses.
ghost use Rattle.std.specs.Prelude.{◌≡◌, ◌≤◌, ◌+◌, ◌-◌, Bool, List, true};
ghost use Rattle.bp_rows.specs.Changes.{Shows};
ghost use Rattle.bp_t6.specs.Canonical.{AreCanonicalRuns};
ghost use Rattle.bp_t6.specs.Coding.{IsNextFrom};
ghost use Rattle.bp_t6.specs.Modes.{Run, pixels_of_run};
ghost use Rattle.bp_t6.specs.Reading.{place_under};
ghost use Rattle.bp_t6.specs.Written.{written_run};

use crate::lengths::VERTICAL_REACH;
use crate::reading::Under;
use crate::run_reader::RunRead;
use bp_rows::{MAX_WIDTH, place_in};

/// Whether the coder chooses horizontal mode with two runs that were read, if the modes after it are its
/// own, too. Neither run may be empty, but for the first at the start of a row and the second at its end.
#[inline(always)]
pub fn are_canonical(
    above: &[u32],
    width: u32,
    under: Under,
    first: RunRead,
    second: RunRead,
) -> bool
    requires wide { width ≤ MAX_WIDTH }
    requires room { under.right - 1 + first.pixels ≤ width }
    requires on { under.right ≤ width }
    requires from { IsNextFrom above.now width under.from under.right under.black }
    ensures { (over : List Bool) (p q : Run) → Shows above.now width over
        → pixels_of_run p ≡ first.pixels → (first.canonical ≡ true → p ≡ written_run first.pixels)
        → pixels_of_run q ≡ second.pixels
        → (second.canonical ≡ true → q ≡ written_run second.pixels)
        → result ≡ true → AreCanonicalRuns over (place_under under) p q }
{
    let a1 = under.right.saturating_sub(1) + first.pixels;
    let b1 = place_in(above, under.from, width);
    let b2 = place_in(above, under.from + 1, width);
    let are_coded = first.canonical & second.canonical;
    if a1 < under.right || b2 < a1 || a1.abs_diff(b1) <= VERTICAL_REACH {
        return false;
    }
    are_coded & (u32::from(a1 < width) <= second.pixels)
}
