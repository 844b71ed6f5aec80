// The changing elements of a row, from its runs or from places that show it.
ghost use Rattle.std.specs.Prelude.{◌≡◌, ◌+◌, ◌<◌, ◌≤◌, ◌^◌, ℕ, Bool, List, OnOk, length, sum, false, slice_index_or};
ghost use Rattle.bp_rows.specs.Changes.{changes_of, place_at, Rises, Shows};
ghost use Rattle.bp_rows.specs.Runs.{painted_runs};

use std::alloc::AllocError;

/// The places of the changing elements of the row of these runs, in place of what the list held:
/// where each run but the first begins.
pub fn push_places(places: &mut Vec<u32>, runs: &[u32]) -> Result<(), AllocError>
    requires small { sum runs.now < 2 ^ 32 }
    requires least { (k : ℕ) →
        0 < k → k < length runs.now → 1 ≤ slice_index_or runs.now k 0 }
    ensures { OnOk result (places.new.items ≡ changes_of (painted_runs false runs.now)) }
{
    places.clear();
    if runs.is_empty() {
        return Ok(());
    }
    let mut at = runs[0];
    for run in &runs[1..] {
        places.push(at)?;
        at += *run;
    }
    Ok(())
}

/// The places of the changing elements of the row that places show, in place of what the list held:
/// those left of the width.
pub fn copy_places(changes: &mut Vec<u32>, places: &[u32], width: u32) -> Result<(), AllocError>
    requires { Rises places.now width }
    ensures { (row : List Bool) →
        Shows places.now width row → OnOk result (changes.new.items ≡ changes_of row) }
{
    let count = count_within(places, width);
    changes.clear();
    changes.extend_from_slice(&places[..count])?;
    Ok(())
}

/// How many of the places that show a row are left of the width: those of its changing elements.
#[inline(always)]
pub fn count_within(places: &[u32], width: u32) -> usize
    requires { Rises places.now width }
    ensures few { result ≤ length places.now }
    ensures last { (k : ℕ) → k + 1 ≡ result → slice_index_or places.now k 0 < width }
    ensures end { (k : ℕ) → result ≤ k → place_at places.now width k ≡ width }
{
    let mut count = places.len();
    while count > 0 && width <= places[count - 1] {
        count -= 1;
    }
    count
}
