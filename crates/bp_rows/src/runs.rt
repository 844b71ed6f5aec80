// The runs of a row: found from its changing elements, and painted by masks and whole bytes.
ghost use Rattle.std.specs.Prelude.{◌≡◌, ℕ, ◌+◌, ◌-◌, ◌*◌, ◌<◌, ◌≤◌, ◌&&◌, ◌||◌, Bool, List, OnOk, nat_le, nat_lt, not, length, false, sum, slice_index_or};
ghost use Rattle.bp_rows.specs.Bits.{black_at, Whitens, AreBytes};
ghost use Rattle.bp_rows.specs.Changes.{Rises, Shows};
ghost use Rattle.bp_rows.specs.Runs.{painted_runs, IsRuns};

use crate::bits::blacken;
use bp_core::ListOf;
use std::alloc::AllocError;

/// Lengths in pixels in turn, of white and black, the first white.
pub type Runs = ListOf<u32>;

/// The runs of the row of that width which the places show.
pub fn push_runs(runs: &mut Vec<u32>, places: &[u32], width: u32) -> Result<(), AllocError>
    requires { Rises places.now width }
    ensures { (row : List Bool) →
        Shows places.now width row → OnOk result (IsRuns runs.new.items row) }
{
    runs.clear();
    let mut last = 0;
    let mut k = 0;
    while k < places.len() && places[k] < width {
        runs.push(places[k] - last)?;
        last = places[k];
        k += 1;
    }
    runs.push(width - last)?;
    Ok(())
}

/// Makes whole bytes the pixels of runs in turn, the first white, and white after them.
pub fn set_runs_at(bytes: &mut [u8], first: usize, size: usize, runs: &[u32])
    requires within { first + size ≤ length bytes.old }
    requires total { sum runs.now ≤ 8 * size }
    requires small { length bytes.old ≤ 50080000 }
    ensures pixels { let start = 8 * first in let end = 8 * (first + size) in
        (k : ℕ) → black_at bytes.new k
        ≡ ((nat_le start k && slice_index_or (painted_runs false runs.now) (k - start) false)
        || (not (nat_le start k && nat_lt k end) && black_at bytes.old k)) }
    ensures fit { AreBytes bytes.new }
{
    whiten_bytes(bytes, first, first + size);
    blacken_runs(bytes, 8 * first, runs);
}

// Makes whole bytes white.
fn whiten_bytes(bytes: &mut [u8], first: usize, last: usize)
    requires order { first ≤ last }
    requires end { last ≤ length bytes.old }
    ensures { Whitens (8 * first) (8 * last) bytes.old bytes.new }
{
    for i in first..last {
        bytes[i] = 0;
    }
}

// Makes every second run black from a place on, the first one not.
fn blacken_runs(bytes: &mut [u8], start: usize, runs: &[u32])
    requires end { start + sum runs.now ≤ 8 * length bytes.old }
    requires small { length bytes.old ≤ 50080000 }
    ensures { (k : ℕ) → black_at bytes.new k
        ≡ ((nat_le start k && slice_index_or (painted_runs false runs.now) (k - start) false)
        || black_at bytes.old k) }
{
    let mut at = start;
    let mut black = false;
    for run in runs {
        let end = at + *run as usize;
        if black {
            blacken(bytes, at, end);
        }
        at = end;
        black = !black;
    }
}
