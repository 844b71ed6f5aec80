// Modes near b1 read.
ghost use Rattle.std.specs.Prelude.{◌≡◌, ◌<◌, ◌≤◌, ◌+◌, ◌-◌, ◌*◌, ◌^◌, ℕ, Bool, List, IfSome, None, true, false, [], ◌∷◌, ◌++◌, length, vec_len, vec_capacity, not};
ghost use Rattle.bp_rows.specs.Changes.{place_at, Shows, Rises};
ghost use Rattle.bp_t6.specs.Coding.{SteppedTo};
ghost use Rattle.bp_t6.specs.Near.{Holds, BeginsNear, near_mode};
ghost use Rattle.bp_t6.specs.Reading.{IsUnder, Steps};

use crate::lengths::VERTICAL_REACH;
use crate::near_index::NEAR_INDEX;
use crate::reading::Under;
use crate::row::{next_near_one, next_near_two};
use bp_rows::MAX_WIDTH;

/// A mode near b1: vertical with a1 at b1 + shift - 3, or pass, whose shift is 7. `len` is the length
/// of its code in bits.
#[derive(Clone, Copy)]
pub struct Near {
    pub shift: u32,
    pub len: u64,
}

// The place of b1 and the shift are so much past the first place right of a1.
const PAST: u32 = VERTICAL_REACH - 1;

// The shift that stands for pass mode.
const PASS_SHIFT: u32 = 2 * VERTICAL_REACH + 1;

/// The mode near b1 whose code begins the bits that a word holds, where one does.
#[inline(always)]
pub fn near_ahead(word: u64) -> Option<Near>
    ensures { (count : ℕ) (bits : List Bool) → Holds word count bits → 7 ≤ count
        → IfSome result (BeginsNear bits) }
{
    let entry = NEAR_INDEX[(word >> 57) as usize];
    if entry < 256 {
        return None;
    }
    Some(Near {
        shift: entry % 256,
        len: u64::from(entry / 256),
    })
}

// Turns the colour at a place right of all turns before it, or leaves it. A turn that is put and taken
// back is no branch, which would often be guessed wrong.
#[inline(always)]
fn turn_unless(line: &mut Vec<u32>, place: u32, stays: bool)
    requires { vec_len line.old < vec_capacity line.old }
    ensures stays { stays ≡ true → line.new.items ≡ line.old.items }
    ensures turns { stays ≡ false → line.new.items ≡ line.old.items ++ place ∷ [] }
    ensures room { vec_capacity line.new ≡ vec_capacity line.old }
{
    line.push_reserved(place);
    if stays {
        line.pop();
    }
}

// The colour behind a place where it turns, or stays.
#[inline(always)]
fn colour_unless(black: bool, stays: bool) -> bool
    ensures stays { stays ≡ true → result ≡ black }
    ensures turns { stays ≡ false → result ≡ not black }
{
    black == stays
}

// The position of the next b1 after a mode that starts from a change with one on each side, where it
// stays left of the width. Where only the coder's modes are wanted, a1 is to be left of b2: then one
// step is enough.
#[inline(always)]
fn next_b1(above: &[u32], width: u32, change: usize, right: u32, canonical: bool) -> Option<usize>
    requires rises { Rises above.now width }
    requires some { 0 < change }
    requires within { change + 1 < length above.now }
    ensures on { IfSome result (λ _. right ≤ width) }
    ensures left { canonical ≡ true
        → IfSome result (λ _. right ≤ place_at above.now width (change + 1)) }
    ensures step { IfSome result (λ from. SteppedTo above.now width (change - 1) from right) }
{
    let start = change - 1;
    if canonical {
        if above[change + 1] < right {
            return None;
        }
        return Some(next_near_one(above, start, right, width));
    }
    if width < right {
        return None;
    }
    Some(next_near_two(above, start, right, width))
}

/// A mode near b1, where it leads right and stays left of the width, the change that it starts from has
/// one on each side, and the list has room; else nothing is done. So no push lacks memory, and no turn is
/// taken back. Pass mode ends where a vertical mode of shift 3 from b2 would, in the same colour. Where
/// only the coder's modes are wanted, a1 is left of b2, too.
#[inline(always)]
pub fn read_near(
    width: u32,
    above: &[u32],
    under: Under,
    near: Near,
    line: &mut Vec<u32>,
) -> Option<Under>
    requires wide { width ≤ MAX_WIDTH }
    requires above { Rises above.now width }
    requires on { under.right ≤ width }
    requires onward { 0 < under.right }
    requires place { under.at + near.len < 2 ^ 64 }
    requires shift { near.shift ≤ PASS_SHIFT }
    requires under { IsUnder above.now line.old.items width under }
    ensures at { IfSome result (λ new. new.at ≡ under.at + near.len) }
    ensures under { IfSome result (λ new. IsUnder above.now line.new.items width new) }
    ensures moves { IfSome result (λ new. under.right < new.right) }
    ensures on { IfSome result (λ new. new.right ≤ width) }
    ensures kept { result ≡ None → line.new.items ≡ line.old.items }
    ensures room { vec_capacity line.new ≡ vec_capacity line.old }
    ensures steps { (over px : List Bool) → Shows above.now width over
        → Shows line.old.items (under.right - 1) px
        → IfSome result (λ new. Steps over px line.new.items under new (near_mode near.shift)) }
{
    let is_pass = near.shift == PASS_SHIFT;
    let change = under.from + usize::from(is_pass);
    let shift = if is_pass { VERTICAL_REACH } else { near.shift };
    if change == 0 || change + 1 >= above.len() || line.len() >= line.capacity() {
        return None;
    }
    let past = above[change] + shift;
    if past <= under.right + PAST {
        return None;
    }
    let right = past - PAST;
    let from = match next_b1(above, width, change, right, under.canonical) {
        Some(from) => from,
        None => return None,
    };
    turn_unless(line, right - 1, is_pass);
    Some(Under {
        right,
        black: colour_unless(under.black, is_pass),
        from,
        at: under.at + near.len,
        canonical: under.canonical,
    })
}
