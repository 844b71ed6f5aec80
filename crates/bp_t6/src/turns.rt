// The turns of a row under way in the reader.
ghost use Rattle.std.specs.Prelude.{◌≡◌, ◌+◌, ◌<◌, ◌≤◌, Bool, List, not, length, OnOk, vec_len, vec_capacity};
ghost use Rattle.bp_rows.specs.Changes.{odd, Shows};
ghost use Rattle.bp_t6.specs.Turns.{Turns};

use std::alloc::AllocError;

// A mode has at most so many turns.
const TURNS: usize = 2;

/// Makes room for the turns of a mode, which take no memory then.
#[inline(always)]
pub fn make_room(line: &mut Vec<u32>) -> Result<(), AllocError>
    ensures kept { line.new.items ≡ line.old.items }
    ensures room { OnOk result (vec_len line.new + TURNS ≤ vec_capacity line.new) }
{
    line.reserve(TURNS)
}

/// Turns the colour at a place right of all turns before it, or takes back the turn that stands
/// there. It takes no memory.
#[inline(always)]
pub fn turn(line: &mut Vec<u32>, place: u32)
    requires turns { Turns line.old.items place }
    requires room { vec_len line.old < vec_capacity line.old }
    ensures turns { Turns line.new.items place }
    ensures colour { odd (length line.new.items) ≡ not (odd (length line.old.items)) }
    ensures shows { (pixels : List Bool) →
        Shows line.old.items place pixels → Shows line.new.items place pixels }
    ensures one { vec_len line.new ≤ vec_len line.old + 1 }
    ensures room { vec_capacity line.new ≡ vec_capacity line.old }
{
    let count = line.len();
    if count > 0 && line[count - 1] == place {
        line.pop();
        return;
    }
    line.push_reserved(place);
}
