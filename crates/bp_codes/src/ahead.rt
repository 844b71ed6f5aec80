// Codes found in a look-ahead.
ghost use Rattle.std.specs.Prelude.{◌≡◌, ◌≤◌, Bool, List, drop};
ghost use Rattle.bp_codes.specs.Ahead.{IsAhead, FindsCode, found_code};
ghost use Rattle.bp_codes.specs.CodeLists.{white_codes, black_codes, mode_codes};

use crate::black_index::BLACK_INDEX;
use crate::code::Found;
use crate::index::CODES;
use crate::mode_index::MODE_INDEX;
use crate::white_index::WHITE_INDEX;

/// The white code that begins behind the first `skipped` bits of a look-ahead, where one does.
#[inline(always)]
pub fn white_ahead(word: u64, skipped: u64) -> Option<Found>
    requires { skipped ≤ 44 }
    ensures { (bits : List Bool) → IsAhead word bits
        → FindsCode white_codes (drop skipped bits) result }
{
    found(WHITE_INDEX[4096 + (word << skipped >> 52) as usize])
}

/// The black code that begins behind the first `skipped` bits of a look-ahead, where one does.
#[inline(always)]
pub fn black_ahead(word: u64, skipped: u64) -> Option<Found>
    requires { skipped ≤ 44 }
    ensures { (bits : List Bool) → IsAhead word bits
        → FindsCode black_codes (drop skipped bits) result }
{
    found(BLACK_INDEX[8192 + (word << skipped >> 51) as usize])
}

/// The code of a mode that begins a look-ahead, where one does.
#[inline(always)]
pub fn mode_ahead(word: u64) -> Option<Found>
    ensures { (bits : List Bool) → IsAhead word bits → FindsCode mode_codes bits result }
{
    found(MODE_INDEX[128 + (word >> 57) as usize])
}

// What an entry of an index says, where it is a code.
#[inline(always)]
fn found(entry: u16) -> Option<Found>
    ensures { result ≡ found_code entry }
{
    if entry < CODES {
        return None;
    }
    Some(Found {
        row: usize::from(entry % CODES),
        len: u64::from(entry / CODES),
    })
}
