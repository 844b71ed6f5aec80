// The three indexes: what stands at the front of each short list of bits.
ghost use Rattle.std.specs.Prelude.{◌≡◌, ◌<◌, length, slice_index};
ghost use Rattle.bp_codes.specs.Fronts.{fronts};

use crate::black_index::BLACK_INDEX;
use crate::mode_index::MODE_INDEX;
use crate::white_index::WHITE_INDEX;

/// An index of one of the three tables. It keeps, for each list of at most so many bits as the longest code
/// has, the code that begins them, or why none does. The place of a list is the number that its bits are
/// with a 1 before them. A code is kept as its row and 256 times its length.
#[derive(Clone, Copy, Debug)]
pub enum Index {
    White,
    Black,
    Modes,
}

/// In an index: the bits are a proper prefix of a code.
pub const ENDS: u16 = 255;

/// In an index: no code begins the bits, and they are no proper prefix of one.
pub const STRANGE: u16 = 254;

/// In an index: what is at least this much is a code.
pub const CODES: u16 = 256;

impl Index {
    /// What stands at a place of the index: a code, `ENDS` or `STRANGE`.
    pub fn at(self, place: usize) -> u16
        requires { place < length (fronts self) }
        ensures { result ≡ slice_index (fronts self) place }
    {
        match self {
            Index::White => WHITE_INDEX[place],
            Index::Black => BLACK_INDEX[place],
            Index::Modes => MODE_INDEX[place],
        }
    }
}
