// A row under way in the reader.
use crate::run_reader::ReadFault;
use std::alloc::AllocError;
use std::convert::From;

/// Where a row under way stands: the first place right of a0, whether a0 is black, the position of
/// b1 among the changes of the row above, the bit of the next code, and whether each mode so far is the
/// one that the coder chooses.
#[derive(Clone, Copy)]
pub struct Under {
    pub right: u32,
    pub black: bool,
    pub from: usize,
    pub at: u64,
    pub canonical: bool,
}

/// Why reading stops.
#[derive(Clone, Copy)]
pub enum Stop {
    /// The strip breaks this rule at this bit.
    Fault(ReadFault),
    /// There was too little memory.
    OutOfMemory,
}

impl From<AllocError> for Stop {
    ghost use Rattle.std.specs.Prelude.{◌≡◌};
    ghost use Rattle.bp_t6.specs.declared.reading.Stop.TheVariants as stops;

    ghost from_gives = { λ _ stop. stop ≡ stops.OutOfMemory };

    fn from(_error: AllocError) -> Stop {
        Stop::OutOfMemory
    }
}
