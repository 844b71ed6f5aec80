// Why a keeper didn't do what was asked.
use bp_core::OutOfMemory;
use std::alloc::AllocError;
use std::convert::From;
use thiserror::Error;

/// Why a keeper gave no rows, or made no put.
#[derive(Clone, Copy, Debug, PartialEq, Eq, Error)]
pub enum KeepRefusal {
    /// The keeper failed.
    #[error("keeping rows failed")]
    Failed,
    /// There was too little memory.
    #[error("out of memory")]
    OutOfMemory,
}

impl From<AllocError> for KeepRefusal {
    ghost use Rattle.std.specs.Prelude.{◌≡◌};
    ghost use Rattle.bp_keep.specs.declared.refusals.KeepRefusal.TheVariants as refusals;

    ghost from_gives = { λ _ refusal. refusal ≡ refusals.OutOfMemory };

    fn from(_error: AllocError) -> KeepRefusal {
        KeepRefusal::OutOfMemory
    }
}

impl From<OutOfMemory> for KeepRefusal {
    ghost use Rattle.std.specs.Prelude.{◌≡◌};
    ghost use Rattle.bp_keep.specs.declared.refusals.KeepRefusal.TheVariants as refusals;

    ghost from_gives = { λ _ refusal. refusal ≡ refusals.OutOfMemory };

    fn from(_error: OutOfMemory) -> KeepRefusal {
        KeepRefusal::OutOfMemory
    }
}
