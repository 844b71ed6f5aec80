// Why a batch wasn't read.
use bp_core::{OutOfMemory, Refusal, Rule};
use std::alloc::{AllocError, AllocFailed};
use std::convert::From;
use thiserror::Error;

/// Why a batch wasn't read.
#[derive(Clone, Copy, Debug, PartialEq, Eq, Error)]
pub enum ImportRefusal {
    /// It breaks this rule.
    #[error("{0}")]
    Rule(Rule),
    /// The source failed.
    #[error("reading failed")]
    SourceFault,
    /// There was too little memory.
    #[error("out of memory")]
    OutOfMemory,
}

impl From<Refusal> for ImportRefusal {
    ghost use Rattle.bp_import.specs.Refusals.{BecomesRefusal};

    ghost from_gives = { BecomesRefusal };

    fn from(refusal: Refusal) -> ImportRefusal {
        match refusal {
            Refusal::Rule(rule) => ImportRefusal::Rule(rule),
            Refusal::OutOfMemory => ImportRefusal::OutOfMemory,
        }
    }
}

impl From<OutOfMemory> for ImportRefusal {
    ghost use Rattle.std.specs.Prelude.{◌≡◌};
    ghost use Rattle.bp_import.specs.declared.refusals.ImportRefusal.TheVariants as refusals;

    ghost from_gives = { λ _ refusal. refusal ≡ refusals.OutOfMemory };

    fn from(_error: OutOfMemory) -> ImportRefusal {
        ImportRefusal::OutOfMemory
    }
}

impl From<AllocError> for ImportRefusal {
    ghost use Rattle.std.specs.Prelude.{◌≡◌};
    ghost use Rattle.bp_import.specs.declared.refusals.ImportRefusal.TheVariants as refusals;

    ghost from_gives = { λ _ refusal. refusal ≡ refusals.OutOfMemory };

    fn from(_error: AllocError) -> ImportRefusal {
        ImportRefusal::OutOfMemory
    }
}

impl<T: Drop> From<AllocFailed<T>> for ImportRefusal {
    ghost use Rattle.std.specs.Prelude.{◌≡◌};
    ghost use Rattle.bp_import.specs.declared.refusals.ImportRefusal.TheVariants as refusals;

    ghost from_gives = { λ _ refusal. refusal ≡ refusals.OutOfMemory };

    fn from(_error: AllocFailed<T>) -> ImportRefusal {
        ImportRefusal::OutOfMemory
    }
}
