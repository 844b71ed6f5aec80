// The answers of a call that couldn't do what was asked.
ghost use Rattle.std.specs.Prelude.{◌≡◌};

use crate::rules::{Rule, RuleKind};
use std::alloc::{AllocError, AllocFailed};
use std::convert::From;
use thiserror::Error;

/// There was too little memory.
#[derive(Clone, Copy, Debug, PartialEq, Eq, Error)]
#[error("out of memory")]
pub struct OutOfMemory;

impl From<AllocError> for OutOfMemory {
    fn from(_error: AllocError) -> OutOfMemory {
        OutOfMemory
    }
}

impl<T: Drop> From<AllocFailed<T>> for OutOfMemory {
    fn from(_error: AllocFailed<T>) -> OutOfMemory {
        OutOfMemory
    }
}

/// Why a call that may break a rule gave nothing.
#[derive(Clone, Copy, Debug, PartialEq, Eq, Error)]
pub enum Refusal {
    /// What was asked breaks this rule.
    #[error("{0}")]
    Rule(Rule),
    /// There was too little memory.
    #[error("out of memory")]
    OutOfMemory,
}

impl Refusal {
    ghost use Rattle.bp_core.specs.Refusals.{bare_refusal};

    /// By a rule that uses no line and no value.
    pub fn bare(kind: RuleKind) -> Refusal
        ensures { result ≡ bare_refusal kind }
    {
        Refusal::Rule(Rule::bare(kind))
    }
}

impl From<Rule> for Refusal {
    ghost use Rattle.std.specs.Prelude.{◌≡◌};
    ghost use Rattle.bp_core.specs.declared.refusals.Refusal.TheVariants as refusals;

    ghost from_gives = { λ rule refusal. refusal ≡ refusals.Rule rule };

    fn from(rule: Rule) -> Refusal {
        Refusal::Rule(rule)
    }
}

impl From<OutOfMemory> for Refusal {
    ghost use Rattle.std.specs.Prelude.{◌≡◌};
    ghost use Rattle.bp_core.specs.declared.refusals.Refusal.TheVariants as refusals;

    ghost from_gives = { λ _ refusal. refusal ≡ refusals.OutOfMemory };

    fn from(_error: OutOfMemory) -> Refusal {
        Refusal::OutOfMemory
    }
}

impl From<AllocError> for Refusal {
    ghost use Rattle.std.specs.Prelude.{◌≡◌};
    ghost use Rattle.bp_core.specs.declared.refusals.Refusal.TheVariants as refusals;

    ghost from_gives = { λ _ refusal. refusal ≡ refusals.OutOfMemory };

    fn from(_error: AllocError) -> Refusal {
        Refusal::OutOfMemory
    }
}

impl<T: Drop> From<AllocFailed<T>> for Refusal {
    ghost use Rattle.std.specs.Prelude.{◌≡◌};
    ghost use Rattle.bp_core.specs.declared.refusals.Refusal.TheVariants as refusals;

    ghost from_gives = { λ _ refusal. refusal ≡ refusals.OutOfMemory };

    fn from(_error: AllocFailed<T>) -> Refusal {
        Refusal::OutOfMemory
    }
}
