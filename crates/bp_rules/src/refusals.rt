// Why a matter wasn't loaded, and why a step wasn't made.
use bp_core::{Refusal, Rule};
use bp_keep::KeepRefusal;
use std::convert::From;
use thiserror::Error;

/// Why no tables were loaded, or no step was made.
#[derive(Clone, Copy, Debug, PartialEq, Eq, Error)]
pub enum MatterRefusal {
    /// This rule is broken: of loading, NoMatter where there is no row, KeptRowBad where the rows
    /// are those of no valid matter; of a step, the first of what was asked.
    #[error("{0}")]
    Rule(Rule),
    /// The keeper failed.
    #[error("keeping rows failed")]
    KeeperFault,
    /// There was too little memory.
    #[error("out of memory")]
    OutOfMemory,
}

impl From<Refusal> for MatterRefusal {
    ghost use Rattle.bp_rules.specs.Refusals.{RefusesFor};

    ghost from_gives = { RefusesFor };

    fn from(refusal: Refusal) -> MatterRefusal {
        match refusal {
            Refusal::Rule(rule) => MatterRefusal::Rule(rule),
            Refusal::OutOfMemory => MatterRefusal::OutOfMemory,
        }
    }
}

impl From<KeepRefusal> for MatterRefusal {
    ghost use Rattle.bp_rules.specs.Refusals.{RefusesForKeeper};

    ghost from_gives = { RefusesForKeeper };

    fn from(refusal: KeepRefusal) -> MatterRefusal {
        match refusal {
            KeepRefusal::Failed => MatterRefusal::KeeperFault,
            KeepRefusal::OutOfMemory => MatterRefusal::OutOfMemory,
        }
    }
}
