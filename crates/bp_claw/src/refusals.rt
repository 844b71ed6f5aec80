// Why a production wasn't replaced.
use bp_core::Rule;
use thiserror::Error;

/// Why a replacement wasn't written whole.
#[derive(Clone, Copy, Debug, PartialEq, Eq, Error)]
pub enum ClawRefusal {
    /// What was asked breaks this rule.
    #[error("{0}")]
    Rule(Rule),
    /// The folder failed.
    #[error("writing a file failed")]
    FolderFault,
    /// There was too little memory.
    #[error("out of memory")]
    OutOfMemory,
}
