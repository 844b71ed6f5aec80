// Why a call has no reply.
use bp_core::Rule;
use thiserror::Error;

/// Why a call has no reply. After all but a broken rule the call doesn't stand in the history.
#[derive(Clone, Copy, Debug, PartialEq, Eq, Error)]
pub enum DeskRefusal {
    /// It breaks this rule.
    #[error("{0}")]
    Rule(Rule),
    /// The keeper failed.
    #[error("keeping rows failed")]
    KeeperFault,
    /// The history has this many calls, and no room for more.
    #[error("the history has {count} calls and is full")]
    JournalFull { count: u64 },
    /// There was too little memory.
    #[error("out of memory")]
    OutOfMemory,
}
