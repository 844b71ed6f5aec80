// Why a call on the outside gave nothing.
use bp_core::OutOfMemory;
use std::alloc::AllocError;
use std::convert::From;
use thiserror::Error;

/// Why a file wasn't read.
#[derive(Clone, Copy, Debug, PartialEq, Eq, Error)]
pub enum ReadRefusal {
    /// There is no such file.
    #[error("there is no such file")]
    Absent,
    /// The file has more bytes than the limit.
    #[error("the file is too long")]
    TooLong,
    /// The source failed.
    #[error("reading failed")]
    Failed,
    /// There was too little memory.
    #[error("out of memory")]
    OutOfMemory,
}

impl From<AllocError> for ReadRefusal {
    ghost use Rattle.std.specs.Prelude.{◌≡◌};
    ghost use Rattle.bp_outside.specs.declared.refusals.ReadRefusal.TheVariants as refusals;

    ghost from_gives = { λ _ refusal. refusal ≡ refusals.OutOfMemory };

    fn from(_error: AllocError) -> ReadRefusal {
        ReadRefusal::OutOfMemory
    }
}

/// Why a folder didn't do what was asked.
#[derive(Clone, Copy, Debug, PartialEq, Eq, Error)]
pub enum FolderRefusal {
    /// The folder failed.
    #[error("writing a file failed")]
    Failed,
    /// There was too little memory.
    #[error("out of memory")]
    OutOfMemory,
}

impl From<AllocError> for FolderRefusal {
    ghost use Rattle.std.specs.Prelude.{◌≡◌};
    ghost use Rattle.bp_outside.specs.declared.refusals.FolderRefusal.TheVariants as refusals;

    ghost from_gives = { λ _ refusal. refusal ≡ refusals.OutOfMemory };

    fn from(_error: AllocError) -> FolderRefusal {
        FolderRefusal::OutOfMemory
    }
}

/// Why bytes weren't written.
#[derive(Clone, Copy, Debug, PartialEq, Eq, Error)]
pub enum OutRefusal {
    /// The out failed.
    #[error("writing failed")]
    Failed,
    /// There was too little memory.
    #[error("out of memory")]
    OutOfMemory,
}

impl From<AllocError> for OutRefusal {
    ghost use Rattle.std.specs.Prelude.{◌≡◌};
    ghost use Rattle.bp_outside.specs.declared.refusals.OutRefusal.TheVariants as refusals;

    ghost from_gives = { λ _ refusal. refusal ≡ refusals.OutOfMemory };

    fn from(_error: AllocError) -> OutRefusal {
        OutRefusal::OutOfMemory
    }
}

impl From<OutOfMemory> for FolderRefusal {
    ghost use Rattle.std.specs.Prelude.{◌≡◌};
    ghost use Rattle.bp_outside.specs.declared.refusals.FolderRefusal.TheVariants as refusals;

    ghost from_gives = { λ _ refusal. refusal ≡ refusals.OutOfMemory };

    fn from(_error: OutOfMemory) -> FolderRefusal {
        FolderRefusal::OutOfMemory
    }
}

impl From<OutOfMemory> for OutRefusal {
    ghost use Rattle.std.specs.Prelude.{◌≡◌};
    ghost use Rattle.bp_outside.specs.declared.refusals.OutRefusal.TheVariants as refusals;

    ghost from_gives = { λ _ refusal. refusal ≡ refusals.OutOfMemory };

    fn from(_error: OutOfMemory) -> OutRefusal {
        OutRefusal::OutOfMemory
    }
}

/// Why a door didn't do what was asked.
#[derive(Clone, Copy, Debug, PartialEq, Eq, Error)]
pub enum DoorRefusal {
    /// The door failed.
    #[error("the door failed")]
    Failed,
    /// There was too little memory.
    #[error("out of memory")]
    OutOfMemory,
}

impl From<AllocError> for DoorRefusal {
    ghost use Rattle.std.specs.Prelude.{◌≡◌};
    ghost use Rattle.bp_outside.specs.declared.refusals.DoorRefusal.TheVariants as refusals;

    ghost from_gives = { λ _ refusal. refusal ≡ refusals.OutOfMemory };

    fn from(_error: AllocError) -> DoorRefusal {
        DoorRefusal::OutOfMemory
    }
}

impl From<OutOfMemory> for DoorRefusal {
    ghost use Rattle.std.specs.Prelude.{◌≡◌};
    ghost use Rattle.bp_outside.specs.declared.refusals.DoorRefusal.TheVariants as refusals;

    ghost from_gives = { λ _ refusal. refusal ≡ refusals.OutOfMemory };

    fn from(_error: OutOfMemory) -> DoorRefusal {
        DoorRefusal::OutOfMemory
    }
}
