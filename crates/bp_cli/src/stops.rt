// Where the work of a command stopped.
use bp_core::{OutOfMemory, Refusal, Rule};
use bp_import::ImportRefusal;
use bp_keep::KeepRefusal;
use bp_outside::FolderRefusal;
use bp_press::PressRefusal;
use bp_rules::MatterRefusal;
use std::alloc::AllocError;
use std::convert::From;

/// Why the work of a command gave no line to print.
#[derive(Clone, Copy, Debug, PartialEq, Eq)]
pub enum Stop {
    /// The words are no command line.
    WordsRefused,
    /// What was asked breaks this rule.
    Broken(Rule),
    /// The source failed.
    SourceFault,
    /// The folder failed.
    FolderFault,
    /// The keeper failed.
    KeeperFault,
    /// There was too little memory.
    OutOfMemory,
}

impl From<Refusal> for Stop {
    ghost use Rattle.bp_cli.specs.Stops.{StopsFor};

    ghost from_gives = { StopsFor };

    fn from(refusal: Refusal) -> Stop {
        match refusal {
            Refusal::Rule(rule) => Stop::Broken(rule),
            Refusal::OutOfMemory => Stop::OutOfMemory,
        }
    }
}

impl From<FolderRefusal> for Stop {
    ghost use Rattle.bp_cli.specs.Stops.{StopsForFolder};

    ghost from_gives = { StopsForFolder };

    fn from(refusal: FolderRefusal) -> Stop {
        match refusal {
            FolderRefusal::Failed => Stop::FolderFault,
            FolderRefusal::OutOfMemory => Stop::OutOfMemory,
        }
    }
}

impl From<KeepRefusal> for Stop {
    ghost use Rattle.bp_cli.specs.Stops.{StopsForKeeper};

    ghost from_gives = { StopsForKeeper };

    fn from(refusal: KeepRefusal) -> Stop {
        match refusal {
            KeepRefusal::Failed => Stop::KeeperFault,
            KeepRefusal::OutOfMemory => Stop::OutOfMemory,
        }
    }
}

impl From<MatterRefusal> for Stop {
    ghost use Rattle.bp_cli.specs.Stops.{StopsForMatter};

    ghost from_gives = { StopsForMatter };

    fn from(refusal: MatterRefusal) -> Stop {
        match refusal {
            MatterRefusal::Rule(rule) => Stop::Broken(rule),
            MatterRefusal::KeeperFault => Stop::KeeperFault,
            MatterRefusal::OutOfMemory => Stop::OutOfMemory,
        }
    }
}

impl From<ImportRefusal> for Stop {
    ghost use Rattle.bp_cli.specs.Stops.{StopsForBatch};

    ghost from_gives = { StopsForBatch };

    fn from(refusal: ImportRefusal) -> Stop {
        match refusal {
            ImportRefusal::Rule(rule) => Stop::Broken(rule),
            ImportRefusal::SourceFault => Stop::SourceFault,
            ImportRefusal::OutOfMemory => Stop::OutOfMemory,
        }
    }
}

impl From<PressRefusal> for Stop {
    ghost use Rattle.bp_cli.specs.Stops.{StopsForPress};

    ghost from_gives = { StopsForPress };

    fn from(refusal: PressRefusal) -> Stop {
        match refusal {
            PressRefusal::FolderFault => Stop::FolderFault,
            PressRefusal::OutOfMemory => Stop::OutOfMemory,
        }
    }
}

impl From<OutOfMemory> for Stop {
    ghost use Rattle.std.specs.Prelude.{◌≡◌};
    ghost use Rattle.bp_cli.specs.declared.stops.Stop.TheVariants as stops;

    ghost from_gives = { λ _ stop. stop ≡ stops.OutOfMemory };

    fn from(_error: OutOfMemory) -> Stop {
        Stop::OutOfMemory
    }
}

impl From<AllocError> for Stop {
    ghost use Rattle.std.specs.Prelude.{◌≡◌};
    ghost use Rattle.bp_cli.specs.declared.stops.Stop.TheVariants as stops;

    ghost from_gives = { λ _ stop. stop ≡ stops.OutOfMemory };

    fn from(_error: AllocError) -> Stop {
        Stop::OutOfMemory
    }
}
