// What the seats of a desk know. Values of these types are made in proofs alone, but for `Opening`.
use bp_book::Made;
use bp_matter::Tables;
use std::collections::LinkedList;
use std::marker::Model;
use std::snapshot::Snapshot;

/// The tables that a desk began with. Contracts see their matter.
pub struct Began {
    pub tables: Tables,
}

impl Model for Began {
    ghost use Rattle.bp_matter.specs.Matter.{Matter};

    ghost Value = { Matter };

    ghost view = { λ b. b.tables.matter };
}

/// What the table of a desk is told once, when it is made.
pub struct Opening<B> {
    /// The book as it was then.
    pub book: Snapshot<B>,
    /// How many seats there are.
    pub seats: u32,
}

impl<B> Drop for Opening<B> {
    fn drop(self) {
        let Self { book: _, seats: _ } = self;
    }
}

/// What was known at a seat that another took in.
pub struct Peer {
    pub number: u32,
    pub seen: LinkedList<Made>,
    pub mine: LinkedList<Made>,
    /// The keeper's count of faults as its last turn left it.
    pub left: u64,
}

/// What was known of the keeper when the desk began, beside its count of faults.
pub struct KeeperBegan {
    /// Whether it told its rows.
    pub told: bool,
    /// How often it was asked to load.
    pub loads: u64,
    /// Whether it is one that can't fail.
    pub sure: bool,
}

/// What a seat knows.
pub struct View {
    /// Its number, from 1; 0 of a note, and of a seat that was taken in.
    pub number: u32,
    /// At seat 1, how many numbers are given.
    pub given: u32,
    /// What the desk began with.
    pub opening: Began,
    /// The keeper's count of faults when the desk began.
    pub base: u64,
    /// What else was known of the keeper then.
    pub keeper: KeeperBegan,
    /// How many calls there may be.
    pub room: u64,
    /// A beginning of the history.
    pub seen: LinkedList<Made>,
    /// The calls of its number in the history.
    pub mine: LinkedList<Made>,
    /// The keeper's count of faults as its last turn found it.
    pub found: u64,
    /// And as that turn left it.
    pub left: u64,
    /// What its own turns raised the count by.
    pub raised: u64,
    /// Whether it holds the turn.
    pub holds: bool,
    /// Those that it took in and hasn't settled with.
    pub met: LinkedList<Peer>,
}
