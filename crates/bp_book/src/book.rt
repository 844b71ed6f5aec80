// The tables of a matter with their keeper and the journal of calls.
ghost use Rattle.std.specs.Prelude.{◌≡◌, ◌≤◌, ◌<◌, ◌^◌, length, vec_capacity, vec_len, IfErr, IfOk};
ghost use Rattle.bp_rules.specs.Loading.{LoadsTables};
ghost use Rattle.bp_rules.specs.Steps.{KeepsRows};
ghost use Rattle.bp_book.specs.Books.{BookCalls, Opens, StaysWith, answer_of_step, entered_if, is_made};
ghost use Rattle.bp_book.specs.Calls.{made_by};
ghost use Rattle.bp_book.specs.Shown.{tables_of};

use crate::history::{History, MOST_CALLS, Made};
use crate::refusals::DeskRefusal;
use bp_core::OutOfMemory;
use bp_keep::Keeper;
use bp_matter::{Call, Reply, Tables};
use bp_rules::{MatterRefusal, load_tables, step};
use std::alloc::Global;
use std::marker::Model;
use std::snapshot::Snapshot;

/// The tables of a matter with their keeper and the journal of the calls that were made. The tables
/// are those after the journal from the opening ones, and told rows are those of the tables.
#[derive(Drop)]
pub struct Book<K: Keeper> {
    tables: Tables,
    keeper: K,
    journal: Vec<Made>,
    // How many calls the journal may have.
    room: u64,
    // The tables that were loaded, for contracts alone.
    opening: Snapshot<Tables>,
}

impl<K: Keeper> Model for Book<K> {
    ghost use Rattle.bp_book.specs.Shown.{BookView, IsBook};

    ghost Value = { BookView };

    ghost view = { λ b. record {
      opening = b.opening.value.matter;
      journal = b.journal.items;
      keeper = K.shows b.keeper;
      room = b.room;
    } };

    ghost invariant = { λ b. IsBook b.opening.value.matter b.journal.items b.room b.tables.matter
        (K.shows b.keeper) };
}

/// What a book leaves: the keeper, the tables and all calls in order.
#[derive(Drop)]
pub struct Closed<K> {
    pub keeper: K,
    pub tables: Tables,
    pub history: History,
}

/// Why no book was opened, with the keeper.
#[derive(Drop)]
pub struct NotStarted<K> {
    pub keeper: K,
    pub why: MatterRefusal,
}

impl<K: Keeper> Book<K> {
    /// Opens a book over the tables that the keeper has the rows of: an empty journal, with room
    /// for so many calls, at most `MOST_CALLS`. It is refused as `load_tables` is.
    pub fn start(alloc: Global, keeper: K, room: u64) -> Result<Book<K>, NotStarted<K>>
        requires { (0 < room) × (room ≤ MOST_CALLS) }
        ensures ok { IfOk result (λ book. Opens (K.shows keeper) room book) }
        ensures err { IfErr result (λ refused. LoadsTables (K.shows keeper) (Err refused.why)
            (K.shows refused.keeper)) }
    {
        let mut keeper = keeper;
        match load_tables(alloc, &mut keeper) {
            Ok(tables) => {
                tables.know_valid();
                let opening = Snapshot::of(&tables);
                Ok(Book {
                    tables,
                    keeper,
                    journal: Vec::new(alloc),
                    room,
                    opening,
                })
            }
            Err(why) => Err(NotStarted { keeper, why }),
        }
    }

    /// Makes a call at a seat, with the SHA-256 of its key. A reply or a broken rule is the answer
    /// on the tables after the journal, which then ends with the call. After each other refusal the
    /// call doesn't stand in it, and journal and rows are as they were: JournalFull exactly where
    /// the journal has as many calls as there is room for, KeeperFault only where the keeper failed
    /// at a call that changes the tables. Room is tested first, memory is taken next, and the
    /// keeper's commit comes last.
    pub fn call(
        &mut self,
        alloc: Global,
        seat: u32,
        key: &[u8; 32],
        call: &Call,
    ) -> Result<Reply, DeskRefusal>
        ensures called { BookCalls self.old (made_by seat key.now call.now) result self.new }
        ensures keeper { StaysWith self.old.keeper self.new.keeper }
        ensures rose { self.old.keeper.faults ≤ self.new.keeper.faults }
    {
        know_faults(&self.keeper);
        if self.journal.len() as u64 >= self.room {
            return Err(DeskRefusal::JournalFull { count: self.room });
        }
        let Ok(made) = made(alloc, seat, key, call) else {
            return Err(DeskRefusal::OutOfMemory);
        };
        if self.journal.reserve(1).is_err() {
            return Err(DeskRefusal::OutOfMemory);
        }
        let stepped = step(alloc, &mut self.tables, &mut self.keeper, key, call);
        let answer = answer_of_step(stepped);
        enter(&mut self.journal, made, is_made(&answer));
        answer
    }

    /// The keeper's count of faults.
    pub fn faults(&self) -> u64
        ensures { result ≡ self.now.keeper.faults }
    {
        self.keeper.faults()
    }

    /// The keeper, the tables after all calls, and the calls.
    pub fn end(self) -> Closed<K>
        ensures keeper { K.shows result.keeper ≡ self.keeper }
        ensures history { result.history ≡ self.journal }
        ensures tables { result.tables.matter ≡ tables_of self }
        ensures rows { KeepsRows self.keeper result.tables.matter }
        ensures room { length self.journal ≤ self.room }
    {
        let Book {
            tables,
            keeper,
            journal,
            room: _,
            opening: _,
        } = self;
        Closed {
            keeper,
            tables,
            history: History::from_vec(journal),
        }
    }
}

// A keeper's count of faults is a u64.
fn know_faults<K: Keeper>(keeper: &K)
    ensures { (K.shows keeper.now).faults < 2 ^ 64 }
{
    let _count = keeper.faults();
}

// The call as the journal has it.
fn made(alloc: Global, seat: u32, key: &[u8; 32], call: &Call) -> Result<Made, OutOfMemory>
    ensures { IfOk result (λ made. made ≡ made_by seat key.now call.now) }
{
    let call = call.copy(alloc)?;
    Ok(Made {
        seat,
        key: *key,
        call,
    })
}

// The answer at the desk to what a step gave.
fn answer_of_step(stepped: Result<Reply, MatterRefusal>) -> Result<Reply, DeskRefusal>
    ensures { result ≡ answer_of_step stepped }
{
    match stepped {
        Ok(reply) => Ok(reply),
        Err(MatterRefusal::Rule(rule)) => Err(DeskRefusal::Rule(rule)),
        Err(MatterRefusal::KeeperFault) => Err(DeskRefusal::KeeperFault),
        Err(MatterRefusal::OutOfMemory) => Err(DeskRefusal::OutOfMemory),
    }
}

/// Whether a call stands in the history after this answer.
pub fn is_made(answer: &Result<Reply, DeskRefusal>) -> bool
    ensures { result ≡ is_made answer.now }
{
    matches!(answer, Ok(_) | Err(DeskRefusal::Rule(_)))
}

// Adds a call at the end of the journal, which has room, if it was made.
fn enter(journal: &mut Vec<Made>, made: Made, is_made: bool)
    requires { vec_len journal.old < vec_capacity journal.old }
    ensures { journal.new.items ≡ entered_if is_made journal.old.items made }
{
    if is_made {
        journal.push_reserved(made);
    }
}
