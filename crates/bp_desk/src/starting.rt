// A desk starts with its seats.
ghost use Rattle.std.specs.Prelude.{◌≡◌, ◌<◌, ◌≤◌, [], ◌∷◌, Some, vec_capacity, Err, IfErr, IfOk};
ghost use Rattle.bp_rules.specs.Loading.{LoadsTables};
ghost use Rattle.bp_book.specs.declared.history.TheConstants.{MOST_CALLS};
ghost use Rattle.bp_desk.specs.Seats.{Begun, IsMade, IsOver, all_fresh, fresh};

use crate::desk::{Desk, DeskOf, MOST_SEATS};
use crate::seat::{Place, Seat, SeatOf};
use crate::turns::Deals;
use crate::views::Opening;
use atomic_table::Table;
use bp_book::{Book, Closed, MOST_CALLS, NotStarted};
use bp_keep::Keeper;
use bp_rules::MatterRefusal;
use std::alloc::Global;
use std::snapshot::Snapshot;

/// A desk that started, with its seats, numbered from 1 in order.
#[derive(Drop)]
pub struct Started<K: Keeper> {
    pub desk: Desk<K>,
    pub seats: Vec<Seat<K>>,
}

impl<K: Keeper> Desk<K> {
    /// A desk over the tables that the keeper has the rows of: so many seats, at most `MOST_SEATS`,
    /// which have seen nothing, and room for so many calls, at most `MOST_CALLS`. It is refused as
    /// `load_tables` is.
    pub fn start(
        alloc: Global,
        keeper: K,
        seats: u32,
        room: u64,
    ) -> Result<Started<K>, NotStarted<K>>
        requires seats { (0 < seats) × (seats ≤ MOST_SEATS) }
        requires room { (0 < room) × (room ≤ MOST_CALLS) }
        ensures ok { IfOk result (λ started. Begun (K.shows keeper) seats room started.desk
            started.seats.items) }
        ensures err { IfErr result (λ refused. LoadsTables (K.shows keeper) (Err refused.why)
            (K.shows refused.keeper)) }
    {
        let book = match Book::start(alloc, keeper, room) {
            Ok(book) => book,
            Err(refused) => return Err(refused),
        };
        match Desk::over(alloc, book, seats) {
            Ok(started) => Ok(started),
            Err(book) => Err(NotStarted {
                keeper: keeper_of(book),
                why: MatterRefusal::OutOfMemory,
            }),
        }
    }

    // A desk over a book with no call. For want of memory the book comes back.
    fn over(alloc: Global, book: Book<K>, seats: u32) -> Result<Started<K>, Book<K>>
        requires seats { (0 < seats) × (seats ≤ MOST_SEATS) }
        requires empty { book.journal ≡ [] }
        requires room { book.room ≤ MOST_CALLS }
        ensures ok { IfOk result (λ started. IsOver book seats started.desk started.seats.items) }
        ensures err { IfErr result (λ back. back ≡ book) }
    {
        let Ok(row) = Vec::with_capacity(alloc, seats as usize) else {
            return Err(book);
        };
        let (desk, first) = match Desk::made(alloc, book, seats) {
            Ok(made) => made,
            Err(book) => return Err(book),
        };
        let seats = desk.deal(first, row);
        Ok(Started { desk, seats })
    }

    // The desk with its first place.
    fn made(alloc: Global, book: Book<K>, seats: u32) -> Result<(Desk<K>, Place<Book<K>>), Book<K>>
        requires seats { (0 < seats) × (seats ≤ MOST_SEATS) }
        requires empty { book.journal ≡ [] }
        requires room { book.room ≤ MOST_CALLS }
        ensures ok { IfOk result (λ made. IsMade book seats made.0 made.1.table_id made.1.me) }
        ensures err { IfErr result (λ back. back ≡ book) }
    {
        let base = book.faults();
        let about = Opening {
            book: Snapshot::of(&book),
            seats,
        };
        let Ok(mut slots) = Vec::with_capacity(alloc, 1) else {
            return Err(book);
        };
        slots.push_reserved(Some(book));
        match Table::new(alloc, &[0, 0, base], slots, &about) {
            Ok((table, place)) => Ok((DeskOf { table, seats }, place)),
            Err(refused) => Err(only_book(refused.slots)),
        }
    }

    // Gives each seat its number: the first has 1, and deals the others.
    fn deal(&self, first: Place<Book<K>>, row: Vec<Seat<K>>) -> Vec<Seat<K>>
        requires first { (first.table_id ≡ self.now.id)
            × (first.me ≡ ((fresh self.now 1 1).view, [])) }
        requires row { (row.items ≡ []) × (self.now.seats ≤ vec_capacity row) }
        ensures { result.items ≡ all_fresh self.now }
    {
        let mut first = first;
        let mut row = row;
        let mut dealt = 1;
        while dealt < self.seats {
            let place = self.table.shared.split_seat::<Deals>(&mut first);
            dealt += 1;
            row.push_reserved(SeatOf {
                place,
                number: dealt,
            });
        }
        row.push_reserved(SeatOf {
            place: first,
            number: 1,
        });
        row.as_mut_slice().rotate_right(1);
        row
    }
}

// The keeper of a book that no desk is made of.
fn keeper_of<K: Keeper>(book: Book<K>) -> K
    ensures { K.shows result ≡ book.keeper }
{
    let Closed {
        keeper,
        tables: _,
        history: _,
    } = book.end();
    keeper
}

// The one book of a row that has it.
fn only_book<K: Keeper>(slots: Vec<Option<Book<K>>>) -> Book<K>
    requires { (book : _) × (slots.items ≡ Some book ∷ []) }
    ensures { slots.items ≡ Some result ∷ [] }
{
    let mut slots = slots;
    let book = slots.pop();
    slots.destroy_empty();
    match book {
        Some(Some(book)) => book,
        _ => unreachable!(),
    }
}
