// The desk that several seats share: a call waits for the turn, makes it at the book, and leaves it.
ghost use Rattle.std.specs.Prelude.{◌≡◌, ◌<◌, false, true, [], ◌∷◌, None, length};
ghost use Rattle.bp_book.specs.Books.{is_made};
ghost use Rattle.bp_book.specs.Calls.{made_by};
ghost use Rattle.bp_desk.specs.Seats.{Brings, Calls, IsSeatOf, Remains, Rests, SameSeat, Taken, Tried, grown_if};
ghost use Rattle.bp_desk.specs.Turns.{freed, grown, with_count};

use crate::seat::{Place, Seat};
use crate::turns::{BOOK, COUNT, Counts, FAULTS, Leaves, Said, TURN, Takes, Tells, Turns};
use crate::views::{Opening, View};
use atomic_table::{Table, TableRule};
use bp_book::{Book, DeskRefusal, is_made};
use bp_keep::Keeper;
use bp_matter::{Call, Reply};
use std::alloc::Global;
use std::marker::{Brand, Model};
use std::sync::Wait;

/// The most seats of a desk.
pub const MOST_SEATS: u32 = 16;

/// A desk over a book B, whose table of seats has the rule P. It is generic in both so that it is known
/// to be Send and Sync.
#[derive(Drop)]
pub struct DeskOf<B, P: TableRule<Option<B>, View, Opening<B>>> {
    pub(crate) table: Table<Option<B>, View, Opening<B>, P, Global>,
    pub(crate) seats: u32,
}

impl<B, P: TableRule<Option<B>, View, Opening<B>>> Model for DeskOf<B, P> {
    ghost use Rattle.bp_desk.specs.Seats.{DeskView, IsDesk};

    ghost Value = { DeskView B };

    ghost view = { λ d. record {
      id = d.table.shared.table_id;
      book = d.table.shared.key.book.value;
      seats = d.seats;
    } };

    ghost invariant = { λ d. IsDesk d.table.shared.table_id d.table.shared.key d.seats };
}

/// A desk that several seats share, over a keeper K.
pub type Desk<K> = DeskOf<Book<K>, Turns>;

impl<K: Keeper> Desk<K> {
    /// Makes a call at a seat, with the SHA-256 of its key, once the seat has the turn. A reply or a
    /// broken rule is the answer at the call's place in the history, which follows all that the seat had
    /// seen: `seen` then ends with the call, and `mine` too. After each other refusal the call doesn't
    /// stand in the history: JournalFull exactly where the history has as many calls as there is room
    /// for, KeeperFault only where the keeper failed in this turn, at a call that changes the tables.
    pub fn call<R: Wait>(
        &self,
        rt: &R,
        alloc: Global,
        seat: &mut Seat<K>,
        key: &[u8; 32],
        call: &Call,
    ) -> Result<Reply, DeskRefusal>
        requires { IsSeatOf self.now seat.old }
        ensures same { SameSeat seat.old seat.new }
        ensures called { Calls seat.old.view (made_by seat.old.view.number key.now call.now) result
            seat.new.view }
    {
        self.make(rt, alloc, &mut seat.place, seat.number, key, call)
    }

    // The same at a place of the table.
    fn make<R: Wait>(
        &self,
        rt: &R,
        alloc: Global,
        place: &mut Place<Book<K>>,
        number: u32,
        key: &[u8; 32],
        call: &Call,
    ) -> Result<Reply, DeskRefusal>
        requires desk { place.old.table_id ≡ self.now.id }
        requires rests { Rests place.old.me number }
        ensures desk { place.new.table_id ≡ place.old.table_id }
        ensures rests { Rests place.new.me number }
        ensures same { Remains place.old.me.0 place.new.me.0 }
        ensures called { Calls place.old.me.0 (made_by number key.now call.now) result
            place.new.me.0 }
    {
        let mut book = self.take_turn(rt, place);
        let given = book.call(alloc, number, key, call);
        self.count_made(place, &given, number, key, call);
        self.leave_turn(place, book);
        given
    }

    // Waits for the turn, and takes the book out.
    fn take_turn<R: Wait>(&self, rt: &R, place: &mut Place<Book<K>>) -> Book<K>
        requires desk { place.old.table_id ≡ self.now.id }
        requires numbered { 0 < place.old.me.0.number }
        requires rests { (place.old.me.0.holds ≡ false) × (place.old.me.1 ≡ []) }
        ensures desk { (place.new.table_id ≡ place.old.table_id) × (place.new.id ≡ place.old.id) }
        ensures taken { Taken place.old.me.0 result place.new.me }
    {
        for _ in rt.forever() {
            if let Some(book) = self.try_turn(place) {
                return book;
            }
            self.table.shared.park(rt, TURN, 1);
        }
        unreachable!()
    }

    // Takes the turn with the book, if nobody has it.
    fn try_turn(&self, place: &mut Place<Book<K>>) -> Option<Book<K>>
        requires desk { place.old.table_id ≡ self.now.id }
        requires numbered { 0 < place.old.me.0.number }
        requires rests { (place.old.me.0.holds ≡ false) × (place.old.me.1 ≡ []) }
        ensures desk { (place.new.table_id ≡ place.old.table_id) × (place.new.id ≡ place.old.id) }
        ensures taken { Tried place.old.me result place.new.me }
    {
        let shared = &self.table.shared;
        if shared.compare_exchange::<Takes>(place, TURN, 0, 1) != 0 {
            return None;
        }
        shared.exchange(place, BOOK, None)
    }

    // Counts the call, if it was made.
    fn count_made(
        &self,
        place: &mut Place<Book<K>>,
        answer: &Result<Reply, DeskRefusal>,
        number: u32,
        key: &[u8; 32],
        call: &Call,
    )
        requires desk { place.old.table_id ≡ self.now.id }
        requires holds { (place.old.me.0.holds ≡ true) × (place.old.me.0.met ≡ [])
            × (number ≡ place.old.me.0.number) }
        requires room { is_made answer.now ≡ true
            → length place.old.me.0.seen < place.old.me.0.room }
        ensures desk { (place.new.table_id ≡ place.old.table_id) × (place.new.id ≡ place.old.id) }
        ensures counted { place.new.me ≡ (
          grown_if (is_made answer.now) place.old.me.0 (made_by number key.now call.now),
          place.old.me.1,
        ) }
    {
        if is_made(answer) {
            self.count::<Brand>(place, number, key, call);
        }
    }

    // Counts the call that was made.
    fn count<W: Said>(&self, place: &mut Place<Book<K>>, number: u32, key: &[u8; 32], call: &Call)
        requires desk { place.old.table_id ≡ self.now.id }
        requires made { W.made ≡ made_by number key.now call.now }
        requires holds { (place.old.me.0.holds ≡ true) × (place.old.me.0.met ≡ [])
            × (number ≡ place.old.me.0.number) }
        requires room { length place.old.me.0.seen < place.old.me.0.room }
        ensures desk { (place.new.table_id ≡ place.old.table_id) × (place.new.id ≡ place.old.id) }
        ensures counted { place.new.me ≡ (
          grown place.old.me.0 (made_by number key.now call.now),
          place.old.me.1,
        ) }
    {
        let _ = number;
        let _ = key;
        let _ = call;
        self.table.shared.fetch_add::<Counts<W>>(place, COUNT, 1);
    }

    // Tells the keeper's count of faults, and leaves the turn with the book at home.
    fn leave_turn(&self, place: &mut Place<Book<K>>, book: Book<K>)
        requires desk { place.old.table_id ≡ self.now.id }
        requires holds { (place.old.me.0.holds ≡ true) × (place.old.me.1 ≡ (0, None) ∷ []) }
        requires book { Brings place.old.me.0 book }
        ensures desk { (place.new.table_id ≡ place.old.table_id) × (place.new.id ≡ place.old.id) }
        ensures left { place.new.me ≡ (freed (with_count place.old.me.0 book.keeper.faults), []) }
    {
        let shared = &self.table.shared;
        shared.swap::<Tells>(place, FAULTS, book.faults());
        let vacant = shared.exchange(place, BOOK, Some(book));
        let None = vacant else { unreachable!() };
        shared.store::<Leaves>(place, TURN, 0);
        shared.wake_one(TURN);
    }
}
