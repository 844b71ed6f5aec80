// A desk is closed once all its seats are back.
ghost use Rattle.std.specs.Prelude.{◌≡◌, ℕ, ◌<◌, ◌≤◌, false, IsOkAnd};
ghost use Rattle.bp_desk.specs.Closing.{Ended, Gathered};
ghost use Rattle.bp_desk.specs.Seats.{AreSeats, SeatsClose};
ghost use Rattle.bp_desk.specs.Turns.{times_held};

use crate::desk::{Desk, DeskOf};
use crate::seat::{Place, Seat, SeatOf};
use crate::turns::{BOOK, Meets};
use bp_book::{Book, Closed};
use bp_keep::Keeper;
use std::alloc::Global;

/// A desk that wasn't closed for want of memory, with its seats.
#[derive(Drop)]
pub struct NotClosed<K: Keeper> {
    pub desk: Desk<K>,
    pub seats: Vec<Seat<K>>,
}

impl<K: Keeper> Desk<K> {
    /// The keeper, the tables and the history, once all seats are back, in any order. The calls of each
    /// seat in the history are its own, and the tables are those after it. It takes no memory, and is
    /// always Ok.
    pub fn close(self, alloc: Global, seats: Vec<Seat<K>>) -> Result<Closed<K>, NotClosed<K>>
        requires { AreSeats self seats.items }
        ensures { IsOkAnd result (λ closed. SeatsClose self seats.items closed.history
            closed.tables.matter (K.shows closed.keeper)) }
    {
        let _ = alloc;
        let place = self.gather(seats);
        let book = self.into_book(place);
        Ok(book.end())
    }

    // Takes all seats in, from the last one on.
    fn gather(&self, seats: Vec<Seat<K>>) -> Place<Book<K>>
        requires { AreSeats self.now seats.items }
        ensures desk { result.table_id ≡ self.now.id }
        ensures gathered { Gathered seats.items result.me.0 }
    {
        let shared = &self.table.shared;
        let mut rest = seats;
        let Some(last) = rest.pop() else {
            unreachable!()
        };
        let SeatOf {
            mut place,
            number: _,
        } = last;
        while let Some(seat) = rest.pop() {
            let SeatOf {
                place: other,
                number: _,
            } = seat;
            shared.join_seat::<Meets>(&mut place, other);
        }
        rest.destroy_empty();
        place
    }

    // The book, where one place has all numbers.
    fn into_book(self, place: Place<Book<K>>) -> Book<K>
        requires desk { place.table_id ≡ self.id }
        requires free { place.me.0.holds ≡ false }
        requires whole { (number : ℕ) → 0 < number → number ≤ self.seats
            → 0 < times_held number place.me.0 }
        ensures { Ended self place.me.0 result }
    {
        let DeskOf { table, seats: _ } = self;
        let mut closed = table.close_with(place);
        let book = closed.take(BOOK);
        closed.free();
        match book {
            Some(book) => book,
            None => unreachable!(),
        }
    }
}
