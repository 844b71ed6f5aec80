// The seats of a desk, and their notes. Each is generic in what the slot of the table holds, so that it
// is known to be Send.
ghost use Rattle.std.specs.Prelude.{◌≡◌, ◌≤◌};
ghost use Rattle.bp_desk.specs.Calls.{calls_by};

use crate::views::View;
use bp_book::Book;
use std::marker::Model;

/// A place at the table, and what is known there.
pub(crate) type Place<B> = atomic_table::Seat<Option<B>, View>;

/// A seat of a desk whose book is a B. It has a number, from 1, and has seen a beginning of the history.
#[derive(Drop)]
pub struct SeatOf<B> {
    pub(crate) place: Place<B>,
    pub(crate) number: u32,
}

impl<B> Model for SeatOf<B> {
    ghost use Rattle.bp_desk.specs.Seats.{SeatView, Rests};

    ghost Value = { SeatView };

    ghost view = { λ s. record { desk = s.place.table_id; view = s.place.me.0 } };

    ghost invariant = { λ s. Rests s.place.me s.number };
}

impl<B> SeatOf<B> {
    /// What holds of every seat: its own calls are those of its number in what it has seen, and its
    /// turns raised the keeper's count of faults by no more than that stands at.
    pub fn know_own(&self)
        ensures own { calls_by self.now.view.number self.now.view.seen ≡ self.now.view.mine }
        ensures within { self.now.view.raised ≤ self.now.view.left }
    {
        let _number = self.number;
    }
}

/// A seat of a desk over a keeper K.
pub type Seat<K> = SeatOf<Book<K>>;

/// What a seat had seen when it gave the note.
#[derive(Drop)]
pub struct NoteOf<B> {
    pub(crate) place: Place<B>,
}

impl<B> Model for NoteOf<B> {
    ghost use Rattle.bp_desk.specs.Seats.{NoteView, IsNote};

    ghost Value = { NoteView };

    ghost view = { λ n. record { desk = n.place.table_id; seen = n.place.me.0.seen } };

    ghost invariant = { λ n. IsNote n.place.me };
}

/// A note of a desk over a keeper K.
pub type Note<K> = NoteOf<Book<K>>;
