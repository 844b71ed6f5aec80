// The rule of the table that seats share, and what each step on it tells.
//
// Word TURN is 1 while a seat holds the turn, COUNT is the number of calls that were made, and FAULTS
// the keeper's count of faults. The slot has the book, which who holds the turn has taken out.
use crate::views::{Opening, View};
use atomic_table::{Join, Play, Split, TableRule};
use bp_book::{Book, Made};
use bp_keep::Keeper;
use std::marker::{Brand, PhantomData};

pub(crate) const TURN: usize = 0;

pub(crate) const COUNT: usize = 1;

pub(crate) const FAULTS: usize = 2;

pub(crate) const BOOK: usize = 0;

/// The rule.
pub struct Turns;

impl<K: Keeper> TableRule<Option<Book<K>>, View, Opening<Book<K>>> for Turns {
    ghost use Rattle.bp_desk.specs.Turns.{Ruled, first_view};

    ghost holds = { Ruled };

    ghost first = { first_view };
}

// Takes the turn, if nobody has it.
pub(crate) struct Takes;

impl<K: Keeper> Play<Option<Book<K>>, View> for Takes {
    ghost use Rattle.bp_desk.specs.Turns.{tried};

    ghost then = { tried };
}

// Which call is made. A call at `Brand` picks it.
pub(crate) trait Said {
    ghost use Rattle.bp_book.specs.declared.history.Made.{Made};

    ghost made: { Made };
}

impl Said for Brand {
    ghost use Rattle.bp_desk.specs.Turns.{no_call};

    ghost made = { no_call };
}

// Counts the call W.
pub(crate) struct Counts<W> {
    said: PhantomData<W>,
}

impl<K: Keeper, W: Said> Play<Option<Book<K>>, View> for Counts<W> {
    ghost use Rattle.bp_desk.specs.Turns.{counted};

    ghost then = { counted W.made };
}

// Tells the keeper's count of faults.
pub(crate) struct Tells;

impl<K: Keeper> Play<Option<Book<K>>, View> for Tells {
    ghost use Rattle.bp_desk.specs.Turns.{told_number};

    ghost then = { told_number };
}

// Leaves the turn, with the book at home.
pub(crate) struct Leaves;

impl<K: Keeper> Play<Option<Book<K>>, View> for Leaves {
    ghost use Rattle.bp_desk.specs.Turns.{released};

    ghost then = { released };
}

// Learns that what was met begins what is seen.
pub(crate) struct Settles;

impl<K: Keeper> Play<Option<Book<K>>, View> for Settles {
    ghost use Rattle.bp_desk.specs.Turns.{settled};

    ghost then = { settled };
}

// Gives the next number to a new seat.
pub(crate) struct Deals;

impl Split<View> for Deals {
    ghost use Rattle.bp_desk.specs.Turns.{dealer, dealt};

    ghost left = { dealer };

    ghost right = { dealt };
}

// Gives a note.
pub(crate) struct Notes;

impl Split<View> for Notes {
    ghost use Rattle.bp_desk.specs.Turns.{note_of};

    ghost left = { λ v. v };

    ghost right = { note_of };
}

// Takes a note or a seat in.
pub(crate) struct Meets;

impl Join<View> for Meets {
    ghost use Rattle.bp_desk.specs.Turns.{both, spent};

    ghost both = { both };

    ghost spent = { spent };
}
