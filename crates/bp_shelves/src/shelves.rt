// Rows on shelves.
ghost use Rattle.std.specs.Prelude.{[], ◌≡◌, ◌≤◌, ◌<◌, ◌+◌, ◌*◌, IfOk, OnOk, IsTrue};
ghost use Rattle.std.specs.List.{filter};
ghost use Rattle.std.specs.Option.{option_copied};
ghost use Rattle.bp_core.specs.Sorted.{ascends, find_key, is_between, put, without};
ghost use Rattle.bp_shelves.specs.Shelves.{room_of, rows_on};

use crate::shelved::Shelved;
use crate::stocking::{find_on, know_ascending, make_shelf, put_on, remove_on, shelf_of};
use bp_core::{DocNo, OutOfMemory};
use std::alloc::Global;
use std::marker::Model;

/// Rows in ascending order of key, those of each document on a shelf of its own. Contracts see the
/// rows, and the room of each document's shelf.
#[derive(Debug, Drop)]
pub struct Shelves<T: Shelved> {
    shelves: Vec<Vec<T>>,
}

impl<T: Shelved> Model for Shelves<T> {
    ghost use Rattle.std.specs.Prelude.{IsTrue};
    ghost use Rattle.bp_shelves.specs.Shelves.{ShelvesShown, are_shelved, rooms_on, rows_on};

    ghost Value = { ShelvesShown T };

    ghost view = { λ s. record {
      rows = rows_on s.shelves.items;
      rooms = rooms_on s.shelves.items;
    } };

    ghost invariant = { λ s. IsTrue (are_shelved T.key_of T.span 0 s.shelves.items) };
}

impl<T: Shelved + Drop> Shelves<T> {
    /// Shelves without rows.
    pub fn new(alloc: Global) -> Shelves<T>
        ensures { result.rows ≡ [] }
    {
        Shelves {
            shelves: Vec::new(alloc),
        }
    }

    /// These rows, which stand in ascending order of key.
    pub fn from_rows(alloc: Global, rows: Vec<T>) -> Result<Shelves<T>, OutOfMemory>
        requires { IsTrue (ascends T.key_of 0 rows.items) }
        ensures { IfOk result (λ shelves. shelves.rows ≡ rows.items) }
    {
        let mut shelves = Shelves::new(alloc);
        for row in rows {
            shelves.reserve(row.doc())?;
            shelves.put(row);
        }
        Ok(shelves)
    }

    /// Says that the rows stand in ascending order of key.
    pub fn know_order(&self)
        ensures { IsTrue (ascends T.key_of 0 self.now.rows) }
    {
        know_ascending(&self.shelves);
    }

    /// The rows, shelf by shelf.
    pub fn as_slice(&self) -> &[Vec<T>]
        ensures { rows_on result.now ≡ self.now.rows }
    {
        self.shelves.as_slice()
    }

    /// The rows of a document.
    pub fn of_doc(&self, doc: DocNo) -> &[T]
        ensures { result.now ≡ filter (is_between T.key_of (doc.0 * T.span) (doc.0 * T.span + T.span))
            self.now.rows }
    {
        shelf_of(&self.shelves, doc)
    }

    /// The row of a document that has this key, which is one of the document's.
    pub fn find(&self, doc: DocNo, key: u128) -> Option<&T>
        requires low { doc.0 * T.span ≤ key }
        requires high { key < doc.0 * T.span + T.span }
        ensures { option_copied result ≡ find_key T.key_of key self.now.rows }
    {
        find_on(&self.shelves, doc, key)
    }

    /// Makes room for one more row of a document.
    pub fn reserve(&mut self, doc: DocNo) -> Result<(), OutOfMemory>
        ensures rows { self.new.rows ≡ self.old.rows }
        ensures room { OnOk result (1 ≤ room_of self.new.rooms doc.0) }
    {
        make_shelf(&mut self.shelves, doc)
    }

    /// Puts a row at the place of its key, over a row of that key where there is one. There is room on
    /// its shelf, so no memory is taken.
    pub fn put(&mut self, row: T)
        requires { 1 ≤ room_of self.old.rooms (T.doc_of row) }
        ensures { self.new.rows ≡ put T.key_of row self.old.rows }
    {
        put_on(&mut self.shelves, row);
    }

    /// Takes the row of this key away, which is one of the document's, if there is one.
    pub fn remove(&mut self, doc: DocNo, key: u128)
        requires low { doc.0 * T.span ≤ key }
        requires high { key < doc.0 * T.span + T.span }
        ensures { self.new.rows ≡ without T.key_of key self.old.rows }
    {
        remove_on(&mut self.shelves, doc, key);
    }
}
