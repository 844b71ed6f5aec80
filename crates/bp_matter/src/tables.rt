// The tables of a matter, always valid.
ghost use Rattle.std.specs.Prelude.{◌≡◌, ◌≤◌, ◌<◌, length, IfOk, IsTrue};
ghost use Rattle.std.specs.List.{find};
ghost use Rattle.std.specs.Option.{option_copied};
ghost use Rattle.std.specs.Str.{bytes_eq};
ghost use Rattle.bp_core.specs.Sorted.{ascends, find_key, row_key};
ghost use Rattle.bp_matter.specs.Matter.{call_key, entry_key};
ghost use Rattle.bp_matter.specs.KeptRows.{rows_of};
ghost use Rattle.bp_matter.specs.Valid.{IsValid};

use crate::kinds::{add_four, add_marks};
use crate::laws::order_law;
use crate::rows::{
    BatchList, CallShelves, DocBoxShelves, DocHeldShelves, DocList, EntryShelves, FieldList,
    PageList, PageWordsList, PrefixList, ProductionList, StaffList,
};
use bp_core::{DocNo, ListOf, OutOfMemory, RowList, find_row};
use std::alloc::Global;
use std::marker::Model;

/// The tables of a matter, one list for each kind of row; calls, boxes, held fields and log entries stand
/// on the shelves of their documents.
#[derive(Debug, Drop)]
pub struct Tables {
    pub staff: StaffList,
    pub fields: FieldList,
    pub docs: DocList,
    pub pages: PageList,
    pub calls: CallShelves,
    pub boxes: DocBoxShelves,
    pub held: DocHeldShelves,
    pub entries: EntryShelves,
    pub prefixes: PrefixList,
    pub productions: ProductionList,
    pub batches: BatchList,
    pub words: PageWordsList,
}

impl Model for Tables {
    ghost use Rattle.std.specs.Prelude.{◌-◌, min, vec_len};
    ghost use Rattle.std.specs.Vec.{vec_capacity};
    ghost use Rattle.bp_matter.specs.Matter.{Matter, Shown};
    ghost use Rattle.bp_matter.specs.Valid.{IsValid};

    ghost Value = { Shown };

    ghost view = { λ t. record {
      matter = record {
        staff = t.staff.items;
        fields = t.fields.items;
        docs = t.docs.items;
        pages = t.pages.items;
        calls = t.calls.rows;
        boxes = t.boxes.rows;
        held = t.held.rows;
        entries = t.entries.rows;
        prefixes = t.prefixes.items;
        productions = t.productions.items;
        batches = t.batches.items;
        words = t.words.items;
      };
      spare = min (vec_capacity t.staff - vec_len t.staff)
          (min (vec_capacity t.fields - vec_len t.fields)
          (min (vec_capacity t.docs - vec_len t.docs)
          (min (vec_capacity t.pages - vec_len t.pages)
          (min (vec_capacity t.prefixes - vec_len t.prefixes)
          (min (vec_capacity t.productions - vec_len t.productions)
          (min (vec_capacity t.batches - vec_len t.batches)
          (vec_capacity t.words - vec_len t.words)))))));
      rooms = record {
        calls = t.calls.rooms;
        boxes = t.boxes.rooms;
        held = t.held.rooms;
        entries = t.entries.rooms;
      };
    } };

    ghost invariant = { λ t. IsValid (record {
      staff = t.staff.items;
      fields = t.fields.items;
      docs = t.docs.items;
      pages = t.pages.items;
      calls = t.calls.rows;
      boxes = t.boxes.rows;
      held = t.held.rows;
      entries = t.entries.rows;
      prefixes = t.prefixes.items;
      productions = t.productions.items;
      batches = t.batches.items;
      words = t.words.items;
    }) };
}

impl Tables {
    /// The kept rows, in ascending order of key, none twice.
    pub fn rows(&self, alloc: Global) -> Result<RowList, OutOfMemory>
        ensures rows { IfOk result (λ rows. rows ≡ rows_of self.now.matter) }
        ensures ascending { IfOk result (λ rows. IsTrue (ascends row_key 0 rows)) }
    {
        self.know_valid();
        order_law();
        let mut rows = Vec::new(alloc);
        add_four(
            alloc,
            &mut rows,
            &self.staff,
            &self.fields,
            &self.docs,
            &self.pages,
        )?;
        add_marks(
            alloc,
            &mut rows,
            &self.calls,
            &self.boxes,
            &self.held,
            &self.entries,
        )?;
        add_four(
            alloc,
            &mut rows,
            &self.prefixes,
            &self.productions,
            &self.batches,
            &self.words,
        )?;
        Ok(ListOf::from_vec(rows))
    }

    /// Says that the tables are valid.
    pub fn know_valid(&self)
        ensures { IsValid self.now.matter }
    {
        let _staff = &self.staff;
    }
}
