// The kinds of kept rows.
ghost use Rattle.std.specs.Prelude.{◌≡◌, ℕ, ◌<◌, slice_index, Bool, true, Option, Some, None, ◌==◌, IfOk, IfSome, IsTrue, length, if◌then◌else◌, ◌++◌, OnOk, map};
ghost use Rattle.std.specs.List.{list_all};
ghost use Rattle.bp_core.specs.declared.kept.Row.{Row};
ghost use Rattle.bp_shelves.specs.Shelves.{rows_on};
ghost use Rattle.bp_matter.specs.KeptRows.{box_kept, call_kept, entry_kept, held_kept};
ghost use Rattle.bp_matter.specs.ReadRows.{segment_of};
ghost use Rattle.bp_matter.specs.Written.{box_written, call_written, entry_written, held_written};
ghost use Rattle.bp_matter.specs.declared.read_fault.ReadFault.TheVariants.{Malformed};

use crate::read_fault::ReadFault;
use crate::reading::{
    take_batch, take_box, take_call, take_doc, take_entry, take_field, take_held, take_page,
    take_prefix, take_production, take_staff, take_words,
};
use crate::rows::{
    BatchRow, CallRow, CallShelves, DocBox, DocBoxShelves, DocEntry, DocHeld, DocHeldShelves,
    DocRow, EntryShelves, FieldRow, PageRow, PageWords, PrefixRow, ProductionRow, StaffRow,
};
use crate::writing::{
    put_batch_body, put_box_body, put_call_body, put_doc_body, put_entry_body, put_field_body,
    put_held_body, put_page_body, put_prefix_body, put_production_body, put_staff_body,
    put_words_body,
};
use bp_core::{Bytes, Keyed, OutOfMemory, Row};
use bp_shelves::{Shelved, Shelves};
use bp_t6::laws::strip_law;
use std::alloc::Global;

/// A row of the tables that has a kept form.
pub trait Kind: Keyed + Sized + Drop {
    ghost kept_of: { Self → Row };

    ghost is_written: { Self → Bool };

    ghost read_of: { Row → Option Self };

    /// The kept row.
    fn keep(&self, alloc: Global) -> Result<Row, OutOfMemory>
        requires { IsTrue (is_written self.now) }
        ensures { IfOk result (λ row. row ≡ kept_of self.now) };

    /// The row of the tables that this is kept for, if it is one of this kind.
    fn read(alloc: Global, row: &Row) -> Result<Option<Self>, OutOfMemory>
        ensures value { IfOk result (λ found. found ≡ read_of row.now) }
        ensures written { IfOk result (λ found. IfSome found (λ value.
            (row.now ≡ kept_of value) × IsTrue (is_written value))) };
}

// What a slice of bytes is known to hold, for who got it from a call.
fn know_bytes(bytes: &[u8])
    ensures { (i : ℕ) → slice_index bytes.now i < 256 }
{
    let _bytes = bytes;
}

// What was read, if nothing is left.
fn finish<T: Drop>(value: T, rest: &[u8]) -> Option<T>
    ensures { result ≡ (if length rest.now == 0 then Some value else None) }
{
    if rest.is_empty() { Some(value) } else { None }
}

// Nothing, where no row is written so.
fn unread<T>(fault: ReadFault) -> Result<Option<T>, OutOfMemory>
    ensures { IfOk result (λ found. (found ≡ None) × (fault ≡ Malformed)) }
{
    match fault {
        ReadFault::Malformed => Ok(None),
        ReadFault::OutOfMemory => Err(OutOfMemory),
    }
}

impl Kind for StaffRow {
    ghost use Rattle.bp_matter.specs.KeptRows.{staff_kept};
    ghost use Rattle.bp_matter.specs.Written.{staff_written};
    ghost use Rattle.bp_matter.specs.ReadRows.{staff_of};

    ghost kept_of = { staff_kept };

    ghost is_written = { staff_written };

    ghost read_of = { staff_of };

    fn keep(&self, alloc: Global) -> Result<Row, OutOfMemory> {
        let mut body = Vec::new(alloc);
        put_staff_body(&mut body, self)?;
        Ok(Row {
            kind: 1,
            k1: self.staff.0,
            k2: 0,
            body: Bytes::from_vec(body),
        })
    }

    fn read(alloc: Global, row: &Row) -> Result<Option<StaffRow>, OutOfMemory> {
        if row.kind != 1 || row.k2 != 0 {
            return Ok(None);
        }
        let bytes = row.body.as_slice();
        know_bytes(bytes);
        match take_staff(alloc, row.k1, bytes) {
            Ok((value, rest)) => Ok(finish(value, rest)),
            Err(fault) => unread(fault),
        }
    }
}

impl Kind for FieldRow {
    ghost use Rattle.bp_matter.specs.KeptRows.{field_kept};
    ghost use Rattle.bp_matter.specs.Written.{field_written};
    ghost use Rattle.bp_matter.specs.ReadRows.{field_in_row};

    ghost kept_of = { field_kept };

    ghost is_written = { field_written };

    ghost read_of = { field_in_row };

    fn keep(&self, alloc: Global) -> Result<Row, OutOfMemory> {
        let mut body = Vec::new(alloc);
        put_field_body(&mut body, self)?;
        Ok(Row {
            kind: 2,
            k1: self.field,
            k2: 0,
            body: Bytes::from_vec(body),
        })
    }

    fn read(alloc: Global, row: &Row) -> Result<Option<FieldRow>, OutOfMemory> {
        if row.kind != 2 || row.k2 != 0 {
            return Ok(None);
        }
        let bytes = row.body.as_slice();
        know_bytes(bytes);
        match take_field(alloc, row.k1, bytes) {
            Ok((value, rest)) => Ok(finish(value, rest)),
            Err(fault) => unread(fault),
        }
    }
}

impl Kind for DocRow {
    ghost use Rattle.bp_matter.specs.KeptRows.{doc_kept};
    ghost use Rattle.bp_matter.specs.Written.{doc_written};
    ghost use Rattle.bp_matter.specs.ReadRows.{doc_of};

    ghost kept_of = { doc_kept };

    ghost is_written = { doc_written };

    ghost read_of = { doc_of };

    fn keep(&self, alloc: Global) -> Result<Row, OutOfMemory> {
        let mut body = Vec::new(alloc);
        put_doc_body(&mut body, self)?;
        Ok(Row {
            kind: 3,
            k1: self.doc.0,
            k2: 0,
            body: Bytes::from_vec(body),
        })
    }

    fn read(alloc: Global, row: &Row) -> Result<Option<DocRow>, OutOfMemory> {
        if row.kind != 3 || row.k2 != 0 {
            return Ok(None);
        }
        let bytes = row.body.as_slice();
        know_bytes(bytes);
        match take_doc(alloc, row.k1, bytes) {
            Ok((value, rest)) => Ok(finish(value, rest)),
            Err(fault) => unread(fault),
        }
    }
}

impl Kind for PageRow {
    ghost use Rattle.bp_matter.specs.KeptRows.{page_kept};
    ghost use Rattle.bp_matter.specs.Written.{page_written};
    ghost use Rattle.bp_matter.specs.ReadRows.{page_in_row};

    ghost kept_of = { page_kept };

    ghost is_written = { page_written };

    ghost read_of = { page_in_row };

    fn keep(&self, alloc: Global) -> Result<Row, OutOfMemory> {
        let mut body = Vec::new(alloc);
        put_page_body(&mut body, self)?;
        Ok(Row {
            kind: 4,
            k1: self.doc.0,
            k2: self.page.0,
            body: Bytes::from_vec(body),
        })
    }

    fn read(alloc: Global, row: &Row) -> Result<Option<PageRow>, OutOfMemory> {
        if row.kind != 4 {
            return Ok(None);
        }
        let bytes = row.body.as_slice();
        know_bytes(bytes);
        strip_law();
        match take_page(alloc, row.k1, row.k2, bytes) {
            Ok(value) => Ok(Some(value)),
            Err(fault) => unread(fault),
        }
    }
}

impl Kind for CallRow {
    ghost use Rattle.bp_matter.specs.KeptRows.{call_kept};
    ghost use Rattle.bp_matter.specs.Written.{call_written};
    ghost use Rattle.bp_matter.specs.ReadRows.{call_in_row};

    ghost kept_of = { call_kept };

    ghost is_written = { call_written };

    ghost read_of = { call_in_row };

    fn keep(&self, alloc: Global) -> Result<Row, OutOfMemory> {
        let mut body = Vec::new(alloc);
        put_call_body(&mut body, self)?;
        Ok(Row {
            kind: 5,
            k1: self.doc.0,
            k2: 0,
            body: Bytes::from_vec(body),
        })
    }

    fn read(alloc: Global, row: &Row) -> Result<Option<CallRow>, OutOfMemory> {
        if row.kind != 5 || row.k2 != 0 {
            return Ok(None);
        }
        let bytes = row.body.as_slice();
        know_bytes(bytes);
        match take_call(alloc, row.k1, bytes) {
            Ok((value, rest)) => Ok(finish(value, rest)),
            Err(fault) => unread(fault),
        }
    }
}

impl Kind for DocBox {
    ghost use Rattle.bp_matter.specs.KeptRows.{box_kept};
    ghost use Rattle.bp_matter.specs.Written.{box_written};
    ghost use Rattle.bp_matter.specs.ReadRows.{box_of};

    ghost kept_of = { box_kept };

    ghost is_written = { box_written };

    ghost read_of = { box_of };

    fn keep(&self, alloc: Global) -> Result<Row, OutOfMemory> {
        let mut body = Vec::new(alloc);
        put_box_body(&mut body, self)?;
        Ok(Row {
            kind: 6,
            k1: self.doc.0,
            k2: self.row.num,
            body: Bytes::from_vec(body),
        })
    }

    fn read(_alloc: Global, row: &Row) -> Result<Option<DocBox>, OutOfMemory> {
        if row.kind != 6 {
            return Ok(None);
        }
        let bytes = row.body.as_slice();
        know_bytes(bytes);
        match take_box(row.k1, row.k2, bytes) {
            Ok((value, rest)) => Ok(finish(value, rest)),
            Err(fault) => unread(fault),
        }
    }
}

impl Kind for DocHeld {
    ghost use Rattle.bp_matter.specs.KeptRows.{held_kept};
    ghost use Rattle.bp_matter.specs.Written.{held_written};
    ghost use Rattle.bp_matter.specs.ReadRows.{held_of};

    ghost kept_of = { held_kept };

    ghost is_written = { held_written };

    ghost read_of = { held_of };

    fn keep(&self, alloc: Global) -> Result<Row, OutOfMemory> {
        let mut body = Vec::new(alloc);
        put_held_body(&mut body, self)?;
        Ok(Row {
            kind: 7,
            k1: self.doc.0,
            k2: self.row.field,
            body: Bytes::from_vec(body),
        })
    }

    fn read(_alloc: Global, row: &Row) -> Result<Option<DocHeld>, OutOfMemory> {
        if row.kind != 7 {
            return Ok(None);
        }
        let bytes = row.body.as_slice();
        know_bytes(bytes);
        match take_held(row.k1, row.k2, bytes) {
            Ok((value, rest)) => Ok(finish(value, rest)),
            Err(fault) => unread(fault),
        }
    }
}

impl Kind for DocEntry {
    ghost use Rattle.bp_matter.specs.KeptRows.{entry_kept};
    ghost use Rattle.bp_matter.specs.Written.{entry_written};
    ghost use Rattle.bp_matter.specs.ReadRows.{entry_in_row};

    ghost kept_of = { entry_kept };

    ghost is_written = { entry_written };

    ghost read_of = { entry_in_row };

    fn keep(&self, alloc: Global) -> Result<Row, OutOfMemory> {
        let mut body = Vec::new(alloc);
        put_entry_body(&mut body, self)?;
        Ok(Row {
            kind: 8,
            k1: self.doc.0,
            k2: 0,
            body: Bytes::from_vec(body),
        })
    }

    fn read(alloc: Global, row: &Row) -> Result<Option<DocEntry>, OutOfMemory> {
        if row.kind != 8 || row.k2 != 0 {
            return Ok(None);
        }
        let bytes = row.body.as_slice();
        know_bytes(bytes);
        match take_entry(alloc, row.k1, bytes) {
            Ok((value, rest)) => Ok(finish(value, rest)),
            Err(fault) => unread(fault),
        }
    }
}

impl Kind for PrefixRow {
    ghost use Rattle.bp_matter.specs.KeptRows.{prefix_kept};
    ghost use Rattle.bp_matter.specs.Written.{prefix_written};
    ghost use Rattle.bp_matter.specs.ReadRows.{prefix_in_row};

    ghost kept_of = { prefix_kept };

    ghost is_written = { prefix_written };

    ghost read_of = { prefix_in_row };

    fn keep(&self, alloc: Global) -> Result<Row, OutOfMemory> {
        let mut body = Vec::new(alloc);
        put_prefix_body(&mut body, self)?;
        Ok(Row {
            kind: 9,
            k1: self.num,
            k2: 0,
            body: Bytes::from_vec(body),
        })
    }

    fn read(alloc: Global, row: &Row) -> Result<Option<PrefixRow>, OutOfMemory> {
        if row.kind != 9 || row.k2 != 0 {
            return Ok(None);
        }
        let bytes = row.body.as_slice();
        know_bytes(bytes);
        match take_prefix(alloc, row.k1, bytes) {
            Ok((value, rest)) => Ok(finish(value, rest)),
            Err(fault) => unread(fault),
        }
    }
}

impl Kind for ProductionRow {
    ghost use Rattle.bp_matter.specs.KeptRows.{production_kept};
    ghost use Rattle.bp_matter.specs.Written.{production_written};
    ghost use Rattle.bp_matter.specs.ReadRows.{production_in_row};

    ghost kept_of = { production_kept };

    ghost is_written = { production_written };

    ghost read_of = { production_in_row };

    fn keep(&self, alloc: Global) -> Result<Row, OutOfMemory> {
        let mut body = Vec::new(alloc);
        put_production_body(&mut body, self)?;
        Ok(Row {
            kind: 10,
            k1: self.num,
            k2: 0,
            body: Bytes::from_vec(body),
        })
    }

    fn read(alloc: Global, row: &Row) -> Result<Option<ProductionRow>, OutOfMemory> {
        if row.kind != 10 || row.k2 != 0 {
            return Ok(None);
        }
        let bytes = row.body.as_slice();
        know_bytes(bytes);
        match take_production(alloc, row.k1, bytes) {
            Ok((value, rest)) => Ok(finish(value, rest)),
            Err(fault) => unread(fault),
        }
    }
}

impl Kind for BatchRow {
    ghost use Rattle.bp_matter.specs.KeptRows.{batch_kept};
    ghost use Rattle.bp_matter.specs.Written.{batch_written};
    ghost use Rattle.bp_matter.specs.ReadRows.{batch_in_row};

    ghost kept_of = { batch_kept };

    ghost is_written = { batch_written };

    ghost read_of = { batch_in_row };

    fn keep(&self, alloc: Global) -> Result<Row, OutOfMemory> {
        let mut body = Vec::new(alloc);
        put_batch_body(&mut body, self)?;
        Ok(Row {
            kind: 11,
            k1: self.num,
            k2: 0,
            body: Bytes::from_vec(body),
        })
    }

    fn read(alloc: Global, row: &Row) -> Result<Option<BatchRow>, OutOfMemory> {
        if row.kind != 11 || row.k2 != 0 {
            return Ok(None);
        }
        let bytes = row.body.as_slice();
        know_bytes(bytes);
        match take_batch(alloc, row.k1, bytes) {
            Ok((value, rest)) => Ok(finish(value, rest)),
            Err(fault) => unread(fault),
        }
    }
}

impl Kind for PageWords {
    ghost use Rattle.bp_matter.specs.KeptRows.{words_kept};
    ghost use Rattle.bp_matter.specs.Written.{words_written};
    ghost use Rattle.bp_matter.specs.ReadRows.{words_in_row};

    ghost kept_of = { words_kept };

    ghost is_written = { words_written };

    ghost read_of = { words_in_row };

    fn keep(&self, alloc: Global) -> Result<Row, OutOfMemory> {
        let mut body = Vec::new(alloc);
        put_words_body(&mut body, self)?;
        Ok(Row {
            kind: 12,
            k1: self.doc.0,
            k2: self.page.0,
            body: Bytes::from_vec(body),
        })
    }

    fn read(alloc: Global, row: &Row) -> Result<Option<PageWords>, OutOfMemory> {
        if row.kind != 12 {
            return Ok(None);
        }
        let bytes = row.body.as_slice();
        know_bytes(bytes);
        match take_words(alloc, row.k1, row.k2, bytes) {
            Ok((value, rest)) => Ok(finish(value, rest)),
            Err(fault) => unread(fault),
        }
    }
}

// The rows of this kind at the front, and what follows them.
pub(crate) fn take_rows<T: Kind>(
    alloc: Global,
    rows: &[Row],
) -> Result<(Vec<T>, &[Row]), OutOfMemory>
    ensures values { IfOk result (λ x. x.0.items ≡ (segment_of T.read_of rows.now).0) }
    ensures rest { IfOk result (λ x. x.1.now ≡ (segment_of T.read_of rows.now).1) }
    ensures parts { IfOk result (λ x. rows.now ≡ map T.kept_of x.0.items ++ x.1.now) }
    ensures written { IfOk result (λ x. IsTrue (list_all T.is_written x.0.items)) }
{
    let mut values = Vec::new(alloc);
    let mut rest = rows;
    while let Some((first, others)) = rest.split_first() {
        let Some(value) = T::read(alloc, first)? else {
            return Ok((values, rest));
        };
        values.push(value)?;
        rest = others;
    }
    Ok((values, rest))
}

// Adds the kept rows of these.
pub(crate) fn add_rows<T: Kind>(
    alloc: Global,
    kept: &mut Vec<Row>,
    rows: &[T],
) -> Result<(), OutOfMemory>
    requires { IsTrue (list_all T.is_written rows.now) }
    ensures { OnOk result (kept.new.items ≡ kept.old.items ++ map T.kept_of rows.now) }
{
    for row in rows {
        kept.push(row.keep(alloc)?)?;
    }
    Ok(())
}

// Adds the kept rows of four lists.
pub(crate) fn add_four<A: Kind, B: Kind, C: Kind, D: Kind>(
    alloc: Global,
    kept: &mut Vec<Row>,
    a: &[A],
    b: &[B],
    c: &[C],
    d: &[D],
) -> Result<(), OutOfMemory>
    requires a { IsTrue (list_all A.is_written a.now) }
    requires b { IsTrue (list_all B.is_written b.now) }
    requires c { IsTrue (list_all C.is_written c.now) }
    requires d { IsTrue (list_all D.is_written d.now) }
    ensures { OnOk result (kept.new.items ≡ kept.old.items
        ++ (map A.kept_of a.now ++ (map B.kept_of b.now
        ++ (map C.kept_of c.now ++ map D.kept_of d.now)))) }
{
    add_rows(alloc, kept, a)?;
    add_rows(alloc, kept, b)?;
    add_rows(alloc, kept, c)?;
    add_rows(alloc, kept, d)
}

// Adds the kept rows of all shelves.
pub(crate) fn add_shelves<T: Kind + Shelved>(
    alloc: Global,
    kept: &mut Vec<Row>,
    rows: &Shelves<T>,
) -> Result<(), OutOfMemory>
    requires { IsTrue (list_all T.is_written rows.now.rows) }
    ensures { OnOk result (kept.new.items ≡ kept.old.items ++ map T.kept_of rows.now.rows) }
{
    add_each(alloc, kept, rows.as_slice())
}

fn add_each<T: Kind>(
    alloc: Global,
    kept: &mut Vec<Row>,
    shelves: &[Vec<T>],
) -> Result<(), OutOfMemory>
    requires { IsTrue (list_all T.is_written (rows_on shelves.now)) }
    ensures { OnOk result (kept.new.items ≡ kept.old.items ++ map T.kept_of (rows_on shelves.now)) }
{
    let mut rest = shelves;
    while let Some((shelf, others)) = rest.split_first() {
        add_rows(alloc, kept, shelf)?;
        rest = others;
    }
    Ok(())
}

// Adds the kept rows of what was decided of the documents.
pub(crate) fn add_marks(
    alloc: Global,
    kept: &mut Vec<Row>,
    calls: &CallShelves,
    boxes: &DocBoxShelves,
    held: &DocHeldShelves,
    entries: &EntryShelves,
) -> Result<(), OutOfMemory>
    requires calls { IsTrue (list_all call_written calls.now.rows) }
    requires boxes { IsTrue (list_all box_written boxes.now.rows) }
    requires held { IsTrue (list_all held_written held.now.rows) }
    requires entries { IsTrue (list_all entry_written entries.now.rows) }
    ensures { OnOk result (kept.new.items ≡ kept.old.items
        ++ (map call_kept calls.now.rows ++ (map box_kept boxes.now.rows
        ++ (map held_kept held.now.rows ++ map entry_kept entries.now.rows)))) }
{
    add_shelves(alloc, kept, calls)?;
    add_shelves(alloc, kept, boxes)?;
    add_shelves(alloc, kept, held)?;
    add_shelves(alloc, kept, entries)
}
