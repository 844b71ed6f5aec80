// Making a decided change.
ghost use Rattle.std.specs.Prelude.{[], ◌≡◌, ◌≤◌, ◌++◌, ◌∷◌, length, IsTrue, OnOk};
ghost use Rattle.bp_core.specs.Sorted.{ascends, put};
ghost use Rattle.bp_matter.specs.Matter.{prefix_key};
ghost use Rattle.bp_matter.specs.Valid.{IsValid};
ghost use Rattle.bp_rules.specs.Calling.{with_staff};
ghost use Rattle.bp_rules.specs.Changes.{after, boxes_after, calls_after, entries_after, held_after, puts_of, rows_kept, with_produced, with_rows};
ghost use Rattle.bp_rules.specs.Room.{HasRoom, HasRoomFor, HasRoomForCall, HasRoomForEdit, HasRoomForFour, HasRoomForMark, HasRoomForRows};
ghost use Rattle.bp_rules.specs.declared.changes.Edit.TheVariants.{Review};

use crate::changes::{CallEdit, Change, Edit, ImportRows, MarkEdit};
use bp_core::{Keyed, ListOf, OutOfMemory, put_row, two_keys};
use bp_matter::{
    BatchRow, CallShelves, DocBoxShelves, DocHeldShelves, DocRow, EntryShelves, FieldRow, PageRow,
    PageWords, PrefixRow, ProductionRow, StaffRow, Tables,
};

/// Makes room for the rows of a change: in each list for as many rows as there are puts, and on the shelves
/// of a document for those that a review puts. The contents stay as they are.
pub fn make_room(tables: &mut Tables, change: &Change) -> Result<(), OutOfMemory>
    ensures same { tables.new.matter ≡ tables.old.matter }
    ensures spare { OnOk result (length (puts_of change.now) ≤ tables.new.spare) }
    ensures room { OnOk result (HasRoomFor tables.new change.now) }
{
    reserve_lists(tables, change.puts().len())?;
    match change.edit() {
        Edit::Review(call, mark) => reserve_shelves(tables, call, mark),
        _ => Ok(()),
    }
}

// Makes room for so many rows in each list.
fn reserve_lists(tables: &mut Tables, count: usize) -> Result<(), OutOfMemory>
    ensures same { tables.new.matter ≡ tables.old.matter }
    ensures room { OnOk result (count ≤ tables.new.spare) }
{
    reserve_four(
        &mut tables.staff,
        &mut tables.fields,
        &mut tables.docs,
        &mut tables.pages,
        count,
    )?;
    reserve_four(
        &mut tables.prefixes,
        &mut tables.productions,
        &mut tables.batches,
        &mut tables.words,
        count,
    )?;
    Ok(())
}

// Makes room for what a review puts on the shelves of a document.
fn reserve_shelves(tables: &mut Tables, call: &CallEdit, mark: &MarkEdit) -> Result<(), OutOfMemory>
    ensures same { tables.new.matter ≡ tables.old.matter }
    ensures spare { tables.new.spare ≡ tables.old.spare }
    ensures room { OnOk result (HasRoomForEdit tables.new.rooms call.now mark.now) }
{
    reserve_call(&mut tables.calls, call)?;
    reserve_mark(
        &mut tables.boxes,
        &mut tables.held,
        &mut tables.entries,
        mark,
    )?;
    Ok(())
}

fn reserve_call(calls: &mut CallShelves, call: &CallEdit) -> Result<(), OutOfMemory>
    ensures same { calls.new.rows ≡ calls.old.rows }
    ensures room { OnOk result (HasRoomForCall calls.new.rooms call.now) }
{
    match call {
        CallEdit::Put(row) => calls.reserve(row.doc),
        _ => Ok(()),
    }
}

fn reserve_mark(
    boxes: &mut DocBoxShelves,
    held: &mut DocHeldShelves,
    entries: &mut EntryShelves,
    mark: &MarkEdit,
) -> Result<(), OutOfMemory>
    ensures boxes { boxes.new.rows ≡ boxes.old.rows }
    ensures held { held.new.rows ≡ held.old.rows }
    ensures entries { entries.new.rows ≡ entries.old.rows }
    ensures room { OnOk result
        (HasRoomForMark boxes.new.rooms held.new.rooms entries.new.rooms mark.now) }
{
    match mark {
        MarkEdit::PutBox(row) => boxes.reserve(row.doc),
        MarkEdit::PutHeld(row) => held.reserve(row.doc),
        MarkEdit::PutEntry(row) => entries.reserve(row.doc),
        _ => Ok(()),
    }
}

// Makes room for so many rows in each of four lists.
fn reserve_four<A, B, C, D>(
    a: &mut Vec<A>,
    b: &mut Vec<B>,
    c: &mut Vec<C>,
    d: &mut Vec<D>,
    count: usize,
) -> Result<(), OutOfMemory>
    ensures first { a.new.items ≡ a.old.items }
    ensures second { b.new.items ≡ b.old.items }
    ensures third { c.new.items ≡ c.old.items }
    ensures fourth { d.new.items ≡ d.old.items }
    ensures room { OnOk result (HasRoomForFour count a.new b.new c.new d.new) }
{
    a.reserve(count)?;
    b.reserve(count)?;
    c.reserve(count)?;
    d.reserve(count)?;
    Ok(())
}

/// Makes a change that was decided on these tables, with room for it. It takes no memory.
pub fn apply(tables: &mut Tables, change: Change)
    requires valid { IsValid (after tables.old.matter change) }
    requires room { HasRoomFor tables.old change }
    ensures { tables.new.matter ≡ after tables.old.matter change }
{
    match change.into_edit() {
        Edit::Nothing => {}
        Edit::Import(rows) => add_rows(tables, rows),
        Edit::Staff(row) => add_staff(tables, row),
        Edit::Produced(prefix, row) => add_production(tables, prefix, row),
        Edit::Review(call, mark) => edit_rows(tables, call, mark),
    }
}

fn add_staff(tables: &mut Tables, row: StaffRow)
    requires valid { IsValid (with_staff row tables.old.matter) }
    requires room { 1 ≤ tables.old.spare }
    ensures { tables.new.matter ≡ with_staff row tables.old.matter }
{
    push_staff(&mut tables.staff, row);
}

fn push_staff(staff: &mut Vec<StaffRow>, row: StaffRow)
    requires { HasRoom 1 staff.old }
    ensures { staff.new.items ≡ staff.old.items ++ row ∷ [] }
{
    let _ = staff.push(row);
}

// Adds a production, and puts its prefix. Between the lists the tables need not be valid.
fn add_production(tables: &mut Tables, prefix: PrefixRow, row: ProductionRow)
    requires valid { IsValid (with_produced prefix row tables.old.matter) }
    requires room { 2 ≤ tables.old.spare }
    ensures { tables.new.matter ≡ with_produced prefix row tables.old.matter }
{
    produce(&mut tables.prefixes, &mut tables.productions, prefix, row);
}

fn produce(
    prefixes: &mut Vec<PrefixRow>,
    productions: &mut Vec<ProductionRow>,
    prefix: PrefixRow,
    row: ProductionRow,
)
    requires order { IsTrue (ascends prefix_key 0 prefixes.old.items) }
    requires prefix_room { HasRoom 1 prefixes.old }
    requires row_room { HasRoom 1 productions.old }
    ensures prefixes { prefixes.new.items ≡ put prefix_key prefix prefixes.old.items }
    ensures productions { productions.new.items ≡ productions.old.items ++ row ∷ [] }
{
    put_in(prefixes, prefix);
    let _ = productions.push(row);
}

// Changes the rows of a document. Between the lists the tables need not be valid.
fn edit_rows(tables: &mut Tables, call: CallEdit, mark: MarkEdit)
    requires valid { IsValid (after tables.old.matter (Review call mark)) }
    requires room { HasRoomForEdit tables.old.rooms call mark }
    ensures { tables.new.matter ≡ after tables.old.matter (Review call mark) }
{
    edit_lists(
        &mut tables.calls,
        &mut tables.boxes,
        &mut tables.held,
        &mut tables.entries,
        call,
        mark,
    );
}

fn edit_lists(
    calls: &mut CallShelves,
    boxes: &mut DocBoxShelves,
    held: &mut DocHeldShelves,
    entries: &mut EntryShelves,
    call: CallEdit,
    mark: MarkEdit,
)
    requires call_room { HasRoomForCall calls.old.rooms call }
    requires mark_room { HasRoomForMark boxes.old.rooms held.old.rooms entries.old.rooms mark }
    ensures calls { calls.new.rows ≡ calls_after call calls.old.rows }
    ensures boxes { boxes.new.rows ≡ boxes_after mark boxes.old.rows }
    ensures held { held.new.rows ≡ held_after mark held.old.rows }
    ensures entries { entries.new.rows ≡ entries_after mark entries.old.rows }
{
    edit_call(calls, call);
    match mark {
        MarkEdit::Stays => {}
        MarkEdit::PutBox(row) => boxes.put(row),
        MarkEdit::DropBox(doc, num) => boxes.remove(doc, two_keys(doc.0, num)),
        MarkEdit::PutHeld(row) => held.put(row),
        MarkEdit::DropHeld(doc, field) => held.remove(doc, two_keys(doc.0, field)),
        MarkEdit::PutEntry(row) => entries.put(row),
    }
}

fn edit_call(calls: &mut CallShelves, call: CallEdit)
    requires { HasRoomForCall calls.old.rooms call }
    ensures { calls.new.rows ≡ calls_after call calls.old.rows }
{
    match call {
        CallEdit::Stays => {}
        CallEdit::Put(row) => calls.put(row),
        CallEdit::Gone(doc) => calls.remove(doc, u128::from(doc.0)),
    }
}

// Puts a row into a list that has room for it.
fn put_in<T: Keyed + Drop>(rows: &mut Vec<T>, row: T)
    requires order { IsTrue (ascends T.key_of 0 rows.old.items) }
    requires room { HasRoom 1 rows.old }
    ensures { rows.new.items ≡ put T.key_of row rows.old.items }
{
    let _ = put_row(rows, row);
}

// Adds the rows of an import. Between the lists the tables need not be valid.
fn add_rows(tables: &mut Tables, rows: ImportRows)
    requires valid { IsValid (with_rows tables.old.matter rows) }
    requires room { length (rows_kept rows) ≤ tables.old.spare }
    ensures { tables.new.matter ≡ with_rows tables.old.matter rows }
{
    add_lists(
        &mut tables.fields,
        &mut tables.docs,
        &mut tables.pages,
        &mut tables.batches,
        &mut tables.words,
        rows,
    );
}

fn add_lists(
    fields: &mut Vec<FieldRow>,
    docs: &mut Vec<DocRow>,
    pages: &mut Vec<PageRow>,
    batches: &mut Vec<BatchRow>,
    words: &mut Vec<PageWords>,
    rows: ImportRows,
)
    requires { HasRoomForRows fields.old docs.old pages.old batches.old words.old rows }
    ensures fields { fields.new.items ≡ fields.old.items ++ rows.fields }
    ensures docs { docs.new.items ≡ docs.old.items ++ rows.docs }
    ensures pages { pages.new.items ≡ pages.old.items ++ rows.pages }
    ensures batches { batches.new.items ≡ batches.old.items ++ rows.batch ∷ [] }
    ensures words { words.new.items ≡ words.old.items ++ rows.words }
{
    add(fields, rows.fields);
    add(docs, rows.docs);
    add(pages, rows.pages);
    let _ = batches.push(rows.batch);
    add(words, rows.words);
}

// Adds rows behind those of a list that has room for them.
fn add<T: Drop>(rows: &mut Vec<T>, more: ListOf<T>)
    requires { HasRoom (length more) rows.old }
    ensures { rows.new.items ≡ rows.old.items ++ more }
{
    let mut more = more.into_vec();
    let _ = rows.append(&mut more);
}
