// Changes of a matter, and the puts that keep them.
ghost use Rattle.std.specs.Prelude.{◌≡◌, ◌++◌, ◌∷◌, [], IfOk, OnOk, IsTrue, map};
ghost use Rattle.std.specs.List.{list_all};
ghost use Rattle.bp_matter.specs.KeptRows.{prefix_kept, production_kept, staff_kept};
ghost use Rattle.bp_matter.specs.Written.{prefix_written, production_written, staff_written};
ghost use Rattle.bp_rules.specs.Changes.{call_puts, gone, mark_puts, put_of, puts_of, rows_kept};
ghost use Rattle.bp_rules.specs.Written.{EditWritten, RowsWritten, call_edit_written, mark_edit_written};

use bp_core::{DocNo, ListOf, OutOfMemory, Put, PutList, Row};
use bp_matter::{
    BatchRow, CallRow, DocBox, DocEntry, DocHeld, DocRow, FieldRow, Kind, PageRow, PageWords,
    PrefixRow, ProductionRow, StaffRow,
};
use std::alloc::Global;
use std::marker::Model;

/// The rows that a batch becomes, each list numbered on from that of the matter.
#[derive(Debug, Drop)]
pub struct ImportRows {
    pub fields: ListOf<FieldRow>,
    pub docs: ListOf<DocRow>,
    pub pages: ListOf<PageRow>,
    pub batch: BatchRow,
    pub words: ListOf<PageWords>,
}

/// What becomes of the call of a document.
#[derive(Debug, Drop)]
pub enum CallEdit {
    Stays,
    Put(CallRow),
    /// This document is uncalled.
    Gone(DocNo),
}

/// What becomes of a box, a held field or the log entry of a document.
#[derive(Debug, Drop)]
pub enum MarkEdit {
    Stays,
    PutBox(DocBox),
    /// The box of this number goes.
    DropBox(DocNo, u32),
    PutHeld(DocHeld),
    /// The field of this number is free.
    DropHeld(DocNo, u32),
    PutEntry(DocEntry),
}

/// What a change does to the tables.
// A call that changes other lists gets a variant here, an arm in `apply` and in `puts_of` below,
// and a case in `after` and `puts_of` of specs/Changes.antt.
#[derive(Debug, Drop)]
pub enum Edit {
    Nothing,
    Import(ImportRows),
    /// A member of the staff comes.
    Staff(StaffRow),
    /// A production comes. Its prefix takes the place of the one of its number, or comes with it.
    Produced(PrefixRow, ProductionRow),
    /// The call of a document changes, a mark of it, or both.
    Review(CallEdit, MarkEdit),
}

/// A change of a matter that was decided. Contracts see its `Edit`; its puts are those of it.
#[derive(Debug, Drop)]
pub struct Change {
    edit: Edit,
    puts: PutList,
}

impl Model for Change {
    ghost use Rattle.std.specs.Prelude.{◌≡◌};
    ghost use Rattle.bp_rules.specs.Changes.{puts_of};
    ghost use Rattle.bp_rules.specs.declared.changes.Edit.{Edit};

    ghost Value = { Edit };

    ghost view = { λ c. c.edit };

    ghost invariant = { λ c. c.puts ≡ puts_of c.edit };
}

impl Change {
    // The change, with its puts.
    pub(crate) fn new(alloc: Global, edit: Edit) -> Result<Change, OutOfMemory>
        requires { EditWritten edit }
        ensures { IfOk result (λ change. change ≡ edit) }
    {
        let puts = puts_of(alloc, &edit)?;
        Ok(Change { edit, puts })
    }

    // The change of nothing, which has no puts.
    pub(crate) fn nothing(alloc: Global) -> Change
        ensures { result ≡ Edit.Nothing }
    {
        Change {
            edit: Edit::Nothing,
            puts: ListOf::new(alloc),
        }
    }

    /// What becomes of the kept rows, in ascending order of key.
    pub fn puts(&self) -> &PutList
        ensures { result.now ≡ puts_of self.now }
    {
        &self.puts
    }

    // What it does to the tables.
    pub(crate) fn edit(&self) -> &Edit
        ensures { result.now ≡ self.now }
    {
        &self.edit
    }

    pub(crate) fn into_edit(self) -> Edit
        ensures { result ≡ self }
    {
        let Change { edit, puts } = self;
        let _puts = puts;
        edit
    }
}

fn puts_of(alloc: Global, edit: &Edit) -> Result<PutList, OutOfMemory>
    requires { EditWritten edit.now }
    ensures { IfOk result (λ puts. puts ≡ puts_of edit.now) }
{
    match edit {
        Edit::Nothing => Ok(ListOf::new(alloc)),
        Edit::Import(rows) => import_puts(alloc, rows),
        Edit::Staff(row) => staff_puts(alloc, row),
        Edit::Produced(prefix, row) => produced_puts(alloc, prefix, row),
        Edit::Review(call, mark) => review_puts(alloc, call, mark),
    }
}

fn staff_puts(alloc: Global, row: &StaffRow) -> Result<PutList, OutOfMemory>
    requires { IsTrue (staff_written row.now) }
    ensures { IfOk result (λ puts. puts ≡ put_of (staff_kept row.now) ∷ []) }
{
    let mut puts = Vec::new(alloc);
    push_put(alloc, &mut puts, row)?;
    Ok(ListOf::from_vec(puts))
}

fn produced_puts(
    alloc: Global,
    prefix: &PrefixRow,
    row: &ProductionRow,
) -> Result<PutList, OutOfMemory>
    requires prefix { IsTrue (prefix_written prefix.now) }
    requires row { IsTrue (production_written row.now) }
    ensures { IfOk result (λ puts. puts
        ≡ put_of (prefix_kept prefix.now) ∷ put_of (production_kept row.now) ∷ []) }
{
    let mut puts = Vec::new(alloc);
    push_put(alloc, &mut puts, prefix)?;
    push_put(alloc, &mut puts, row)?;
    Ok(ListOf::from_vec(puts))
}

fn review_puts(alloc: Global, call: &CallEdit, mark: &MarkEdit) -> Result<PutList, OutOfMemory>
    requires call { IsTrue (call_edit_written call.now) }
    requires mark { IsTrue (mark_edit_written mark.now) }
    ensures { IfOk result (λ puts. puts ≡ call_puts call.now ++ mark_puts mark.now) }
{
    let mut puts = Vec::new(alloc);
    push_call(alloc, &mut puts, call)?;
    push_mark(alloc, &mut puts, mark)?;
    Ok(ListOf::from_vec(puts))
}

// Adds the puts of a changed call.
fn push_call(alloc: Global, puts: &mut Vec<Put>, call: &CallEdit) -> Result<(), OutOfMemory>
    requires { IsTrue (call_edit_written call.now) }
    ensures { OnOk result (puts.new.items ≡ puts.old.items ++ call_puts call.now) }
{
    match call {
        CallEdit::Stays => Ok(()),
        CallEdit::Put(row) => push_put(alloc, puts, row),
        CallEdit::Gone(doc) => push_gone(puts, 5, doc.0, 0),
    }
}

// Adds the puts of a changed mark.
fn push_mark(alloc: Global, puts: &mut Vec<Put>, mark: &MarkEdit) -> Result<(), OutOfMemory>
    requires { IsTrue (mark_edit_written mark.now) }
    ensures { OnOk result (puts.new.items ≡ puts.old.items ++ mark_puts mark.now) }
{
    match mark {
        MarkEdit::Stays => Ok(()),
        MarkEdit::PutBox(row) => push_put(alloc, puts, row),
        MarkEdit::DropBox(doc, num) => push_gone(puts, 6, doc.0, *num),
        MarkEdit::PutHeld(row) => push_put(alloc, puts, row),
        MarkEdit::DropHeld(doc, field) => push_gone(puts, 7, doc.0, *field),
        MarkEdit::PutEntry(row) => push_put(alloc, puts, row),
    }
}

fn push_gone(puts: &mut Vec<Put>, kind: u8, k1: u32, k2: u32) -> Result<(), OutOfMemory>
    ensures { OnOk result (puts.new.items ≡ puts.old.items ++ gone kind k1 k2 ∷ []) }
{
    let body = None;
    puts.push(Put { kind, k1, k2, body })?;
    Ok(())
}

fn import_puts(alloc: Global, rows: &ImportRows) -> Result<PutList, OutOfMemory>
    requires { RowsWritten rows.now }
    ensures { IfOk result (λ puts. puts ≡ map put_of (rows_kept rows.now)) }
{
    let mut puts = Vec::new(alloc);
    push_puts(alloc, &mut puts, rows.fields.as_slice())?;
    push_puts(alloc, &mut puts, rows.docs.as_slice())?;
    push_puts(alloc, &mut puts, rows.pages.as_slice())?;
    push_put(alloc, &mut puts, &rows.batch)?;
    push_puts(alloc, &mut puts, rows.words.as_slice())?;
    Ok(ListOf::from_vec(puts))
}

// Adds the puts that keep these rows.
fn push_puts<T: Kind>(alloc: Global, puts: &mut Vec<Put>, rows: &[T]) -> Result<(), OutOfMemory>
    requires { IsTrue (list_all T.is_written rows.now) }
    ensures { OnOk result (puts.new.items ≡ puts.old.items ++ map put_of (map T.kept_of rows.now)) }
{
    for row in rows {
        push_put(alloc, puts, row)?;
    }
    Ok(())
}

fn push_put<T: Kind>(alloc: Global, puts: &mut Vec<Put>, row: &T) -> Result<(), OutOfMemory>
    requires { IsTrue (T.is_written row.now) }
    ensures { OnOk result (puts.new.items ≡ puts.old.items ++ put_of (T.kept_of row.now) ∷ []) }
{
    let put = put_of(row.keep(alloc)?);
    puts.push(put)?;
    Ok(())
}

fn put_of(row: Row) -> Put
    ensures { result ≡ put_of row }
{
    Put {
        kind: row.kind,
        k1: row.k1,
        k2: row.k2,
        body: Some(row.body),
    }
}
