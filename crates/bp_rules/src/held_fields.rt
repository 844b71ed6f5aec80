// Calls that hold the value of a field back, and free it.
ghost use Rattle.std.specs.Prelude.{[], ◌≡◌, IsTrue, Some, length, is_some};
ghost use Rattle.std.specs.Option.{option_copied};
ghost use Rattle.bp_matter.specs.LookUps.{doc_with, field_with};
ghost use Rattle.bp_matter.specs.ValidRows.{names};
ghost use Rattle.bp_matter.specs.Written.{held_written};
ghost use Rattle.bp_rules.specs.Calling.{held_with, with_held};
ghost use Rattle.bp_rules.specs.Changes.{after, mark_puts};
ghost use Rattle.bp_rules.specs.Deciding.{Decides, mark_there};
ghost use Rattle.bp_rules.specs.Stepping.{free_held, hold_field, step_by};
ghost use Rattle.bp_rules.specs.declared.changes.CallEdit.TheVariants as call_edits;
ghost use Rattle.bp_rules.specs.declared.changes.Edit.TheVariants.{Review};

use crate::changes::MarkEdit;
use crate::decided::{Decided, reviewed, told};
use crate::document_calls::{edited, is_called_redact};
use crate::no_such::no_document;
use bp_core::{Basis, DocNo, Refusal, RuleKind, StaffNo, Text, two_keys};
use bp_matter::{Call, DocHeld, FieldRow, HeldRow, Reply, Tables};
use std::alloc::Global;

pub(crate) fn hold_field(
    alloc: Global,
    tables: &Tables,
    caller: StaffNo,
    doc: DocNo,
    field: &Text,
    basis: Basis,
) -> Result<Decided, Refusal>
    requires { IsTrue (names (length tables.now.matter.staff) caller.0) }
    ensures { Decides tables.now.matter
        (step_by tables.now.matter caller (Call.HoldField doc field.now basis)) result }
{
    if tables.doc_with(doc).is_none() {
        return Err(Refusal::Rule(no_document(doc)));
    }
    let Some(row) = tables.field_with(field) else {
        return Err(Refusal::bare(RuleKind::NoField));
    };
    hold(
        alloc,
        tables,
        caller,
        field,
        row,
        DocHeld {
            doc,
            row: HeldRow {
                field: row.field,
                basis,
            },
        },
    )
}

// The same of a field that is there.
fn hold(
    alloc: Global,
    tables: &Tables,
    caller: StaffNo,
    name: &Text,
    field: &FieldRow,
    row: DocHeld,
) -> Result<Decided, Refusal>
    requires named { IsTrue (names (length tables.now.matter.staff) caller.0) }
    requires there { IsTrue (is_some (doc_with row.doc.0 tables.now.matter)) }
    requires found { field_with name.now tables.now.matter ≡ Some field.now }
    requires same { row.row.field ≡ field.now.field }
    ensures { Decides tables.now.matter
        (hold_field tables.now.matter caller row.doc row.row.basis (Some field.now)) result }
{
    tables.know_valid();
    if !is_called_redact(tables.call_with(row.doc)) {
        return Err(Refusal::bare(RuleKind::WrongTreatment));
    }
    let call = edited(tables, caller, row.doc)?;
    know_held(row);
    let mark = held_put(tables, row);
    reviewed(alloc, tables, call, mark)
}

// The numbers of a held field have a writing.
fn know_held(row: DocHeld)
    ensures { IsTrue (held_written row) }
{
    let _row = row;
}

// What the field is held for, or nothing where it is.
fn held_put(tables: &Tables, row: DocHeld) -> MarkEdit
    ensures after { after tables.now.matter (Review call_edits.Stays result)
        ≡ with_held row tables.now.matter }
    ensures there { IsTrue (mark_there tables.now.matter result) }
    ensures new { after tables.now.matter (Review call_edits.Stays result) ≡ tables.now.matter →
        mark_puts result ≡ [] }
{
    tables.know_valid();
    if stands(tables, row) {
        return MarkEdit::Stays;
    }
    MarkEdit::PutHeld(row)
}

fn stands(tables: &Tables, row: DocHeld) -> bool
    ensures fact { IsTrue result → held_with row.doc.0 row.row.field tables.now.matter ≡ Some row }
    ensures back { held_with row.doc.0 row.row.field tables.now.matter ≡ Some row → IsTrue result }
{
    match held_with(tables, row.doc, row.row.field) {
        None => false,
        Some(old) => *old == row,
    }
}

// What a field of a document is held for.
fn held_with(tables: &Tables, doc: DocNo, field: u32) -> Option<&DocHeld>
    ensures { option_copied result ≡ held_with doc.0 field tables.now.matter }
{
    tables.know_valid();
    tables.held.find(doc, two_keys(doc.0, field))
}

fn is_held(tables: &Tables, doc: DocNo, field: u32) -> bool
    ensures { result ≡ is_some (held_with doc.0 field tables.now.matter) }
{
    held_with(tables, doc, field).is_some()
}

pub(crate) fn free_field(
    alloc: Global,
    tables: &Tables,
    caller: StaffNo,
    doc: DocNo,
    field: &Text,
) -> Result<Decided, Refusal>
    requires { IsTrue (names (length tables.now.matter.staff) caller.0) }
    ensures { Decides tables.now.matter
        (step_by tables.now.matter caller (Call.FreeField doc field.now)) result }
{
    if tables.doc_with(doc).is_none() {
        return Err(Refusal::Rule(no_document(doc)));
    }
    let Some(row) = tables.field_with(field) else {
        return Err(Refusal::bare(RuleKind::NoField));
    };
    free_if_held(alloc, tables, caller, doc, row.field)
}

fn free_if_held(
    alloc: Global,
    tables: &Tables,
    caller: StaffNo,
    doc: DocNo,
    field: u32,
) -> Result<Decided, Refusal>
    requires { IsTrue (names (length tables.now.matter.staff) caller.0) }
    ensures { Decides tables.now.matter (free_held tables.now.matter caller doc.0 field) result }
{
    tables.know_valid();
    if !is_held(tables, doc, field) {
        return told(alloc, tables, Reply::Done);
    }
    let call = edited(tables, caller, doc)?;
    reviewed(alloc, tables, call, MarkEdit::DropHeld(doc, field))
}
