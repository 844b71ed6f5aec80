// The call that decides what becomes of a document, and what an edit makes of one that was decided.
ghost use Rattle.std.specs.Prelude.{[], ◌≡◌, ◌&&◌, IfOk, IsTrue, Some, is_some, length, not};
ghost use Rattle.std.specs.Option.{option_copied};
ghost use Rattle.bp_matter.specs.LookUps.{call_with, doc_with};
ghost use Rattle.bp_matter.specs.Treatments.{is_redact};
ghost use Rattle.bp_matter.specs.ValidRows.{names};
ghost use Rattle.bp_rules.specs.Calling.{edited, with_call};
ghost use Rattle.bp_rules.specs.Changes.{after, call_puts};
ghost use Rattle.bp_rules.specs.Deciding.{Decides, call_there};
ghost use Rattle.bp_rules.specs.Refusing.{has_marks, is_called_redact};
ghost use Rattle.bp_rules.specs.Stepping.{set_call, step_by};
ghost use Rattle.bp_rules.specs.declared.changes.Edit.TheVariants.{Review};
ghost use Rattle.bp_rules.specs.declared.changes.MarkEdit.TheVariants as mark_edits;

use crate::changes::{CallEdit, MarkEdit};
use crate::copies::copy_text;
use crate::decided::{Decided, reviewed};
use crate::no_such::no_document;
use bp_core::{DocNo, OutOfMemory, Refusal, RuleKind, StaffNo, Text, Treatment};
use bp_matter::texts::is_designation;
use bp_matter::treatments::{is_ground, is_redact};
use bp_matter::{Call, CallRow, State, Tables};
use std::alloc::Global;

// The document is called so by this person.
pub(crate) fn set_call(
    alloc: Global,
    tables: &Tables,
    caller: StaffNo,
    doc: DocNo,
    responsive: bool,
    treatment: Treatment,
    designation: &Text,
) -> Result<Decided, Refusal>
    requires { IsTrue (names (length tables.now.matter.staff) caller.0) }
    ensures { Decides tables.now.matter (step_by tables.now.matter caller
        (Call.SetCall doc responsive treatment designation.now)) result }
{
    if tables.doc_with(doc).is_none() {
        return Err(Refusal::Rule(no_document(doc)));
    }
    let row = CallRow {
        doc,
        state: State::First(caller),
        responsive,
        treatment,
        designation: copy_text(designation)?,
    };
    set_row(alloc, tables, caller, row)
}

// The same of a row that says so.
fn set_row(
    alloc: Global,
    tables: &Tables,
    caller: StaffNo,
    row: CallRow,
) -> Result<Decided, Refusal>
    requires named { IsTrue (names (length tables.now.matter.staff) caller.0) }
    requires there { IsTrue (is_some (doc_with row.doc.0 tables.now.matter)) }
    requires state { row.state ≡ State.First caller }
    ensures { Decides tables.now.matter (set_call tables.now.matter row) result }
{
    tables.know_valid();
    let _text = row.designation.as_str();
    if !is_designation(&row.designation) {
        return Err(Refusal::bare(RuleKind::TextRefused));
    }
    if !is_ground(row.treatment) {
        return Err(Refusal::bare(RuleKind::BadBasis));
    }
    if must_redact(tables, &row) {
        return Err(Refusal::bare(RuleKind::BoxesRemain));
    }
    let edit = call_put(tables, row);
    reviewed(alloc, tables, edit, MarkEdit::Stays)
}

// Whether a mark of the document stands, and the call isn't Redact.
fn must_redact(tables: &Tables, row: &CallRow) -> bool
    ensures { result ≡ (not (is_redact row.now.treatment)
        && has_marks row.now.doc.0 tables.now.matter) }
{
    !is_redact(row.treatment) && has_marks(tables, row.doc)
}

// Whether a box or a held field of the document stands.
fn has_marks(tables: &Tables, doc: DocNo) -> bool
    ensures { result ≡ has_marks doc.0 tables.now.matter }
{
    !tables.boxes_on(doc).is_empty() || !tables.held_on(doc).is_empty()
}

// The call of a document, or nothing where it is called so.
pub(crate) fn call_put(tables: &Tables, row: CallRow) -> CallEdit
    ensures after { after tables.now.matter (Review result mark_edits.Stays)
        ≡ with_call row tables.now.matter }
    ensures there { IsTrue (call_there tables.now.matter result) }
    ensures new { after tables.now.matter (Review result mark_edits.Stays) ≡ tables.now.matter →
        call_puts result ≡ [] }
{
    tables.know_valid();
    if stands(tables, &row) {
        return CallEdit::Stays;
    }
    CallEdit::Put(row)
}

// Whether the document is called so.
fn stands(tables: &Tables, row: &CallRow) -> bool
    ensures fact { IsTrue result → call_with row.now.doc.0 tables.now.matter ≡ Some row.now }
    ensures back { call_with row.now.doc.0 tables.now.matter ≡ Some row.now → IsTrue result }
{
    match tables.call_with(row.doc) {
        None => false,
        Some(old) => same_call(old, row),
    }
}

fn same_call(old: &CallRow, row: &CallRow) -> bool
    ensures fact { IsTrue result → old.now ≡ row.now }
    ensures back { old.now ≡ row.now → IsTrue result }
{
    old.doc == row.doc
        && old.state == row.state
        && old.responsive == row.responsive
        && old.treatment == row.treatment
        && old.designation == row.designation
}

// An edit of a document by this person: a called one becomes First by them, an uncalled one stays.
pub(crate) fn edited(tables: &Tables, caller: StaffNo, doc: DocNo) -> Result<CallEdit, OutOfMemory>
    ensures after { IfOk result (λ edit. after tables.now.matter (Review edit mark_edits.Stays)
        ≡ edited caller doc.0 tables.now.matter) }
    ensures there { IfOk result (λ edit. IsTrue (call_there tables.now.matter edit)) }
    ensures new { IfOk result (λ edit.
        after tables.now.matter (Review edit mark_edits.Stays) ≡ tables.now.matter →
        call_puts edit ≡ []) }
{
    match tables.call_with(doc) {
        None => Ok(CallEdit::Stays),
        Some(row) => {
            let row = with_state(row, State::First(caller))?;
            Ok(call_put(tables, row))
        }
    }
}

pub(crate) fn with_state(row: &CallRow, state: State) -> Result<CallRow, OutOfMemory>
    ensures { IfOk result (λ copy. copy ≡ record row.now { state = state }) }
{
    Ok(CallRow {
        doc: row.doc,
        state,
        responsive: row.responsive,
        treatment: row.treatment,
        designation: copy_text(&row.designation)?,
    })
}

// Whether the document of this call is called Redact.
pub(crate) fn is_called_redact(call: Option<&CallRow>) -> bool
    ensures { result ≡ is_called_redact (option_copied call.entry) }
{
    match call {
        None => false,
        Some(row) => is_redact(row.treatment),
    }
}
