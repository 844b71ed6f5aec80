// The second review: Confirm, and SendBack.
ghost use Rattle.std.specs.Prelude.{[], ◌≡◌, IsTrue, Some, length};
ghost use Rattle.bp_core.specs.Sorted.{find_key};
ghost use Rattle.bp_matter.specs.Confirming.{is_entered};
ghost use Rattle.bp_matter.specs.Fields.{editor_number};
ghost use Rattle.bp_matter.specs.LookUps.{call_with};
ghost use Rattle.bp_matter.specs.Matter.{staff_key};
ghost use Rattle.bp_matter.specs.ValidRows.{names};
ghost use Rattle.bp_matter.specs.ValidStaff.{checker_there};
ghost use Rattle.bp_rules.specs.Calling.{confirmed_state, without_call};
ghost use Rattle.bp_rules.specs.Changes.{after, call_puts};
ghost use Rattle.bp_rules.specs.Deciding.{Decides, call_there};
ghost use Rattle.bp_rules.specs.Stepping.{confirm, step_by};
ghost use Rattle.bp_rules.specs.declared.changes.Edit.TheVariants.{Review};
ghost use Rattle.bp_rules.specs.declared.changes.MarkEdit.TheVariants as mark_edits;

use crate::changes::{CallEdit, MarkEdit};
use crate::decided::{Decided, reviewed};
use crate::document_calls::{call_put, with_state};
use crate::no_such::no_document;
use bp_core::{DocNo, Refusal, RuleKind, StaffNo};
use bp_matter::{Call, CallRow, State, Tables, confirm_rule};
use std::alloc::Global;

// The second review of a document.
pub(crate) fn confirm(
    alloc: Global,
    tables: &Tables,
    caller: StaffNo,
    doc: DocNo,
) -> Result<Decided, Refusal>
    requires named { IsTrue (names (length tables.now.matter.staff) caller.0) }
    requires checker { IsTrue (checker_there
        (find_key staff_key caller.0 tables.now.matter.staff)) }
    ensures { Decides tables.now.matter
        (step_by tables.now.matter caller (Call.Confirm doc)) result }
{
    if tables.doc_with(doc).is_none() {
        return Err(Refusal::Rule(no_document(doc)));
    }
    let Some(row) = tables.call_with(doc) else {
        return Err(Refusal::bare(RuleKind::NotCalled));
    };
    confirm_row(alloc, tables, caller, doc, row)
}

// The same of a called document.
fn confirm_row(
    alloc: Global,
    tables: &Tables,
    caller: StaffNo,
    doc: DocNo,
    row: &CallRow,
) -> Result<Decided, Refusal>
    requires named { IsTrue (names (length tables.now.matter.staff) caller.0) }
    requires checker { IsTrue (checker_there
        (find_key staff_key caller.0 tables.now.matter.staff)) }
    requires found { call_with doc.0 tables.now.matter ≡ Some row.now }
    ensures { Decides tables.now.matter
        (confirm tables.now.matter caller doc.0 (Some row.now)) result }
{
    tables.know_valid();
    let rule = confirm_rule(
        row,
        editor_of(row.state),
        tables.boxes_on(doc),
        tables.held_on(doc),
        is_entered(tables, doc),
        caller.0,
    );
    if let Some(kind) = rule {
        return Err(Refusal::bare(kind));
    }
    let row = with_state(row, confirmed_state(caller, row.state))?;
    let edit = call_put(tables, row);
    reviewed(alloc, tables, edit, MarkEdit::Stays)
}

fn editor_of(state: State) -> u32
    ensures { result ≡ editor_number state }
{
    match state {
        State::Uncalled => 0,
        State::First(editor) | State::Confirmed(editor, _) => editor.0,
    }
}

fn is_entered(tables: &Tables, doc: DocNo) -> bool
    ensures { result ≡ is_entered doc.0 tables.now.matter.entries }
{
    tables.entry_with(doc).is_some()
}

// Confirmed by this person, unless it is confirmed.
fn confirmed_state(caller: StaffNo, state: State) -> State
    ensures { result ≡ confirmed_state caller state }
{
    match state {
        State::First(editor) => State::Confirmed(editor, caller),
        other => other,
    }
}

// The document is uncalled; its marks stay.
pub(crate) fn send_back(
    alloc: Global,
    tables: &Tables,
    caller: StaffNo,
    doc: DocNo,
) -> Result<Decided, Refusal>
    ensures { Decides tables.now.matter
        (step_by tables.now.matter caller (Call.SendBack doc)) result }
{
    if tables.doc_with(doc).is_none() {
        return Err(Refusal::Rule(no_document(doc)));
    }
    tables.know_valid();
    let edit = uncalled(tables, doc);
    reviewed(alloc, tables, edit, MarkEdit::Stays)
}

fn uncalled(tables: &Tables, doc: DocNo) -> CallEdit
    ensures after { after tables.now.matter (Review result mark_edits.Stays)
        ≡ without_call doc.0 tables.now.matter }
    ensures there { IsTrue (call_there tables.now.matter result) }
    ensures new { after tables.now.matter (Review result mark_edits.Stays) ≡ tables.now.matter →
        call_puts result ≡ [] }
{
    match tables.call_with(doc) {
        Some(_) => CallEdit::Gone(doc),
        None => CallEdit::Stays,
    }
}
