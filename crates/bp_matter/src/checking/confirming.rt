// What calls ask of boxes, held fields and log entries, and who may confirm one.
ghost use Rattle.std.specs.List.{list_all, list_any};
ghost use Rattle.std.specs.Option.{option_copied};
ghost use Rattle.std.specs.Prelude.{IsTrue, is_none, ◌≡◌};
ghost use Rattle.bp_core.specs.Sorted.{ascends, find_key};
ghost use Rattle.bp_matter.specs.Confirming.{ReviewFacts, confirm_rule, is_entered, may_hold, needs_entry, state_holds};
ghost use Rattle.bp_matter.specs.Written.{box_written, held_written};
ghost use Rattle.bp_matter.specs.Matter.{box_key, call_key, entry_key, held_key, staff_key};
ghost use Rattle.bp_matter.specs.Treatments.{is_privileged};

use super::staff::checker_there;
use crate::marks::{boxes_on, held_on};
use crate::rows::{CallRow, DocBox, DocEntry, DocHeld, StaffRow, State};
use crate::treatments::{is_privileged, is_redact, is_withheld};
use bp_core::{DocNo, RuleKind, Treatment, find_row};

fn may_hold(call: Option<&CallRow>) -> bool
    ensures { result ≡ may_hold (option_copied call.entry) }
{
    match call {
        None => true,
        Some(call) => is_redact(call.treatment),
    }
}

fn boxes_may(calls: &[CallRow], boxes: &[DocBox]) -> bool
    requires { IsTrue (ascends call_key 0 calls.now) }
    ensures { result ≡ list_all (λ box. may_hold (find_key call_key box.doc.0 calls.now)) boxes.now }
{
    boxes
        .iter()
        .all(|row| may_hold(find_row(calls, u128::from(row.doc.0))))
}

fn held_may(calls: &[CallRow], held: &[DocHeld]) -> bool
    requires { IsTrue (ascends call_key 0 calls.now) }
    ensures { result ≡ list_all (λ row. may_hold (find_key call_key row.doc.0 calls.now)) held.now }
{
    held.iter()
        .all(|row| may_hold(find_row(calls, u128::from(row.doc.0))))
}

fn has_privileged(boxes: &[DocBox]) -> bool
    ensures { result ≡ list_any (λ box. is_privileged box.row.basis) boxes.now }
{
    boxes.iter().any(|row| is_privileged(row.row.basis))
}

fn has_privileged_field(held: &[DocHeld]) -> bool
    ensures { result ≡ list_any (λ row. is_privileged row.row.basis) held.now }
{
    held.iter().any(|row| is_privileged(row.row.basis))
}

fn needs_entry(treatment: Treatment, boxes: &[DocBox], held: &[DocHeld]) -> bool
    ensures { result ≡ needs_entry treatment boxes.now held.now }
{
    is_withheld(treatment) || has_privileged(boxes) || has_privileged_field(held)
}

/// The first rule that keeps this person from confirming a call of a document with these boxes and
/// held fields.
pub fn confirm_rule(
    row: &CallRow,
    editor: u32,
    boxes: &[DocBox],
    held: &[DocHeld],
    has_entry: bool,
    confirmer: u32,
) -> Option<RuleKind>
    ensures { result ≡ confirm_rule row.now editor boxes.now held.now has_entry confirmer }
{
    if editor == confirmer {
        return Some(RuleKind::SamePerson);
    }
    if is_redact(row.treatment) && boxes.is_empty() && held.is_empty() {
        return Some(RuleKind::NothingRedacted);
    }
    if needs_entry(row.treatment, boxes, held) && !has_entry {
        return Some(RuleKind::EntryMissing);
    }
    None
}

fn is_entered(entries: &[DocEntry], doc: DocNo) -> bool
    requires { IsTrue (ascends entry_key 0 entries.now) }
    ensures { result ≡ is_entered doc.0 entries.now }
{
    find_row(entries, u128::from(doc.0)).is_some()
}

fn may_confirm(
    row: &CallRow,
    editor: u32,
    boxes: &[DocBox],
    held: &[DocHeld],
    has_entry: bool,
    confirmer: u32,
) -> bool
    ensures { result ≡ is_none (confirm_rule row.now editor boxes.now held.now has_entry confirmer) }
{
    confirm_rule(row, editor, boxes, held, has_entry, confirmer).is_none()
}

fn state_holds(
    staff: &[StaffRow],
    boxes: &[DocBox],
    held: &[DocHeld],
    entries: &[DocEntry],
    row: &CallRow,
) -> bool
    requires staff { IsTrue (ascends staff_key 0 staff.now) }
    requires boxes { IsTrue (ascends box_key 0 boxes.now) }
    requires boxes_written { IsTrue (list_all box_written boxes.now) }
    requires held { IsTrue (ascends held_key 0 held.now) }
    requires held_written { IsTrue (list_all held_written held.now) }
    requires entries { IsTrue (ascends entry_key 0 entries.now) }
    ensures { result ≡ state_holds staff.now boxes.now held.now entries.now row.now row.now.state }
{
    match row.state {
        State::Uncalled | State::First(_) => true,
        State::Confirmed(editor, confirmer) => {
            checker_there(find_row(staff, u128::from(confirmer.0)))
                && may_confirm(
                    row,
                    editor.0,
                    boxes_on(boxes, row.doc),
                    held_on(held, row.doc),
                    is_entered(entries, row.doc),
                    confirmer.0,
                )
        }
    }
}

fn states_hold(
    staff: &[StaffRow],
    boxes: &[DocBox],
    held: &[DocHeld],
    entries: &[DocEntry],
    calls: &[CallRow],
) -> bool
    requires staff { IsTrue (ascends staff_key 0 staff.now) }
    requires boxes { IsTrue (ascends box_key 0 boxes.now) }
    requires boxes_written { IsTrue (list_all box_written boxes.now) }
    requires held { IsTrue (ascends held_key 0 held.now) }
    requires held_written { IsTrue (list_all held_written held.now) }
    requires entries { IsTrue (ascends entry_key 0 entries.now) }
    ensures { result ≡ list_all
        (λ row. state_holds staff.now boxes.now held.now entries.now row row.state) calls.now }
{
    calls
        .iter()
        .all(|row| state_holds(staff, boxes, held, entries, row))
}

pub(crate) fn review_valid(
    staff: &[StaffRow],
    calls: &[CallRow],
    boxes: &[DocBox],
    held: &[DocHeld],
    entries: &[DocEntry],
) -> bool
    requires staff { IsTrue (ascends staff_key 0 staff.now) }
    requires calls { IsTrue (ascends call_key 0 calls.now) }
    requires boxes { IsTrue (ascends box_key 0 boxes.now) }
    requires boxes_written { IsTrue (list_all box_written boxes.now) }
    requires held { IsTrue (ascends held_key 0 held.now) }
    requires held_written { IsTrue (list_all held_written held.now) }
    requires entries { IsTrue (ascends entry_key 0 entries.now) }
    ensures fact { IsTrue result → ReviewFacts staff.now calls.now boxes.now held.now entries.now }
    ensures back { ReviewFacts staff.now calls.now boxes.now held.now entries.now → IsTrue result }
{
    if !boxes_may(calls, boxes) {
        return false;
    }
    if !held_may(calls, held) {
        return false;
    }
    states_hold(staff, boxes, held, entries, calls)
}
