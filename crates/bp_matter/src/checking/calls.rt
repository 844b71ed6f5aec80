// Whether rows are the calls of a matter.
ghost use Rattle.std.specs.List.{list_all};
ghost use Rattle.std.specs.Prelude.{IsTrue, ◌≡◌};
ghost use Rattle.bp_core.specs.Sorted.{ascends};
ghost use Rattle.bp_matter.specs.Written.{call_written};
ghost use Rattle.bp_matter.specs.Matter.{call_key};
ghost use Rattle.bp_matter.specs.ValidCalls.{CallFacts, call_fits, state_fits};

use super::numbers::names;
use crate::rows::{CallRow, State};
use crate::texts::is_designation;
use crate::treatments::is_ground;
use bp_core::ascends;

fn state_fits(staff: usize, state: State) -> bool
    ensures { result ≡ state_fits staff state }
{
    match state {
        State::Uncalled => false,
        State::First(editor) => names(staff, editor.0),
        State::Confirmed(editor, confirmer) => names(staff, editor.0) && names(staff, confirmer.0),
    }
}

fn call_fits(staff: usize, docs: usize, row: &CallRow) -> bool
    ensures { result ≡ call_fits staff docs row.now }
{
    names(docs, row.doc.0)
        && state_fits(staff, row.state)
        && is_ground(row.treatment)
        && is_designation(&row.designation)
}

fn calls_fit(staff: usize, docs: usize, rows: &[CallRow]) -> bool
    ensures { result ≡ list_all (call_fits staff docs) rows.now }
{
    rows.iter().all(|row| call_fits(staff, docs, row))
}

pub(crate) fn calls_valid(staff: usize, docs: usize, calls: &[CallRow]) -> bool
    requires written { IsTrue (list_all call_written calls.now) }
    ensures order { IsTrue result → IsTrue (ascends call_key 0 calls.now) }
    ensures fact { IsTrue result → CallFacts staff docs calls.now }
    ensures back { CallFacts staff docs calls.now → IsTrue result }
{
    if !ascends(calls) {
        return false;
    }
    calls_fit(staff, docs, calls)
}
