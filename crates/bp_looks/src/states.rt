// The states of documents, as they are told.
ghost use Rattle.std.specs.Prelude.{◌≡◌, ◌≤◌, IfOk, length, take};
ghost use Rattle.std.specs.Option.{option_copied};
ghost use Rattle.bp_core.specs.Answers.{Answers};
ghost use Rattle.bp_looks.specs.Produced.{produced_in};
ghost use Rattle.bp_looks.specs.States.{docs_from, see_states, state_row, states_of};

use crate::copies::copy_if;
use crate::no_such::no_document;
use crate::produced::production_ids;
use crate::shown::{
    box_count, called_state, held_count, is_entered, shown_designation, shown_responsive,
    shown_treatment,
};
use bp_core::{DocNo, ListOf, OutOfMemory, Refusal, Text};
use bp_matter::{DocRow, StateList, StateRow, Tables};
use std::alloc::Global;

/// The most documents that one answer tells of.
pub const MAX_STATES: usize = 500;

/// The documents in order, from this one to the last, but at most MAX_STATES. NoDocument with its number
/// where the matter has no such document.
pub fn see_states(alloc: Global, tables: &Tables, from: DocNo) -> Result<StateList, Refusal>
    ensures { Answers (λ states. states) result (see_states tables.now.matter from.0) }
{
    if from.0 == 0 || from.0 > tables.documents() {
        return Err(Refusal::Rule(no_document(from)));
    }
    Ok(states_of(alloc, tables, from)?)
}

fn states_of(alloc: Global, tables: &Tables, from: DocNo) -> Result<StateList, OutOfMemory>
    requires first { 1 ≤ from.0 }
    requires last { from.0 ≤ length tables.now.matter.docs }
    ensures { IfOk result (λ states. states ≡ states_of tables.now.matter from.0) }
{
    tables.know_valid();
    let docs = docs_from(tables, from);
    let ids = production_ids(alloc, tables, from, docs.len())?;
    let mut states = Vec::new(alloc);
    for i in 0..docs.len() {
        states.push(state_row(alloc, tables, &docs[i], ids[i])?)?;
    }
    Ok(ListOf::from_vec(states))
}

// The rows of the documents that are told of, from this one on.
fn docs_from(tables: &Tables, from: DocNo) -> &[DocRow]
    requires first { 1 ≤ from.0 }
    requires last { from.0 ≤ length tables.now.matter.docs }
    ensures { result.now ≡ docs_from tables.now.matter from.0 }
{
    let docs = tables.docs.as_slice();
    first_of(&docs[from.0 as usize - 1..])
}

// The first of these rows, as many as are told of.
fn first_of(rows: &[DocRow]) -> &[DocRow]
    ensures { result.now ≡ take MAX_STATES rows.now }
{
    if rows.len() <= MAX_STATES {
        return rows;
    }
    &rows[..MAX_STATES]
}

// How far the document in this row has come, which stands in the production of this id.
fn state_row(
    alloc: Global,
    tables: &Tables,
    row: &DocRow,
    production: Option<&Text>,
) -> Result<StateRow, OutOfMemory>
    requires { option_copied production ≡ produced_in tables.now.matter row.now.doc.0 }
    ensures { IfOk result (λ state. state ≡ state_row tables.now.matter row.now) }
{
    let call = tables.call_with(row.doc);
    Ok(StateRow {
        doc: row.doc,
        parent: row.parent,
        pages: row.pages,
        state: called_state(call),
        responsive: shown_responsive(call),
        treatment: shown_treatment(call),
        designation: shown_designation(alloc, call)?,
        boxes: box_count(tables, row.doc),
        held: held_count(tables, row.doc),
        entry: is_entered(tables, row.doc),
        production: copy_if(production)?,
    })
}
