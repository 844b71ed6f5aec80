// The values of a document, as they are told.
ghost use Rattle.std.specs.Prelude.{◌≡◌, IfOk, map};
ghost use Rattle.bp_core.specs.Answers.{Answers};
ghost use Rattle.bp_looks.specs.Values.{held_for, see_values, value_in, value_row, values_of};

use crate::copies::{copy_text, empty};
use crate::no_such::no_document;
use bp_core::{Basis, DocNo, ListOf, OutOfMemory, Refusal, Text, two_keys};
use bp_matter::{DocRow, FieldRow, Tables, ValueList, ValueRow};
use std::alloc::Global;

/// Each field of the matter in order, with the document's value. NoDocument with its number where the
/// matter has no such document.
pub fn see_values(alloc: Global, tables: &Tables, doc: DocNo) -> Result<ValueList, Refusal>
    ensures { Answers (λ values. values) result (see_values tables.now.matter doc.0) }
{
    let Some(row) = tables.doc_with(doc) else {
        return Err(Refusal::Rule(no_document(doc)));
    };
    Ok(values_of(alloc, tables, row)?)
}

fn values_of(alloc: Global, tables: &Tables, row: &DocRow) -> Result<ValueList, OutOfMemory>
    ensures { IfOk result (λ values. values ≡ values_of tables.now.matter row.now) }
{
    let mut values = Vec::new(alloc);
    for field in tables.fields.as_slice() {
        values.push(value_row(alloc, tables, row, field)?)?;
    }
    Ok(ListOf::from_vec(values))
}

// A field of the document in this row.
fn value_row(
    alloc: Global,
    tables: &Tables,
    row: &DocRow,
    field: &FieldRow,
) -> Result<ValueRow, OutOfMemory>
    ensures { IfOk result (λ value. value ≡ value_row tables.now.matter row.now field.now) }
{
    Ok(ValueRow {
        field: field.field,
        name: copy_text(&field.name)?,
        value: value_in(alloc, row, field.field)?,
        held: held_for(tables, row.doc, field.field),
    })
}

// The value of a field, counted from 1.
fn value_in(alloc: Global, row: &DocRow, field: u32) -> Result<Text, OutOfMemory>
    ensures { IfOk result (λ value. value ≡ value_in row.now field) }
{
    let values = row.values.as_slice();
    let place = field.saturating_sub(1) as usize;
    if place < values.len() {
        copy_text(&values[place])
    } else {
        Ok(empty(alloc))
    }
}

// The ground on which a field of a document is held back.
fn held_for(tables: &Tables, doc: DocNo, field: u32) -> Option<Basis>
    ensures { result ≡ held_for tables.now.matter doc.0 field }
{
    tables.know_valid();
    match tables.held.find(doc, two_keys(doc.0, field)) {
        None => None,
        Some(held) => Some(held.row.basis),
    }
}
