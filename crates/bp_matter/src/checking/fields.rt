// Whether rows are the fields of a matter.
ghost use Rattle.std.specs.List.{list_all, list_any};
ghost use Rattle.std.specs.Prelude.{IfOk, IsTrue, length, nat_le, ◌≡◌};
ghost use Rattle.std.specs.Str.{bytes_eq};
ghost use Rattle.bp_matter.specs.Written.{field_written};
ghost use Rattle.bp_matter.specs.ValidFields.{FieldFacts, field_fits, field_name, has_field};

use super::labels::FieldName;
use super::numbers::is_numbered;
use crate::limits::MAX_FIELDS;
use crate::rows::FieldRow;
use crate::texts::is_field_name;
use bp_core::{OutOfMemory, Text, all_differ};
use std::alloc::Global;

fn fields_fit(rows: &[FieldRow]) -> bool
    ensures { result ≡ list_all field_fits rows.now }
{
    rows.iter().all(|row| is_field_name(&row.name))
}

fn fields_few(rows: &[FieldRow]) -> bool
    ensures { result ≡ nat_le (length rows.now) MAX_FIELDS }
{
    rows.len() <= MAX_FIELDS
}

pub(crate) fn fields_valid(alloc: Global, fields: &[FieldRow]) -> Result<bool, OutOfMemory>
    requires written { IsTrue (list_all field_written fields.now) }
    ensures fact { IfOk result (λ good. IsTrue good → FieldFacts fields.now) }
    ensures back { IfOk result (λ good. FieldFacts fields.now → IsTrue good) }
{
    if !is_numbered(fields, 1) {
        return Ok(false);
    }
    if !fields_few(fields) {
        return Ok(false);
    }
    if !all_differ::<FieldName, _>(alloc, fields)? {
        return Ok(false);
    }
    Ok(fields_fit(fields))
}

pub(crate) fn has_field(fields: &[FieldRow], name: &Text) -> bool
    ensures { result ≡ has_field fields.now name.now }
{
    fields.iter().any(|row| row.name == *name)
}
