// Whether a request is one that a production may have.
ghost use Rattle.std.specs.List.{list_all, list_any};
ghost use Rattle.std.specs.Prelude.{IfOk, ◌&&◌, ◌≡◌};
ghost use Rattle.std.specs.Str.{bytes_eq};
ghost use Rattle.bp_matter.specs.ValidProductions.{field_chosen, request_fits};
ghost use Rattle.bp_matter.specs.ValidRows.{names};
ghost use Rattle.bp_matter.specs.Texts.{is_id, is_volume};

use super::fields::has_field;
use super::labels::ChosenField;
use super::numbers::names;
use crate::rows::{FieldRow, Request};
use crate::texts::{is_column_name, is_id, is_volume};
use bp_core::{OutOfMemory, Text, all_differ};
use std::alloc::Global;

fn are_chosen(fields: &[FieldRow], names: &[Text]) -> bool
    ensures { result ≡ list_all (field_chosen fields.now) names.now }
{
    names
        .iter()
        .all(|name| has_field(fields, name) && !is_column_name(name))
}

fn names_fit(docs: usize, of: &Request) -> bool
    ensures { result ≡ (is_id of.now.id && is_volume of.now.volume
        && names docs of.now.from.0 && names docs of.now.to.0) }
{
    is_id(&of.id) && is_volume(&of.volume) && names(docs, of.from.0) && names(docs, of.to.0)
}

pub(crate) fn request_fits(
    alloc: Global,
    fields: &[FieldRow],
    docs: usize,
    of: &Request,
) -> Result<bool, OutOfMemory>
    ensures { IfOk result (λ fits. fits ≡ request_fits fields.now docs of.now) }
{
    let chosen = of.fields.as_slice();
    if !names_fit(docs, of) || !are_chosen(fields, chosen) {
        return Ok(false);
    }
    all_differ::<ChosenField, _>(alloc, chosen)
}
