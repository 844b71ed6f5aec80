// What a new request says by itself, and beside the names that are kept.
ghost use Rattle.std.specs.Prelude.{◌≡◌, ◌&&◌, IfOk, length, map, not};
ghost use Rattle.std.specs.List.{list_all, list_any};
ghost use Rattle.std.specs.Option.{option_copied};
ghost use Rattle.std.specs.Str.{bytes_eq};
ghost use Rattle.bp_matter.specs.Texts.{is_column_name};
ghost use Rattle.bp_matter.specs.ValidFields.{field_name};
ghost use Rattle.bp_freeze.specs.Freezing.{same_request};
ghost use Rattle.bp_freeze.specs.Refusals.{among, are_choosable, first_rule, is_range, is_taken, request_rules, rule_with, same_width};
ghost use Rattle.bp_freeze.specs.Seeing.{decisions_of};

use bp_bates::good_prefix;
use bp_core::{OutOfMemory, Rule, RuleKind, Text, texts_differ};
use bp_matter::texts::{is_column_name, is_id, is_volume};
use bp_matter::{FieldRow, PrefixRow, ProductionRow, Request, Tables};
use std::alloc::Global;

// The first rule that the request breaks before its documents are looked at.
pub(crate) fn request_refusal(
    alloc: Global,
    tables: &Tables,
    request: &Request,
) -> Result<Option<Rule>, OutOfMemory>
    ensures { IfOk result (λ rule. rule
        ≡ first_rule (request_rules (decisions_of tables.now.matter) request.now)) }
{
    if !good_prefix(&request.prefix.text, request.prefix.width) {
        return Ok(Some(Rule::bare(RuleKind::BadPrefix)));
    }
    if !(is_id(&request.id) && is_volume(&request.volume)) {
        return Ok(Some(Rule::bare(RuleKind::BadVolume)));
    }
    if is_taken(&tables.productions, &request.volume) {
        return Ok(Some(Rule::bare(RuleKind::VolumeTaken)));
    }
    if !are_choosable(alloc, request.fields.as_slice())? {
        return Ok(Some(Rule::bare(RuleKind::FieldChoice)));
    }
    if !are_fields(&tables.fields, request.fields.as_slice()) {
        return Ok(Some(Rule::bare(RuleKind::NoField)));
    }
    let prefix = tables.prefix_with(&request.prefix.text);
    if let Some(rule) = width_refusal(prefix, request.prefix.width) {
        return Ok(Some(rule));
    }
    if !is_range(tables, request) {
        return Ok(Some(Rule::bare(RuleKind::RangeEmpty)));
    }
    Ok(None)
}

// Whether a production has a volume of this name.
fn is_taken(productions: &[ProductionRow], volume: &Text) -> bool
    ensures { result ≡ is_taken productions.now volume.now }
{
    productions
        .iter()
        .any(|row| row.production.request.volume == *volume)
}

// Whether no field is chosen twice, and none has the name of a column of every load file.
fn are_choosable(alloc: Global, names: &[Text]) -> Result<bool, OutOfMemory>
    ensures { IfOk result (λ choosable. choosable ≡ are_choosable names.now) }
{
    if !texts_differ(alloc, names)? {
        return Ok(false);
    }
    Ok(!has_column(names))
}

fn has_column(names: &[Text]) -> bool
    ensures { result ≡ list_any is_column_name names.now }
{
    names.iter().any(|name| is_column_name(name))
}

// Whether each is the name of a field.
fn are_fields(fields: &[FieldRow], names: &[Text]) -> bool
    ensures { result ≡ list_all (among (map field_name fields.now)) names.now }
{
    names.iter().all(|name| has_field(fields, name))
}

fn has_field(fields: &[FieldRow], name: &Text) -> bool
    ensures { result ≡ among (map field_name fields.now) name.now }
{
    has_name(fields, name)
}

fn has_name(fields: &[FieldRow], name: &Text) -> bool
    ensures { result ≡ list_any (λ row. bytes_eq row.name name.now) fields.now }
{
    fields.iter().any(|row| row.name == *name)
}

// The rule of a prefix that is kept with another width.
fn width_refusal(prefix: Option<&PrefixRow>, width: u8) -> Option<Rule>
    ensures { result ≡ same_width (option_copied prefix.entry) width }
{
    match prefix {
        None => None,
        Some(row) => {
            let kept = row.prefix.width;
            if kept == width {
                None
            } else {
                Some(rule_with(RuleKind::PrefixDiffers, u64::from(kept)))
            }
        }
    }
}

// A rule that uses one value.
pub(crate) fn rule_with(kind: RuleKind, a: u64) -> Rule
    ensures { result ≡ rule_with kind a }
{
    Rule {
        a,
        ..Rule::bare(kind)
    }
}

// Whether the range has a document, and its documents are those of the matter.
fn is_range(tables: &Tables, request: &Request) -> bool
    ensures { result ≡ is_range request.now (length tables.now.matter.docs) }
{
    let from = request.from.0;
    let to = request.to.0;
    1 <= from && from <= to && to as usize <= tables.docs.len()
}

// Whether two requests ask for the same.
pub(crate) fn same_request(kept: &Request, asked: &Request) -> bool
    ensures { result ≡ same_request kept.now asked.now }
{
    kept.id == asked.id
        && kept.volume == asked.volume
        && kept.prefix.text == asked.prefix.text
        && kept.prefix.width == asked.prefix.width
        && kept.from.0 == asked.from.0
        && kept.to.0 == asked.to.0
        && kept.fields == asked.fields
}
