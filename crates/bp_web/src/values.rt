// What replies say, as values of JSON.
ghost use Rattle.std.specs.Prelude.{◌≡◌, IfOk};
ghost use Rattle.serde_json.specs.View.{view};
ghost use Rattle.bp_web.specs.Values.{box_data, confirmer_of, doc_data, done_data, editor_of, entry_data, field_data, fields_data, found_data, ground_or_null, held_data, hit_data, item_data, list_of, people_data, person_data, production_data, production_view_data, productions_data, refusal_data, role_text, staff_data, state_data, states_data, text_or_null, treatment_text, word_data, words_data};

use bp_core::{Basis, Role, StaffNo, Text, Treatment};
use bp_matter::{
    BoxRow, DocView, Entry, Found, HeldRow, Hit, Item, PersonRow, Production, ProductionView,
    State, StateRow, ValueRow,
};
use bp_text::Word;
use serde_json::{Value, json};
use std::alloc::{AllocError, Global};

// A refusal: the number of its rule, its name, a line and two values.
#[tactic(auto, unfolding(crate::specs::Values::refusal_data))]
pub(crate) fn refusal_value(
    alloc: Global,
    number: u64,
    name: &str,
    line: u64,
    a: u64,
    b: u64,
) -> Result<Value, AllocError>
    ensures { IfOk result (λ value. view value ≡ refusal_data number name.now line a b) }
{
    json!(in alloc; {"a": a, "b": b, "line": line, "name": name, "rule": number})
}

// The number of a member of the staff.
#[tactic(auto, unfolding(crate::specs::Values::staff_data))]
pub(crate) fn staff_value(alloc: Global, staff: StaffNo) -> Result<Value, AllocError>
    ensures { IfOk result (λ value. view value ≡ staff_data staff) }
{
    json!(in alloc; {"staff": u64::from(staff.0)})
}

// It is done.
#[tactic(auto, unfolding(crate::specs::Values::done_data))]
pub(crate) fn done_value(alloc: Global) -> Result<Value, AllocError>
    ensures { IfOk result (λ value. view value ≡ done_data) }
{
    json!(in alloc; {"done": true})
}

fn treatment_name(treatment: Treatment) -> &'static str
    ensures { result.now ≡ treatment_text treatment }
{
    match treatment {
        Treatment::Produce => "Produce",
        Treatment::Redact => "Redact",
        Treatment::Withhold(Basis::Ac) => "Withhold-AC",
        Treatment::Withhold(Basis::Wp) => "Withhold-WP",
        Treatment::Withhold(Basis::Pi) => "Withhold-PI",
        Treatment::Withhold(Basis::Ts) => "Withhold-TS",
    }
}

// What is known of a document.
#[tactic(auto, unfolding(crate::specs::Values::doc_data))]
pub(crate) fn doc_value(alloc: Global, v: &DocView) -> Result<Value, AllocError>
    ensures { IfOk result (λ value. view value ≡ doc_data v.now) }
{
    let boxes = boxes_value(alloc, v.boxes.as_slice())?;
    let held = held_value(alloc, v.held.as_slice())?;
    let entry = entry_value(alloc, &v.entry)?;
    let (editor, confirmer) = editors(v.state);
    let treatment = treatment_name(v.treatment);
    json!(in alloc; {
        "boxes": boxes,
        "confirmer": u64::from(confirmer),
        "designation": v.designation.as_str(),
        "doc": u64::from(v.doc.0),
        "editor": u64::from(editor),
        "entry": entry,
        "held": held,
        "pages": u64::from(v.pages),
        "parent": u64::from(v.parent.0),
        "responsive": v.responsive,
        "treatment": treatment
    })
}

// The last editor and the one who confirmed, 0 for none.
fn editors(state: State) -> (u32, u32)
    ensures editor { result.0 ≡ editor_of state }
    ensures confirmer { result.1 ≡ confirmer_of state }
{
    match state {
        State::Uncalled => (0, 0),
        State::First(editor) => (editor.0, 0),
        State::Confirmed(editor, confirmer) => (editor.0, confirmer.0),
    }
}

fn boxes_value(alloc: Global, rows: &[BoxRow]) -> Result<Value, AllocError>
    ensures { IfOk result (λ value. view value ≡ list_of box_data rows.now) }
{
    let mut values = Vec::new(alloc);
    for row in rows {
        values.push(box_value(alloc, row)?)?;
    }
    Ok(Value::Array(values))
}

fn box_value(alloc: Global, row: &BoxRow) -> Result<Value, AllocError>
    ensures { IfOk result (λ value. view value ≡ box_data row.now) }
{
    json!(in alloc; {
        "basis": row.basis.code(),
        "height": u64::from(row.rect.height),
        "left": u64::from(row.rect.left),
        "num": u64::from(row.num),
        "page": u64::from(row.page.0),
        "top": u64::from(row.rect.top),
        "width": u64::from(row.rect.width)
    })
}

fn held_value(alloc: Global, rows: &[HeldRow]) -> Result<Value, AllocError>
    ensures { IfOk result (λ value. view value ≡ list_of held_data rows.now) }
{
    let mut values = Vec::new(alloc);
    for row in rows {
        values.push(json!(in alloc; {"basis": row.basis.code(), "field": u64::from(row.field)})?)?;
    }
    Ok(Value::Array(values))
}

fn entry_value(alloc: Global, entry: &Option<Entry>) -> Result<Value, AllocError>
    ensures { IfOk result (λ value. view value ≡ entry_data entry.now) }
{
    match entry {
        Some(e) => json!(in alloc; {
            "author": e.author.as_str(),
            "date": e.date.as_str(),
            "description": e.description.as_str(),
            "recipients": e.recipients.as_str()
        }),
        None => Ok(Value::Null),
    }
}

// The words of a page.
#[tactic(auto, unfolding(crate::specs::Values::words_data))]
pub(crate) fn words_value(alloc: Global, words: &[Word]) -> Result<Value, AllocError>
    ensures { IfOk result (λ value. view value ≡ words_data words.now) }
{
    let mut values = Vec::new(alloc);
    for word in words {
        values.push(word_value(alloc, word)?)?;
    }
    Ok(Value::Array(values))
}

fn word_value(alloc: Global, word: &Word) -> Result<Value, AllocError>
    ensures { IfOk result (λ value. view value ≡ word_data word.now) }
{
    json!(in alloc; {
        "height": u64::from(word.rect.height),
        "left": u64::from(word.rect.left),
        "line": u64::from(word.line),
        "text": word.text.as_str(),
        "top": u64::from(word.rect.top),
        "width": u64::from(word.rect.width)
    })
}

// A frozen production.
#[tactic(auto, unfolding(crate::specs::Values::production_data))]
pub(crate) fn production_value(alloc: Global, p: &Production) -> Result<Value, AllocError>
    ensures { IfOk result (λ value. view value ≡ production_data p.now) }
{
    let items = items_value(alloc, p.items.as_slice())?;
    json!(in alloc; {
        "first": p.span.first,
        "id": p.request.id.as_str(),
        "items": items,
        "last": p.span.last,
        "prefix": p.request.prefix.text.as_str(),
        "volume": p.request.volume.as_str(),
        "width": u64::from(p.request.prefix.width)
    })
}

fn items_value(alloc: Global, items: &[Item]) -> Result<Value, AllocError>
    ensures { IfOk result (λ value. view value ≡ list_of item_data items.now) }
{
    let mut values = Vec::new(alloc);
    for item in items {
        values.push(item_value(alloc, item)?)?;
    }
    Ok(Value::Array(values))
}

fn item_value(alloc: Global, item: &Item) -> Result<Value, AllocError>
    ensures { IfOk result (λ value. view value ≡ item_data item.now) }
{
    json!(in alloc; {
        "doc": u64::from(item.doc.0),
        "first": item.span.first,
        "last": item.span.last,
        "treatment": treatment_name(item.treatment)
    })
}

// How far the review of documents has come.
#[tactic(auto, unfolding(crate::specs::Values::states_data))]
pub(crate) fn states_value(alloc: Global, rows: &[StateRow]) -> Result<Value, AllocError>
    ensures { IfOk result (λ value. view value ≡ states_data rows.now) }
{
    let mut values = Vec::new(alloc);
    for row in rows {
        values.push(state_value(alloc, row)?)?;
    }
    Ok(Value::Array(values))
}

#[tactic(auto, unfolding(crate::specs::Values::state_data))]
fn state_value(alloc: Global, row: &StateRow) -> Result<Value, AllocError>
    ensures { IfOk result (λ value. view value ≡ state_data row.now) }
{
    let (editor, confirmer) = editors(row.state);
    json!(in alloc; {
        "boxes": u64::from(row.boxes),
        "confirmer": u64::from(confirmer),
        "designation": row.designation.as_str(),
        "doc": u64::from(row.doc.0),
        "editor": u64::from(editor),
        "entry": row.entry,
        "held": u64::from(row.held),
        "pages": u64::from(row.pages),
        "parent": u64::from(row.parent.0),
        "production": text_or_none(alloc, &row.production)?,
        "responsive": row.responsive,
        "treatment": treatment_name(row.treatment)
    })
}

fn text_or_none(alloc: Global, text: &Option<Text>) -> Result<Value, AllocError>
    ensures { IfOk result (λ value. view value ≡ text_or_null text.now) }
{
    match text {
        Some(text) => json!(in alloc; text.as_str()),
        None => Ok(Value::Null),
    }
}

// The fields of a document.
#[tactic(auto, unfolding(crate::specs::Values::fields_data))]
pub(crate) fn fields_value(alloc: Global, rows: &[ValueRow]) -> Result<Value, AllocError>
    ensures { IfOk result (λ value. view value ≡ fields_data rows.now) }
{
    let mut values = Vec::new(alloc);
    for row in rows {
        values.push(field_value(alloc, row)?)?;
    }
    Ok(Value::Array(values))
}

fn field_value(alloc: Global, row: &ValueRow) -> Result<Value, AllocError>
    ensures { IfOk result (λ value. view value ≡ field_data row.now) }
{
    json!(in alloc; {
        "field": u64::from(row.field),
        "held": ground_or_none(alloc, row.held)?,
        "name": row.name.as_str(),
        "value": row.value.as_str()
    })
}

fn ground_or_none(alloc: Global, held: Option<Basis>) -> Result<Value, AllocError>
    ensures { IfOk result (λ value. view value ≡ ground_or_null held) }
{
    match held {
        Some(basis) => json!(in alloc; basis.code()),
        None => Ok(Value::Null),
    }
}

// The staff.
#[tactic(auto, unfolding(crate::specs::Values::people_data))]
pub(crate) fn people_value(alloc: Global, rows: &[PersonRow]) -> Result<Value, AllocError>
    ensures { IfOk result (λ value. view value ≡ people_data rows.now) }
{
    let mut values = Vec::new(alloc);
    for row in rows {
        values.push(person_value(alloc, row)?)?;
    }
    Ok(Value::Array(values))
}

fn person_value(alloc: Global, row: &PersonRow) -> Result<Value, AllocError>
    ensures { IfOk result (λ value. view value ≡ person_data row.now) }
{
    json!(in alloc; {
        "name": row.name.as_str(),
        "role": role_name(row.role),
        "staff": u64::from(row.staff.0)
    })
}

fn role_name(role: Role) -> &'static str
    ensures { result.now ≡ role_text role }
{
    match role {
        Role::Reviewer => "Reviewer",
        Role::Second => "Second",
        Role::Lead => "Lead",
        Role::Clerk => "Clerk",
        Role::Receiver => "Receiver",
    }
}

// The kept productions.
#[tactic(auto, unfolding(crate::specs::Values::productions_data))]
pub(crate) fn productions_value(alloc: Global, rows: &[ProductionView]) -> Result<Value, AllocError>
    ensures { IfOk result (λ value. view value ≡ productions_data rows.now) }
{
    let mut values = Vec::new(alloc);
    for row in rows {
        values.push(production_view_value(alloc, row)?)?;
    }
    Ok(Value::Array(values))
}

#[tactic(auto, unfolding(crate::specs::Values::production_view_data))]
fn production_view_value(alloc: Global, row: &ProductionView) -> Result<Value, AllocError>
    ensures { IfOk result (λ value. view value ≡ production_view_data row.now) }
{
    json!(in alloc; {
        "first": row.span.first,
        "from": u64::from(row.from.0),
        "id": row.id.as_str(),
        "items": u64::from(row.items),
        "last": row.span.last,
        "prefix": row.prefix.as_str(),
        "to": u64::from(row.to.0),
        "volume": row.volume.as_str(),
        "width": u64::from(row.width)
    })
}

// What a search found.
#[tactic(auto, unfolding(crate::specs::Values::found_data))]
pub(crate) fn found_value(alloc: Global, found: &Found) -> Result<Value, AllocError>
    ensures { IfOk result (λ value. view value ≡ found_data found.now) }
{
    json!(in alloc; {
        "hits": hits_value(alloc, found.hits.as_slice())?,
        "next": u64::from(found.next),
        "next_page": u64::from(found.next_page)
    })
}

fn hits_value(alloc: Global, hits: &[Hit]) -> Result<Value, AllocError>
    ensures { IfOk result (λ value. view value ≡ list_of hit_data hits.now) }
{
    let mut values = Vec::new(alloc);
    for hit in hits {
        values.push(hit_value(alloc, *hit)?)?;
    }
    Ok(Value::Array(values))
}

fn hit_value(alloc: Global, hit: Hit) -> Result<Value, AllocError>
    ensures { IfOk result (λ value. view value ≡ hit_data hit) }
{
    json!(in alloc; {
        "count": u64::from(hit.count),
        "doc": u64::from(hit.doc.0),
        "field": u64::from(hit.field),
        "page": u64::from(hit.page),
        "place": u64::from(hit.place)
    })
}
