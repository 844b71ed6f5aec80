// What looks tell, as a line says it: each row behind a bar.
use crate::seen::{add_state, add_text, add_treatment};
use anyhow::Result;
use bp_core::{Basis, Role, Text};
use bp_matter::{
    Found, Hit, PersonList, PersonRow, ProductionView, ProductionViewList, StateList, StateRow,
    ValueList, ValueRow,
};
use std::alloc::Global;

/// Document, parent, pages, state, whether responsive, treatment, designation, numbers of boxes and held
/// fields, whether there is an entry, and the production's id or `-`.
pub fn states(alloc: Global, rows: &StateList) -> Result<String> {
    let mut text = String::from_str(alloc, "states")?;
    for row in rows.as_slice() {
        add_state_row(alloc, &mut text, row)?;
    }
    Ok(text)
}

fn add_state_row(alloc: Global, text: &mut String, row: &StateRow) -> Result<()> {
    let (doc, parent, pages) = (row.doc.0, row.parent.0, row.pages);
    text.push_str(format!(in alloc; " | {doc} {parent} {pages}")?.as_str())?;
    add_state(text, row.state)?;
    text.push_str(if row.responsive { " yes" } else { " no" })?;
    add_treatment(text, row.treatment)?;
    add_text(text, &row.designation)?;
    let (boxes, held) = (row.boxes, row.held);
    text.push_str(format!(in alloc; " {boxes} {held}")?.as_str())?;
    text.push_str(if row.entry { " yes" } else { " no" })?;
    add_text_or_none(text, &row.production)
}

fn add_text_or_none(text: &mut String, more: &Option<Text>) -> Result<()> {
    match more {
        Some(more) => add_text(text, more),
        None => Ok(text.push_str(" -")?),
    }
}

/// Number, name and value of each field, and the ground on which it is held back or `-`.
pub fn values(alloc: Global, rows: &ValueList) -> Result<String> {
    let mut text = String::from_str(alloc, "values")?;
    for row in rows.as_slice() {
        add_value_row(alloc, &mut text, row)?;
    }
    Ok(text)
}

fn add_value_row(alloc: Global, text: &mut String, row: &ValueRow) -> Result<()> {
    let field = row.field;
    text.push_str(format!(in alloc; " | {field}")?.as_str())?;
    add_text(text, &row.name)?;
    add_text(text, &row.value)?;
    text.push_str(" ")?;
    text.push_str(basis_or_none(row.held))?;
    Ok(())
}

fn basis_or_none(held: Option<Basis>) -> &'static str {
    match held {
        Some(basis) => basis.code(),
        None => "-",
    }
}

/// Number, name and role of each member of the staff.
pub fn people(alloc: Global, rows: &PersonList) -> Result<String> {
    let mut text = String::from_str(alloc, "people")?;
    for row in rows.as_slice() {
        add_person(alloc, &mut text, row)?;
    }
    Ok(text)
}

fn add_person(alloc: Global, text: &mut String, row: &PersonRow) -> Result<()> {
    let staff = row.staff.0;
    text.push_str(format!(in alloc; " | {staff}")?.as_str())?;
    add_text(text, &row.name)?;
    text.push_str(" ")?;
    text.push_str(role_name(row.role))?;
    Ok(())
}

fn role_name(role: Role) -> &'static str {
    match role {
        Role::Reviewer => "reviewer",
        Role::Second => "second",
        Role::Lead => "lead",
        Role::Clerk => "clerk",
        Role::Receiver => "receiver",
    }
}

/// Id, volume, prefix and width, first and last number, items, and first and last document of the
/// request.
pub fn productions(alloc: Global, rows: &ProductionViewList) -> Result<String> {
    let mut text = String::from_str(alloc, "productions")?;
    for row in rows.as_slice() {
        add_production(alloc, &mut text, row)?;
    }
    Ok(text)
}

fn add_production(alloc: Global, text: &mut String, row: &ProductionView) -> Result<()> {
    text.push_str(" |")?;
    add_text(text, &row.id)?;
    add_text(text, &row.volume)?;
    add_text(text, &row.prefix)?;
    let (width, first, last) = (row.width, row.span.first, row.span.last);
    text.push_str(format!(in alloc; " {width} {first}-{last}")?.as_str())?;
    let (items, from, to) = (row.items, row.from.0, row.to.0);
    text.push_str(format!(in alloc; " {items} {from} {to}")?.as_str())?;
    Ok(())
}

/// Each hit as DOC:PAGE:FIELD:PLACE:COUNT, and where the next search goes on.
pub fn found(alloc: Global, found: &Found) -> Result<String> {
    let mut text = String::from_str(alloc, "found")?;
    for hit in found.hits.as_slice() {
        add_hit(alloc, &mut text, hit)?;
    }
    let (next, next_page) = (found.next, found.next_page);
    text.push_str(format!(in alloc; " next {next} {next_page}")?.as_str())?;
    Ok(text)
}

fn add_hit(alloc: Global, text: &mut String, hit: &Hit) -> Result<()> {
    let (doc, page, field) = (hit.doc.0, hit.page, hit.field);
    let (place, count) = (hit.place, hit.count);
    let part = format!(in alloc; " {doc}:{page}:{field}")?;
    text.push_str(part.as_str())?;
    text.push_str(format!(in alloc; ":{place}:{count}")?.as_str())?;
    Ok(())
}
