// What looks tell, as a line gives it: how many rows there are, and the words of each.
use crate::values::{count, span, state};
use bp_core::{Basis, ListOf, StaffNo};
use bp_matter::{
    Found, Hit, HitList, PersonList, PersonRow, ProductionView, ProductionViewList, StateList,
    StateRow, ValueList, ValueRow,
};
use bp_test_words::Words;
use std::alloc::Global;

/// Each `DOC PARENT PAGES EDITOR CONFIRMER yes|no TREATMENT DESIGNATION BOXES HELD yes|no PRODUCTION`.
/// PRODUCTION is `-` for none.
pub fn states(alloc: Global, words: &mut Words) -> StateList {
    let mut rows = Vec::new(alloc);
    for _ in 0..count(words) {
        let row = state_row(words);
        if rows.push(row).is_err() {
            words.refuse();
        }
    }
    ListOf::from_vec(rows)
}

fn state_row(words: &mut Words) -> StateRow {
    let doc = words.doc();
    let parent = words.doc();
    let pages = words.number();
    let state = state(words);
    let responsive = words.yes_or_no();
    let treatment = words.treatment();
    let designation = words.text();
    let boxes = words.number();
    let held = words.number();
    let entry = words.yes_or_no();
    let id = words.text();
    let production = if id.is_empty() { None } else { Some(id) };
    StateRow {
        doc,
        parent,
        pages,
        state,
        responsive,
        treatment,
        designation,
        boxes,
        held,
        entry,
        production,
    }
}

/// Each `FIELD NAME VALUE GROUND`. GROUND is `-` for none.
pub fn values(alloc: Global, words: &mut Words) -> ValueList {
    let mut rows = Vec::new(alloc);
    for _ in 0..count(words) {
        let field = words.number();
        let name = words.text();
        let value = words.text();
        let held = ground(words);
        let row = ValueRow {
            field,
            name,
            value,
            held,
        };
        if rows.push(row).is_err() {
            words.refuse();
        }
    }
    ListOf::from_vec(rows)
}

fn ground(words: &mut Words) -> Option<Basis> {
    match words.word() {
        "AC" => Some(Basis::Ac),
        "WP" => Some(Basis::Wp),
        "PI" => Some(Basis::Pi),
        "TS" => Some(Basis::Ts),
        "-" => None,
        _ => {
            words.refuse();
            None
        }
    }
}

/// Each `STAFF NAME ROLE`.
pub fn people(alloc: Global, words: &mut Words) -> PersonList {
    let mut rows = Vec::new(alloc);
    for _ in 0..count(words) {
        let staff = StaffNo(words.number());
        let name = words.text();
        let role = words.role();
        if rows.push(PersonRow { staff, name, role }).is_err() {
            words.refuse();
        }
    }
    ListOf::from_vec(rows)
}

/// Each `ID VOLUME PREFIX WIDTH FIRST LAST ITEMS FROM TO`.
pub fn productions(alloc: Global, words: &mut Words) -> ProductionViewList {
    let mut rows = Vec::new(alloc);
    for _ in 0..count(words) {
        let row = production_view(words);
        if rows.push(row).is_err() {
            words.refuse();
        }
    }
    ListOf::from_vec(rows)
}

fn production_view(words: &mut Words) -> ProductionView {
    let id = words.text();
    let volume = words.text();
    let prefix = words.text();
    let width = words.byte();
    let span = span(words);
    let items = words.number();
    let from = words.doc();
    let to = words.doc();
    ProductionView {
        id,
        volume,
        prefix,
        width,
        span,
        items,
        from,
        to,
    }
}

/// `NEXT NEXT_PAGE`, and then the hits.
pub fn found(alloc: Global, words: &mut Words) -> Found {
    let next = words.number();
    let next_page = words.number();
    let hits = hits(alloc, words);
    Found {
        hits,
        next,
        next_page,
    }
}

// Each `DOC PAGE FIELD PLACE COUNT`.
fn hits(alloc: Global, words: &mut Words) -> HitList {
    let mut rows = Vec::new(alloc);
    for _ in 0..count(words) {
        let doc = words.doc();
        let page = words.number();
        let field = words.number();
        let place = words.number();
        let count = words.number();
        let hit = Hit {
            doc,
            page,
            field,
            place,
            count,
        };
        if rows.push(hit).is_err() {
            words.refuse();
        }
    }
    ListOf::from_vec(rows)
}
