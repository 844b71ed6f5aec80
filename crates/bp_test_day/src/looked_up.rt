// What tables are looked up for.
//
//     lead                  the digest of the lead's key
//     documents             how many documents there are
//     lookup DOC            how many pages a document has, its state, and how many boxes
//     strip DOC PAGE        the strip that a page is kept as, in hex
//     production ID         what was asked, and how many items there are with which numbers
//     item ID DOC           an item, whole
//     log ID                the log of a production
use crate::day::Day;
use crate::seen::{add_entry, add_marks, add_state, add_text, add_treatment};
use crate::told::{constant, unread};
use anyhow::Result;
use bp_core::DocNo;
use bp_freeze::{can_be_logged, log_text};
use bp_matter::{Item, Production};
use bp_test_words::{Words, escaped};
use std::alloc::Global;

pub fn told(day: &Day, verb: &str, words: &mut Words) -> Option<Result<String>> {
    match verb {
        "lead" => Some(lead(day)),
        "documents" => Some(documents(day)),
        "lookup" => Some(lookup(day, words)),
        "strip" => Some(strip(day, words)),
        "production" => Some(production(day, words)),
        "item" => Some(item(day, words)),
        "log" => Some(log(day, words)),
        _ => None,
    }
}

fn lead(day: &Day) -> Result<String> {
    let digest = day.tables.lead_digest();
    Ok(hex::encode(day.alloc, digest.as_slice())?)
}

fn documents(day: &Day) -> Result<String> {
    let count = day.tables.documents();
    Ok(format!(in day.alloc; "{count}")?)
}

fn lookup(day: &Day, words: &mut Words) -> Result<String> {
    let doc = words.doc();
    if !words.is_read() {
        return unread(day.alloc);
    }
    match (day.tables.doc_pages(doc), day.tables.state(doc)) {
        (Some(pages), Some(state)) => {
            let boxes = day.tables.boxes_on(doc).len();
            let mut text = format!(in day.alloc; "{pages}")?;
            add_state(&mut text, state)?;
            write!(text, " {boxes}")?;
            Ok(text)
        }
        _ => constant(day.alloc, "none"),
    }
}

fn strip(day: &Day, words: &mut Words) -> Result<String> {
    let doc = words.doc();
    let page = words.page();
    if !words.is_read() {
        return unread(day.alloc);
    }
    match day.tables.kept(doc, page) {
        Some(page) => Ok(hex::encode(day.alloc, page.strip())?),
        None => constant(day.alloc, "none"),
    }
}

fn production(day: &Day, words: &mut Words) -> Result<String> {
    let id = words.text();
    match day.tables.production(&id) {
        Some(found) => production_text(day.alloc, &found.copy(day.alloc)?),
        None => constant(day.alloc, "none"),
    }
}

fn production_text(alloc: Global, produced: &Production) -> Result<String> {
    let request = &produced.request;
    let (id, volume) = (&request.id, &request.volume);
    let (prefix, width) = (&request.prefix.text, request.prefix.width);
    let (from, to) = (request.from.0, request.to.0);
    let (first, last) = (produced.span.first, produced.span.last);
    let id = id.as_str();
    let volume = volume.as_str();
    let prefix = prefix.as_str();
    let mut text = format!(in alloc; "{id} {volume} {prefix}")?;
    write!(text, " {width} {from} {to}")?;
    for field in request.fields.as_slice() {
        add_text(&mut text, field)?;
    }
    let items = produced.items.len();
    write!(text, " {items} {first}-{last}")?;
    Ok(text)
}

fn item(day: &Day, words: &mut Words) -> Result<String> {
    let id = words.text();
    let doc = words.doc();
    match day.tables.production(&id) {
        Some(found) => item_of(day.alloc, found, doc),
        None => constant(day.alloc, "none"),
    }
}

fn item_of(alloc: Global, produced: &Production, doc: DocNo) -> Result<String> {
    for item in produced.items.as_slice() {
        if item.doc == doc {
            return item_text(alloc, item);
        }
    }
    constant(alloc, "none")
}

fn item_text(alloc: Global, item: &Item) -> Result<String> {
    let (doc, parent) = (item.doc.0, item.parent.0);
    let (first, last) = (item.span.first, item.span.last);
    let mut text = format!(in alloc; "{doc} {parent}")?;
    write!(text, " {first}-{last}")?;
    add_treatment(&mut text, item.treatment)?;
    add_text(&mut text, &item.designation)?;
    add_marks(
        alloc,
        &mut text,
        item.boxes.as_slice(),
        item.held.as_slice(),
    )?;
    add_entry(&mut text, &item.entry)?;
    Ok(text)
}

fn log(day: &Day, words: &mut Words) -> Result<String> {
    let id = words.text();
    match day.tables.production(&id) {
        Some(found) => log_of(day.alloc, found),
        None => constant(day.alloc, "none"),
    }
}

fn log_of(alloc: Global, produced: &Production) -> Result<String> {
    if !can_be_logged(produced) {
        return constant(alloc, "none");
    }
    let log = log_text(alloc, produced)?;
    match str::from_utf8(log.as_slice()) {
        Ok(text) => escaped(alloc, text),
        Err(_) => constant(alloc, "no text"),
    }
}
