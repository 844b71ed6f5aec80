// Calls that tell what the matter has, and change nothing.
ghost use Rattle.std.specs.Prelude.{◌≡◌, IfOk, map};
ghost use Rattle.std.specs.Option.{option_copied};
ghost use Rattle.bp_matter.specs.LookUps.{called_state, of_row};
ghost use Rattle.bp_rules.specs.Calling.{shown_designation, shown_responsive, shown_treatment, view_of, words_in};
ghost use Rattle.bp_rules.specs.Deciding.{Decides};
ghost use Rattle.bp_rules.specs.Stepping.{step_by};

use crate::copies::{copy_text, copy_words};
use crate::decided::{Decided, told};
use crate::import_rows::empty;
use crate::no_such::{no_document, no_page};
use bp_core::{DocNo, ListOf, OutOfMemory, PageNo, Refusal, StaffNo, Text, Treatment};
use bp_matter::{
    BoxList, Call, CallRow, DocBox, DocEntry, DocHeld, DocRow, DocView, Entry, HeldList, PageWords,
    Reply, State, Tables,
};
use bp_text::WordList;
use std::alloc::Global;

pub(crate) fn see_doc(
    alloc: Global,
    tables: &Tables,
    caller: StaffNo,
    doc: DocNo,
) -> Result<Decided, Refusal>
    ensures { Decides tables.now.matter
        (step_by tables.now.matter caller (Call.SeeDoc doc)) result }
{
    let Some(row) = tables.doc_with(doc) else {
        return Err(Refusal::Rule(no_document(doc)));
    };
    let view = view_of(alloc, tables, row)?;
    told(alloc, tables, Reply::Doc(view))
}

pub(crate) fn see_page(
    alloc: Global,
    tables: &Tables,
    caller: StaffNo,
    doc: DocNo,
    page: PageNo,
) -> Result<Decided, Refusal>
    ensures { Decides tables.now.matter
        (step_by tables.now.matter caller (Call.SeePage doc page)) result }
{
    if tables.doc_with(doc).is_none() {
        return Err(Refusal::Rule(no_document(doc)));
    }
    let Some(row) = tables.page_with(doc, page) else {
        return Err(Refusal::Rule(no_page(page)));
    };
    let image = row.image.share()?;
    told(alloc, tables, Reply::Image(image))
}

pub(crate) fn see_words(
    alloc: Global,
    tables: &Tables,
    caller: StaffNo,
    doc: DocNo,
    page: PageNo,
) -> Result<Decided, Refusal>
    ensures { Decides tables.now.matter
        (step_by tables.now.matter caller (Call.SeeWords doc page)) result }
{
    if tables.doc_with(doc).is_none() {
        return Err(Refusal::Rule(no_document(doc)));
    }
    if tables.page_with(doc, page).is_none() {
        return Err(Refusal::Rule(no_page(page)));
    }
    let words = words_in(alloc, tables.words_with(doc, page))?;
    told(alloc, tables, Reply::Words(words))
}

fn words_in(alloc: Global, row: Option<&PageWords>) -> Result<WordList, OutOfMemory>
    ensures { IfOk result (λ words. words ≡ words_in (option_copied row.entry)) }
{
    match row {
        None => Ok(ListOf::new(alloc)),
        Some(row) => copy_words(alloc, &row.words),
    }
}

// All that is shown of a document.
fn view_of(alloc: Global, tables: &Tables, row: &DocRow) -> Result<DocView, OutOfMemory>
    ensures { IfOk result (λ view. view ≡ view_of tables.now.matter row.now) }
{
    let call = tables.call_with(row.doc);
    Ok(DocView {
        doc: row.doc,
        parent: row.parent,
        pages: row.pages,
        state: called_state(call),
        responsive: shown_responsive(call),
        treatment: shown_treatment(call),
        designation: shown_designation(alloc, call)?,
        boxes: shown_boxes(alloc, tables.boxes_on(row.doc))?,
        held: shown_held(alloc, tables.held_on(row.doc))?,
        entry: shown_entry(tables.entry_with(row.doc))?,
    })
}

fn called_state(call: Option<&CallRow>) -> State
    ensures { result ≡ called_state (option_copied call.entry) }
{
    match call {
        None => State::Uncalled,
        Some(row) => row.state,
    }
}

fn shown_responsive(call: Option<&CallRow>) -> bool
    ensures { result ≡ shown_responsive (option_copied call.entry) }
{
    match call {
        None => false,
        Some(row) => row.responsive,
    }
}

fn shown_treatment(call: Option<&CallRow>) -> Treatment
    ensures { result ≡ shown_treatment (option_copied call.entry) }
{
    match call {
        None => Treatment::Produce,
        Some(row) => row.treatment,
    }
}

fn shown_designation(alloc: Global, call: Option<&CallRow>) -> Result<Text, OutOfMemory>
    ensures { IfOk result (λ shown. shown ≡ shown_designation (option_copied call.entry)) }
{
    match call {
        None => Ok(empty(alloc)),
        Some(row) => copy_text(&row.designation),
    }
}

fn shown_boxes(alloc: Global, boxes: &[DocBox]) -> Result<BoxList, OutOfMemory>
    ensures { IfOk result (λ shown. shown ≡ map (λ box. box.row) boxes.now) }
{
    let mut shown = Vec::new(alloc);
    for placed in boxes {
        shown.push(placed.row)?;
    }
    Ok(ListOf::from_vec(shown))
}

fn shown_held(alloc: Global, held: &[DocHeld]) -> Result<HeldList, OutOfMemory>
    ensures { IfOk result (λ shown. shown ≡ map (λ held. held.row) held.now) }
{
    let mut shown = Vec::new(alloc);
    for placed in held {
        shown.push(placed.row)?;
    }
    Ok(ListOf::from_vec(shown))
}

fn shown_entry(row: Option<&DocEntry>) -> Result<Option<Entry>, OutOfMemory>
    ensures { IfOk result (λ shown.
        shown ≡ of_row (λ entered. entered.entry) (option_copied row.entry)) }
{
    match row {
        None => Ok(None),
        Some(row) => Ok(Some(row.entry.copy()?)),
    }
}
