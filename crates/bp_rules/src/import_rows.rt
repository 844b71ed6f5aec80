// The rows that a batch becomes.
ghost use Rattle.std.specs.Prelude.{ℕ, ◌≡◌, ◌≤◌, ◌+◌, ◌++◌, [], slice_index_or, IfOk, IsTrue, OnOk, None, length, map, nat_le};
ghost use Rattle.std.specs.List.{list_all};
ghost use Rattle.bp_matter.specs.Batches.{pages_in};
ghost use Rattle.bp_matter.specs.declared.batches.BatchPage.{BatchPage};
ghost use Rattle.bp_rules.specs.ImportRows.{batch_row, doc_row, doc_rows, field_rows, import_rows, lacking, of_docs, of_pages, place_of, places_of, value_at};
ghost use Rattle.bp_rules.specs.Limits.{WithinLimits, limit_passed};

use crate::changes::ImportRows;
use crate::copies::{copy_text, copy_words};
use crate::limits::{has_field, pages_of_batch};
use bp_core::{DocNo, ListOf, OutOfMemory, PageNo, Text, TextList};
use bp_matter::{
    Batch, BatchDoc, BatchPage, BatchRow, DocRow, FieldRow, PageRow, PageWords, Tables,
};
use std::alloc::Global;

// The rows that a batch becomes that passes no limit of these tables.
pub(crate) fn import_rows(
    alloc: Global,
    tables: &Tables,
    batch: &Batch,
) -> Result<ImportRows, OutOfMemory>
    requires { limit_passed tables.now.matter batch.now ≡ None }
    ensures { IfOk result (λ rows. rows ≡ import_rows tables.now.matter batch.now) }
{
    within_law(tables, batch);
    let names = batch.fields.as_slice();
    let docs = batch.docs.as_slice();
    let fields = field_rows(alloc, &tables.fields, names)?;
    let places = places_of(alloc, names, &tables.fields, &fields)?;
    let before = tables.docs.len() as u32;
    let number = tables.batches.len() as u32 + 1;
    Ok(ImportRows {
        docs: ListOf::from_vec(doc_rows(alloc, &places, before, number, docs)?),
        fields: ListOf::from_vec(fields),
        pages: ListOf::from_vec(rows_of_docs(alloc, before, docs)?),
        batch: batch_row(number, batch)?,
        words: ListOf::from_vec(rows_of_docs(alloc, before, docs)?),
    })
}

// What it means that no limit is passed.
fn within_law(tables: &Tables, batch: &Batch)
    requires { limit_passed tables.now.matter batch.now ≡ None }
    ensures within { WithinLimits tables.now.matter batch.now }
    ensures parents { IsTrue (list_all
        (λ doc. nat_le (length tables.now.matter.docs + doc.parent) 10000) batch.now.docs) }
{
    batch.know_batch();
}

fn batch_row(number: u32, batch: &Batch) -> Result<BatchRow, OutOfMemory>
    ensures { IfOk result (λ row. row ≡ batch_row number batch.now) }
{
    batch.know_batch();
    Ok(BatchRow {
        num: number,
        digest: batch.digest,
        documents: batch.docs.len() as u32,
        pages: pages_of_batch(batch),
        name: copy_text(&batch.name)?,
    })
}

// The fields of these names that the matter lacks.
fn field_rows(
    alloc: Global,
    fields: &[FieldRow],
    names: &[Text],
) -> Result<Vec<FieldRow>, OutOfMemory>
    requires { length fields.now + length (lacking fields.now names.now) ≤ 64 }
    ensures { IfOk result (λ rows.
        rows.items ≡ field_rows (length fields.now + 1) (lacking fields.now names.now)) }
{
    let mut rows = Vec::new(alloc);
    let mut number = fields.len() as u32;
    let mut rest = names;
    while let Some((name, others)) = rest.split_first() {
        if !has_field(fields, name) {
            number += 1;
            rows.push(FieldRow {
                field: number,
                name: copy_text(name)?,
            })?;
        }
        rest = others;
    }
    Ok(rows)
}

// Where each field stands among these names.
fn places_of(
    alloc: Global,
    names: &[Text],
    fields: &[FieldRow],
    more: &[FieldRow],
) -> Result<Vec<Option<usize>>, OutOfMemory>
    ensures { IfOk result (λ places. places.items ≡ places_of names.now (fields.now ++ more.now)) }
{
    let mut places = Vec::new(alloc);
    push_places(&mut places, names, fields)?;
    push_places(&mut places, names, more)?;
    Ok(places)
}

fn push_places(
    places: &mut Vec<Option<usize>>,
    names: &[Text],
    fields: &[FieldRow],
) -> Result<(), OutOfMemory>
    ensures { OnOk result (places.new.items ≡ places.old.items ++ places_of names.now fields.now) }
{
    for row in fields {
        places.push(place_of(&row.name, names))?;
    }
    Ok(())
}

fn place_of(name: &Text, names: &[Text]) -> Option<usize>
    ensures { result ≡ place_of 0 name.now names.now }
{
    let mut place = 0;
    let mut rest = names;
    while let Some((other, others)) = rest.split_first() {
        if *other == *name {
            return Some(place);
        }
        place += 1;
        rest = others;
    }
    None
}

fn value_at(alloc: Global, values: &[Text], place: Option<usize>) -> Result<Text, OutOfMemory>
    ensures { IfOk result (λ value. value ≡ value_at values.now place) }
{
    match place {
        None => Ok(empty(alloc)),
        Some(place) => text_at(alloc, values, place),
    }
}

// The text at a place; past the end an empty one.
fn text_at(alloc: Global, texts: &[Text], place: usize) -> Result<Text, OutOfMemory>
    ensures { IfOk result (λ text. text ≡ slice_index_or texts.now place []) }
{
    if place < texts.len() {
        copy_text(&texts[place])
    } else {
        Ok(empty(alloc))
    }
}

pub(crate) fn empty(alloc: Global) -> Text
    ensures { result ≡ [] }
{
    Text::from_string(String::new(alloc))
}

// The values at these places.
fn values_at(
    alloc: Global,
    values: &[Text],
    places: &[Option<usize>],
) -> Result<TextList, OutOfMemory>
    ensures { IfOk result (λ list. list ≡ map (value_at values.now) places.now) }
{
    let mut list = Vec::new(alloc);
    for place in places {
        list.push(value_at(alloc, values, *place)?)?;
    }
    Ok(ListOf::from_vec(list))
}

fn doc_row(
    alloc: Global,
    places: &[Option<usize>],
    before: u32,
    batch: u32,
    number: u32,
    doc: &BatchDoc,
) -> Result<DocRow, OutOfMemory>
    requires parent { before + doc.now.parent ≤ 10000 }
    requires pages { length doc.now.pages ≤ 20000 }
    ensures { IfOk result (λ row. row ≡ doc_row before batch places.now number doc.now) }
{
    Ok(DocRow {
        doc: DocNo(number),
        parent: DocNo(before + doc.parent),
        pages: doc.pages.len() as u32,
        batch,
        id: copy_text(&doc.id)?,
        values: values_at(alloc, doc.values.as_slice(), places)?,
    })
}

// The documents, numbered on from the last one before them.
fn doc_rows(
    alloc: Global,
    places: &[Option<usize>],
    before: u32,
    batch: u32,
    docs: &[BatchDoc],
) -> Result<Vec<DocRow>, OutOfMemory>
    requires few { before + length docs.now ≤ 10000 }
    requires parents { IsTrue (list_all (λ doc. nat_le (before + doc.parent) 10000) docs.now) }
    requires pages { pages_in docs.now ≤ 20000 }
    ensures { IfOk result (λ rows.
        rows.items ≡ doc_rows before batch places.now (before + 1) docs.now) }
{
    let mut rows = Vec::new(alloc);
    let mut number = before;
    let mut rest = docs;
    while let Some((doc, others)) = rest.split_first() {
        number += 1;
        rows.push(doc_row(alloc, places, before, batch, number, doc)?)?;
        rest = others;
    }
    Ok(rows)
}

// A row of the tables that a page becomes.
trait OfPage: Sized + Drop {
    ghost row_of: { ℕ → ℕ → BatchPage → Self };

    // The row of this page of this document.
    fn row(alloc: Global, doc: u32, page: u32, from: &BatchPage) -> Result<Self, OutOfMemory>
        ensures { IfOk result (λ row. row ≡ row_of doc page from.now) };
}

impl OfPage for PageRow {
    ghost use Rattle.bp_rules.specs.ImportRows.{page_row};

    ghost row_of = { page_row };

    // The row holds the batch's page with it, so that no strip is copied.
    fn row(_alloc: Global, doc: u32, page: u32, from: &BatchPage) -> Result<PageRow, OutOfMemory> {
        Ok(PageRow {
            doc: DocNo(doc),
            page: PageNo(page),
            image: from.page.share()?,
        })
    }
}

impl OfPage for PageWords {
    ghost use Rattle.bp_rules.specs.ImportRows.{words_row};

    ghost row_of = { words_row };

    fn row(alloc: Global, doc: u32, page: u32, from: &BatchPage) -> Result<PageWords, OutOfMemory> {
        Ok(PageWords {
            doc: DocNo(doc),
            page: PageNo(page),
            words: copy_words(alloc, &from.words)?,
        })
    }
}

// A row for each page of these documents, which are numbered on from the last one before them.
fn rows_of_docs<T: OfPage>(
    alloc: Global,
    before: u32,
    docs: &[BatchDoc],
) -> Result<Vec<T>, OutOfMemory>
    requires few { before + length docs.now ≤ 10000 }
    requires pages { pages_in docs.now ≤ 20000 }
    ensures { IfOk result (λ rows. rows.items ≡ of_docs T.row_of (before + 1) docs.now) }
{
    let mut rows = Vec::new(alloc);
    let mut number = before;
    let mut rest = docs;
    while let Some((doc, others)) = rest.split_first() {
        number += 1;
        push_rows(alloc, &mut rows, number, doc.pages.as_slice())?;
        rest = others;
    }
    Ok(rows)
}

// Adds a row for each page of a document.
fn push_rows<T: OfPage>(
    alloc: Global,
    rows: &mut Vec<T>,
    doc: u32,
    pages: &[BatchPage],
) -> Result<(), OutOfMemory>
    requires { length pages.now ≤ 20000 }
    ensures { OnOk result (rows.new.items ≡ rows.old.items ++ of_pages T.row_of doc 1 pages.now) }
{
    let mut number = 0;
    let mut rest = pages;
    while let Some((page, others)) = rest.split_first() {
        number += 1;
        rows.push(T::row(alloc, doc, number, page)?)?;
        rest = others;
    }
    Ok(())
}
