// The limits of a matter that a batch may pass.
ghost use Rattle.std.specs.Prelude.{◌≡◌, ◌<◌, ◌≤◌, ◌^◌, ◌*◌, length};
ghost use Rattle.bp_matter.specs.Batches.{pages_in};
ghost use Rattle.bp_matter.specs.ValidFields.{has_field};
ghost use Rattle.bp_matter.specs.ValidPages.{pixels_of, strip_bytes_of, strip_size, strips_fit};
ghost use Rattle.bp_rules.specs.ImportRows.{lacking};
ghost use Rattle.bp_rules.specs.Limits.{documents_after, fields_after, full_rule, limit_passed, pages_after, pixels_after, pixels_in, pixels_on, strip_bytes_after, strip_bytes_in, strip_bytes_on};

use bp_core::{Rule, RuleKind, Text};
use bp_matter::{
    Batch, BatchDoc, BatchPage, FieldRow, KeptPage, MAX_BATCHES, MAX_DOCUMENTS, MAX_FIELDS,
    MAX_FREE_PIXELS, MAX_PAGES, MAX_PIXELS, MAX_STRIP_BYTES, PageRow, Tables,
};

// The numbers of the limits.
pub const DOCUMENTS: u64 = 1;

pub const PAGES: u64 = 2;

pub const PIXELS: u64 = 3;

pub const FIELDS: u64 = 4;

pub const BATCHES: u64 = 6;

pub const STRIP_BYTES: u64 = 8;

fn full(which: u64, reached: u64) -> Rule
    ensures { result ≡ full_rule which reached }
{
    Rule::naming_both(RuleKind::MatterFull, which, reached)
}

// The first limit that the tables would pass with this batch.
pub(crate) fn limit_passed(tables: &Tables, batch: &Batch) -> Option<Rule>
    ensures { result ≡ limit_passed tables.now.matter batch.now }
{
    tables.know_valid();
    batch.know_batch();
    let documents = documents_after(tables, batch);
    if documents > MAX_DOCUMENTS {
        return Some(full(DOCUMENTS, documents as u64));
    }
    let pages = pages_after(tables, batch);
    if pages > MAX_PAGES {
        return Some(full(PAGES, pages as u64));
    }
    let pixels = pixels_after(tables, batch);
    if u128::from(pixels) > MAX_PIXELS {
        return Some(full(PIXELS, pixels));
    }
    let strips = strip_bytes_after(tables, batch);
    if !strips_fit(pixels, strips) {
        return Some(full(STRIP_BYTES, strips));
    }
    let fields = fields_after(tables, batch);
    if fields > MAX_FIELDS {
        return Some(full(FIELDS, fields as u64));
    }
    let batches = tables.batches.len() + 1;
    if batches > MAX_BATCHES {
        return Some(full(BATCHES, batches as u64));
    }
    None
}

fn documents_after(tables: &Tables, batch: &Batch) -> usize
    ensures { result ≡ documents_after tables.now.matter batch.now }
{
    tables.know_valid();
    batch.know_batch();
    tables.docs.len() + batch.docs.len()
}

fn pages_after(tables: &Tables, batch: &Batch) -> usize
    ensures { result ≡ pages_after tables.now.matter batch.now }
{
    tables.know_valid();
    tables.pages.len() + pages_of_batch(batch) as usize
}

fn pixels_after(tables: &Tables, batch: &Batch) -> u64
    ensures { result ≡ pixels_after tables.now.matter batch.now }
{
    tables.know_valid();
    pixels_law(batch);
    pixels_of(&tables.pages) + pixels_in(batch.docs.as_slice())
}

// The pixels of a batch are a number of 63 bits.
fn pixels_law(batch: &Batch)
    ensures { pixels_in batch.now.docs ≤ 2 ^ 62 }
{
    batch.know_batch();
}

// Whether so many pixels may have strips of so many bytes.
fn strips_fit(pixels: u64, bytes: u64) -> bool
    ensures { result ≡ strips_fit pixels bytes }
{
    u128::from(pixels) <= MAX_FREE_PIXELS || u128::from(bytes) <= MAX_STRIP_BYTES
}

// Of so many pages as a matter may have, the bytes are a number of 63 bits.
fn strip_bytes_after(tables: &Tables, batch: &Batch) -> u64
    requires { pages_after tables.now.matter batch.now ≤ MAX_PAGES }
    ensures { result ≡ strip_bytes_after tables.now.matter batch.now }
{
    tables.know_valid();
    strip_bytes_of(&tables.pages) + strip_bytes_in(batch.docs.as_slice())
}

fn fields_after(tables: &Tables, batch: &Batch) -> usize
    ensures { result ≡ fields_after tables.now.matter batch.now }
{
    tables.know_valid();
    batch.know_batch();
    tables.fields.len() + count_lacking(&tables.fields, batch.fields.as_slice())
}

// Whether a field has this name.
pub(crate) fn has_field(fields: &[FieldRow], name: &Text) -> bool
    ensures { result ≡ has_field fields.now name.now }
{
    fields.iter().any(|row| row.name == *name)
}

// How many of these names no field has.
fn count_lacking(fields: &[FieldRow], names: &[Text]) -> usize
    ensures count { result ≡ length (lacking fields.now names.now) }
    ensures few { result ≤ length names.now }
{
    let mut count = 0;
    let mut rest = names;
    while let Some((name, others)) = rest.split_first() {
        if !has_field(fields, name) {
            count += 1;
        }
        rest = others;
    }
    count
}

// How many documents a batch has.
pub(crate) fn documents_of_batch(batch: &Batch) -> u32
    ensures { result ≡ length batch.now.docs }
{
    batch.know_batch();
    batch.docs.len() as u32
}

// How many pages a batch has.
pub(crate) fn pages_of_batch(batch: &Batch) -> u32
    ensures { result ≡ pages_in batch.now.docs }
{
    batch.know_batch();
    pages_in(batch.docs.as_slice())
}

fn pages_in(docs: &[BatchDoc]) -> u32
    requires { pages_in docs.now < 2 ^ 32 }
    ensures { result ≡ pages_in docs.now }
{
    let mut count = 0;
    let mut rest = docs;
    while let Some((doc, others)) = rest.split_first() {
        count += doc.pages.len() as u32;
        rest = others;
    }
    count
}

fn pixels(page: &KeptPage) -> u64
    ensures { result ≡ page.now.width * page.now.height }
{
    u64::from(page.width()) * u64::from(page.height())
}

fn pixels_of(pages: &[PageRow]) -> u64
    requires { pixels_of pages.now < 2 ^ 63 }
    ensures { result ≡ pixels_of pages.now }
{
    let mut sum = 0;
    let mut rest = pages;
    while let Some((row, others)) = rest.split_first() {
        sum += pixels(&row.image);
        rest = others;
    }
    sum
}

fn pixels_on(pages: &[BatchPage]) -> u64
    requires { pixels_on pages.now < 2 ^ 63 }
    ensures { result ≡ pixels_on pages.now }
{
    let mut sum = 0;
    let mut rest = pages;
    while let Some((page, others)) = rest.split_first() {
        sum += pixels(&page.page);
        rest = others;
    }
    sum
}

fn pixels_in(docs: &[BatchDoc]) -> u64
    requires { pixels_in docs.now < 2 ^ 63 }
    ensures { result ≡ pixels_in docs.now }
{
    let mut sum = 0;
    let mut rest = docs;
    while let Some((doc, others)) = rest.split_first() {
        sum += pixels_on(doc.pages.as_slice());
        rest = others;
    }
    sum
}

fn strip_size(page: &KeptPage) -> u64
    ensures value { result ≡ strip_size page.now }
    ensures few { result < 2 ^ 32 }
{
    page.strip().len() as u64
}

fn strip_bytes_of(pages: &[PageRow]) -> u64
    requires { length pages.now ≤ MAX_PAGES }
    ensures value { result ≡ strip_bytes_of pages.now }
    ensures few { result ≤ length pages.now * 2 ^ 32 }
{
    let mut sum = 0;
    let mut rest = pages;
    while let Some((row, others)) = rest.split_first() {
        sum += strip_size(&row.image);
        rest = others;
    }
    sum
}

fn strip_bytes_on(pages: &[BatchPage]) -> u64
    requires { length pages.now ≤ MAX_PAGES }
    ensures value { result ≡ strip_bytes_on pages.now }
    ensures few { result ≤ length pages.now * 2 ^ 32 }
{
    let mut sum = 0;
    let mut rest = pages;
    while let Some((page, others)) = rest.split_first() {
        sum += strip_size(&page.page);
        rest = others;
    }
    sum
}

fn strip_bytes_in(docs: &[BatchDoc]) -> u64
    requires { pages_in docs.now ≤ MAX_PAGES }
    ensures value { result ≡ strip_bytes_in docs.now }
    ensures few { result ≤ pages_in docs.now * 2 ^ 32 }
{
    let mut sum = 0;
    let mut rest = docs;
    while let Some((doc, others)) = rest.split_first() {
        sum += strip_bytes_on(doc.pages.as_slice());
        rest = others;
    }
    sum
}
