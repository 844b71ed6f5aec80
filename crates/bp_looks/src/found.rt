// One search: so many parts and hits, and where the next search goes on.
ghost use Rattle.std.specs.Prelude.{◌≡◌, ◌<◌, ◌≤◌, ◌^◌, ◌++◌, ◌||◌, IfOk, IfSome, IfNone, IsTrue, OnOk, Some, drop, length, map, nat_le};
ghost use Rattle.bp_matter.specs.LookUps.{doc_with};
ghost use Rattle.bp_matter.specs.Written.{are_few, is_short};
ghost use Rattle.bp_core.specs.Answers.{Answers};
ghost use Rattle.bp_looks.specs.Finding.{find};
ghost use Rattle.bp_looks.specs.Found.{found_of, hits_in, spot_of};
ghost use Rattle.bp_looks.specs.Hits.{hits_of_rows, terms_of};
ghost use Rattle.bp_looks.specs.Parts.{document_rows, page_rows, page_words, part_at, parts_of};
ghost use Rattle.bp_looks.specs.Pieces.{pieces_of};
ghost use Rattle.bp_looks.specs.Walking.{ComesPast, SearchStopsAt};

use crate::hits::{Spot, add_value_hits, add_word_hits};
use crate::no_such::{no_document, no_page};
use crate::terms::{are_terms, letters_of};
use bp_core::{DocNo, ListOf, OutOfMemory, PageNo, Refusal, RuleKind, Text, TextList};
use bp_matter::{DocRow, Found, Hit, Tables};
use bp_text::Word;
use std::alloc::Global;

/// The most parts that one search takes.
pub const MAX_PARTS: usize = 1_000;

/// At so many hits a search takes no further part.
pub const ENOUGH_HITS: usize = 1_000;

/// Searches the parts of the documents in order, from the part `page` of the document `from` on: part 0
/// of a document is its values, and each other part the page of that number. It takes at most MAX_PARTS
/// parts, and none after ENOUGH_HITS hits; the last part is taken whole. TermRefused where these are no
/// terms of a search; NoDocument or NoPage with the number that was asked for.
pub fn find(
    alloc: Global,
    tables: &Tables,
    terms: &TextList,
    from: DocNo,
    page: u32,
) -> Result<Found, Refusal>
    ensures { Answers (λ found. found) result (find tables.now.matter terms.now from.0 page) }
{
    if !are_terms(terms) {
        return Err(Refusal::bare(RuleKind::TermRefused));
    }
    let Some(pages) = tables.doc_pages(from) else {
        return Err(Refusal::Rule(no_document(from)));
    };
    if pages < page {
        return Err(Refusal::Rule(no_page(page)));
    }
    tables.know_valid();
    let letters = letters_of(alloc, terms)?;
    Ok(find_parts(alloc, tables, letters.as_slice(), from, page)?)
}

// The search for terms that are lists of characters, from a document that may be there.
fn find_parts(
    alloc: Global,
    tables: &Tables,
    terms: &[Vec<char>],
    from: DocNo,
    page: u32,
) -> Result<Found, OutOfMemory>
    requires from { 1 ≤ from.0 }
    requires terms { length terms.now < 2 ^ 32 }
    ensures { IfOk result (λ found. found
        ≡ found_of tables.now.matter (terms_of terms.now) from.0 page) }
{
    let mut progress = Progress {
        hits: Vec::new(alloc),
        taken: 0,
    };
    let mut first = page;
    for before in from.0 - 1..tables.documents() {
        let doc = DocNo(before + 1);
        match progress.look_in(alloc, tables, terms, doc, first)? {
            Some(stop) => return Ok(progress.found(doc.0, stop)),
            None => first = 0,
        }
    }
    Ok(progress.found(0, 0))
}

// How far a search came: the hits, and how many parts were taken.
#[derive(Drop)]
struct Progress {
    hits: Vec<Hit>,
    taken: usize,
}

impl Progress {
    // What it found, and the part that comes next.
    fn found(self, next: u32, next_page: u32) -> Found
        ensures { result ≡ record { hits = self.hits.items; next = next; next_page = next_page } }
    {
        let Progress { hits, taken: _ } = self;
        Found {
            hits: ListOf::from_vec(hits),
            next,
            next_page,
        }
    }

    // Takes the parts of a document from `first` on, and says at which it stopped.
    fn look_in(
        &mut self,
        alloc: Global,
        tables: &Tables,
        terms: &[Vec<char>],
        doc: DocNo,
        first: u32,
    ) -> Result<Option<u32>, OutOfMemory>
        requires { length terms.now < 2 ^ 32 }
        ensures past { IfOk result (λ stop. IfNone stop
            (ComesPast (terms_of terms.now) self.old.hits.items self.old.taken
            (parts_of doc.0 first (drop first (document_rows tables.now.matter doc.0)))
            self.new.hits.items self.new.taken)) }
        ensures stopped { IfOk result (λ stop. IfSome stop (λ page.
            SearchStopsAt (terms_of terms.now) self.old.hits.items self.old.taken
            (parts_of doc.0 first (drop first (document_rows tables.now.matter doc.0)))
            self.new.hits.items
            (parts_of doc.0 page (drop page (document_rows tables.now.matter doc.0))))) }
        ensures inside { IfOk result (λ stop. IfSome stop (λ page.
            page < length (document_rows tables.now.matter doc.0))) }
    {
        let Some(row) = tables.doc_with(doc) else {
            return Ok(None);
        };
        for page in first as usize..row.pages as usize + 1 {
            if self.is_full() {
                return Ok(Some(page as u32));
            }
            let spot = spot_of(doc, page as u32);
            add_part(alloc, &mut self.hits, tables, terms, row, spot)?;
            self.taken += 1;
        }
        Ok(None)
    }

    // Whether it takes no further part.
    fn is_full(&self) -> bool
        ensures { result
            ≡ (nat_le MAX_PARTS self.now.taken || nat_le ENOUGH_HITS (length self.now.hits.items)) }
    {
        self.taken >= MAX_PARTS || self.hits.len() >= ENOUGH_HITS
    }
}

// Where the first row of a part stands.
fn spot_of(doc: DocNo, page: u32) -> Spot
    ensures { result ≡ spot_of doc.0 page }
{
    Spot {
        doc,
        page,
        field: if page == 0 { 1 } else { 0 },
    }
}

// Adds the hits of a part of the document that stands in this row.
fn add_part(
    alloc: Global,
    hits: &mut Vec<Hit>,
    tables: &Tables,
    terms: &[Vec<char>],
    row: &DocRow,
    spot: Spot,
) -> Result<(), OutOfMemory>
    requires terms { length terms.now < 2 ^ 32 }
    requires row { doc_with spot.doc.0 tables.now.matter ≡ Some row.now }
    requires spot { spot ≡ spot_of spot.doc.0 spot.page }
    requires page { spot.page ≤ row.now.pages }
    ensures { OnOk result (hits.new.items ≡ hits.old.items
        ++ hits_in (terms_of terms.now) (part_at tables.now.matter spot.doc.0 spot.page)) }
{
    tables.know_valid();
    if spot.page == 0 {
        add_values(alloc, hits, terms, spot.doc, row.values.as_slice())
    } else {
        add_page(alloc, hits, tables, terms, spot)
    }
}

// Adds the hits of the values of a document, in the order of their fields.
fn add_values(
    alloc: Global,
    hits: &mut Vec<Hit>,
    terms: &[Vec<char>],
    doc: DocNo,
    values: &[Text],
) -> Result<(), OutOfMemory>
    requires terms { length terms.now < 2 ^ 32 }
    requires values { IsTrue (are_few is_short values.now) }
    ensures { OnOk result (hits.new.items ≡ hits.old.items
        ++ hits_of_rows (terms_of terms.now) (spot_of doc.0 0) (map pieces_of values.now)) }
{
    for i in 0..values.len() {
        let spot = Spot {
            doc,
            page: 0,
            field: i as u32 + 1,
        };
        add_value_hits(alloc, hits, terms, spot, &values[i])?;
    }
    Ok(())
}

// Adds the hits of a page.
fn add_page(
    alloc: Global,
    hits: &mut Vec<Hit>,
    tables: &Tables,
    terms: &[Vec<char>],
    spot: Spot,
) -> Result<(), OutOfMemory>
    requires { length terms.now < 2 ^ 32 }
    ensures { OnOk result (hits.new.items ≡ hits.old.items ++ hits_of_rows (terms_of terms.now) spot
        (page_rows tables.now.matter spot.doc.0 spot.page)) }
{
    let words = words_on(tables, spot.doc, PageNo(spot.page));
    add_word_hits(alloc, hits, terms, spot, words)
}

// The words of a page.
fn words_on(tables: &Tables, doc: DocNo, page: PageNo) -> &[Word]
    ensures value { result.now ≡ page_words tables.now.matter doc.0 page.0 }
    ensures few { length result.now < 2 ^ 32 }
{
    tables.know_valid();
    match tables.words_with(doc, page) {
        Some(row) => row.words.as_slice(),
        None => &[],
    }
}
