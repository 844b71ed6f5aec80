// Documents whose pages are drawn, and the coding of these on threads.
ghost use Rattle.std.specs.Prelude.{◌≡◌, [], IfOk};
ghost use Rattle.bp_demo.specs.Pages.{AreLines, page_image};

use crate::inked::inked_page;
use bp_core::{ListOf, OutOfMemory, Text};
use bp_matter::{BatchDoc, BatchPage, KeptPage};
use bp_text::Word;
use std::alloc::Global;
use std::marker::Model;
use std::thread::{Threads, for_each_mut};

// How many threads code pages at the most.
const CODING_THREADS: usize = 16;

// A page that is drawn: its words, and as soon as it is coded the page that they make.
#[derive(Drop)]
pub struct DrawnPage {
    words: Vec<Word>,
    kept: Option<KeptPage>,
}

// Clauses see the page as a batch has it, coded or not.
impl Model for DrawnPage {
    ghost use Rattle.std.specs.Prelude.{◌≡◌, IfSome};
    ghost use Rattle.bp_matter.specs.declared.batches.BatchPage.{BatchPage};
    ghost use Rattle.bp_demo.specs.Pages.{AreLines, page_image};

    ghost Value = { BatchPage };

    ghost view = { λ d. record { page = page_image d.words.items; words = d.words.items } };

    ghost invariant = { λ d.
        AreLines d.words.items × IfSome d.kept (λ kept. kept ≡ page_image d.words.items) };
}

impl DrawnPage {
    // The page of these words, not coded yet.
    pub fn of(words: Vec<Word>) -> DrawnPage
        requires { AreLines words.items }
        ensures { result ≡ record { page = page_image words.items; words = words.items } }
    {
        DrawnPage { words, kept: None }
    }

    // Codes the page, unless memory lacks.
    fn code(&mut self, alloc: Global)
        ensures { self.new ≡ self.old }
    {
        if let Ok(kept) = inked_page(alloc, &self.words) {
            self.kept = Some(kept);
        }
    }

    // The page for a batch. It is coded here where that was not done.
    fn into_page(self, alloc: Global) -> Result<BatchPage, OutOfMemory>
        ensures { IfOk result (λ page. page ≡ self) }
    {
        let DrawnPage { words, kept } = self;
        let page = match kept {
            Some(page) => page,
            None => inked_page(alloc, &words)?,
        };
        let words = ListOf::from_vec(words);
        Ok(BatchPage { page, words })
    }
}

// A document that is drawn.
#[derive(Drop)]
pub struct DrawnDoc {
    id: Text,
    parent: u32,
    pages: Vec<DrawnPage>,
}

// Clauses see the document as a batch has it.
impl Model for DrawnDoc {
    ghost use Rattle.std.specs.Prelude.{[]};
    ghost use Rattle.bp_matter.specs.declared.batches.BatchDoc.{BatchDoc};

    ghost Value = { BatchDoc };

    ghost view = { λ d.
        record { id = d.id; parent = d.parent; values = []; pages = d.pages.items } };
}

impl DrawnDoc {
    // A document without fields.
    pub fn of(id: Text, parent: u32, pages: Vec<DrawnPage>) -> DrawnDoc
        ensures { result ≡ record { id = id; parent = parent; values = []; pages = pages.items } }
    {
        DrawnDoc { id, parent, pages }
    }

    // Codes its pages.
    fn code(&mut self, alloc: Global)
        ensures { self.new ≡ self.old }
    {
        code_each(alloc, self.pages.as_mut_slice());
    }

    // The document for a batch.
    fn into_doc(self, alloc: Global) -> Result<BatchDoc, OutOfMemory>
        ensures { IfOk result (λ doc. doc ≡ self) }
    {
        let DrawnDoc { id, parent, pages } = self;
        let mut done = Vec::new(alloc);
        for page in pages {
            done.push(page.into_page(alloc)?)?;
        }
        Ok(BatchDoc {
            id,
            parent,
            values: ListOf::new(alloc),
            pages: ListOf::from_vec(done),
        })
    }
}

// Codes pages in turn.
fn code_each(alloc: Global, pages: &mut [DrawnPage])
    ensures { pages.new ≡ pages.old }
{
    for page in pages.iter_mut() {
        page.code(alloc);
    }
}

// The documents for a batch, their pages coded on threads. It returns if the threads that it joins do.
pub fn coded_documents<R: Threads + Sync>(
    rt: &R,
    alloc: Global,
    docs: Vec<DrawnDoc>,
) -> Result<Vec<BatchDoc>, OutOfMemory>
    ensures { IfOk result (λ coded. coded.items ≡ docs.items) }
{
    let mut docs = docs;
    code_all(rt, alloc, &mut docs);
    let mut coded = Vec::new(alloc);
    for doc in docs {
        coded.push(doc.into_doc(alloc)?)?;
    }
    Ok(coded)
}

// Codes the pages of documents, on threads.
fn code_all<R: Threads + Sync>(rt: &R, alloc: Global, docs: &mut [DrawnDoc])
    ensures { docs.new ≡ docs.old }
{
    for_each_mut(
        rt,
        docs,
        CODING_THREADS,
        &|_: usize, doc: &mut DrawnDoc|
            ensures { doc.new ≡ doc.old }
        { doc.code(alloc) },
    );
}
