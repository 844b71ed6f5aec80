// The documents that drawn pages become.
ghost use Rattle.std.specs.Prelude.{◌≡◌, ◌<◌, ◌≤◌, ◌-◌, IfOk, OnOk, if◌then◌else◌, length};
ghost use Rattle.bp_demo.specs.Documents.{begin_document, document, documents, first_page, next_page, next_parent, page_from, pages_drawn};
ghost use Rattle.bp_demo.specs.Draws.{next};
ghost use Rattle.bp_demo.specs.Pages.{behind_page};

use crate::drawn::{DrawnDoc, DrawnPage};
use crate::draws::Draws;
use crate::pages::drawn_words;
use crate::plain_texts::decimal_text;
use bp_core::OutOfMemory;
use std::alloc::Global;
use std::marker::Model;

/// The most pages of a demo.
pub const MOST_PAGES: u32 = 2_000;

// What stands behind some pages: the documents before the last one, the last one's parent and pages
// so far, and what draws on.
#[derive(Drop)]
struct Drawing {
    done: Vec<DrawnDoc>,
    parent: u32,
    pages: Vec<DrawnPage>,
    draws: Draws,
}

impl Model for Drawing {
    ghost use Rattle.bp_demo.specs.Documents.{Pile};

    ghost Value = { Pile };

    ghost view = { λ d. record {
      done = d.done.items;
      parent = d.parent;
      pages = d.pages.items;
      state = d.draws.state;
    } };
}

// The documents of so many pages, drawn from a seed, and what draws on.
pub fn drawn_documents(
    alloc: Global,
    seed: u64,
    pages: u32,
) -> Result<(Vec<DrawnDoc>, Draws), OutOfMemory>
    requires some { 1 ≤ pages }
    requires few { pages ≤ MOST_PAGES }
    ensures docs { IfOk result (λ x. x.0.items ≡ documents (pages_drawn seed (pages - 1))) }
    ensures state { IfOk result (λ x. x.1.state ≡ (pages_drawn seed (pages - 1)).state) }
{
    let mut drawing = Drawing::first(alloc, seed)?;
    for added in 0..pages - 1 {
        drawing.add_page(alloc)?;
    }
    drawing.finish(alloc)
}

impl Drawing {
    // The first page.
    fn first(alloc: Global, seed: u64) -> Result<Drawing, OutOfMemory>
        ensures { IfOk result (λ drawing. drawing ≡ first_page seed) }
    {
        let mut draws = Draws { state: seed };
        let page = drawn_page(alloc, &mut draws)?;
        let mut pages = Vec::new(alloc);
        pages.push(page)?;
        Ok(Drawing {
            done: Vec::new(alloc),
            parent: 1,
            pages,
            draws,
        })
    }

    // Another page.
    fn add_page(&mut self, alloc: Global) -> Result<(), OutOfMemory>
        requires { length self.old.done < MOST_PAGES }
        ensures { OnOk result (self.new ≡ next_page self.old) }
    {
        if self.draws.draw(3) == 0 {
            return self.begin_document(alloc);
        }
        let page = drawn_page(alloc, &mut self.draws)?;
        self.pages.push(page)?;
        Ok(())
    }

    // A page that begins a document.
    fn begin_document(&mut self, alloc: Global) -> Result<(), OutOfMemory>
        requires { length self.old.done < MOST_PAGES }
        ensures { let joins = next self.old.state in
            OnOk result (self.new ≡
            begin_document self.old (next_parent self.old joins) joins) }
    {
        let number = self.done.len() as u32 + 1;
        let joins = self.draws.draw(4) == 0;
        let pages = std::mem::replace(&mut self.pages, Vec::new(alloc));
        self.done
            .push(document(alloc, number, self.parent, pages)?)?;
        self.parent = parent_by(joins, self.parent, number + 1);
        let page = drawn_page(alloc, &mut self.draws)?;
        self.pages.push(page)?;
        Ok(())
    }

    // All documents, and what draws on.
    fn finish(self, alloc: Global) -> Result<(Vec<DrawnDoc>, Draws), OutOfMemory>
        requires { length self.done < MOST_PAGES }
        ensures docs { IfOk result (λ x. x.0.items ≡ documents self) }
        ensures state { IfOk result (λ x. x.1.state ≡ self.state) }
    {
        let Drawing {
            mut done,
            parent,
            pages,
            draws,
        } = self;
        let number = done.len() as u32 + 1;
        done.push(document(alloc, number, parent, pages)?)?;
        Ok((done, draws))
    }
}

// Draws a page by its words. It is coded later.
fn drawn_page(alloc: Global, draws: &mut Draws) -> Result<DrawnPage, OutOfMemory>
    ensures page { IfOk result (λ page. page ≡ page_from draws.old.state) }
    ensures state { OnOk result (draws.new.state ≡ behind_page draws.old.state) }
{
    let words = drawn_words(alloc, draws)?;
    Ok(DrawnPage::of(words))
}

// Whether a new document joins the family before it says which of these is its parent.
fn parent_by(joins: bool, before: u32, itself: u32) -> u32
    ensures { result ≡ (if joins then before else itself) }
{
    if joins { before } else { itself }
}

// A document of this number.
fn document(
    alloc: Global,
    number: u32,
    parent: u32,
    pages: Vec<DrawnPage>,
) -> Result<DrawnDoc, OutOfMemory>
    ensures { IfOk result (λ doc. doc ≡ document number parent pages.items) }
{
    let id = decimal_text(alloc, number)?;
    Ok(DrawnDoc::of(id, parent, pages))
}
