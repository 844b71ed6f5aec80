// The calls that are made where documents were drawn.
ghost use Rattle.std.specs.Prelude.{◌≡◌, ◌≤◌, ◌==◌, ◌++◌, ◌∷◌, [], IfOk, OnOk, length, not};
ghost use Rattle.bp_demo.specs.Calls.{add_second, by_lead, calls_from, confirm, doc_calls, first_rect, first_word, marks_of, no_rect, put_box, put_entry, set_call, treatment_of};
ghost use Rattle.bp_demo.specs.Draws.{next};

use crate::batch::digest_of;
use crate::documents::MOST_PAGES;
use crate::draws::Draws;
use crate::plain_texts::plain_text;
use bp_core::{Basis, DocNo, OutOfMemory, PageNo, Rect, Role, Treatment};
use bp_matter::{BatchDoc, BatchPage, Call};
use bp_text::Word;
use std::alloc::Global;

/// A call of a member of the staff, by the SHA-256 of their key.
#[derive(Debug, Drop)]
pub struct KeyedCall {
    pub key: [u8; 32],
    pub call: Call,
}

// The calls of all documents, in order.
pub fn drawn_calls(
    alloc: Global,
    docs: &[BatchDoc],
    draws: Draws,
) -> Result<Vec<KeyedCall>, OutOfMemory>
    requires { length docs.now ≤ MOST_PAGES }
    ensures { IfOk result (λ calls. calls.items ≡ calls_from draws.state 1 docs.now) }
{
    let mut draws = draws;
    let mut calls = Vec::new(alloc);
    let mut number = 1;
    for doc in docs {
        add_calls(alloc, &mut calls, &mut draws, number, doc)?;
        number += 1;
    }
    Ok(calls)
}

// Adds the calls of a document of this number.
fn add_calls(
    alloc: Global,
    calls: &mut Vec<KeyedCall>,
    draws: &mut Draws,
    number: u32,
    doc: &BatchDoc,
) -> Result<(), OutOfMemory>
    ensures calls { OnOk result (calls.new.items ≡
        calls.old.items ++ doc_calls draws.old.state number doc.now) }
    ensures state { OnOk result (draws.new.state ≡ next (next draws.old.state)) }
{
    let treatment = treatment_of(draws.draw(10));
    let responsive = is_responsive(draws.draw(8));
    calls.push(set_call(alloc, number, responsive, treatment)?)?;
    add_marks(alloc, calls, number, treatment, first_word(doc))?;
    Ok(())
}

// Adds what follows the call of a document.
fn add_marks(
    alloc: Global,
    calls: &mut Vec<KeyedCall>,
    number: u32,
    treatment: Treatment,
    first_word: Rect,
) -> Result<(), OutOfMemory>
    ensures { OnOk result (calls.new.items ≡
        calls.old.items ++ marks_of number treatment first_word) }
{
    match treatment {
        Treatment::Produce => Ok(()),
        Treatment::Redact => {
            add_two(calls, put_box(number, first_word), confirm(number))?;
            Ok(())
        }
        Treatment::Withhold(_) => {
            add_two(calls, put_entry(alloc, number)?, confirm(number))?;
            Ok(())
        }
    }
}

// Adds two calls.
fn add_two(
    calls: &mut Vec<KeyedCall>,
    first: KeyedCall,
    second: KeyedCall,
) -> Result<(), OutOfMemory>
    ensures { OnOk result (calls.new.items ≡ calls.old.items ++ first ∷ second ∷ []) }
{
    calls.push(first)?;
    calls.push(second)?;
    Ok(())
}

// The treatment that was drawn.
fn treatment_of(number: u32) -> Treatment
    ensures { result ≡ treatment_of number }
{
    if number == 0 {
        Treatment::Withhold(Basis::Ac)
    } else if number <= 2 {
        Treatment::Redact
    } else {
        Treatment::Produce
    }
}

// Whether a document is responsive by the number that was drawn.
fn is_responsive(number: u32) -> bool
    ensures { result ≡ not (number == 0) }
{
    number != 0
}

// The rectangle of the first word of a document; of none it is empty.
fn first_word(doc: &BatchDoc) -> Rect
    ensures { result ≡ first_word doc.now.pages }
{
    first_on(doc.pages.as_slice())
}

#[tactic(auto, using(crate::proofs::CallLemmas::no_pages, crate::proofs::CallLemmas::first_page_word))]
fn first_on(pages: &[BatchPage]) -> Rect
    ensures { result ≡ first_word pages.now }
{
    if pages.is_empty() {
        return no_rect();
    }
    first_of(pages[0].words.as_slice())
}

#[tactic(auto, using(crate::proofs::CallLemmas::no_words, crate::proofs::CallLemmas::first_word_rect))]
fn first_of(words: &[Word]) -> Rect
    ensures { result ≡ first_rect words.now }
{
    if words.is_empty() {
        return no_rect();
    }
    words[0].rect
}

fn no_rect() -> Rect
    ensures { result ≡ no_rect }
{
    Rect {
        left: 0,
        top: 0,
        width: 0,
        height: 0,
    }
}

// Staff 2 comes.
pub fn add_second(alloc: Global) -> Result<KeyedCall, OutOfMemory>
    ensures { IfOk result (λ step. step ≡ add_second) }
{
    let name = plain_text(alloc, "second")?;
    Ok(by_lead(Call::AddStaff {
        name,
        role: Role::Second,
        digest: digest_of(b"second"),
    }))
}

fn set_call(
    alloc: Global,
    number: u32,
    responsive: bool,
    treatment: Treatment,
) -> Result<KeyedCall, OutOfMemory>
    ensures { IfOk result (λ step. step ≡ set_call number responsive treatment) }
{
    let designation = plain_text(alloc, "CONFIDENTIAL")?;
    Ok(by_lead(Call::SetCall {
        doc: DocNo(number),
        responsive,
        treatment,
        designation,
    }))
}

fn put_box(number: u32, rect: Rect) -> KeyedCall
    ensures { result ≡ put_box number rect }
{
    by_lead(Call::PutBox {
        doc: DocNo(number),
        num: 1,
        page: PageNo(1),
        rect,
        basis: Basis::Pi,
    })
}

fn put_entry(alloc: Global, number: u32) -> Result<KeyedCall, OutOfMemory>
    ensures { IfOk result (λ step. step ≡ put_entry number) }
{
    let date = plain_text(alloc, "2024-01-01")?;
    let author = plain_text(alloc, "A")?;
    let recipients = plain_text(alloc, "B")?;
    let description = plain_text(alloc, "demo")?;
    Ok(by_lead(Call::PutEntry {
        doc: DocNo(number),
        date,
        author,
        recipients,
        description,
    }))
}

fn confirm(number: u32) -> KeyedCall
    ensures { result ≡ confirm number }
{
    KeyedCall {
        key: digest_of(b"second"),
        call: Call::Confirm { doc: DocNo(number) },
    }
}

// A call of staff 1.
fn by_lead(call: Call) -> KeyedCall
    ensures { result ≡ by_lead call }
{
    KeyedCall {
        key: digest_of(b"lead"),
        call,
    }
}
