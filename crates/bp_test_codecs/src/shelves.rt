// Marks of documents, on shelves: each has its document, a number and a value.
//
//     shelf from MARK..        the shelves of these marks, which ascend
//     shelf put MARK           DOC NUMBER VALUE
//     shelf of DOC             the marks of a document: NUMBER:VALUE
//     shelf find DOC NUMBER    the value of this mark, or `none`
//     shelf remove DOC NUMBER
//     shelf count              how many shelves there are
use crate::told::{constant, unread};
use anyhow::Result;
use bp_core::{DocNo, Keyed, ascends, two_keys};
use bp_shelves::{Shelved, Shelves};
use bp_test_words::Words;
use std::alloc::Global;

// A mark of a document, by its number.
#[derive(Clone, Copy, Drop)]
struct Mark {
    doc: u32,
    num: u32,
    value: u8,
}

impl Keyed for Mark {
    ghost use Rattle.bp_core.specs.Sorted.{two_keys};

    ghost key_of = { λ mark. two_keys mark.doc mark.num };

    fn key(&self) -> u128 {
        two_keys(self.doc, self.num)
    }
}

impl Shelved for Mark {
    ghost span = { 4294967296 };

    ghost doc_of = { λ mark. mark.doc };

    fn doc(&self) -> DocNo {
        let _num = self.num;
        DocNo(self.doc)
    }
}

/// The marks at hand.
#[derive(Drop)]
pub struct Stock {
    marks: Shelves<Mark>,
}

impl Stock {
    pub fn new(alloc: Global) -> Stock {
        Stock {
            marks: Shelves::new(alloc),
        }
    }
}

pub fn told(alloc: Global, stock: &mut Stock, words: &mut Words) -> Result<String> {
    match words.word() {
        "from" => from(alloc, stock, words),
        "put" => put(alloc, stock, words),
        "remove" => remove(alloc, stock, words),
        "of" => of(alloc, stock, words),
        "find" => find(alloc, stock, words),
        "count" => count(alloc, stock),
        _ => unread(alloc),
    }
}

fn mark_of(words: &mut Words) -> Mark {
    let (doc, num) = (words.number(), words.number());
    let value = words.byte();
    Mark { doc, num, value }
}

fn from(alloc: Global, stock: &mut Stock, words: &mut Words) -> Result<String> {
    let mut marks = Vec::new(alloc);
    for _ in 0..words.count() / 3 {
        marks.push(mark_of(words))?;
    }
    if !words.is_read() || !ascends(marks.as_slice()) {
        return unread(alloc);
    }
    stock.marks = Shelves::from_rows(alloc, marks)?;
    constant(alloc, "")
}

fn put(alloc: Global, stock: &mut Stock, words: &mut Words) -> Result<String> {
    let mark = mark_of(words);
    if !words.is_read() {
        return unread(alloc);
    }
    stock.marks.reserve(mark.doc())?;
    stock.marks.put(mark);
    constant(alloc, "")
}

fn remove(alloc: Global, stock: &mut Stock, words: &mut Words) -> Result<String> {
    let (doc, num) = (words.number(), words.number());
    if !words.is_read() {
        return unread(alloc);
    }
    stock.marks.remove(DocNo(doc), two_keys(doc, num));
    constant(alloc, "")
}

fn of(alloc: Global, stock: &Stock, words: &mut Words) -> Result<String> {
    let doc = words.doc();
    if !words.is_read() {
        return unread(alloc);
    }
    let mut text = String::new(alloc);
    for mark in stock.marks.of_doc(doc) {
        let (num, value) = (mark.num, mark.value);
        if !text.is_empty() {
            text.push(' ')?;
        }
        write!(text, "{num}:{value}")?;
    }
    Ok(text)
}

fn find(alloc: Global, stock: &Stock, words: &mut Words) -> Result<String> {
    let (doc, num) = (words.number(), words.number());
    if !words.is_read() {
        return unread(alloc);
    }
    match stock.marks.find(DocNo(doc), two_keys(doc, num)) {
        Some(mark) => {
            let value = mark.value;
            Ok(format!(in alloc; "{value}")?)
        }
        None => constant(alloc, "none"),
    }
}

fn count(alloc: Global, stock: &Stock) -> Result<String> {
    let count = stock.marks.as_slice().len();
    Ok(format!(in alloc; "{count}")?)
}
