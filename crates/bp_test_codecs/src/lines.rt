// What lines work on, and which subject each belongs to.
use crate::files::File;
use crate::shelves::Stock;
use crate::told::unread;
use crate::{codes, labels, loads, pages, places, rows, shelves, strips, word_files};
use anyhow::{Result, bail};
use bp_core::{ListOf, Row};
use bp_rows::{Page, Res, Unit};
use bp_test_words::Words;
use bp_text::WordList;
use std::alloc::Global;
use std::rt::Files;

/// The file, the page, the words and the rows that lines speak of; each stays until a line puts
/// another in its place.
#[derive(Drop)]
pub struct Bench {
    file: File,
    page: Page,
    words: WordList,
    rows: Vec<Row>,
    stock: Stock,
}

impl Bench {
    pub fn new(alloc: Global) -> Result<Bench> {
        let dots = Res { num: 200, den: 1 };
        let Ok(page) = Page::white(alloc, 1, 1, dots, dots, Unit::Inch) else {
            bail!("no page is made");
        };
        Ok(Bench {
            file: File::new(alloc),
            page,
            words: ListOf::new(alloc),
            rows: Vec::new(alloc),
            stock: Stock::new(alloc),
        })
    }
}

/// Does what a line asks for. The first word names what it is asked of.
pub fn told<R: Files + AllocGlobal>(
    rt: &R,
    alloc: Global,
    bench: &mut Bench,
    asked: &str,
) -> Result<String> {
    let words: Vec<&str> = asked.split(' ').collect(alloc)?;
    let mut words = Words::over(alloc, words.as_slice());
    let told = match words.word() {
        "code" => codes::told(alloc, &mut words),
        "page" => pages::told(alloc, &mut bench.page, &bench.file, &mut words),
        "strip" => strips::told(alloc, &bench.page, &mut words),
        "file" => bench.file.told(rt, alloc, &mut words),
        "load" => loads::told(alloc, &bench.file, &mut words),
        "words" => word_files::told(alloc, &bench.file, &mut bench.words, &mut words),
        "label" => labels::told(alloc, &mut words),
        "rows" => rows::told(alloc, &mut bench.rows, &mut words),
        "shelf" => shelves::told(alloc, &mut bench.stock, &mut words),
        "core" => places::told(alloc, &mut words),
        _ => unread(alloc),
    };
    told
}
