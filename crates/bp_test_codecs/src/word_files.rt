// Word files, the words that boxes leave, and the text of a page.
//
//     words read TEXT..            how many there are, and each with image, line, rectangle and text;
//                                  where no text is given, of the file at hand
//     words kept RECTANGLE..       the text of the page without the words that these touch
use crate::files::File;
use crate::told::{of_refusal, unread};
use anyhow::Result;
use bp_core::{ListOf, Rect};
use bp_test_words::{Words, escaped};
use bp_text::{WordList, WordRow, WordRows, kept, page_text, read_words};
use std::alloc::Global;

pub fn told(alloc: Global, file: &File, list: &mut WordList, words: &mut Words) -> Result<String> {
    match words.word() {
        "read" => read(alloc, file, list, words),
        "kept" => keep(alloc, list, words),
        _ => unread(alloc),
    }
}

fn read(alloc: Global, file: &File, list: &mut WordList, words: &mut Words) -> Result<String> {
    let mut given = Vec::new(alloc);
    let is_given = words.has_more();
    words.add_texts(&mut given);
    let bytes = if is_given {
        given.as_slice()
    } else {
        file.as_slice()
    };
    if !words.is_read() || bytes.len() > 1_000_000 {
        return unread(alloc);
    }
    match read_words(alloc, bytes) {
        Ok(rows) => take(alloc, list, rows),
        Err(refusal) => of_refusal(alloc, refusal),
    }
}

// The words in place of the list.
fn take(alloc: Global, list: &mut WordList, rows: WordRows) -> Result<String> {
    let text = rows_text(alloc, rows.as_slice())?;
    let mut taken = Vec::new(alloc);
    for row in rows.into_vec() {
        taken.push(row.word)?;
    }
    *list = ListOf::from_vec(taken);
    Ok(text)
}

fn rows_text(alloc: Global, rows: &[WordRow]) -> Result<String> {
    let count = rows.len();
    let mut text = format!(in alloc; "{count}")?;
    for row in rows {
        text.push_str(row_text(alloc, row)?.as_str())?;
    }
    Ok(text)
}

fn row_text(alloc: Global, row: &WordRow) -> Result<String> {
    let image = escaped(alloc, row.image.as_str())?;
    let line = row.word.line;
    let Rect {
        left,
        top,
        width,
        height,
    } = row.word.rect;
    let word = escaped(alloc, row.word.text.as_str())?;
    let rect = format!(in alloc; "{left} {top} {width} {height}")?;
    Ok(format!(in alloc; " / [{image}] {line} {rect} [{word}]")?)
}

fn keep(alloc: Global, list: &mut WordList, words: &mut Words) -> Result<String> {
    let mut boxes = Vec::new(alloc);
    for _ in 0..words.count() / 4 {
        boxes.push(words.rect())?;
    }
    if !words.is_read() {
        return unread(alloc);
    }
    *list = kept(alloc, list, &ListOf::from_vec(boxes))?;
    escaped(alloc, page_text(alloc, list)?.as_str())
}
