// Rows in ascending order of key: of kind, and of two numbers.
//
//     rows new / rows put KIND K1 K2 HEX / rows remove KEY
//     rows find KEY                  the row of this key, or `none`
//     rows between KEY KEY           the rows whose keys are at least the one and below the other
//     rows all
//
// A KEY is one number: kind times 2^64, the first number times 2^32, and the second.
use crate::told::{constant, unread};
use anyhow::Result;
use bp_core::{Bytes, Row, ascends, find_row, put_row, remove_row, rows_between};
use bp_test_words::{Words, hex_words};
use std::alloc::Global;

pub fn told(alloc: Global, rows: &mut Vec<Row>, words: &mut Words) -> Result<String> {
    if !ascends(rows.as_slice()) {
        return constant(alloc, "the rows don't ascend");
    }
    match words.word() {
        "put" => put(alloc, rows, words),
        "remove" => remove(alloc, rows, words),
        "find" => find(alloc, rows, words),
        "between" => between(alloc, rows, words),
        "all" => rows_text(alloc, rows.as_slice()),
        _ => {
            rows.clear();
            constant(alloc, "")
        }
    }
}

fn key_of(words: &mut Words) -> u128 {
    match words.word().parse::<u128>() {
        Ok(key) => key,
        Err(_) => {
            words.refuse();
            0
        }
    }
}

fn put(alloc: Global, rows: &mut Vec<Row>, words: &mut Words) -> Result<String> {
    let kind = words.byte();
    let (k1, k2) = (words.number(), words.number());
    let body = Bytes::from_vec(words.bytes());
    if !words.is_read() || !ascends(rows.as_slice()) {
        return unread(alloc);
    }
    put_row(rows, Row { kind, k1, k2, body })?;
    constant(alloc, "")
}

fn remove(alloc: Global, rows: &mut Vec<Row>, words: &mut Words) -> Result<String> {
    let key = key_of(words);
    if !words.is_read() || !ascends(rows.as_slice()) {
        return unread(alloc);
    }
    remove_row(rows, key);
    constant(alloc, "")
}

fn find(alloc: Global, rows: &[Row], words: &mut Words) -> Result<String> {
    let key = key_of(words);
    if !words.is_read() || !ascends(rows) {
        return unread(alloc);
    }
    match find_row(rows, key) {
        Some(row) => row_text(alloc, row),
        None => constant(alloc, "none"),
    }
}

fn between(alloc: Global, rows: &[Row], words: &mut Words) -> Result<String> {
    let low = key_of(words);
    let high = key_of(words);
    if !words.is_read() || low > high || !ascends(rows) {
        return unread(alloc);
    }
    rows_text(alloc, rows_between(rows, low, high))
}

fn rows_text(alloc: Global, rows: &[Row]) -> Result<String> {
    let mut text = String::new(alloc);
    for row in rows {
        if !text.is_empty() {
            text.push_str(" / ")?;
        }
        text.push_str(row_text(alloc, row)?.as_str())?;
    }
    Ok(text)
}

fn row_text(alloc: Global, row: &Row) -> Result<String> {
    let (kind, k1, k2) = (row.kind, row.k1, row.k2);
    let body = hex_words(alloc, row.body.as_slice())?;
    Ok(format!(in alloc; "{kind} {k1} {k2} {body}")?)
}
