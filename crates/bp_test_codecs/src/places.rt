// Paths, rectangles, rules and copies.
//
//     core path TEXT                       the path that the text names
//     core has RECTANGLE ROW COLUMN        whether that pixel lies in it
//     core inside RECTANGLE WIDTH HEIGHT   whether it lies in a page of these sides
//     core touches RECTANGLE RECTANGLE     whether they have a pixel in common
//     core rule LINE A B                   a rule with these values
//     core copy TEXT HEX NUMBER..          copies of these
use crate::told::{of_refusal, of_rule, unread, yes_or_no};
use anyhow::Result;
use bp_core::{Bytes, ListOf, NumberList, Rule, RuleKind, path_of};
use bp_test_words::{Words, escaped, hex_words};
use std::alloc::Global;

pub fn told(alloc: Global, words: &mut Words) -> Result<String> {
    match words.word() {
        "path" => path(alloc, words),
        "rule" => rule(alloc, words),
        "copy" => copy(alloc, words),
        verb => of_rect(alloc, verb, words),
    }
}

fn path(alloc: Global, words: &mut Words) -> Result<String> {
    let text = words.text();
    if !words.is_read() {
        return unread(alloc);
    }
    match path_of(alloc, text.as_str()) {
        Ok(path) => escaped(alloc, path.as_str()),
        Err(refusal) => of_refusal(alloc, refusal),
    }
}

fn rule(alloc: Global, words: &mut Words) -> Result<String> {
    let line = words.number();
    let (a, b) = (words.long_number(), words.long_number());
    if !words.is_read() {
        return unread(alloc);
    }
    let kind = RuleKind::KeptRowBad;
    of_rule(alloc, Rule { kind, line, a, b })
}

fn of_rect(alloc: Global, verb: &str, words: &mut Words) -> Result<String> {
    let rect = words.rect();
    let is_so = match verb {
        "has" => rect.has(words.number(), words.number()),
        "inside" => rect.inside(words.number(), words.number()),
        "touches" => rect.touches(&words.rect()),
        _ => {
            words.refuse();
            false
        }
    };
    if words.is_read() {
        yes_or_no(alloc, is_so)
    } else {
        unread(alloc)
    }
}

fn copy(alloc: Global, words: &mut Words) -> Result<String> {
    let text = words.text().clone()?;
    let bytes = Bytes::from_vec(words.bytes()).clone()?;
    let numbers = numbers_of(alloc, words)?.clone()?;
    if !words.is_read() {
        return unread(alloc);
    }
    let mut told = escaped(alloc, text.as_str())?;
    told.push(' ')?;
    told.push_str(hex_words(alloc, bytes.as_slice())?.as_str())?;
    for number in numbers.as_slice() {
        write!(told, " {number}")?;
    }
    Ok(told)
}

fn numbers_of(alloc: Global, words: &mut Words) -> Result<NumberList> {
    let mut numbers = Vec::new(alloc);
    for _ in 0..words.count() {
        numbers.push(words.long_number())?;
    }
    Ok(ListOf::from_vec(numbers))
}
