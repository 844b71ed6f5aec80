// Bates numbers.
//
//     label good PREFIX WIDTH              whether labels may have that prefix and so many digits
//     label write PREFIX WIDTH NUMBER      how many bytes the label has, and the 22 bytes, dots before
//     label take NEXT WIDTH COUNT          first and last of the numbers that are taken, and the next
//     label largest WIDTH                  the largest number of so many digits
ghost use Rattle.std.specs.Prelude.{◌≤◌, IsTrue};

use crate::told::{constant, of_rule, unread, yes_or_no};
use anyhow::Result;
use bp_bates::{Prefix, good_prefix, label_into, largest, take};
use bp_test_words::Words;
use std::alloc::Global;

pub fn told(alloc: Global, words: &mut Words) -> Result<String> {
    match words.word() {
        "good" => good(alloc, words),
        "write" => write_label(alloc, words),
        "take" => take_numbers(alloc, words),
        "largest" => largest_of(alloc, words),
        _ => unread(alloc),
    }
}

fn good(alloc: Global, words: &mut Words) -> Result<String> {
    let text = words.text();
    let width = words.byte();
    if words.is_read() {
        yes_or_no(alloc, good_prefix(&text, width))
    } else {
        unread(alloc)
    }
}

fn is_width(width: u8) -> bool
    ensures from { IsTrue result → 4 ≤ width }
    ensures to { IsTrue result → width ≤ 10 }
{
    4 <= width && width <= 10
}

fn write_label(alloc: Global, words: &mut Words) -> Result<String> {
    let text = words.text();
    let width = words.byte();
    let number = words.long_number();
    if !words.is_read() || !is_width(width) || number < 1 || number > largest(width) {
        return unread(alloc);
    }
    let prefix = Prefix { text, width };
    if !good_prefix(&prefix.text, prefix.width) {
        return unread(alloc);
    }
    let mut into = [b'.'; 22];
    let count = label_into(&prefix, number, &mut into);
    match str::from_utf8(&into) {
        Ok(label) => Ok(format!(in alloc; "{count} {label}")?),
        Err(_) => constant(alloc, "no text"),
    }
}

fn take_numbers(alloc: Global, words: &mut Words) -> Result<String> {
    let next = words.long_number();
    let width = words.byte();
    let count = words.long_number();
    let is_count = 1 <= count && count <= 20_000;
    if !words.is_read() || !is_width(width) || !is_count {
        return unread(alloc);
    }
    if next < 1 || next > largest(width) + 1 {
        return unread(alloc);
    }
    match take(next, width, count) {
        Ok(taken) => {
            let (first, last, next) = (taken.span.first, taken.span.last, taken.next);
            Ok(format!(in alloc; "{first}-{last} {next}")?)
        }
        Err(rule) => of_rule(alloc, rule),
    }
}

fn largest_of(alloc: Global, words: &mut Words) -> Result<String> {
    let width = words.byte();
    if !words.is_read() || !is_width(width) {
        return unread(alloc);
    }
    let number = largest(width);
    Ok(format!(in alloc; "{number}")?)
}
