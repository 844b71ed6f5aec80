// How many pages the load files say that each document has.
ghost use Rattle.std.specs.Prelude.{◌≡◌, ◌<◌, ◌≤◌, ◌^◌, ◌+◌, length, IfOk, ℕ};
ghost use Rattle.std.specs.Fmt.{decimal};
ghost use Rattle.std.specs.String.{string_bytes};
ghost use Rattle.bp_core.specs.Answers.{Answers};
ghost use Rattle.bp_check.specs.Counts.{counts_of, is_counted, is_decimal, record_says, says_number, without_zeros};

use crate::records::Record;
use bp_core::{OutOfMemory, Refusal, Rule, RuleKind, Text};
use bp_load::{OptLine, docs_after, until_break};
use std::alloc::Global;

/// Tests that each count is right. CheckCount with the first line, from 1, whose count isn't that of
/// its document, or whose record's isn't, or that has a count and no break.
pub(crate) fn counts_hold(alloc: Global, docs: &[Record], lines: &[OptLine]) -> Result<(), Refusal>
    requires { length lines.now + 1 < 2 ^ 32 }
    ensures { Answers (λ _. tt) result (counts_of docs.now lines.now) }
{
    let mut left = docs;
    let mut number = 1;
    let mut rest = lines;
    while let Some((line, others)) = rest.split_first() {
        if !is_counted(alloc, left, line, others)? {
            return Err(Refusal::Rule(Rule::at_line(RuleKind::CheckCount, number)));
        }
        left = docs_after(left, line);
        number += 1;
        rest = others;
    }
    Ok(())
}

fn is_counted(
    alloc: Global,
    docs: &[Record],
    line: &OptLine,
    others: &[OptLine],
) -> Result<bool, OutOfMemory>
    requires { length others.now + 1 < 2 ^ 32 }
    ensures { IfOk result (λ counted. counted ≡ is_counted docs.now line.now others.now) }
{
    if !line.doc_break {
        return Ok(line.pages.is_empty());
    }
    let count = number_text(alloc, until_break(others) + 1)?;
    Ok(says_number(&line.pages, count.as_str()) && record_says(docs, count.as_str()))
}

// A number in decimal digits.
fn number_text(alloc: Global, number: usize) -> Result<String, OutOfMemory>
    ensures { IfOk result (λ text. string_bytes text ≡ decimal number) }
{
    Ok(number.to_string(alloc)?)
}

// A text says nothing, or this count. Its leading zeros count for nothing.
fn says_number(text: &Text, count: &str) -> bool
    ensures { (n : ℕ) → count.now ≡ decimal n → result ≡ says_number text.now n }
{
    text.is_empty() || without_zeros(text.as_str().as_bytes()) == count.as_bytes()
}

fn without_zeros(text: &[u8]) -> &[u8]
    ensures { result.now ≡ without_zeros text.now }
{
    let mut rest = text;
    while let Some((byte, others)) = rest.split_first() {
        if *byte != b'0' {
            break;
        }
        rest = others;
    }
    rest
}

fn record_says(docs: &[Record], count: &str) -> bool
    ensures { (n : ℕ) → count.now ≡ decimal n → result ≡ record_says docs.now n }
{
    match docs.first() {
        Some(doc) => is_decimal(&doc.pages, count),
        None => true,
    }
}

// A text says nothing, or is this count.
fn is_decimal(text: &Text, count: &str) -> bool
    ensures { (n : ℕ) → count.now ≡ decimal n → result ≡ is_decimal text.now n }
{
    text.is_empty() || text.as_str() == count
}
