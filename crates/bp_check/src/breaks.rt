// Where documents begin and end among the lines of an OPT file.
ghost use Rattle.std.specs.Prelude.{◌≡◌, ◌<◌, ◌^◌, ◌+◌, length};
ghost use Rattle.bp_check.specs.Breaks.{breaks_hold, fits, has_record, last_image};

use crate::records::Record;
use bp_core::{Rule, RuleKind, Text};
use bp_load::{OptLine, docs_after};

/// Tests that breaks and records go together. CheckBreaks with the first line, from 1, that doesn't
/// fit: it has a break and isn't the first page of the next record, or its document ends elsewhere
/// than the record says, or it is line 1 and has no break. Where records are left, that is the line
/// past the last.
///
/// A document's last line is looked for at its break alone, so each line is seen twice.
pub(crate) fn breaks_fit(docs: &[Record], lines: &[OptLine]) -> Result<(), Rule>
    requires { length lines.now + 1 < 2 ^ 32 }
    ensures { result ≡ breaks_hold docs.now lines.now }
{
    let mut left = docs;
    let mut number = 1;
    let mut rest = lines;
    while let Some((line, others)) = rest.split_first() {
        if !fits(number, left, line, others) {
            return Err(Rule::at_line(RuleKind::CheckBreaks, number));
        }
        left = docs_after(left, line);
        number += 1;
        rest = others;
    }
    if left.is_empty() {
        Ok(())
    } else {
        Err(Rule::at_line(RuleKind::CheckBreaks, number))
    }
}

fn fits(number: u32, docs: &[Record], line: &OptLine, others: &[OptLine]) -> bool
    ensures { result ≡ fits number docs.now line.now others.now }
{
    if line.doc_break {
        has_record(docs, line, others)
    } else {
        number != 1
    }
}

fn has_record(docs: &[Record], line: &OptLine, others: &[OptLine]) -> bool
    ensures { result ≡ has_record docs.now line.now others.now }
{
    match docs.first() {
        Some(doc) => doc.first == line.image && doc.last == *last_image(line, others),
        None => false,
    }
}

// The last image id of the document that goes on behind a line.
fn last_image<'a>(line: &'a OptLine, others: &'a [OptLine]) -> &'a Text
    ensures { result.now ≡ last_image line.now others.now }
{
    let mut last = line;
    let mut rest = others;
    while let Some((next, after)) = rest.split_first() {
        if next.doc_break {
            break;
        }
        last = next;
        rest = after;
    }
    &last.image
}
