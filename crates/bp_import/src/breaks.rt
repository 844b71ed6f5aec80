// Where documents begin among the lines of an OPT file.
ghost use Rattle.std.specs.Prelude.{◌≡◌, ◌<◌, ◌≤◌, ◌^◌, ◌+◌, length, IfOk, List};
ghost use Rattle.bp_core.specs.Answers.{Answers};
ghost use Rattle.bp_core.specs.Rules.{rule_at_line};
ghost use Rattle.bp_load.specs.declared.opt.OptLine.{OptLine as Line};
ghost use Rattle.bp_import.specs.Breaks.{begins, breaks_of, is_broken, page_counts};
ghost use Rattle.bp_import.specs.Places.{Finds};

use crate::records::Record;
use bp_core::{OutOfMemory, Refusal, Rule, RuleKind};
use bp_load::{OptLine, docs_after, until_break};
use std::alloc::Global;
use std::collections::BTreeMap;

/// The place of each line, from 0, by its image id.
pub(crate) type Places<'a> = BTreeMap<&'a str, usize>;

/// Tests that breaks and records go together, and gives the places of the lines. DocBreaks with the
/// first line, from 1, that is broken: it repeats an image id, it has a break and isn't the first
/// page of the next record, or it is line 1 and has no break. Where records are left, that is the
/// line past the last.
pub(crate) fn places_by_breaks<'a>(
    alloc: Global,
    docs: &[Record],
    lines: &'a [OptLine],
) -> Result<Places<'a>, Refusal>
    requires { length lines.now + 1 < 2 ^ 32 }
    ensures answer { Answers (λ _. tt) result (breaks_of docs.now lines.now) }
    ensures places { IfOk result (λ places. Finds places lines.now) }
{
    let mut places = BTreeMap::new(alloc);
    let mut left = docs;
    let mut number = 0;
    for line in lines {
        if is_broken(&places, left, number, line) {
            return Err(broken_behind(number));
        }
        places.insert(line.image.as_str(), number as usize)?;
        left = docs_after(left, line);
        number += 1;
    }
    if left.is_empty() {
        Ok(places)
    } else {
        Err(broken_behind(number))
    }
}

// The rule at the line behind so many.
fn broken_behind(before: u32) -> Refusal
    requires { before + 1 < 2 ^ 32 }
    ensures { result ≡ Refusal.Rule (rule_at_line RuleKind.DocBreaks (before + 1)) }
{
    Refusal::Rule(Rule::at_line(RuleKind::DocBreaks, before + 1))
}

fn is_broken(places: &Places<'_>, left: &[Record], before: u32, line: &OptLine) -> bool
    ensures { (lines : List Line) → Finds places.now lines → length lines ≡ before
        → result ≡ is_broken lines left.now line.now }
{
    if places.contains_key(line.image.as_str()) {
        true
    } else if line.doc_break {
        !begins(left, line)
    } else {
        before == 0
    }
}

fn begins(left: &[Record], line: &OptLine) -> bool
    ensures { result ≡ begins left.now line.now }
{
    match left.first() {
        Some(doc) => doc.id == line.image,
        None => false,
    }
}

/// How many pages each document has: that of its break, and those up to the next.
pub(crate) fn page_counts(alloc: Global, lines: &[OptLine]) -> Result<Vec<usize>, OutOfMemory>
    ensures { IfOk result (λ counts. counts.items ≡ page_counts lines.now) }
{
    let mut counts = Vec::new(alloc);
    let mut rest = lines;
    while let Some((line, others)) = rest.split_first() {
        if line.doc_break {
            counts.push(until_break(others) + 1)?;
        }
        rest = others;
    }
    Ok(counts)
}
