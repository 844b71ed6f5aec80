// The families of a batch: documents in turn that name one first page.
ghost use Rattle.std.specs.Prelude.{◌≡◌, ◌<◌, ◌^◌, length};
ghost use Rattle.std.specs.Option.{option_copied, option_map};
ghost use Rattle.bp_core.specs.Answers.{Answers};
ghost use Rattle.bp_import.specs.Families.{family_of, is_family, parents_of};

use crate::records::Record;
use bp_core::{Refusal, Rule, RuleKind, Text};
use std::alloc::Global;

/// The place of the parent of each document, from 1. A record names the first page of its family,
/// or nothing where that is its own. FamilyBroken with the number of the first record, from 1, whose
/// family is neither its own nor that of the record before.
pub(crate) fn parents_of(alloc: Global, docs: &[Record]) -> Result<Vec<u32>, Refusal>
    requires { length docs.now < 2 ^ 32 }
    ensures { Answers (λ parents. parents.items) result (parents_of docs.now) }
{
    let mut parents = Vec::with_capacity(alloc, docs.len())?;
    let mut before = None;
    let mut parent = 0;
    let mut number = 0;
    let mut rest = docs;
    while let Some((doc, others)) = rest.split_first() {
        number += 1;
        let family = family_of(doc);
        if *family == doc.id {
            parent = number;
        } else if !is_family(before, family) {
            return Err(Refusal::Rule(Rule::at_line(RuleKind::FamilyBroken, number)));
        }
        parents.push(parent)?;
        before = Some(family);
        rest = others;
    }
    Ok(parents)
}

fn family_of(doc: &Record) -> &Text
    ensures { result.now ≡ family_of doc.now }
{
    if doc.attach.is_empty() {
        &doc.id
    } else {
        &doc.attach
    }
}

fn is_family(before: Option<&Text>, family: &Text) -> bool
    ensures { result ≡ is_family (option_copied before.entry) family.now }
{
    match before {
        Some(other) => *family == *other,
        None => false,
    }
}
