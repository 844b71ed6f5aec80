// What is told of calls, batches and tables.
use crate::looks::{found, people, productions, states, values};
use crate::seen::{document, page, production, words};
use anyhow::Result;
use bp_core::{Refusal, Rule};
use bp_import::ImportRefusal;
use bp_matter::{Reply, Tables};
use bp_rules::{Counted, MatterRefusal};
use std::alloc::Global;

/// These words.
pub fn constant(alloc: Global, text: &str) -> Result<String> {
    Ok(String::from_str(alloc, text)?)
}

/// Of a line that can't be read.
pub fn unread(alloc: Global) -> Result<String> {
    constant(alloc, "not read")
}

pub fn yes_or_no(alloc: Global, is_so: bool) -> Result<String> {
    constant(alloc, if is_so { "yes" } else { "no" })
}

pub fn of_call(alloc: Global, told: &Result<Reply, MatterRefusal>) -> Result<String> {
    match told {
        Ok(reply) => of_reply(alloc, reply),
        Err(refusal) => of_matter(alloc, *refusal),
    }
}

pub fn of_import(alloc: Global, told: Result<Counted, MatterRefusal>) -> Result<String> {
    match told {
        Ok(counted) => of_counted(alloc, counted),
        Err(refusal) => of_matter(alloc, refusal),
    }
}

/// Documents and pages.
pub fn of_counted(alloc: Global, counted: Counted) -> Result<String> {
    let Counted { documents, pages } = counted;
    Ok(format!(in alloc; "{documents} {pages}")?)
}

pub fn of_batch(alloc: Global, told: ImportRefusal) -> Result<String> {
    match told {
        ImportRefusal::Rule(rule) => of_rule(alloc, rule),
        ImportRefusal::SourceFault => constant(alloc, "source fault"),
        ImportRefusal::OutOfMemory => constant(alloc, "out of memory"),
    }
}

pub fn of_matter(alloc: Global, told: MatterRefusal) -> Result<String> {
    match told {
        MatterRefusal::Rule(rule) => of_rule(alloc, rule),
        MatterRefusal::KeeperFault => constant(alloc, "keeper fault"),
        MatterRefusal::OutOfMemory => constant(alloc, "out of memory"),
    }
}

pub fn of_refusal(alloc: Global, told: Refusal) -> Result<String> {
    match told {
        Refusal::Rule(rule) => of_rule(alloc, rule),
        Refusal::OutOfMemory => constant(alloc, "out of memory"),
    }
}

/// What rows come to.
pub fn of_tables(alloc: Global, told: &Result<Tables, Refusal>) -> Result<String> {
    match told {
        Ok(_) => constant(alloc, "valid"),
        Err(refusal) => of_refusal(alloc, *refusal),
    }
}

/// Number, name, line and the two values.
pub fn of_rule(alloc: Global, rule: Rule) -> Result<String> {
    Ok(format!(in alloc; "refused {rule}")?)
}

pub fn of_reply(alloc: Global, reply: &Reply) -> Result<String> {
    match reply {
        Reply::Done => constant(alloc, "done"),
        Reply::Staff(staff) => {
            let number = staff.0;
            Ok(format!(in alloc; "staff {number}")?)
        }
        Reply::Doc(view) => document(alloc, view),
        Reply::Image(image) => page(alloc, image),
        Reply::Words(list) => words(alloc, list),
        Reply::Produced(produced) => production(alloc, produced),
        Reply::States(rows) => states(alloc, rows),
        Reply::Values(rows) => values(alloc, rows),
        Reply::People(rows) => people(alloc, rows),
        Reply::Productions(rows) => productions(alloc, rows),
        Reply::Found(told) => found(alloc, told),
    }
}
