// What is told by more than one subject.
use anyhow::Result;
use bp_core::{Refusal, Rule};
use std::alloc::Global;

/// These words.
pub fn constant(alloc: Global, text: &str) -> Result<String> {
    Ok(String::from_str(alloc, text)?)
}

/// Of a line that can't be read, or that asks what no caller may ask.
pub fn unread(alloc: Global) -> Result<String> {
    constant(alloc, "not read")
}

pub fn yes_or_no(alloc: Global, is_so: bool) -> Result<String> {
    constant(alloc, if is_so { "yes" } else { "no" })
}

/// Number, name, line and the two values.
pub fn of_rule(alloc: Global, rule: Rule) -> Result<String> {
    Ok(format!(in alloc; "refused {rule}")?)
}

pub fn of_refusal(alloc: Global, refusal: Refusal) -> Result<String> {
    match refusal {
        Refusal::Rule(rule) => of_rule(alloc, rule),
        Refusal::OutOfMemory => constant(alloc, "out of memory"),
    }
}

/// Numbers, a space between two.
pub fn of_numbers(alloc: Global, numbers: &[u32]) -> Result<String> {
    let mut text = String::new(alloc);
    for number in numbers {
        if !text.is_empty() {
            text.push(' ')?;
        }
        write!(text, "{number}")?;
    }
    Ok(text)
}
