// Lines: which module does what each asks for.
//
//     repeat FROM TO WORD..    the line of these words for each number, and what is told of the last:
//                              `#` stands for the number, `#4` for it in four digits, `#x4` and `#x5`
//                              for the hexadecimal digits of four and five digits, and `#le` for its
//                              four bytes, the lowest first
//     long WORD..              the line of these words, and how many bytes what is told has
use crate::day::Day;
use crate::told::{constant, unread};
use crate::{asked, batches, commands, keeping, looked_up, presses, strips};
use anyhow::Result;
use bp_test_words::{Tally, Words};
use std::alloc::Global;
use std::thread::Threads;

/// Does what a line asks for.
pub fn make<R: Threads + Sync>(rt: &R, day: &mut Day, line: &str) -> Result<String> {
    match line.split_once(" ") {
        Some(("repeat", rest)) => repeat(rt, day, rest),
        Some(("long", rest)) => long(rt, day, rest),
        _ => once(rt, day, line),
    }
}

/// The first line of a script that is told otherwise, with what is told; `none` where each is told as
/// written.
pub fn differing<R: Threads + Sync>(rt: &R, alloc: Global, script: &str) -> Result<String> {
    let mut day = Day::new(alloc)?;
    first_differing(rt, &mut day, script)
}

fn first_differing<R: Threads + Sync>(rt: &R, day: &mut Day, script: &str) -> Result<String> {
    let mut tally = Tally::new();
    for line in script.lines() {
        if let Some(case) = tally.take(line) {
            let told = make(rt, day, case.asked)?;
            if told.as_str() != case.wanted {
                return Ok(format!(in day.alloc; "{line}: {told}")?);
            }
        }
    }
    constant(day.alloc, "none")
}

fn once<R: Threads + Sync>(rt: &R, day: &mut Day, line: &str) -> Result<String> {
    let alloc = day.alloc;
    let words: Vec<&str> = line.split(' ').collect(alloc)?;
    let mut words = Words::over(alloc, words.as_slice());
    let verb = words.word();
    match of_verb(rt, day, verb, &mut words) {
        Some(told) => told,
        None => unread(alloc),
    }
}

fn of_verb<R: Threads + Sync>(
    rt: &R,
    day: &mut Day,
    verb: &str,
    words: &mut Words,
) -> Option<Result<String>> {
    if let Some(told) = asked::told(day, verb, words) {
        return Some(told);
    }
    if let Some(told) = keeping::told(day, verb, words) {
        return Some(told);
    }
    if let Some(told) = day.given.told(verb, words) {
        return Some(told);
    }
    if let Some(told) = strips::told(rt, day, verb, words) {
        return Some(told);
    }
    if let Some(told) = presses::told(rt, day, verb, words) {
        return Some(told);
    }
    if let Some(told) = looked_up::told(day, verb, words) {
        return Some(told);
    }
    if let Some(told) = commands::told(day, verb, words) {
        return Some(told);
    }
    batches::told(day, verb, words)
}

fn long<R: Threads + Sync>(rt: &R, day: &mut Day, rest: &str) -> Result<String> {
    let length = once(rt, day, rest)?.len();
    Ok(format!(in day.alloc; "{length} bytes")?)
}

fn repeat<R: Threads + Sync>(rt: &R, day: &mut Day, rest: &str) -> Result<String> {
    let (from, rest) = number_before(rest);
    let (to, line) = number_before(rest);
    let mut told = String::new(day.alloc);
    for number in from..to.saturating_add(1) {
        told = once(rt, day, numbered(day.alloc, line, number)?.as_str())?;
    }
    Ok(told)
}

// The number that stands before a space, and what stands behind it; an empty range where there is none.
fn number_before(text: &str) -> (u32, &str) {
    match text.split_once(" ") {
        Some((number, rest)) => (number.parse::<u32>().unwrap_or(u32::MAX), rest),
        None => (u32::MAX, ""),
    }
}

// The line with a number in place of its signs.
fn numbered(alloc: Global, line: &str, number: u32) -> Result<String> {
    let five = format!(in alloc; "{number:05}")?;
    let four = format!(in alloc; "{number:04}")?;
    let plain = format!(in alloc; "{number}")?;
    let five = hex::encode(alloc, five.as_str().as_bytes())?;
    let four_digits = hex::encode(alloc, four.as_str().as_bytes())?;
    let low = hex::encode(alloc, number.to_le_bytes().as_slice())?;
    let line = line.replace(alloc, "#le", low.as_str())?;
    let line = line.as_str().replace(alloc, "#x5", five.as_str())?;
    let line = line.as_str().replace(alloc, "#x4", four_digits.as_str())?;
    let line = line.as_str().replace(alloc, "#4", four.as_str())?;
    Ok(line.as_str().replace(alloc, "#", plain.as_str())?)
}
