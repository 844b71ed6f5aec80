// What each line asks for; its first word names it.
use crate::raw::{bytes_in, escaped};
use crate::{answers, reading};
use anyhow::Result;
use bp_test_words::Words;
use std::alloc::Global;

/// What is told of a line.
///
/// - `read BYTES`: the first eight digits of the key and the call, or the refusal
/// - `from BYTES`: how many of the bytes tell how long the request is, and how many it has
/// - `enough BYTES`: whether they are
/// - `reply ANSWER`: the bytes of the reply
/// - `memory`: the bytes that are sent for want of memory
pub fn told(alloc: Global, asked: &str) -> Result<String> {
    let (verb, rest) = match asked.split_once(" ") {
        Some((verb, rest)) => (verb, rest),
        None => (asked, ""),
    };
    match verb {
        "read" => match bytes_in(alloc, rest)? {
            Some(bytes) => reading::call_or_refusal(alloc, &bytes),
            None => unread(alloc),
        },
        "from" => match bytes_in(alloc, rest)? {
            Some(bytes) => reading::lengths(alloc, &bytes),
            None => unread(alloc),
        },
        "enough" => match bytes_in(alloc, rest)? {
            Some(bytes) => reading::is_enough(alloc, &bytes),
            None => unread(alloc),
        },
        "reply" => reply(alloc, rest),
        "memory" => escaped(alloc, bp_web::NO_MEMORY),
        _ => unread(alloc),
    }
}

fn reply(alloc: Global, asked: &str) -> Result<String> {
    let words: Vec<&str> = asked.split(' ').collect(alloc)?;
    let mut words = Words::over(alloc, words.as_slice());
    let answer = answers::answer_of(alloc, &mut words);
    if !words.is_read() {
        return unread(alloc);
    }
    match bp_web::reply_bytes(alloc, &answer) {
        Ok(bytes) => escaped(alloc, bytes.as_slice()),
        Err(_) => Ok(String::from_str(alloc, "out of memory")?),
    }
}

// What is told of a line that can't be read.
fn unread(alloc: Global) -> Result<String> {
    Ok(String::from_str(alloc, "not read")?)
}
