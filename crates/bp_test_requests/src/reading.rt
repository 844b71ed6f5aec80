// What bytes are read as, and how many of them are enough.
use crate::calls::add_call;
use anyhow::Result;
use bp_web::{Asked, WebRefusal, enough, read_request, whole_length};
use std::alloc::Global;

// How many bytes of a key are told.
const TOLD_OF_KEY: usize = 4;

/// The first digits of the key and the call, or the refusal.
pub fn call_or_refusal(alloc: Global, bytes: &[u8]) -> Result<String> {
    match read_request(alloc, bytes) {
        Ok(asked) => of_asked(alloc, &asked),
        Err(refusal) => Ok(String::from_str(alloc, name_of(refusal))?),
    }
}

fn of_asked(alloc: Global, asked: &Asked) -> Result<String> {
    let mut text = String::new(alloc);
    for byte in asked.key.iter().take(TOLD_OF_KEY) {
        let byte = *byte;
        write!(text, "{byte:02x}")?;
    }
    add_call(alloc, &mut text, &asked.call)?;
    Ok(text)
}

fn name_of(refusal: WebRefusal) -> &'static str {
    match refusal {
        WebRefusal::HeadRefused => "HeadRefused",
        WebRefusal::NoRoute => "NoRoute",
        WebRefusal::KeyMissing => "KeyMissing",
        WebRefusal::BodyLimit => "BodyLimit",
        WebRefusal::BodyRefused => "BodyRefused",
        WebRefusal::OutOfMemory => "OutOfMemory",
    }
}

/// Whether they are enough.
pub fn is_enough(alloc: Global, bytes: &[u8]) -> Result<String> {
    Ok(String::from_str(alloc, if enough(bytes) { "yes" } else { "no" })?)
}

/// The first bytes of which `whole_length` tells a length, that length, and the first bytes that
/// `enough` takes. From each on it stays so: otherwise that is told.
pub fn lengths(alloc: Global, bytes: &[u8]) -> Result<String> {
    let mut known = None;
    let mut taken = None;
    for count in 0..=bytes.len() {
        let start = &bytes[..count];
        let told = whole_length(start);
        if known.is_none() && told.is_some() {
            known = Some((count, told.unwrap_or(0)));
        }
        if taken.is_none() && enough(start) {
            taken = Some(count);
        }
        if taken.is_some() && !enough(start) {
            return Ok(format!(in alloc; "unsteady at {count}")?);
        }
    }
    let mut text = String::new(alloc);
    match known {
        Some((count, length)) => write!(text, "{count} tell {length}")?,
        None => text.push_str("none tells")?,
    }
    match taken {
        Some(count) => write!(text, ", {count} are enough")?,
        None => text.push_str(", none is enough")?,
    }
    Ok(text)
}
