// Puts as an import and calls make them, by the name of their mix: `small` rows of a key and a few
// bytes, `large` ones with a strip of 20 KB, and `letters`, of which seven are a document, the strips
// of its three letter pages and their words.
use anyhow::{Result, bail};
use bp_core::{Bytes, Put, PutList};
use std::alloc::{AllocError, Global};

/// So many puts, whose keys are those of this commit alone.
pub fn puts_of(alloc: Global, mix: &str, commit: u32, count: u32) -> Result<PutList> {
    let mut puts = Vec::new(alloc);
    for at in 0..count {
        let (kind, length) = row_of(mix, at)?;
        puts.push(put_of(alloc, kind, commit, at, length)?)?;
    }
    Ok(PutList::from_vec(puts))
}

// The kind of a row and the length of its body.
fn row_of(mix: &str, at: u32) -> Result<(u8, usize)> {
    match mix {
        "small" => Ok((5, 40)),
        "large" => Ok((4, 20_000)),
        "letters" => Ok(letter_row(at % 7)),
        other => bail!("no mix {other}"),
    }
}

fn letter_row(place: u32) -> (u8, usize) {
    match place {
        0 => (3, 60),
        1..=3 => (4, 31_000),
        _ => (12, 9_600),
    }
}

fn put_of(alloc: Global, kind: u8, k1: u32, k2: u32, length: usize) -> Result<Put, AllocError> {
    let body = vec![in alloc; kind; length]?;
    let body = Some(Bytes::from_vec(body));
    Ok(Put { kind, k1, k2, body })
}
