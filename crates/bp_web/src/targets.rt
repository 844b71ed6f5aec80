//! The target of a request, and what stands in its parts.
ghost use Rattle.std.specs.Prelude.{◌≡◌, IfOk, drop};
ghost use Rattle.bp_web.specs.Calls.{target_characters, doc_in as doc_spec, fourth_part as fourth, name_in as name_spec, next_part as next, page_in as page_spec, second_part as second};

use crate::routes::split_part;
use bp_core::{DocNo, OutOfMemory, PageNo, Text, number_in};
use std::alloc::Global;

/// A target without its first byte.
pub fn skip_one(target: &[u8]) -> &[u8]
    ensures { result.now ≡ drop 1 target.now }
{
    match target.split_first() {
        Some((_, rest)) => rest,
        None => target,
    }
}

/// What stands in a target from its next slash on.
pub fn next_part(target: &[u8]) -> &[u8]
    ensures { result.now ≡ next target.now }
{
    let (_, rest) = split_part(skip_one(target));
    rest
}

fn second_part(target: &[u8]) -> &[u8]
    ensures { result.now ≡ second target.now }
{
    let (part, _) = split_part(skip_one(next_part(target)));
    part
}

fn fourth_part(target: &[u8]) -> &[u8]
    ensures { result.now ≡ fourth target.now }
{
    second_part(next_part(next_part(target)))
}

pub(crate) fn doc_in(target: &[u8]) -> Option<DocNo>
    ensures { result ≡ doc_spec target.now }
{
    let number = number_in(second_part(target))?;
    Some(DocNo(number))
}

pub(crate) fn page_in(target: &[u8]) -> Option<PageNo>
    ensures { result ≡ page_spec target.now }
{
    let number = number_in(fourth_part(target))?;
    Some(PageNo(number))
}

/// The name in the second part of a target, where it is UTF-8. No percent sign is decoded.
pub fn name_in(alloc: Global, target: &[u8]) -> Result<Option<Text>, OutOfMemory>
    ensures { IfOk result (λ found. found ≡ name_spec target.now) }
{
    text_of(alloc, second_part(target))
}

/// These bytes of a target as a text, where they are UTF-8.
pub fn text_of(alloc: Global, bytes: &[u8]) -> Result<Option<Text>, OutOfMemory>
    ensures { IfOk result (λ found. found ≡ target_characters bytes.now) }
{
    match std::str::from_utf8(bytes) {
        Ok(text) => Ok(Some(Text::from_string(String::from_str(alloc, text)?))),
        Err(_) => Ok(None),
    }
}
