// Paths of files below a folder.
ghost use Rattle.std.specs.Prelude.{◌≡◌, ◌==◌, None, Err, IfOk, not, filter, map, encode_utf8_all};
ghost use Rattle.std.specs.List.{slice_split, list_any, list_all, join_with_byte};
ghost use Rattle.std.specs.Option.{ok_or};
ghost use Rattle.std.specs.Str.{chars};
ghost use Rattle.std.specs.String.{string_bytes};
ghost use Rattle.bp_core.specs.Answers.{Answers};
ghost use Rattle.bp_core.specs.Characters.{colon, solidus};
ghost use Rattle.bp_core.specs.Paths.{is_slash, is_dot, is_refused_part, path_parts, is_path, path_in, with_solidus};
ghost use Rattle.bp_core.specs.Rules.{bare_rule};

use crate::refusals::{OutOfMemory, Refusal};
use crate::rules::RuleKind;
use crate::texts::Text;
use std::alloc::{AllocError, Global};

/// The path that a text names: each `\` turned to `/`, and the parts that are `.` dropped, so that
/// `.\a\b.tif` names `a/b.tif`. PathRefused where that is empty, begins with `/`, holds `:`, or has
/// an empty or `..` part.
pub fn path_of(alloc: Global, text: &str) -> Result<Text, Refusal>
    ensures answer { let named = path_in (chars text.now) in
        Answers (λ path. path) result (ok_or named (bare_rule RuleKind.PathRefused)) }

    // A refused text takes no memory.
    ensures refused { path_in (chars text.now) ≡ None
        → result ≡ Err (Refusal.Rule (bare_rule RuleKind.PathRefused)) }
{
    if !is_path(text) {
        return Err(Refusal::bare(RuleKind::PathRefused));
    }
    Ok(joined_parts(alloc, text)?)
}

fn is_path(text: &str) -> bool
    ensures { result ≡ is_path (chars text.now) }
{
    let bytes = text.as_bytes();
    !has_colon(text) && !has_refused_part(bytes) && !are_dots(bytes)
}

fn has_colon(text: &str) -> bool
    ensures { result ≡ list_any (λ c. c == colon) (chars text.now) }
{
    text.chars().any(|c| c == ':')
}

fn has_refused_part(bytes: &[u8]) -> bool
    ensures { result ≡ list_any is_refused_part (slice_split is_slash bytes.now) }
{
    bytes
        .split(|byte| is_slash(*byte))
        .any(|part| part.is_empty() || part == b"..".as_slice())
}

fn are_dots(bytes: &[u8]) -> bool
    ensures { result ≡ list_all is_dot (slice_split is_slash bytes.now) }
{
    bytes
        .split(|byte| is_slash(*byte))
        .all(|part| part == b".".as_slice())
}

fn is_slash(byte: u8) -> bool
    ensures { result ≡ is_slash byte }
{
    byte == b'/' || byte == b'\\'
}

// The parts that are not `.`, with a solidus between.
fn joined_parts(alloc: Global, text: &str) -> Result<Text, OutOfMemory>
    ensures { IfOk result (λ path. path ≡ join_with_byte solidus (path_parts (chars text.now))) }
{
    let slashed = with_solidi(alloc, text)?;
    let parts = parts_kept(alloc, slashed.as_str())?;
    Ok(Text::from_string(parts.as_slice().join(alloc, "/")?))
}

// The parts between solidi that are not `.`.
fn parts_kept(alloc: Global, text: &str) -> Result<Vec<&str>, AllocError>
    ensures { let parts = slice_split (λ c. c == solidus) text.now in
        let kept = filter (λ part. not (is_dot part)) parts in
        IfOk result (λ found. map (λ part. part.now) found.items ≡ kept) }
{
    text.split('/').filter(|part| *part != ".").collect(alloc)
}

fn with_solidi(alloc: Global, text: &str) -> Result<String, AllocError>
    ensures { let turned = map with_solidus (chars text.now) in
        IfOk result (λ copied. string_bytes copied ≡ encode_utf8_all turned) }
{
    text.chars().map(|c| with_solidus(c)).collect(alloc)
}

fn with_solidus(c: char) -> char
    ensures { result ≡ with_solidus c }
{
    if c == '\\' { '/' } else { c }
}
