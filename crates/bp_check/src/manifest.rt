// The manifest of a volume: a line a file, its digest and its path.
ghost use Rattle.std.specs.Prelude.{◌≡◌, ◌<◌, ◌^◌, ◌+◌, ◌∷◌, [], length, map, IfSome, MatchOption};
ghost use Rattle.std.specs.List.{list_all};
ghost use Rattle.std.specs.Option.{ok_or};
ghost use Rattle.std.specs.Str.{chars};
ghost use Rattle.bp_core.specs.Answers.{Answers};
ghost use Rattle.bp_core.specs.Rules.{rule_at_line};
ghost use Rattle.bp_check.specs.Manifest.{between_newlines, is_lower_hex, listed_at, listed_behind, listed_in, listed_named, listed_files};
ghost use Rattle.bp_check.specs.Seen.{listed_seen};

use bp_core::{Refusal, Rule, RuleKind, Text, path_of};
use std::alloc::Global;

/// A file that a manifest lists.
#[derive(Debug, Drop)]
pub(crate) struct ListedFile {
    /// Its SHA-256, as 64 characters of 0-9 and a-f.
    pub(crate) digest: [u8; 64],
    pub(crate) path: Text,
}

/// The files that a manifest lists. ManifestShape with the first line, from 1, that isn't 64
/// characters of 0-9 and a-f, two spaces, a path and LF, in UTF-8.
pub(crate) fn read_manifest(alloc: Global, bytes: &[u8]) -> Result<Vec<ListedFile>, Refusal>
    requires { length bytes.now + 1 < 2 ^ 32 }
    ensures { Answers (λ rows. map listed_seen rows.items) result (listed_files bytes.now) }
{
    let mut listed = Vec::new(alloc);
    let mut number = 0;
    let mut rest = bytes;
    while !rest.is_empty() {
        number += 1;
        let Some((line, after)) = first_line(rest) else {
            return Err(manifest_shape(number));
        };
        let file = match listed_in(alloc, line, number) {
            Ok(file) => file,
            Err(refusal) => return Err(refusal),
        };
        listed.push(file)?;
        rest = after;
    }
    Ok(listed)
}

fn manifest_shape(line: u32) -> Refusal
    ensures { result ≡ Refusal.Rule (rule_at_line RuleKind.ManifestShape line) }
{
    Refusal::Rule(Rule::at_line(RuleKind::ManifestShape, line))
}

// The first line without its LF, and what follows that; nothing where there is no LF.
fn first_line(bytes: &[u8]) -> Option<(&[u8], &[u8])>
    ensures line { MatchOption result (between_newlines bytes.now ≡ bytes.now ∷ [])
        (λ found. between_newlines bytes.now ≡ found.0.now ∷ between_newlines found.1.now) }
    ensures shorter { IfSome result (λ found. length found.1.now < length bytes.now) }
{
    match bytes.iter().position(|byte| *byte == b'\n') {
        None => None,
        Some(end) => Some((&bytes[..end], &bytes[end + 1..])),
    }
}

// What a line without its end lists.
fn listed_in(alloc: Global, line: &[u8], number: u32) -> Result<ListedFile, Refusal>
    ensures { let rule = rule_at_line RuleKind.ManifestShape number in
        Answers listed_seen result (ok_or (listed_in line.now) rule) }
{
    let Some((digest, rest)) = line.split_first_chunk::<64>() else {
        return Err(manifest_shape(number));
    };
    if !is_digest(digest.as_slice()) {
        return Err(manifest_shape(number));
    }
    listed_behind(alloc, digest, rest, number)
}

// Two spaces stand behind the digest, and a path.
fn listed_behind(
    alloc: Global,
    digest: &[u8; 64],
    rest: &[u8],
    number: u32,
) -> Result<ListedFile, Refusal>
    ensures { let rule = rule_at_line RuleKind.ManifestShape number in
        Answers listed_seen result (ok_or (listed_behind digest.now rest.now) rule) }
{
    match rest.strip_prefix(b"  ") {
        Some(path) => listed_named(alloc, digest, path, number),
        None => Err(manifest_shape(number)),
    }
}

// The path is UTF-8, and allowed.
fn listed_named(
    alloc: Global,
    digest: &[u8; 64],
    path: &[u8],
    number: u32,
) -> Result<ListedFile, Refusal>
    ensures { let rule = rule_at_line RuleKind.ManifestShape number in
        Answers listed_seen result (ok_or (listed_named digest.now path.now) rule) }
{
    match str::from_utf8(path) {
        Ok(path) => listed_at(alloc, digest, path, number),
        Err(_) => Err(manifest_shape(number)),
    }
}

fn listed_at(
    alloc: Global,
    digest: &[u8; 64],
    path: &str,
    number: u32,
) -> Result<ListedFile, Refusal>
    ensures { let rule = rule_at_line RuleKind.ManifestShape number in
        Answers listed_seen result (ok_or (listed_at digest.now (chars path.now)) rule) }
{
    match path_of(alloc, path) {
        Ok(path) => Ok(ListedFile {
            digest: *digest,
            path,
        }),
        Err(Refusal::Rule(_)) => Err(manifest_shape(number)),
        Err(Refusal::OutOfMemory) => Err(Refusal::OutOfMemory),
    }
}

fn is_digest(digest: &[u8]) -> bool
    ensures { result ≡ list_all is_lower_hex digest.now }
{
    digest.iter().all(|byte| is_lower_hex(*byte))
}

fn is_lower_hex(byte: u8) -> bool
    ensures { result ≡ is_lower_hex byte }
{
    matches!(byte, b'0'..=b'9' | b'a'..=b'f')
}
