// What a manifest lists, held against the files of the volume.
ghost use Rattle.std.specs.Prelude.{◌≡◌, ◌<◌, ◌+◌, ◌^◌, length, map, IfErr, IfOk, IfSome};
ghost use Rattle.std.specs.Str.{bytes_eq};
ghost use Rattle.bp_check.specs.Checking.{StepGives, IsCalmRefusal, ReadsAtMost, after_check_step};
ghost use Rattle.bp_check.specs.Files.{file_there};
ghost use Rattle.bp_core.specs.Answers.{Answers};
ghost use Rattle.bp_core.specs.Rules.{rule_at_line};
ghost use Rattle.bp_core.specs.declared.rules.RuleKind.TheVariants.{DigestDiffers};
ghost use Rattle.bp_check.specs.ListedPaths.{Knows};
ghost use Rattle.bp_check.specs.Listing.{digest_at, digest_text, digests_of, listed_all};
ghost use Rattle.bp_check.specs.Seen.{listed_seen};
ghost use Rattle.bp_check.specs.Steps.{must_pass};

use crate::files::{LISTED, read_file};
use crate::manifest::ListedFile;
use crate::refusals::ImportRefusal;
use bp_core::{OutOfMemory, Refusal, Rule, RuleKind, Text};
use bp_outside::Source;
use sha2::{Digest, Sha256};
use std::alloc::Global;
use std::collections::BTreeSet;

/// Tests that each path is listed. NotListed with the place of the first that isn't, from 0.
pub(crate) fn all_listed(
    alloc: Global,
    listed: &[ListedFile],
    paths: &[Text],
) -> Result<(), Refusal>
    ensures { Answers (λ _. tt) result (listed_all (map listed_seen listed.now) 0 paths.now) }
{
    let known = listed_paths(alloc, listed)?;
    let mut place: usize = 0;
    for path in paths {
        if !known.contains(path.as_str()) {
            return Err(Refusal::Rule(Rule::not_listed(place as u64)));
        }
        place += 1;
    }
    Ok(())
}

// The set of the listed paths, so that each path is looked up and not looked for.
fn listed_paths(alloc: Global, listed: &[ListedFile]) -> Result<BTreeSet<&str>, OutOfMemory>
    ensures { IfOk result (λ known. Knows known (map listed_seen listed.now)) }
{
    let mut known = BTreeSet::new(alloc);
    for file in listed {
        known.insert(file.path.as_str())?;
    }
    Ok(known)
}

/// Tests that each listed file is there and has its digest. What `read_file` refuses, or DigestDiffers;
/// each with the line of the manifest, from 1. A file is let go before the next is read.
pub(crate) fn digests_hold<S: Source>(
    alloc: Global,
    source: &mut S,
    listed: &[ListedFile],
) -> Result<(), ImportRefusal>
    requires { length listed.now + 1 < 2 ^ 32 }
    ensures told { IfSome (S.shows source.old).files (λ files. StepGives (λ _. tt) result
        (digests_of (file_there files) (map listed_seen listed.now))) }
    ensures after { S.shows source.new ≡ after_check_step (S.shows source.old) result }
    ensures reads { ReadsAtMost (length listed.now) (S.reads source.old) (S.reads source.new) }
{
    let mut number = 0;
    let mut rest = listed;
    while let Some((file, others)) = rest.split_first() {
        number += 1;
        match check_listed(alloc, source, file, number) {
            Ok(()) => {}
            Err(refusal) => return Err(refusal),
        }
        rest = others;
    }
    Ok(())
}

// The file that line `number` lists is there, and has its digest.
fn check_listed<S: Source>(
    alloc: Global,
    source: &mut S,
    file: &ListedFile,
    number: u32,
) -> Result<(), ImportRefusal>
    ensures told { IfSome (S.shows source.old).files (λ files. StepGives (λ _. tt) result
        (digest_at digest_text (file_there files) number (listed_seen file.now))) }
    ensures after { S.shows source.new ≡ after_check_step (S.shows source.old) result }
    ensures reads { ReadsAtMost 1 (S.reads source.old) (S.reads source.new) }
{
    let bytes = read_file(alloc, source, LISTED, number, &file.path)?;
    check_digest(&bytes, &file.digest, number)
}

// Bytes have the digest that line `number` lists.
fn check_digest(bytes: &[u8], digest: &[u8; 64], number: u32) -> Result<(), ImportRefusal>
    ensures answer { StepGives (λ _. tt) result
        (must_pass (bytes_eq digest.now (digest_text bytes.now))
        (rule_at_line DigestDiffers number)) }
    ensures calm { IfErr result IsCalmRefusal }
{
    if digest_text(bytes) == *digest {
        Ok(())
    } else {
        Err(ImportRefusal::Rule(Rule::at_line(RuleKind::DigestDiffers, number)))
    }
}

// The SHA-256 of bytes in lower case hex.
fn digest_text(bytes: &[u8]) -> [u8; 64]
    ensures { result ≡ digest_text bytes.now }
{
    let mut hex = [0; 64];
    if hex::encode_to_slice(Sha256::digest(bytes), &mut hex).is_err() {
        unreachable!();
    }
    hex
}
