// The command `claw`.
ghost use Rattle.std.specs.Prelude.{◌≡◌, ◌++◌, ◌<◌, ◌^◌, IfOk, IsTrue, OnOk, Some, length};
ghost use Rattle.std.specs.List.{list_all};
ghost use Rattle.std.specs.Option.{option_map};
ghost use Rattle.std.specs.Str.{chars};
ghost use Rattle.bp_claw.specs.Claims.{claim_fits};
ghost use Rattle.bp_freeze.specs.Keeping.{KeepsProduction};
ghost use Rattle.bp_outside.specs.Folder.{FolderView};
ghost use Rattle.bp_outside.specs.Source.{SourceView};
ghost use Rattle.bp_rules.specs.Steps.{AtMostOnce};
ghost use Rattle.bp_cli.specs.Claw.{claw_named, claw_seen, replacement_line};
ghost use Rattle.bp_cli.specs.ClawSteps.{PutsReplacement, ReadsFile, ReplacesAfter};
ghost use Rattle.bp_cli.specs.Commands.{claw, ReadsAndWorks};
ghost use Rattle.bp_cli.specs.Endings.{world};
ghost use Rattle.bp_cli.specs.ProduceSteps.{HasLabels};
ghost use Rattle.bp_cli.specs.Words.{words_lent};

use crate::burn::{FILE_LIMIT, path_named, stop_of_read};
use crate::stops::Stop;
use crate::volumes::{add_labels, add_numbers};
use crate::words::{text_of, word_at};
use bp_claw::{ClawRefusal, Notice, read_notice, replace};
use bp_core::{Bytes, OutOfMemory, Rule, RuleKind, Text};
use bp_freeze::found_is_kept;
use bp_keep::Keeper;
use bp_matter::{Production, Tables};
use bp_outside::{Folder, Source};
use bp_press::Pressed;
use bp_rules::load_tables;
use std::alloc::Global;
use std::convert::From;

/// How many operands claw has.
pub const CLAW_WORDS: usize = 3;

/// Write the replacement of the production of this id as a volume of this name, after a notice.
#[derive(Clone, Copy)]
pub struct ClawLine<'a> {
    pub id: &'a str,
    pub volume: &'a str,
    /// What names the file of the notice.
    pub notice: &'a str,
}

// ---- its line

/// What the operands of `claw ID VOLUME NOTICE` ask.
pub fn claw_in<'a>(operands: &[&'a str]) -> Option<ClawLine<'a>>
    ensures { option_map claw_seen result ≡ claw_named (words_lent operands.now) }
{
    if operands.len() != CLAW_WORDS {
        return None;
    }
    Some(ClawLine {
        id: word_at(operands, 0),
        volume: word_at(operands, 1),
        notice: word_at(operands, 2),
    })
}

// ---- its work

impl From<ClawRefusal> for Stop {
    ghost use Rattle.bp_cli.specs.ClawSteps.{StopsForClaw};

    ghost from_gives = { StopsForClaw };

    fn from(refusal: ClawRefusal) -> Stop {
        match refusal {
            ClawRefusal::Rule(rule) => Stop::Broken(rule),
            ClawRefusal::FolderFault => Stop::FolderFault,
            ClawRefusal::OutOfMemory => Stop::OutOfMemory,
        }
    }
}

/// Puts the replacement of a kept production after a notice, which is a file of the source. The line
/// that tells its labels, how many files it has, and the digest of its manifest.
pub fn claw_volume<S: Source, K: Keeper, F: Folder>(
    alloc: Global,
    asked: &ClawLine<'_>,
    source: &mut S,
    keeper: &mut K,
    folder: &mut F,
) -> Result<Bytes, Stop>
    ensures works { let line = Some (claw (claw_seen asked.now)) in
        let before = world (S.shows source.old) (K.shows keeper.old) (F.shows folder.old) in
        let after = world (S.shows source.new) (K.shows keeper.new) (F.shows folder.new) in
        ReadsAndWorks line before result after }
    ensures reads { AtMostOnce (S.reads source.old) (S.reads source.new) }
{
    found_is_kept();
    let tables = load_tables(alloc, keeper)?;
    tables.know_valid();
    let file = file_named(alloc, asked.notice, source)?;
    let id = text_of(alloc, asked.id)?;
    match tables.production(&id) {
        None => Err(Stop::Broken(Rule::bare(RuleKind::NoProduction))),
        Some(production) => replace_after(
            alloc,
            &tables,
            production,
            asked.volume,
            file.as_slice(),
            folder,
        ),
    }
}

// The bytes of the file that a word names.
fn file_named<S: Source>(alloc: Global, named: &str, source: &mut S) -> Result<Bytes, Stop>
    ensures file { ReadsFile (chars named.now) (S.shows source.old) result (S.shows source.new) }
    ensures few { IfOk result (λ file. length file < 2 ^ 32) }
    ensures reads { AtMostOnce (S.reads source.old) (S.reads source.new) }
{
    let path = path_named(alloc, named)?;
    match source.read(alloc, path.as_str(), FILE_LIMIT) {
        Ok(file) => Ok(Bytes::from_vec(file)),
        Err(refusal) => Err(stop_of_read(refusal)),
    }
}

// Puts the replacement after the notice that these bytes hold.
fn replace_after<F: Folder>(
    alloc: Global,
    tables: &Tables,
    production: &Production,
    volume: &str,
    file: &[u8],
    folder: &mut F,
) -> Result<Bytes, Stop>
    requires kept { KeepsProduction tables.now.matter production.now }
    requires few { length file.now < 2 ^ 32 }
    ensures { ReplacesAfter (chars volume.now) tables.now.matter production.now file.now
        (F.shows folder.old) result (F.shows folder.new) }
{
    let notice = read_notice(alloc, file)?;
    let volume = text_of(alloc, volume)?;
    put_replacement(alloc, tables, production, &volume, &notice, folder)
}

#[tactic(auto, using(crate::proofs::LabelLemmas::kept_labels))]
// Puts the replacement after a notice. The line that is printed of it.
fn put_replacement<F: Folder>(
    alloc: Global,
    tables: &Tables,
    production: &Production,
    volume: &Text,
    notice: &Notice,
    folder: &mut F,
) -> Result<Bytes, Stop>
    requires kept { KeepsProduction tables.now.matter production.now }
    requires fits { IsTrue (list_all claim_fits notice.now) }
    ensures { PutsReplacement volume.now tables.now.matter production.now notice.now
        (F.shows folder.old) result (F.shows folder.new) }
{
    tables.know_valid();
    let pressed = replace(alloc, tables, production, volume, notice, folder)?;
    Ok(replacement_line(alloc, volume, production, pressed)?)
}

// `replacement VOLUME labels FIRST to LAST files N manifest HEX`
fn replacement_line(
    alloc: Global,
    volume: &Text,
    production: &Production,
    pressed: Pressed,
) -> Result<Bytes, OutOfMemory>
    requires { HasLabels production.now }
    ensures { IfOk result (λ line.
        line ≡ replacement_line volume.now production.now pressed) }
{
    let mut line = Vec::new(alloc);
    line.extend_from_slice(b"replacement ")?;
    line.extend_from_slice(volume.as_str().as_bytes())?;
    add_labels(&mut line, production)?;
    add_numbers(alloc, &mut line, pressed)?;
    Ok(Bytes::from_vec(line))
}
