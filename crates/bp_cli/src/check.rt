// The command `check`.
ghost use Rattle.std.specs.Prelude.{◌≡◌, ◌≤◌, IfOk, length};
ghost use Rattle.std.specs.Option.{option_map};
ghost use Rattle.std.specs.Str.{chars};
ghost use Rattle.bp_keep.specs.Keeper.{KeeperView};
ghost use Rattle.bp_outside.specs.Folder.{FolderView};
ghost use Rattle.bp_cli.specs.Words.{words_lent};
ghost use Rattle.bp_cli.specs.Check.{check_named, check_seen, check_with as operands_with, checked_line, texts_seen};
ghost use Rattle.bp_cli.specs.Commands.{check, uses_of, IsOutcome};
ghost use Rattle.bp_cli.specs.Endings.{world, Ends};

use crate::stops::Stop;
use crate::words::{text_of, word_at};
use bp_check::{Checked, ImportRefusal, check_volume};
use bp_core::{Bytes, OutOfMemory, Text};
use bp_outside::Source;
use bp_tiff::one_answer;
use std::alloc::Global;
use std::convert::From;

/// Check the volume whose load files stand at two paths, and the files that its manifest lists where
/// one is named.
#[derive(Clone, Copy)]
pub struct Check<'a> {
    pub dat: &'a str,
    pub opt: &'a str,
    pub manifest: Option<&'a str>,
}

// ---- its line

/// What the operands of `check DAT OPT` or `check DAT OPT MANIFEST` ask.
pub fn check_in<'a>(operands: &[&'a str]) -> Option<Check<'a>>
    ensures { option_map check_seen result ≡ check_named (words_lent operands.now) }
{
    match operands.len() {
        2 => Some(check_with(operands, None)),
        3 => Some(check_with(operands, Some(word_at(operands, 2)))),
        _ => None,
    }
}

fn check_with<'a>(operands: &[&'a str], manifest: Option<&'a str>) -> Check<'a>
    requires { 2 ≤ length operands.now }
    ensures { let texts = option_map (λ word. chars word.now) manifest.entry in
        check_seen result ≡ operands_with (words_lent operands.now) texts }
{
    Check {
        dat: word_at(operands, 0),
        opt: word_at(operands, 1),
        manifest,
    }
}

// ---- its work

/// The operands as texts.
#[derive(Debug, Drop)]
pub struct CheckTexts {
    pub dat: Text,
    pub opt: Text,
    pub manifest: Option<Text>,
}

impl From<ImportRefusal> for Stop {
    ghost use Rattle.bp_cli.specs.Check.{StopsForCheck};

    ghost from_gives = { StopsForCheck };

    fn from(refusal: ImportRefusal) -> Stop {
        match refusal {
            ImportRefusal::Rule(rule) => Stop::Broken(rule),
            ImportRefusal::SourceFault => Stop::SourceFault,
            ImportRefusal::OutOfMemory => Stop::OutOfMemory,
        }
    }
}

/// Checks a volume of the source. The line that tells how many documents, images and listed files it
/// has.
pub fn check_files<S: Source>(
    alloc: Global,
    asked: &Check<'_>,
    source: &mut S,
) -> Result<Bytes, Stop>
    ensures { (keeper : KeeperView) (folder : FolderView)
        → let line = check (check_seen asked.now) in
        let before = world (S.shows source.old) keeper folder in
        let after = world (S.shows source.new) keeper folder in
        Ends (uses_of line) (IsOutcome line before) before result after }
{
    one_answer();
    let texts = texts_of(alloc, asked)?;
    let manifest = texts.manifest.as_ref();
    let checked = check_volume(alloc, source, &texts.dat, &texts.opt, manifest)?;
    Ok(line_of_counts(alloc, checked)?)
}

fn texts_of(alloc: Global, asked: &Check<'_>) -> Result<CheckTexts, OutOfMemory>
    ensures { IfOk result (λ texts. texts_seen texts ≡ check_seen asked.now) }
{
    let dat = text_of(alloc, asked.dat)?;
    let opt = text_of(alloc, asked.opt)?;
    let manifest = text_in(alloc, asked.manifest)?;
    Ok(CheckTexts { dat, opt, manifest })
}

fn text_in(alloc: Global, word: Option<&str>) -> Result<Option<Text>, OutOfMemory>
    ensures { IfOk result (λ text. text ≡ option_map (λ named. chars named.now) word.entry) }
{
    match word {
        Some(word) => Ok(Some(text_of(alloc, word)?)),
        None => Ok(None),
    }
}

// `checked documents N images N files N`
fn line_of_counts(alloc: Global, checked: Checked) -> Result<Bytes, OutOfMemory>
    ensures { IfOk result (λ line. line ≡ checked_line checked) }
{
    let Checked {
        documents,
        images,
        files,
    } = checked;
    let line = format!(in alloc; "checked documents {documents} images {images} files {files}\n")?;
    Ok(Bytes::from_vec(line.into_bytes()))
}
