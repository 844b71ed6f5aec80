// What is known of a batch before its images are read.
ghost use Rattle.std.specs.Prelude.{◌≡◌, ◌<◌, ◌+◌, ◌^◌, length, IfErr, IfOk, IfSome};
ghost use Rattle.std.specs.Str.{chars};
ghost use Rattle.bp_load.specs.Opt.{opt_of};
ghost use Rattle.bp_text.specs.WordFiles.{words_of};
ghost use Rattle.bp_import.specs.Batch.{plan_of};
ghost use Rattle.bp_import.specs.Columns.{tested_table};
ghost use Rattle.bp_import.specs.Files.{below, dat_path, batch_file_at, opt_path, words_path};
ghost use Rattle.bp_import.specs.Importing.{after_step};
ghost use Rattle.bp_import.specs.Planned.{IsPlaced, IsPlanned, PlanReads, PlanRefuses, TakesFile, placing_of, file_said_at};

use crate::breaks::places_by_breaks;
use crate::digest::FilesDigest;
use crate::families::parents_of;
use crate::files::{DAT, OPT, WORDS, path_below, read_file};
use crate::records::{Record, fields_of, records_of};
use crate::refusals::ImportRefusal;
use crate::tables::read_table;
use crate::word_pages::places_of;
use bp_core::{Rule, RuleKind, Text, TextList};
use bp_load::{Dat, OptLine, OptList, read_opt};
use bp_matter::texts::is_batch_name;
use bp_outside::Source;
use bp_text::{WordRows, read_words};
use std::alloc::Global;

/// The families of the documents, and the words with the places of their lines, from 0.
#[derive(Drop)]
pub(crate) struct Placed {
    pub(crate) parents: Vec<u32>,
    pub(crate) words: WordRows,
    pub(crate) places: Vec<usize>,
}

/// What the DAT, the OPT and the words file of a batch say.
#[derive(Drop)]
pub(crate) struct Planned {
    pub(crate) fields: TextList,
    pub(crate) docs: Vec<Record>,
    pub(crate) lines: OptList,
    pub(crate) placed: Placed,
    /// It has taken the three files.
    pub(crate) digest: FilesDigest,
}

/// What the three files of the folder `name` say, or the first rule that it breaks before its
/// images.
pub(crate) fn read_plan<S: Source>(
    alloc: Global,
    source: &mut S,
    name: &Text,
) -> Result<Planned, ImportRefusal>
    ensures planned { IfOk result (IsPlanned (S.shows source.old).files name.now) }
    ensures refused { IfErr result (λ refusal. IfSome (S.shows source.old).files (λ files.
        PlanRefuses refusal (plan_of files name.now))) }
    ensures after { S.shows source.new ≡ after_step (S.shows source.old) result }
{
    if !is_batch_name(name) {
        return Err(ImportRefusal::Rule(Rule::bare(RuleKind::PathRefused)));
    }
    let mut digest = FilesDigest::new();
    let dat = read_dat_file(alloc, source, name, &mut digest)?;
    let lines = read_opt_file(alloc, source, name, &mut digest)?;
    let (columns, rows) = dat.into_parts();
    let docs = records_of(alloc, columns.as_slice(), rows)?;
    let placed = read_placed(alloc, source, name, &docs, lines.as_slice(), &mut digest)?;
    Ok(Planned {
        fields: fields_of(columns),
        docs,
        lines,
        placed,
        digest,
    })
}

// The table of the DAT file.
fn read_dat_file<S: Source>(
    alloc: Global,
    source: &mut S,
    name: &Text,
    digest: &mut FilesDigest,
) -> Result<Dat, ImportRefusal>
    ensures read { IfOk result (λ dat. PlanReads tested_table (S.shows source.old).files
        (dat_path name.now) DAT digest.old digest.new dat) }
    ensures refused { IfErr result (λ refusal. IfSome (S.shows source.old).files (λ files.
        PlanRefuses refusal (file_said_at tested_table files (dat_path name.now) DAT))) }
    ensures after { S.shows source.new ≡ after_step (S.shows source.old) result }
{
    let bytes = take_file(alloc, source, name, "load.dat", DAT, digest)?;
    Ok(read_table(alloc, &bytes)?)
}

// The lines of the OPT file.
fn read_opt_file<S: Source>(
    alloc: Global,
    source: &mut S,
    name: &Text,
    digest: &mut FilesDigest,
) -> Result<OptList, ImportRefusal>
    ensures read { IfOk result (λ lines. PlanReads opt_of (S.shows source.old).files
        (opt_path name.now) OPT digest.old digest.new lines) }
    ensures refused { IfErr result (λ refusal. IfSome (S.shows source.old).files (λ files.
        PlanRefuses refusal (file_said_at opt_of files (opt_path name.now) OPT))) }
    ensures after { S.shows source.new ≡ after_step (S.shows source.old) result }
{
    let bytes = take_file(alloc, source, name, "load.opt", OPT, digest)?;
    Ok(read_opt(alloc, &bytes)?)
}

// The records of the words file.
fn read_words_file<S: Source>(
    alloc: Global,
    source: &mut S,
    name: &Text,
    digest: &mut FilesDigest,
) -> Result<WordRows, ImportRefusal>
    ensures read { IfOk result (λ words. PlanReads words_of (S.shows source.old).files
        (words_path name.now) WORDS digest.old digest.new words) }
    ensures refused { IfErr result (λ refusal. IfSome (S.shows source.old).files (λ files.
        PlanRefuses refusal (file_said_at words_of files (words_path name.now) WORDS))) }
    ensures after { S.shows source.new ≡ after_step (S.shows source.old) result }
{
    let bytes = take_file(alloc, source, name, "words.csv", WORDS, digest)?;
    Ok(read_words(alloc, &bytes)?)
}

// The families of the documents and the lines of the words, in the order of their rules.
fn read_placed<S: Source>(
    alloc: Global,
    source: &mut S,
    name: &Text,
    docs: &[Record],
    lines: &[OptLine],
    digest: &mut FilesDigest,
) -> Result<Placed, ImportRefusal>
    requires lines { length lines.now + 1 < 2 ^ 32 }
    requires docs { length docs.now < 2 ^ 32 }
    ensures placed { IfOk result (IsPlaced (S.shows source.old).files name.now docs.now lines.now
        digest.old digest.new) }
    ensures refused { IfErr result (λ refusal. IfSome (S.shows source.old).files (λ files.
        PlanRefuses refusal (placing_of files name.now docs.now lines.now))) }
    ensures after { S.shows source.new ≡ after_step (S.shows source.old) result }
{
    let found = places_by_breaks(alloc, docs, lines)?;
    let parents = parents_of(alloc, docs)?;
    let words = read_words_file(alloc, source, name, digest)?;
    let places = places_of(alloc, &found, words.as_slice())?;
    Ok(Placed {
        parents,
        words,
        places,
    })
}

// The bytes of one of the three files, which the digest takes.
fn take_file<S: Source>(
    alloc: Global,
    source: &mut S,
    name: &Text,
    file: &str,
    which: u64,
    digest: &mut FilesDigest,
) -> Result<Vec<u8>, ImportRefusal>
    ensures taken { IfOk result (λ bytes. TakesFile (S.shows source.old).files
        (below name.now (chars file.now)) which digest.old digest.new bytes.items) }
    ensures refused { IfErr result (λ refusal. IfSome (S.shows source.old).files (λ files.
        PlanRefuses refusal (batch_file_at files (below name.now (chars file.now)) which 0))) }
    ensures after { S.shows source.new ≡ after_step (S.shows source.old) result }
{
    let path = path_below(alloc, name, file)?;
    let bytes = read_file(alloc, source, &path, which, 0)?;
    digest.take(&bytes);
    Ok(bytes)
}
