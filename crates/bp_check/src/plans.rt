// What the load files and the manifest of a volume say.
ghost use Rattle.std.specs.Prelude.{◌≡◌, ◌<◌, ◌+◌, ◌^◌, ◌∷◌, [], length, map, IfErr, IfOk, IfSome};
ghost use Rattle.std.specs.Option.{option_copied, option_map};
ghost use Rattle.bp_check.specs.Check.{lines_at, listing_at, manifest_at, plan_at, check_plan_by, plan_with, table_at};
ghost use Rattle.bp_check.specs.Checking.{StepGives, IsCalmRefusal, ReadsAtMost, after_check_step};
ghost use Rattle.bp_check.specs.Files.{file_there};
ghost use Rattle.bp_check.specs.Seen.{listed_seen, plan_seen};

use crate::columns::are_columns;
use crate::files::{DAT, MANIFEST, OPT, read_file};
use crate::manifest::{ListedFile, read_manifest};
use crate::paths::{Paths, paths_of};
use crate::records::{Record, records_of};
use crate::refusals::ImportRefusal;
use bp_core::{OutOfMemory, Rule, RuleKind, Text};
use bp_load::{Dat, OptList, read_dat, read_opt};
use bp_outside::Source;
use std::alloc::Global;

/// The paths of DAT and OPT, what they say, and what the manifest lists where one is asked for.
#[derive(Drop)]
pub(crate) struct Planned {
    pub(crate) paths: Vec<Text>,
    pub(crate) docs: Vec<Record>,
    pub(crate) lines: OptList,
    pub(crate) listed: Option<Vec<ListedFile>>,
}

/// What the load files and the manifest say, or the first rule that they break by themselves.
pub(crate) fn read_plan<S: Source>(
    alloc: Global,
    source: &mut S,
    dat: &Text,
    opt: &Text,
    manifest: Option<&Text>,
) -> Result<Planned, ImportRefusal>
    ensures told { IfSome (S.shows source.old).files (λ files. StepGives plan_seen result
        (check_plan_by (file_there files)
        (record { dat = dat.now; opt = opt.now; manifest = option_copied manifest.entry }))) }

    // Told or not, lines, records and listed files are few, as the files are short.
    ensures lines { IfOk result (λ plan. length plan.lines + 1 < 2 ^ 32) }
    ensures docs { IfOk result (λ plan. length plan.docs.items + 1 < 2 ^ 32) }
    ensures listed { IfOk result (λ plan.
        IfSome plan.listed (λ rows. length rows.items + 1 < 2 ^ 32)) }
    ensures after { S.shows source.new ≡ after_check_step (S.shows source.old) result }
    ensures reads { ReadsAtMost 3 (S.reads source.old) (S.reads source.new) }
{
    let paths = paths_of(alloc, dat, opt, manifest)?;
    read_paths(alloc, source, paths)
}

// The same of the files at these paths.
fn read_paths<S: Source>(
    alloc: Global,
    source: &mut S,
    paths: Paths,
) -> Result<Planned, ImportRefusal>
    ensures told { IfSome (S.shows source.old).files (λ files. StepGives plan_seen result
        (plan_at (file_there files) paths)) }
    ensures lines { IfOk result (λ plan. length plan.lines + 1 < 2 ^ 32) }
    ensures docs { IfOk result (λ plan. length plan.docs.items + 1 < 2 ^ 32) }
    ensures listed { IfOk result (λ plan.
        IfSome plan.listed (λ rows. length rows.items + 1 < 2 ^ 32)) }
    ensures after { S.shows source.new ≡ after_check_step (S.shows source.old) result }
    ensures reads { ReadsAtMost 3 (S.reads source.old) (S.reads source.new) }
{
    let table = match read_table(alloc, source, &paths.dat) {
        Ok(table) => table,
        Err(refusal) => return Err(refusal),
    };
    let lines = match read_lines(alloc, source, &paths.opt) {
        Ok(lines) => lines,
        Err(refusal) => return Err(refusal),
    };
    let listed = match read_listing(alloc, source, &paths.manifest) {
        Ok(listed) => listed,
        Err(refusal) => return Err(refusal),
    };
    plan_with(alloc, paths, table, lines, listed)
}

// The table of the DAT.
fn read_table<S: Source>(alloc: Global, source: &mut S, path: &Text) -> Result<Dat, ImportRefusal>
    ensures told { IfSome (S.shows source.old).files (λ files.
        StepGives (λ table. table) result (table_at (file_there files) path.now)) }
    ensures few { IfOk result (λ table. length table.rows + 1 < 2 ^ 32) }
    ensures after { S.shows source.new ≡ after_check_step (S.shows source.old) result }
    ensures reads { ReadsAtMost 1 (S.reads source.old) (S.reads source.new) }
{
    let bytes = read_file(alloc, source, DAT, 0, path)?;
    Ok(read_dat(alloc, &bytes)?)
}

// The lines of the OPT.
fn read_lines<S: Source>(
    alloc: Global,
    source: &mut S,
    path: &Text,
) -> Result<OptList, ImportRefusal>
    ensures told { IfSome (S.shows source.old).files (λ files.
        StepGives (λ lines. lines) result (lines_at (file_there files) path.now)) }
    ensures few { IfOk result (λ lines. length lines + 1 < 2 ^ 32) }
    ensures after { S.shows source.new ≡ after_check_step (S.shows source.old) result }
    ensures reads { ReadsAtMost 1 (S.reads source.old) (S.reads source.new) }
{
    let bytes = read_file(alloc, source, OPT, 0, path)?;
    Ok(read_opt(alloc, &bytes)?)
}

// What the manifest lists, where one is asked for.
fn read_listing<S: Source>(
    alloc: Global,
    source: &mut S,
    path: &Option<Text>,
) -> Result<Option<Vec<ListedFile>>, ImportRefusal>
    ensures told { IfSome (S.shows source.old).files (λ files.
        StepGives (λ listed. option_map (λ rows. map listed_seen rows.items) listed) result
        (listing_at (file_there files) path.now)) }
    ensures few { IfOk result (λ listed.
        IfSome listed (λ rows. length rows.items + 1 < 2 ^ 32)) }
    ensures after { S.shows source.new ≡ after_check_step (S.shows source.old) result }
    ensures reads { ReadsAtMost 1 (S.reads source.old) (S.reads source.new) }
{
    match path {
        Some(path) => match read_listed(alloc, source, path) {
            Ok(listed) => Ok(Some(listed)),
            Err(refusal) => Err(refusal),
        },
        None => Ok(None),
    }
}

// What the manifest at a path lists.
fn read_listed<S: Source>(
    alloc: Global,
    source: &mut S,
    path: &Text,
) -> Result<Vec<ListedFile>, ImportRefusal>
    ensures told { IfSome (S.shows source.old).files (λ files.
        StepGives (λ rows. map listed_seen rows.items) result
        (manifest_at (file_there files) path.now)) }
    ensures few { IfOk result (λ rows. length rows.items + 1 < 2 ^ 32) }
    ensures after { S.shows source.new ≡ after_check_step (S.shows source.old) result }
    ensures reads { ReadsAtMost 1 (S.reads source.old) (S.reads source.new) }
{
    let bytes = read_file(alloc, source, MANIFEST, 0, path)?;
    Ok(read_manifest(alloc, &bytes)?)
}

// The columns of the DAT are those of a check.
fn plan_with(
    alloc: Global,
    paths: Paths,
    table: Dat,
    lines: OptList,
    listed: Option<Vec<ListedFile>>,
) -> Result<Planned, ImportRefusal>
    ensures answer { let rows = option_map (λ rows. map listed_seen rows.items) listed in
        StepGives plan_seen result (plan_with paths table lines rows) }
    ensures lines { IfOk result (λ plan. plan.lines ≡ lines) }
    ensures docs { IfOk result (λ plan. length plan.docs.items ≡ length table.rows) }
    ensures listed { IfOk result (λ plan. plan.listed ≡ listed) }
    ensures calm { IfErr result IsCalmRefusal }
{
    let (columns, rows) = table.into_parts();
    if !are_columns(alloc, columns.as_slice())? {
        return Err(ImportRefusal::Rule(Rule::bare(RuleKind::CheckColumns)));
    }
    Ok(Planned {
        docs: records_of(alloc, columns.as_slice(), rows)?,
        paths: load_paths(alloc, paths.dat, paths.opt)?,
        lines,
        listed,
    })
}

// The two paths as a list.
fn load_paths(alloc: Global, dat: Text, opt: Text) -> Result<Vec<Text>, OutOfMemory>
    ensures { IfOk result (λ paths. paths.items ≡ dat ∷ opt ∷ []) }
{
    let mut paths = Vec::with_capacity(alloc, 2)?;
    paths.push(dat)?;
    paths.push(opt)?;
    Ok(paths)
}
