// The check of a volume.
ghost use Rattle.std.specs.Prelude.{◌≡◌, ◌<◌, ◌+◌, ◌++◌, ◌^◌, length, map, IfOk, IfSome};
ghost use Rattle.std.specs.Option.{option_copied, option_map};
ghost use Rattle.bp_core.specs.Answers.{Answers};
ghost use Rattle.bp_check.specs.Check.{agrees, checked_by, files_by, listing_by};
ghost use Rattle.bp_check.specs.Checking.{ChecksAs, StepGives, ReadsAtMost, after_check_step};
ghost use Rattle.bp_check.specs.Files.{file_there};
ghost use Rattle.bp_check.specs.Images.{IsTiff, Judging};
ghost use Rattle.bp_check.specs.Listing.{digest_text};
ghost use Rattle.bp_check.specs.Seen.{listed_seen, plan_seen};

use crate::breaks::breaks_fit;
use crate::checked::Checked;
use crate::counts::counts_hold;
use crate::images::{check_images, check_texts};
use crate::labels::labels_follow;
use crate::listing::{all_listed, digests_hold};
use crate::manifest::ListedFile;
use crate::plans::{Planned, read_plan};
use crate::records::Record;
use crate::refusals::ImportRefusal;
use bp_core::{Refusal, Text};
use bp_load::OptLine;
use bp_outside::Source;
use std::alloc::Global;

/// Checks the volume that the load files at `dat` and `opt` describe, and where one is asked for the
/// files that the manifest lists. The first rule that is broken, in the order of `check_by`;
/// SourceFault where a read failed. Each file is judged and let go before the next is read.
///
///     let checked = check_volume(alloc, &mut source, &dat, &opt, Some(&manifest))?;
pub fn check_volume<S: Source>(
    alloc: Global,
    source: &mut S,
    dat: &Text,
    opt: &Text,
    manifest: Option<&Text>,
) -> Result<Checked, ImportRefusal>
    // Over told files it is the defined answer.
    ensures told { IfSome (S.shows source.old).files (λ files. ChecksAs files
        (record { dat = dat.now; opt = opt.now; manifest = option_copied manifest.entry }) result) }

    // Of the source the count of the refusal's own cause alone rises.
    ensures after { S.shows source.new ≡ after_check_step (S.shows source.old) result }

    // Each file is read once for each time that it is named.
    ensures reads { IfOk result (λ checked. ReadsAtMost
        (3 + checked.images + checked.documents + checked.files)
        (S.reads source.old) (S.reads source.new)) }
{
    let plan = read_plan(alloc, source, dat, opt, manifest)?;
    check_planned(alloc, source, plan)
}

// Checks a volume whose load files are read.
fn check_planned<S: Source>(
    alloc: Global,
    source: &mut S,
    plan: Planned,
) -> Result<Checked, ImportRefusal>
    requires lines { length plan.lines + 1 < 2 ^ 32 }
    requires docs { length plan.docs.items + 1 < 2 ^ 32 }
    requires listed { IfSome plan.listed (λ rows. length rows.items + 1 < 2 ^ 32) }
    ensures told { IfSome (S.shows source.old).files (λ files. (tiff : Judging) → IsTiff tiff
        → StepGives (λ checked. checked) result
        (checked_by digest_text (file_there files) tiff (plan_seen plan))) }
    ensures after { S.shows source.new ≡ after_check_step (S.shows source.old) result }
    ensures reads { IfOk result (λ checked. ReadsAtMost
        (checked.images + checked.documents + checked.files)
        (S.reads source.old) (S.reads source.new)) }
{
    agree(alloc, &plan.docs, plan.lines.as_slice())?;
    let documents = plan.docs.len() as u32;
    let images = plan.lines.len() as u32;
    let files = check_files(alloc, source, plan)?;
    Ok(Checked {
        documents,
        images,
        files,
    })
}

// The load files go together. What `labels_follow`, `breaks_fit` and `counts_hold` refuse.
fn agree(alloc: Global, docs: &[Record], lines: &[OptLine]) -> Result<(), Refusal>
    requires { length lines.now + 1 < 2 ^ 32 }
    ensures { Answers (λ _. tt) result (agrees docs.now lines.now) }
{
    labels_follow(lines)?;
    breaks_fit(docs, lines)?;
    counts_hold(alloc, docs, lines)
}

// The files that are named are there and whole; how many the manifest lists.
fn check_files<S: Source>(
    alloc: Global,
    source: &mut S,
    plan: Planned,
) -> Result<u32, ImportRefusal>
    requires lines { length plan.lines + 1 < 2 ^ 32 }
    requires docs { length plan.docs.items + 1 < 2 ^ 32 }
    requires listed { IfSome plan.listed (λ rows. length rows.items + 1 < 2 ^ 32) }
    ensures told { IfSome (S.shows source.old).files (λ files. (tiff : Judging) → IsTiff tiff
        → StepGives (λ count. count) result
        (files_by digest_text (file_there files) tiff (plan_seen plan))) }
    ensures after { S.shows source.new ≡ after_check_step (S.shows source.old) result }
    ensures reads { IfOk result (λ count. ReadsAtMost
        (length plan.lines + length plan.docs.items + count)
        (S.reads source.old) (S.reads source.new)) }
{
    let Planned {
        paths,
        docs,
        lines,
        listed,
    } = plan;
    let paths = check_images(alloc, source, lines.as_slice(), paths)?;
    let paths = check_texts(alloc, source, &docs, paths)?;
    check_listing(alloc, source, listed, &paths)
}

// All paths are listed, and each listed file has its digest; how many are listed.
fn check_listing<S: Source>(
    alloc: Global,
    source: &mut S,
    listed: Option<Vec<ListedFile>>,
    paths: &[Text],
) -> Result<u32, ImportRefusal>
    requires { IfSome listed (λ rows. length rows.items + 1 < 2 ^ 32) }
    ensures told { let rows = option_map (λ rows. map listed_seen rows.items) listed in
        IfSome (S.shows source.old).files (λ files. StepGives (λ count. count) result
        (listing_by digest_text (file_there files) rows paths.now)) }
    ensures after { S.shows source.new ≡ after_check_step (S.shows source.old) result }
    ensures reads { IfOk result (λ count. ReadsAtMost (count)
        (S.reads source.old) (S.reads source.new)) }
{
    let Some(listed) = listed else {
        return Ok(0);
    };
    all_listed(alloc, &listed, paths)?;
    digests_hold(alloc, source, &listed)?;
    Ok(listed.len() as u32)
}
