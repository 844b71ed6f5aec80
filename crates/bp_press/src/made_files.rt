// The files of a batch: the strips of its images are made by jobs on threads. While its files are made
// of these, one after another, each with its digest, and added, the strips of the next batch are made.
ghost use Rattle.std.specs.Prelude.{◌≡◌, ◌≤◌, ◌<◌, All, IfOk, drop, length, map, slice_index_or, slice_range, take};
ghost use denote.Param.Send.{IsSync};
ghost use Rattle.std.specs.List.{filter, flat_map};
ghost use Rattle.bp_press.specs.Batches.{IsCodedBatch, is_image, jobs_by, file_made_by};
ghost use Rattle.bp_press.specs.Jobs.{IsCodable, strip_by};
ghost use Rattle.bp_press.specs.Shown.{IsOwnJob};
ghost use Rattle.bp_press.specs.VolumeFiles.{EntryCanBeMade, file_of_entry};
ghost use Rattle.bp_press.specs.Writing.{AddsListed};
ghost use Rattle.bp_press.specs.declared.volume_files.VolumeFile.{VolumeFile as Entry};

use crate::adding::add_file;
use crate::batches::{Batch, MadeFile, is_image, next_batch};
use crate::file_rows::made_file;
use crate::gate::Gate;
use crate::jobs::{Job, JobList, StripList};
use crate::shown::Shows;
use crate::strips::covered_strips;
use crate::volume_files::VolumeFile;
use bp_core::{Bytes, ListOf, OutOfMemory};
use bp_matter::Production;
use bp_outside::{Folder, FolderRefusal};
use std::alloc::Global;
use std::thread::{Threads, join_mut};

// What makes the files of a volume: threads, the gate that each of their jobs enters, and what the
// files are made of.
#[derive(Drop)]
pub(crate) struct Maker<'w, P, R, G> {
    pub(crate) rt: &'w R,
    pub(crate) gate: &'w G,
    pub(crate) shown: &'w P,
    pub(crate) production: &'w Production,
    pub(crate) list: &'w [VolumeFile<'w>],
}

// The jobs of the images of a batch, and their strips.
#[derive(Drop)]
pub(crate) struct CodedBatch {
    pub(crate) batch: Batch,
    pub(crate) strips: StripList,
}

// The strips of these jobs, which may be none.
fn strips_or_none<P: Shows + Sync, R: Threads + Sync, G: Gate + Sync>(
    maker: &Maker<'_, P, R, G>,
    alloc: Global,
    jobs: &JobList,
) -> Result<StripList, OutOfMemory>
    requires few { length jobs.now ≤ 16 }
    requires own { All (IsOwnJob (P.production maker.now.shown.now)) jobs.now }
    requires codable { All (IsCodable (P.matter maker.now.shown.now)) jobs.now }
    ensures { IfOk result (λ strips.
        strips ≡ map (strip_by (P.matter maker.now.shown.now)) jobs.now) }
{
    if jobs.is_empty() {
        return Ok(ListOf::new(alloc));
    }
    let images = maker.shown.images(jobs.as_slice());
    covered_strips(maker.rt, alloc, &images, maker.gate)
}

// How many of the files before a place are images.
fn images_before(batch: &[VolumeFile], place: usize) -> usize
    requires { place ≤ length batch.now }
    ensures { result ≡ length (filter is_image (take place batch.now)) }
{
    batch[..place].iter().filter(|file| is_image(file)).count()
}

// The jobs from one on.
fn jobs_from(jobs: &[Job], first: usize) -> &[Job]
    requires { first ≤ length jobs.now }
    ensures { result.now ≡ drop first jobs.now }
{
    &jobs[first..]
}

// The strips from one on.
fn strips_from(strips: &[Bytes], first: usize) -> &[Bytes]
    requires { first ≤ length strips.now }
    ensures { result.now ≡ drop first strips.now }
{
    &strips[first..]
}

// The file at a place of the files of a batch whose strips were made.
fn file_at<P: Shows, R, G>(
    maker: &Maker<'_, P, R, G>,
    alloc: Global,
    files: &[VolumeFile],
    coded: &CodedBatch,
    place: usize,
) -> Result<MadeFile, OutOfMemory>
    requires same { P.production maker.now.shown.now ≡ maker.now.production.now }
    requires place { place < length files.now }
    requires made { let m = P.matter maker.now.shown.now in
        All (EntryCanBeMade maker.now.production.now m) files.now }
    requires jobs { let jobs = coded.now.batch.jobs in
        jobs ≡ flat_map (jobs_by maker.now.production.now) files.now }
    requires strips { let m = P.matter maker.now.shown.now in
        coded.now.strips ≡ map (strip_by m) coded.now.batch.jobs }
    ensures { (d : Entry) → let m = P.matter maker.now.shown.now in
        IfOk result (λ file.
        file ≡ file_made_by maker.now.production.now m (slice_index_or files.now place d)) }
{
    let first = images_before(files, place);
    made_file(
        alloc,
        maker.shown,
        maker.production,
        &files[place],
        jobs_from(coded.batch.jobs.as_slice(), first),
        strips_from(coded.strips.as_slice(), first),
    )
}

// The jobs of the files of the list from a place on that are made together, and their strips.
pub(crate) fn coded_batch<P: Shows + Sync, R: Threads + Sync, G: Gate + Sync>(
    maker: &Maker<'_, P, R, G>,
    alloc: Global,
    from: usize,
) -> Result<CodedBatch, OutOfMemory>
    requires same { P.production maker.now.shown.now ≡ maker.now.production.now }
    requires some { from < length maker.now.list.now }
    requires made { let m = P.matter maker.now.shown.now in
        All (EntryCanBeMade maker.now.production.now m) maker.now.list.now }
    ensures { let m = P.matter maker.now.shown.now in
        IfOk result (IsCodedBatch maker.now.production.now m maker.now.list.now from) }
{
    let batch = next_batch(alloc, maker.production, maker.list, from)?;
    let strips = strips_or_none(maker, alloc, &batch.jobs)?;
    Ok(CodedBatch { batch, strips })
}

// Makes the files of a batch whose strips were made, which begins at this place of the list, and adds
// them in order, each with its line of the manifest.
pub(crate) fn add_batch<P: Shows, R, F: Folder, G>(
    maker: &Maker<'_, P, R, G>,
    alloc: Global,
    from: usize,
    coded: &CodedBatch,
    folder: &mut F,
    manifest: &mut Vec<u8>,
) -> Result<(), FolderRefusal>
    requires same { P.production maker.now.shown.now ≡ maker.now.production.now }
    requires made { let m = P.matter maker.now.shown.now in
        All (EntryCanBeMade maker.now.production.now m) maker.now.list.now }
    requires coded { let m = P.matter maker.now.shown.now in
        IsCodedBatch maker.now.production.now m maker.now.list.now from coded.now }
    ensures { let row = file_of_entry maker.now.production.now (P.matter maker.now.shown.now) in
        let rows = map row (slice_range maker.now.list.now from coded.now.batch.end) in
        AddsListed rows (F.shows folder.old) manifest.old.items result
        (F.shows folder.new) manifest.new.items }
{
    let files = &maker.list[from..coded.batch.end];
    let mut place = 0;
    while place < files.len() {
        let file = file_at(maker, alloc, files, coded, place)?;
        add_file(alloc, &file, folder, manifest)?;
        place += 1;
    }
    Ok(())
}

// Adds the files of a batch in order, while the strips of the next one are made.
pub(crate) fn add_beside<P: Shows + Sync, R: Threads + Sync, F: Folder, G: Gate + Sync>(
    maker: &Maker<'_, P, R, G>,
    alloc: Global,
    from: usize,
    coded: &CodedBatch,
    folder: &mut F,
    manifest: &mut Vec<u8>,
) -> (Result<CodedBatch, OutOfMemory>, Result<(), FolderRefusal>)
    requires same { P.production maker.now.shown.now ≡ maker.now.production.now }
    requires some { coded.now.batch.end < length maker.now.list.now }
    requires made { let m = P.matter maker.now.shown.now in
        All (EntryCanBeMade maker.now.production.now m) maker.now.list.now }
    requires coded { let m = P.matter maker.now.shown.now in
        IsCodedBatch maker.now.production.now m maker.now.list.now from coded.now }
    ensures coded { let m = P.matter maker.now.shown.now in
        let end = coded.now.batch.end in
        IfOk result.0 (IsCodedBatch maker.now.production.now m maker.now.list.now end) }
    ensures added { let row = file_of_entry maker.now.production.now (P.matter maker.now.shown.now) in
        let rows = map row (slice_range maker.now.list.now from coded.now.batch.end) in
        AddsListed rows (F.shows folder.old) manifest.old.items result.1
        (F.shows folder.new) manifest.new.items }
{
    let end = coded.batch.end;
    let mut code = || -> Result<CodedBatch, OutOfMemory>
        requires { IsSync R.row × IsSync P.row × IsSync G.row
            × (P.production maker.now.shown.now ≡ maker.now.production.now)
            × (end < length maker.now.list.now)
            × All (EntryCanBeMade maker.now.production.now (P.matter maker.now.shown.now))
            maker.now.list.now }
        ensures { IfOk result (IsCodedBatch maker.entry.now.production.now
            (P.matter maker.entry.now.shown.now) maker.entry.now.list.now end) }
    { coded_batch(maker, alloc, end) };
    let mut add = || -> Result<(), FolderRefusal>
        requires { (P.production maker.now.shown.now ≡ maker.now.production.now)
            × All (EntryCanBeMade maker.now.production.now (P.matter maker.now.shown.now))
            maker.now.list.now
            × IsCodedBatch maker.now.production.now (P.matter maker.now.shown.now)
            maker.now.list.now from coded.now }
        ensures { let m = P.matter maker.entry.now.shown.now in
            let list = maker.entry.now.list.now in
            let piece = slice_range list from coded.entry.now.batch.end in
            AddsListed (map (file_of_entry maker.entry.now.production.now m) piece)
            (F.shows folder.entry.now)
            manifest.entry.now.items result (F.shows folder.exit.now) manifest.exit.now.items }
    { add_batch(maker, alloc, from, coded, folder, manifest) };
    join_mut(maker.rt, &mut code, &mut add)
}
