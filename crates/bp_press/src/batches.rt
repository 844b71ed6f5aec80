// Which files of a volume are made together: sixteen images at most, by jobs, and the texts between
// them. A file of all items is made by itself, so that no more than those images are held.
ghost use Rattle.std.specs.Prelude.{◌≡◌, ◌++◌, ◌≤◌, ◌<◌, ◌+◌, All, IfOk, OnOk, length, slice_index_or, slice_range, true};
ghost use Rattle.std.specs.List.{flat_map};
ghost use Rattle.bp_press.specs.Batches.{HasJob, IsNamed, IsNamedPage, is_image, jobs_by, page_job, sheet_job};
ghost use Rattle.bp_press.specs.declared.volume_files.VolumeFile.{VolumeFile as Entry};

use crate::jobs::{Job, JobList};
use crate::names::label_text;
use crate::pages::stamps_on;
use crate::volume_files::VolumeFile;
use bp_core::{Basis, ListOf, OutOfMemory, PageNo};
use bp_matter::{Item, Production, Request};
use bp_outside::FileRow;
use std::alloc::Global;

// How many images are made together.
pub(crate) const BATCH_IMAGES: usize = 16;

/// A file with the SHA-256 (FIPS 180-4) of its bytes.
#[derive(Drop)]
pub struct MadeFile {
    pub row: FileRow,
    pub digest: [u8; 32],
}

// The jobs of a batch, and the place of the list where it ends.
#[derive(Drop)]
pub(crate) struct Batch {
    pub(crate) jobs: JobList,
    pub(crate) end: usize,
}

// The job of a page of an item that isn't withheld, counted from 0.
fn page_job(
    alloc: Global,
    production: &Production,
    item: &Item,
    page: u32,
) -> Result<Job, OutOfMemory>
    requires { IsNamedPage production.now.request (item.now.span.first + page) page }
    ensures { IfOk result (λ job. job ≡ page_job production.now item.now page) }
{
    let number = PageNo(page + 1);
    let label = item.span.first + u64::from(page);
    Ok(Job::Image {
        ink: production.ink,
        doc: item.doc,
        page: number,
        stamps: stamps_on(alloc, &item.boxes, number)?,
        label: label_text(alloc, &production.request.prefix, label)?,
        designation: item.designation.clone()?,
    })
}

// The job of a sheet of an item that is withheld on a ground, counted from 0.
fn sheet_job(
    alloc: Global,
    request: &Request,
    item: &Item,
    basis: Basis,
    sheet: u32,
) -> Result<Job, OutOfMemory>
    requires { IsNamed request.now (item.now.span.first + sheet) }
    ensures { IfOk result (λ job. job ≡ sheet_job request.now item.now basis sheet) }
{
    Ok(Job::Slip {
        basis,
        label: label_text(alloc, &request.prefix, item.span.first + u64::from(sheet))?,
        designation: item.designation.clone()?,
    })
}

// Adds the job of a file that is an image.
pub(crate) fn add_job(
    alloc: Global,
    production: &Production,
    file: &VolumeFile,
    jobs: &mut Vec<Job>,
) -> Result<(), OutOfMemory>
    requires { HasJob production.now file.now }
    ensures { OnOk result (jobs.new.items ≡ jobs.old.items ++ jobs_by production.now file.now) }
{
    match *file {
        VolumeFile::Page {
            item,
            place: _,
            page,
        } => jobs.push(page_job(alloc, production, item, page)?)?,
        VolumeFile::Sheet {
            item,
            place: _,
            basis,
            sheet,
        } => jobs.push(sheet_job(alloc, &production.request, item, basis, sheet)?)?,
        _ => {}
    }
    Ok(())
}

// Whether a file is an image.
pub(crate) fn is_image(file: &VolumeFile) -> bool
    ensures { result ≡ is_image file.now }
{
    match *file {
        VolumeFile::Page { .. } => true,
        VolumeFile::Sheet { .. } => true,
        _ => false,
    }
}

// Whether a file is made together with those before it, which have so many images.
fn goes_with(file: &VolumeFile, images: usize) -> bool
    ensures { result ≡ true → is_image file.now ≡ true → images < BATCH_IMAGES }
{
    match *file {
        VolumeFile::Page { .. } => images < BATCH_IMAGES,
        VolumeFile::Sheet { .. } => images < BATCH_IMAGES,
        VolumeFile::Text { .. } => true,
        _ => false,
    }
}

// Whether the file at a place of the list is made together with those before it, which have these jobs.
fn goes_on(list: &[VolumeFile], place: usize, jobs: &Vec<Job>) -> bool
    requires { place < length list.now }
    ensures { (d : Entry) → result ≡ true → is_image (slice_index_or list.now place d) ≡ true
        → length jobs.now.items < BATCH_IMAGES }
{
    goes_with(&list[place], jobs.len())
}

// Adds the job of the file at a place of the list, where it is an image.
fn add_job_at(
    alloc: Global,
    production: &Production,
    list: &[VolumeFile],
    place: usize,
    jobs: &mut Vec<Job>,
) -> Result<(), OutOfMemory>
    requires place { place < length list.now }
    requires jobs { All (HasJob production.now) list.now }
    ensures { (d : Entry) → OnOk result (jobs.new.items
        ≡ jobs.old.items ++ jobs_by production.now (slice_index_or list.now place d)) }
{
    add_job(alloc, production, &list[place], jobs)
}

// The job of the file at a place of the list, where it is an image.
fn first_jobs(
    alloc: Global,
    production: &Production,
    list: &[VolumeFile],
    place: usize,
) -> Result<Vec<Job>, OutOfMemory>
    requires place { place < length list.now }
    requires jobs { All (HasJob production.now) list.now }
    ensures { (d : Entry) → IfOk result (λ jobs.
        jobs.items ≡ jobs_by production.now (slice_index_or list.now place d)) }
{
    let mut jobs = Vec::new(alloc);
    add_job(alloc, production, &list[place], &mut jobs)?;
    Ok(jobs)
}

// The files of the list from a place on that are made together.
pub(crate) fn next_batch(
    alloc: Global,
    production: &Production,
    list: &[VolumeFile],
    from: usize,
) -> Result<Batch, OutOfMemory>
    requires some { from < length list.now }
    requires jobs { All (HasJob production.now) list.now }
    ensures onward { IfOk result (λ batch. from < batch.end) }
    ensures within { IfOk result (λ batch. batch.end ≤ length list.now) }
    ensures few { IfOk result (λ batch. length batch.jobs ≤ BATCH_IMAGES) }
    ensures jobs { let f = production.now in
        IfOk result (λ batch.
        batch.jobs ≡ flat_map (jobs_by f) (slice_range list.now from batch.end)) }
{
    let mut jobs = first_jobs(alloc, production, list, from)?;
    let mut end = from + 1;
    while end < list.len() && goes_on(list, end, &jobs) {
        add_job_at(alloc, production, list, end, &mut jobs)?;
        end += 1;
    }
    Ok(Batch {
        jobs: ListOf::from_vec(jobs),
        end,
    })
}
