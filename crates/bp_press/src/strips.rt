// The strips of images, made on threads.
ghost use Rattle.std.specs.Prelude.{◌≡◌, ◌<◌, ◌≤◌, ℕ, All, IfOk, OnOk, Ok, length, map, slice_index_or};
ghost use Rattle.bp_t6.specs.Written.{bits_strip};
ghost use Rattle.bp_press.specs.Jobs.{IsCodable, strip_by};
ghost use Rattle.bp_press.specs.Shown.{CanBeCoded, CanBeCovered, image_lent, page_lent};
ghost use Rattle.bp_press.specs.declared.jobs.Job.{Job};

use crate::gate::Gate;
use crate::jobs::{JobList, StripList};
use crate::lent::{CoveredImage, CoveredJobs, CoveredPage};
use bp_burn::{OutRoom, slip_strip, strip_of_rows};
use bp_core::{Bytes, ListOf, OutOfMemory};
use bp_matter::Tables;
use std::alloc::Global;
use std::thread::{Threads, map_indices};

/// The strips of 1 to 16 images, in order: each page is read from its strip, burned, banded and
/// coded row by row (ITU-T T.6). Each job is one call of `map_indices`, and enters the gate before
/// its work: the wall lends the image of a job to no one but by the job's entry, so no strip is begun
/// of a job that hasn't entered. Where no thread can be had it is done by the caller. It returns if the
/// threads that it joins do.
pub fn strips_of<R: Threads + Sync, G: Gate + Sync>(
    rt: &R,
    alloc: Global,
    tables: &Tables,
    jobs: &JobList,
    gate: &G,
) -> Result<StripList, OutOfMemory>
    requires some { 1 ≤ length jobs.now }
    requires few { length jobs.now ≤ 16 }
    requires codable { All (IsCodable tables.now.matter) jobs.now }
    ensures strips { IfOk result (λ strips. strips ≡ map (strip_by tables.now.matter) jobs.now) }

    // Each job has entered the gate by its own number.
    ensures entered { OnOk result ((job : ℕ) → job < length jobs.now → G.entered gate.now job) }
{
    let images = CoveredJobs::of(tables, jobs.as_slice());
    covered_strips(rt, alloc, &images, gate)
}

// The strips of images that are lent covered.
pub(crate) fn covered_strips<R: Threads + Sync, G: Gate + Sync>(
    rt: &R,
    alloc: Global,
    images: &CoveredJobs<'_>,
    gate: &G,
) -> Result<StripList, OutOfMemory>
    requires codable { All (IsCodable images.now.tables.now.matter) images.now.jobs.now }
    ensures strips { let strip = strip_by images.now.tables.now.matter in
        IfOk result (λ strips. strips ≡ map strip images.now.jobs.now) }
    ensures entered { OnOk result
        ((job : ℕ) → job < length images.now.jobs.now → G.entered gate.now job) }
{
    let made = map_indices(
        rt,
        alloc,
        images.len(),
        &|job: usize| -> Result<Bytes, OutOfMemory>
            requires job { job < length images.now.jobs.now }
            requires codable { All (IsCodable images.now.tables.now.matter) images.now.jobs.now }
            ensures { ((d : Job) → IfOk result (λ strip.
                strip ≡ strip_by images.entry.now.tables.now.matter
                (slice_index_or images.entry.now.jobs.now job d)))
                × G.entered gate.entry.now job }
        { entered_strip(alloc, images, gate, job) },
    )?;
    all_strips(alloc, made)
}

// The strip of one job. Its image is lent as the job enters the gate, so no work is begun before.
fn entered_strip<G: Gate>(
    alloc: Global,
    images: &CoveredJobs<'_>,
    gate: &G,
    job: usize,
) -> Result<Bytes, OutOfMemory>
    requires job { job < length images.now.jobs.now }
    requires codable { All (IsCodable images.now.tables.now.matter) images.now.jobs.now }
    ensures strip { (d : Job) → IfOk result (λ strip.
        strip ≡ strip_by images.now.tables.now.matter
        (slice_index_or images.now.jobs.now job d)) }
    ensures entered { G.entered gate.now job }
{
    image_strip(alloc, images.image(gate, job))
}

// The strips that were made, or want of memory where one of them has none.
fn all_strips(
    alloc: Global,
    made: Vec<Result<Bytes, OutOfMemory>>,
) -> Result<StripList, OutOfMemory>
    ensures { IfOk result (λ strips. map Ok strips ≡ made.items) }
{
    let mut strips = Vec::new(alloc);
    for strip in made {
        strips.push(strip?)?;
    }
    Ok(ListOf::from_vec(strips))
}

// The strip of an image that is lent.
pub(crate) fn image_strip(alloc: Global, image: CoveredImage<'_>) -> Result<Bytes, OutOfMemory>
    requires { CanBeCoded image }
    ensures { IfOk result (λ strip. strip ≡ bits_strip (image_lent image.entry)) }
{
    match image {
        CoveredImage::Page(page) => page_strip(alloc, page),
        CoveredImage::Sheet {
            basis,
            label,
            designation,
        } => slip_strip(alloc, basis, label, designation),
    }
}

// The strip of a page with its stamps and its band, made of its rows, which are lent covered. All room
// that reading and covering them takes is taken before, by the width alone.
fn page_strip(alloc: Global, page: CoveredPage<'_>) -> Result<Bytes, OutOfMemory>
    requires { CanBeCovered page }
    ensures { IfOk result (λ strip. strip ≡ bits_strip (page_lent page.entry)) }
{
    let frame = page.frame();
    let room = OutRoom::take(alloc, frame.width)?;
    strip_of_rows(alloc, page.rows(room), page.label, page.designation)
}
