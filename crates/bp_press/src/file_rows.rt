// The files of a volume's list: of each its path and its bytes.
ghost use Rattle.std.specs.Prelude.{◌≡◌, ◌<◌, All, IfOk, length, map, slice_index_or};
ghost use Rattle.bp_press.specs.Batches.{HasImages, HasJob, jobs_by, made_of};
ghost use Rattle.bp_press.specs.Jobs.{IsCodable, page_of_job, strip_by};
ghost use Rattle.bp_press.specs.Shown.{IsOwnJob};
ghost use Rattle.bp_press.specs.VolumeFiles.{CanBeFilled, EntryCanBeMade, CanBeNamed, bytes_of_entry, entry_path, file_of_entry};
ghost use Rattle.bp_press.specs.declared.jobs.Job.{Job as AnyJob};
ghost use Rattle.bp_outside.specs.Folder.{file};
ghost use Rattle.bp_tiff.specs.Tiff.{tiff_of};

use crate::batches::{MadeFile, add_job};
use crate::contents::text_bytes;
use crate::jobs::Job;
use crate::load_files::{dat_bytes, opt_bytes};
use crate::manifest::digest_of;
use crate::names::{data_path, image_path, text_path};
use crate::pages::image_file;
use crate::shown::Shows;
use crate::strips::image_strip;
use crate::volume_files::VolumeFile;
use bp_core::{Bytes, OutOfMemory, Text};
use bp_freeze::log_text;
use bp_matter::Production;
use bp_outside::FileRow;
use bp_tiff::Form;
use std::alloc::Global;

// The path of a file.
pub(crate) fn file_path(
    alloc: Global,
    production: &Production,
    file: &VolumeFile,
) -> Result<Text, OutOfMemory>
    requires { CanBeNamed production.now file.now }
    ensures { IfOk result (λ path. path ≡ entry_path production.now file.now) }
{
    let request = &production.request;
    match *file {
        VolumeFile::Page { item, place, page } => {
            let page = u64::from(page);
            image_path(alloc, '/', request, place + page, item.span.first + page)
        }
        VolumeFile::Sheet {
            item,
            place,
            basis: _,
            sheet,
        } => {
            let sheet = u64::from(sheet);
            image_path(alloc, '/', request, place + sheet, item.span.first + sheet)
        }
        VolumeFile::Text { item, place } => text_path(alloc, '/', request, place, item.span.first),
        VolumeFile::Dat => data_path(alloc, request, ".DAT"),
        VolumeFile::Opt => data_path(alloc, request, ".OPT"),
        VolumeFile::Log => data_path(alloc, request, "-LOG.CSV"),
    }
}

// The file of the first of these images, of its strip.
fn first_file<P: Shows>(
    alloc: Global,
    shown: &P,
    jobs: &[Job],
    strips: &[Bytes],
) -> Result<Bytes, OutOfMemory>
    requires some { 0 < length jobs.now }
    requires own { All (IsOwnJob (P.production shown.now)) jobs.now }
    requires codable { All (IsCodable (P.matter shown.now)) jobs.now }
    requires strips { strips.now ≡ map (strip_by (P.matter shown.now)) jobs.now }
    ensures { (d : AnyJob) → IfOk result (λ bytes.
        bytes ≡ tiff_of Form.G4 (page_of_job (P.matter shown.now) (slice_index_or jobs.now 0 d))) }
{
    image_file(alloc, shown.image(&jobs[0]), strips[0].as_slice())
}

// The bytes of a file. Where it is an image, it is the first of these.
fn bytes_with<P: Shows>(
    alloc: Global,
    shown: &P,
    production: &Production,
    file: &VolumeFile,
    jobs: &[Job],
    strips: &[Bytes],
) -> Result<Bytes, OutOfMemory>
    requires same { P.production shown.now ≡ production.now }
    requires made { CanBeFilled production.now (P.matter shown.now) file.now }
    requires images { HasImages production.now (P.matter shown.now) file.now jobs.now strips.now }
    ensures { IfOk result (λ bytes.
        bytes ≡ bytes_of_entry production.now (P.matter shown.now) file.now) }
{
    match *file {
        VolumeFile::Page { .. } => first_file(alloc, shown, jobs, strips),
        VolumeFile::Sheet { .. } => first_file(alloc, shown, jobs, strips),
        VolumeFile::Text { item, place: _ } => text_bytes(alloc, shown, production, item),
        VolumeFile::Dat => dat_bytes(alloc, shown, production),
        VolumeFile::Opt => opt_bytes(alloc, shown, production),
        VolumeFile::Log => log_text(alloc, production),
    }
}

// A file, whole, with its digest. Where it is an image, it is the first of these.
pub(crate) fn made_file<P: Shows>(
    alloc: Global,
    shown: &P,
    production: &Production,
    file: &VolumeFile,
    jobs: &[Job],
    strips: &[Bytes],
) -> Result<MadeFile, OutOfMemory>
    requires same { P.production shown.now ≡ production.now }
    requires made { EntryCanBeMade production.now (P.matter shown.now) file.now }
    requires images { HasImages production.now (P.matter shown.now) file.now jobs.now strips.now }
    ensures { IfOk result (λ made.
        made ≡ made_of (file_of_entry production.now (P.matter shown.now) file.now)) }
{
    let path = file_path(alloc, production, file)?;
    let bytes = bytes_with(alloc, shown, production, file, jobs, strips)?;
    Ok(digested(path, bytes))
}

// A file with its digest.
pub(crate) fn digested(path: Text, bytes: Bytes) -> MadeFile
    ensures { result ≡ made_of (file path bytes) }
{
    let digest = digest_of(bytes.as_slice());
    MadeFile {
        row: FileRow { path, bytes },
        digest,
    }
}

// ---- one file by itself

// The strips of these jobs, one after another.
fn strips_in_turn<P: Shows>(
    alloc: Global,
    shown: &P,
    jobs: &[Job],
) -> Result<Vec<Bytes>, OutOfMemory>
    requires own { All (IsOwnJob (P.production shown.now)) jobs.now }
    requires codable { All (IsCodable (P.matter shown.now)) jobs.now }
    ensures { IfOk result (λ strips. strips.items ≡ map (strip_by (P.matter shown.now)) jobs.now) }
{
    let mut strips = Vec::new(alloc);
    for job in jobs {
        strips.push(image_strip(alloc, shown.image(job))?)?;
    }
    Ok(strips)
}

// The job of a file that is an image.
fn own_jobs(
    alloc: Global,
    production: &Production,
    file: &VolumeFile,
) -> Result<Vec<Job>, OutOfMemory>
    requires { HasJob production.now file.now }
    ensures { IfOk result (λ jobs. jobs.items ≡ jobs_by production.now file.now) }
{
    let mut jobs = Vec::new(alloc);
    add_job(alloc, production, file, &mut jobs)?;
    Ok(jobs)
}

// The bytes of a file.
pub(crate) fn file_bytes<P: Shows>(
    alloc: Global,
    shown: &P,
    production: &Production,
    file: &VolumeFile,
) -> Result<Bytes, OutOfMemory>
    requires same { P.production shown.now ≡ production.now }
    requires made { EntryCanBeMade production.now (P.matter shown.now) file.now }
    ensures { IfOk result (λ bytes.
        bytes ≡ bytes_of_entry production.now (P.matter shown.now) file.now) }
{
    let jobs = own_jobs(alloc, production, file)?;
    let strips = strips_in_turn(alloc, shown, jobs.as_slice())?;
    bytes_with(
        alloc,
        shown,
        production,
        file,
        jobs.as_slice(),
        strips.as_slice(),
    )
}

// A file, whole, with its digest.
pub(crate) fn file_made<P: Shows>(
    alloc: Global,
    shown: &P,
    production: &Production,
    file: &VolumeFile,
) -> Result<MadeFile, OutOfMemory>
    requires same { P.production shown.now ≡ production.now }
    requires made { EntryCanBeMade production.now (P.matter shown.now) file.now }
    ensures { IfOk result (λ made.
        made ≡ made_of (file_of_entry production.now (P.matter shown.now) file.now)) }
{
    let path = file_path(alloc, production, file)?;
    let bytes = file_bytes(alloc, shown, production, file)?;
    Ok(digested(path, bytes))
}
