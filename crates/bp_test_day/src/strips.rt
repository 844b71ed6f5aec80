// Strips of images, made in one call.
//
//     strips DOC PAGE BOX BASIS LABEL DESIGNATION PATH BASIS LABEL DESIGNATION PATH
//                            whether the strips of a page with this box and of a sheet are those with
//                            which the files of these paths end that were pressed
ghost use Rattle.std.specs.Prelude.{IfOk, IfSome};
ghost use Rattle.bp_matter.specs.Matter.{Matter};
ghost use Rattle.bp_press.specs.Jobs.{IsCodable};

use crate::day::Day;
use crate::told::{constant, unread, yes_or_no};
use anyhow::Result;
use bp_burn::has_glyphs;
use bp_core::{Basis, DocNo, Ink, ListOf, OutOfMemory, PageNo, Stamp, Text};
use bp_matter::Tables;
use bp_press::{Job, OpenGate, StripList, strips_of};
use bp_test_words::Words;
use std::alloc::Global;
use std::thread::Threads;

pub fn told<R: Threads + Sync>(
    rt: &R,
    day: &Day,
    verb: &str,
    words: &mut Words,
) -> Option<Result<String>> {
    match verb {
        "strips" => Some(strips(rt, day, words)),
        _ => None,
    }
}

fn strips<R: Threads + Sync>(rt: &R, day: &Day, words: &mut Words) -> Result<String> {
    let (doc, page, rect, basis) = (words.doc(), words.page(), words.rect(), words.basis());
    let (label, designation, path) = (words.text(), words.text(), words.text());
    let (ground, sheet_label) = (words.basis(), words.text());
    let (sheet_designation, sheet_path) = (words.text(), words.text());
    if !words.is_read() {
        return unread(day.alloc);
    }
    let stamp = Stamp { rect, basis };
    let Some(image) = image_job(day, doc, page, stamp, label, designation)? else {
        return constant(day.alloc, "none");
    };
    let Some(sheet) = sheet_job(ground, sheet_label, sheet_designation) else {
        return constant(day.alloc, "none");
    };
    let made = both_strips(rt, day.alloc, &day.tables, image, sheet)?;
    let strips = made.as_slice();
    let (file, sheet_file) = (day.pressed.file_at(&path), day.pressed.file_at(&sheet_path));
    let are_theirs = strips.len() == 2
        && file.ends_with(strips[0].as_slice())
        && sheet_file.ends_with(strips[1].as_slice());
    yes_or_no(day.alloc, are_theirs)
}

// The job of a page with one box, where the page is there and its band can be drawn.
fn image_job(
    day: &Day,
    doc: DocNo,
    page: PageNo,
    stamp: Stamp,
    label: Text,
    designation: Text,
) -> Result<Option<Job>, OutOfMemory>
    ensures { IfOk result (λ job. IfSome job (IsCodable day.now.tables.matter)) }
{
    if day.tables.kept(doc, page).is_none() || !has_glyphs(&label) || !has_glyphs(&designation) {
        return Ok(None);
    }
    let mut stamps = Vec::new(day.alloc);
    stamps.push(stamp)?;
    Ok(Some(Job::Image {
        ink: Ink::Lettered,
        doc,
        page,
        stamps: ListOf::from_vec(stamps),
        label,
        designation,
    }))
}

// The job of a sheet, where its band can be drawn.
fn sheet_job(basis: Basis, label: Text, designation: Text) -> Option<Job>
    ensures { (m : Matter) → IfSome result (IsCodable m) }
{
    if has_glyphs(&label) && has_glyphs(&designation) {
        Some(Job::Slip {
            basis,
            label,
            designation,
        })
    } else {
        None
    }
}

// The strips of two jobs.
fn both_strips<R: Threads + Sync>(
    rt: &R,
    alloc: Global,
    tables: &Tables,
    first: Job,
    second: Job,
) -> Result<StripList, OutOfMemory>
    requires first { IsCodable tables.now.matter first }
    requires second { IsCodable tables.now.matter second }
{
    let mut jobs = Vec::new(alloc);
    jobs.push(first)?;
    jobs.push(second)?;
    strips_of(rt, alloc, tables, &ListOf::from_vec(jobs), &OpenGate)
}
