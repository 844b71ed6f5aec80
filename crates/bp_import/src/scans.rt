// The images of a batch, read line by line of its OPT file.
ghost use Rattle.std.specs.Prelude.{◌≡◌, ◌<◌, ◌+◌, ◌^◌, length, IfErr, IfOk, IfSome, IsTrue};
ghost use Rattle.std.specs.List.{list_all};
ghost use Rattle.bp_import.specs.Importing.{Comes, IsCalm, after_step};
ghost use Rattle.bp_import.specs.Refusals.{scan_refused_at};
ghost use Rattle.bp_import.specs.Scans.{BytesAnswer, GivesImages, LineAnswers, comes_in, path_of_line, scan_seen, scan_with};

use crate::digest::FilesDigest;
use crate::files::{IMAGE, path_below, read_file};
use crate::refusals::ImportRefusal;
use crate::strips::page_of_one_strip;
use bp_core::{ListOf, Refusal, Rule, RuleKind, Text, path_of};
use bp_load::OptLine;
use bp_matter::KeptPage;
use bp_outside::Source;
use bp_rows::{Page, import_sides};
use bp_tiff::read_tiff;
use std::alloc::Global;

/// A list of pages, kept as their strips.
pub(crate) type PageList = ListOf<KeptPage>;

/// An image file and the page in it.
#[derive(Drop)]
pub(crate) struct ScanFile {
    pub(crate) bytes: Vec<u8>,
    pub(crate) page: KeptPage,
}

/// The image that line `number` of the OPT file names, below the folder `name`. PathRefused, what
/// `read_file` and `read_tiff` refuse, or PageLimit where its sides aren't those of an import; each
/// with the line.
pub(crate) fn read_image<S: Source>(
    alloc: Global,
    source: &mut S,
    name: &Text,
    line: &OptLine,
    number: u32,
) -> Result<ScanFile, ImportRefusal>
    ensures told { IfSome (S.shows source.old).files (λ files.
        Comes scan_seen (LineAnswers files name.now number line.now) result) }

    // Told or not, the page may come in.
    ensures fits { IfOk result (λ scan. IsTrue (comes_in scan.page)) }
    ensures after { S.shows source.new ≡ after_step (S.shows source.old) result }
{
    let path = image_path(alloc, name, line, number)?;
    let bytes = read_file(alloc, source, &path, IMAGE, number)?;
    let page = keep_page(alloc, &bytes, number)?;
    Ok(ScanFile { bytes, page })
}

/// The pages of a batch, in the order of the OPT lines, and the digest of all its files.
#[derive(Drop)]
pub(crate) struct Images {
    pub(crate) pages: PageList,
    pub(crate) digest: [u8; 32],
}

/// The images of all lines, one after the other. `digest` has taken the files that were read
/// before. A line that names the file of another is read again, and its file counts twice in the
/// digest. What `read_image` refuses, at the first such line.
pub(crate) fn read_images<S: Source>(
    alloc: Global,
    source: &mut S,
    name: &Text,
    lines: &[OptLine],
    mut digest: FilesDigest,
) -> Result<Images, ImportRefusal>
    requires { length lines.now + 1 < 2 ^ 32 }
    ensures told { IfSome (S.shows source.old).files (λ files.
        GivesImages files name.now lines.now digest result) }

    // Told or not, there is a page for each line, and it may come in.
    ensures count { IfOk result (λ images. length images.pages ≡ length lines.now) }
    ensures fits { IfOk result (λ images. IsTrue (list_all comes_in images.pages)) }
    ensures after { S.shows source.new ≡ after_step (S.shows source.old) result }
{
    let mut pages = Vec::with_capacity(alloc, lines.len())?;
    let mut number = 0;
    let mut rest = lines;
    while let Some((line, others)) = rest.split_first() {
        number += 1;
        let scan = match read_image(alloc, source, name, line, number) {
            Ok(scan) => scan,
            Err(refusal) => return Err(refusal),
        };
        digest.take(&scan.bytes);
        pages.push(scan.page)?;
        rest = others;
    }
    Ok(Images {
        pages: ListOf::from_vec(pages),
        digest: digest.finish(),
    })
}

// The path that line `number` names, below the folder `name`.
fn image_path(
    alloc: Global,
    name: &Text,
    line: &OptLine,
    number: u32,
) -> Result<Text, ImportRefusal>
    ensures answer { Comes (λ path. path)
        (λ answer. path_of_line name.now number line.now ≡ answer) result }
    ensures calm { IfErr result IsCalm }
{
    match path_of(alloc, line.path.as_str()) {
        Ok(path) => Ok(path_below(alloc, name, path.as_str())?),
        Err(refusal) => Err(at_line(refusal, number)),
    }
}

// The same refusal, with the line where it is by a rule.
fn at_line(refusal: Refusal, number: u32) -> ImportRefusal
    ensures { result ≡ scan_refused_at number refusal }
{
    match refusal {
        Refusal::Rule(rule) => ImportRefusal::Rule(Rule {
            line: number,
            ..rule
        }),
        Refusal::OutOfMemory => ImportRefusal::OutOfMemory,
    }
}

// The page of the bytes at line `number`, kept as its strip. Where it doesn't stand in one strip of
// Group 4, its pixels are had and let go; and so the rule that a file breaks is told by `read_tiff`
// alone.
fn keep_page(alloc: Global, bytes: &[u8], number: u32) -> Result<KeptPage, ImportRefusal>
    ensures answer { Comes (λ page. scan_with bytes.now page) (BytesAnswer number bytes.now) result }
    ensures fits { IfOk result (λ page. IsTrue (comes_in page)) }
    ensures calm { IfErr result IsCalm }
{
    if let Some(page) = page_of_one_strip(alloc, bytes)? {
        return Ok(page);
    }
    let page = read_page(alloc, bytes, number)?;
    Ok(KeptPage::of(alloc, &page)?)
}

// The page of the bytes at line `number`.
fn read_page(alloc: Global, bytes: &[u8], number: u32) -> Result<Page, ImportRefusal>
    ensures answer { Comes (λ page. scan_with bytes.now page) (BytesAnswer number bytes.now) result }
    ensures fits { IfOk result (λ page. IsTrue (comes_in page)) }
    ensures calm { IfErr result IsCalm }
{
    let page = match read_tiff(alloc, bytes) {
        Ok(page) => page,
        Err(refusal) => return Err(at_line(refusal, number)),
    };
    let (width, height) = (page.width(), page.height());
    if import_sides(width, height) {
        Ok(page)
    } else {
        Err(at_line(Refusal::Rule(Rule::page_limit(width, height)), number))
    }
}
