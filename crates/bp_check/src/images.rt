// The images and texts that the load files name.
ghost use Rattle.std.specs.Prelude.{◌≡◌, ◌<◌, ◌+◌, ◌^◌, Result, length, IfErr, IfSome};
ghost use Rattle.bp_core.specs.Paths.{path_in};
ghost use Rattle.bp_core.specs.declared.rules.Rule.{Rule};
ghost use Rattle.bp_rows.specs.Image.{Image};
ghost use Rattle.bp_tiff.specs.Read.{TiffAnswers};
ghost use Rattle.bp_check.specs.Checking.{StepGives, IsCalmRefusal, ReadsAtMost, after_check_step};
ghost use Rattle.bp_check.specs.Files.{file_there};
ghost use Rattle.bp_check.specs.Images.{IsTiff, Judging, ok_at_line, judged_image, images_of, path_at, text_there, texts_there};
ghost use Rattle.bp_check.specs.Refusals.{refused_at};
ghost use Rattle.bp_check.specs.Steps.{behind};

use crate::files::{IMAGE, TEXT, read_file};
use crate::records::Record;
use crate::refusals::ImportRefusal;
use bp_core::{Refusal, Text, path_of};
use bp_load::OptLine;
use bp_outside::Source;
use bp_tiff::judge_tiff;
use std::alloc::Global;

/// The paths of the images of all lines behind `paths`, each of which is one page. PathRefused, what
/// `read_file` and `judge_tiff` refuse; each with the line, from 1. An image is let go before the next
/// is read.
pub(crate) fn check_images<S: Source>(
    alloc: Global,
    source: &mut S,
    lines: &[OptLine],
    mut paths: Vec<Text>,
) -> Result<Vec<Text>, ImportRefusal>
    requires { length lines.now + 1 < 2 ^ 32 }
    ensures told { IfSome (S.shows source.old).files (λ files. (tiff : Judging) → IsTiff tiff
        → StepGives (λ found. found.items) result
        (behind paths.items (images_of (file_there files) tiff lines.now))) }
    ensures after { S.shows source.new ≡ after_check_step (S.shows source.old) result }
    ensures reads { ReadsAtMost (length lines.now) (S.reads source.old) (S.reads source.new) }
{
    let mut number = 0;
    let mut rest = lines;
    while let Some((line, others)) = rest.split_first() {
        number += 1;
        let path = match check_image(alloc, source, line, number) {
            Ok(path) => path,
            Err(refusal) => return Err(refusal),
        };
        paths.push(path)?;
        rest = others;
    }
    Ok(paths)
}

// The path of the image that line `number` names, which is one page.
fn check_image<S: Source>(
    alloc: Global,
    source: &mut S,
    line: &OptLine,
    number: u32,
) -> Result<Text, ImportRefusal>
    ensures told { IfSome (S.shows source.old).files (λ files. (tiff : Judging) → IsTiff tiff
        → StepGives (λ path. path) result (judged_image (file_there files) tiff number line.now)) }
    ensures after { S.shows source.new ≡ after_check_step (S.shows source.old) result }
    ensures reads { ReadsAtMost 1 (S.reads source.old) (S.reads source.new) }
{
    let path = path_at(alloc, &line.path, number)?;
    let bytes = read_file(alloc, source, IMAGE, number, &path)?;
    check_page(alloc, &bytes, number)?;
    Ok(path)
}

/// The paths of the texts that the records name behind `paths`; a record may name none. PathRefused
/// and what `read_file` refuses; each with the record, from 1.
pub(crate) fn check_texts<S: Source>(
    alloc: Global,
    source: &mut S,
    docs: &[Record],
    mut paths: Vec<Text>,
) -> Result<Vec<Text>, ImportRefusal>
    requires { length docs.now + 1 < 2 ^ 32 }
    ensures told { IfSome (S.shows source.old).files (λ files.
        StepGives (λ found. found.items) result
        (behind paths.items (texts_there (file_there files) docs.now))) }
    ensures after { S.shows source.new ≡ after_check_step (S.shows source.old) result }
    ensures reads { ReadsAtMost (length docs.now) (S.reads source.old) (S.reads source.new) }
{
    let mut number = 0;
    let mut rest = docs;
    while let Some((doc, others)) = rest.split_first() {
        number += 1;
        if !doc.text.is_empty() {
            let path = match check_text(alloc, source, &doc.text, number) {
                Ok(path) => path,
                Err(refusal) => return Err(refusal),
            };
            paths.push(path)?;
        }
        rest = others;
    }
    Ok(paths)
}

// The path of the text of record `number`, which is there.
fn check_text<S: Source>(
    alloc: Global,
    source: &mut S,
    text: &Text,
    number: u32,
) -> Result<Text, ImportRefusal>
    ensures told { IfSome (S.shows source.old).files (λ files.
        StepGives (λ path. path) result (text_there (file_there files) number text.now)) }
    ensures after { S.shows source.new ≡ after_check_step (S.shows source.old) result }
    ensures reads { ReadsAtMost 1 (S.reads source.old) (S.reads source.new) }
{
    let path = path_at(alloc, text, number)?;
    let _bytes = read_file(alloc, source, TEXT, number, &path)?;
    Ok(path)
}

// The path that a text names at line `number`.
fn path_at(alloc: Global, text: &Text, number: u32) -> Result<Text, ImportRefusal>
    ensures answer { StepGives (λ path. path) result (path_at number text.now) }
    ensures calm { IfErr result IsCalmRefusal }
{
    match path_of(alloc, text.as_str()) {
        Ok(path) => Ok(path),
        Err(refusal) => Err(refused_at(refusal, number)),
    }
}

// The bytes at line `number` are one page.
fn check_page(alloc: Global, bytes: &[u8], number: u32) -> Result<(), ImportRefusal>
    ensures answer { (page : Result Image Rule) → TiffAnswers bytes.now page
        → StepGives (λ _. tt) result (ok_at_line number page) }
    ensures calm { IfErr result IsCalmRefusal }
{
    match judge_tiff(alloc, bytes) {
        Ok(()) => Ok(()),
        Err(refusal) => Err(refused_at(refusal, number)),
    }
}

// The same refusal, with the line where it is by a rule.
fn refused_at(refusal: Refusal, number: u32) -> ImportRefusal
    ensures { result ≡ refused_at number refusal }
{
    match refusal {
        Refusal::Rule(rule) => ImportRefusal::Rule(rule.with_line(number)),
        Refusal::OutOfMemory => ImportRefusal::OutOfMemory,
    }
}
