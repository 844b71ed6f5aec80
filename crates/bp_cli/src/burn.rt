// The command `burn`.
ghost use Rattle.std.specs.Prelude.{◌≡◌, IfOk};
ghost use Rattle.std.specs.Option.{option_map};
ghost use Rattle.std.specs.Str.{chars};
ghost use Rattle.bp_core.specs.Counts.{risen};
ghost use Rattle.bp_core.specs.Paths.{path_in};
ghost use Rattle.bp_keep.specs.Keeper.{KeeperView};
ghost use Rattle.bp_rules.specs.Steps.{AtMostOnce};
ghost use Rattle.bp_tiff.specs.Parts.{file_in};
ghost use Rattle.bp_tiff.specs.Tiff.{tiff_of};
ghost use Rattle.bp_cli.specs.Words.{words_lent};
ghost use Rattle.bp_cli.specs.Burn.{form_of, box_of_words, burn_of, burn_seen, burn_page, counted_line};
ghost use Rattle.bp_cli.specs.BurnSteps.{NamesPath, NamesPaths, ReadsPageAt, AnswersPage, PutsPage};
ghost use Rattle.bp_cli.specs.Commands.{burn, uses_of, IsOutcome};
ghost use Rattle.bp_cli.specs.Endings.{world, Ends};
ghost use Rattle.bp_cli.specs.Stops.{read_stop};

use crate::stops::Stop;
use crate::words::{number_in, word_at};
use bp_burn::burn_in_place;
use bp_core::{Bytes, OutOfMemory, Rect, Rule, RuleKind, Text, path_of};
use bp_outside::{Folder, ReadRefusal, Source, put_parts};
use bp_rows::{Page, import_sides};
use bp_tiff::{Form, TiffParts, take_tiff, tiff_parts};
use std::alloc::Global;

/// The most bytes that a file may have which is read.
pub const FILE_LIMIT: u64 = 134_217_728;

/// Burn one box into the page file at one path, and write the page's file at another.
#[derive(Clone, Copy)]
pub struct Burn<'a> {
    pub from: &'a str,
    pub area: Rect,
    pub to: &'a str,
    pub form: Form,
}

// ---- its line

/// What the seven operands of `burn IN L T W H OUT FORM` ask.
pub fn burn_in<'a>(operands: &[&'a str]) -> Option<Burn<'a>>
    ensures { option_map burn_seen result ≡ burn_of (words_lent operands.now) }
{
    if operands.len() != 7 {
        return None;
    }
    let area = box_in(
        word_at(operands, 1),
        word_at(operands, 2),
        word_at(operands, 3),
        word_at(operands, 4),
    )?;
    let form = form_in(word_at(operands, 6))?;
    Some(Burn {
        from: word_at(operands, 0),
        area,
        to: word_at(operands, 5),
        form,
    })
}

fn box_in(left: &str, top: &str, width: &str, height: &str) -> Option<Rect>
    ensures { result ≡ box_of_words left.now top.now width.now height.now }
{
    Some(Rect {
        left: number_in(left)?,
        top: number_in(top)?,
        width: number_in(width)?,
        height: number_in(height)?,
    })
}

fn form_in(word: &str) -> Option<Form>
    ensures { result ≡ form_of word.now }
{
    if word == "plain" {
        Some(Form::Plain)
    } else if word == "g4" {
        Some(Form::G4)
    } else {
        None
    }
}

// ---- its work

/// Where the page stands, and where the file is put.
#[derive(Debug, Drop)]
pub struct BurnPaths {
    pub from: Text,
    pub to: Text,
}

/// Burns one box into the page file at IN, and puts the file of the burned page at OUT. The line
/// that tells how many bytes that file has. It goes in three steps, so that want of memory can't
/// tell what the box covers: the one that reads isn't told the box, the one that burns takes no
/// memory, and the one that writes has the burned page alone.
pub fn burn_box<S: Source, F: Folder>(
    alloc: Global,
    asked: &Burn<'_>,
    source: &mut S,
    folder: &mut F,
) -> Result<Bytes, Stop>
    ensures ends { (keeper : KeeperView)
        → let line = burn (burn_seen asked.now) in
        let before = world (S.shows source.old) keeper (F.shows folder.old) in
        let after = world (S.shows source.new) keeper (F.shows folder.new) in
        Ends (uses_of line) (IsOutcome line before) before result after }
    ensures reads { AtMostOnce (S.reads source.old) (S.reads source.new) }
{
    let paths = burn_paths(alloc, asked)?;
    let page = page_at(alloc, &paths.from, source)?;
    match burned_in(asked.area, page) {
        Ok(burned) => put_page(alloc, asked.form, &paths.to, &burned, folder),
        Err(rule) => Err(Stop::Broken(rule)),
    }
}

// The paths that IN and OUT name.
fn burn_paths(alloc: Global, asked: &Burn<'_>) -> Result<BurnPaths, Stop>
    ensures { NamesPaths (burn_seen asked.now) result }
{
    let from = path_named(alloc, asked.from)?;
    let to = path_named(alloc, asked.to)?;
    Ok(BurnPaths { from, to })
}

/// The path that a word names.
pub fn path_named(alloc: Global, word: &str) -> Result<Text, Stop>
    ensures { NamesPath (path_in (chars word.now)) result }
{
    match path_of(alloc, word) {
        Ok(path) => Ok(path),
        Err(refusal) => Err(Stop::from(refusal)),
    }
}

// The page of the file at a path.
fn page_at<S: Source>(alloc: Global, from: &Text, source: &mut S) -> Result<Page, Stop>
    ensures page { ReadsPageAt from.now (S.shows source.old) result (S.shows source.new) }
    ensures reads { S.reads source.new ≡ risen (S.reads source.old) }
{
    match source.read(alloc, from.as_str(), FILE_LIMIT) {
        Ok(file) => page_in(alloc, file),
        Err(refusal) => Err(stop_of_read(refusal)),
    }
}

/// Why a read that was refused ends the command.
pub fn stop_of_read(refusal: ReadRefusal) -> Stop
    ensures { result ≡ read_stop refusal }
{
    match refusal {
        ReadRefusal::Absent => Stop::Broken(Rule::bare(RuleKind::FileAbsent)),
        ReadRefusal::TooLong => Stop::Broken(Rule::bare(RuleKind::FileTooLong)),
        ReadRefusal::Failed => Stop::SourceFault,
        ReadRefusal::OutOfMemory => Stop::OutOfMemory,
    }
}

// The page that a file holds.
fn page_in(alloc: Global, file: Vec<u8>) -> Result<Page, Stop>
    ensures { AnswersPage file.items result }
{
    match take_tiff(alloc, file) {
        Ok(page) => Ok(page),
        Err(refusal) => Err(Stop::from(refusal)),
    }
}

// The page with the box burned. It takes no memory, so all that it can answer beside the page is a
// rule, which doesn't depend on what the box covers.
fn burned_in(area: Rect, mut page: Page) -> Result<Page, Rule>
    ensures { result ≡ burn_page area page }
{
    let (width, height) = (page.width(), page.height());
    if !import_sides(width, height) {
        return Err(Rule::page_limit(width, height));
    }
    if area.width == 0 || area.height == 0 {
        return Err(Rule::bare(RuleKind::BoxShape));
    }
    if !area.inside(width, height) {
        return Err(Rule::bare(RuleKind::BoxOutside));
    }
    burn_in_place(&mut page, &[area]);
    Ok(page)
}

// Puts the file of a page. The line that tells how many bytes it has.
fn put_page<F: Folder>(
    alloc: Global,
    form: Form,
    to: &Text,
    page: &Page,
    folder: &mut F,
) -> Result<Bytes, Stop>
    ensures { PutsPage to.now (tiff_of form page.now) (F.shows folder.old) result
        (F.shows folder.new) }
{
    let file = tiff_parts(alloc, form, page)?;
    put_file_parts(alloc, to, &file, folder)
}

fn put_file_parts<F: Folder>(
    alloc: Global,
    to: &Text,
    file: &TiffParts<'_>,
    folder: &mut F,
) -> Result<Bytes, Stop>
    ensures { PutsPage to.now (file_in file.now) (F.shows folder.old) result (F.shows folder.new) }
{
    let (head, strip) = (file.head.as_slice(), file.strip.as_slice());
    let line = line_of_count(alloc, head.len() + strip.len())?;
    match put_parts(alloc, folder, to.as_str(), head, strip) {
        Ok(()) => Ok(line),
        Err(refusal) => Err(Stop::from(refusal)),
    }
}

// `burned N`
fn line_of_count(alloc: Global, count: usize) -> Result<Bytes, OutOfMemory>
    ensures { IfOk result (λ line. line ≡ counted_line count) }
{
    let line = format!(in alloc; "burned {count}\n")?;
    Ok(Bytes::from_vec(line.into_bytes()))
}
