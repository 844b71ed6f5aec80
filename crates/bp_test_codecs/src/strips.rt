// Strips of codes (ITU-T T.6), a row at a time, each row as its runs, white first.
//
//     strip rows WIDTH CALLS FILL HEX..    what so many calls of a reader of this strip answer, ` / `
//                                          between two: the runs of the next row, or a rule
//     strip written                        the strip of the page at hand: a writer is given the runs of
//                                          each of its rows
//     strip covered INK ROW STAMP..        the runs of a row of the page at hand, covered by its boxes
ghost use Rattle.std.specs.Prelude.{◌≡◌, ◌<◌, ◌≤◌, ◌^◌, ℕ, IfOk, length, slice_index_or, sum};

use crate::codes::fill_of;
use crate::pages::{ink_of, stamps_of};
use crate::told::{constant, of_numbers, of_refusal, unread};
use anyhow::Result;
use bp_burn::covered_runs;
use bp_codes::Fill;
use bp_core::OutOfMemory;
use bp_rows::{MAX_WIDTH, Page, Runs, allowed_sides};
use bp_t6::{StripRows, StripWriter};
use bp_test_words::{Words, hex_words};
use std::alloc::Global;

// The runs of a row of a page of that width.
#[derive(Drop)]
struct RowRuns {
    runs: Runs,
    width: u32,
    ghost total: { sum runs ≡ width },
    ghost least: { (k : ℕ) → 0 < k → k < length runs → 1 ≤ slice_index_or runs k 0 },
}

pub fn told(alloc: Global, page: &Page, words: &mut Words) -> Result<String> {
    match words.word() {
        "rows" => rows(alloc, words),
        "written" => written(alloc, page),
        "covered" => covered(alloc, page, words),
        _ => unread(alloc),
    }
}

fn rows(alloc: Global, words: &mut Words) -> Result<String> {
    let (width, calls) = (words.number(), words.number());
    let fill = fill_of(words);
    let mut bytes = Vec::new(alloc);
    words.add_bytes(&mut bytes);
    if words.is_read() && bytes.len() < 1_000_000 && 0 < width && width <= MAX_WIDTH {
        answers(alloc, &bytes, fill, width, calls)
    } else {
        unread(alloc)
    }
}

// What so many calls of a reader of rows answer.
fn answers(alloc: Global, bytes: &[u8], fill: Fill, width: u32, calls: u32) -> Result<String>
    requires short { length bytes.now < 2 ^ 32 }
    requires some { 0 < width }
    requires wide { width ≤ MAX_WIDTH }
{
    let mut reader = StripRows::over(alloc, bytes, fill, width)?;
    let mut text = String::new(alloc);
    for _ in 0..calls {
        if !text.is_empty() {
            text.push_str(" / ")?;
        }
        text.push_str(next(alloc, &mut reader)?.as_str())?;
    }
    Ok(text)
}

// The runs of the next row, or the rule that it breaks.
fn next(alloc: Global, reader: &mut StripRows<'_>) -> Result<String> {
    match reader.next_runs(alloc) {
        Ok(runs) => of_numbers(alloc, runs.as_slice()),
        Err(refusal) => of_refusal(alloc, refusal),
    }
}

/// Whether a reader of rows tells the same of a strip as `read_strip` told: the rows of the page that it
/// read, or the same rule at the same place, and again at the next call.
pub fn is_told_by_rows(
    alloc: Global,
    bytes: &[u8],
    fill: Fill,
    page: &Page,
    sides: (u32, u32),
    told: &str,
) -> Result<bool>
    requires { length bytes.now < 2 ^ 32 }
{
    let (width, height) = sides;
    if !allowed_sides(width, height) {
        return Ok(true);
    }
    let mut reader = StripRows::over(alloc, bytes, fill, width)?;
    if told.is_empty() {
        has_rows_of(alloc, &mut reader, page)
    } else {
        tells_rule(alloc, &mut reader, height, told)
    }
}

fn has_rows_of(alloc: Global, reader: &mut StripRows<'_>, page: &Page) -> Result<bool> {
    for row in 0..page.height() {
        let due = page.row_runs(alloc, row)?;
        if next(alloc, reader)? != of_numbers(alloc, due.as_slice())? {
            return Ok(false);
        }
    }
    Ok(true)
}

// Whether this rule is the first that is told within so many rows, and is told again.
fn tells_rule(alloc: Global, reader: &mut StripRows<'_>, height: u32, rule: &str) -> Result<bool> {
    for _ in 0..height {
        let answer = next(alloc, reader)?;
        if answer.as_str().starts_with("refused") {
            let again = next(alloc, reader)?;
            return Ok(answer.as_str() == rule && again == answer);
        }
    }
    Ok(false)
}

// The strip by a writer, which is left without rows, and so writes the same once more.
fn written(alloc: Global, page: &Page) -> Result<String> {
    let mut writer = StripWriter::start(alloc, page.width())?;
    add_rows(alloc, page, &mut writer)?;
    let strip = writer.finish(alloc)?;
    add_rows(alloc, page, &mut writer)?;
    let again = writer.finish(alloc)?;
    if again == strip {
        hex_words(alloc, strip.as_slice())
    } else {
        constant(alloc, "the writer had rows left")
    }
}

fn add_rows(alloc: Global, page: &Page, writer: &mut StripWriter) -> Result<()>
    requires { writer.old.width ≡ page.now.width }
    ensures { writer.new.width ≡ writer.old.width }
{
    for row in 0..page.height() {
        let made = runs_of(alloc, page, row)?;
        writer.add(&made.runs)?;
    }
    Ok(())
}

fn runs_of(alloc: Global, page: &Page, row: u32) -> Result<RowRuns, OutOfMemory>
    requires { row < page.now.height }
    ensures { IfOk result (λ made. made.width ≡ page.now.width) }
{
    let width = page.width();
    let runs = page.row_runs(alloc, row)?;
    Ok(RowRuns { runs, width })
}

fn covered(alloc: Global, page: &Page, words: &mut Words) -> Result<String> {
    let ink = ink_of(words);
    let row = words.number();
    let stamps = stamps_of(alloc, words)?;
    if !words.is_read() || row >= page.height() {
        return unread(alloc);
    }
    let made = runs_of(alloc, page, row)?;
    let runs = covered_runs(alloc, ink, &made.runs, row, &stamps)?;
    of_numbers(alloc, runs.as_slice())
}
