// Rows of pages covered by stamps.
ghost use Rattle.std.specs.Prelude.{◌≡◌, ◌+◌, ◌<◌, ◌≤◌, ◌&&◌, ℕ, IfOk, sum, false, nat_lt};
ghost use Rattle.bp_core.specs.Rectangle.{LiesInside, has_pixel};
ghost use Rattle.bp_rows.specs.Image.{Image, row_of};
ghost use Rattle.bp_rows.specs.Runs.{IsRuns, painted_runs};
ghost use Rattle.bp_burn.specs.Covered.{covered, covered_rows};
ghost use Rattle.bp_burn.specs.Ink.{page_changed};

use crate::letters::{erase_letters, shows_letters};
use crate::paper::white_page;
use bp_core::{Ink, OutOfMemory, Rect, Stamp, StampList};
use bp_rows::{MAX_WIDTH, Page, Runs};
use std::alloc::Global;

/// The runs of a row of a page, white first, of whose runs it was before: its boxes covered. The
/// row is counted from 0 in the page of the stamps.
pub fn covered_runs(
    alloc: Global,
    ink: Ink,
    runs: &Runs,
    row: u32,
    stamps: &StampList,
) -> Result<Runs, OutOfMemory>
    requires some { 0 < sum runs.now }
    requires few { sum runs.now ≤ MAX_WIDTH }
    ensures { (p : Image) → row < p.height
        → p.width ≡ sum runs.now
        → row_of p row ≡ painted_runs false runs.now
        → IfOk result (λ out. IsRuns out (row_of (covered ink p stamps.now) row)) }
{
    let line = covered_line(alloc, ink, runs, row, stamps)?;
    line.row_runs(alloc, 0)
}

/// The same row as a page of its own.
pub fn covered_line(
    alloc: Global,
    ink: Ink,
    runs: &Runs,
    row: u32,
    stamps: &StampList,
) -> Result<Page, OutOfMemory>
    requires some { 0 < sum runs.now }
    requires few { sum runs.now ≤ MAX_WIDTH }
    ensures height { IfOk result (λ line. line.height ≡ 1) }
    ensures width { IfOk result (λ line. line.width ≡ sum runs.now) }
    ensures row { (p : Image) → row < p.height
        → p.width ≡ sum runs.now
        → row_of p row ≡ painted_runs false runs.now
        → IfOk result (λ line. row_of line 0 ≡ row_of (covered ink p stamps.now) row) }
{
    let mut line = white_page(alloc, width_of(runs), 1)?;
    line.set_runs(0, runs);
    cover_rows(&mut line, 1, row, ink, stamps.as_slice());
    Ok(line)
}

// How many pixels runs have.
fn width_of(runs: &Runs) -> u32
    requires { sum runs.now ≤ MAX_WIDTH }
    ensures { result ≡ sum runs.now }
{
    runs.as_slice().iter().sum()
}

/// Covers the first rows of a page, which are so many. Row 0 of this page is row `first` of the page
/// of the stamps.
pub fn cover_rows(page: &mut Page, rows: u32, first: u32, ink: Ink, stamps: &[Stamp])
    requires { rows ≤ page.old.height }
    ensures { page.new ≡ page_changed page.old (covered_rows rows first ink stamps.now) }
{
    let width = page.width();
    for stamp in stamps {
        page.blacken_box(&part_in_rows(&stamp.rect, width, rows, first));
        if shows_letters(ink, stamp) {
            erase_letters(page, rows, first, stamp);
        }
    }
}

// What of a box lies in so many rows of this width, of which the first is row `first` of its page.
fn part_in_rows(area: &Rect, width: u32, rows: u32, first: u32) -> Rect
    ensures inside { LiesInside result width rows }
    ensures pixels { (r c : ℕ) → c < width →
        has_pixel result r c ≡ (nat_lt r rows && has_pixel area.now (first + r) c) }
{
    let left = area.left.min(width);
    let top = area.top.saturating_sub(first).min(rows);
    let above = first.saturating_sub(area.top);
    Rect {
        left,
        top,
        width: area.width.min(width - left),
        height: area.height.saturating_sub(above).min(rows - top),
    }
}
