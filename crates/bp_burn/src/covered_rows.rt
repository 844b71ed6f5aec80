// The rows of a page on their way out: read from its strip and covered, one at a time.
//
// All room is taken before (out_room.rt), by what sees no page. Nothing here has an allocator or an
// answer, so nothing that sees a covered pixel can tell of it by want of memory; what may want memory,
// the coder, sees a row when it is covered.
ghost use Rattle.std.specs.Prelude.{◌≡◌, ◌+◌, ◌-◌, ◌<◌, ◌≤◌, ◌∷◌, Bool, List, [], IsTrue, true};
ghost use Rattle.bp_codes.specs.declared.span.Fill.TheVariants.{High};
ghost use Rattle.bp_codes.specs.Bits.{bits_of};
ghost use Rattle.bp_rows.specs.Changes.{Rises, Shows};
ghost use Rattle.bp_rows.specs.Image.{Image, row_of};
ghost use Rattle.bp_rows.specs.Limits.{sides_are_imported};
ghost use Rattle.bp_burn.specs.Covered.{covered};
ghost use Rattle.bp_burn.specs.RowsOut.{AreOf, IsKindBy, IsLine, above_out, last_out};
ghost use Rattle.bp_burn.specs.Strips.{IsPageStrip, has_row, touches_above, touches_row};

use crate::out_room::OutRoom;
use crate::stamps::cover_rows;
use bp_core::{Ink, Rect, Stamp, StampList};
use bp_rows::{Page, Runs, place_in};
use bp_t6::laws::{code_law, rows_law, strip_size};
use bp_t6::{PageRows, RowCode};
use std::marker::Model;

/// The rows of a page, covered. Each is read from the page's strip into room that was taken before.
#[derive(Drop)]
pub struct CoveredRows<'a> {
    rows: PageRows<'a>,
    from: u64,
    line: Page,
    white: Runs,
    ink: Ink,
    stamps: &'a StampList,
    height: u32,
    row: u32,
}

// Clauses see the bits of the strip, the sides, ink and stamps, and how many rows were read.
impl<'a> Model for CoveredRows<'a> {
    ghost use Rattle.bp_burn.specs.RowsOut.{RowsOut, IsGoingOut};

    ghost Value = { RowsOut };

    ghost view = { λ r. record {
      bits = r.rows.bits;
      width = r.rows.width;
      height = r.height;
      ink = r.ink;
      stamps = r.stamps.now;
      row = r.row;
    } };

    ghost invariant = { λ r.
        IsGoingOut r.rows r.from r.line r.white r.ink r.stamps.now r.height r.row };
}

/// A row that is lent covered.
#[derive(Drop)]
pub enum CoveredRow<'r> {
    /// A row with some box in it, as the one row of a page.
    Painted(&'r Page),
    /// A row without, by the places where its colour changes.
    Bare(&'r [u32]),
    /// A row without, below another without: with its code, which stands so in the page's strip.
    Coded(&'r [u32], RowCode<'r>),
}

impl<'a> CoveredRows<'a> {
    /// The rows of the strip of a page, before the first: of a page of that height in pixels, and of the
    /// width that there is room for.
    pub fn over(
        room: OutRoom,
        ink: Ink,
        strip: &'a [u8],
        height: u32,
        stamps: &'a StampList,
    ) -> CoveredRows<'a>
        requires sides { IsTrue (sides_are_imported room height) }
        requires strip { IsPageStrip room height strip.now }
        ensures { result ≡ record {
          bits = bits_of High strip.now;
          width = room;
          height = height;
          ink = ink;
          stamps = stamps.now;
          row = 0;
        } }
    {
        rows_law();
        strip_size();
        CoveredRows {
            rows: PageRows::over(room.rows, strip),
            from: 0,
            line: room.line,
            white: room.white,
            ink,
            stamps,
            height,
            row: 0,
        }
    }

    /// The width of the page in pixels.
    pub fn width(&self) -> u32
        ensures { result ≡ self.now.width }
    {
        self.line.width()
    }

    /// The height of the page in pixels.
    pub fn height(&self) -> u32
        ensures { result ≡ self.now.height }
    {
        self.height
    }

    /// The stamps that cover the page.
    pub fn stamps(&self) -> &StampList
        ensures { result.now ≡ self.now.stamps }
    {
        self.stamps
    }

    /// Reads the next row, and covers it.
    pub fn next(&mut self)
        requires { self.old.row < self.old.height }
        ensures { self.new ≡ record self.old { row = self.old.row + 1 } }
    {
        rows_law();
        code_law();
        let marks = self.stamps.as_slice();
        let from = self.rows.at();
        self.rows.next_row();
        let places = self.rows.places();
        cover_row(
            &mut self.line,
            &self.white,
            places,
            self.row,
            self.ink,
            marks,
        );
        self.from = from;
        self.row += 1;
    }

    /// The row that was read last, covered.
    pub fn row(&self) -> CoveredRow<'_>
        requires { 0 < self.now.row }
        ensures line { (p : Image) → AreOf self.now p
            → IsLine self.now.width (above_out self.now p) (last_out self.now p) result }
        ensures kind { IsKindBy self.now.stamps (self.now.row - 1) result }
    {
        let marks = self.stamps.as_slice();
        let row = self.row - 1;
        if touches_row(marks, row) {
            return CoveredRow::Painted(&self.line);
        }
        let places = self.rows.places();
        if touches_above(marks, row) {
            return CoveredRow::Bare(places);
        }
        CoveredRow::Coded(places, self.rows.code_since(self.from))
    }
}

// Where some stamp lies in a row of a page, makes the one row of another page that row, covered. The
// places that show the row are lent, and the runs of a white one.
fn cover_row(line: &mut Page, white: &Runs, places: &[u32], row: u32, ink: Ink, stamps: &[Stamp])
    requires one { line.old.height ≡ 1 }
    requires white { white.now ≡ line.old.width ∷ [] }
    requires rises { Rises places.now line.old.width }
    ensures width { line.new.width ≡ line.old.width }
    ensures height { line.new.height ≡ 1 }
    ensures row { (p : Image) → row < p.height → p.width ≡ line.old.width
        → Shows places.now line.old.width (row_of p row)
        → touches_row stamps.now row ≡ true
        → row_of line.new 0 ≡ row_of (covered ink p stamps.now) row }
{
    if !touches_row(stamps, row) {
        return;
    }
    paint_places(line, white, places);
    cover_rows(line, 1, row, ink, stamps);
}

// Makes the first row of a page the one that the places show. The runs of a white row are lent.
fn paint_places(page: &mut Page, white: &Runs, places: &[u32])
    requires down { 0 < page.old.height }
    requires white { white.now ≡ page.old.width ∷ [] }
    requires rises { Rises places.now page.old.width }
    ensures width { page.new.width ≡ page.old.width }
    ensures height { page.new.height ≡ page.old.height }
    ensures row { (line : List Bool) → Shows places.now page.old.width line
        → row_of page.new 0 ≡ line }
{
    let width = page.width();
    page.set_runs(0, white);
    let count = places.len();
    let mut k = 0;
    while k < count {
        let from = place_in(places, k, width);
        let to = place_in(places, k + 1, width);
        page.blacken(0, from, to);
        k += 2;
    }
}

// Whether some stamp lies in the row above a row.
fn touches_above(stamps: &[Stamp], row: u32) -> bool
    ensures { result ≡ touches_above stamps.now row }
{
    0 < row && touches_row(stamps, row - 1)
}

// Whether some stamp lies in a row.
fn touches_row(stamps: &[Stamp], row: u32) -> bool
    ensures { result ≡ touches_row stamps.now row }
{
    stamps.iter().any(|stamp| has_row(&stamp.rect, row))
}

fn has_row(area: &Rect, row: u32) -> bool
    ensures { result ≡ has_row area.now row }
{
    area.top <= row && row - area.top < area.height
}
