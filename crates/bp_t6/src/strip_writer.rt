// A strip written a row at a time.
ghost use Rattle.std.specs.Prelude.{◌≡◌, ◌<◌, ◌≤◌, ◌++◌, ◌∷◌, ℕ, Bool, List, [], IfOk, OnOk, OnErr, length, sum, false, slice_index_or};
ghost use Rattle.bp_rows.specs.Changes.{Shows};
ghost use Rattle.bp_rows.specs.Image.{Image, row_of};
ghost use Rattle.bp_rows.specs.Runs.{painted_runs};
ghost use Rattle.bp_t6.specs.SoFar.{HasAdded, last_line};
ghost use Rattle.bp_t6.specs.Written.{row_code, bits_strip, white_line};

use crate::line_writer::LineWriter;
use crate::row_code::RowCode;
use crate::run_places::{copy_places, push_places};
use crate::strip_rows::StripRows;
use bp_core::{Bytes, OutOfMemory};
use bp_rows::{MAX_WIDTH, Page, Runs};
use std::alloc::Global;
use std::marker::Model;

/// A strip under way, to which rows are added as runs (ITU-T T.6). Beside the strip it keeps one
/// row of memory.
#[derive(Drop)]
pub struct StripWriter {
    lines: LineWriter,
    places: Vec<u32>,
}

// Clauses see the width, the codes so far, and the changing elements of the last row.
impl Model for StripWriter {
    ghost use Rattle.bp_t6.specs.SoFar.{AddedSoFar, IsWriter};

    ghost Value = { AddedSoFar };

    ghost view = { λ w.
        record { width = w.lines.width; bits = w.lines.out; above = w.lines.above.items } };

    ghost invariant = { λ w. IsWriter w.lines.width w.lines.above.items };
}

impl StripWriter {
    /// A writer without rows, for rows of that width in pixels.
    pub fn start(alloc: Global, width: u32) -> Result<StripWriter, OutOfMemory>
        requires some { 0 < width }
        requires wide { width ≤ MAX_WIDTH }
        ensures width { IfOk result (λ writer. writer.width ≡ width) }
        ensures none { IfOk result (λ writer. HasAdded writer []) }
    {
        Ok(StripWriter {
            lines: LineWriter::new(alloc, width),
            places: Vec::new(alloc),
        })
    }

    /// Makes room for so many bytes of the strip more, up to which it needn't grow.
    pub fn reserve(&mut self, bytes: usize) -> Result<(), OutOfMemory>
        ensures { self.new ≡ self.old }
    {
        self.lines.out.reserve(bytes)?;
        Ok(())
    }

    /// Adds the row of runs, whose sum is the width: the first may be empty, and no other.
    /// A refusal leaves the writer.
    pub fn add(&mut self, runs: &Runs) -> Result<(), OutOfMemory>
        requires total { sum runs.now ≡ self.old.width }
        requires least { (k : ℕ) →
            0 < k → k < length runs.now → 1 ≤ slice_index_or runs.now k 0 }
        ensures width { self.new.width ≡ self.old.width }
        ensures added { (lines : List (List Bool)) → HasAdded self.old lines
            → OnOk result (HasAdded self.new (lines ++ painted_runs false runs.now ∷ [])) }
        ensures kept { OnErr result (self.new ≡ self.old) }
    {
        push_places(&mut self.places, runs.as_slice())?;
        self.lines.add(&mut self.places)?;
        Ok(())
    }

    /// Adds the row that a reader of rows of that width read last. A refusal leaves the writer.
    pub fn add_read(&mut self, rows: &StripRows) -> Result<(), OutOfMemory>
        requires { rows.now.width ≡ self.old.width }
        ensures width { self.new.width ≡ self.old.width }
        ensures added { (lines : List (List Bool)) (line : List Bool) → HasAdded self.old lines
            → Shows rows.now.above rows.now.width line
            → OnOk result (HasAdded self.new (lines ++ line ∷ [])) }
        ensures kept { OnErr result (self.new ≡ self.old) }
    {
        copy_places(&mut self.places, rows.places(), self.lines.width)?;
        self.lines.add(&mut self.places)?;
        Ok(())
    }

    /// Adds the row that places show. A refusal leaves the writer.
    pub fn add_places(&mut self, places: &[u32]) -> Result<(), OutOfMemory>
        requires { (line : List Bool) × Shows places.now self.old.width line }
        ensures width { self.new.width ≡ self.old.width }
        ensures added { (lines : List (List Bool)) (line : List Bool) → HasAdded self.old lines
            → Shows places.now self.old.width line
            → OnOk result (HasAdded self.new (lines ++ line ∷ [])) }
        ensures kept { OnErr result (self.new ≡ self.old) }
    {
        copy_places(&mut self.places, places, self.lines.width)?;
        self.lines.add(&mut self.places)?;
        Ok(())
    }

    /// Adds the row that places show: as its code these bits, which are copied (`laws::code_law`). A
    /// refusal leaves the writer.
    pub fn add_code(&mut self, places: &[u32], code: &RowCode) -> Result<(), OutOfMemory>
        requires { (line : List Bool) × Shows places.now self.old.width line }
        ensures width { self.new.width ≡ self.old.width }
        ensures added { (lines : List (List Bool)) (line : List Bool) → HasAdded self.old lines
            → Shows places.now self.old.width line
            → code.now ≡ row_code (last_line (white_line self.old.width) lines) line
            → OnOk result (HasAdded self.new (lines ++ line ∷ [])) }
        ensures kept { OnErr result (self.new ≡ self.old) }
    {
        copy_places(&mut self.places, places, self.lines.width)?;
        self.lines.copy(&mut self.places, code)?;
        Ok(())
    }

    /// Adds a row of a page of that width. A refusal leaves the writer.
    pub fn add_page_row(&mut self, page: &Page, row: u32) -> Result<(), OutOfMemory>
        requires down { row < page.now.height }
        requires wide { page.now.width ≡ self.old.width }
        ensures width { self.new.width ≡ self.old.width }
        ensures added { (lines : List (List Bool)) → HasAdded self.old lines
            → OnOk result (HasAdded self.new (lines ++ row_of page.now row ∷ [])) }
        ensures kept { OnErr result (self.new ≡ self.old) }
    {
        let _width = page.width();
        page.row_changes(row, &mut self.places)?;
        self.lines.add(&mut self.places)?;
        Ok(())
    }

    /// The strip of the rows that were added, with the end of the facsimile block and zero bits to
    /// the byte. The writer is left without rows; a refusal leaves it as it was.
    pub fn finish(&mut self, alloc: Global) -> Result<Bytes, OutOfMemory>
        ensures strip { (p : Image) → p.width ≡ self.old.width → HasAdded self.old p.rows
            → IfOk result (λ bytes. bytes ≡ bits_strip p) }
        ensures width { self.new.width ≡ self.old.width }
        ensures none { OnOk result (HasAdded self.new []) }
        ensures kept { OnErr result (self.new ≡ self.old) }
    {
        Ok(Bytes::from_vec(self.lines.finish(alloc)?))
    }
}
