// A page: a bilevel image, kept as the packed strip of its uncompressed file.
ghost use Rattle.std.specs.Prelude.{◌≡◌, ◌≢◌, ◌+◌, ◌*◌, ◌<◌, ◌≤◌, ◌↔◌, Bool, List, false, if◌then◌else◌, length, IsTrue, IfOk, IfErr, IsErrOf, sum, OnOk, ◌∷◌, []};
ghost use Rattle.bp_core.specs.Rules.{page_limit_rule};
ghost use Rattle.bp_rows.specs.Limits.{sides_are_allowed};
ghost use Rattle.bp_core.specs.Rectangle.{LiesInside};
ghost use Rattle.bp_rows.specs.Image.{IsPage, IsGrid, pixel, row_of, with_pixel, with_row, white_image};
ghost use Rattle.bp_rows.specs.Bits.{row_bytes, image_in};
ghost use Rattle.bp_rows.specs.Changes.{changes_of};
ghost use Rattle.bp_rows.specs.Burned.{burned, row_part};
ghost use Rattle.bp_rows.specs.Packed.{packed_row, packed_rows};
ghost use Rattle.bp_rows.specs.Runs.{painted_runs, IsRuns};

use crate::bits::{
    blacken, bytes_of_row, bytes_of_strip, clear_ends, has_blank_ends, pixel_at, place_of,
    set_pixel_at,
};
use crate::changes::{drop_end, find_changes};
use crate::limits::{MAX_WIDTH, allowed_sides};
use crate::resolution::{Res, Unit};
use crate::runs::{Runs, push_runs, set_runs_at};
use bp_core::{OutOfMemory, Rect, Refusal, Rule};
use std::alloc::Global;
use std::marker::Model;
use thiserror::Error;

/// A bilevel image: its sides in pixels, two resolutions and their unit, and its rows from the top,
/// each from the left, black or white (TIFF 6.0, section 3).
#[derive(Debug, Drop)]
pub struct Page {
    width: u32,
    height: u32,
    xres: Res,
    yres: Res,
    unit: Unit,
    strip: Vec<u8>,
}

impl Model for Page {
    ghost use Rattle.bp_rows.specs.Image.{Image};
    ghost use Rattle.bp_rows.specs.Bits.{image_in, IsKept};

    ghost Value = { Image };

    ghost view = { λ p. image_in p.width p.height p.xres p.yres p.unit p.strip.items };

    ghost invariant = { λ p. IsKept p.width p.height p.xres p.yres p.strip.items };
}

/// Why bytes are not the packed strip of a page of the sides that are given with them.
#[derive(Clone, Copy, Debug, PartialEq, Eq, Error)]
pub enum StripFault {
    #[error("no page has these sides")]
    Sides,
    #[error("the strip has another length than its rows")]
    Length,
    #[error("a bit past the end of a row is set")]
    UnusedBits,
}

impl Page {
    /// A page without ink. Sides in pixels; refused by the limits of `allowed_sides`.
    pub fn white(
        alloc: Global,
        width: u32,
        height: u32,
        xres: Res,
        yres: Res,
        unit: Unit,
    ) -> Result<Page, Refusal>
        ensures ok { IfOk result (λ p.
            IsTrue (sides_are_allowed width height)
            × (p ≡ white_image width height xres yres unit)) }
        ensures err { IfErr result (λ e.
            e ≡ (if sides_are_allowed width height then Refusal.OutOfMemory
            else Refusal.Rule (page_limit_rule width height))) }
    {
        if !allowed_sides(width, height) {
            return Err(Refusal::Rule(Rule::page_limit(width, height)));
        }
        let strip = vec![in alloc; 0; bytes_of_strip(width, height)]?;
        Ok(Page {
            width,
            height,
            xres,
            yres,
            unit,
            strip,
        })
    }

    /// The page whose rows are packed in these bytes, as `strip` lends them. It takes no memory.
    pub fn from_strip(
        width: u32,
        height: u32,
        xres: Res,
        yres: Res,
        unit: Unit,
        strip: Vec<u8>,
    ) -> Result<Page, StripFault>
        ensures sides { (result ≡ Err StripFault.Sides) ↔ (sides_are_allowed width height ≡ false) }
        ensures long { (result ≡ Err StripFault.Length) ↔
            (IsTrue (sides_are_allowed width height)
            × (length strip.items ≢ height * row_bytes width)) }

        // What is made has these bytes as its strip.
        ensures found { IfOk result (λ p.
            p ≡ record (white_image width height xres yres unit) { rows = p.rows }) }
        ensures packed { IfOk result (λ p. packed_rows p.rows ≡ strip.items) }
        ensures page { IfOk result IsPage }

        // Whatever rows of these sides have these bytes as their strip are made.
        ensures only { (rows : List (List Bool)) →
            IsTrue (sides_are_allowed width height) →
            IsGrid width height rows →
            packed_rows rows ≡ strip.items →
            result ≡ Ok (record (white_image width height xres yres unit) { rows = rows }) }
    {
        if !allowed_sides(width, height) {
            return Err(StripFault::Sides);
        }
        if strip.len() != bytes_of_strip(width, height) {
            return Err(StripFault::Length);
        }
        if !has_blank_ends(&strip, width, height) {
            return Err(StripFault::UnusedBits);
        }
        Ok(Page {
            width,
            height,
            xres,
            yres,
            unit,
            strip,
        })
    }

    /// The page whose rows are packed in these bytes; the unused bits at the end of each row may be
    /// anything. It takes no memory.
    pub fn of_packed(
        width: u32,
        height: u32,
        xres: Res,
        yres: Res,
        unit: Unit,
        mut strip: Vec<u8>,
    ) -> Page
        requires sides { IsTrue (sides_are_allowed width height) }
        requires long { length strip.items ≡ height * row_bytes width }
        ensures value { result ≡ image_in width height xres yres unit strip.items }
        ensures page { IsPage result }
    {
        clear_ends(&mut strip, width, height);
        Page {
            width,
            height,
            xres,
            yres,
            unit,
            strip,
        }
    }

    /// The width in pixels.
    pub fn width(&self) -> u32
        ensures value { result ≡ self.now.width }
        ensures page { IsPage self.now }
    {
        self.width
    }

    /// The height in pixels.
    pub fn height(&self) -> u32
        ensures value { result ≡ self.now.height }
        ensures page { IsPage self.now }
    {
        self.height
    }

    /// The resolution across.
    pub fn xres(&self) -> Res
        ensures { result ≡ self.now.xres }
    {
        self.xres
    }

    /// The resolution down.
    pub fn yres(&self) -> Res
        ensures { result ≡ self.now.yres }
    {
        self.yres
    }

    /// The unit of length of both resolutions.
    pub fn unit(&self) -> Unit
        ensures { result ≡ self.now.unit }
    {
        self.unit
    }

    /// The same rows at these resolutions, in place of its own. It takes no memory.
    pub fn with_resolutions(self, xres: Res, yres: Res, unit: Unit) -> Page
        ensures { result ≡ record self { xres = xres; yres = yres; unit = unit } }
    {
        Page {
            width: self.width,
            height: self.height,
            xres,
            yres,
            unit,
            strip: self.strip,
        }
    }

    /// Whether the pixel in that row and column, counted from 0, is black.
    pub fn get(&self, row: u32, col: u32) -> bool
        requires down { row < self.now.height }
        requires across { col < self.now.width }
        ensures { result ≡ pixel self.now row col }
    {
        let at = place_of(self.width, row, col);
        pixel_at(&self.strip, at)
    }

    /// Makes the pixel in that row and column, counted from 0, black or white, and no other.
    pub fn set(&mut self, row: u32, col: u32, black: bool)
        requires down { row < self.old.height }
        requires across { col < self.old.width }
        ensures { self.new ≡ with_pixel self.old row col black }
    {
        let at = place_of(self.width, row, col);
        set_pixel_at(&mut self.strip, at, black);
    }

    /// Makes the pixels of a row black from one column up to another, which is not, and no other.
    pub fn blacken(&mut self, row: u32, from: u32, to: u32)
        requires down { row < self.old.height }
        requires order { from ≤ to }
        requires across { to ≤ self.old.width }
        ensures { self.new ≡ burned self.old (row_part row from to ∷ []) }
    {
        let start = place_of(self.width, row, 0);
        blacken(&mut self.strip, start + from as usize, start + to as usize);
    }

    /// Makes the pixels of a row those of runs, whose sum is the width, and no other. A run may be
    /// empty.
    pub fn set_runs(&mut self, row: u32, runs: &Runs)
        requires down { row < self.old.height }
        requires total { sum runs.now ≡ self.old.width }
        ensures { self.new ≡ with_row self.old row (painted_runs false runs.now) }
    {
        let size = bytes_of_row(self.width);
        set_runs_at(&mut self.strip, row as usize * size, size, runs.as_slice());
    }

    /// Makes the pixels of a rectangle black, which lies inside the page, and no other.
    pub fn blacken_box(&mut self, area: &Rect)
        requires { LiesInside area.now self.old.width self.old.height }
        ensures { self.new ≡ burned self.old (area.now ∷ []) }
    {
        let inside = area.inside(self.width(), self.height());
        prove!(inside);
        for i in 0..area.height {
            self.blacken(area.top + i, area.left, area.left + area.width);
        }
    }

    /// The rows as the packed strip of an uncompressed file, lent: each row in whole bytes, the
    /// first pixel in the high bit, black as 1, unused bits 0 (TIFF 6.0, section 3).
    pub fn strip(&self) -> &[u8]
        ensures packed { result.now ≡ packed_rows self.now.rows }
        ensures long { length result.now ≡ self.now.height * row_bytes self.now.width }
        ensures small { length result.now ≤ 50080000 }
        ensures page { IsPage self.now }
    {
        self.strip.as_slice()
    }

    // The bytes of a row.
    fn row_strip(&self, row: u32) -> &[u8]
        requires { row < self.now.height }
        ensures packed { result.now ≡ packed_row (row_of self.now row) }
        ensures wide { length (row_of self.now row) ≡ self.now.width }
        ensures small { 8 * length result.now ≤ MAX_WIDTH }
    {
        let size = bytes_of_row(self.width());
        let start = row as usize * size;
        &self.strip()[start..start + size]
    }

    /// The places of the changing elements of a row, in order, in place of what the list held: of
    /// the pixels that differ from the one before them, where before the first stands a white one
    /// (ITU-T T.6, 2.2.2).
    pub fn row_changes(&self, row: u32, places: &mut Vec<u32>) -> Result<(), OutOfMemory>
        requires { row < self.now.height }
        ensures { OnOk result (places.new.items ≡ changes_of (row_of self.now row)) }
    {
        find_changes(self.row_strip(row), places)?;
        drop_end(places, self.width());
        Ok(())
    }

    /// The runs of a row: the first may be empty, and no other.
    pub fn row_runs(&self, alloc: Global, row: u32) -> Result<Runs, OutOfMemory>
        requires { row < self.now.height }
        ensures { IfOk result (λ runs. IsRuns runs (row_of self.now row)) }
    {
        let mut places = Vec::new(alloc);
        let mut runs = Vec::new(alloc);
        self.row_changes(row, &mut places)?;
        push_runs(&mut runs, &places, self.width())?;
        Ok(Runs::from_vec(runs))
    }
}
