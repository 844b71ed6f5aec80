// The rows of a page's strip, read into room that was taken before.
ghost use Rattle.std.specs.Prelude.{◌≡◌, ◌<◌, ◌≤◌, ◌^◌, Bool, List, [], None, length, slice_range};
ghost use Rattle.bp_codes.specs.declared.span.Fill.TheVariants.{High};
ghost use Rattle.bp_codes.specs.Bits.{bits_of};
ghost use Rattle.bp_codes.specs.Span.{span_bits};
ghost use Rattle.bp_rows.specs.Changes.{Shows};
ghost use Rattle.bp_t6.specs.SoFar.{HasNextRow, HasRead, ReadsLine, unread};

use crate::laws::rows_law;
use crate::line_reader::read_row_in_room;
use crate::row_code::RowCode;
use crate::row_room::RowRoom;
use crate::tables::CodeTables;
use bp_codes::{BitSpan, Fill};
use bp_rows::MAX_WIDTH;
use std::marker::Model;
use std::mem;

/// A reader of the rows of a strip that is a page's (ITU-T T.6), in room that was taken before. No call
/// of it has an answer: what reads rows can tell no want of memory, whatever it sees.
#[derive(Drop)]
pub struct PageRows<'a> {
    tables: CodeTables,
    span: BitSpan<'a>,
    width: u32,
    row: u64,
    at: u64,
    above: Vec<u32>,
    line: Vec<u32>,
}

// Clauses see a reader of strips that found no fault.
impl<'a> Model for PageRows<'a> {
    ghost use Rattle.std.specs.Prelude.{None, vec_capacity};
    ghost use Rattle.bp_codes.specs.Span.{span_bits};
    ghost use Rattle.bp_t6.specs.SoFar.{ReadSoFar, IsReader, IsRoomyReader};

    ghost Value = { ReadSoFar };

    ghost view = { λ r. record {
      bits = span_bits r.span;
      width = r.width;
      row = r.row;
      at = r.at;
      above = r.above.items;
      fault = None;
    } };

    ghost invariant = { λ r. IsRoomyReader
        (IsReader (span_bits r.span) r.width r.row r.at r.above.items)
        r.width (vec_capacity r.above) (vec_capacity r.line) };
}

impl<'a> PageRows<'a> {
    /// A reader at the first bit of a strip, for rows of the width that there is room for. The bytes
    /// are lent.
    pub fn over(room: RowRoom, bytes: &'a [u8]) -> PageRows<'a>
        requires short { length bytes.now < 2 ^ 32 }
        requires some { 0 < room }
        requires wide { room ≤ MAX_WIDTH }
        ensures unread { result ≡ unread (bits_of High bytes.now) room }
        ensures none { HasRead result [] }
    {
        PageRows {
            tables: CodeTables::new(),
            span: BitSpan {
                bytes,
                fill: Fill::High,
            },
            width: room.width,
            row: 0,
            at: 0,
            above: room.above,
            line: room.line,
        }
    }

    /// Reads the next row of the page.
    pub fn next_row(&mut self)
        requires { HasNextRow self.old }
        ensures bits { self.new.bits ≡ self.old.bits }
        ensures width { self.new.width ≡ self.old.width }
        ensures read { self.new.fault ≡ None }
        ensures next { (lines : List (List Bool)) → HasRead self.old lines → ReadsLine lines self.new }
    {
        rows_law();
        let (tables, span) = (&self.tables, &self.span);
        let next = match read_row_in_room(
            tables,
            span,
            self.at,
            self.width,
            &self.above,
            &mut self.line,
        ) {
            Ok(next) => next,
            // The strip of a page breaks no rule.
            Err(_fault) => unreachable!(),
        };
        mem::swap(&mut self.line, &mut self.above);
        self.row += 1;
        self.at = next;
    }

    /// The bit up to which the strip is read, counted from 0.
    pub fn at(&self) -> u64
        ensures at { result ≡ self.now.at }
        ensures within { result ≤ length self.now.bits }
    {
        self.at
    }

    /// The places that show the row that was read last.
    pub fn places(&self) -> &[u32]
        ensures are { result.now ≡ self.now.above }
        ensures show { (line : List Bool) × Shows result.now self.now.width line }
    {
        &self.above
    }

    /// The bits of the strip from a place up to where reading stands: the code of the row that was read
    /// last, where that place is the one before it (`laws::code_law`).
    pub fn code_since(&self, from: u64) -> RowCode<'a>
        requires { from ≤ self.now.at }
        ensures { result ≡ slice_range self.now.bits from self.now.at }
    {
        RowCode::of(self.span, from, self.at)
    }
}
