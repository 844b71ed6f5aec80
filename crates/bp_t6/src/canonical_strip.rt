// Whether a strip is the one that the coder writes: told as it is read, with no row coded.
ghost use Rattle.std.specs.Prelude.{◌≡◌, ◌<◌, ◌≤◌, ◌+◌, ◌^◌, ℕ, Bool, List, true, IfOk, IfSome, drop, length, slice_index, vec_capacity};
ghost use Rattle.bp_codes.specs.Span.{span_bits};
ghost use Rattle.bp_rows.specs.Changes.{Rises, Shows};
ghost use Rattle.bp_t6.specs.Canonical.{AreCodedLines, EndsBlock, IsCanonicalStrip, RowIsCoded};

use crate::line_reader::{read_canonical_row, room_for};
use crate::same_row::{ones_ahead, ones_of};
use crate::tables::CodeTables;
use bp_codes::{BitSpan, Fill};
use bp_core::OutOfMemory;
use bp_rows::MAX_WIDTH;
use std::alloc::Global;
use std::mem;

/// The end of the facsimile block (EOFB), and the most zero bits that may follow to the byte.
pub static BLOCK_END: [bool; 31] = [
    false, false, false, false, false, false, false, false, false, false, false, true, false,
    false, false, false, false, false, false, false, false, false, false, true, false, false,
    false, false, false, false, false,
];

// How many bits the end of the facsimile block has.
const END_BITS: u64 = 24;

/// Whether bytes are the strip of a page of these sides, in pixels, with each mode the one that the
/// coder chooses (ITU-T T.6, 2.2.4): such a strip is the one that `code_page` gives. Where it says no,
/// nothing is known. It holds two rows.
pub fn is_canonical(
    alloc: Global,
    bytes: &[u8],
    width: u32,
    height: u32,
) -> Result<bool, OutOfMemory>
    requires short { length bytes.now < 2 ^ 32 }
    requires some { 0 < width }
    requires wide { width ≤ MAX_WIDTH }
    ensures { IfOk result (λ is. is ≡ true → IsCanonicalStrip width height bytes.now) }
{
    know_bytes(bytes);
    let span = BitSpan {
        bytes,
        fill: Fill::High,
    };
    let are = are_coded_lines(alloc, &span, width, height)?;
    Ok(are)
}

// Whether the codes of so many rows of that width come first, each as the coder chooses them, and the end
// of the block then.
fn are_coded_lines(
    alloc: Global,
    span: &BitSpan,
    width: u32,
    height: u32,
) -> Result<bool, OutOfMemory>
    requires some { 0 < width }
    requires wide { width ≤ MAX_WIDTH }
    ensures { IfOk result (λ are. are ≡ true → AreCodedLines (span_bits span.now) width height) }
{
    let tables = CodeTables::new();
    let mut above = Vec::with_capacity(alloc, room_for(width))?;
    let mut line = Vec::with_capacity(alloc, room_for(width))?;
    let mut at = 0;
    for row in 0..height {
        at = match next_row(&tables, span, at, width, &mut above, &mut line) {
            Some(next) => next,
            None => return Ok(false),
        };
    }
    Ok(ends_block(span, at))
}

// What bytes are known to hold.
fn know_bytes(bytes: &[u8])
    ensures { (i : ℕ) → slice_index bytes.now i < 256 }
{
    let _bytes = bytes;
}

// The bit after the next row, where it is coded as the coder does it; the places come to show it. A row
// below the same row leaves them.
fn next_row(
    tables: &CodeTables,
    span: &BitSpan,
    at: u64,
    width: u32,
    above: &mut Vec<u32>,
    line: &mut Vec<u32>,
) -> Option<u64>
    requires some { 0 < width }
    requires wide { width ≤ MAX_WIDTH }
    requires above_room { width + 2 ≤ vec_capacity above.old }
    requires line_room { width + 2 ≤ vec_capacity line.old }
    requires above { Rises above.old.items width }
    requires place { at ≤ length (span_bits span.now) }
    ensures next { IfSome result (λ next. next ≤ length (span_bits span.now)) }
    ensures coded { let bits = span_bits span.now in
        (over : List Bool) → Shows above.old.items width over
        → IfSome result (λ next. RowIsCoded over bits at next width above.new.items) }
    ensures above_room { width + 2 ≤ vec_capacity above.new }
    ensures line_room { width + 2 ≤ vec_capacity line.new }
{
    let ones = ones_of(above, width);
    if ones_ahead(span, at, ones) {
        return Some(at + ones);
    }
    let next = match read_canonical_row(tables, span, at, width, above, line) {
        Some(next) => next,
        None => return None,
    };
    mem::swap(line, above);
    Some(next)
}

// Whether the bits from a place on are the end of the facsimile block and zeros to the byte.
fn ends_block(span: &BitSpan, at: u64) -> bool
    requires { at ≤ length (span_bits span.now) }
    ensures { result ≡ true → EndsBlock (drop at (span_bits span.now)) }
{
    let left = span.len() - at;
    if left < END_BITS || left > BLOCK_END.len() as u64 {
        return false;
    }
    for i in 0..left {
        if span.bit(at + i) != BLOCK_END[i as usize] {
            return false;
        }
    }
    true
}
