// A row that is the same as the row above it: each of its changing elements stands below one of the row
// above, so its code is a one for each of them and one for its end (ITU-T T.6, table 1, V0).
ghost use Rattle.std.specs.Prelude.{◌≡◌, ◌<◌, ◌≤◌, ◌+◌, ◌++◌, ◌^◌, Bool, List, OnOk, replicate, true, length, drop, take};
ghost use Rattle.bp_codes.specs.Ahead.{IsAhead};
ghost use Rattle.bp_codes.specs.Bits.{code_bits};
ghost use Rattle.bp_codes.specs.Span.{span_bits};
ghost use Rattle.bp_rows.specs.Changes.{Rises, Shows};
ghost use Rattle.bp_t6.specs.Marks.{Continues};
ghost use Rattle.bp_t6.specs.Written.{row_code};

use crate::bit_writer::BitWriter;
use crate::lengths::LONGEST_CODE;
use crate::run_places::count_within;
use bp_codes::{BitSpan, Code};
use std::alloc::AllocError;

// A look-ahead has at least so many bits.
const MOST_AHEAD: u64 = 57;

// As many ones as the longest code has bits.
const ALL_ONES: u32 = 8191;

// So many ones are put at once.
const PUT_AT_ONCE: u64 = LONGEST_CODE as u64;

/// How many ones are the code of the row that places show, below a row that they show, too.
#[inline(always)]
pub fn ones_of(places: &[u32], width: u32) -> u64
    requires { Rises places.now width }
    ensures { (row over : List Bool) →
        Shows places.now width row →
        Shows places.now width over →
        row_code over row ≡ replicate result true }
{
    count_within(places, width) as u64 + 1
}

/// Whether so many ones come next at a place, where it can be told by a look-ahead.
#[inline(always)]
pub fn ones_ahead(span: &BitSpan, at: u64, count: u64) -> bool
    requires { at ≤ length (span_bits span.now) }
    ensures ones { let bits = span_bits span.now in
        result ≡ true → drop at bits ≡ replicate count true ++ drop (at + count) bits }
    ensures within { result ≡ true → at + count ≤ length (span_bits span.now) }
{
    if count == 0 || count > MOST_AHEAD {
        return false;
    }
    match span.ahead(at) {
        Some(word) => are_ones(word, count as u32),
        None => false,
    }
}

// Whether the first bits of a look-ahead are ones.
#[inline(always)]
fn are_ones(word: u64, count: u32) -> bool
    requires some { 0 < count }
    requires few { count ≤ MOST_AHEAD }
    ensures { (bits : List Bool) →
        IsAhead word bits → result ≡ true → take count bits ≡ replicate count true }
{
    word >> (64 - count) == u64::MAX >> (64 - count)
}

/// Adds so many ones. Where memory is lacking, some of them may have been put.
pub fn put_ones(out: &mut BitWriter, count: u64) -> Result<(), AllocError>
    ensures put { OnOk result (out.new ≡ out.old ++ replicate count true) }
    ensures begins { Continues out.old out.new }
{
    let mut left = count;
    while left > PUT_AT_ONCE {
        out.put(ones(LONGEST_CODE))?;
        left -= PUT_AT_ONCE;
    }
    out.put(ones(left as u8))
}

// So many ones, as a code.
#[inline(always)]
fn ones(len: u8) -> Code
    requires { len ≤ LONGEST_CODE }
    ensures len { result.len ≡ len }
    ensures fits { result.bits < 2 ^ result.len }
    ensures bits { code_bits result ≡ replicate len true }
{
    Code {
        bits: ALL_ONES >> (LONGEST_CODE - len),
        len,
    }
}
