// The code of a row, lent out of its strip.
ghost use Rattle.std.specs.Prelude.{◌≡◌, ◌+◌, ◌<◌, ◌≤◌, ◌^◌, Bool, List, [], ◌∷◌, drop, length, slice_range, take};
ghost use Rattle.bp_codes.specs.Ahead.{IsAhead};
ghost use Rattle.bp_codes.specs.Bits.{code_bits};
ghost use Rattle.bp_codes.specs.Span.{span_bits};

use crate::lengths::LONGEST_CODE;
use bp_codes::{BitSpan, Code};
use std::marker::Model;

/// The bits of a strip from one place up to another, as those of a row's code. Nothing is seen of the
/// bits beside them.
#[derive(Drop)]
pub struct RowCode<'a> {
    span: BitSpan<'a>,
    from: u64,
    to: u64,
}

// Clauses see the bits.
impl<'a> Model for RowCode<'a> {
    ghost use Rattle.std.specs.Prelude.{Bool, List, slice_range};
    ghost use Rattle.bp_codes.specs.Span.{span_bits};
    ghost use Rattle.bp_t6.specs.SoFar.{LiesIn};

    ghost Value = { List Bool };

    ghost view = { λ c. slice_range (span_bits c.span) c.from c.to };

    ghost invariant = { λ c. LiesIn (span_bits c.span) c.from c.to };
}

impl<'a> RowCode<'a> {
    /// The bits of a span from one place up to another.
    pub(crate) fn of(span: BitSpan<'a>, from: u64, to: u64) -> RowCode<'a>
        requires order { from ≤ to }
        requires within { to ≤ length (span_bits span) }
        ensures { result ≡ slice_range (span_bits span.entry) from to }
    {
        RowCode { span, from, to }
    }

    /// How many bits there are.
    pub fn len(&self) -> u64
        ensures { result ≡ length self.now }
    {
        self.to - self.from
    }

    /// The next bits at a place, as a code: as many as the longest code has, or as are left; near the
    /// end of the strip one.
    pub fn piece(&self, at: u64) -> Code
        requires { at < length self.now }
        ensures some { 0 < result.len }
        ensures short { result.len ≤ LONGEST_CODE }
        ensures few { at + result.len ≤ length self.now }
        ensures fits { result.bits < 2 ^ result.len }
        ensures bits { code_bits result ≡ take result.len (drop at self.now) }
    {
        let first = self.from + at;
        let left = self.to - first;
        piece_at(&self.span, first, left)
    }
}

// The next bits, as a code: as many as the longest code has, or as are left. Near the end of the bytes,
// where no look-ahead is there, one.
fn piece_at(span: &BitSpan, at: u64, left: u64) -> Code
    requires some { 0 < left }
    requires within { at + left ≤ length (span_bits span.now) }
    ensures some { 0 < result.len }
    ensures short { result.len ≤ LONGEST_CODE }
    ensures few { result.len ≤ left }
    ensures fits { result.bits < 2 ^ result.len }
    ensures bits { code_bits result ≡ take result.len (drop at (span_bits span.now)) }
{
    match span.ahead(at) {
        Some(word) => first_bits(word, left.min(u64::from(LONGEST_CODE)) as u8),
        None => one_bit(span.bit(at)),
    }
}

// The first bits of a look-ahead, so many.
fn first_bits(word: u64, len: u8) -> Code
    requires some { 0 < len }
    requires short { len ≤ LONGEST_CODE }
    ensures len { result.len ≡ len }
    ensures fits { result.bits < 2 ^ len }
    ensures bits { (bits : List Bool) → IsAhead word bits → code_bits result ≡ take len bits }
{
    Code {
        bits: (word >> (64 - u32::from(len))) as u32,
        len,
    }
}

fn one_bit(bit: bool) -> Code
    ensures len { result.len ≡ 1 }
    ensures fits { result.bits < 2 }
    ensures bits { code_bits result ≡ bit ∷ [] }
{
    if bit {
        Code { bits: 1, len: 1 }
    } else {
        Code { bits: 0, len: 1 }
    }
}
