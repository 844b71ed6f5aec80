// Bits, read out of bytes.
ghost use Rattle.std.specs.Prelude.{◌≡◌, ◌*◌, ◌/◌, ◌+◌, IsTrue, is_some, ◌^◌, ◌<◌, ◌≤◌, length, slice_get, slice_index, Some, take, drop, IfSome};
ghost use Rattle.bp_codes.specs.Ahead.{IsAhead};
ghost use Rattle.bp_codes.specs.Bits.{word_at};
ghost use Rattle.bp_codes.specs.declared.span.Fill.TheVariants.{High};

use crate::reversed::REVERSED;

/// Which bit of a byte is the first one (TIFF 6.0, section 8, FillOrder).
#[derive(Clone, Copy, Debug, PartialEq, Eq)]
pub enum Fill {
    /// The bit of value 128 is the first one (FillOrder 1).
    High,
    /// The bit of value 1 is the first one (FillOrder 2).
    Low,
}

/// How many bits of a look-ahead are there at least.
pub const AHEAD: u32 = 57;

/// The bits of fewer than 2^32 bytes. Places count bits from 0.
#[derive(Clone, Copy, Debug)]
pub struct BitSpan<'a> {
    pub bytes: &'a [u8],
    pub fill: Fill,
    ghost short: { length bytes.now < 2 ^ 32 },
}

impl BitSpan<'_> {
    ghost use Rattle.bp_codes.specs.Bits.{byte_bits, number_of_bits};
    ghost use Rattle.bp_codes.specs.Span.{span_bits};

    /// How many bits there are.
    pub fn len(&self) -> u64
        ensures { result ≡ length (span_bits self.now) }
    {
        self.bytes.len() as u64 * 8
    }

    /// The bit at a place.
    pub fn bit(&self, at: u64) -> bool
        requires { at < length (span_bits self.now) }
        ensures { slice_get (span_bits self.now) at ≡ Some result }
    {
        let byte = self.bytes[(at / 8) as usize];
        let skipped = at % 8;
        match self.fill {
            Fill::High => byte >> (7 - skipped) & 1 == 1,
            Fill::Low => byte >> skipped & 1 == 1,
        }
    }

    /// The bits that come next at a place, in a word whose first 57 they are at least; none where fewer
    /// than eight bytes are left, or where the bit of value 1 is the first one.
    #[inline(always)]
    pub fn ahead(&self, at: u64) -> Option<u64>
        requires { at ≤ length (span_bits self.now) }
        ensures ahead { IfSome result (λ word. IsAhead word (drop at (span_bits self.now))) }
        ensures there { self.now.fill ≡ High → at / 8 + 8 ≤ length self.now.bytes.now
            → IsTrue (is_some result) }
    {
        let first = (at / 8) as usize;
        match self.fill {
            Fill::High if first + 8 <= self.bytes.len() => {
                Some(long_word(self.bytes, first) << (at % 8))
            }
            _ => None,
        }
    }

    /// The number that `count` bits from a place on are, the first bit highest.
    pub(crate) fn window(&self, at: u64, count: u32) -> u32
        requires short { count ≤ 16 }
        requires within { at + count ≤ length (span_bits self.now) }
        ensures { result ≡ number_of_bits (take count (drop at (span_bits self.now))) }
    {
        let skipped = (at % 8) as u32;
        let rest = u64::from(self.word((at / 8) as usize) << skipped);
        (rest >> (32 - count)) as u32
    }

    // Four bytes, the first bit highest, with zeros past the last one.
    fn word(&self, first: usize) -> u32
        requires { first < 2 ^ 62 }
        ensures { result ≡ word_at self.now.fill self.now.bytes.now first }
    {
        match self.fill {
            Fill::High if first + 4 <= self.bytes.len() => whole_word(self.bytes, first),
            _ => {
                self.byte(first) << 24
                    | self.byte(first + 1) << 16
                    | self.byte(first + 2) << 8
                    | self.byte(first + 3)
            }
        }
    }

    // A byte with its first bit highest; 0 past the last one.
    fn byte(&self, place: usize) -> u32
        ensures { let byte = slice_index self.now.bytes.now place in
            result ≡ number_of_bits (byte_bits self.now.fill byte) }
    {
        let byte = self.bytes.get(place).copied().unwrap_or(0);
        match self.fill {
            Fill::High => u32::from(byte),
            Fill::Low => u32::from(REVERSED[usize::from(byte)]),
        }
    }
}

// Eight bytes that are there, the bit of value 128 first: one read where the machine has it.
#[inline(always)]
fn long_word(bytes: &[u8], first: usize) -> u64
    requires { first + 8 ≤ length bytes.now }
    ensures { result ≡ word_at High bytes.now first * 2 ^ 32 + word_at High bytes.now (first + 4) }
{
    u64::from(whole_word(bytes, first)) << 32 | u64::from(whole_word(bytes, first + 4))
}

// Four bytes that are there, the bit of value 128 first: one read where the machine has it.
fn whole_word(bytes: &[u8], first: usize) -> u32
    requires { first + 4 ≤ length bytes.now }
    ensures { result ≡ word_at High bytes.now first }
{
    u32::from(bytes[first]) << 24
        | u32::from(bytes[first + 1]) << 16
        | u32::from(bytes[first + 2]) << 8
        | u32::from(bytes[first + 3])
}
