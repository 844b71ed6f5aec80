// Rows painted from the places of their changes, 64 pixels at a time.
ghost use Rattle.std.specs.Prelude.{◌≡◌, ◌≤◌, ◌<◌, ◌+◌, ◌-◌, ◌*◌, ◌/◌, ◌&&◌, ◌++◌, ◌||◌, ℕ, Bool, List, OnOk, OnErr, false, length, nat_le, nat_lt, not, replicate, slice_index_or, if◌then◌else◌};
ghost use Rattle.bp_rows.specs.Bits.{black_at, AreBytes};
ghost use Rattle.bp_rows.specs.Packed.{packed_row};
ghost use Rattle.bp_rows.specs.Changes.{place_at, Shows, Rises};
ghost use Rattle.bp_rows.specs.Words.{is_one};

use crate::bits::{blacken_bytes, bytes_of_row};
use crate::changes::place_in;
use crate::limits::MAX_WIDTH;
use std::alloc::AllocError;

// So many pixels are painted at a time.
const WORD_PIXELS: u32 = 64;

// A white row of the greatest width, in whole words.
static WHITE_ROW: [u8; 2504] = [0; 2504];

// The pixels of a word, the first in the high bit, and the position of the first change behind them.
#[derive(Clone, Copy)]
struct Painted {
    pixels: u64,
    next: usize,
}

// A word of one colour.
#[inline(always)]
fn colour_word(black: bool) -> u64
    ensures { (i : ℕ) → i < 64 → is_one result (63 - i) ≡ black }
{
    if black { u64::MAX } else { 0 }
}

// The pixels of a word with all turned from one on.
#[inline(always)]
fn turn_from(pixels: u64, first: u32) -> u64
    requires { first < 64 }
    ensures { (i : ℕ) → i < 64 → is_one result (63 - i)
        ≡ (if nat_lt i first then is_one pixels (63 - i) else not (is_one pixels (63 - i))) }
{
    pixels ^ u64::MAX >> first
}

// The same from the end of a row on, where the row ends in the word and is black there.
#[inline(always)]
fn end_row(pixels: u64, black: bool, base: u32, width: u32) -> u64
    requires { base ≤ width }
    ensures open { base + 64 ≤ width → result ≡ pixels }
    ensures ended { width < base + 64 → (i : ℕ) → i < 64 → is_one result (63 - i)
        ≡ (if black && nat_le width (base + i) then not (is_one pixels (63 - i))
        else is_one pixels (63 - i)) }
{
    if black && width - base < WORD_PIXELS {
        return turn_from(pixels, width - base);
    }
    pixels
}

// The 64 pixels from a base on. `first` is the position of the first change that isn't left of them; each
// change turns all pixels behind it.
#[inline(always)]
fn paint_word(places: &[u32], first: usize, base: u32, width: u32) -> Painted
    requires wide { width ≤ MAX_WIDTH }
    requires rises { Rises places.now width }
    requires on { base ≤ width }
    requires behind { (j : ℕ) → j + 1 ≡ first → place_at places.now width j ≤ base }
    requires ahead { base ≤ place_at places.now width first }
    ensures pixels { (line : List Bool) (i : ℕ) → Shows places.now width line → i < 64
        → is_one result.pixels (63 - i) ≡ slice_index_or line (base + i) false }
    ensures behind { (j : ℕ) → j + 1 ≡ result.next → place_at places.now width j < base + WORD_PIXELS }
    ensures ahead { base + WORD_PIXELS ≤ width
        → base + WORD_PIXELS ≤ place_at places.now width result.next }
{
    let mut pixels = colour_word(first % 2 == 1);
    let mut next = first;
    while next < places.len() && places[next] < base + WORD_PIXELS {
        pixels = turn_from(pixels, places[next] - base);
        next += 1;
    }
    let pixels = end_row(pixels, next % 2 == 1, base, width);
    Painted { pixels, next }
}

// Sets the eight bytes of a word.
#[inline(always)]
fn put_word(row: &mut [u8], word: u32, pixels: u64)
    requires { 8 * word + 8 ≤ length row.old }
    ensures long { length row.new ≡ length row.old }
    ensures pixels { (i : ℕ) → black_at row.new i
        ≡ (if nat_le (64 * word) i && nat_lt i (64 * word + 64)
        then is_one pixels (63 - (i - 64 * word)) else black_at row.old i) }
    ensures fit { AreBytes row.new }
{
    let at = 8 * word as usize;
    row[at..at + 8].copy_from_slice(&pixels.to_be_bytes());
}

// Blackens the words from one up to another, which is not, where they are to be black.
#[inline(always)]
fn fill_words(row: &mut [u8], black: bool, word: u32, to: u32)
    requires order { word ≤ to }
    requires end { 8 * to ≤ length row.old }
    ensures pixels { (i : ℕ) → black_at row.new i
        ≡ (black && (nat_le (64 * word) i && nat_lt i (64 * to)) || black_at row.old i) }
    ensures long { length row.new ≡ length row.old }
{
    if black {
        blacken_bytes(row, 8 * word as usize, 8 * to as usize);
    }
}

// A white row in whole words gets the pixels of the line that the places show. Words between changes are
// left white or blackened at once.
#[inline(always)]
fn paint_row(row: &mut [u8], places: &[u32], width: u32)
    requires wide { width ≤ MAX_WIDTH }
    requires rises { Rises places.now width }
    requires white { row.old ≡ replicate (8 * (width / 64 + 1)) 0 }
    ensures pixels { (line : List Bool) (i : ℕ) → Shows places.now width line
        → black_at row.new i ≡ slice_index_or line i false }
    ensures long { length row.new ≡ length row.old }
    ensures fit { AreBytes row.new }
{
    let mut word = 0;
    let mut next = 0;
    while word <= width / WORD_PIXELS {
        let to = place_in(places, next, width) / WORD_PIXELS;
        fill_words(row, next % 2 == 1, word, to);
        let painted = paint_word(places, next, WORD_PIXELS * to, width);
        put_word(row, to, painted.pixels);
        word = to + 1;
        next = painted.next;
    }
}

/// The packed row that the places show is added to a strip; where memory runs out, the strip stays as
/// it was. `row` is lent for the work.
pub fn push_row(
    strip: &mut Vec<u8>,
    row: &mut Vec<u8>,
    places: &[u32],
    width: u32,
) -> Result<(), AllocError>
    requires wide { width ≤ MAX_WIDTH }
    requires rises { Rises places.now width }
    ensures added { (line : List Bool) → Shows places.now width line
        → OnOk result (strip.new.items ≡ strip.old.items ++ packed_row line) }
    ensures kept { OnErr result (strip.new.items ≡ strip.old.items) }
{
    row.clear();
    row.extend_from_slice(white_words(width))?;
    paint_row(row, places, width);
    strip.extend_from_slice(&row[..bytes_of_row(width)])
}

// A white row of this width, in whole words.
fn white_words(width: u32) -> &'static [u8]
    requires { width ≤ MAX_WIDTH }
    ensures { result.now ≡ replicate (8 * (width / 64 + 1)) 0 }
{
    &WHITE_ROW[..8 * (width / WORD_PIXELS + 1) as usize]
}
