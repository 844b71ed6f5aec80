// The changing elements of packed pixels, found eight bytes at a time (ITU-T T.6, 2.2.2).
ghost use Rattle.std.specs.Prelude.{◌≡◌, ◌<◌, ◌≤◌, ◌+◌, ◌-◌, ◌*◌, ◌++◌, Bool, false, List, [], ◌∷◌, OnOk, length, take, drop, replicate, slice_index};
ghost use Rattle.bp_rows.specs.Changes.{changes_from, changes_of, place_at};
ghost use Rattle.bp_rows.specs.Words.{pixels_in_bytes, word_ones, word_pixels};

use crate::limits::MAX_WIDTH;
use std::alloc::AllocError;

/// The place at a position of a list of places, or the width past its end.
#[inline(always)]
pub fn place_in(places: &[u32], at: usize, width: u32) -> u32
    ensures { result ≡ place_at places.now width at }
{
    if at < places.len() { places[at] } else { width }
}

/// The places of the changing elements of all pixels of the bytes and of a white one after them.
pub fn find_changes(bytes: &[u8], places: &mut Vec<u32>) -> Result<(), AllocError>
    requires { 8 * length bytes.now ≤ MAX_WIDTH }
    ensures { OnOk result
        (places.new.items ≡ changes_of (pixels_in_bytes bytes.now ++ false ∷ [])) }
{
    places.clear();
    let whole = bytes.len() / 8;
    let mut before = false;
    for k in 0..whole {
        let word = word_at(bytes, 8 * k);
        push_changes(places, 64 * k as u32, before, word)?;
        before = word & 1 == 1;
    }
    let last = tail_word(bytes, 8 * whole);
    push_changes(places, 64 * whole as u32, before, last)
}

/// Takes out the width of a row, which stands after its changing elements where its last pixel is
/// black.
pub fn drop_end(places: &mut Vec<u32>, width: u32)
    ensures { (row : List Bool) →
        length row ≡ width →
        places.old.items ≡ changes_of (row ++ false ∷ []) →
        places.new.items ≡ changes_of row }
{
    let count = places.len();
    if count > 0 && places[count - 1] == width {
        places.pop();
    }
}

// The changing elements among the 64 pixels of a word, which follow a pixel, are added.
#[inline(always)]
fn push_changes(places: &mut Vec<u32>, base: u32, before: bool, word: u64) -> Result<(), AllocError>
    requires { base ≤ MAX_WIDTH }
    ensures { let found = changes_from base before (word_pixels word) in
        OnOk result (places.new.items ≡ places.old.items ++ found) }
{
    push_ones(places, base, word ^ (u64::from(before) << 63 | word >> 1))
}

// The places of the ones of a word, counted from a base, are added.
#[inline(always)]
fn push_ones(places: &mut Vec<u32>, base: u32, edges: u64) -> Result<(), AllocError>
    requires { base ≤ MAX_WIDTH }
    ensures { OnOk result (places.new.items ≡ places.old.items ++ word_ones base edges) }
{
    let mut rest = edges;
    while rest != 0 {
        let skipped = rest.leading_zeros();
        places.push(base + skipped)?;
        rest -= 1 << (63 - skipped);
    }
    Ok(())
}

// Eight bytes that are there, as a word.
#[inline(always)]
fn word_at(bytes: &[u8], at: usize) -> u64
    requires { at + 8 ≤ length bytes.now }
    ensures { word_pixels result ≡ pixels_in_bytes (take 8 (drop at bytes.now)) }
{
    u64::from_be_bytes([
        bytes[at],
        bytes[at + 1],
        bytes[at + 2],
        bytes[at + 3],
        bytes[at + 4],
        bytes[at + 5],
        bytes[at + 6],
        bytes[at + 7],
    ])
}

// The last bytes, fewer than eight, as a word, with zeros after them. Apart from the loop, whose
// bytes are all there.
#[inline(never)]
fn tail_word(bytes: &[u8], at: usize) -> u64
    requires within { at ≤ length bytes.now }
    requires short { length bytes.now - at < 8 }
    ensures { let zeros = replicate (8 - (length bytes.now - at)) 0 in
        word_pixels result ≡ pixels_in_bytes (drop at bytes.now ++ zeros) }
{
    u64::from_be_bytes([
        byte_at(bytes, at),
        byte_at(bytes, at + 1),
        byte_at(bytes, at + 2),
        byte_at(bytes, at + 3),
        byte_at(bytes, at + 4),
        byte_at(bytes, at + 5),
        byte_at(bytes, at + 6),
        byte_at(bytes, at + 7),
    ])
}

// A byte, or 0 past the last one.
#[inline(always)]
fn byte_at(bytes: &[u8], at: usize) -> u8
    ensures { result ≡ slice_index bytes.now at }
{
    bytes.get(at).copied().unwrap_or(0)
}
