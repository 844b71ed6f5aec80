// The letters of stamps.
ghost use Rattle.std.specs.Prelude.{◌≡◌, ◌≢◌, ◌+◌, ◌^◌, ◌<◌, ◌≤◌, ℕ, length, IfNone, IfSome};
ghost use Rattle.bp_codes.specs.Glyphs.{glyph_rows};
ghost use Rattle.bp_rows.specs.Image.{IsPage};
ghost use Rattle.bp_burn.specs.Covered.{letters_in, shows_letters};
ghost use Rattle.bp_burn.specs.Drawn.{glyph_bit, text_pixel};
ghost use Rattle.bp_burn.specs.Figures.{text_row};
ghost use Rattle.bp_burn.specs.Ink.{erased};

use crate::drawing::{COLUMNS, PITCH, ROWS, SCALE, has_bit};
use bp_codes::{GlyphTable, glyphs};
use bp_core::{Ink, Stamp};
use bp_rows::Page;

// The least sides of a box that shows its letters, and how far its letters stand in from its upper
// left corner, in pixels.
const LETTERED_WIDTH: u32 = 39;

const LETTERED_HEIGHT: u32 = 27;

const LETTERS_IN: u32 = 3;

// The rows of a text, in pixels.
pub(crate) const TEXT_ROWS: u32 = 21;

/// Whether a stamp shows its letters.
pub fn shows_letters(ink: Ink, stamp: &Stamp) -> bool
    ensures { result ≡ shows_letters ink stamp.now }
{
    match ink {
        Ink::Black => false,
        Ink::Lettered => LETTERED_WIDTH <= stamp.rect.width && LETTERED_HEIGHT <= stamp.rect.height,
    }
}

/// Makes white what the first rows of a page, which are so many, have of the letters of a stamp.
/// Row 0 of this page is row `first` of the page of the stamp.
pub fn erase_letters(page: &mut Page, rows: u32, first: u32, stamp: &Stamp)
    requires page { IsPage page.old }
    requires down { rows ≤ page.old.height }
    ensures { page.new ≡ erased page.old (letters_in rows first stamp.now) }
{
    let table = glyphs();
    let text = stamp.basis.code().as_bytes();
    let top = inset(stamp.rect.top);
    let left = inset(stamp.rect.left);
    for v in 0..TEXT_ROWS {
        if let Some(row) = row_among(top + u64::from(v), rows, first) {
            erase_text_row(page, row, left, &table, text, v);
        }
    }
}

// Where letters begin, of a box that begins there.
fn inset(edge: u32) -> u64
    ensures { result ≡ edge + LETTERS_IN }
{
    u64::from(edge) + u64::from(LETTERS_IN)
}

// The place of a row of a page among so many rows from row `first` on.
fn row_among(at: u64, rows: u32, first: u32) -> Option<u32>
    ensures found { IfSome result (λ row. (first + row ≡ at) × (row < rows)) }
    ensures none { IfNone result ((r : ℕ) → r < rows → first + r ≢ at) }
{
    let row = at.checked_sub(u64::from(first))?;
    if row < u64::from(rows) {
        Some(row as u32)
    } else {
        None
    }
}

// Makes white the pixels of row v of a text, in a row of a page from a column on.
fn erase_text_row(page: &mut Page, row: u32, left: u64, table: &GlyphTable<40>, text: &[u8], v: u32)
    requires down { row < page.old.height }
    requires table { table.now ≡ glyph_rows }
    requires short { length text.now < 2 ^ 16 }
    ensures { page.new ≡ erased page.old (text_row text.now v row left) }
{
    let room = u64::from(page.width()).saturating_sub(left) as u32;
    let columns = room.min(PITCH * text.len() as u32);
    for u in 0..columns {
        if has_text_pixel(table, text, v, u) {
            page.set(row, left as u32 + u, false);
        }
    }
}

// Whether a text has the pixel in row v and column u, counted from its upper left corner.
fn has_text_pixel(table: &GlyphTable<40>, text: &[u8], v: u32, u: u32) -> bool
    requires { table.now ≡ glyph_rows }
    ensures { result ≡ text_pixel text.now v u }
{
    let place = (u / PITCH) as usize;
    if place >= text.len() {
        return false;
    }
    match table.rows_of(char::from(text[place])) {
        Some(rows) => has_glyph_bit(&rows, v / SCALE, u % PITCH / SCALE),
        None => false,
    }
}

// The bit in row g and column k of a glyph.
fn has_glyph_bit(rows: &[u8; 7], g: u32, k: u32) -> bool
    ensures { result ≡ glyph_bit rows.now g k }
{
    (g as usize) < ROWS && k < u32::from(COLUMNS) && has_bit(rows[g as usize], k as u8)
}
