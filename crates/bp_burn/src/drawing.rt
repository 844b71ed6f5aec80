// Texts drawn in glyphs.
ghost use Rattle.std.specs.Prelude.{◌≡◌, ◌+◌, ◌*◌, ◌^◌, ◌<◌, ◌≤◌, ◌-◌, min};
ghost use Rattle.bp_codes.specs.Glyphs.{glyph_rows};
ghost use Rattle.bp_rows.specs.Image.{IsPage};
ghost use Rattle.bp_burn.specs.Drawn.{is_drawn, row_bit};
ghost use Rattle.bp_burn.specs.Figures.{bit_figure, glyph_figure, row_figure};
ghost use Rattle.bp_burn.specs.Ink.{inked};

use bp_codes::GlyphTable;
use bp_core::Rect;
use bp_rows::Page;

// The rows of a glyph, the columns of one, the sides of a bit in pixels, and the columns from one
// character to the next in pixels.
pub(crate) const ROWS: usize = 7;

pub(crate) const COLUMNS: u8 = 5;

pub(crate) const SCALE: u32 = 3;

pub(crate) const PITCH: u32 = 18;

/// Draws a text, in ASCII, with its upper left corner in the row `top` and the column
/// `left - hidden`. What lies left or right of the page isn't drawn.
pub fn draw_text(
    page: &mut Page,
    table: &GlyphTable<40>,
    text: &[u8],
    top: u32,
    left: u32,
    hidden: u128,
)
    requires page { IsPage page.old }
    requires table { table.now ≡ glyph_rows }
    requires down { top + ROWS * SCALE ≤ page.old.height }
    ensures { page.new ≡ inked page.old (is_drawn text.now top left hidden) }
{
    for place in 0..text.len() {
        if let Some(rows) = table.rows_of(char::from(text[place])) {
            let at = left as u128 + PITCH as u128 * place as u128;
            draw_glyph(page, &rows, top, at, hidden);
        }
    }
}

/// The columns from the first pixel of a text of so many characters to its last.
pub fn hidden_columns(characters: usize) -> u128
    ensures { result ≡ PITCH * characters - SCALE }
{
    (PITCH as u128 * characters as u128).saturating_sub(SCALE as u128)
}

// Draws the rows of a glyph.
fn draw_glyph(page: &mut Page, rows: &[u8; 7], top: u32, at: u128, hidden: u128)
    requires page { IsPage page.old }
    requires down { top + ROWS * SCALE ≤ page.old.height }
    requires across { at < 2 ^ 100 }
    ensures { page.new ≡ inked page.old (glyph_figure rows.now top at hidden) }
{
    for place in 0..ROWS {
        draw_row(page, rows[place], top + SCALE * place as u32, at, hidden);
    }
}

// Draws the bits of a row of a glyph.
fn draw_row(page: &mut Page, row: u8, top: u32, at: u128, hidden: u128)
    requires page { IsPage page.old }
    requires down { top + SCALE ≤ page.old.height }
    requires across { at < 2 ^ 100 }
    ensures { page.new ≡ inked page.old (row_figure row top at hidden) }
{
    for place in 0..COLUMNS {
        if has_bit(row, place) {
            draw_bit(page, top, at + SCALE as u128 * place as u128, hidden);
        }
    }
}

/// The bit in a column of a glyph's row.
pub fn has_bit(row: u8, place: u8) -> bool
    requires { place < COLUMNS }
    ensures { result ≡ row_bit row place }
{
    (row >> (COLUMNS - 1 - place)) & 1 == 1
}

// Draws a bit: three by three pixels, as far as they lie on the page.
fn draw_bit(page: &mut Page, top: u32, at: u128, hidden: u128)
    requires down { top + SCALE ≤ page.old.height }
    requires across { at < 2 ^ 101 }
    ensures { page.new ≡ inked page.old (bit_figure top at hidden) }
{
    let width = page.width();
    let from = page_column(at, hidden, width);
    let to = page_column(at + SCALE as u128, hidden, width);
    page.blacken_box(&Rect {
        left: from,
        top,
        width: to - from,
        height: SCALE,
    });
}

// A column of a drawing on the page, or the nearest edge of the page.
fn page_column(at: u128, hidden: u128, width: u32) -> u32
    ensures { result ≡ min (at - hidden) width }
{
    at.saturating_sub(hidden).min(width as u128) as u32
}
