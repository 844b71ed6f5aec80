// The rows of a character's glyph.
ghost use Rattle.std.specs.Prelude.{◌≡◌};
ghost use Rattle.bp_codes.specs.Glyphs.{glyph_rows, rows_at};
ghost use Rattle.bp_burn.specs.Drawn.{has_glyph, has_glyphs};

use bp_codes::glyphs;
use bp_core::Text;

/// The seven rows of a character's glyph, from the top down, five bits each with the bit of value
/// 16 at the left; None exactly where the glyph table lacks the character.
pub fn glyph(c: char) -> Option<[u8; 7]>
    ensures { result ≡ rows_at glyph_rows c }
{
    glyphs().rows_of(c)
}

/// Whether each character of a text has a glyph.
pub fn has_glyphs(text: &Text) -> bool
    ensures { result ≡ has_glyphs text.now }
{
    text.as_str().chars().all(|c| has_glyph(c))
}

fn has_glyph(c: char) -> bool
    ensures { result ≡ has_glyph c }
{
    glyph(c).is_some()
}
