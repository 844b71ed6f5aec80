// The glyphs in which labels and designations are drawn.
ghost use Rattle.std.specs.Prelude.{◌≡◌};
ghost use Rattle.bp_codes.specs.Glyphs.{glyph_rows, place_of, rows_at};

use crate::in_print::rows_in_print;
use std::marker::Model;

/// A table of `N` glyphs, one for each character of the alphabet: A to Z, 0 to 9, `-`, `_`, `.` and
/// the space. A glyph has seven rows of five bits, the bit of value 16 at the left, and 1 is black.
#[derive(Debug, Drop)]
pub struct GlyphTable<const N: usize> {
    glyphs: [[u8; 7]; N],
}

// Clauses see the glyphs in the order of the alphabet, each as its rows.
impl<const N: usize> Model for GlyphTable<N> {
    ghost use Rattle.std.specs.Prelude.{◌≡◌, ℕ, List, length};
    ghost use Rattle.bp_codes.specs.Glyphs.{alphabet};

    ghost Value = { List (List ℕ) };

    ghost view = { λ t. t.glyphs };

    ghost invariant = { λ t. length t.glyphs ≡ length alphabet };
}

impl<const N: usize> GlyphTable<N> {
    /// The seven rows of a character's glyph, from the top down; None exactly where the alphabet
    /// lacks the character, as a small letter.
    pub fn rows_of(&self, c: char) -> Option<[u8; 7]>
        ensures { result ≡ rows_at self.now c }
    {
        match place_of(c) {
            Some(place) => Some(self.glyphs[place]),
            None => None,
        }
    }
}

// The place of a character in the alphabet.
fn place_of(c: char) -> Option<usize>
    ensures { result ≡ place_of c }
{
    match c {
        'A'..='Z' => Some(c as usize - 'A' as usize),
        '0'..='9' => Some(c as usize - '0' as usize + 26),
        '-' => Some(36),
        '_' => Some(37),
        '.' => Some(38),
        ' ' => Some(39),
        _ => None,
    }
}

/// The glyphs of the alphabet.
pub fn glyphs() -> GlyphTable<40>
    ensures { result ≡ glyph_rows }
{
    GlyphTable {
        glyphs: rows_in_print! {
            // A B C D E F G H
            eight:
            0b01110 0b11110 0b01110 0b11110 0b11111 0b11111 0b01110 0b10001
            0b10001 0b10001 0b10001 0b10001 0b10000 0b10000 0b10001 0b10001
            0b10001 0b10001 0b10000 0b10001 0b10000 0b10000 0b10000 0b10001
            0b11111 0b11110 0b10000 0b10001 0b11110 0b11110 0b10111 0b11111
            0b10001 0b10001 0b10000 0b10001 0b10000 0b10000 0b10001 0b10001
            0b10001 0b10001 0b10001 0b10001 0b10000 0b10000 0b10001 0b10001
            0b10001 0b11110 0b01110 0b11110 0b11111 0b10000 0b01111 0b10001;
            // I J K L M N O P
            eight:
            0b01110 0b00111 0b10001 0b10000 0b10001 0b10001 0b01110 0b11110
            0b00100 0b00010 0b10010 0b10000 0b11011 0b11001 0b10001 0b10001
            0b00100 0b00010 0b10100 0b10000 0b10101 0b10101 0b10001 0b10001
            0b00100 0b00010 0b11000 0b10000 0b10101 0b10011 0b10001 0b11110
            0b00100 0b00010 0b10100 0b10000 0b10001 0b10001 0b10001 0b10000
            0b00100 0b10010 0b10010 0b10000 0b10001 0b10001 0b10001 0b10000
            0b01110 0b01100 0b10001 0b11111 0b10001 0b10001 0b01110 0b10000;
            // Q R S T U V W X
            eight:
            0b01110 0b11110 0b01111 0b11111 0b10001 0b10001 0b10001 0b10001
            0b10001 0b10001 0b10000 0b00100 0b10001 0b10001 0b10001 0b10001
            0b10001 0b10001 0b10000 0b00100 0b10001 0b10001 0b10001 0b01010
            0b10001 0b11110 0b01110 0b00100 0b10001 0b10001 0b10101 0b00100
            0b10101 0b10100 0b00001 0b00100 0b10001 0b10001 0b10101 0b01010
            0b10010 0b10010 0b00001 0b00100 0b10001 0b01010 0b11011 0b10001
            0b01101 0b10001 0b11110 0b00100 0b01110 0b00100 0b10001 0b10001;
            // Y Z 0 1 2 3 4 5
            eight:
            0b10001 0b11111 0b01110 0b00100 0b01110 0b11111 0b00010 0b11111
            0b10001 0b00001 0b10001 0b01100 0b10001 0b00010 0b00110 0b10000
            0b01010 0b00010 0b10011 0b00100 0b00001 0b00100 0b01010 0b11110
            0b00100 0b00100 0b10101 0b00100 0b00010 0b00010 0b10010 0b00001
            0b00100 0b01000 0b11001 0b00100 0b00100 0b00001 0b11111 0b00001
            0b00100 0b10000 0b10001 0b00100 0b01000 0b10001 0b00010 0b10001
            0b00100 0b11111 0b01110 0b01110 0b11111 0b01110 0b00010 0b01110;
            // 6 7 8 9 - _ . and the space
            eight:
            0b00110 0b11111 0b01110 0b01110 0b00000 0b00000 0b00000 0b00000
            0b01000 0b00001 0b10001 0b10001 0b00000 0b00000 0b00000 0b00000
            0b10000 0b00010 0b10001 0b10001 0b00000 0b00000 0b00000 0b00000
            0b11110 0b00100 0b01110 0b01111 0b11111 0b00000 0b00000 0b00000
            0b10001 0b01000 0b10001 0b00001 0b00000 0b00000 0b00000 0b00000
            0b10001 0b01000 0b10001 0b00010 0b00000 0b00000 0b01100 0b00000
            0b01110 0b01000 0b01110 0b01100 0b00000 0b11111 0b01100 0b00000
        },
    }
}
