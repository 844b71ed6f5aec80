// The three code tables.
ghost use Rattle.std.specs.Prelude.{◌≡◌, ◌+◌, ◌^◌, ◌<◌, ◌≤◌, Bool, List, [], ◌∷◌, length, slice_get, Some, take, drop, map, IfOk};
ghost use Rattle.bp_codes.specs.Bits.{code_bits, code_of_bits};
ghost use Rattle.bp_codes.specs.CodeLists.{white_codes, black_codes, mode_codes};
ghost use Rattle.bp_codes.specs.NextCode.{next_row};
ghost use Rattle.bp_codes.specs.Span.{span_bits};

use crate::code::{Code, NoCode, printed};
use crate::in_print::rows_in_print;
use crate::index::{CODES, ENDS, Index, STRANGE};
use crate::span::BitSpan;
use std::marker::Model;

/// A table of `N` codes, of which none begins with another.
#[derive(Debug, Drop)]
pub struct CodeTable<const N: usize> {
    rows: [Code; N],
    longest: u32,
    index: Index,
}

// Clauses see the codes of the rows in turn, each as its bits.
impl<const N: usize> Model for CodeTable<N> {
    ghost use Rattle.std.specs.Prelude.{◌≡◌, ◌≤◌, Bool, List, map, length};
    ghost use Rattle.bp_codes.specs.Bits.{code_bits};

    ghost Value = { List (List Bool) };

    ghost use Rattle.bp_codes.specs.Tables.{IsTable};

    ghost view = { λ t. map code_bits t.rows };

    ghost invariant = { λ t. IsTable t.rows t.longest t.index };
}

impl<const N: usize> CodeTable<N> {
    /// The code of a row.
    pub fn code_of(&self, row: usize) -> Code
        requires { row < N }
        ensures { slice_get (map code_of_bits self.now) row ≡ Some result }
    {
        self.rows[row]
    }

    /// The row whose code begins at a place, or why none does. It reads at most 13 bits, and finds what
    /// stands there in one step.
    pub fn next_code(&self, span: &BitSpan, at: u64) -> Result<usize, NoCode>
        requires { at ≤ length (span_bits span.now) }
        ensures found { result ≡ next_row self.now (drop at (span_bits span.now)) }
        ensures row { IfOk result (λ row. row < N) }
    {
        let CodeTable { longest, index, .. } = self;
        let count = u64::from(*longest).min(span.len() - at) as u32;
        let window = span.window(at, count);
        match index.at(((1 << count) + window) as usize) {
            ENDS => Err(NoCode::Ends),
            STRANGE => Err(NoCode::Strange),
            entry => Ok(usize::from(entry % CODES)),
        }
    }
}

/// The codes of white runs: row r below 64 is the run of r pixels, row 63 + k the make-up code of 64 * k.
pub fn white() -> CodeTable<104>
    ensures { result ≡ white_codes }
{
    CodeTable {
        rows: rows_in_print! {
            // Terminating codes, white: runs of 0 to 63 (table 2/T.6).
            "00110101" "000111" "0111" "1000" "1011" "1100" "1110" "1111" "10011" "10100"
            "00111" "01000" "001000" "000011" "110100" "110101" "101010" "101011" "0100111"
            "0001100" "0001000" "0010111" "0000011" "0000100" "0101000" "0101011" "0010011"
            "0100100" "0011000" "00000010" "00000011" "00011010" "00011011" "00010010"
            "00010011" "00010100" "00010101" "00010110" "00010111" "00101000" "00101001"
            "00101010" "00101011" "00101100" "00101101" "00000100" "00000101" "00001010"
            "00001011" "01010010" "01010011" "01010100" "01010101" "00100100" "00100101"
            "01011000" "01011001" "01011010" "01011011" "01001010" "01001011" "00110010"
            "00110011" "00110100"
            // Make-up codes, white: runs of 64 to 1728 in steps of 64 (table 3/T.6).
            "11011" "10010" "010111" "0110111" "00110110" "00110111" "01100100" "01100101"
            "01101000" "01100111" "011001100" "011001101" "011010010" "011010011" "011010100"
            "011010101" "011010110" "011010111" "011011000" "011011001" "011011010" "011011011"
            "010011000" "010011001" "010011010" "011000" "010011011"
            // Make-up codes of both colours: runs of 1792 to 2560 in steps of 64 (table 3/T.6).
            "00000001000" "00000001100" "00000001101" "000000010010" "000000010011"
            "000000010100" "000000010101" "000000010110" "000000010111" "000000011100"
            "000000011101" "000000011110" "000000011111"
        },
        longest: 12,
        index: Index::White,
    }
}

/// The codes of black runs: row r below 64 is the run of r pixels, row 63 + k the make-up code of 64 * k.
pub fn black() -> CodeTable<104>
    ensures { result ≡ black_codes }
{
    CodeTable {
        rows: rows_in_print! {
            // Terminating codes, black: runs of 0 to 63 (table 2/T.6).
            "0000110111" "010" "11" "10" "011" "0011" "0010" "00011" "000101" "000100" "0000100"
            "0000101" "0000111" "00000100" "00000111" "000011000" "0000010111" "0000011000"
            "0000001000" "00001100111" "00001101000" "00001101100" "00000110111" "00000101000"
            "00000010111" "00000011000" "000011001010" "000011001011" "000011001100"
            "000011001101" "000001101000" "000001101001" "000001101010" "000001101011"
            "000011010010" "000011010011" "000011010100" "000011010101" "000011010110"
            "000011010111" "000001101100" "000001101101" "000011011010" "000011011011"
            "000001010100" "000001010101" "000001010110" "000001010111" "000001100100"
            "000001100101" "000001010010" "000001010011" "000000100100" "000000110111"
            "000000111000" "000000100111" "000000101000" "000001011000" "000001011001"
            "000000101011" "000000101100" "000001011010" "000001100110" "000001100111"
            // Make-up codes, black: runs of 64 to 1728 in steps of 64 (table 3/T.6).
            "0000001111" "000011001000" "000011001001" "000001011011" "000000110011"
            "000000110100" "000000110101" "0000001101100" "0000001101101" "0000001001010"
            "0000001001011" "0000001001100" "0000001001101" "0000001110010" "0000001110011"
            "0000001110100" "0000001110101" "0000001110110" "0000001110111" "0000001010010"
            "0000001010011" "0000001010100" "0000001010101" "0000001011010" "0000001011011"
            "0000001100100" "0000001100101"
            // Make-up codes of both colours: runs of 1792 to 2560 in steps of 64 (table 3/T.6).
            "00000001000" "00000001100" "00000001101" "000000010010" "000000010011"
            "000000010100" "000000010101" "000000010110" "000000010111" "000000011100"
            "000000011101" "000000011110" "000000011111"
        },
        longest: 13,
        index: Index::Black,
    }
}

/// The codes of the modes: pass, horizontal, V0, VR1, VR2, VR3, VL1, VL2, VL3.
pub fn modes() -> CodeTable<9>
    ensures { result ≡ mode_codes }
{
    CodeTable {
        rows: rows_in_print! {
            // Pass, horizontal, V0, VR1, VR2, VR3, VL1, VL2, VL3 (table 1/T.6).
            "0001" "001" "1" "011" "000011" "0000011" "010" "000010" "0000010"
        },
        longest: 7,
        index: Index::Modes,
    }
}
