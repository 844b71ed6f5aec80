// Codes, and why none was found.
ghost use Rattle.std.specs.Prelude.{◌≡◌, ◌≤◌, length};
ghost use Rattle.bp_codes.specs.Bits.{code_of_bits};
ghost use Rattle.bp_codes.specs.CodeLists.{bits_in_print};

/// A code of `len` bits: the number that they are, the first bit highest.
#[derive(Clone, Copy, Debug, PartialEq, Eq)]
pub struct Code {
    pub bits: u32,
    pub len: u8,
}

/// A code that was found: its row in the table, and its length in bits.
#[derive(Clone, Copy, Debug, PartialEq, Eq)]
pub struct Found {
    pub row: usize,
    pub len: u64,
}

/// Why no code begins at a place.
#[derive(Clone, Copy, Debug, PartialEq, Eq)]
pub enum NoCode {
    /// The bits from there on are a proper prefix of some code of the table: the span ends too early.
    Ends,
    /// They are no such prefix: there is something else.
    Strange,
}

/// The code that is printed as these zeros and ones.
pub(crate) fn printed(zeros_and_ones: &str) -> Code
    requires { length zeros_and_ones.now ≤ 13 }
    ensures { result ≡ code_of_bits (bits_in_print zeros_and_ones.now) }
{
    let mut bits = 0;
    for byte in zeros_and_ones.as_bytes() {
        bits = if *byte == b'1' {
            bits * 2 + 1
        } else {
            bits * 2
        };
    }
    Code {
        bits,
        len: zeros_and_ones.len() as u8,
    }
}
