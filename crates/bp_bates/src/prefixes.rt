// The text that stands before the number in a label.
ghost use Rattle.std.specs.Prelude.{◌≡◌, ◌≤◌, IsTrue};
ghost use Rattle.std.specs.List.{list_all};
ghost use Rattle.bp_bates.specs.Prefixes.{is_good_prefix, is_good_text, is_allowed};

use bp_core::Text;

/// What the labels of a production share: the text before the number, and how many digits it has.
#[derive(Clone, Debug, PartialEq, Eq, Drop)]
pub struct Prefix {
    pub text: Text,
    pub width: u8,
}

/// The most characters of a prefix.
pub const MAX_PREFIX: usize = 12;

/// The least digits of a number in a label.
pub const MIN_WIDTH: u8 = 4;

/// The most digits of a number in a label.
pub const MAX_WIDTH: u8 = 10;

/// Whether the text is 1 to 12 characters of A-Z, 0-9, `-` and `_`, the first not `-` and the last
/// not a digit, and the width is 4 to 10 digits.
pub fn good_prefix(text: &Text, width: u8) -> bool
    ensures test { result ≡ is_good_prefix text.now width }
    ensures from { IsTrue result → 4 ≤ width }
    ensures to { IsTrue result → width ≤ 10 }
{
    width >= MIN_WIDTH && width <= MAX_WIDTH && is_good(text.as_str().as_bytes())
}

fn is_good(text: &[u8]) -> bool
    ensures { result ≡ is_good_text text.now }
{
    are_allowed(text)
        && text.len() >= 1
        && text.len() <= MAX_PREFIX
        && text[0] != b'-'
        && !text[text.len() - 1].is_ascii_digit()
}

fn are_allowed(text: &[u8]) -> bool
    ensures { result ≡ list_all is_allowed text.now }
{
    text.iter().all(|byte| is_allowed_byte(*byte))
}

fn is_allowed_byte(byte: u8) -> bool
    ensures { result ≡ is_allowed byte }
{
    matches!(byte, b'A'..=b'Z' | b'0'..=b'9' | b'-' | b'_')
}
