// Numbers in decimal digits, as files, command lines and requests write them.
ghost use Rattle.std.specs.Prelude.{◌≡◌};
ghost use Rattle.std.specs.Char.{is_ascii_digit};
ghost use Rattle.std.specs.List.{list_all};
ghost use Rattle.bp_core.specs.Digits.{are_digits, number_in, begins_with_zero, is_unpadded, unpadded_in, ordinal_in};

/// The most digits of a number that is read. With so many it is below 2^32.
pub const MOST_DIGITS: usize = 9;

/// Whether these are 1 to 9 digits, with leading zeros or without.
pub fn are_digits(text: &[u8]) -> bool
    ensures { result ≡ are_digits text.now }
{
    !text.is_empty() && text.len() <= MOST_DIGITS && has_digits_alone(text)
}

fn has_digits_alone(text: &[u8]) -> bool
    ensures { result ≡ list_all is_ascii_digit text.now }
{
    text.iter().all(|byte| byte.is_ascii_digit())
}

/// The number that 1 to 9 digits write, with leading zeros or without.
pub fn number_in(text: &[u8]) -> Option<u32>
    ensures { result ≡ number_in text.now }
{
    if text.is_empty() || text.len() > MOST_DIGITS {
        return None;
    }
    let mut number = 0;
    for digit in text {
        if !digit.is_ascii_digit() {
            return None;
        }
        number = number * 10 + u32::from(*digit - b'0');
    }
    Some(number)
}

/// A number without a leading zero: `0`, or 1 to 9 digits of which the first isn't 0.
pub fn unpadded_in(text: &[u8]) -> Option<u32>
    ensures { result ≡ unpadded_in text.now }
{
    if is_unpadded(text) {
        number_in(text)
    } else {
        None
    }
}

/// A number from 1 on: 1 to 9 digits of which the first isn't 0.
pub fn ordinal_in(text: &[u8]) -> Option<u32>
    ensures { result ≡ ordinal_in text.now }
{
    if begins_with_zero(text) {
        None
    } else {
        number_in(text)
    }
}

fn is_unpadded(text: &[u8]) -> bool
    ensures { result ≡ is_unpadded text.now }
{
    text.len() == 1 || !begins_with_zero(text)
}

fn begins_with_zero(text: &[u8]) -> bool
    ensures { result ≡ begins_with_zero text.now }
{
    !text.is_empty() && text[0] == b'0'
}
