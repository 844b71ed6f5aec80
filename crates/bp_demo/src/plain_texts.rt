// Texts of ASCII characters.
ghost use Rattle.std.specs.Prelude.{◌≡◌, ◌++◌, IfOk, IsTrue, codes, nat_lt};
ghost use Rattle.std.specs.Fmt.{decimal};
ghost use Rattle.std.specs.List.{list_all};

use bp_core::{OutOfMemory, Text};
use std::alloc::Global;

// The text of these characters.
pub fn plain_text(alloc: Global, text: &str) -> Result<Text, OutOfMemory>
    requires { IsTrue (list_all (λ byte. nat_lt byte 128) text.now) }
    ensures { IfOk result (λ made. made ≡ text.now) }
{
    Ok(Text::from_string(String::from_str(alloc, text)?))
}

// A number in decimal digits.
pub fn decimal_text(alloc: Global, number: u32) -> Result<Text, OutOfMemory>
    ensures { IfOk result (λ made. made ≡ decimal number) }
{
    Ok(Text::from_string(format!(in alloc; "{number}")?))
}

// The text of a word of this number.
pub fn word_text(alloc: Global, number: u32) -> Result<Text, OutOfMemory>
    ensures { IfOk result (λ made. made ≡ codes "w" ++ decimal number) }
{
    Ok(Text::from_string(format!(in alloc; "w{number}")?))
}
