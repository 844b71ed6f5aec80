// The words of a command line: which may stand in one, and the numbers among them.
ghost use Rattle.std.specs.Prelude.{◌≡◌, ◌<◌, IfOk, length};
ghost use Rattle.std.specs.List.{list_any};
ghost use Rattle.std.specs.Str.{chars};
ghost use Rattle.std.specs.String.{string_bytes};
ghost use Rattle.bp_cli.specs.Words.{operand_number, is_bad_word, word_of, words_lent};

use bp_core::{OutOfMemory, Text, unpadded_in};
use std::alloc::Global;

/// The word at a place, counted from 0.
pub fn word_at<'a>(words: &[&'a str], at: usize) -> &'a str
    requires { at < length words.now }
    ensures { result.now ≡ word_of (words_lent words.now) at }
{
    words[at]
}

/// Whether there is a word that may stand in no command line: one that is empty or begins with `-`.
pub fn has_bad_word(words: &[String]) -> bool
    ensures { result ≡ list_any (λ word. is_bad_word (string_bytes word)) words.now }
{
    words.iter().any(|word| is_bad(word.as_bytes()))
}

fn is_bad(word: &[u8]) -> bool
    ensures { result ≡ is_bad_word word.now }
{
    word.is_empty() || word[0] == b'-'
}

/// The number that the word is: `0`, or 1 to 9 digits without a leading zero.
pub fn number_in(word: &str) -> Option<u32>
    ensures { result ≡ operand_number word.now }
{
    unpadded_in(word.as_bytes())
}

/// The characters of a word.
pub fn text_of(alloc: Global, word: &str) -> Result<Text, OutOfMemory>
    ensures { IfOk result (λ text. text ≡ chars word.now) }
{
    Ok(Text::from_string(String::from_str(alloc, word)?))
}
