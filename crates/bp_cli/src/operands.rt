// The operands of a command line, read with clap: the first word picks a simple command, whose
// operands are its positional arguments.
ghost use Rattle.std.specs.Prelude.{◌≡◌, ◌<◌, IfOk, false, drop, length};
ghost use Rattle.std.specs.List.{list_any};
ghost use Rattle.bp_cli.specs.Words.{word_bytes, words_lent, is_bad_word};

use bp_core::OutOfMemory;
use clap::error::ErrorKind;
use clap::{Arg, ArgAction, Command};
use std::alloc::Global;

/// The words after the first, of words of which none is empty or begins with `-`. clap takes any
/// number of them; how many a command has, and what they say, is its own matter.
pub fn operands_of<'a>(alloc: Global, words: &'a [String]) -> Result<Vec<&'a str>, OutOfMemory>
    requires named { 0 < length words.now }
    requires plain { list_any is_bad_word (word_bytes words.now) ≡ false }
    ensures { IfOk result (λ operands.
        words_lent operands.items ≡ drop 1 (word_bytes words.entry.now)) }
{
    let operand = Arg::new(alloc, "operand").action(ArgAction::Append);
    let command = Command::new(alloc, words[0].as_str()).arg(operand)?;
    match command.try_get_matches_from(words) {
        Ok(matches) => match matches.get_raw("operand") {
            Some(operands) => Ok(Vec::from_slice(alloc, operands)?),
            None => Ok(Vec::new(alloc)),
        },
        Err(error) => match error.kind() {
            ErrorKind::OutOfMemory => Err(OutOfMemory),
            _ => unreachable!(),
        },
    }
}
