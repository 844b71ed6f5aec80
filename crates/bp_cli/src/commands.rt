// The commands of the program.
ghost use Rattle.std.specs.Prelude.{◌≡◌, ◌∷◌, IfOk, codes, false};
ghost use Rattle.std.specs.Option.{option_map};
ghost use Rattle.std.specs.Str.{bytes_eq};
ghost use Rattle.bp_cli.specs.Words.{word_bytes, words_lent};
ghost use Rattle.bp_cli.specs.Commands.{command_seen, command_of, named_command, produce};
ghost use Rattle.bp_cli.specs.Produce.{request_of_words};

use crate::burn::{Burn, burn_in};
use crate::check::{Check, check_in};
use crate::claw::{ClawLine, claw_in};
use crate::demo::{DemoLine, demo_in};
use crate::import::batch_in;
use crate::init::init_in;
use crate::operands::operands_of;
use crate::press::id_in;
use crate::produce::request_in;
use crate::words::has_bad_word;
use bp_core::OutOfMemory;
use bp_matter::Request;
use std::alloc::Global;

/// A command with its operands.
#[derive(Drop)]
pub enum Command<'a> {
    Burn(Burn<'a>),
    /// Make a matter whose lead's key has this SHA-256.
    Init([u8; 32]),
    /// Import the batch of the folder of this name.
    Import(&'a str),
    /// Freeze what is asked, and put its volume.
    Produce(Request),
    /// Put the volume of the production of this id once more.
    Press(&'a str),
    /// Print the privilege log of the production of this id.
    Log(&'a str),
    Check(Check<'a>),
    Claw(ClawLine<'a>),
    /// Draw a matter, freeze it, and put its volume.
    Demo(DemoLine),
}

/// The command that the words are a line of, if they are one. The words don't have the program's
/// name.
pub fn command_in<'a>(
    alloc: Global,
    words: &'a [String],
) -> Result<Option<Command<'a>>, OutOfMemory>
    ensures { IfOk result (λ command.
        option_map command_seen command ≡ command_of (word_bytes words.entry.now)) }
{
    if words.is_empty() || has_bad_word(words) {
        return Ok(None);
    }
    let operands = operands_of(alloc, words)?;
    let command = command_named(alloc, words[0].as_str(), operands.as_slice())?;
    Ok(command)
}

fn command_named<'a>(
    alloc: Global,
    name: &str,
    operands: &[&'a str],
) -> Result<Option<Command<'a>>, OutOfMemory>
    ensures { IfOk result (λ command.
        option_map command_seen command ≡ named_command (name.now ∷ words_lent operands.now)) }
{
    if name == "produce" {
        return produce_named(alloc, operands);
    }
    Ok(command_lent(name, operands))
}

fn produce_named<'a>(
    alloc: Global,
    operands: &[&'a str],
) -> Result<Option<Command<'a>>, OutOfMemory>
    ensures { IfOk result (λ command.
        option_map command_seen command
        ≡ option_map produce (request_of_words (words_lent operands.now))) }
{
    match request_in(alloc, operands)? {
        Some(request) => Ok(Some(Command::Produce(request))),
        None => Ok(None),
    }
}

// A command whose operands are lent.
fn command_lent<'a>(name: &str, operands: &[&'a str]) -> Option<Command<'a>>
    requires { bytes_eq name.now (codes "produce") ≡ false }
    ensures { option_map command_seen result
        ≡ named_command (name.now ∷ words_lent operands.now) }
{
    if name == "burn" {
        return Some(Command::Burn(burn_in(operands)?));
    }
    if name == "init" {
        return Some(Command::Init(init_in(operands)?));
    }
    if name == "import" {
        return Some(Command::Import(batch_in(operands)?));
    }
    if name == "press" {
        return Some(Command::Press(id_in(operands)?));
    }
    if name == "log" {
        return Some(Command::Log(id_in(operands)?));
    }
    if name == "check" {
        return Some(Command::Check(check_in(operands)?));
    }
    if name == "claw" {
        return Some(Command::Claw(claw_in(operands)?));
    }
    if name == "demo" {
        return Some(Command::Demo(demo_in(operands)?));
    }
    None
}
