// The words of the command line, as the system gives them.
ghost use Rattle.std.specs.Prelude.{◌≡◌, IfOk};
ghost use Rattle.bp_cli.specs.Arguments.{arguments_stop, words_after_name, TakesWords};

use crate::stops::Stop;
use bp_core::OutOfMemory;
use std::alloc::Global;
use std::env::Args;
use std::io;
use std::io::ErrorKind;

/// The words after the program's name, by the system's answer. Words that it can't give, as those
/// that aren't UTF-8, are no command line; where it lacked memory to give them, memory ran out.
pub fn words_of(alloc: Global, answer: io::Result<Args>) -> Result<Vec<String>, Stop>
    ensures { TakesWords answer result }
{
    match answer {
        Ok(arguments) => Ok(after_name(alloc, arguments)?),
        Err(error) => Err(stop_of_kind(error.kind())),
    }
}

fn stop_of_kind(kind: ErrorKind) -> Stop
    ensures { result ≡ arguments_stop kind }
{
    match kind {
        ErrorKind::OutOfMemory => Stop::OutOfMemory,
        _ => Stop::WordsRefused,
    }
}

fn after_name(alloc: Global, arguments: Args) -> Result<Vec<String>, OutOfMemory>
    ensures { IfOk result (λ words. words.items ≡ words_after_name arguments) }
{
    let mut rest = arguments;
    let _name = rest.next();
    Ok(rest.collect(alloc)?)
}
