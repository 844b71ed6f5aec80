// What the program prints, and the status that it ends with.
ghost use Rattle.std.specs.Prelude.{◌≡◌, ◌≢◌, ℕ, List, IfOk, Err};
ghost use Rattle.bp_cli.specs.Endings.{status_of, ending_text, refused_line};
ghost use Rattle.bp_cli.specs.Printing.{MayLackItsLine, Prints};

use crate::statuses::{
    DONE, FOLDER_FAULT, KEEPER_FAULT, OUT_FAULT, OUT_OF_MEMORY, RULE_BROKEN, SOURCE_FAULT,
    WORDS_REFUSED,
};
use crate::stops::Stop;
use bp_core::{Bytes, OutOfMemory, Rule};
use bp_outside::{Out, OutRefusal, write_all};
use std::alloc::Global;

/// Prints how the work of a command ended, and gives the status.
pub fn finish<O: Out>(alloc: Global, out: &mut O, ending: Result<Bytes, Stop>) -> u8
    ensures { let before = O.shows out.old in
        Prints (ending_text ending) (status_of ending) before (O.shows out.new) result }
{
    match ending {
        Ok(line) => print(alloc, out, line.as_slice(), DONE),
        Err(stop) => print_stop(alloc, out, stop),
    }
}

fn print_stop<O: Out>(alloc: Global, out: &mut O, stop: Stop) -> u8
    ensures { let before = O.shows out.old in
        Prints (ending_text (Err stop)) (status_of (Err stop)) before (O.shows out.new) result }
{
    match stop {
        Stop::WordsRefused => print(alloc, out, b"words refused\n", WORDS_REFUSED),
        Stop::Broken(rule) => print_rule(alloc, out, &rule),
        Stop::SourceFault => print(alloc, out, b"source fault\n", SOURCE_FAULT),
        Stop::FolderFault => print(alloc, out, b"folder fault\n", FOLDER_FAULT),
        Stop::KeeperFault => print(alloc, out, b"keeper fault\n", KEEPER_FAULT),
        Stop::OutOfMemory => print_lack(alloc, out),
    }
}

fn print_rule<O: Out>(alloc: Global, out: &mut O, rule: &Rule) -> u8
    ensures { let before = O.shows out.old in
        Prints (refused_line rule.now) RULE_BROKEN before (O.shows out.new) result }
{
    match line_of_rule(alloc, rule) {
        Ok(line) => print(alloc, out, line.as_slice(), RULE_BROKEN),
        Err(_) => print_lack(alloc, out),
    }
}

fn line_of_rule(alloc: Global, rule: &Rule) -> Result<Bytes, OutOfMemory>
    ensures { IfOk result (λ line. line ≡ refused_line rule.now) }
{
    let line = format!(in alloc; "refused {rule}\n")?;
    Ok(Bytes::from_vec(line.into_bytes()))
}

// Prints a text that goes with a status.
fn print<O: Out>(alloc: Global, out: &mut O, text: &[u8], status: u8) -> u8
    requires { status ≢ OUT_OF_MEMORY }
    ensures { Prints text.now status (O.shows out.old) (O.shows out.new) result }
{
    match write_all(alloc, out, text) {
        Ok(()) => status,
        Err(OutRefusal::Failed) => OUT_FAULT,
        Err(OutRefusal::OutOfMemory) => OUT_OF_MEMORY,
    }
}

// Prints that memory ran out, as far as it goes.
fn print_lack<O: Out>(alloc: Global, out: &mut O) -> u8
    ensures lacks { (text : List ℕ) (wanted : ℕ)
        → MayLackItsLine wanted
        → Prints text wanted (O.shows out.old) (O.shows out.new) result }
{
    let _ = write_all(alloc, out, b"out of memory\n");
    OUT_OF_MEMORY
}
