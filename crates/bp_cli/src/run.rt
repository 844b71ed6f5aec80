// The top call.
ghost use Rattle.std.specs.Prelude.{◌≡◌, ◌<◌, IsSomeAnd, List, length};
ghost use Rattle.bp_cli.specs.Words.{word_bytes};
ghost use Rattle.bp_cli.specs.Commands.{command_of, ReadsAndWorks, ReadsAsOften};
ghost use Rattle.bp_cli.specs.Deliver.{deliver_of, deliver_seen};
ghost use Rattle.bp_cli.specs.Endings.{world};
ghost use Rattle.bp_cli.specs.Runs.{RunsOverRows, outside};
ghost use Rattle.bp_cli.specs.Arguments.{RunsArguments};
ghost use Rattle.bp_cli.specs.RunWords.{DeliversAt, ReadsFor, RunsOther, RunsWords, desk_side, moment};
ghost use Rattle.bp_cli.specs.Serve.{HasDoors, ServesOver, hall};
ghost use Rattle.bp_cli.specs.ServeSteps.{HandsOn, ServesAnyhow};
ghost use Rattle.bp_cli.specs.declared.serve.ServeLine.{ServeLine};
ghost use Rattle.bp_keep.specs.Keeper.{KeeperView};
ghost use Rattle.bp_rules.specs.Steps.{AtMostOnce};

use crate::arguments::words_of;
use crate::burn::burn_box;
use crate::check::check_files;
use crate::claw::claw_volume;
use crate::commands::{Command, command_in};
use crate::deliver::{DeliverLine, deliver, deliver_in};
use crate::demo::demo_volume;
use crate::import::import_batch;
use crate::init::make_matter;
use crate::press::{log_kept, press_kept};
use crate::printing::finish;
use crate::produce::produce_volume;
use crate::serve::{ServeLine, Service, serve, serve_in};
use crate::statuses::OUT_OF_MEMORY;
use crate::stops::Stop;
use bp_book::History;
use bp_core::Bytes;
use bp_import::one_batch;
use bp_keep::Keeper;
use bp_matter::laws::rows_law;
use bp_outside::{Door, Folder, Out, Source};
use bp_tiff::one_answer;
use std::alloc::Global;
use std::env::Args;
use std::io;
use std::sync::Wait;
use std::thread::Threads;

/// How a run ended: its status, the keeper and the doors that it was handed, and what desks did.
#[derive(Drop)]
pub struct Ended<K, D> {
    pub status: u8,
    pub keeper: Option<K>,
    pub doors: Vec<D>,
    pub history: Option<History>,
}

/// Carries out the command line that the system gave, the program's name before its words: see
/// `run`.
pub fn run_arguments<
    R: Threads + Wait + Sync,
    S: Source,
    K: Keeper + Send + Drop,
    F: Folder,
    O: Out,
    D: Door + Send,
>(
    rt: &R,
    alloc: Global,
    answer: io::Result<Args>,
    source: &mut S,
    keeper: K,
    folder: &mut F,
    out: &mut O,
    doors: Vec<D>,
) -> Ended<K, D>
    ensures { let before = outside (S.shows source.old) (K.shows keeper) (F.shows folder.old)
        (O.shows out.old) in
        IsSomeAnd result.keeper (λ kept.
        let after = outside (S.shows source.new) (K.shows kept) (F.shows folder.new)
        (O.shows out.new) in
        RunsArguments D.shows answer (moment before doors.items) result.history
        (moment after result.doors.items) result.status) }
{
    match words_of(alloc, answer) {
        Ok(words) => run(
            rt,
            alloc,
            words.as_slice(),
            source,
            keeper,
            folder,
            out,
            doors,
        ),
        Err(stop) => {
            let status = finish(alloc, out, Err(stop));
            Ended {
                status,
                keeper: Some(keeper),
                doors,
                history: None,
            }
        }
    }
}

/// Carries out the command that the words are a line of: it reads from the source, loads the rows
/// of the keeper and commits to it, writes to the folder, serves doors and prints its line. The
/// words don't have the program's name. Keeper and doors are handed back, and where desks were
/// served the history of their calls. The status: 0 where all was done, 1 where the words are no
/// command line, 2 where a rule is broken, 3 at a fault of the source, 4 of the folder, 5 of the
/// keeper, 6 where memory ran out, 7 at a fault of the out. Several doors are served at once, by
/// threads of the runtime, and so are the images of a volume made. Of all commands serving and
/// delivering alone may wait for ever.
pub fn run<
    R: Threads + Wait + Sync,
    S: Source,
    K: Keeper + Send + Drop,
    F: Folder,
    O: Out,
    D: Door + Send,
>(
    rt: &R,
    alloc: Global,
    words: &[String],
    source: &mut S,
    keeper: K,
    folder: &mut F,
    out: &mut O,
    doors: Vec<D>,
) -> Ended<K, D>
    ensures runs { let before = outside (S.shows source.old) (K.shows keeper) (F.shows folder.old)
        (O.shows out.old) in
        IsSomeAnd result.keeper (λ kept.
        let after = outside (S.shows source.new) (K.shows kept) (F.shows folder.new)
        (O.shows out.new) in
        RunsWords D.shows (word_bytes words.now) (moment before doors.items) result.history
        (moment after result.doors.items) result.status) }
    ensures reads { let delivers = deliver_of (length doors.items) (word_bytes words.now) in
        let command = command_of (word_bytes words.now) in
        ReadsFor delivers command (S.reads source.old) (S.reads source.new) }
{
    match serve_in(words, doors.len()) {
        Some(asked) => serve_and_tell(rt, alloc, asked, keeper, out, doors),
        None => run_other(rt, alloc, words, source, keeper, folder, out, doors),
    }
}

// The same of words that don't ask to serve.
fn run_other<R: Threads + Sync, S: Source, K: Keeper, F: Folder, O: Out, D: Door>(
    rt: &R,
    alloc: Global,
    words: &[String],
    source: &mut S,
    keeper: K,
    folder: &mut F,
    out: &mut O,
    doors: Vec<D>,
) -> Ended<K, D>
    ensures runs { let delivers = deliver_of (length doors.items) (word_bytes words.now) in
        let command = command_of (word_bytes words.now) in
        let before = outside (S.shows source.old) (K.shows keeper) (F.shows folder.old)
        (O.shows out.old) in
        IsSomeAnd result.keeper (λ kept.
        let after = outside (S.shows source.new) (K.shows kept) (F.shows folder.new)
        (O.shows out.new) in
        RunsOther D.shows delivers command (moment before doors.items) result.history
        (moment after result.doors.items) result.status) }
    ensures reads { let delivers = deliver_of (length doors.items) (word_bytes words.now) in
        let command = command_of (word_bytes words.now) in
        ReadsFor delivers command (S.reads source.old) (S.reads source.new) }
{
    match deliver_in(words, doors.len()) {
        Some(asked) => deliver_and_tell(alloc, &asked, source, keeper, out, doors),
        None => carry_out(rt, alloc, words, source, keeper, folder, out, doors),
    }
}

// Serves, and prints its line.
fn serve_and_tell<R: Threads + Wait + Sync, K: Keeper + Send + Drop, O: Out, D: Door + Send>(
    rt: &R,
    alloc: Global,
    asked: ServeLine,
    keeper: K,
    out: &mut O,
    doors: Vec<D>,
) -> Ended<K, D>
    requires { HasDoors asked (length doors.items) }
    ensures { let before = hall (K.shows keeper) doors.items (O.shows out.old) in
        IsSomeAnd result.keeper (λ kept.
        let after = hall (K.shows kept) result.doors.items (O.shows out.new) in
        ServesOver D.shows asked before result.history after result.status) }
{
    let served = serve(rt, alloc, asked, keeper, doors);
    tell(alloc, out, served)
}

// Prints the line of serving.
fn tell<K: Keeper + Drop, O: Out, D: Door>(
    alloc: Global,
    out: &mut O,
    served: Service<K, D>,
) -> Ended<K, D>
    ensures { (asked : ServeLine) (given : KeeperView) (doors : List D)
        → ServesAnyhow D.shows asked given doors served.ending served.history
        (K.shows served.keeper) served.doors.items
        → IsSomeAnd result.keeper (λ kept.
        let before = hall given doors (O.shows out.old) in
        let after = hall (K.shows kept) result.doors.items (O.shows out.new) in
        ServesOver D.shows asked before result.history after result.status) }
{
    rows_law();
    let status = finish(alloc, out, served.ending);
    Ended {
        status,
        keeper: Some(served.keeper),
        doors: served.doors,
        history: handed_on(status, served.history),
    }
}

// The history, but where memory ran out.
fn handed_on(status: u8, history: Option<History>) -> Option<History>
    ensures { HandsOn status history result }
{
    if status == OUT_OF_MEMORY {
        None
    } else {
        history
    }
}

// Delivers at the first door, and prints its line.
fn deliver_and_tell<S: Source, K: Keeper, O: Out, D: Door>(
    alloc: Global,
    asked: &DeliverLine<'_>,
    source: &mut S,
    mut keeper: K,
    out: &mut O,
    mut doors: Vec<D>,
) -> Ended<K, D>
    requires { 0 < length doors.items }
    ensures delivers { let before = desk_side (S.shows source.old) (K.shows keeper) doors.items
        (O.shows out.old) in
        IsSomeAnd result.keeper (λ kept.
        let after = desk_side (S.shows source.new) (K.shows kept) result.doors.items
        (O.shows out.new) in
        DeliversAt D.shows (deliver_seen asked.now) before after result.status) }
    ensures reads { AtMostOnce (S.reads source.old) (S.reads source.new) }
    ensures history { result.history ≡ None }
{
    rows_law();
    let delivered = deliver(alloc, asked, source, &mut keeper, &mut doors[0]);
    let status = finish(alloc, out, delivered);
    Ended {
        status,
        keeper: Some(keeper),
        doors,
        history: None,
    }
}

// Carries out each other command.
fn carry_out<R: Threads + Sync, S: Source, K: Keeper, F: Folder, O: Out, D>(
    rt: &R,
    alloc: Global,
    words: &[String],
    source: &mut S,
    mut keeper: K,
    folder: &mut F,
    out: &mut O,
    doors: Vec<D>,
) -> Ended<K, D>
    ensures runs { let command = command_of (word_bytes words.now) in
        let before = outside (S.shows source.old) (K.shows keeper) (F.shows folder.old)
        (O.shows out.old) in
        IsSomeAnd result.keeper (λ kept.
        let after = outside (S.shows source.new) (K.shows kept) (F.shows folder.new)
        (O.shows out.new) in
        RunsOverRows command before after result.status) }
    ensures reads { let command = command_of (word_bytes words.now) in
        ReadsAsOften command (S.reads source.old) (S.reads source.new) }
    ensures doors { result.doors ≡ doors }
    ensures history { result.history ≡ None }
{
    one_answer();
    one_batch();
    rows_law();
    let ending = work(rt, alloc, words, source, &mut keeper, folder);
    let status = finish(alloc, out, ending);
    Ended {
        status,
        keeper: Some(keeper),
        doors,
        history: None,
    }
}

fn work<R: Threads + Sync, S: Source, K: Keeper, F: Folder>(
    rt: &R,
    alloc: Global,
    words: &[String],
    source: &mut S,
    keeper: &mut K,
    folder: &mut F,
) -> Result<Bytes, Stop>
    ensures works { let command = command_of (word_bytes words.now) in
        let before = world (S.shows source.old) (K.shows keeper.old) (F.shows folder.old) in
        let after = world (S.shows source.new) (K.shows keeper.new) (F.shows folder.new) in
        ReadsAndWorks command before result after }
    ensures reads { let command = command_of (word_bytes words.now) in
        ReadsAsOften command (S.reads source.old) (S.reads source.new) }
{
    match command_in(alloc, words)? {
        None => Err(Stop::WordsRefused),
        Some(Command::Burn(asked)) => burn_box(alloc, &asked, source, folder),
        Some(Command::Init(digest)) => make_matter(alloc, digest, keeper),
        Some(Command::Import(name)) => import_batch(alloc, name, source, keeper),
        Some(Command::Produce(request)) => produce_volume(rt, alloc, request, keeper, folder),
        Some(Command::Press(id)) => press_kept(rt, alloc, id, keeper, folder),
        Some(Command::Log(id)) => log_kept(alloc, id, keeper),
        Some(Command::Check(asked)) => check_files(alloc, &asked, source),
        Some(Command::Claw(asked)) => claw_volume(alloc, &asked, source, keeper, folder),
        Some(Command::Demo(asked)) => demo_volume(rt, alloc, asked, keeper, folder),
    }
}
