// The command `serve`.
ghost use Rattle.std.specs.Prelude.{◌≡◌, IfOk, IfSome, length};
ghost use Rattle.bp_cli.specs.Words.{word_bytes};
ghost use Rattle.bp_cli.specs.Serve.{HasDoors, count_line, is_connections as connections_told, is_desks as desks_told, serve_named, serve_of};
ghost use Rattle.bp_cli.specs.ServeSteps.{SaysServed, ServesAnyhow};

use crate::stops::Stop;
use crate::words::number_in;
use bp_book::{Closed, History};
use bp_core::{Bytes, OutOfMemory};
use bp_desk::serve_matter;
use bp_frozen::freezes_stand;
use bp_keep::Keeper;
use bp_outside::Door;
use std::alloc::Global;
use std::sync::Wait;
use std::thread::Threads;

/// How many words a line of serve has.
pub const SERVE_WORDS: usize = 3;

/// The most desks that a line can ask for.
pub const MAX_DESKS: u32 = 16;

/// The most connections that a line can ask for.
pub const MAX_CONNECTIONS: u32 = 1_000_000;

// ---- its line

/// What a line of serve asks for.
#[derive(Clone, Copy, Debug)]
pub struct ServeLine {
    /// How many doors are served, from the first.
    pub desks: u32,
    /// How many accepts are tried at each.
    pub connections: u32,
}

/// What `serve DESKS CONNECTIONS` asks for, where there are so many doors.
pub fn serve_in(words: &[String], doors: usize) -> Option<ServeLine>
    ensures is { result ≡ serve_of doors (word_bytes words.now) }
    ensures doors { IfSome result (λ asked. HasDoors asked doors) }
{
    if words.len() != SERVE_WORDS {
        return None;
    }
    serve_named(
        words[0].as_str(),
        words[1].as_str(),
        words[2].as_str(),
        doors,
    )
}

fn serve_named(name: &str, desks: &str, connections: &str, doors: usize) -> Option<ServeLine>
    ensures is { result ≡ serve_named doors name.now desks.now connections.now }
    ensures doors { IfSome result (λ asked. HasDoors asked doors) }
{
    if name != "serve" {
        return None;
    }
    let desks = number_in(desks)?;
    let connections = number_in(connections)?;
    if is_desks(desks, doors) && is_connections(connections) {
        Some(ServeLine { desks, connections })
    } else {
        None
    }
}

fn is_desks(desks: u32, doors: usize) -> bool
    ensures { result ≡ desks_told desks doors }
{
    1 <= desks && desks <= MAX_DESKS && desks as usize <= doors
}

/// Whether so many connections can be asked for.
pub fn is_connections(connections: u32) -> bool
    ensures { result ≡ connections_told connections }
{
    1 <= connections && connections <= MAX_CONNECTIONS
}

// ---- its work

/// How serving ended, with what it was handed and the calls that were made.
#[derive(Drop)]
pub struct Service<K, D> {
    pub ending: Result<Bytes, Stop>,
    pub keeper: K,
    pub doors: Vec<D>,
    pub history: Option<History>,
}

/// Serves the first doors, so many as there are desks, over the matter that the keeper has the rows
/// of, each for so many connections. The line that tells how many calls were made. Each freeze among
/// them that was answered with a production stands.
pub fn serve<K: Keeper + Send, D: Door + Send, R: Threads + Wait + Sync>(
    rt: &R,
    alloc: Global,
    asked: ServeLine,
    keeper: K,
    doors: Vec<D>,
) -> Service<K, D>
    requires { HasDoors asked (length doors.items) }
    ensures { ServesAnyhow D.shows asked (K.shows keeper) doors.items result.ending result.history
        (K.shows result.keeper) result.doors.items }
{
    freezes_stand();
    match serve_matter(rt, alloc, keeper, doors, asked.desks, asked.connections) {
        Ok(served) => told(alloc, served.closed, served.doors),
        Err(nobody) => Service {
            ending: Err(Stop::from(nobody.refused.why)),
            keeper: nobody.refused.keeper,
            doors: nobody.doors,
            history: None,
        },
    }
}

// The line, and the history where there was memory for the line.
fn told<K: Keeper, D>(alloc: Global, closed: Closed<K>, doors: Vec<D>) -> Service<K, D>
    ensures said { SaysServed closed.history result.ending result.history }
    ensures keeper { result.keeper ≡ closed.keeper }
    ensures doors { result.doors ≡ doors }
{
    let Closed {
        keeper,
        tables: _,
        history,
    } = closed;
    match line_of_count(alloc, history.len()) {
        Ok(line) => Service {
            ending: Ok(line),
            keeper,
            doors,
            history: Some(history),
        },
        Err(lack) => Service {
            ending: Err(Stop::from(lack)),
            keeper,
            doors,
            history: None,
        },
    }
}

// `served N`
fn line_of_count(alloc: Global, count: usize) -> Result<Bytes, OutOfMemory>
    ensures { IfOk result (λ line. line ≡ count_line count) }
{
    let line = format!(in alloc; "served {count}\n")?;
    Ok(Bytes::from_vec(line.into_bytes()))
}
