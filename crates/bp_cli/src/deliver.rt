// The command `deliver`.
ghost use Rattle.std.specs.Prelude.{◌≡◌, ◌<◌, ◌^◌, IfOk, IfSome, length};
ghost use Rattle.std.specs.Option.{option_map};
ghost use Rattle.std.specs.Str.{chars};
ghost use Rattle.bp_desk.specs.Serving.{Knocks};
ghost use Rattle.bp_rules.specs.Steps.{AtMostOnce};
ghost use Rattle.bp_cli.specs.Words.{word_bytes};
ghost use Rattle.bp_cli.specs.Deliver.{deliver_named, deliver_of, deliver_seen, delivered_line};
ghost use Rattle.bp_cli.specs.DeliverSteps.{DeliversAnyhow, HoldsGrants, ReadsGrants, touched};

use crate::burn::{FILE_LIMIT, path_named, stop_of_read};
use crate::serve::is_connections;
use crate::stops::Stop;
use crate::words::{has_bad_word, number_in};
use bp_core::{Bytes, OutOfMemory};
use bp_keep::Keeper;
use bp_outside::{Door, Source};
use bp_receiver::{Delivery, GrantList, events_law, read_grants, serve_receiver, want_law};
use bp_rules::load_tables;
use std::alloc::Global;

/// How many words a line of deliver has.
pub const DELIVER_WORDS: usize = 3;

// ---- its line

/// Serve receivers and reviewers at the first door, with the grants of a file.
#[derive(Clone, Copy)]
pub struct DeliverLine<'a> {
    /// How many accepts are tried.
    pub connections: u32,
    /// What names the file of grants.
    pub grants: &'a str,
}

#[tactic(auto, using(crate::proofs::WordLemmas::any_of_bytes))]
/// What `deliver CONNECTIONS GRANTS` asks for, where there are so many doors.
pub fn deliver_in<'a>(words: &'a [String], doors: usize) -> Option<DeliverLine<'a>>
    ensures is { option_map deliver_seen result ≡ deliver_of doors (word_bytes words.now) }
    ensures door { IfSome result (λ _. 0 < doors) }
{
    if words.len() != DELIVER_WORDS {
        return None;
    }
    if has_bad_word(words) {
        return None;
    }
    if doors == 0 {
        return None;
    }
    deliver_named(words[0].as_str(), words[1].as_str(), words[2].as_str())
}

fn deliver_named<'a>(name: &str, connections: &str, grants: &'a str) -> Option<DeliverLine<'a>>
    ensures { option_map deliver_seen result
        ≡ deliver_named name.now connections.now grants.now }
{
    if name != "deliver" {
        return None;
    }
    let connections = number_in(connections)?;
    if is_connections(connections) {
        Some(DeliverLine {
            connections,
            grants,
        })
    } else {
        None
    }
}

// ---- its work

/// Opens a desk over the matter that the keeper has the rows of, with the grants of a file of the
/// source, and serves a door at it, which isn't knocked at again once it was found closed. The line that
/// tells how many events were made. It may wait for ever for a peer.
pub fn deliver<S: Source, K: Keeper, D: Door>(
    alloc: Global,
    asked: &DeliverLine<'_>,
    source: &mut S,
    keeper: &mut K,
    door: &mut D,
) -> Result<Bytes, Stop>
    ensures delivers { let given = touched (S.shows source.old) (K.shows keeper.old)
        (D.shows door.old) in
        let handed = touched (S.shows source.new) (K.shows keeper.new) (D.shows door.new) in
        DeliversAnyhow (deliver_seen asked.now) given result handed }
    ensures reads { AtMostOnce (S.reads source.old) (S.reads source.new) }
    ensures knocks { IfOk result (λ _. Knocks D.shows asked.now.connections door.old door.new) }
{
    want_law();
    events_law();
    let tables = load_tables(alloc, keeper)?;
    tables.know_valid();
    let rows = grants_named(alloc, asked.grants, source)?;
    let mut desk = Delivery::with_grants(alloc, tables, rows.as_slice())?;
    let count = serve_receiver(&mut desk, keeper, door, asked.connections);
    Ok(line_of_count(alloc, count)?)
}

// The grants of the file that a word names.
fn grants_named<S: Source>(alloc: Global, named: &str, source: &mut S) -> Result<GrantList, Stop>
    ensures grants { ReadsGrants (chars named.now) (S.shows source.old) result
        (S.shows source.new) }
    ensures reads { AtMostOnce (S.reads source.old) (S.reads source.new) }
{
    let path = path_named(alloc, named)?;
    match source.read(alloc, path.as_str(), FILE_LIMIT) {
        Ok(file) => grants_in(alloc, file.as_slice()),
        Err(refusal) => Err(stop_of_read(refusal)),
    }
}

// The grants that bytes hold.
fn grants_in(alloc: Global, bytes: &[u8]) -> Result<GrantList, Stop>
    requires { length bytes.now < 2 ^ 32 }
    ensures { HoldsGrants bytes.now result }
{
    match read_grants(alloc, bytes) {
        Ok(rows) => Ok(rows),
        Err(refusal) => Err(Stop::from(refusal)),
    }
}

// `delivered N`
fn line_of_count(alloc: Global, count: u32) -> Result<Bytes, OutOfMemory>
    ensures { IfOk result (λ line. line ≡ delivered_line count) }
{
    let line = format!(in alloc; "delivered {count}\n")?;
    Ok(Bytes::from_vec(line.into_bytes()))
}
