// The command `demo`.
ghost use Rattle.std.specs.Prelude.{◌≡◌, IfSome, IsTrue, Some};
ghost use Rattle.bp_outside.specs.Source.{SourceView};
ghost use Rattle.bp_cli.specs.Commands.{demo, ReadsAndWorks};
ghost use Rattle.bp_cli.specs.Demo.{can_be_drawn, demo_of, demo_pages};
ghost use Rattle.bp_cli.specs.DemoSteps.{DrawsDemo, FreezesHere, HasRows, KeepsFirst};
ghost use Rattle.bp_cli.specs.Endings.{world};
ghost use Rattle.bp_cli.specs.Words.{words_lent};

use crate::init::puts_of_tables;
use crate::produce::production_in;
use crate::stops::Stop;
use crate::volumes::put_volume;
use crate::words::{number_in, word_at};
use bp_core::{Bytes, OutOfMemory, Refusal, Rule, RuleKind};
use bp_demo::{MOST_PAGES, demo_request, demo_tables, make};
use bp_freeze::a_freeze_keeps;
use bp_keep::{KeepRefusal, Keeper};
use bp_matter::laws::order_law;
use bp_matter::{Call, Production, Request, Tables};
use bp_outside::Folder;
use bp_rules::{Decided, decide};
use std::alloc::Global;
use std::marker::Model;
use std::thread::Threads;

/// How many operands there are.
pub const DEMO_WORDS: usize = 2;

// ---- its line

/// What a line of demo asks for: a seed, and 1 to 2,000 pages.
#[derive(Debug, Drop)]
pub struct DemoLine {
    seed: u32,
    pages: u32,
}

impl Model for DemoLine {
    ghost use Rattle.std.specs.Prelude.{IsTrue};
    ghost use Rattle.bp_cli.specs.Demo.{DemoAsked, can_be_drawn};

    ghost Value = { DemoAsked };

    ghost view = { λ line. record { seed = line.seed; pages = line.pages } };

    ghost invariant = { λ line. IsTrue (can_be_drawn line.pages) };
}

/// What `demo SEED PAGES` asks for.
pub fn demo_in(operands: &[&str]) -> Option<DemoLine>
    ensures { result ≡ demo_of (words_lent operands.now) }
{
    if operands.len() != DEMO_WORDS {
        return None;
    }
    let seed = number_in(word_at(operands, 0))?;
    let pages = pages_in(word_at(operands, 1))?;
    Some(DemoLine { seed, pages })
}

fn pages_in(word: &str) -> Option<u32>
    ensures is { result ≡ demo_pages word.now }
    ensures drawn { IfSome result (λ pages. IsTrue (can_be_drawn pages)) }
{
    let pages = number_in(word)?;
    if 1 <= pages && pages <= MOST_PAGES {
        Some(pages)
    } else {
        None
    }
}

// ---- its work

/// Draws a matter for a keeper without rows, freezes all its documents for the lead, keeps its rows
/// by one commit, and puts the volume. The line that `produce` prints.
pub fn demo_volume<R: Threads + Sync, K: Keeper, F: Folder>(
    rt: &R,
    alloc: Global,
    asked: DemoLine,
    keeper: &mut K,
    folder: &mut F,
) -> Result<Bytes, Stop>
    ensures { (source : SourceView)
        → let line = Some (demo asked) in
        let before = world source (K.shows keeper.old) (F.shows folder.old) in
        let after = world source (K.shows keeper.new) (F.shows folder.new) in
        ReadsAndWorks line before result after }
{
    a_freeze_keeps();
    order_law();
    let there = has_rows(alloc, keeper)?;
    if there {
        return Err(Stop::Broken(Rule::bare(RuleKind::MatterThere)));
    }
    let drawn = drawn_demo(rt, alloc, asked)?;
    drawn.tables.know_valid();
    keep_first(alloc, &drawn.tables, keeper)?;
    put_volume(rt, alloc, &drawn.tables, &drawn.production, folder)
}

// Whether a keeper has rows.
fn has_rows<K: Keeper>(alloc: Global, keeper: &mut K) -> Result<bool, KeepRefusal>
    ensures { HasRows (K.shows keeper.old) result (K.shows keeper.new) }
{
    let rows = keeper.load(alloc)?;
    Ok(!rows.is_empty())
}

// The tables of a demo after its freeze, and the production that was frozen.
#[derive(Drop)]
pub struct Drawn {
    pub tables: Tables,
    pub production: Production,
}

// Draws the matter, and freezes all its documents.
fn drawn_demo<R: Threads + Sync>(rt: &R, alloc: Global, asked: DemoLine) -> Result<Drawn, Refusal>
    ensures { DrawsDemo asked result }
{
    let mut tables = demo_tables(rt, alloc, u64::from(asked.seed), asked.pages)?;
    let request = demo_request(alloc, tables.documents())?;
    let production = freeze_here(alloc, &mut tables, request)?;
    Ok(Drawn { tables, production })
}

// Makes the call of the lead that freezes what is asked, in tables that no keeper has the rows of.
fn freeze_here(alloc: Global, tables: &mut Tables, request: Request) -> Result<Production, Refusal>
    ensures { FreezesHere tables.old.matter request result tables.new.matter }
{
    tables.know_valid();
    let lead = tables.lead_digest();
    let call = Call::Freeze { request };
    let decided = decide(alloc, tables, &lead, &call)?;
    let Decided { change, reply } = decided;
    make(tables, change)?;
    Ok(production_in(reply))
}

// Commits the rows of the tables, all at once.
fn keep_first<K: Keeper>(alloc: Global, tables: &Tables, keeper: &mut K) -> Result<(), KeepRefusal>
    ensures { KeepsFirst tables.now.matter (K.shows keeper.old) result (K.shows keeper.new) }
{
    match puts_of_tables(alloc, tables) {
        Ok(puts) => keeper.commit(alloc, &puts),
        Err(OutOfMemory) => Err(KeepRefusal::OutOfMemory),
    }
}
