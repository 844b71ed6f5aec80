// The tables of a demo: all that is asked of a new matter is made in turn, in memory.
ghost use Rattle.std.specs.Prelude.{◌≡◌, ◌≤◌, IfOk, OnErr, OnOk, map};
ghost use Rattle.bp_rules.specs.Changes.{CanBeMade, after};
ghost use Rattle.bp_rules.specs.Running.{run_of};
ghost use Rattle.bp_demo.specs.Demo.{after_demo_call, after_import, call_step, demo_matter, steps_of};

use crate::asked::{Asked, demo_asked};
use crate::batch::digest_of;
use crate::calls::KeyedCall;
use crate::documents::MOST_PAGES;
use bp_core::{OutOfMemory, Refusal};
use bp_matter::{Batch, Tables};
use bp_rules::{Change, Decided, Imported, apply, begin, decide, decide_import, make_room};
use std::alloc::Global;
use std::thread::Threads;

/// The tables of the matter of this seed and so many pages, 1 to 2,000. No keeper has its rows. It
/// returns if the threads that it joins do.
///
///     let tables = demo_tables(rt, alloc, 7, 200)?;
pub fn demo_tables<R: Threads + Sync>(
    rt: &R,
    alloc: Global,
    seed: u64,
    pages: u32,
) -> Result<Tables, OutOfMemory>
    requires some { 1 ≤ pages }
    requires few { pages ≤ MOST_PAGES }
    ensures { IfOk result (λ tables. tables.matter ≡ demo_matter seed pages) }
{
    let asked = demo_asked(rt, alloc, seed, pages)?;
    let mut tables = begin(alloc, digest_of(b"lead"))?;
    make_all(alloc, &mut tables, &asked)?;
    Ok(tables)
}

#[tactic(auto, using(crate::proofs::TableLemmas::all_made))]
// Makes all that is asked, in turn.
fn make_all(alloc: Global, tables: &mut Tables, asked: &Asked) -> Result<(), OutOfMemory>
    ensures { OnOk result
        (tables.new.matter ≡ run_of tables.old.matter (steps_of asked.now)) }
{
    make_call(alloc, tables, &asked.second)?;
    make_import(alloc, tables, &asked.batch)?;
    make_calls(alloc, tables, asked.calls.as_slice())?;
    Ok(())
}

fn make_calls(alloc: Global, tables: &mut Tables, calls: &[KeyedCall]) -> Result<(), OutOfMemory>
    ensures { OnOk result
        (tables.new.matter ≡ run_of tables.old.matter (map call_step calls.now)) }
{
    for asked in calls {
        make_call(alloc, tables, asked)?;
    }
    Ok(())
}

#[tactic(auto, using(crate::proofs::TableLemmas::called, crate::proofs::TableLemmas::call_refused))]
// Makes a call. One that broke a rule would change nothing.
fn make_call(alloc: Global, tables: &mut Tables, asked: &KeyedCall) -> Result<(), OutOfMemory>
    ensures { OnOk result (tables.new.matter ≡ after_demo_call tables.old.matter asked.now) }
{
    match decide(alloc, tables, &asked.key, &asked.call) {
        Ok(Decided { change, .. }) => {
            make(tables, change)?;
            Ok(())
        }
        Err(Refusal::Rule(_)) => Ok(()),
        Err(Refusal::OutOfMemory) => Err(OutOfMemory),
    }
}

#[tactic(auto, using(crate::proofs::TableLemmas::imported, crate::proofs::TableLemmas::import_refused))]
// Imports a batch.
fn make_import(alloc: Global, tables: &mut Tables, batch: &Batch) -> Result<(), OutOfMemory>
    ensures { OnOk result (tables.new.matter ≡ after_import tables.old.matter batch.now) }
{
    match decide_import(alloc, tables, batch) {
        Ok(Imported { change, .. }) => {
            make(tables, change)?;
            Ok(())
        }
        Err(Refusal::Rule(_)) => Ok(()),
        Err(Refusal::OutOfMemory) => Err(OutOfMemory),
    }
}

/// Makes a change that was decided on these tables, and keeps it nowhere. Where memory lacks their
/// contents stay.
pub fn make(tables: &mut Tables, change: Change) -> Result<(), OutOfMemory>
    requires { CanBeMade tables.old.matter change }
    ensures made { OnOk result (tables.new.matter ≡ after tables.old.matter change) }
    ensures stays { OnErr result (tables.new.matter ≡ tables.old.matter) }
{
    make_room(tables, &change)?;
    apply(tables, change);
    Ok(())
}
