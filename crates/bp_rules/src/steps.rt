// Steps: decided, kept and made.
ghost use Rattle.std.specs.Prelude.{◌≡◌, IsTrue};
ghost use Rattle.bp_matter.specs.ValidProductions.{itself};
ghost use Rattle.bp_core.specs.Differing.{all_differ};
ghost use Rattle.bp_freeze.specs.Numbers.{AreTakenOnce, all_labels};
ghost use Rattle.bp_rules.specs.Changes.{CanBeMade};
ghost use Rattle.bp_rules.specs.Keeping.{StepKeeps};
ghost use Rattle.bp_rules.specs.Steps.{Makes, StepsCall, StepsImport};

use crate::apply_changes::{apply, make_room};
use crate::changes::Change;
use crate::decide_calls::decide;
use crate::decide_imports::{Imported, decide_import};
use crate::decided::Decided;
use crate::refusals::MatterRefusal;
use bp_freeze::numbers_are_taken_once;
use bp_keep::{KeepRefusal, Keeper};
use bp_matter::{Batch, Call, Reply, Tables};
use std::alloc::Global;

/// How many documents and pages a batch has.
#[derive(Clone, Copy, Debug, PartialEq, Eq)]
pub struct Counted {
    pub documents: u32,
    pub pages: u32,
}

/// Imports a batch: the tables and the kept rows are those after it. Room is made before the rows
/// are committed, so after the commit nothing can fail; of a batch that was imported before nothing is
/// committed. A refusal leaves tables and rows. Stored productions stay kept, and what comes stands
/// behind the fields, documents, pages and words that were there.
pub fn step_import<K: Keeper>(
    alloc: Global,
    tables: &mut Tables,
    keeper: &mut K,
    batch: &Batch,
) -> Result<Counted, MatterRefusal>
    ensures made { StepsImport tables.old.matter batch.now (K.shows keeper.old) result
        tables.new.matter (K.shows keeper.new) }
    ensures kept { StepKeeps tables.old.matter tables.new.matter }
{
    let Imported {
        change,
        documents,
        pages,
    } = decide_import(alloc, tables, batch)?;
    make(alloc, tables, keeper, change)?;
    Ok(Counted { documents, pages })
}

/// Makes a call with this key: the tables and the kept rows are those after it. Room is made before
/// the rows are committed, so after the commit nothing can fail; where there are no puts nothing is
/// committed. A refusal leaves tables and rows. Stored productions stay kept, and fields, documents,
/// pages and words stay as they were. Under each prefix the label numbers of all productions are 1 up
/// to its next number, each once, and no two labels are alike.
pub fn step<K: Keeper>(
    alloc: Global,
    tables: &mut Tables,
    keeper: &mut K,
    key: &[u8; 32],
    call: &Call,
) -> Result<Reply, MatterRefusal>
    ensures made { StepsCall tables.old.matter key.now call.now (K.shows keeper.old) result
        tables.new.matter (K.shows keeper.new) }
    ensures kept { StepKeeps tables.old.matter tables.new.matter }
    ensures numbers { AreTakenOnce tables.new.matter }
    ensures labels { IsTrue (all_differ itself (all_labels tables.new.matter.productions)) }
{
    know_numbers(tables);
    let Decided { change, reply } = decide(alloc, tables, key, call)?;
    let made = make(alloc, tables, keeper, change);
    know_numbers(tables);
    made?;
    Ok(reply)
}

// Says that the label numbers under each prefix are taken once, and that no two labels are alike.
pub(crate) fn know_numbers(tables: &Tables)
    ensures numbers { AreTakenOnce tables.now.matter }
    ensures labels { IsTrue (all_differ itself (all_labels tables.now.matter.productions)) }
{
    tables.know_valid();
    numbers_are_taken_once();
}

// Keeps a decided change and makes it. Without puts there is nothing to do.
fn make<K: Keeper>(
    alloc: Global,
    tables: &mut Tables,
    keeper: &mut K,
    change: Change,
) -> Result<(), KeepRefusal>
    requires { CanBeMade tables.old.matter change }
    ensures made { Makes tables.old.matter (K.shows keeper.old) change result tables.new.matter
        (K.shows keeper.new) }
    ensures kept { StepKeeps tables.old.matter tables.new.matter }
{
    if change.puts().is_empty() {
        return Ok(());
    }
    if make_room(tables, &change).is_err() {
        return Err(KeepRefusal::OutOfMemory);
    }
    match keeper.commit(alloc, change.puts()) {
        Ok(()) => {}
        Err(refusal) => return Err(refusal),
    }
    apply(tables, change);
    Ok(())
}
