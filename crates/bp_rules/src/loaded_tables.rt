// Loading the tables of a matter.
ghost use Rattle.std.specs.Prelude.{◌≡◌, IfOk, IsTrue};
ghost use Rattle.bp_matter.specs.ValidProductions.{itself};
ghost use Rattle.bp_core.specs.Differing.{all_differ};
ghost use Rattle.bp_freeze.specs.Numbers.{AreTakenOnce, all_labels};
ghost use Rattle.bp_rules.specs.Loading.{LoadsTables};

use crate::refusals::MatterRefusal;
use crate::steps::know_numbers;
use bp_core::{OutOfMemory, Refusal, Rule, RuleKind};
use bp_keep::Keeper;
use bp_matter::laws::rows_law;
use bp_matter::{Tables, read_tables};
use std::alloc::Global;

/// The tables that the keeper has the rows of. It leaves the rows. Under each prefix the label numbers
/// of all productions are 1 up to its next number, each once, and no two labels are alike.
pub fn load_tables<K: Keeper>(alloc: Global, keeper: &mut K) -> Result<Tables, MatterRefusal>
    ensures loaded { LoadsTables (K.shows keeper.old) result (K.shows keeper.new) }
    ensures numbers { IfOk result (λ tables. AreTakenOnce tables.matter) }
    ensures labels { IfOk result (λ tables.
        IsTrue (all_differ itself (all_labels tables.matter.productions))) }
{
    let tables = loaded(alloc, keeper)?;
    know_numbers(&tables);
    Ok(tables)
}

// The same, by the rows alone.
fn loaded<K: Keeper>(alloc: Global, keeper: &mut K) -> Result<Tables, MatterRefusal>
    ensures { LoadsTables (K.shows keeper.old) result (K.shows keeper.new) }
{
    rows_law();
    let rows = keeper.load(alloc)?;
    if rows.is_empty() {
        return Err(MatterRefusal::Rule(Rule::bare(RuleKind::NoMatter)));
    }
    match read_tables(alloc, &rows) {
        Ok(tables) => {
            tables.know_valid();
            Ok(tables)
        }
        Err(Refusal::Rule(rule)) => Err(MatterRefusal::Rule(rule)),
        Err(Refusal::OutOfMemory) => Err(MatterRefusal::OutOfMemory),
    }
}
