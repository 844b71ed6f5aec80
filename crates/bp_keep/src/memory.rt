// A keeper in memory.
ghost use Rattle.std.specs.Prelude.{◌≡◌, ◌↔◌, ◌==◌, ◌++◌, length, Some, IsTrue, IsErrOf, if◌then◌else◌};
ghost use Rattle.bp_core.specs.Calls.{no_calls, next_fails, after_call};
ghost use Rattle.bp_core.specs.Counts.{risen};
ghost use Rattle.bp_core.specs.Sorted.{ascends, row_key};
ghost use Rattle.bp_keep.specs.Slots.{held, in_order};

mod copies;
mod slots;

use crate::keeper::Keeper;
use crate::refusals::KeepRefusal;
use bp_core::{Calls, NumberList, PutList, Row, RowList};
use copies::{copy_filled, copy_reversed};
use slots::{Slots, drop_empty, move_in, put_in};
use std::alloc::Global;
use std::collections::BTreeMap;

/// A keeper in memory.
#[derive(Debug, Drop)]
pub struct MemKeeper {
    // The rows as they were given, until the first call moves them into the tree.
    given: Vec<Row>,
    slots: Slots,
    calls: Calls,
    faults: u64,
    loads: u64,
    commits: u64,
    ghost in_order: { IsTrue (in_order 0 slots.entries) },
    ghost ascending: { IsTrue (ascends row_key 0 (given.items ++ held slots.entries)) },
}

impl MemKeeper {
    ghost use Rattle.bp_keep.specs.Memory.{memory_shown, keeper_calls};

    /// A keeper of these rows, which stand in ascending order of key, none twice (`ascends` of
    /// bp_core is the test). Its calls whose numbers, from 0, are in `failing` are to fail.
    pub fn over(rows: RowList, failing: NumberList) -> MemKeeper
        requires { IsTrue (ascends row_key 0 rows) }
        ensures shows { memory_shown result
            ≡ record {
              rows = Some rows;
              faults = 0;
              loads = 0;
              commits = 0;
              sure = (length failing == 0);
            } }
        ensures calls { keeper_calls result ≡ no_calls failing }
    {
        let given = rows.into_vec();
        let slots = BTreeMap::new(*given.allocator());
        MemKeeper {
            given,
            slots,
            calls: Calls::new(failing),
            faults: 0,
            loads: 0,
            commits: 0,
        }
    }
}

impl Keeper for MemKeeper {
    ghost use Rattle.bp_keep.specs.Keeper.{Loads, Commits};
    ghost use Rattle.bp_keep.specs.Memory.{memory_shown, keeper_calls};
    ghost use Rattle.bp_core.specs.Calls.{never_failed};

    ghost shows = { memory_shown };

    ghost ascending = { λ keeper. keeper.ascending };

    ghost unfailing = { λ keeper. never_failed _ _ };

    /// Fails exactly where the number of the call is one that was given to fail.
    fn load(&mut self, alloc: Global) -> Result<RowList, KeepRefusal>
        ensures loads { Loads (memory_shown self.old) result (memory_shown self.new) }
        ensures fails { IsErrOf result KeepRefusal.Failed
            ↔ IsTrue (next_fails (keeper_calls self.old)) }
        ensures numbered { keeper_calls self.new ≡ after_call (keeper_calls self.old) }
    {
        self.loads = self.loads.saturating_add(1);
        if is_fault(&mut self.calls, &mut self.faults) {
            return Err(KeepRefusal::Failed);
        }
        move_in(&mut self.given, &mut self.slots)?;
        let rows = copy_filled(alloc, &self.slots)?;
        Ok(RowList::from_vec(rows))
    }

    /// Fails exactly where the number of the call is one that was given to fail.
    fn commit(&mut self, alloc: Global, puts: &PutList) -> Result<(), KeepRefusal>
        ensures commits { Commits (memory_shown self.old) puts.now result (memory_shown self.new) }
        ensures fails { IsErrOf result KeepRefusal.Failed
            ↔ IsTrue (next_fails (keeper_calls self.old)) }
        ensures numbered { keeper_calls self.new ≡ after_call (keeper_calls self.old) }
    {
        self.commits = self.commits.saturating_add(1);
        if is_fault(&mut self.calls, &mut self.faults) {
            return Err(KeepRefusal::Failed);
        }
        let changes = copy_reversed(alloc, puts.as_slice())?;
        move_in(&mut self.given, &mut self.slots)?;
        let made = put_in(&mut self.slots, changes);
        drop_empty(&mut self.slots, puts.as_slice(), made.is_err());
        made?;
        Ok(())
    }

    fn faults(&self) -> u64
        ensures { result ≡ (memory_shown self.now).faults }
    {
        self.faults
    }
}

// Numbers the next call, and tells whether it is to fail, which is one more fault.
fn is_fault(calls: &mut Calls, faults: &mut u64) -> bool
    ensures answer { result ≡ next_fails calls.old }
    ensures counted { calls.new ≡ after_call calls.old }
    ensures faults { faults.new ≡ (if result then risen faults.old else faults.old) }
{
    let fails = calls.next_fails();
    if fails {
        *faults = faults.saturating_add(1);
    }
    fails
}
