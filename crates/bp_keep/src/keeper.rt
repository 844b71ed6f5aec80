// Where rows are kept.
ghost use Rattle.std.specs.Prelude.{◌≡◌, true, IfSome, IsTrue};
ghost use Rattle.bp_core.specs.Sorted.{ascends, row_key};
ghost use Rattle.bp_keep.specs.Keeper.{KeeperView, Loads, Commits};

use crate::refusals::KeepRefusal;
use bp_core::{PutList, RowList};
use std::alloc::Global;

/// A keeper of rows, at most one of a key. It counts its faults, its loads and its commits. A count
/// stands still at the greatest u64.
///
///     let rows = keeper.load(alloc)?;
///     keeper.commit(alloc, &puts)?;
pub trait Keeper {
    // What is known of it.
    ghost shows: { Self → KeeperView };

    /// The rows, in ascending order of key: by kind, then by first number, then by second. `Failed`
    /// where the keeper failed, which raises the count of faults by one. No load changes the rows.
    fn load(&mut self, alloc: Global) -> Result<RowList, KeepRefusal>
        ensures { Loads (shows self.old) result (shows self.new) };

    /// Makes these puts in order: each sets the body of its key, or removes the row of its key.
    /// With `Ok` all are made; a refusal leaves the rows. `Failed` where the keeper failed, which
    /// raises the count of faults by one.
    fn commit(&mut self, alloc: Global, puts: &PutList) -> Result<(), KeepRefusal>
        ensures { Commits (shows self.old) puts.now result (shows self.new) };

    /// How often a call failed.
    fn faults(&self) -> u64
        ensures { result ≡ (shows self.now).faults };

    // Rows that are told stand in ascending order of key, none twice.
    ghost ascending: { (keeper : Self)
        → IfSome (shows keeper).rows (λ rows. IsTrue (ascends row_key 0 rows)) };

    // A keeper that is sure never failed.
    ghost unfailing: { (keeper : Self) → (shows keeper).sure ≡ true → (shows keeper).faults ≡ 0 };
}
