// A keeper that takes its time over each commit, in which whoever holds the turn keeps it.
use bp_core::{PutList, RowList};
use bp_keep::{KeepRefusal, Keeper};
use std::alloc::Global;
use std::thread;
use std::time::{Clock, Duration};

// Milliseconds of a commit: enough for whoever has begun a call to sleep until the turn is left.
const COMMIT_TIME: u64 = 100;

#[derive(Drop)]
pub struct SlowKeeper<K, R> {
    pub keeper: K,
    pub rt: R,
}

impl<K: Keeper, R: Clock> Keeper for SlowKeeper<K, R> {
    ghost shows = { λ slow. K.shows slow.keeper };

    ghost ascending = { λ slow. K.ascending slow.keeper };

    ghost unfailing = { λ slow. K.unfailing slow.keeper };

    fn load(&mut self, alloc: Global) -> Result<RowList, KeepRefusal> {
        self.keeper.load(alloc)
    }

    fn commit(&mut self, alloc: Global, puts: &PutList) -> Result<(), KeepRefusal> {
        thread::sleep(&self.rt, Duration::from_millis(COMMIT_TIME));
        self.keeper.commit(alloc, puts)
    }

    fn faults(&self) -> u64 {
        self.keeper.faults()
    }
}
