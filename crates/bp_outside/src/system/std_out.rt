// Standard output as an out.
ghost use Rattle.std.specs.Prelude.{◌≡◌, false, None, IsErrOf};
ghost use Rattle.bp_outside.specs.Out.{OutWrites};
ghost use Rattle.bp_outside.specs.Untold.{untold_out};

use crate::output::Out;
use crate::refusals::OutRefusal;
use crate::system::answers::write_answer;
use std::alloc::Global;

/// The standard output.
#[derive(Drop)]
pub struct StdOut<'a, R: Print> {
    rt: &'a R,
    faults: u64,
}

impl<'a, R: Print> StdOut<'a, R> {
    /// The standard output of this runtime.
    pub fn of(rt: &'a R) -> StdOut<'a, R>
        ensures { untold_out result.faults ≡ record { written = None; faults = 0; sure = false } }
    {
        StdOut { rt, faults: 0 }
    }
}

impl<'a, R: Print> Out for StdOut<'a, R> {
    ghost use Rattle.std.proofs.lemmas.Bool.{false≢true};

    ghost shows = { λ out. untold_out out.faults };

    ghost unfailing = { λ out sure. absurd (false≢true sure) };

    /// Takes no memory, so it never runs out of it.
    fn write(&mut self, _alloc: Global, piece: &[u8]) -> Result<usize, OutRefusal>
        ensures writes { OutWrites (untold_out self.old.faults) piece.now result
            (untold_out self.new.faults) }
        ensures no_memory { ¬ (IsErrOf result OutRefusal.OutOfMemory) }
    {
        let answer = self.rt.write_some(piece);
        write_answer(answer, piece.len(), OutRefusal::Failed, &mut self.faults)
    }
}
