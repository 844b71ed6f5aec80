// An out in memory.
ghost use Rattle.std.specs.Prelude.{◌≡◌, ◌↔◌, ◌==◌, true, length, min, Some, IfOk, IsTrue, IsErrOf};
ghost use Rattle.bp_outside.specs.Out.{OutWrites};
ghost use Rattle.bp_core.specs.Calls.{no_calls, next_fails, after_call};
ghost use Rattle.bp_outside.specs.Memory.{out_shown, out_calls};

use crate::output::Out;
use crate::refusals::OutRefusal;
use bp_core::{Bytes, Calls, NumberList};
use std::alloc::Global;

/// The most bytes that one `write` to an out in memory takes.
pub const WRITE_LIMIT: usize = 4096;

/// An out in memory.
#[derive(Debug, Drop)]
pub struct MemOut {
    written: Bytes,
    calls: Calls,
    faults: u64,
}

impl MemOut {
    /// An out with these bytes written. Its calls whose numbers, from 0, are in `failing` are to
    /// fail.
    pub fn over(written: Bytes, failing: NumberList) -> MemOut
        ensures shows { out_shown result
            ≡ record { written = Some written; faults = 0; sure = (length failing == 0) } }
        ensures calls { out_calls result ≡ no_calls failing }
    {
        MemOut {
            written,
            calls: Calls::new(failing),
            faults: 0,
        }
    }

    /// The bytes that were written.
    pub fn written(&self) -> &[u8]
        ensures { Some result.now ≡ (out_shown self.now).written }
    {
        self.written.as_slice()
    }
}

impl Out for MemOut {
    ghost shows = { out_shown };

    ghost use Rattle.bp_core.specs.Calls.{never_failed};

    ghost unfailing = { λ out. never_failed _ _ };

    /// Takes at most `WRITE_LIMIT` bytes. Fails exactly where the number of the call is one that
    /// was given to fail, and has then written the first half of what it would take.
    fn write(&mut self, _alloc: Global, piece: &[u8]) -> Result<usize, OutRefusal>
        ensures writes { OutWrites (out_shown self.old) piece.now result (out_shown self.new) }
        ensures count { IfOk result (λ count. count ≡ min (length piece.now) WRITE_LIMIT) }
        ensures fails { IsErrOf result OutRefusal.Failed
            ↔ IsTrue (next_fails (out_calls self.old)) }
        ensures numbered { out_calls self.new ≡ after_call (out_calls self.old) }
    {
        let count = piece.len().min(WRITE_LIMIT);
        if self.calls.next_fails() {
            let _ = self.written.extend_from_slice(&piece[..count / 2]);
            self.faults = self.faults.saturating_add(1);
            return Err(OutRefusal::Failed);
        }
        self.written.extend_from_slice(&piece[..count])?;
        Ok(count)
    }
}
