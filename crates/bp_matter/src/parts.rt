// What can be written in a list of a body.
ghost use Rattle.std.specs.Prelude.{◌≡◌, ℕ, Bool, Option, List, IsTrue, OnOk, ◌++◌};
ghost use Rattle.bp_matter.specs.Reading.{Gives};

use crate::read_fault::ReadFault;
use bp_core::OutOfMemory;
use std::alloc::Global;

/// A value that is written in a list.
pub trait Part: Sized + Drop {
    ghost part_of: { Self → List ℕ };

    ghost is_written: { Self → Bool };

    ghost read_at: { List ℕ → Option (Self × List ℕ) };

    /// Adds its bytes.
    fn put(&self, out: &mut Vec<u8>) -> Result<(), OutOfMemory>
        requires { IsTrue (is_written self.now) }
        ensures { OnOk result (out.new.items ≡ out.old.items ++ part_of self.now) };

    /// The value at the front, and the bytes after it.
    fn take(alloc: Global, bytes: &[u8]) -> Result<(Self, &[u8]), ReadFault>
        ensures { Gives (λ x. (x.0, x.1.now)) result (read_at bytes.now) };
}
