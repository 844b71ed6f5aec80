// Where files are read from.
ghost use Rattle.std.specs.Prelude.{◌≡◌, ◌≤◌, ℕ, length, IfOk, IfSome, true};
ghost use Rattle.std.specs.Str.{chars};
ghost use Rattle.bp_outside.specs.Counts.{risen};
ghost use Rattle.bp_outside.specs.Source.{SourceView, ReadOver, after_read};

use crate::refusals::ReadRefusal;
use std::alloc::Global;

/// A source of files, each at a path. It counts its reads, its faults, the reads that found no file
/// and the reads that found a file over their limit. A count stands still at the greatest u64.
pub trait Source {
    // What is known of it.
    ghost shows: { Self → SourceView };

    // How often it was asked to read.
    ghost reads: { Self → ℕ };

    /// The bytes of the file at this path, at most `max` of them. `Absent` where there is no such
    /// file, `TooLong` where it has more than `max` bytes, `Failed` where the source failed: each
    /// raises its own count by one. No read changes the files.
    fn read(&mut self, alloc: Global, path: &str, max: u64) -> Result<Vec<u8>, ReadRefusal>
        ensures limit { IfOk result (λ bytes. length bytes.items ≤ max) }
        ensures told { IfSome (shows self.old).files (ReadOver (chars path.now) max result) }
        ensures after { shows self.new ≡ after_read (shows self.old) result }
        ensures counted { reads self.new ≡ risen (reads self.old) };

    // A source that is sure never failed.
    ghost unfailing: { (source : Self) → (shows source).sure ≡ true → (shows source).faults ≡ 0 };
}
