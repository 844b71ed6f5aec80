// A source in memory.
ghost use Rattle.std.specs.Prelude.{◌≡◌, ◌≤◌, ◌↔◌, ◌==◌, true, length, Some, IfOk, IfSome, IsTrue, IsErrOf};
ghost use Rattle.std.specs.Option.{option_copied};
ghost use Rattle.std.specs.Str.{chars};
ghost use Rattle.std.specs.FinMap as maps;
ghost use Rattle.bp_outside.specs.Source.{ReadOver, after_read};
ghost use Rattle.bp_core.specs.Calls.{no_calls, next_fails, after_call};
ghost use Rattle.bp_core.specs.Counts.{risen};
ghost use Rattle.bp_outside.specs.Memory.{paths_differ, file_map, source_shown, source_reads, source_calls, source_files};

use crate::counts::ReadCounts;
use crate::files::{FileList, FileRow};
use crate::refusals::ReadRefusal;
use crate::source::Source;
use bp_core::{Bytes, Calls, NumberList};
use std::alloc::Global;

/// A source in memory.
#[derive(Debug, Drop)]
pub struct MemSource {
    files: FileList,
    calls: Calls,
    counts: ReadCounts,
}

impl MemSource {
    /// A source of these files, of which no path stands twice. Its calls whose numbers, from 0, are
    /// in `failing` are to fail.
    pub fn over(files: FileList, failing: NumberList) -> MemSource
        requires { paths_differ files ≡ true }
        ensures shows { source_shown result ≡ record {
          files = Some (file_map files);
          faults = 0;
          absences = 0;
          overlong = 0;
          sure = (length failing == 0);
        } }
        ensures files { source_files result ≡ files }
        ensures calls { source_calls result ≡ no_calls failing }
    {
        MemSource {
            files,
            calls: Calls::new(failing),
            counts: ReadCounts::ZERO,
        }
    }

    /// The files, in the order in which they were given.
    pub fn files(&self) -> &[FileRow]
        ensures { result.now ≡ source_files self.now }
    {
        self.files.as_slice()
    }
}

impl Source for MemSource {
    ghost shows = { source_shown };

    ghost reads = { source_reads };

    ghost use Rattle.bp_core.specs.Calls.{never_failed};

    ghost unfailing = { λ source. never_failed _ _ };

    /// Fails exactly where the number of the call is one that was given to fail.
    fn read(&mut self, alloc: Global, path: &str, max: u64) -> Result<Vec<u8>, ReadRefusal>
        ensures limit { IfOk result (λ bytes. length bytes.items ≤ max) }
        ensures told { IfSome (source_shown self.old).files (ReadOver (chars path.now) max result) }
        ensures after { source_shown self.new ≡ after_read (source_shown self.old) result }
        ensures counted { source_reads self.new ≡ risen (source_reads self.old) }
        ensures fails { IsErrOf result ReadRefusal.Failed
            ↔ IsTrue (next_fails (source_calls self.old)) }
        ensures numbered { source_calls self.new ≡ after_call (source_calls self.old) }
        ensures files { source_files self.new ≡ source_files self.old }
    {
        if self.calls.next_fails() {
            return Err(self.counts.refuse(ReadRefusal::Failed));
        }
        let Some(bytes) = find_file(self.files.as_slice(), path) else {
            return Err(self.counts.refuse(ReadRefusal::Absent));
        };
        if bytes.len() as u64 > max {
            return Err(self.counts.refuse(ReadRefusal::TooLong));
        }
        let copy = Vec::from_slice(alloc, bytes.as_slice())?;
        Ok(copy)
    }
}

// The bytes of the file at this path.
fn find_file<'a>(files: &'a [FileRow], path: &str) -> Option<&'a Bytes>
    ensures { option_copied result ≡ maps.get (file_map files.now) (chars path.now) }
{
    for file in files {
        if file.path.as_str() == path {
            return Some(&file.bytes);
        }
    }
    None
}
