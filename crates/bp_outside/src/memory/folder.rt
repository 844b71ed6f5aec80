// A folder in memory.
ghost use Rattle.std.specs.Prelude.{◌≡◌, ◌↔◌, ◌==◌, true, false, length, min, Some, IfOk, IsTrue, IsErrOf, is_ok, if◌then◌else◌};
ghost use Rattle.std.specs.Str.{chars};
ghost use Rattle.bp_outside.specs.Folder.{after_create, after_finish, add_to_last, Appends};
ghost use Rattle.bp_core.specs.Calls.{no_calls, next_fails, after_call};
ghost use Rattle.bp_outside.specs.Memory.{folder_shown, folder_calls};

use crate::files::{FileList, FileRow};
use crate::folder::Folder;
use crate::refusals::FolderRefusal;
use bp_core::{Bytes, Calls, NumberList, OutOfMemory, Text};
use std::alloc::{AllocError, Global};

/// The most bytes that one `append` to a folder in memory takes.
pub const APPEND_LIMIT: usize = 4096;

/// A folder in memory.
#[derive(Debug, Drop)]
pub struct MemFolder {
    files: Vec<FileRow>,
    under_way: bool,
    calls: Calls,
    faults: u64,
}

impl MemFolder {
    /// A folder with these files, of which none is under way. Its calls whose numbers, from 0, are
    /// in `failing` are to fail.
    pub fn over(files: FileList, failing: NumberList) -> MemFolder
        ensures shows { folder_shown result ≡ record {
          files = Some files;
          under_way = false;
          faults = 0;
          sure = (length failing == 0);
        } }
        ensures calls { folder_calls result ≡ no_calls failing }
    {
        MemFolder {
            files: files.into_vec(),
            under_way: false,
            calls: Calls::new(failing),
            faults: 0,
        }
    }

    /// The files, in order of creation.
    pub fn files(&self) -> &[FileRow]
        ensures { Some result.now ≡ (folder_shown self.now).files }
    {
        self.files.as_slice()
    }
}

impl Folder for MemFolder {
    ghost shows = { folder_shown };

    ghost use Rattle.bp_core.specs.Calls.{never_failed};

    ghost unfailing = { λ folder. never_failed _ _ };

    /// Fails exactly where the number of the call is one that was given to fail.
    fn create(&mut self, alloc: Global, path: &str) -> Result<(), FolderRefusal>
        ensures after { folder_shown self.new
            ≡ after_create (folder_shown self.old) (chars path.now) result }
        ensures fails { IsErrOf result FolderRefusal.Failed
            ↔ IsTrue (next_fails (folder_calls self.old)) }
        ensures numbered { folder_calls self.new ≡ after_call (folder_calls self.old) }
    {
        if self.calls.next_fails() {
            self.faults = self.faults.saturating_add(1);
            return Err(FolderRefusal::Failed);
        }
        let row = FileRow {
            path: Text::from_string(String::from_str(alloc, path)?),
            bytes: Bytes::from_vec(Vec::new(alloc)),
        };
        self.files.push(row).map_err(AllocError::from)?;
        self.under_way = true;
        Ok(())
    }

    /// Takes at most `APPEND_LIMIT` bytes. Fails exactly where the number of the call is one that
    /// was given to fail, and has then added the first half of what it would take.
    fn append(&mut self, alloc: Global, piece: &[u8]) -> Result<usize, FolderRefusal>
        requires { (folder_shown self.old).under_way ≡ true }
        ensures appends { Appends (folder_shown self.old) piece.now result (folder_shown self.new) }
        ensures count { IfOk result (λ count. count ≡ min (length piece.now) APPEND_LIMIT) }
        ensures fails { IsErrOf result FolderRefusal.Failed
            ↔ IsTrue (next_fails (folder_calls self.old)) }
        ensures numbered { folder_calls self.new ≡ after_call (folder_calls self.old) }
    {
        let count = piece.len().min(APPEND_LIMIT);
        if self.calls.next_fails() {
            let _ = add_bytes(&mut self.files, &piece[..count / 2]);
            self.faults = self.faults.saturating_add(1);
            return Err(FolderRefusal::Failed);
        }
        add_bytes(&mut self.files, &piece[..count])?;
        Ok(count)
    }

    /// Fails exactly where the number of the call is one that was given to fail.
    fn finish(&mut self, alloc: Global) -> Result<(), FolderRefusal>
        requires { (folder_shown self.old).under_way ≡ true }
        ensures after { folder_shown self.new ≡ after_finish (folder_shown self.old) result }
        ensures fails { IsErrOf result FolderRefusal.Failed
            ↔ IsTrue (next_fails (folder_calls self.old)) }
        ensures numbered { folder_calls self.new ≡ after_call (folder_calls self.old) }
    {
        if self.calls.next_fails() {
            self.faults = self.faults.saturating_add(1);
            return Err(FolderRefusal::Failed);
        }
        self.under_way = false;
        Ok(())
    }
}

// Adds these bytes to the last file.
fn add_bytes(files: &mut Vec<FileRow>, bytes: &[u8]) -> Result<(), OutOfMemory>
    ensures { files.new.items
        ≡ (if is_ok result then add_to_last bytes.now files.old.items else files.old.items) }
{
    let count = files.len();
    if count == 0 {
        return Ok(());
    }
    let last = &mut files[count - 1];
    last.bytes.extend_from_slice(bytes)
}
