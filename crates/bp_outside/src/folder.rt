// Where files are written to.
ghost use Rattle.std.specs.Prelude.{◌≡◌, ◌++◌, true};
ghost use Rattle.std.specs.Str.{chars};
ghost use Rattle.bp_outside.specs.Folder.{FolderView, after_create, after_finish, Appends, AppendsAll, PutsFile};

use crate::refusals::FolderRefusal;
use std::alloc::Global;

/// A folder that files are written to, one after the other. It counts its faults. The count stands
/// still at the greatest u64.
pub trait Folder {
    // What is known of it.
    ghost shows: { Self → FolderView };

    /// Begins an empty file at this path, below the folder. It is then under way, and a file that
    /// was under way ends. A refusal leaves the files, and what is under way.
    fn create(&mut self, alloc: Global, path: &str) -> Result<(), FolderRefusal>
        ensures { shows self.new ≡ after_create (shows self.old) (chars path.now) result };

    /// Adds the first bytes of the piece to the file under way, and tells how many: at least one of
    /// a piece that has any. A refusal may have added a prefix of the piece.
    fn append(&mut self, alloc: Global, piece: &[u8]) -> Result<usize, FolderRefusal>
        requires { (shows self.old).under_way ≡ true }
        ensures { Appends (shows self.old) piece.now result (shows self.new) };

    /// Ends the file under way. A refusal leaves the files, and the file under way.
    fn finish(&mut self, alloc: Global) -> Result<(), FolderRefusal>
        requires { (shows self.old).under_way ≡ true }
        ensures { shows self.new ≡ after_finish (shows self.old) result };

    // A folder that is sure never failed.
    ghost unfailing: { (folder : Self) → (shows folder).sure ≡ true → (shows folder).faults ≡ 0 };
}

/// Puts a whole file at this path below the folder. With `Ok` it is there and no file is under way.
/// A refusal leaves nothing of it, or the file with some prefix of the bytes, still under way.
///
///     put_file(alloc, &mut folder, "VOL001/IMAGES/AC0001.tif", bytes.as_slice())?;
pub fn put_file<F: Folder>(
    alloc: Global,
    folder: &mut F,
    path: &str,
    bytes: &[u8],
) -> Result<(), FolderRefusal>
    ensures { PutsFile (F.shows folder.old) (chars path.now) bytes.now result (F.shows folder.new) }
{
    folder.create(alloc, path)?;
    append_all(alloc, folder, bytes)?;
    folder.finish(alloc)
}

/// The same for a file that is given in two parts, the rest behind the first.
pub fn put_parts<F: Folder>(
    alloc: Global,
    folder: &mut F,
    path: &str,
    first: &[u8],
    rest: &[u8],
) -> Result<(), FolderRefusal>
    ensures { let bytes = first.now ++ rest.now in
        PutsFile (F.shows folder.old) (chars path.now) bytes result (F.shows folder.new) }
{
    folder.create(alloc, path)?;
    append_all(alloc, folder, first)?;
    append_all(alloc, folder, rest)?;
    folder.finish(alloc)
}

// Adds all of the piece to the file under way. A refusal leaves some prefix of it added.
fn append_all<F: Folder>(alloc: Global, folder: &mut F, piece: &[u8]) -> Result<(), FolderRefusal>
    requires { (F.shows folder.old).under_way ≡ true }
    ensures { AppendsAll (F.shows folder.old) piece.now result (F.shows folder.new) }
{
    let mut at = 0;
    while at < piece.len() {
        at += folder.append(alloc, &piece[at..])?;
    }
    Ok(())
}
