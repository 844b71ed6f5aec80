// Files added to a folder, each with its line of the manifest.
ghost use Rattle.std.specs.Prelude.{◌∷◌, []};
ghost use Rattle.bp_press.specs.Batches.{IsDigested};
ghost use Rattle.bp_press.specs.Writing.{AddsListed};

use crate::batches::MadeFile;
use crate::manifest::add_line;
use bp_outside::{Folder, FolderRefusal, put_file};
use std::alloc::Global;

// Adds a file, and its line to the manifest.
pub(crate) fn add_file<F: Folder>(
    alloc: Global,
    file: &MadeFile,
    folder: &mut F,
    manifest: &mut Vec<u8>,
) -> Result<(), FolderRefusal>
    requires { IsDigested file.now }
    ensures { AddsListed (file.now.row ∷ []) (F.shows folder.old) manifest.old.items result
        (F.shows folder.new) manifest.new.items }
{
    add_line(manifest, &file.row.path, file.digest)?;
    put_file(
        alloc,
        folder,
        file.row.path.as_str(),
        file.row.bytes.as_slice(),
    )
}
