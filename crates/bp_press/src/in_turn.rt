// The files of a volume, one after another.
ghost use Rattle.std.specs.Prelude.{◌≡◌, ◌<◌, ◌^◌, ◌++◌, All, IfOk, IfSome, OnErr, OnOk, length, slice_index_or};
ghost use Rattle.bp_outside.specs.Folder.{file};
ghost use Rattle.bp_press.specs.Batches.{IsDigested, file_made_by, made_of};
ghost use Rattle.bp_press.specs.InTurn.{TakesMade};
ghost use Rattle.bp_press.specs.Manifest.{manifest_line};
ghost use Rattle.bp_press.specs.Needs.{CanBePressed};
ghost use Rattle.bp_press.specs.Paths.{manifest_path};
ghost use Rattle.bp_press.specs.Shown.{matter_behind, production_shown};
ghost use Rattle.bp_press.specs.Volume.{volume_of};
ghost use Rattle.bp_press.specs.VolumeFiles.{EntryCanBeMade, file_of_entry};
ghost use Rattle.bp_press.specs.declared.volume_files.VolumeFile.{VolumeFile as Entry};

use crate::batches::MadeFile;
use crate::covered::Covered;
use crate::file_rows::{digested, file_made};
use crate::manifest::add_line;
use crate::names::manifest_path;
use crate::shown::Shows;
use crate::volume_files::{VolumeFile, list_files};
use bp_core::{Bytes, OutOfMemory};
use std::alloc::Global;
use std::marker::Model;

/// The files of a volume in its order, each made as it is asked for, without threads: first those that
/// are listed, and then the manifest over them. Of the matter they see what the volume shows.
#[derive(Drop)]
pub struct FilesInTurn<'w> {
    shown: &'w Covered<'w>,
    list: Vec<VolumeFile<'w>>,
    next: usize,
    manifest: Vec<u8>,
    ended: bool,
}

// Clauses see the files that are still to be given.
impl<'w> Model for FilesInTurn<'w> {
    ghost use Rattle.std.specs.Prelude.{All, List};
    ghost use Rattle.bp_outside.specs.declared.files.FileRow.{FileRow as Row};
    ghost use Rattle.bp_press.specs.InTurn.{files_left};
    ghost use Rattle.bp_press.specs.Shown.{matter_behind, production_shown};
    ghost use Rattle.bp_press.specs.VolumeFiles.{EntryCanBeMade};

    ghost Value = { List Row };

    ghost view = { λ r. files_left (production_shown r.shown.now) (matter_behind r.shown.now)
        r.list.items r.next r.manifest.items r.ended };

    ghost invariant = { λ r.
        All (EntryCanBeMade (production_shown r.shown.now) (matter_behind r.shown.now))
        r.list.items };
}

impl<'w> FilesInTurn<'w> {
    /// All files of the volume of the production that is shown, whether tables keep it or not.
    pub fn over(alloc: Global, shown: &'w Covered<'w>) -> Result<FilesInTurn<'w>, OutOfMemory>
        requires { CanBePressed (production_shown shown.now) (matter_behind shown.now) }
        ensures files { IfOk result (λ files.
            files ≡ volume_of (production_shown shown.now) (matter_behind shown.now)) }
        ensures some { IfOk result (λ files. 0 < length files) }
        ensures few { IfOk result (λ files. length files < 2 ^ 32) }
    {
        let list = list_files(alloc, shown, shown.production())?;
        Ok(FilesInTurn {
            shown,
            list,
            next: 0,
            manifest: Vec::new(alloc),
            ended: false,
        })
    }

    /// The next file, with its digest, if there is one. Where memory ran out the same file is still the
    /// next one, and can be asked for once more.
    pub fn next(&mut self, alloc: Global) -> Result<Option<MadeFile>, OutOfMemory>
        ensures taken { IfOk result (λ made. TakesMade self.old made self.new) }
        ensures digest { IfOk result (λ made. IfSome made IsDigested) }

        // Memory can run out only while there is one.
        ensures some { OnErr result (0 < length self.old) }

        // It leaves the files that are still to be given.
        ensures stays { OnErr result (self.new ≡ self.old) }
    {
        if self.ended {
            return Ok(None);
        }
        if self.next < self.list.len() {
            let list = self.list.as_slice();
            let made = listed_file(alloc, self.shown, list, self.next, &mut self.manifest)?;
            self.next += 1;
            return Ok(Some(made));
        }
        let made = manifest_file(alloc, self.shown, self.manifest.as_slice())?;
        self.ended = true;
        Ok(Some(made))
    }
}

// The file at a place of the list, with its line added to the manifest, whole or not at all.
fn listed_file(
    alloc: Global,
    shown: &Covered<'_>,
    list: &[VolumeFile],
    place: usize,
    manifest: &mut Vec<u8>,
) -> Result<MadeFile, OutOfMemory>
    requires place { place < length list.now }
    requires made { All (EntryCanBeMade (production_shown shown.now) (matter_behind shown.now))
        list.now }
    ensures made { (d : Entry) → IfOk result (λ made. made
        ≡ file_made_by (production_shown shown.now) (matter_behind shown.now) (slice_index_or list.now place d)) }
    ensures line { (d : Entry) → OnOk result (manifest.new.items ≡ manifest.old.items
        ++ manifest_line (file_of_entry (production_shown shown.now) (matter_behind shown.now)
        (slice_index_or list.now place d))) }
    ensures stays { OnErr result (manifest.new.items ≡ manifest.old.items) }
{
    let made = file_made(alloc, shown, shown.production(), &list[place])?;
    let mut line = Vec::new(alloc);
    add_line(&mut line, &made.row.path, made.digest)?;
    manifest.extend_from_slice(&line)?;
    Ok(made)
}

// The manifest of these lines.
fn manifest_file(alloc: Global, shown: &Covered<'_>, lines: &[u8]) -> Result<MadeFile, OutOfMemory>
    ensures { IfOk result (λ made. made ≡ made_of
        (file (manifest_path (production_shown shown.now).request) lines.now)) }
{
    let path = manifest_path(alloc, &shown.production().request)?;
    Ok(digested(path, Bytes::from_vec(Vec::from_slice(alloc, lines)?)))
}
