// A folder of the file system as a folder to write to.
ghost use Rattle.std.specs.Prelude.{◌≡◌, false, true, None, Some, Ok, Err, IsErrOf, IfErr, IfOk, OnErr, is_some};
ghost use Rattle.bp_outside.specs.Folder.{Appends, after_finish};
ghost use Rattle.bp_outside.specs.Streams.{AppendsTo};
ghost use Rattle.bp_outside.specs.SystemAnswers.{after_answer};
ghost use Rattle.bp_outside.specs.SystemFiles.{BeginsEmpty};
ghost use Rattle.bp_outside.specs.Untold.{untold_folder};

use crate::folder::Folder;
use crate::refusals::FolderRefusal;
use crate::system::answers::{joined, write_answer};
use std::alloc::Global;
use std::fs::OpenOptions;
use std::io::Write;
use std::rt::Files;
use std::{fs, io};

/// A folder of the file system that files are written below.
#[derive(Drop)]
pub struct FileFolder<'a, R: Files> {
    rt: &'a R,
    folder: &'a str,
    file: Option<R::File>,
    faults: u64,
}

impl<'a, R: Files> FileFolder<'a, R> {
    /// This folder: `.` for the current one. Paths below it have `/` between folders.
    pub fn below(rt: &'a R, folder: &'a str) -> FileFolder<'a, R>
        ensures folder { result.folder.now ≡ folder.now }
        ensures shows { untold_folder (is_some result.file) result.faults
            ≡ record { files = None; under_way = false; faults = 0; sure = false } }
    {
        FileFolder {
            rt,
            folder,
            file: None,
            faults: 0,
        }
    }

    // Takes the system's answer to opening a file as the file under way, which ends the one before.
    // An error leaves that one, and is counted.
    fn begin(&mut self, opened: io::Result<R::File>) -> Result<(), FolderRefusal>
        ensures begun { IfOk opened (λ file. self.new.file ≡ Some file) }
        ensures ok { IfOk opened (λ _. result ≡ Ok tt) }
        ensures kept { OnErr opened (self.new.file ≡ self.old.file) }
        ensures failed { OnErr opened (result ≡ Err FolderRefusal.Failed) }
        ensures counted { self.new.faults ≡ after_answer opened self.old.faults }
    {
        match opened {
            Ok(file) => {
                self.file = Some(file);
                Ok(())
            }
            Err(_) => {
                self.faults = self.faults.saturating_add(1);
                Err(FolderRefusal::Failed)
            }
        }
    }
}

impl<'a, R: Files> Folder for FileFolder<'a, R> {
    ghost use Rattle.std.proofs.lemmas.Bool.{false≢true};

    ghost shows = { λ folder. untold_folder (is_some folder.file) folder.faults };

    ghost unfailing = { λ folder sure. absurd (false≢true sure) };

    /// Makes the folders that the path needs, and empties a file that stands there.
    fn create(&mut self, alloc: Global, path: &str) -> Result<(), FolderRefusal> {
        let below = joined(alloc, self.folder, path)?;
        let opened = open_empty(self.rt, below.as_str());
        self.begin(opened)
    }

    /// Takes no memory, so it never runs out of it.
    fn append(&mut self, _alloc: Global, piece: &[u8]) -> Result<usize, FolderRefusal>
        requires { (untold_folder (is_some self.old.file) self.old.faults).under_way ≡ true }
        ensures appends { Appends (untold_folder (is_some self.old.file) self.old.faults)
            piece.now result (untold_folder (is_some self.new.file) self.new.faults) }
        ensures bytes { AppendsTo R.File.contents self.old.file self.new.file result piece.now }
        ensures no_memory { ¬ (IsErrOf result FolderRefusal.OutOfMemory) }
    {
        let answer = match &mut self.file {
            Some(file) => file.write(piece),
            None => unreachable!(),
        };
        write_answer(answer, piece.len(), FolderRefusal::Failed, &mut self.faults)
    }

    /// Closes the file, and can't fail.
    fn finish(&mut self, _alloc: Global) -> Result<(), FolderRefusal>
        requires { (untold_folder (is_some self.old.file) self.old.faults).under_way ≡ true }
        ensures after { untold_folder (is_some self.new.file) self.new.faults
            ≡ after_finish (untold_folder (is_some self.old.file) self.old.faults) result }
        ensures ok { result ≡ Ok tt }
    {
        self.file = None;
        Ok(())
    }
}

// Opens an empty file at this path, in folders that it makes where they are missing.
fn open_empty<R: Files>(rt: &R, path: &str) -> io::Result<R::File> {
    if let Some((folder, _)) = path.rsplit_once('/') {
        fs::create_dir_all(rt, folder)?;
    }
    empty_file().open(rt, path)
}

// How a file is opened that is to begin empty, also where one stands.
fn empty_file() -> OpenOptions
    ensures { BeginsEmpty result }
{
    let mut options = OpenOptions::new();
    options.write(true).create(true).truncate(true);
    options
}
