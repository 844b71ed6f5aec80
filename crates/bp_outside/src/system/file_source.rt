// A folder of the file system as a source.
ghost use Rattle.std.specs.Prelude.{◌≡◌, ◌≤◌, ◌+◌, ◌↔◌, false, length, IfOk, IfSome, IsErrOf, IsTrue, None, []};
ghost use Rattle.bp_outside.specs.Reading.{ReadsWhole, TakesAtMost};
ghost use Rattle.bp_outside.specs.SystemFiles.{ReadsOpen, ReadsOpened};
ghost use Rattle.bp_outside.specs.Untold.{untold_source};

use crate::counts::ReadCounts;
use crate::refusals::ReadRefusal;
use crate::source::Source;
use crate::system::answers::{joined, opening_refusal};
use crate::system::opened::OpenedFile;
use std::alloc::Global;
use std::fs::OpenFile;
use std::io::Read;
use std::rt::Files;
use std::{fs, io};

// How many bytes are read at a time.
const CHUNK: usize = 65536;

/// The files below a folder of the file system.
#[derive(Drop)]
pub struct FileSource<'a, R: Files> {
    rt: &'a R,
    folder: &'a str,
    reads: u64,
    counts: ReadCounts,
}

impl<'a, R: Files> FileSource<'a, R> {
    /// The files below this folder: `.` for the current one. Their paths have `/` between folders.
    pub fn below(rt: &'a R, folder: &'a str) -> FileSource<'a, R>
        ensures folder { result.folder.now ≡ folder.now }
        ensures reads { result.reads ≡ 0 }
        ensures shows { untold_source result.counts
            ≡ record { files = None; faults = 0; absences = 0; overlong = 0; sure = false } }
    {
        FileSource {
            rt,
            folder,
            reads: 0,
            counts: ReadCounts::ZERO,
        }
    }
}

impl<'a, R: Files> Source for FileSource<'a, R> {
    ghost use Rattle.std.proofs.lemmas.Bool.{false≢true};

    ghost shows = { λ source. untold_source source.counts };

    ghost reads = { λ source. source.reads };

    ghost unfailing = { λ source sure. absurd (false≢true sure) };

    fn read(&mut self, alloc: Global, path: &str, max: u64) -> Result<Vec<u8>, ReadRefusal> {
        self.reads = self.reads.saturating_add(1);
        let below = joined(alloc, self.folder, path)?;
        let mut opened = open(self.rt, below.as_str());
        match read_opened(&mut opened, alloc, max) {
            Ok(bytes) => Ok(bytes),
            Err(refusal) => Err(self.counts.refuse(refusal)),
        }
    }
}

fn open<R: Files>(rt: &R, path: &str) -> io::Result<OpenedFile<R::File>>
    ensures { IfOk result (λ opened. opened.failed ≡ false) }
{
    Ok(OpenedFile::over(fs::open(rt, path)?))
}

// The bytes of a file, by the system's answer to opening it.
fn read_opened<F: Read + OpenFile>(
    opened: &mut io::Result<OpenedFile<F>>,
    alloc: Global,
    max: u64,
) -> Result<Vec<u8>, ReadRefusal>
    requires { IfOk opened.old (λ file. file.failed ≡ false) }
    ensures limit { IfOk result (λ bytes. length bytes.items ≤ max) }
    ensures reads { ReadsOpened F.remaining max opened.old opened.new result }
{
    match opened {
        Ok(file) => read_open(file, alloc, max),
        Err(error) => Err(opening_refusal(error.kind())),
    }
}

// The file's length only says how much room to take first: what is read decides.
fn read_open<F: Read + OpenFile>(
    file: &mut OpenedFile<F>,
    alloc: Global,
    max: u64,
) -> Result<Vec<u8>, ReadRefusal>
    requires { file.old.failed ≡ false }
    ensures limit { IfOk result (λ bytes. length bytes.items ≤ max) }
    ensures reads { ReadsOpen F.remaining max file.old file.new result }
{
    let Some(length) = file.length() else {
        return Err(ReadRefusal::Failed);
    };
    let room = length.min(max) as usize;
    let empty = Vec::with_capacity(alloc, room)?;
    read_all(file, empty, max)
}

// Reads to the end, and no more than one byte past the limit. Each turn takes at least one byte.
fn read_all<F: Read + OpenFile>(
    file: &mut OpenedFile<F>,
    empty: Vec<u8>,
    max: u64,
) -> Result<Vec<u8>, ReadRefusal>
    requires empty { empty.items ≡ [] }
    requires unfailed { file.old.failed ≡ false }
    ensures limit { IfOk result (λ bytes. length bytes.items ≤ max) }
    ensures whole { IfSome (F.remaining file.old.file) (ReadsWhole max result) }
    ensures taken { TakesAtMost (max + 1) (F.remaining file.old.file) (F.remaining file.new.file) }
    ensures failed { IsErrOf result ReadRefusal.Failed ↔ IsTrue file.new.failed }
    ensures present { ¬ (IsErrOf result ReadRefusal.Absent) }
{
    let mut bytes = empty;
    let mut chunk = [0u8; CHUNK];
    let mut left = max;
    loop {
        let room = left.saturating_add(1).min(CHUNK as u64) as usize;
        let Ok(taken) = file.read(&mut chunk[..room]) else {
            return Err(ReadRefusal::Failed);
        };
        if taken == 0 {
            return Ok(bytes);
        }
        if taken as u64 > left {
            return Err(ReadRefusal::TooLong);
        }
        bytes.extend_from_slice(&chunk[..taken])?;
        left -= taken as u64;
    }
}
