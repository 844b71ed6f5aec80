// A runtime of the tests' own. It keeps a line for each call that it gets, and the bytes that were
// written, and fails at one call. Each file that is opened holds the same bytes, and each peer that
// comes sends them.
ghost use Rattle.std.specs.Prelude.{◌≤◌, length, IfOk};

mod net;

use std::alloc::{AllocError, Allocator, Global};
use std::cell::Cell;
use std::fmt::Display;
use std::fs::{Metadata, OpenFile, OpenOptions};
use std::io;
use std::io::{ErrorKind, Read, Seek, SeekFrom, Write};
use std::rc::Rc;
use std::rt::Files;

// No call fails.
pub const NONE: u64 = u64::MAX;

// Errors of the system, by their numbers on Linux.
pub const NO_SUCH_FILE: i32 = 2;

pub const INTERRUPTED: i32 = 4;

pub const WOULD_WAIT: i32 = 11;

pub const NO_MEMORY: i32 = 12;

pub const NO_PERMISSION: i32 = 13;

pub const NOT_A_FOLDER: i32 = 20;

pub const A_FOLDER: i32 = 21;

pub const INVALID: i32 = 22;

pub const NO_SPACE: i32 = 28;

pub const CLOSED_PIPE: i32 = 32;

pub const NAME_TOO_LONG: i32 = 36;

pub const LINK_LOOP: i32 = 40;

#[derive(Drop)]
pub struct Stage {
    book: Rc<Book>,
}

// What the stage and its open files share.
#[derive(Drop)]
struct Book {
    alloc: Global,
    // The number, from 0, of the call that fails, and the number of its error.
    failing: u64,
    error: i32,
    // What each file holds, and how many bytes of a file or a piece one call moves at most.
    holds: Vec<u8>,
    step: usize,
    calls: Cell<u64>,
    // How many milliseconds the clock goes on at each reading, and what it reads next.
    tick: u64,
    clock: Cell<u64>,
    lines: Cell<String>,
    written: Cell<Vec<u8>>,
}

impl Stage {
    pub fn new(
        alloc: Global,
        failing: u64,
        error: i32,
        holds: &[u8],
        step: usize,
    ) -> Result<Stage, AllocError> {
        Stage::ticking(alloc, failing, error, holds, step, 0)
    }

    // One whose clock goes on by so many milliseconds at each reading.
    pub fn ticking(
        alloc: Global,
        failing: u64,
        error: i32,
        holds: &[u8],
        step: usize,
        tick: u64,
    ) -> Result<Stage, AllocError> {
        let book = Book {
            alloc,
            failing,
            error,
            holds: Vec::from_slice(alloc, holds)?,
            step,
            calls: Cell::new(0),
            tick,
            clock: Cell::new(0),
            lines: Cell::new(String::new(alloc)),
            written: Cell::new(Vec::new(alloc)),
        };
        Ok(Stage {
            book: Rc::new(alloc, book)?,
        })
    }

    // Whether these parts, one after the other, are the calls so far, a line each. It forgets them:
    // the calls after it are told by themselves. A test that were handed the lines would own them.
    pub fn says(&self, parts: &[&str]) -> bool {
        let lines = self.book.take_lines();
        are_joined(lines.as_str().as_bytes(), parts)
    }

    // How often a line stands among the calls so far, which it keeps.
    pub fn count(&self, line: &str) -> usize {
        let lines = self.book.take_lines();
        let count = times(lines.as_str(), line);
        self.book.lines.set(lines);
        count
    }

    // Whether these are the bytes written so far. It forgets them.
    pub fn wrote(&self, bytes: &[u8]) -> bool {
        let written = self.book.take_written();
        written.as_slice() == bytes
    }
}

// Whether the parts, one after the other, are the text.
fn are_joined(text: &[u8], parts: &[&str]) -> bool {
    let mut rest = text;
    for part in parts {
        if !rest.starts_with(part.as_bytes()) {
            return false;
        }
        rest = &rest[part.len()..];
    }
    rest.is_empty()
}

fn times(lines: &str, line: &str) -> usize {
    lines.lines().filter(|one| *one == line).count()
}

impl Book {
    fn take_lines(&self) -> String {
        self.lines.replace(String::new(self.alloc))
    }

    fn take_written(&self) -> Vec<u8> {
        self.written.replace(Vec::new(self.alloc))
    }

    fn call(&self, line: &str) -> io::Result<()> {
        let number = self.calls.get();
        self.calls.set(number.saturating_add(1));
        let mut lines = self.take_lines();
        let kept = add_line(&mut lines, line);
        self.lines.set(lines);
        kept?;
        if number == self.failing {
            return Err(io::Error::from_raw_os_error(self.error));
        }
        Ok(())
    }

    fn call_at<D: Display + Copy>(&self, what: &str, place: D) -> io::Result<()> {
        let line = format!(in self.alloc; "{what} {place}")?;
        self.call(line.as_str())
    }

    // Takes the first bytes of the piece.
    fn take(&self, line: &str, piece: &[u8]) -> io::Result<usize>
        ensures { IfOk result (λ count. count ≤ length piece.now) }
    {
        self.call(line)?;
        let count = piece.len().min(self.step);
        let mut written = self.take_written();
        let kept = written.extend_from_slice(&piece[..count]);
        self.written.set(written);
        kept?;
        Ok(count)
    }
}

fn add_line(lines: &mut String, line: &str) -> Result<(), AllocError> {
    lines.push_str(line)?;
    lines.push_str("\n")
}

impl Print for Stage {
    fn print<D: Display + Drop>(&self, _value: D) -> io::Result<()> {
        self.book.call("print a value")
    }

    fn println<D: Display + Drop>(&self, _value: D) -> io::Result<()> {
        self.book.call("print a line")
    }

    fn write_all(&self, bytes: &[u8]) -> io::Result<()> {
        self.book.take("print all", bytes)?;
        Ok(())
    }

    fn write_some(&self, bytes: &[u8]) -> io::Result<usize> {
        self.book.take("print", bytes)
    }
}

fn letters(how: &OpenOptions) -> &'static str {
    match (how.asks_read(), how.asks_write(), how.asks_append()) {
        (true, false, false) => "read",
        (false, true, false) if how.asks_create_new() => "make",
        (false, true, false) if how.asks_create() && how.asks_truncate() => "empty",
        _ => "open otherwise",
    }
}

impl Files for Stage {
    type File = StagedFile;

    type Dir = StagedFile;

    fn open_file(&self, how: &OpenOptions, path: &str) -> io::Result<StagedFile> {
        how.check()?;
        self.book.call_at(letters(how), path)?;
        Ok(StagedFile {
            book: self.book.clone()?,
            at: 0,
        })
    }

    fn open_dir(&self, path: &str) -> io::Result<StagedFile> {
        self.book.call_at("open_dir", path)?;
        Err(io::Error::from(ErrorKind::Unsupported))
    }

    // No folder stands there.
    fn metadata(&self, path: &str) -> io::Result<Metadata> {
        self.book.call_at("metadata", path)?;
        Ok(Metadata::of_file(0))
    }

    fn symlink_metadata(&self, path: &str) -> io::Result<Metadata> {
        self.book.call_at("symlink_metadata", path)?;
        Ok(Metadata::of_file(0))
    }

    fn copy(&self, from: &str, _to: &str) -> io::Result<u64> {
        self.book.call_at("copy", from)?;
        Ok(0)
    }

    fn rename(&self, from: &str, _to: &str) -> io::Result<()> {
        self.book.call_at("rename", from)
    }

    fn remove_file(&self, path: &str) -> io::Result<()> {
        self.book.call_at("remove_file", path)
    }

    fn create_dir(&self, path: &str) -> io::Result<()> {
        self.book.call_at("create_dir", path)
    }

    fn remove_dir(&self, path: &str) -> io::Result<()> {
        self.book.call_at("remove_dir", path)
    }

    fn remove_dir_all<B: Allocator>(&self, _alloc: B, path: &str) -> io::Result<()> {
        self.book.call_at("remove_dir_all", path)
    }
}

// An open file of the stage, and how many bytes of it were read.
#[derive(Drop)]
pub struct StagedFile {
    book: Rc<Book>,
    at: usize,
}

impl Read for StagedFile {
    fn read(&mut self, room: &mut [u8]) -> io::Result<usize> {
        self.book.call("read")?;
        let rest = &self.book.holds[self.at.min(self.book.holds.len())..];
        let count = rest.len().min(room.len()).min(self.book.step);
        room[..count].copy_from_slice(&rest[..count]);
        self.at = self.at.saturating_add(count);
        Ok(count)
    }
}

impl Write for StagedFile {
    fn write(&mut self, piece: &[u8]) -> io::Result<usize> {
        self.book.take("write", piece)
    }

    fn flush(&mut self) -> io::Result<()> {
        self.book.call("flush")
    }
}

impl Seek for StagedFile {
    fn seek(&mut self, _to: SeekFrom) -> io::Result<u64> {
        self.book.call("seek")?;
        Ok(0)
    }
}

impl OpenFile for StagedFile {
    fn metadata(&self) -> io::Result<Metadata> {
        self.book.call("length")?;
        Ok(Metadata::of_file(self.book.holds.len() as u64))
    }

    fn set_len(&self, _size: u64) -> io::Result<()> {
        self.book.call("set_len")
    }

    fn sync_all(&self) -> io::Result<()> {
        self.book.call("sync_all")
    }

    fn sync_data(&self) -> io::Result<()> {
        self.book.call("sync_data")
    }
}
