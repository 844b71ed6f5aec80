// A system of the tests' own. It keeps a line for each file that is opened, with the path, and for
// what is printed, how many files are open then; and the bytes that were written and printed. Each
// file that is opened holds the same bytes.
ghost use Rattle.std.specs.Prelude.{◌≤◌, length, IfOk};

use std::alloc::{AllocError, Allocator, Global};
use std::cell::Cell;
use std::fmt::Display;
use std::fs::{Metadata, OpenFile, OpenOptions};
use std::io;
use std::io::{ErrorKind, Read, Seek, SeekFrom, Write};
use std::rc::Rc;
use std::rt::Files;

#[derive(Drop)]
pub struct Stage {
    book: Rc<Book>,
}

// What the stage and its open files share.
#[derive(Drop)]
struct Book {
    alloc: Global,
    // What each file holds.
    holds: Vec<u8>,
    lines: Cell<String>,
    written: Cell<Vec<u8>>,
}

impl Stage {
    pub fn new(alloc: Global, holds: &[u8]) -> Result<Stage, AllocError> {
        let book = Book {
            alloc,
            holds: Vec::from_slice(alloc, holds)?,
            lines: Cell::new(String::new(alloc)),
            written: Cell::new(Vec::new(alloc)),
        };
        Ok(Stage {
            book: Rc::new(alloc, book)?,
        })
    }

    // What was opened and printed so far, a line each.
    pub fn lines(&self) -> String {
        self.book.take_lines()
    }

    // The bytes that were written to files so far.
    pub fn written(&self) -> Vec<u8> {
        self.book.take_written()
    }

    fn print_text(&self, bytes: &[u8]) -> io::Result<()> {
        let open = Rc::strong_count(&self.book).saturating_sub(1);
        let text = str::from_utf8(bytes).unwrap_or("no text");
        let line = format!(in self.book.alloc; "print beside {open}: {text}")?;
        self.book.add(line.as_str())?;
        Ok(())
    }
}

impl Book {
    fn take_lines(&self) -> String {
        self.lines.replace(String::new(self.alloc))
    }

    fn take_written(&self) -> Vec<u8> {
        self.written.replace(Vec::new(self.alloc))
    }

    fn add(&self, line: &str) -> Result<(), AllocError> {
        let mut lines = self.take_lines();
        let kept = lines.push_str(line);
        self.lines.set(lines);
        kept
    }

    fn take(&self, piece: &[u8]) -> io::Result<usize>
        ensures { IfOk result (λ count. count ≤ length piece.now) }
    {
        let mut written = self.take_written();
        let kept = written.extend_from_slice(piece);
        self.written.set(written);
        kept?;
        Ok(piece.len())
    }
}

impl Print for Stage {
    fn print<D: Display + Drop>(&self, _value: D) -> io::Result<()> {
        Err(io::Error::from(ErrorKind::Unsupported))
    }

    fn println<D: Display + Drop>(&self, _value: D) -> io::Result<()> {
        Err(io::Error::from(ErrorKind::Unsupported))
    }

    fn write_all(&self, bytes: &[u8]) -> io::Result<()> {
        self.print_text(bytes)
    }

    fn write_some(&self, bytes: &[u8]) -> io::Result<usize> {
        self.print_text(bytes)?;
        Ok(bytes.len())
    }
}

fn letters(how: &OpenOptions) -> &'static str {
    match (how.asks_read(), how.asks_write()) {
        (true, false) => "read",
        (false, true) if how.asks_truncate() => "empty",
        _ => "open otherwise",
    }
}

impl Files for Stage {
    type File = StagedFile;

    type Dir = StagedFile;

    fn open_file(&self, how: &OpenOptions, path: &str) -> io::Result<StagedFile> {
        how.check()?;
        let line = format!(in self.book.alloc; "{} {path}\n", letters(how))?;
        self.book.add(line.as_str())?;
        Ok(StagedFile {
            book: self.book.clone()?,
            at: 0,
        })
    }

    fn open_dir(&self, _path: &str) -> io::Result<StagedFile> {
        Err(io::Error::from(ErrorKind::Unsupported))
    }

    // No folder stands there.
    fn metadata(&self, _path: &str) -> io::Result<Metadata> {
        Ok(Metadata::of_file(0))
    }

    fn symlink_metadata(&self, _path: &str) -> io::Result<Metadata> {
        Ok(Metadata::of_file(0))
    }

    fn copy(&self, _from: &str, _to: &str) -> io::Result<u64> {
        Err(io::Error::from(ErrorKind::Unsupported))
    }

    fn rename(&self, _from: &str, _to: &str) -> io::Result<()> {
        Err(io::Error::from(ErrorKind::Unsupported))
    }

    fn remove_file(&self, _path: &str) -> io::Result<()> {
        Err(io::Error::from(ErrorKind::Unsupported))
    }

    fn create_dir(&self, path: &str) -> io::Result<()> {
        let line = format!(in self.book.alloc; "make {path}\n")?;
        self.book.add(line.as_str())?;
        Ok(())
    }

    fn remove_dir(&self, _path: &str) -> io::Result<()> {
        Err(io::Error::from(ErrorKind::Unsupported))
    }

    fn remove_dir_all<B: Allocator>(&self, _alloc: B, _path: &str) -> io::Result<()> {
        Err(io::Error::from(ErrorKind::Unsupported))
    }
}

// An open file of the stage, and how many bytes of it were read.
#[derive(Drop)]
pub struct StagedFile {
    book: Rc<Book>,
    at: usize,
}

impl Read for StagedFile {
    fn read(&mut self, room: &mut [u8]) -> io::Result<usize> {
        let rest = &self.book.holds[self.at.min(self.book.holds.len())..];
        let count = rest.len().min(room.len());
        room[..count].copy_from_slice(&rest[..count]);
        self.at = self.at.saturating_add(count);
        Ok(count)
    }
}

impl Write for StagedFile {
    fn write(&mut self, piece: &[u8]) -> io::Result<usize> {
        self.book.take(piece)
    }

    fn flush(&mut self) -> io::Result<()> {
        Ok(())
    }
}

impl Seek for StagedFile {
    fn seek(&mut self, _to: SeekFrom) -> io::Result<u64> {
        Err(io::Error::from(ErrorKind::Unsupported))
    }
}

impl OpenFile for StagedFile {
    fn metadata(&self) -> io::Result<Metadata> {
        Ok(Metadata::of_file(self.book.holds.len() as u64))
    }

    fn set_len(&self, _size: u64) -> io::Result<()> {
        Err(io::Error::from(ErrorKind::Unsupported))
    }

    fn sync_all(&self) -> io::Result<()> {
        Ok(())
    }

    fn sync_data(&self) -> io::Result<()> {
        Ok(())
    }
}
