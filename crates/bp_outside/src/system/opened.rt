// A file of the system that is open to be read.
ghost use Rattle.std.specs.Prelude.{◌≡◌, ◌↔◌, false, IsNone, IsErr, IsTrue};
ghost use Rattle.std.specs.Io.{ReadsAtMost};
ghost use Rattle.std.specs.Io.KnownBytes.{ReadConsumes};

use std::fs::OpenFile;
use std::io;
use std::io::Read;

// An open file that keeps whether a call on it failed. Nothing else sets that.
#[derive(Drop)]
pub struct OpenedFile<F> {
    file: F,
    failed: bool,
}

impl<F: Read + OpenFile> OpenedFile<F> {
    // This file, on which no call failed yet.
    pub fn over(file: F) -> OpenedFile<F>
        ensures file { result.file ≡ file }
        ensures failed { result.failed ≡ false }
    {
        OpenedFile {
            file,
            failed: false,
        }
    }

    // Its length in bytes, as the system tells it.
    pub fn length(&mut self) -> Option<u64>
        requires { self.old.failed ≡ false }
        ensures file { self.new.file ≡ self.old.file }
        ensures failed { IsNone result ↔ IsTrue self.new.failed }
    {
        match self.file.metadata() {
            Ok(about) => Some(about.len()),
            Err(_) => {
                self.failed = true;
                None
            }
        }
    }

    // Reads its next bytes to the front of the room, and tells how many.
    pub fn read(&mut self, room: &mut [u8]) -> io::Result<usize>
        requires { self.old.failed ≡ false }
        ensures bound { ReadsAtMost result room.new }
        ensures bytes { ReadConsumes (F.remaining self.old.file) (F.remaining self.new.file) result
            room.new }
        ensures failed { IsErr result ↔ IsTrue self.new.failed }
    {
        let answer = self.file.read(room);
        self.failed = answer.is_err();
        answer
    }
}
