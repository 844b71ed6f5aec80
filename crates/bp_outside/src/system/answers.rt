// What the system's answers say to a source, a folder and an out. Each is a function of the answer.
ghost use Rattle.std.specs.Prelude.{◌≡◌, ◌++◌, ◌∷◌, IfOk, string_bytes};
ghost use Rattle.std.specs.Path.{slash};
ghost use Rattle.bp_outside.specs.SystemAnswers.{after_answer, opening_refusal, read_answer, write_answer};

use crate::refusals::{DoorRefusal, ReadRefusal};
use std::alloc::{AllocError, Global};
use std::io;
use std::io::ErrorKind;

// How many bytes of a piece of `length` bytes a write took. Where it was an error, or took nothing
// of a piece that has any, it is `failed`, and the faults rise.
pub fn write_answer<E: Copy>(
    answer: io::Result<usize>,
    length: usize,
    failed: E,
    faults: &mut u64,
) -> Result<usize, E>
    ensures answer { result ≡ write_answer failed length answer }
    ensures counted { faults.new ≡ after_answer result faults.old }
{
    match answer {
        Ok(count) if count > 0 || length == 0 => Ok(count),
        _ => {
            *faults = faults.saturating_add(1);
            Err(failed)
        }
    }
}

// How many bytes a read at a door gave. An error is a failure, and the faults rise.
pub fn read_answer(answer: io::Result<usize>, faults: &mut u64) -> Result<usize, DoorRefusal>
    ensures answer { result ≡ read_answer answer }
    ensures counted { faults.new ≡ after_answer result faults.old }
{
    match answer {
        Ok(count) => Ok(count),
        Err(_) => {
            *faults = faults.saturating_add(1);
            Err(DoorRefusal::Failed)
        }
    }
}

// Why a file couldn't be opened to be read, by the kind of the system's error. A path below a plain
// file, as `a.tif/b`, is no file; nor is one with a NUL, or with a name that is too long for a file.
pub fn opening_refusal(kind: ErrorKind) -> ReadRefusal
    ensures { result ≡ opening_refusal kind }
{
    match kind {
        ErrorKind::NotFound | ErrorKind::NotADirectory => ReadRefusal::Absent,
        ErrorKind::InvalidFilename | ErrorKind::InvalidInput => ReadRefusal::Absent,
        _ => ReadRefusal::Failed,
    }
}

// The folder, a `/`, and the path as it is.
pub fn joined(alloc: Global, folder: &str, path: &str) -> Result<String, AllocError>
    ensures { IfOk result (λ both. string_bytes both ≡ folder.now ++ slash ∷ path.now) }
{
    format!(in alloc; "{folder}/{path}")
}
