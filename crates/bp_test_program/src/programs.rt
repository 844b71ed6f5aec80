// The program over a system of the tests' own: its status, the folders that it reads and writes
// below, what it prints, and the three numbers that it holds meanwhile.
use crate::page_file::WHITE;
use crate::stage::Stage;
use bp_cli::program::{hold_descriptors, run_over};
use bp_core::OutOfMemory;
use bp_outside::MemDoor;
use sqlite::{Connection, Error, ErrorCode, MemStore};
use std::alloc::{AllocError, Global};
use std::env::Args;
use std::io;
use std::io::ErrorKind;
use std::process::Abort;
use std::sync::Wait;
use std::test::Fail;
use std::thread::Threads;

type Doors = Result<Vec<MemDoor>, OutOfMemory>;

// The words of a line with one space between them; a line of none has none.
pub fn words_of(alloc: Global, line: &str) -> Result<Vec<String>, AllocError> {
    let mut words = Vec::new(alloc);
    if !line.is_empty() {
        for word in line.split(' ') {
            words.push(String::from_str(alloc, word)?)?;
        }
    }
    Ok(words)
}

const HELD: &str = "read /\nread /\nread /\n";

type Opened = Result<Connection<MemStore>, Error>;

// Runs the program on a stage. Its status, and whether a connection came back.
fn ran<R: Threads + Wait + Sync>(
    rt: &R,
    alloc: Global,
    stage: &Stage,
    opened: Opened,
    doors: Doors,
    answer: io::Result<Args>,
) -> (u8, bool) {
    let _held = hold_descriptors(stage);
    let ended = run_over(stage, rt, alloc, opened, doors, answer);
    (ended.status, ended.connection.is_some())
}

// Runs the program, which is to end with this status, after it opened and printed this.
fn check<R: Abort + Threads + Wait + Sync>(
    rt: &R,
    alloc: Global,
    opened: Opened,
    doors: Doors,
    answer: io::Result<Args>,
    (status, lines): (u8, &str),
    written: &[u8],
) -> Result<(), Fail> {
    let stage = Stage::new(alloc, &WHITE)?;
    let is_opened = opened.is_ok();
    let ended = ran(rt, alloc, &stage, opened, doors, answer);
    assert!(rt; ended == (status, is_opened), "{lines}");
    let told = stage.lines();
    assert!(rt; told.as_str().strip_prefix(HELD) == Some(lines), "{told}");
    assert!(rt; stage.written().as_slice() == written, "{lines}");
    Ok(())
}

const BURNED: &str = "read ./a.tif\nmake out\nempty out/b.tif\nprint beside 3: burned 187\n";

#[test]
fn the_program_carries_out_the_words_after_its_name(rt: HostRuntime) -> Result<(), Fail> {
    let alloc = rt.alloc();
    let mut file = WHITE[..186].to_vec(alloc)?;
    file.push(0xFF)?;
    for (line, ends, written) in [
        (
            "tivrenan burn a.tif 0 0 8 1 b.tif plain",
            (0u8, BURNED),
            file.as_slice(),
        ),
        (
            "burn a.tif 0 0 8 1 b.tif plain",
            (1, "print beside 3: words refused\n"),
            &[],
        ),
        ("tivrenan", (1, "print beside 3: words refused\n"), &[]),
        ("", (1, "print beside 3: words refused\n"), &[]),
        (
            "tivrenan log R-1",
            (2, "print beside 3: refused 43 NoMatter 0 0 0\n"),
            &[],
        ),
    ] {
        let words = words_of(alloc, line)?;
        let doors = Ok(Vec::new(alloc));
        let opened = Ok(Connection::open_in_memory(alloc)?);
        let answer = Ok(words.into_iter());
        check(&rt, alloc, opened, doors, answer, ends, written)?;
    }
    Ok(())
}

#[test]
fn words_that_the_system_does_not_give_are_told_apart(rt: HostRuntime) -> Result<(), Fail> {
    let alloc = rt.alloc();
    for (kind, ends) in [
        (
            ErrorKind::OutOfMemory,
            (6u8, "print beside 3: out of memory\n"),
        ),
        (
            ErrorKind::InvalidData,
            (1, "print beside 3: words refused\n"),
        ),
    ] {
        let doors = Ok(Vec::new(alloc));
        let opened = Ok(Connection::open_in_memory(alloc)?);
        let answer = Err(io::Error::from(kind));
        check(&rt, alloc, opened, doors, answer, ends, &[])?;
    }
    Ok(())
}

#[test]
fn a_database_that_is_not_opened_ends_the_program(rt: HostRuntime) -> Result<(), Fail> {
    let alloc = rt.alloc();
    for (code, ends) in [
        (
            ErrorCode::OutOfMemory,
            (6u8, "print beside 3: out of memory\n"),
        ),
        (ErrorCode::CannotOpen, (5, "print beside 3: keeper fault\n")),
    ] {
        let words = words_of(alloc, "tivrenan log R-1")?;
        let (opened, doors) = (Err(Error::SqliteFailure(code)), Ok(Vec::new(alloc)));
        check(&rt, alloc, opened, doors, Ok(words.into_iter()), ends, &[])?;
    }
    Ok(())
}

#[test]
fn doors_that_memory_lacked_for_end_the_program(rt: HostRuntime) -> Result<(), Fail> {
    let alloc = rt.alloc();
    let words = words_of(alloc, "tivrenan log R-1")?;
    let ends = (6u8, "print beside 3: out of memory\n");
    let (opened, doors) = (Ok(Connection::open_in_memory(alloc)?), Err(OutOfMemory));
    check(&rt, alloc, opened, doors, Ok(words.into_iter()), ends, &[])
}
