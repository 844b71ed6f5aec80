// The adapters over a runtime of the tests' own: what they ask of the system, call by call, and
// what they make of its answers. A test owns its stage, and a helper, which only borrows it, has
// the assertions: at each of its ends nothing is let go.
use crate::lists::counted;
use crate::looks::{holds, same, same_at};
use crate::stage::{
    A_FOLDER, CLOSED_PIPE, INTERRUPTED, INVALID, LINK_LOOP, NAME_TOO_LONG, NO_MEMORY,
    NO_PERMISSION, NO_SPACE, NO_SUCH_FILE, NONE, NOT_A_FOLDER, Stage,
};
use bp_outside::{
    FileFolder, FileSource, FolderRefusal, OutRefusal, ReadRefusal, Source, StdOut, put_file,
    write_all,
};
use std::alloc::{AllocError, Global};
use std::process::Abort;
use std::test::Fail;

// Whether a source over the stage reads these bytes.
fn reads(
    alloc: Global,
    stage: &Stage,
    path: &str,
    max: u64,
    bytes: &[u8],
) -> Result<bool, ReadRefusal> {
    let mut source = FileSource::below(stage, "in");
    let read = source.read(alloc, path, max)?;
    Ok(read.as_slice() == bytes)
}

// Puts a file by a folder over the stage.
fn puts(alloc: Global, stage: &Stage, path: &str, bytes: &[u8]) -> Result<(), FolderRefusal> {
    let mut folder = FileFolder::below(stage, "out");
    put_file(alloc, &mut folder, path, bytes)
}

// Writes a piece by an out over the stage.
fn writes(alloc: Global, stage: &Stage, piece: &[u8]) -> Result<(), OutRefusal> {
    let mut out = StdOut::of(stage);
    write_all(alloc, &mut out, piece)
}

// The stage got these calls and these bytes, and nothing else.
fn look(rt: &impl Abort, stage: &Stage, lines: &str, written: &[u8]) {
    holds(rt, stage.says(&[lines]));
    holds(rt, stage.wrote(written));
}

// The calls are the opening (0), the length (1) and the reads of 2 bytes, of 1 and of none (2 to
// 4).
const REFUSED_READS: [(u64, i32, ReadRefusal); 12] = [
    (0, NO_SUCH_FILE, ReadRefusal::Absent),
    (0, NOT_A_FOLDER, ReadRefusal::Absent),
    (0, NO_PERMISSION, ReadRefusal::Failed),
    (0, A_FOLDER, ReadRefusal::Failed),
    (0, LINK_LOOP, ReadRefusal::Failed),
    (0, NAME_TOO_LONG, ReadRefusal::Absent),
    (0, INVALID, ReadRefusal::Absent),
    (0, NO_MEMORY, ReadRefusal::Failed),
    (1, NO_SUCH_FILE, ReadRefusal::Failed),
    (2, NO_SUCH_FILE, ReadRefusal::Failed),
    (3, NO_MEMORY, ReadRefusal::Failed),
    (4, INTERRUPTED, ReadRefusal::Failed),
];

// What a source answers where that call fails with that error.
fn read_at(alloc: Global, failing: u64, error: i32) -> Result<Option<ReadRefusal>, AllocError> {
    let stage = Stage::new(alloc, failing, error, b"123", 2)?;
    Ok(reads(alloc, &stage, "a.tif", 3, b"123").err())
}

#[test]
fn a_source_tells_absent_from_failed(rt: HostRuntime) -> Result<(), Fail> {
    for (failing, error, refusal) in REFUSED_READS {
        let answer = read_at(rt.alloc(), failing, error)?;
        same_at(&rt, answer, Some(refusal), failing, error);
    }
    Ok(())
}

const READS: [(&str, u64, &str); 4] = [
    ("a.tif", 3, "read in/a.tif\nlength\nread\nread\nread\n"),
    (
        "/etc/b",
        u64::MAX,
        "read in//etc/b\nlength\nread\nread\nread\n",
    ),
    ("a.tif", 2, "read in/a.tif\nlength\nread\nread\n"),
    ("a.tif", 0, "read in/a.tif\nlength\nread\n"),
];

fn read_and_look(
    rt: &impl Abort,
    alloc: Global,
    stage: &Stage,
    (path, max, lines): (&str, u64, &str),
    bytes: &[u8],
) {
    let too_long = Err(ReadRefusal::TooLong);
    let is_long = max < bytes.len() as u64;
    let wanted = if is_long { too_long } else { Ok(true) };
    same(rt, reads(alloc, stage, path, max, bytes), wanted);
    look(rt, stage, lines, b"");
}

// A source asks for that path below its folder, and for nothing else.
#[test]
fn a_source_reads_that_file_alone(rt: HostRuntime) -> Result<(), Fail> {
    let alloc = rt.alloc();
    for case in READS {
        let stage = Stage::new(alloc, NONE, NO_SPACE, b"123", 2)?;
        read_and_look(&rt, alloc, &stage, case, b"123");
    }
    Ok(())
}

// The calls are the folder (0), the opening (1) and the writes of 2 bytes and of 1 (2 and 3).
const REFUSED_PUTS: [(u64, i32, usize, &str); 5] = [
    (0, NO_SPACE, 2, "create_dir out\nmetadata out\n"),
    (1, NO_MEMORY, 2, "create_dir out\nempty out/a.tif\n"),
    (2, NO_SPACE, 2, "create_dir out\nempty out/a.tif\nwrite\n"),
    (
        3,
        NO_MEMORY,
        2,
        "create_dir out\nempty out/a.tif\nwrite\nwrite\n",
    ),
    (
        NONE,
        NO_SPACE,
        0,
        "create_dir out\nempty out/a.tif\nwrite\n",
    ),
];

#[test]
fn a_folder_fails_where_the_system_does(rt: HostRuntime) -> Result<(), Fail> {
    let alloc = rt.alloc();
    for (failing, error, step, lines) in REFUSED_PUTS {
        let stage = Stage::new(alloc, failing, error, &[], step)?;
        let answer = puts(alloc, &stage, "a.tif", b"123");
        same_at(&rt, answer, Err(FolderRefusal::Failed), failing, error);
        holds(&rt, stage.says(&[lines]));
    }
    Ok(())
}

const PUTS: [(&str, &str); 3] = [
    ("a.tif", "create_dir out\nempty out/a.tif\nwrite\nwrite\n"),
    (
        "v/a.tif",
        "create_dir out/v\nempty out/v/a.tif\nwrite\nwrite\n",
    ),
    (
        "/etc/a.tif",
        "create_dir out//etc\nempty out//etc/a.tif\nwrite\nwrite\n",
    ),
];

fn put_and_look(
    rt: &impl Abort,
    alloc: Global,
    stage: &Stage,
    (path, lines): (&str, &str),
    bytes: &[u8],
) {
    same(rt, puts(alloc, stage, path, bytes), Ok(()));
    look(rt, stage, lines, bytes);
}

// A file is put at that path below the folder, and nowhere else.
#[test]
fn a_folder_writes_that_file_alone(rt: HostRuntime) -> Result<(), Fail> {
    let alloc = rt.alloc();
    for case in PUTS {
        let stage = Stage::new(alloc, NONE, NO_SPACE, &[], 2)?;
        put_and_look(&rt, alloc, &stage, case, b"123");
    }
    Ok(())
}

// The calls are the writes of 2 bytes, 2 bytes and 1. An out that takes nothing fails.
const WRITES: [(u64, i32, usize, &str, &[u8], Result<(), OutRefusal>); 5] = [
    (0, CLOSED_PIPE, 2, "print\n", b"", Err(OutRefusal::Failed)),
    (
        1,
        NO_MEMORY,
        2,
        "print\nprint\n",
        b"ok",
        Err(OutRefusal::Failed),
    ),
    (
        2,
        NO_SPACE,
        2,
        "print\nprint\nprint\n",
        b"ok 1",
        Err(OutRefusal::Failed),
    ),
    (NONE, NO_SPACE, 0, "print\n", b"", Err(OutRefusal::Failed)),
    (
        NONE,
        NO_SPACE,
        2,
        "print\nprint\nprint\n",
        b"ok 1\n",
        Ok(()),
    ),
];

#[test]
fn an_out_fails_where_the_system_does(rt: HostRuntime) -> Result<(), Fail> {
    let alloc = rt.alloc();
    for (failing, error, step, lines, written, answer) in WRITES {
        let stage = Stage::new(alloc, failing, error, &[], step)?;
        let told = writes(alloc, &stage, b"ok 1\n");
        same_at(&rt, told, answer, failing, error);
        look(&rt, &stage, lines, written);
    }
    Ok(())
}

// Long pieces pass too: none of them is kept beside its file, or put elsewhere.
#[test]
fn a_long_file_is_written_in_its_place_alone(rt: HostRuntime) -> Result<(), Fail> {
    let alloc = rt.alloc();
    let long = counted(alloc, 70_000)?;
    let stage = Stage::new(alloc, NONE, NO_SPACE, &[], 65_536)?;
    let lines = "create_dir out/V\nempty out/V/MANIFEST.TXT\nwrite\nwrite\n";
    put_and_look(
        &rt,
        alloc,
        &stage,
        ("V/MANIFEST.TXT", lines),
        long.as_slice(),
    );
    Ok(())
}

#[test]
fn a_long_file_is_read_whole(rt: HostRuntime) -> Result<(), Fail> {
    let alloc = rt.alloc();
    let long = counted(alloc, 200_000)?;
    let stage = Stage::new(alloc, NONE, NO_SPACE, long.as_slice(), 65_536)?;
    let lines = "read in/V/IMAGES/A.TIF\nlength\nread\nread\nread\nread\nread\n";
    let case = ("V/IMAGES/A.TIF", 200_000, lines);
    read_and_look(&rt, alloc, &stage, case, long.as_slice());
    Ok(())
}

#[test]
fn a_long_piece_is_printed_whole(rt: HostRuntime) -> Result<(), Fail> {
    let alloc = rt.alloc();
    let long = counted(alloc, 70_000)?;
    let stage = Stage::new(alloc, NONE, NO_SPACE, &[], 65_536)?;
    same(&rt, writes(alloc, &stage, long.as_slice()), Ok(()));
    look(&rt, &stage, "print\nprint\n", long.as_slice());
    Ok(())
}
