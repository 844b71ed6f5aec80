// The objects in memory, with ample memory.
use crate::lists::{counted, numbers};
use crate::looks::{holds, same, same_at};
use bp_core::{Bytes, Text};
use bp_outside::{
    FileList, FileRow, Folder, FolderRefusal, MemFolder, MemOut, MemSource, OutRefusal,
    ReadRefusal, Source, paths_differ, put_file, put_parts, write_all,
};
use std::alloc::{AllocError, Global};
use std::process::Abort;
use std::test::Fail;

fn row(alloc: Global, path: &str, bytes: &[u8]) -> Result<FileRow, AllocError> {
    Ok(FileRow {
        path: Text::from_string(String::from_str(alloc, path)?),
        bytes: Bytes::from_vec(Vec::from_slice(alloc, bytes)?),
    })
}

fn rows(alloc: Global, of: &[(&str, &[u8])]) -> Result<FileList, AllocError> {
    let mut files = Vec::new(alloc);
    for (path, bytes) in of {
        files.push(row(alloc, path, bytes)?)?;
    }
    Ok(FileList::from_vec(files))
}

// The fourth call, number 3, is to fail.
#[test]
fn a_source_in_memory_reads_and_fails_as_told(rt: HostRuntime) -> Result<(), Fail> {
    let alloc = rt.alloc();
    let failing = numbers(alloc, &[3])?;
    let files = rows(alloc, &[("a.tif", &[1, 2, 3]), ("b/é.txt", &[])])?;
    assert!(rt; paths_differ(&files));
    read_each(&rt, alloc, &mut MemSource::over(files, failing));
    Ok(())
}

fn read_each(rt: &impl Abort, alloc: Global, source: &mut MemSource) {
    for (path, max, answer) in [
        ("a.tif", 3, Ok(3)),
        ("a.tif", 2, Err(ReadRefusal::TooLong)),
        ("b", 9, Err(ReadRefusal::Absent)),
        ("a.tif", 3, Err(ReadRefusal::Failed)),
        ("b/é.txt", 0, Ok(0)),
    ] {
        let read = source.read(alloc, path, max).map(|bytes| bytes.len());
        same_at(rt, read, answer, path, max);
    }
}

#[test]
fn a_path_that_stands_twice_is_seen(rt: HostRuntime) -> Result<(), Fail> {
    let files = rows(rt.alloc(), &[("a", &[1]), ("b", &[1]), ("a", &[])])?;
    assert!(rt; !paths_differ(&files));
    Ok(())
}

// A folder of these files, of which the call of this number fails.
fn folder_of(
    alloc: Global,
    files: &[(&str, &[u8])],
    failing: &[u64],
) -> Result<MemFolder, AllocError> {
    let files = rows(alloc, files)?;
    Ok(MemFolder::over(files, numbers(alloc, failing)?))
}

// The calls are create (0), append of 4,096 (1), of 4,096 (2), of 1,808 (3), and finish (4). A call
// that fails has added half of what it would have taken.
#[test]
fn a_file_is_put_whole_or_in_part(rt: HostRuntime) -> Result<(), Fail> {
    let bytes = counted(rt.alloc(), 10_000)?;
    put_each(&rt, rt.alloc(), bytes.as_slice())?;
    Ok(())
}

fn put_each(rt: &impl Abort, alloc: Global, bytes: &[u8]) -> Result<(), AllocError> {
    for (failing, files, length) in [
        (0, 1, 0),
        (1, 2, 2048),
        (2, 2, 6144),
        (3, 2, 9096),
        (4, 2, 10_000),
        (5, 2, 10_000),
    ] {
        let mut folder = folder_of(alloc, &[("v/o.tif", &[])], &[failing])?;
        put_and_look(rt, alloc, &mut folder, bytes, (failing, files, length));
    }
    Ok(())
}

// There are so many files then, and the last has so many of the bytes.
fn put_and_look(
    rt: &impl Abort,
    alloc: Global,
    folder: &mut MemFolder,
    bytes: &[u8],
    (failing, files, length): (u64, usize, usize),
) {
    let answer = put_file(alloc, folder, "v/p.tif", bytes);
    same_at(rt, answer.is_ok(), failing == 5, "call", failing);
    same_at(rt, folder.files().len(), files, "call", failing);
    if let Some(last) = folder.files().last() {
        same_at(rt, last.bytes.len(), length, "call", failing);
        holds(rt, bytes.starts_with(last.bytes.as_slice()));
    }
}

// The calls are create (0), append of the first part (1), of the rest (2), and finish (3).
const WHOLES: [(u64, &[u8]); 5] = [
    (0, b""),
    (1, b"ab"),
    (2, b"abcdef"),
    (3, b"abcdefgh"),
    (4, b"abcdefgh"),
];

#[test]
fn a_file_of_two_parts_is_put_whole_or_in_part(rt: HostRuntime) -> Result<(), Fail> {
    let alloc = rt.alloc();
    for (failing, whole) in WHOLES {
        let mut folder = folder_of(alloc, &[], &[failing])?;
        put_parts_and_look(&rt, alloc, &mut folder, failing, whole);
    }
    Ok(())
}

fn put_parts_and_look(
    rt: &impl Abort,
    alloc: Global,
    folder: &mut MemFolder,
    failing: u64,
    whole: &[u8],
) {
    let answer = put_parts(alloc, folder, "p.tif", b"abcd", b"efgh");
    same_at(rt, answer.is_ok(), failing == 4, "call", failing);
    same_at(rt, last_bytes(folder.files()), whole, "call", failing);
}

// The bytes of the last file, or none where there is none.
fn last_bytes(files: &[FileRow]) -> &[u8] {
    match files.last() {
        Some(file) => file.bytes.as_slice(),
        None => b"",
    }
}

#[test]
fn a_piece_is_written_whole_or_in_part(rt: HostRuntime) -> Result<(), Fail> {
    let bytes = counted(rt.alloc(), 10_000)?;
    write_each(&rt, rt.alloc(), bytes.as_slice())?;
    Ok(())
}

fn write_each(rt: &impl Abort, alloc: Global, bytes: &[u8]) -> Result<(), AllocError> {
    for (failing, length) in [(0, 2048), (1, 6144), (2, 9096), (3, 10_000)] {
        let calls = numbers(alloc, &[failing])?;
        let mut out = MemOut::over(Bytes::from_vec(Vec::new(alloc)), calls);
        write_and_look(rt, alloc, &mut out, bytes, (failing, length));
    }
    Ok(())
}

fn write_and_look(
    rt: &impl Abort,
    alloc: Global,
    out: &mut MemOut,
    bytes: &[u8],
    (failing, length): (u64, usize),
) {
    let answer = write_all(alloc, out, bytes);
    let failed = Err(OutRefusal::Failed);
    let wanted = if failing < 3 { failed } else { Ok(()) };
    same_at(rt, answer, wanted, "call", failing);
    same_at(rt, out.written().len(), length, "call", failing);
    holds(rt, bytes.starts_with(out.written()));
}

// A volume of the most files: each call takes memory as it needs it, and none lacks it.
#[test]
fn a_folder_takes_40_000_files(rt: HostRuntime) -> Result<(), Fail> {
    let mut folder = folder_of(rt.alloc(), &[], &[])?;
    put_40_000(&rt, rt.alloc(), &mut folder)?;
    look_at_scans(&rt, folder.files());
    Ok(())
}

fn put_40_000(rt: &impl Abort, alloc: Global, folder: &mut MemFolder) -> Result<(), AllocError> {
    for number in 0..40_000 {
        holds(rt, put_scan(alloc, folder, number)?);
    }
    Ok(())
}

// Whether the file of this number could be put.
fn put_scan(alloc: Global, folder: &mut MemFolder, number: u32) -> Result<bool, AllocError> {
    let path = format!(in alloc; "v/{number}.tif")?;
    Ok(put_file(alloc, folder, path.as_str(), b"scan").is_ok())
}

fn look_at_scans(rt: &impl Abort, files: &[FileRow]) {
    same(rt, files.len(), 40_000);
    for file in files {
        same(rt, file.bytes.as_slice(), b"scan".as_slice());
    }
}
