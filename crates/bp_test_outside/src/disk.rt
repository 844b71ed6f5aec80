// The adapters on a real disk.
use crate::lists::counted;
use crate::looks::{holds, same, same_at};
use bp_outside::{
    FileFolder, FileSource, Folder, FolderRefusal, ReadRefusal, Source, StdOut, put_file, write_all,
};
use std::alloc::Global;
use std::process::Abort;
use std::rt::Files;
use std::test::Fail;
use std::{fs, io};

#[test]
fn files_are_read_below_a_folder(rt: HostRuntime) -> Result<(), Fail> {
    let long = counted(rt.alloc(), 70_000)?;
    lay_out(&rt, long.as_slice())?;
    read_each(&rt, rt.alloc(), long.as_slice());
    let name = "n".repeat(rt.alloc(), 300)?;
    refuse_each(&rt, rt.alloc(), name.as_str());
    Ok(())
}

fn lay_out(rt: &impl Files, long: &[u8]) -> io::Result<()> {
    fs::create_dir_all(rt, "file_source/deep/er")?;
    fs::write(rt, "file_source/deep/er/long.bin", long)?;
    fs::write(rt, "file_source/plain", "12345")?;
    let _ = rt.remove_file("file_source/loop");
    rt.symlink("loop", "file_source/loop")
}

// Whether the source reads these bytes.
fn reads(
    alloc: Global,
    source: &mut impl Source,
    path: &str,
    max: u64,
    bytes: &[u8],
) -> Result<bool, ReadRefusal> {
    let read = source.read(alloc, path, max)?;
    Ok(read.as_slice() == bytes)
}

fn read_each<R: Abort + Files>(rt: &R, alloc: Global, long: &[u8]) {
    let mut source = FileSource::below(rt, "file_source");
    for (path, max, bytes) in [
        ("plain", 5, b"12345".as_slice()),
        ("plain", u64::MAX, b"12345".as_slice()),
        ("deep/er/long.bin", 70_000, long),
    ] {
        let told = reads(alloc, &mut source, path, max, bytes);
        same_at(rt, told, Ok(true), path, max);
    }
}

fn refuse_each<R: Abort + Files>(rt: &R, alloc: Global, long_name: &str) {
    let mut source = FileSource::below(rt, "file_source");
    for (path, max, refusal) in [
        ("plain", 4, ReadRefusal::TooLong),
        ("plain", 0, ReadRefusal::TooLong),
        ("deep/er/long.bin", 69_999, ReadRefusal::TooLong),
        ("gone", 9, ReadRefusal::Absent),
        ("gone/gone", 9, ReadRefusal::Absent),
        ("plain/below", 9, ReadRefusal::Absent),
        ("deep", 9, ReadRefusal::Failed),
        ("loop", 9, ReadRefusal::Failed),
        (long_name, 9, ReadRefusal::Absent),
        ("plain\0", 9, ReadRefusal::Absent),
    ] {
        let told = reads(alloc, &mut source, path, max, b"");
        same_at(rt, told, Err(refusal), path, max);
    }
}

// Whether a file that is put is then read with the same bytes.
fn is_put(
    alloc: Global,
    folder: &mut impl Folder,
    source: &mut impl Source,
    path: &str,
    bytes: &[u8],
) -> Result<bool, Fail> {
    put_file(alloc, folder, path, bytes)?;
    Ok(reads(alloc, source, path, 70_000, bytes)?)
}

// A file that stands there is replaced, also by a shorter one.
#[test]
fn files_are_written_below_a_folder(rt: HostRuntime) -> Result<(), Fail> {
    let alloc = rt.alloc();
    let long = counted(alloc, 70_000)?;
    let mut folder = FileFolder::below(&rt, "file_folder");
    let mut source = FileSource::below(&rt, "file_folder");
    put_each(&rt, alloc, &mut folder, &mut source, long.as_slice())
}

fn put_each(
    rt: &impl Abort,
    alloc: Global,
    folder: &mut impl Folder,
    source: &mut impl Source,
    long: &[u8],
) -> Result<(), Fail> {
    for (path, bytes) in [
        ("new/er/long.bin", long),
        ("empty", b"".as_slice()),
        ("replaced", b"a long one".as_slice()),
        ("replaced", b"short".as_slice()),
        ("/rooted", b"1".as_slice()),
    ] {
        holds(rt, is_put(alloc, folder, source, path, bytes)?);
    }
    let below_a_file = folder.create(alloc, "empty/below");
    same(rt, below_a_file, Err(FolderRefusal::Failed));
    Ok(())
}

// A file that was begun anew is empty, and one that is cut off keeps what was added.
#[test]
fn a_file_begins_empty(rt: HostRuntime) -> Result<(), Fail> {
    let mut folder = FileFolder::below(&rt, "file_begun");
    let mut source = FileSource::below(&rt, "file_begun");
    cut_each(&rt, rt.alloc(), &mut folder, &mut source)
}

// How many bytes a file holds that was begun anew, and to which these were added.
fn held_of(
    alloc: Global,
    folder: &mut impl Folder,
    source: &mut impl Source,
    added: &[u8],
) -> Result<usize, Fail> {
    folder.create(alloc, "cut")?;
    folder.append(alloc, added)?;
    Ok(source.read(alloc, "cut", 9)?.len())
}

fn cut_each(
    rt: &impl Abort,
    alloc: Global,
    folder: &mut impl Folder,
    source: &mut impl Source,
) -> Result<(), Fail> {
    for (added, held) in [
        (b"12345".as_slice(), 5),
        (b"1".as_slice(), 1),
        (b"".as_slice(), 0),
    ] {
        same(rt, held_of(alloc, folder, source, added)?, held);
    }
    Ok(())
}

#[test]
fn bytes_reach_standard_output(rt: HostRuntime) -> Result<(), Fail> {
    let mut out = StdOut::of(&rt);
    write_all(rt.alloc(), &mut out, b"written\n")?;
    Ok(())
}
