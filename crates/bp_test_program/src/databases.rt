// Command lines over a database in memory: the keeper that one hands back is handed to the next.
use crate::page_file::WHITE;
use crate::programs::words_of;
use bp_book::History;
use bp_cli::run::{Ended, run};
use bp_core::{Bytes, DocNo, NumberList, Text, Treatment};
use bp_keep::Keeper;
use bp_keep_sql::SqlKeeper;
use bp_matter::Call;
use bp_outside::{FileList, FileRow, MemDoor, MemFolder, MemOut, MemSource, paths_differ};
use bp_rules::{load_tables, step};
use sqlite::{Connection, MemStore};
use std::alloc::{AllocError, Global};
use std::process::Abort;
use std::sync::Wait;
use std::test::Fail;
use std::thread::Threads;

// The SHA-256 of `abc`, the lead's key.
pub const LEAD: [u8; 32] = [
    0xBA, 0x78, 0x16, 0xBF, 0x8F, 0x01, 0xCF, 0xEA, 0x41, 0x41, 0x40, 0xDE, 0x5D, 0xAE, 0x22, 0x23,
    0xB0, 0x03, 0x61, 0xA3, 0x96, 0x17, 0x7A, 0x9C, 0xB4, 0x10, 0xFF, 0x61, 0xF2, 0x00, 0x15, 0xAD,
];

const INIT: &str = "init ba7816bf8f01cfea414140de5dae2223b00361a396177a9cb410ff61f20015ad";

const BATCH: [(&str, &[u8]); 4] = [
    (
        "B1/load.dat",
        b"\xC3\xBEBEGDOC\xC3\xBE\x14\xC3\xBEBEGATTACH\xC3\xBE\n\xC3\xBEP1\xC3\xBE\x14\xC3\xBE\xC3\xBE\n",
    ),
    ("B1/load.opt", b"P1,,p.tif,Y\n"),
    ("B1/words.csv", b""),
    ("B1/p.tif", &WHITE),
];

fn row(alloc: Global, path: &str, bytes: &[u8]) -> Result<FileRow, AllocError> {
    Ok(FileRow {
        path: Text::from_string(String::from_str(alloc, path)?),
        bytes: Bytes::from_vec(bytes.to_vec(alloc)?),
    })
}

pub fn source(alloc: Global) -> Result<MemSource, Fail> {
    let mut rows = Vec::new(alloc);
    for (path, bytes) in BATCH {
        rows.push(row(alloc, path, bytes)?)?;
    }
    let files = FileList::from_vec(rows);
    if !paths_differ(&files) {
        return Err(Fail::from("two files at one path"));
    }
    Ok(MemSource::over(files, NumberList::new(alloc)))
}

// What a command left, but for the keeper.
#[derive(Drop)]
pub struct Left {
    pub status: u8,
    pub folder: MemFolder,
    pub out: MemOut,
    pub doors: Vec<MemDoor>,
    pub history: Option<History>,
}

pub type Rows = SqlKeeper<MemStore>;

// Runs a line over a keeper, and at these doors. What it left, and the keeper that was handed back.
pub fn ran<R: Threads + Wait + Sync>(
    rt: &R,
    alloc: Global,
    line: &str,
    keeper: Rows,
    doors: Vec<MemDoor>,
) -> Result<(Left, Rows), Fail> {
    let words = words_of(alloc, line)?;
    let mut source = source(alloc)?;
    let mut folder = MemFolder::over(FileList::new(alloc), NumberList::new(alloc));
    let mut out = MemOut::over(Bytes::from_vec(Vec::new(alloc)), NumberList::new(alloc));
    let ended = run(
        rt,
        alloc,
        &words,
        &mut source,
        keeper,
        &mut folder,
        &mut out,
        doors,
    );
    left_by(ended, folder, out)
}

fn left_by(
    ended: Ended<Rows, MemDoor>,
    folder: MemFolder,
    out: MemOut,
) -> Result<(Left, Rows), Fail> {
    let Ended {
        status,
        keeper,
        doors,
        history,
    } = ended;
    let Some(keeper) = keeper else {
        return Err(Fail::from("no keeper came back"));
    };
    let left = Left {
        status,
        folder,
        out,
        doors,
        history,
    };
    Ok((left, keeper))
}

// Runs a line that prints this and puts no file. The keeper after it.
fn told<R: Abort + Threads + Wait + Sync>(
    rt: &R,
    alloc: Global,
    line: &str,
    keeper: Rows,
    printed: &str,
) -> Result<Rows, Fail> {
    let (left, keeper) = ran(rt, alloc, line, keeper, Vec::new(alloc))?;
    assert!(rt; left.status == 0, "{line}");
    assert!(rt; left.out.written() == printed.as_bytes(), "{line}");
    assert!(rt; left.folder.files().is_empty(), "{line}");
    Ok(keeper)
}

// Who has this key calls document 1 responsive, to be produced.
pub fn decide<K: Keeper>(alloc: Global, keeper: &mut K, key: &[u8; 32]) -> Result<(), Fail> {
    let mut tables = load_tables(alloc, keeper)?;
    let call = Call::SetCall {
        doc: DocNo(1),
        responsive: true,
        treatment: Treatment::Produce,
        designation: Text::from_string(String::new(alloc)),
    };
    let _done = step(alloc, &mut tables, keeper, key, &call)?;
    Ok(())
}

const IMPORTED: &str = "batch B1 documents 1 pages 1\n";

// A database with a matter of the batch, which is told once more where it comes in again.
pub fn imported<R: Abort + Threads + Wait + Sync>(rt: &R, alloc: Global) -> Result<Rows, Fail> {
    let keeper = SqlKeeper::over(Connection::open_in_memory(alloc)?);
    let keeper = told(rt, alloc, INIT, keeper, "matter made\n")?;
    let keeper = told(rt, alloc, "import B1", keeper, IMPORTED)?;
    told(rt, alloc, "import B1", keeper, IMPORTED)
}

const LINE: &[u8] = b"production R-1 labels AB-0001 to AB-0001 files 6 manifest ";

fn same_volume<R: Abort>(rt: &R, one: &Left, other: &Left) {
    assert!(rt; (one.status, other.status) == (0, 0));
    assert!(rt; one.out.written().starts_with(LINE));
    assert!(rt; one.out.written() == other.out.written());
    assert!(rt; one.folder.files().len() == 6);
    assert!(rt; one.folder.files() == other.folder.files());
}

#[test]
fn a_volume_is_pressed_again_over_a_database(rt: HostRuntime) -> Result<(), Fail> {
    let alloc = rt.alloc();
    let mut keeper = imported(&rt, alloc)?;
    decide(alloc, &mut keeper, &LEAD)?;
    let none = Vec::new(alloc);
    let (produced, keeper) = ran(&rt, alloc, "produce R-1 V1 AB- 4 1 1", keeper, none)?;
    let (pressed, _keeper) = ran(&rt, alloc, "press R-1", keeper, Vec::new(alloc))?;
    same_volume(&rt, &produced, &pressed);
    Ok(())
}
