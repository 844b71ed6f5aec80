// Two desks are served at once by the top call, one peer at each: neither is answered before both are read.
use crate::databases::{LEAD, source};
use crate::meeting_door::MeetingDoor;
use crate::programs::words_of;
use bp_cli::run::{Ended, run};
use bp_core::{Bytes, NumberList};
use bp_keep::{Keeper, MemKeeper};
use bp_outside::{FileList, MemFolder, MemOut};
use bp_rules::begin;
use std::alloc::Global;
use std::sync::Wait;
use std::sync::atomic::AtomicU64;
use std::test::Fail;
use std::thread::Threads;

// The lead adds a reviewer, whose key has the SHA-256 that is written by the last digit.
const FIRST: &[u8] =
    b"POST /staff HTTP/1.1\r\nDesk-Key: abc\r\nContent-Length: 108\r\n\r\n{\"name\":\"Bob\",\"role\":\"Reviewer\",\"digest\":\"0000000000000000000000000000000000000000000000000000000000000001\"}";

const SECOND: &[u8] =
    b"POST /staff HTTP/1.1\r\nDesk-Key: abc\r\nContent-Length: 108\r\n\r\n{\"name\":\"Eve\",\"role\":\"Reviewer\",\"digest\":\"0000000000000000000000000000000000000000000000000000000000000002\"}";

const WELL: &[u8] = b"HTTP/1.1 200 ";

const FAULT: &[u8] = b"HTTP/1.1 503 ";

// What is printed where both calls were made, and where one was.
const BOTH: &[u8] = b"served 2\n";

const ONE: &[u8] = b"served 1\n";

// A keeper in memory of a new matter, whose calls of these numbers are to fail.
fn keeper(alloc: Global, failing: &[u64]) -> Result<MemKeeper, Fail> {
    let tables = begin(alloc, LEAD)?;
    let rows = tables.rows(alloc)?;
    let failing = Vec::from_slice(alloc, failing)?;
    Ok(MemKeeper::over(rows, NumberList::from_vec(failing)))
}

// What serving left.
#[derive(Drop)]
struct Left<'a> {
    status: u8,
    out: MemOut,
    // The keeper's count of faults.
    faults: Option<u64>,
    has_history: bool,
    doors: Vec<MeetingDoor<'a>>,
}

fn left_by<'a>(ended: Ended<MemKeeper, MeetingDoor<'a>>, out: MemOut) -> Left<'a> {
    let Ended {
        status,
        keeper,
        doors,
        history,
    } = ended;
    Left {
        status,
        out,
        faults: faults_of(&keeper),
        has_history: history.is_some(),
        doors,
    }
}

fn faults_of(keeper: &Option<MemKeeper>) -> Option<u64> {
    match keeper {
        Some(keeper) => Some(keeper.faults()),
        None => None,
    }
}

// Two desks are served for one connection each.
fn serve_two<'a, R: Threads + Wait + Sync>(
    rt: &R,
    alloc: Global,
    keeper: MemKeeper,
    doors: Vec<MeetingDoor<'a>>,
) -> Result<Left<'a>, Fail> {
    let words = words_of(alloc, "serve 2 1")?;
    let mut source = source(alloc)?;
    let mut folder = MemFolder::over(FileList::new(alloc), NumberList::new(alloc));
    let mut out = MemOut::over(Bytes::from_vec(Vec::new(alloc)), NumberList::new(alloc));
    let ended = run(
        rt,
        alloc,
        &words,
        &mut source,
        keeper,
        &mut folder,
        &mut out,
        doors,
    );
    Ok(left_by(ended, out))
}

// Two doors of which each waits for the other.
fn doors_of<'a>(
    alloc: Global,
    one: &'a AtomicU64,
    other: &'a AtomicU64,
) -> Result<Vec<MeetingDoor<'a>>, Fail> {
    let mut doors = Vec::new(alloc);
    doors.push(MeetingDoor::over(alloc, FIRST, one, other))?;
    doors.push(MeetingDoor::over(alloc, SECOND, other, one))?;
    Ok(doors)
}

// How many doors were answered by what begins so.
fn count(doors: &[MeetingDoor<'_>], text: &[u8]) -> usize {
    let mut found: usize = 0;
    for door in doors {
        if door.begins(text) {
            found = found.saturating_add(1);
        }
    }
    found
}

#[test]
fn two_doors(rt: HostRuntime) -> Result<(), Fail> {
    let alloc = rt.alloc();
    let (one, other) = (AtomicU64::new(0), AtomicU64::new(0));
    let doors = doors_of(alloc, &one, &other)?;
    let left = serve_two(&rt, alloc, keeper(alloc, &[])?, doors)?;
    assert_eq!(rt; left.status, 0);
    assert!(rt; left.out.written() == BOTH);
    assert!(rt; left.has_history);
    assert_eq!(rt; left.faults, Some(0));
    assert_eq!(rt; count(left.doors.as_slice(), WELL), 2);
    Ok(())
}

// The keeper loads, and then fails at the first commit: one of the two is told so.
#[test]
fn a_fault_is_told_at_one_of_two_doors(rt: HostRuntime) -> Result<(), Fail> {
    let alloc = rt.alloc();
    let (one, other) = (AtomicU64::new(0), AtomicU64::new(0));
    let doors = doors_of(alloc, &one, &other)?;
    let left = serve_two(&rt, alloc, keeper(alloc, &[1])?, doors)?;
    assert_eq!(rt; left.status, 0);
    assert!(rt; left.out.written() == ONE);
    assert!(rt; left.has_history);
    assert_eq!(rt; left.faults, Some(1));
    assert_eq!(rt; count(left.doors.as_slice(), WELL), 1);
    assert_eq!(rt; count(left.doors.as_slice(), FAULT), 1);
    Ok(())
}
