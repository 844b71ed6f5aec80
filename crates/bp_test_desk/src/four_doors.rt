// Doors are served at once: each of four waits in its first read until all have begun to be read. Calls
// are made in turn: while one is kept the others wait, and each is woken.
ghost use Rattle.std.specs.Prelude.{◌≡◌, ◌≤◌, length, true, IfOk};
ghost use Rattle.bp_outside.specs.Door.{DoorView, Reads, Writes, after_accept, after_hang_up};

use crate::matters::begun;
use crate::slow_keeper::SlowKeeper;
use bp_desk::{MatterServed, serve_matter};
use bp_keep::MemKeeper;
use bp_outside::{Door, DoorRefusal};
use std::alloc::{AllocError, Global};
use std::process::Abort;
use std::sync::Wait;
use std::sync::atomic::{AtomicU64, Ordering};
use std::test::Fail;
use std::thread::Threads;
use std::time::Clock;

const DOORS: u32 = 4;

// How often a door looks whether all are being read.
const MOST_TURNS: u64 = 2_000_000_000;

// A door with one peer, who sends one request.
#[derive(Drop)]
struct MeetingDoor<'a> {
    request: &'static [u8],
    at: usize,
    came: bool,
    under_way: bool,
    closed: bool,
    faults: u64,
    accepts: u64,
    written: Vec<u8>,
    left: bool,
    // How many doors have begun to be read.
    reading: &'a AtomicU64,
}

impl<'a> MeetingDoor<'a> {
    fn over(alloc: Global, request: &'static [u8], reading: &'a AtomicU64) -> MeetingDoor<'a> {
        MeetingDoor {
            request,
            at: 0,
            came: false,
            under_way: false,
            closed: false,
            faults: 0,
            accepts: 0,
            written: Vec::new(alloc),
            left: false,
            reading,
        }
    }
}

// Counts one more, and waits until all are counted.
fn meets(reading: &AtomicU64) -> bool {
    reading.fetch_add(1, Ordering::SeqCst);
    for _ in 0..MOST_TURNS {
        if reading.load(Ordering::SeqCst) == u64::from(DOORS) {
            return true;
        }
    }
    false
}

impl<'a> Door for MeetingDoor<'a> {
    ghost use Rattle.std.proofs.lemmas.Bool.{false≢true};
    ghost use Rattle.bp_outside.specs.Untold.{untold_door};

    ghost shows = { λ door. record (untold_door door.under_way door.left door.faults door.accepts) {
      closed = door.closed;
    } };

    ghost unfailing = { λ door sure. absurd (false≢true sure) };

    fn accept(&mut self, _alloc: Global) -> Result<bool, DoorRefusal> {
        self.accepts = self.accepts.saturating_add(1);
        self.left = false;
        if self.came {
            self.closed = true;
            return Ok(false);
        }
        self.came = true;
        self.under_way = true;
        self.closed = false;
        Ok(true)
    }

    fn read(&mut self, _alloc: Global, room: &mut [u8]) -> Result<usize, DoorRefusal> {
        if self.at == 0 && !meets(self.reading) {
            self.faults = self.faults.saturating_add(1);
            return Err(DoorRefusal::Failed);
        }
        let from = self.at.min(self.request.len());
        let count = room.len().min(self.request.len() - from);
        room[..count].copy_from_slice(&self.request[from..from + count]);
        self.at = from + count;
        Ok(count)
    }

    fn write(&mut self, _alloc: Global, piece: &[u8]) -> Result<usize, DoorRefusal> {
        if self.written.extend_from_slice(piece).is_err() {
            return Err(DoorRefusal::OutOfMemory);
        }
        Ok(piece.len())
    }

    fn hang_up(&mut self) {
        self.under_way = false;
    }

    fn leave(&mut self) {
        self.left = true;
    }
}

// The lead adds a reviewer, whose key has the SHA-256 that is written by the last digit.
const FIRST: &[u8] =
    b"POST /staff HTTP/1.1\r\nDesk-Key: abc\r\nContent-Length: 108\r\n\r\n{\"name\":\"Bob\",\"role\":\"Reviewer\",\"digest\":\"0000000000000000000000000000000000000000000000000000000000000001\"}";

const SECOND: &[u8] =
    b"POST /staff HTTP/1.1\r\nDesk-Key: abc\r\nContent-Length: 108\r\n\r\n{\"name\":\"Eve\",\"role\":\"Reviewer\",\"digest\":\"0000000000000000000000000000000000000000000000000000000000000002\"}";

const THIRD: &[u8] =
    b"POST /staff HTTP/1.1\r\nDesk-Key: abc\r\nContent-Length: 108\r\n\r\n{\"name\":\"Ann\",\"role\":\"Reviewer\",\"digest\":\"0000000000000000000000000000000000000000000000000000000000000003\"}";

const FOURTH: &[u8] =
    b"POST /staff HTTP/1.1\r\nDesk-Key: abc\r\nContent-Length: 108\r\n\r\n{\"name\":\"Kim\",\"role\":\"Reviewer\",\"digest\":\"0000000000000000000000000000000000000000000000000000000000000004\"}";

fn is_well(text: &[u8]) -> bool {
    text.starts_with(b"HTTP/1.1 200 ")
}

// Doors at each of which the lead adds another reviewer.
fn doors_of<'a>(alloc: Global, reading: &'a AtomicU64) -> Result<Vec<MeetingDoor<'a>>, AllocError>
    ensures { IfOk result (λ doors. length doors.items ≡ 4) }
{
    let mut doors = Vec::new(alloc);
    doors.push(MeetingDoor::over(alloc, FIRST, reading))?;
    doors.push(MeetingDoor::over(alloc, SECOND, reading))?;
    doors.push(MeetingDoor::over(alloc, THIRD, reading))?;
    doors.push(MeetingDoor::over(alloc, FOURTH, reading))?;
    Ok(doors)
}

// Serves a peer at each door, each at a seat of its own. How many calls were made, and the doors.
fn serve_four<'a, R: Threads + Wait + Clock + Sync + Send + Drop>(
    rt: &R,
    alloc: Global,
    keeper: SlowKeeper<MemKeeper, R>,
    doors: Vec<MeetingDoor<'a>>,
) -> Result<(usize, Vec<MeetingDoor<'a>>), Fail>
    requires { length doors.items ≡ 4 }
{
    match serve_matter(rt, alloc, keeper, doors, DOORS, 1) {
        Ok(served) => Ok(left_by(served)),
        Err(_nobody) => Err(Fail::from("the desk did not start")),
    }
}

fn left_by<'a, R: Clock + Drop>(
    served: MatterServed<SlowKeeper<MemKeeper, R>, MeetingDoor<'a>>,
) -> (usize, Vec<MeetingDoor<'a>>) {
    let MatterServed { closed, doors } = served;
    (closed.history.len(), doors)
}

// Each of four doors was answered and left, and none failed.
fn look<R: Abort>(rt: &R, doors: &[MeetingDoor]) {
    assert_eq!(rt; doors.len(), 4);
    for door in doors {
        assert!(rt; is_well(door.written.as_slice()));
        assert_eq!(rt; door.faults, 0);
        assert!(rt; door.left);
    }
}

#[test]
fn four_doors(rt: HostRuntime) -> Result<(), Fail> {
    let alloc = rt.alloc();
    let reading = AtomicU64::new(0);
    let keeper = SlowKeeper {
        keeper: begun(alloc)?,
        rt,
    };
    let (calls, doors) = serve_four(&rt, alloc, keeper, doors_of(alloc, &reading)?)?;
    assert_eq!(rt; calls, 4);
    look(&rt, doors.as_slice());
    Ok(())
}
