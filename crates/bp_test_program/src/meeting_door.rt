// A door whose first read waits until another door's has begun.
ghost use Rattle.std.specs.Prelude.{◌≡◌, ◌<◌, length, true};
ghost use Rattle.bp_outside.specs.Door.{Reads, Writes, after_accept, after_hang_up};

use bp_outside::{Door, DoorRefusal};
use std::alloc::Global;
use std::sync::atomic::{AtomicU64, Ordering};

// How often a door looks for the other's flag.
const MOST_TURNS: u64 = 500_000_000;

/// A door with one peer, who sends one request.
#[derive(Drop)]
pub struct MeetingDoor<'a> {
    request: &'static [u8],
    at: usize,
    came: bool,
    under_way: bool,
    closed: bool,
    faults: u64,
    accepts: u64,
    written: Vec<u8>,
    left: bool,
    begun: &'a AtomicU64,
    other: &'a AtomicU64,
}

impl<'a> MeetingDoor<'a> {
    /// A door that raises the one flag as it is read, and waits for the other.
    pub fn over(
        alloc: Global,
        request: &'static [u8],
        begun: &'a AtomicU64,
        other: &'a AtomicU64,
    ) -> MeetingDoor<'a> {
        MeetingDoor {
            request,
            at: 0,
            came: false,
            under_way: false,
            closed: false,
            faults: 0,
            accepts: 0,
            written: Vec::new(alloc),
            left: false,
            begun,
            other,
        }
    }

    /// Whether what was written begins so, and the two met.
    pub fn begins(&self, text: &[u8]) -> bool {
        self.faults == 0 && self.written.as_slice().starts_with(text)
    }
}

// Raises the one flag, and waits for the other.
fn meets(begun: &AtomicU64, other: &AtomicU64) -> bool {
    begun.store(1, Ordering::SeqCst);
    for _ in 0..MOST_TURNS {
        if other.load(Ordering::SeqCst) == 1 {
            return true;
        }
    }
    false
}

impl<'a> Door for MeetingDoor<'a> {
    ghost use Rattle.std.proofs.lemmas.Bool.{false≢true};
    ghost use Rattle.bp_outside.specs.Untold.{untold_door};

    ghost shows = { λ door. record (untold_door door.under_way door.left door.faults door.accepts) {
      closed = door.closed;
    } };

    ghost unfailing = { λ door sure. absurd (false≢true sure) };

    fn accept(&mut self, _alloc: Global) -> Result<bool, DoorRefusal> {
        self.accepts = self.accepts.saturating_add(1);
        self.left = false;
        if self.came {
            self.closed = true;
            return Ok(false);
        }
        self.came = true;
        self.under_way = true;
        self.closed = false;
        Ok(true)
    }

    fn read(&mut self, _alloc: Global, room: &mut [u8]) -> Result<usize, DoorRefusal> {
        if self.at == 0 && !meets(self.begun, self.other) {
            self.faults = self.faults.saturating_add(1);
            return Err(DoorRefusal::Failed);
        }
        let from = self.at.min(self.request.len());
        let count = room.len().min(self.request.len() - from);
        room[..count].copy_from_slice(&self.request[from..from + count]);
        self.at = from + count;
        Ok(count)
    }

    fn write(&mut self, _alloc: Global, piece: &[u8]) -> Result<usize, DoorRefusal> {
        if self.written.extend_from_slice(piece).is_err() {
            return Err(DoorRefusal::OutOfMemory);
        }
        Ok(piece.len())
    }

    fn hang_up(&mut self) {
        self.under_way = false;
    }

    fn leave(&mut self) {
        self.left = true;
    }
}
