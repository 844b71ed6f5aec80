// A peer that came to a port.
ghost use Rattle.std.specs.Prelude.{◌≡◌, ◌<◌, ◌≤◌, ◌↔◌, false, length, IfOk, IsErr, IsErrOf, IsTrue};
ghost use Rattle.std.specs.Io.{ReadsAtMost, WritesAtMost};
ghost use Rattle.std.specs.Io.KnownBytes.{ReadConsumes, WriteAppends};
ghost use Rattle.bp_outside.specs.SystemAnswers.{after_answer};

use crate::refusals::DoorRefusal;
use crate::system::answers::{read_answer, write_answer};
use std::io::{Read, Write};
use std::net::OpenStream;
use std::time::Duration;

// The most bytes of one write.
pub const PIECE_LIMIT: usize = 65_536;

// How long a peer that let its time pass with a piece not taken whole is waited for at each further
// write. The system still takes a few bytes for one that reads nothing, which would count anew.
const HURRY_MILLIS: u64 = 1_000;

// The open stream of a peer. It keeps whether the last call on it failed. Nothing else sets that.
#[derive(Drop)]
pub struct Peer<S> {
    stream: S,
    failed: bool,
}

impl<S: Read + Write + OpenStream> Peer<S> {
    // This stream, on which no call failed yet.
    pub fn over(stream: S) -> Peer<S>
        ensures stream { result.stream ≡ stream }
        ensures failed { result.failed ≡ false }
    {
        Peer {
            stream,
            failed: false,
        }
    }

    // Its stream, to be closed.
    pub fn into_stream(self) -> S
        ensures { result ≡ self.stream }
    {
        self.stream
    }

    // Reads its next bytes to the front of the room, and tells how many. A failure is counted.
    pub fn read(&mut self, room: &mut [u8], faults: &mut u64) -> Result<usize, DoorRefusal>
        ensures bound { ReadsAtMost result room.new }
        ensures bytes { ReadConsumes (S.remaining self.old.stream) (S.remaining self.new.stream)
            result room.new }
        ensures failed { IsErr result ↔ IsTrue self.new.failed }
        ensures counted { faults.new ≡ after_answer result faults.old }
        ensures no_memory { ¬ (IsErrOf result DoorRefusal.OutOfMemory) }
    {
        let answer = read_answer(self.stream.read(room), faults);
        self.failed = answer.is_err();
        answer
    }

    // Writes the first bytes of the piece, and tells how many: some of a piece that has any. A
    // failure is counted.
    pub fn write(&mut self, piece: &[u8], faults: &mut u64) -> Result<usize, DoorRefusal>
        requires { length piece.now ≤ PIECE_LIMIT }
        ensures bound { WritesAtMost result piece.now }
        ensures some { IfOk result (λ count. 0 < length piece.now → 0 < count) }
        ensures bytes { WriteAppends (S.contents self.old.stream) (S.contents self.new.stream)
            result piece.now }
        ensures failed { IsErr result ↔ IsTrue self.new.failed }
        ensures counted { faults.new ≡ after_answer result faults.old }
        ensures no_memory { ¬ (IsErrOf result DoorRefusal.OutOfMemory) }
    {
        let answer = self.stream.write(piece);
        if matches!(&answer, Ok(count) if *count < piece.len()) {
            hurry(&self.stream);
        }
        let answer = write_answer(answer, piece.len(), DoorRefusal::Failed, faults);
        self.failed = answer.is_err();
        answer
    }
}

// Where the system refuses the shorter time, the longer one stays.
fn hurry<S: OpenStream>(stream: &S) {
    let _ = stream.set_write_timeout(Some(Duration::from_millis(HURRY_MILLIS)));
}
