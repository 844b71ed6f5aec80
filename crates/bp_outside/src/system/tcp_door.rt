// A port of this machine as a door.
ghost use Rattle.std.specs.Prelude.{◌≡◌, ◌≢◌, ◌+◌, ◌<◌, ◌≤◌, ◌↔◌, false, true, length, None, Ok, Err, IfOk, IfSome, IsErr, IsErrOf, IsSome, IsTrue, OnErr, is_some};
ghost use Rattle.bp_outside.specs.Counts.{risen};
ghost use Rattle.bp_outside.specs.Door.{Reads, Writes, after_accept, after_hang_up, after_leave};
ghost use Rattle.bp_outside.specs.Reading.{TakesAtMost};
ghost use Rattle.bp_outside.specs.Streams.{AppendsTo, ReadsFrom};
ghost use Rattle.bp_outside.specs.SystemAnswers.{after_answer};
ghost use Rattle.bp_outside.specs.Untold.{untold_door};

use crate::door::Door;
use crate::refusals::DoorRefusal;
use crate::system::peers::{PIECE_LIMIT, Peer};
use std::alloc::Global;
use std::io;
use std::io::{Read, Write};
use std::net::{Ipv4Addr, Net, OpenListener, OpenStream, Shutdown, TcpListener};
use std::thread::sleep;
use std::time::{Clock, Duration, Instant};

/// Desk i listens on the port that is i above this one.
pub const BASE_PORT: u16 = 48_200;

/// The greatest number of a desk.
pub const DESK_LIMIT: u16 = 16;

// How long a peer may be silent, or not take what is written, before that is a fault.
const SILENCE_MILLIS: u64 = 10_000;

// How long a door rests after an accept that the system refused. Else a port that another program
// has for a while uses up all accepts at once.
const REST_MILLIS: u64 = 250;

// How long, and up to how many bytes, what a peer still sends is read off as it is hung up.
const DRAIN_MILLIS: u64 = 2_000;

const DRAIN_LIMIT: usize = 2_097_152;

// How many bytes are read off at a time.
const CHUNK: usize = 65536;

/// A port of this machine, on 127.0.0.1, at which peers connect. It tells no exchanges, and is
/// never found closed.
#[derive(Drop)]
pub struct TcpDoor<'a, R: Net + Clock> {
    rt: &'a R,
    port: u16,
    listener: Option<R::Listener>,
    stream: Option<Peer<R::Stream>>,
    // Whether it was left since its last accept.
    left: bool,
    faults: u64,
    accepts: u64,
}

impl<'a, R: Net + Clock> TcpDoor<'a, R> {
    /// The door of this desk. It listens from its first accept on.
    pub fn of(rt: &'a R, desk: u16) -> TcpDoor<'a, R>
        requires some { 0 < desk }
        requires few { desk ≤ DESK_LIMIT }
        ensures port { result.port ≡ BASE_PORT + desk }
        ensures shows { untold_door (is_some result.stream) result.left result.faults result.accepts
            ≡ record {
              exchanges = None;
              under_way = false;
              closed = false;
              left = false;
              faults = 0;
              accepts = 0;
              sure = false;
            } }
    {
        TcpDoor {
            rt,
            port: BASE_PORT + desk,
            listener: None,
            stream: None,
            left: false,
            faults: 0,
            accepts: 0,
        }
    }

    // Waits for the next peer. It begins to listen where it doesn't yet.
    fn next_peer(&mut self) -> io::Result<R::Stream>
        ensures port { self.new.port ≡ self.old.port }
        ensures kept { IfSome self.old.listener (λ _. self.new.listener ≡ self.old.listener) }
        ensures listens { IfOk result (λ _. IsSome self.new.listener) }
        ensures stream { self.new.stream ≡ self.old.stream }
        ensures left { self.new.left ≡ self.old.left }
        ensures faults { self.new.faults ≡ self.old.faults }
        ensures accepts { self.new.accepts ≡ self.old.accepts }
    {
        self.listen()?;
        self.come()
    }

    // Listens at its port, where it doesn't yet.
    fn listen(&mut self) -> io::Result<()>
        ensures port { self.new.port ≡ self.old.port }
        ensures kept { IfSome self.old.listener (λ _. self.new.listener ≡ self.old.listener) }
        ensures listens { IfOk result (λ _. IsSome self.new.listener) }
        ensures stream { self.new.stream ≡ self.old.stream }
        ensures left { self.new.left ≡ self.old.left }
        ensures faults { self.new.faults ≡ self.old.faults }
        ensures accepts { self.new.accepts ≡ self.old.accepts }
    {
        if self.listener.is_none() {
            let listener = TcpListener::bind(self.rt, (Ipv4Addr::LOCALHOST, self.port))?;
            self.listener = Some(listener);
        }
        Ok(())
    }

    // Waits for who comes to its port next.
    fn come(&self) -> io::Result<R::Stream>
        requires { IsSome self.now.listener }
    {
        let (stream, _peer) = match &self.listener {
            Some(listener) => listener.accept()?,
            None => unreachable!(),
        };
        limit_silence(&stream)?;
        Ok(stream)
    }

    // Takes the system's answer to an accept as the exchange under way. An error leaves the one
    // before, and is counted.
    fn begin(&mut self, answer: io::Result<R::Stream>) -> Result<bool, DoorRefusal>
        ensures begun { IfOk answer (λ stream. IfSome self.new.stream (λ peer. peer.stream
            ≡ stream)) }
        ensures there { IfOk answer (λ _. IsSome self.new.stream) }
        ensures ok { IfOk answer (λ _. result ≡ Ok true) }
        ensures kept { OnErr answer (self.new.stream ≡ self.old.stream) }
        ensures listener { self.new.listener ≡ self.old.listener }
        ensures port { self.new.port ≡ self.old.port }
        ensures failed { OnErr answer (result ≡ Err DoorRefusal.Failed) }
        ensures counted { self.new.faults ≡ after_answer answer self.old.faults }
        ensures accepts { self.new.accepts ≡ risen self.old.accepts }
        ensures left { self.new.left ≡ false }
    {
        self.left = false;
        self.accepts = self.accepts.saturating_add(1);
        match answer {
            Ok(stream) => {
                self.stream = Some(Peer::over(stream));
                Ok(true)
            }
            Err(_) => {
                self.faults = self.faults.saturating_add(1);
                Err(DoorRefusal::Failed)
            }
        }
    }
}

impl<'a, R: Net + Clock> Door for TcpDoor<'a, R> {
    ghost use Rattle.std.proofs.lemmas.Bool.{false≢true};

    ghost shows = { λ door. untold_door (is_some door.stream) door.left door.faults door.accepts };

    ghost unfailing = { λ door sure. absurd (false≢true sure) };

    /// Waits for a peer, with no limit of time, or fails after a rest of a quarter of a second. It is
    /// never closed, and takes no memory. Once it listens at its port, it keeps it.
    fn accept(&mut self, _alloc: Global) -> Result<bool, DoorRefusal>
        ensures after { untold_door (is_some self.new.stream) self.new.left self.new.faults self.new.accepts
            ≡ after_accept (untold_door (is_some self.old.stream) self.old.left self.old.faults
            self.old.accepts) result }
        ensures there { result ≢ Ok false }
        ensures no_memory { ¬ (IsErrOf result DoorRefusal.OutOfMemory) }
        ensures port { self.new.port ≡ self.old.port }
        ensures kept { IfSome self.old.listener (λ _. self.new.listener ≡ self.old.listener) }
        ensures listens { IfOk result (λ _. IsSome self.new.listener) }
    {
        let answer = self.next_peer();
        if answer.is_err() {
            sleep(self.rt, Duration::from_millis(REST_MILLIS));
        }
        self.begin(answer)
    }

    /// Fails where the peer is silent for 10 seconds. Takes no memory, so it never runs out of it.
    fn read(&mut self, _alloc: Global, room: &mut [u8]) -> Result<usize, DoorRefusal>
        requires exchange { (untold_door (is_some self.old.stream) self.old.left self.old.faults
            self.old.accepts).under_way ≡ true }
        requires room { 0 < length room.old }
        ensures reads { Reads (untold_door (is_some self.old.stream) self.old.left self.old.faults
            self.old.accepts) room.new result
            (untold_door (is_some self.new.stream) self.new.left self.new.faults self.new.accepts) }
        ensures bytes { ReadsFrom (λ peer. R.Stream.remaining peer.stream) self.old.stream
            self.new.stream result room.new }
        ensures failed { IfSome self.new.stream (λ peer. IsErr result ↔ IsTrue peer.failed) }
        ensures no_memory { ¬ (IsErrOf result DoorRefusal.OutOfMemory) }
        ensures port { self.new.port ≡ self.old.port }
        ensures listener { self.new.listener ≡ self.old.listener }
    {
        match &mut self.stream {
            Some(peer) => peer.read(room, &mut self.faults),
            None => unreachable!(),
        }
    }

    /// Writes at most 65,536 bytes. Fails where the peer takes nothing for 10 seconds; for 1 second,
    /// once those passed with a piece not taken whole. Takes no memory, so it never runs out of it.
    fn write(&mut self, _alloc: Global, piece: &[u8]) -> Result<usize, DoorRefusal>
        requires { (untold_door (is_some self.old.stream) self.old.left self.old.faults
            self.old.accepts).under_way ≡ true }
        ensures writes { Writes (untold_door (is_some self.old.stream) self.old.left self.old.faults
            self.old.accepts) piece.now result
            (untold_door (is_some self.new.stream) self.new.left self.new.faults self.new.accepts) }
        ensures bytes { AppendsTo (λ peer. R.Stream.contents peer.stream) self.old.stream
            self.new.stream result piece.now }
        ensures few { IfOk result (λ count. count ≤ PIECE_LIMIT) }
        ensures failed { IfSome self.new.stream (λ peer. IsErr result ↔ IsTrue peer.failed) }
        ensures no_memory { ¬ (IsErrOf result DoorRefusal.OutOfMemory) }
        ensures port { self.new.port ≡ self.old.port }
        ensures listener { self.new.listener ≡ self.old.listener }
    {
        let first = &piece[..piece.len().min(PIECE_LIMIT)];
        match &mut self.stream {
            Some(peer) => peer.write(first, &mut self.faults),
            None => unreachable!(),
        }
    }

    /// Closes the connection. What the peer still sends is read off first, for 2 seconds and up to
    /// 2,097,152 bytes: a close with bytes unread takes the reply back.
    fn hang_up(&mut self)
        ensures after { untold_door (is_some self.new.stream) self.new.left self.new.faults self.new.accepts
            ≡ after_hang_up (untold_door (is_some self.old.stream) self.old.left self.old.faults
            self.old.accepts) }
        ensures closed { self.new.stream ≡ None }
        ensures port { self.new.port ≡ self.old.port }
        ensures listener { self.new.listener ≡ self.old.listener }
    {
        if let Some(peer) = self.stream.take() {
            let mut stream = peer.into_stream();
            let _ = drain(self.rt, &mut stream);
        }
    }

    /// Closes its port, until the next accept: who waits there, and who comes, is refused.
    fn leave(&mut self)
        ensures after { untold_door (is_some self.new.stream) self.new.left self.new.faults self.new.accepts
            ≡ after_leave (untold_door (is_some self.old.stream) self.old.left self.old.faults
            self.old.accepts) }
        ensures gone { self.new.listener ≡ None }
        ensures port { self.new.port ≡ self.old.port }
        ensures stream { self.new.stream ≡ self.old.stream }
    {
        self.listener = None;
        self.left = true;
    }
}

fn limit_silence<S: OpenStream>(stream: &S) -> io::Result<()> {
    let limit = Duration::from_millis(SILENCE_MILLIS);
    stream.set_read_timeout(Some(limit))?;
    stream.set_write_timeout(Some(limit))
}

// Tells the peer that nothing more is written, and reads off what it still sends.
fn drain<R: Clock, S: Read + OpenStream>(rt: &R, stream: &mut S) -> io::Result<()>
    ensures { TakesAtMost DRAIN_LIMIT (S.remaining stream.old) (S.remaining stream.new) }
{
    stream.shutdown(Shutdown::Write)?;
    let limit = Duration::from_millis(DRAIN_MILLIS);
    let start = Instant::now(rt)?;
    let mut room = [0u8; CHUNK];
    let mut left = DRAIN_LIMIT;
    while left > 0 {
        let spent = start.elapsed(rt)?;
        if spent >= limit {
            return Ok(());
        }
        stream.set_read_timeout(Some(limit - spent))?;
        let most = left.min(CHUNK);
        let taken = stream.read(&mut room[..most])?;
        if taken == 0 {
            return Ok(());
        }
        left -= taken;
    }
    Ok(())
}
