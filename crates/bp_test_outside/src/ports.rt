// Doors at ports: over a runtime of the tests' own, call by call, and over real sockets.
use crate::doors::know_send;
use crate::lists::counted;
use crate::looks::{holds, same, same_at};
use crate::stage::{CLOSED_PIPE, NO_SPACE, NONE, Stage, WOULD_WAIT};
use bp_outside::{Door, DoorRefusal, TcpDoor, send};
use std::alloc::{AllocError, Global};
use std::cell::Cell;
use std::io;
use std::io::{ErrorKind, Read, Write};
use std::net::{Ipv4Addr, Net, OpenListener, OpenStream, Shutdown, SocketAddr, SocketAddrV4};
use std::process::Abort;
use std::rc::Rc;
use std::test::Fail;
use std::time::{Clock, Duration};

// Serves one peer, and tells how many bytes of it were read.
fn serve<D: Door>(alloc: Global, door: &mut D) -> Result<usize, DoorRefusal> {
    let mut room = [0u8; 4];
    let came = door.accept(alloc)?;
    if !came {
        return Ok(0);
    }
    let count = door.read(alloc, &mut room)?;
    send(alloc, door, b"pong")?;
    door.hang_up();
    Ok(count)
}

// What a door asks of its peer, and what it asks as it hangs up: it reads off what comes, here 2
// bytes and then none.
const SERVED: &str = "accept\nread limit 10000\nwrite limit 10000\nread\nwrite\nshut writing\n";

const HUNG_UP: &str = "clock\nclock\nread limit 1600\nread\nclock\nread limit 1200\nread\n";

// It listens once, on the port of its desk, and limits silence.
#[test]
fn a_door_asks_for_its_port_alone(rt: HostRuntime) -> Result<(), Fail> {
    let alloc = rt.alloc();
    let stage = Stage::ticking(alloc, NONE, NO_SPACE, b"pingff", 9, 400)?;
    serve_twice(&rt, alloc, &stage, &mut TcpDoor::of(&stage, 3));
    Ok(())
}

fn serve_twice(rt: &impl Abort, alloc: Global, stage: &Stage, door: &mut impl Door) {
    same(rt, serve(alloc, door), Ok(4));
    holds(rt, stage.says(&["bind 127.0.0.1:48203\n", SERVED, HUNG_UP]));
    same(rt, serve(alloc, door), Ok(4));
    holds(rt, stage.says(&[SERVED, HUNG_UP]));
    holds(rt, stage.wrote(b"pongpong"));
}

// The calls are bind (0), accept (1), the limits (2 and 3), read (4) and write (5); a hang up can't
// fail. Once it listens it keeps its port, whatever fails then.
#[test]
fn a_door_fails_where_the_system_does(rt: HostRuntime) -> Result<(), Fail> {
    let alloc = rt.alloc();
    for failing in 0..10 {
        let error = if failing == 4 {
            WOULD_WAIT
        } else {
            CLOSED_PIPE
        };
        let stage = Stage::new(alloc, failing, error, b"ping", 9)?;
        fail_and_serve(&rt, alloc, &stage, &mut TcpDoor::of(&stage, 16), failing);
    }
    Ok(())
}

fn fail_and_serve(
    rt: &impl Abort,
    alloc: Global,
    stage: &Stage,
    door: &mut impl Door,
    failing: u64,
) {
    let failed = Err(DoorRefusal::Failed);
    let wanted = if failing < 6 { failed } else { Ok(4) };
    same_at(rt, serve(alloc, door), wanted, "call", failing);
    same_at(rt, serve(alloc, door), Ok(4), "after call", failing);
    let binds = if failing == 0 { 2 } else { 1 };
    let told = stage.count("bind 127.0.0.1:48216");
    same_at(rt, told, binds, "call", failing);
}

// What a door asks that begins to listen, and waits for a peer.
const BEGUN: &str = "bind 127.0.0.1:48216\naccept\nread limit 10000\nwrite limit 10000\n";

// After an accept that the system refused it rests, and then asks for its port again.
#[test]
fn a_door_rests_after_a_refusal(rt: HostRuntime) -> Result<(), Fail> {
    let alloc = rt.alloc();
    let stage = Stage::new(alloc, 0, NO_SPACE, b"ping", 9)?;
    rest_and_accept(&rt, alloc, &stage, &mut TcpDoor::of(&stage, 16));
    Ok(())
}

fn rest_and_accept(rt: &impl Abort, alloc: Global, stage: &Stage, door: &mut impl Door) {
    same(rt, door.accept(alloc), Err(DoorRefusal::Failed));
    holds(rt, stage.says(&["bind 127.0.0.1:48216\nrest 250\n"]));
    same(rt, door.accept(alloc), Ok(true));
    holds(rt, stage.says(&[BEGUN]));
}

// Sends a reply to the next peer. Whether one came.
fn reply_with<D: Door>(alloc: Global, door: &mut D, reply: &[u8]) -> Result<bool, DoorRefusal> {
    if !door.accept(alloc)? {
        return Ok(false);
    }
    send(alloc, door, reply)?;
    Ok(true)
}

// A long reply goes out in pieces of 65,536 bytes. A door that is left asks for its port again.
#[test]
fn a_long_reply_is_sent(rt: HostRuntime) -> Result<(), Fail> {
    let alloc = rt.alloc();
    let long = counted(alloc, 2_000_000)?;
    let stage = Stage::new(alloc, NONE, NO_SPACE, b"ping", 4_000_000)?;
    reply_and_leave(&rt, alloc, &mut TcpDoor::of(&stage, 2), long.as_slice());
    look_at_long(&rt, &stage, long.as_slice());
    Ok(())
}

fn reply_and_leave(rt: &impl Abort, alloc: Global, door: &mut impl Door, long: &[u8]) {
    same(rt, reply_with(alloc, door, long), Ok(true));
    door.leave();
    same(rt, door.accept(alloc), Ok(true));
}

fn look_at_long(rt: &impl Abort, stage: &Stage, long: &[u8]) {
    holds(rt, stage.wrote(long));
    same(rt, stage.count("write"), 31);
    same(rt, stage.count("write limit 1000"), 0);
    same(rt, stage.count("bind 127.0.0.1:48202"), 2);
}

// A peer that took no whole piece in its time is waited for a second at a time.
#[test]
fn a_slow_peer_is_hurried(rt: HostRuntime) -> Result<(), Fail> {
    let alloc = rt.alloc();
    let stage = Stage::new(alloc, NONE, NO_SPACE, b"pin", 3)?;
    send_slowly(&rt, alloc, &stage, &mut TcpDoor::of(&stage, 16));
    Ok(())
}

fn send_slowly(rt: &impl Abort, alloc: Global, stage: &Stage, door: &mut impl Door) {
    same(rt, reply_with(alloc, door, b"pong"), Ok(true));
    holds(rt, stage.says(&[BEGUN, "write\nwrite limit 1000\nwrite\n"]));
}

// What comes is read off for 2 seconds, and up to 2,097,152 bytes.
#[test]
fn hanging_up_ends(rt: HostRuntime) -> Result<(), Fail> {
    let long = counted(rt.alloc(), 2_200_000)?;
    for (tick, reads) in [(0, 33), (500, 4), (2000, 1), (1999, 2)] {
        hang_up_by(&rt, rt.alloc(), long.as_slice(), tick, reads)?;
    }
    Ok(())
}

fn hang_up_by(
    rt: &impl Abort,
    alloc: Global,
    long: &[u8],
    tick: u64,
    reads: usize,
) -> Result<(), AllocError> {
    let stage = Stage::ticking(alloc, NONE, NO_SPACE, long, 65_536, tick)?;
    same(rt, serve(alloc, &mut TcpDoor::of(&stage, 1)), Ok(4));
    same_at(rt, stage.count("read"), reads, "tick", tick);
    Ok(())
}

// The system's network, at which one peer comes as a door begins to listen, on any free port: it
// sends some bytes, and waits for the reply.
#[derive(Drop)]
struct Loopback<'a, R: Net> {
    rt: &'a R,
    sends: &'a [u8],
    peer: Rc<Cell<Option<(R::Stream, SocketAddr)>>>,
}

impl<'a, R: Net> Loopback<'a, R> {
    fn over(alloc: Global, rt: &'a R, sends: &'a [u8]) -> Result<Loopback<'a, R>, AllocError> {
        Ok(Loopback {
            rt,
            sends,
            peer: Rc::new(alloc, Cell::new(None))?,
        })
    }

    // A peer comes. It is kept before it's known whether it could send, so that no end lets it go.
    fn come_to(&self, listener: &R::Listener) -> io::Result<()> {
        let address = listener.local_addr()?;
        let mut peer = self.rt.connect(address)?;
        let sent = send_off(&mut peer, self.sends);
        self.peer.set(Some((peer, address)));
        sent
    }

    // The peer that came, and where it came to.
    fn take_peer(&self) -> io::Result<(R::Stream, SocketAddr)> {
        match self.peer.replace(None) {
            Some(came) => Ok(came),
            None => Err(io::Error::from(ErrorKind::NotFound)),
        }
    }
}

impl<'a, R: Net> Net for Loopback<'a, R> {
    type Stream = R::Stream;

    type Listener = R::Listener;

    fn bind(&self, _address: SocketAddr) -> io::Result<R::Listener> {
        let any = SocketAddr::V4(SocketAddrV4::new(Ipv4Addr::LOCALHOST, 0));
        let listener = self.rt.bind(any)?;
        self.come_to(&listener)?;
        Ok(listener)
    }

    fn connect(&self, address: SocketAddr) -> io::Result<R::Stream> {
        self.rt.connect(address)
    }
}

impl<'a, R: Net + Clock> Clock for Loopback<'a, R> {
    fn monotonic(&self) -> io::Result<Duration> {
        self.rt.monotonic()
    }

    fn since_1970(&self) -> io::Result<Duration> {
        self.rt.since_1970()
    }
}

// Sends these bytes, and no more.
fn send_off<S: OpenStream + Write>(peer: &mut S, bytes: &[u8]) -> io::Result<()> {
    peer.write_all(bytes)?;
    peer.shutdown(Shutdown::Write)
}

// Whether these bytes are what the peer reads to the end.
fn reads<S: Read>(alloc: Global, peer: &mut S, reply: &[u8]) -> io::Result<bool> {
    let mut bytes = Vec::new(alloc);
    peer.read_to_end(&mut bytes)?;
    Ok(bytes.as_slice() == reply)
}

// The door reads 4 bytes of 20,000, and the peer gets the whole reply all the same. Who comes then
// is let wait, and refused once the door was left.
// A door of the system itself may be moved to the thread that serves it.
#[test]
fn a_peer_gets_the_reply(rt: HostRuntime) -> Result<(), Fail> {
    let long = counted(rt.alloc(), 20_000)?;
    meet(&rt, rt.alloc(), long.as_slice())?;
    know_send(&TcpDoor::of(&rt, 1));
    Ok(())
}

fn meet<R: Abort + Clock + Net>(rt: &R, alloc: Global, long: &[u8]) -> Result<(), Fail> {
    let network = Loopback::over(alloc, rt, long)?;
    meet_over(&network, alloc, &mut TcpDoor::of(&network, 1))?;
    Ok(())
}

fn meet_over<R: Abort + Net>(
    network: &Loopback<R>,
    alloc: Global,
    door: &mut impl Door,
) -> io::Result<()> {
    let rt = network.rt;
    same(rt, serve(alloc, door), Ok(4));
    let (mut peer, address) = network.take_peer()?;
    let got = reads(alloc, &mut peer, b"pong");
    leave_and_look(rt, door, address);
    holds(rt, got?);
    Ok(())
}

fn leave_and_look<R: Abort + Net>(rt: &R, door: &mut impl Door, address: SocketAddr) {
    holds(rt, rt.connect(address).is_ok());
    door.leave();
    holds(rt, rt.connect(address).is_err());
}
