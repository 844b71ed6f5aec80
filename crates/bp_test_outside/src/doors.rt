// The door in memory, with ample memory.
ghost use Rattle.std.specs.Prelude.{◌≡◌, ◌≤◌, ◌||◌, ℕ, nat_le, true, length};

use crate::lists::{counted, inputs, numbers};
use crate::looks::{same, same_at};
use bp_outside::{Door, DoorRefusal, Enough, Exchange, InputStop, MemDoor, read_input, send};
use std::alloc::{AllocError, Global};
use std::process::Abort;
use std::test::Fail;

// What passed in an exchange: the bytes read, whether its end was met, the bytes written, whether a
// call in it failed, and whether it was hung up.
fn passed(exchange: &Exchange) -> (&[u8], bool, &[u8], bool, bool) {
    (
        exchange.read.as_slice(),
        exchange.ended,
        exchange.written.as_slice(),
        exchange.failed,
        exchange.hung_up,
    )
}

// A door at which these inputs come, and at which the calls of these numbers fail.
fn door_for(alloc: Global, given: &[&[u8]], failing: &[u64]) -> Result<MemDoor, AllocError> {
    let inputs = inputs(alloc, given)?;
    Ok(MemDoor::over(inputs, numbers(alloc, failing)?))
}

// Reads 2 bytes, then the rest, and replies.
fn converse(alloc: Global, door: &mut MemDoor) -> Result<bool, DoorRefusal> {
    let mut room = [0u8; 2];
    if !door.accept(alloc)? {
        return Ok(false);
    }
    door.read(alloc, &mut room)?;
    door.read(alloc, &mut room)?;
    send(alloc, door, &[7, 8])?;
    Ok(true)
}

// The door may be moved to another thread.
pub fn know_send<D: Door + Send>(_door: &D) {}

// Two peers, and the door is closed after them.
#[test]
fn a_door_in_memory_passes_bytes(rt: HostRuntime) -> Result<(), Fail> {
    let alloc = rt.alloc();
    let mut door = door_for(alloc, &[&[1, 2, 3], &[]], &[])?;
    know_send(&door);
    serve_all(&rt, alloc, &mut door);
    look_at_two(&rt, door.exchanges());
    Ok(())
}

fn serve_all(rt: &impl Abort, alloc: Global, door: &mut MemDoor) {
    for came in [true, true, false, false] {
        same(rt, converse(alloc, door), Ok(came));
        door.hang_up();
    }
}

fn look_at_two(rt: &impl Abort, exchanges: &[Exchange]) {
    same(rt, exchanges.len(), 2);
    let one: (&[u8], bool, &[u8], bool, bool) = (&[1, 2, 3], false, &[7, 8], false, true);
    same(rt, exchanges.first().map(passed), Some(one));
    let two: (&[u8], bool, &[u8], bool, bool) = (&[], true, &[7, 8], false, true);
    same(rt, exchanges.last().map(passed), Some(two));
}

// The calls are accept (0), two reads (1 and 2), a write (3) and an accept that finds the door
// closed (4). A call that fails leaves what passed before it, and half of what it was to write.
const FAILING: [(u64, &[u8], &[u8]); 4] = [
    (1, &[], &[]),
    (2, &[1, 2], &[]),
    (3, &[1, 2, 3], &[7]),
    (4, &[1, 2, 3], &[7, 8]),
];

#[test]
fn each_call_at_a_door_fails_in_turn(rt: HostRuntime) -> Result<(), Fail> {
    let alloc = rt.alloc();
    for (failing, read, written) in FAILING {
        let mut door = door_for(alloc, &[&[1, 2, 3]], &[failing])?;
        fail_and_look(&rt, alloc, &mut door, failing, read, written);
    }
    Ok(())
}

fn fail_and_look(
    rt: &impl Abort,
    alloc: Global,
    door: &mut MemDoor,
    failing: u64,
    read: &[u8],
    written: &[u8],
) {
    let answer = converse(alloc, door);
    same_at(rt, answer.is_err(), failing < 4, "call", failing);
    door.hang_up();
    let told = door.exchanges().first().map(passed);
    let wanted = (read, false, written, failing < 4, true);
    same_at(rt, told, Some(wanted), "call", failing);
    let failed = Err(DoorRefusal::Failed);
    let closed = if failing == 4 { failed } else { Ok(false) };
    same_at(rt, door.accept(alloc), closed, "after call", failing);
}

// A refused accept leaves the peer, who comes at the next.
#[test]
fn a_peer_waits_for_the_next_accept(rt: HostRuntime) -> Result<(), Fail> {
    let alloc = rt.alloc();
    let mut door = door_for(alloc, &[&[1, 2, 3]], &[0])?;
    refuse_and_serve(&rt, alloc, &mut door);
    Ok(())
}

fn refuse_and_serve(rt: &impl Abort, alloc: Global, door: &mut MemDoor) {
    same(rt, door.accept(alloc), Err(DoorRefusal::Failed));
    same(rt, door.exchanges().len(), 0);
    same(rt, converse(alloc, door), Ok(true));
}

// Enough are so many bytes, and in any case the most.
#[derive(Clone, Copy)]
struct Bytewise {
    few: usize,
    most: usize,
}

impl Enough for Bytewise {
    ghost Tells = { λ until bytes told. told
        ≡ nat_le until.most (length bytes) || nat_le until.few (length bytes) };

    ghost limit = { λ until. until.most };

    fn enough(&self, bytes: &[u8]) -> bool {
        self.most <= bytes.len() || self.few <= bytes.len()
    }

    fn limit(&self) -> usize {
        self.most
    }
}

// How many bytes are read of the input of the next peer, where so many are enough.
fn read_next(alloc: Global, door: &mut MemDoor, until: &Bytewise) -> Result<usize, InputStop> {
    if door.accept(alloc) != Ok(true) {
        return Ok(0);
    }
    read_input(alloc, door, until).map(|bytes| bytes.len())
}

const STOPPED: Result<usize, InputStop> = Err(InputStop::Refused(DoorRefusal::Failed));

// An input of 10,000 bytes. The calls are accept (0) and reads of at most 4,096 bytes (1, 2, 3, and
// 4 for the end). Enough are some bytes in the middle of what was sent, none, all, and more than
// all; or they are passed, up to the most. No read is asked for after that.
const READS: [(usize, usize, u64, Result<usize, InputStop>); 8] = [
    (5_000, 5_000, 3, Ok(5_000)),
    (0, 9, 1, Ok(0)),
    (10_000, 10_000, 4, Ok(10_000)),
    (10_001, 10_001, 9, Ok(10_000)),
    (10_001, 10_001, 4, STOPPED),
    (5_000, 5_000, 2, STOPPED),
    (5_000, 8_000, 3, Ok(8_000)),
    (5_000, 9_000, 3, Ok(8_192)),
];

#[test]
fn an_input_is_read_until_it_is_enough(rt: HostRuntime) -> Result<(), Fail> {
    let long = counted(rt.alloc(), 10_000)?;
    read_each(&rt, rt.alloc(), long.as_slice())?;
    Ok(())
}

fn read_each(rt: &impl Abort, alloc: Global, long: &[u8]) -> Result<(), AllocError> {
    for (few, most, failing, answer) in READS {
        let mut door = door_for(alloc, &[long], &[failing])?;
        let told = read_next(alloc, &mut door, &Bytewise { few, most });
        same_at(rt, told, answer, few, most);
    }
    Ok(())
}
