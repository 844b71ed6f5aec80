// A history with as many calls as there is room for.
ghost use Rattle.std.specs.Prelude.{◌≡◌};
ghost use Rattle.bp_desk.specs.Seats.{IsSeatOf, SameSeat};

use crate::calls::see_doc;
use crate::matters::called;
use crate::replies::make;
use crate::stage::{close_pair, start_pair};
use bp_book::DeskRefusal;
use bp_core::{Bytes, NumberList};
use bp_desk::{Desk, Seat, serve_door};
use bp_keep::MemKeeper;
use bp_outside::{BytesList, MemDoor};
use std::alloc::{AllocError, Global};
use std::process::Abort;
use std::sync::Wait;
use std::test::Fail;

// Two calls are made, and the third is refused.
fn fill<R: Wait + Abort>(
    desk: &Desk<MemKeeper>,
    rt: &R,
    alloc: Global,
    seat: &mut Seat<MemKeeper>,
) -> Result<(), Fail>
    requires { IsSeatOf desk.now seat.old }
    ensures { SameSeat seat.old seat.new }
{
    make(desk, rt, alloc, seat, see_doc())?;
    make(desk, rt, alloc, seat, see_doc())?;
    let third = make(desk, rt, alloc, seat, see_doc()).err();
    assert_eq!(rt; third, Some(DeskRefusal::JournalFull { count: 2 }));
    Ok(())
}

#[test]
fn a_history_with_room_for_two_calls_takes_no_third(rt: HostRuntime) -> Result<(), Fail> {
    let alloc = rt.alloc();
    let mut pair = start_pair(alloc, called(alloc)?, 2)?;
    let told = fill(&pair.desk, &rt, alloc, &mut pair.one);
    let calls = close_pair(alloc, pair);
    told?;
    assert_eq!(rt; calls, Some(2));
    Ok(())
}

// Three peers, each of whom asks for the document.
fn three_peers(alloc: Global) -> Result<MemDoor, AllocError> {
    let mut inputs = Vec::new(alloc);
    for _ in 0..3 {
        inputs.push(Bytes::from_vec(ASKS.to_vec(alloc)?))?;
    }
    Ok(MemDoor::over(BytesList::from_vec(inputs), NumberList::new(alloc)))
}

const ASKS: &[u8] = b"GET /docs/1 HTTP/1.1\r\nDesk-Key: abc\r\n\r\n";

// RFC 6585, section 4
const TOO_MANY: &[u8] = b"HTTP/1.1 429 Too Many Requests\r\n";

const TWO: &[u8] = b"\r\n\r\n{\"a\":2,\"b\":0,\"line\":0,\"name\":\"JournalFull\",\"rule\":106}";

// The first two of three peers are answered, and the third is told how many calls there are.
fn look<R: Abort>(rt: &R, door: &MemDoor) {
    let exchanges = door.exchanges();
    assert_eq!(rt; exchanges.len(), 3);
    for exchange in &exchanges[..2] {
        assert!(rt; exchange.written.as_slice().starts_with(b"HTTP/1.1 200 "));
    }
    let third = exchanges[2].written.as_slice();
    assert!(rt; third.starts_with(TOO_MANY));
    assert!(rt; third.ends_with(TWO));
}

fn serve_three<R: Wait>(rt: &R, alloc: Global, door: &mut MemDoor) -> Result<Option<usize>, Fail> {
    let mut pair = start_pair(alloc, called(alloc)?, 2)?;
    serve_door(&pair.desk, rt, alloc, &mut pair.one, door, 3);
    Ok(close_pair(alloc, pair))
}

#[test]
fn a_door_tells_the_third_that_the_history_is_full(rt: HostRuntime) -> Result<(), Fail> {
    let alloc = rt.alloc();
    let mut door = three_peers(alloc)?;
    let calls = serve_three(&rt, alloc, &mut door)?;
    assert_eq!(rt; calls, Some(2));
    look(&rt, &door);
    Ok(())
}
