// The same requests at each of two doors: what is written in each exchange, to the byte.
use crate::databases::{LEAD, decide, imported, ran};
use bp_book::History;
use bp_core::{Bytes, NumberList, RowList};
use bp_keep::Keeper;
use bp_outside::{BytesList, MemDoor};
use std::alloc::{AllocError, Global};
use std::process::Abort;
use std::sync::Wait;
use std::test::Fail;
use std::thread::Threads;

// Each request but for one whose head is too long, and what it is answered.
const REQUESTS: [&[u8]; 4] = [
    b"POST /docs/1/call HTTP/1.1\r\nDesk-Key: abc\r\nContent-Length: 58\r\n\r\n{\"designation\":\"\",\"responsive\":true,\"treatment\":\"Produce\"}",
    b"POST /docs/1/call HTTP/1.1\r\nDesk-Key: abd\r\nContent-Length: 58\r\n\r\n{\"designation\":\"\",\"responsive\":true,\"treatment\":\"Produce\"}",
    b"POST /docs/1/call HTTP/1.1\r\nDesk-Key: abc\r\nContent-Length: 1048577\r\n\r\n",
    b"GET /docs/0 HTTP/1.1\r\nDesk-Key: abc\r\n\r\n",
];

const REPLIES: [&[u8]; 5] = [
    b"HTTP/1.1 200 OK\r\nContent-Type: application/json\r\nContent-Length: 13\r\nConnection: close\r\n\r\n{\"done\":true}",
    b"HTTP/1.1 401 Unauthorized\r\nContent-Type: application/json\r\nContent-Length: 51\r\nConnection: close\r\n\r\n{\"a\":0,\"b\":0,\"line\":0,\"name\":\"KeyUnknown\",\"rule\":9}",
    b"HTTP/1.1 413 Payload Too Large\r\nContent-Type: application/json\r\nContent-Length: 52\r\nConnection: close\r\n\r\n{\"a\":0,\"b\":0,\"line\":0,\"name\":\"BodyLimit\",\"rule\":103}",
    b"HTTP/1.1 404 Not Found\r\nContent-Type: application/json\r\nContent-Length: 50\r\nConnection: close\r\n\r\n{\"a\":0,\"b\":0,\"line\":0,\"name\":\"NoRoute\",\"rule\":105}",
    b"HTTP/1.1 400 Bad Request\r\nContent-Type: application/json\r\nContent-Length: 54\r\nConnection: close\r\n\r\n{\"a\":0,\"b\":0,\"line\":0,\"name\":\"HeadRefused\",\"rule\":101}",
];

const LONG_START: &[u8] = b"GET /docs/1 HTTP/1.1\r\nDesk-Key: abc\r\nX: ";

const LONG_END: &[u8] = b"\r\n\r\n";

// How many bytes the field has for the head to have 16,385.
const FILL: [u8; 16_341] = [b'x'; 16_341];

fn long_head(alloc: Global) -> Result<Vec<u8>, AllocError> {
    let mut head = LONG_START.to_vec(alloc)?;
    head.extend_from_slice(&FILL)?;
    head.extend_from_slice(LONG_END)?;
    Ok(head)
}

fn door(alloc: Global) -> Result<MemDoor, AllocError> {
    let mut inputs = Vec::new(alloc);
    for request in REQUESTS {
        inputs.push(Bytes::from_vec(request.to_vec(alloc)?))?;
    }
    inputs.push(Bytes::from_vec(long_head(alloc)?))?;
    Ok(MemDoor::over(BytesList::from_vec(inputs), NumberList::new(alloc)))
}

// Whether all that was written there is what is due.
fn is_answered(door: &MemDoor) -> bool {
    let exchanges = door.exchanges();
    if exchanges.len() != REPLIES.len() {
        return false;
    }
    for (exchange, reply) in exchanges.iter().zip(REPLIES) {
        if exchange.written.as_slice() != reply {
            return false;
        }
    }
    true
}

// What is printed where four calls were made: at each door one that is done, and one by nobody of the
// staff.
const SERVED: &[u8] = b"served 4\n";

// The rows of the matter once its document is called.
fn rows_due<R: Abort + Threads + Wait + Sync>(rt: &R, alloc: Global) -> Result<RowList, Fail> {
    let mut keeper = imported(rt, alloc)?;
    decide(alloc, &mut keeper, &LEAD)?;
    Ok(keeper.load(alloc)?)
}

fn two_doors(alloc: Global) -> Result<Vec<MemDoor>, AllocError> {
    let mut doors = Vec::new(alloc);
    doors.push(door(alloc)?)?;
    doors.push(door(alloc)?)?;
    Ok(doors)
}

fn has_four(history: &Option<History>) -> bool {
    match history {
        Some(history) => history.len() == 4,
        None => false,
    }
}

#[test]
fn each_request_is_answered_at_both_doors(rt: HostRuntime) -> Result<(), Fail> {
    let alloc = rt.alloc();
    let keeper = imported(&rt, alloc)?;
    let (left, mut keeper) = ran(&rt, alloc, "serve 2 5", keeper, two_doors(alloc)?)?;
    assert_eq!(rt; left.status, 0);
    assert!(rt; left.out.written() == SERVED);
    assert!(rt; has_four(&left.history));
    assert_eq!(rt; left.doors.len(), 2);
    for door in left.doors.as_slice() {
        assert!(rt; is_answered(door));
    }
    assert!(rt; keeper.load(alloc)? == rows_due(&rt, alloc)?);
    Ok(())
}
