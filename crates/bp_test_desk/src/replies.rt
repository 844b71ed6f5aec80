// What the lead is told at a seat. A call and a reply are let go in one place each.
ghost use Rattle.std.specs.Prelude.{◌≡◌};
ghost use Rattle.bp_desk.specs.Seats.{IsSeatOf, SameSeat};

use crate::calls::box_of;
use crate::matters::KEY;
use bp_book::DeskRefusal;
use bp_desk::{Desk, Seat};
use bp_keep::MemKeeper;
use bp_matter::{Call, Production, Reply};
use sha2::{Digest, Sha256};
use std::alloc::Global;
use std::sync::Wait;
use std::test::Fail;

/// What tests look for in a reply.
#[derive(Clone, Copy)]
pub struct Told {
    pub is_done: bool,
    /// It is a document with box 1 and no other.
    pub has_box_1: bool,
}

/// Makes a call of the lead; what the reply tells.
pub fn make<R: Wait>(
    desk: &Desk<MemKeeper>,
    rt: &R,
    alloc: Global,
    seat: &mut Seat<MemKeeper>,
    call: Call,
) -> Result<Told, DeskRefusal>
    requires { IsSeatOf desk.now seat.old }
    ensures { SameSeat seat.old seat.new }
{
    let reply = reply_to(desk, rt, alloc, seat, call)?;
    Ok(told_of(&reply))
}

/// Makes a call of the lead; the production that is told.
pub fn produced<R: Wait>(
    desk: &Desk<MemKeeper>,
    rt: &R,
    alloc: Global,
    seat: &mut Seat<MemKeeper>,
    call: Call,
) -> Result<Production, Fail>
    requires { IsSeatOf desk.now seat.old }
    ensures { SameSeat seat.old seat.new }
{
    match reply_to(desk, rt, alloc, seat, call)? {
        Reply::Produced(production) => Ok(production),
        _ => Err(Fail::from("no production")),
    }
}

fn reply_to<R: Wait>(
    desk: &Desk<MemKeeper>,
    rt: &R,
    alloc: Global,
    seat: &mut Seat<MemKeeper>,
    call: Call,
) -> Result<Reply, DeskRefusal>
    requires { IsSeatOf desk.now seat.old }
    ensures { SameSeat seat.old seat.new }
{
    desk.call(rt, alloc, seat, &Sha256::digest(KEY), &call)
}

fn told_of(reply: &Reply) -> Told {
    match reply {
        Reply::Done => Told {
            is_done: true,
            has_box_1: false,
        },
        Reply::Doc(view) => Told {
            is_done: false,
            has_box_1: view.boxes.as_slice() == [box_of(1)].as_slice(),
        },
        _ => Told {
            is_done: false,
            has_box_1: false,
        },
    }
}
