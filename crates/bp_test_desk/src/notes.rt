// What was done at one seat is seen at another, which took a note of it in.
ghost use Rattle.std.specs.Prelude.{◌≡◌};
ghost use Rattle.bp_desk.specs.Seats.{IsSeatOf, SameSeat};

use crate::calls::{box_of, put_box, see_doc};
use crate::matters::called;
use crate::replies::make;
use crate::stage::{close_pair, pass_note, start_pair};
use bp_desk::{Desk, Seat};
use bp_keep::MemKeeper;
use std::alloc::Global;
use std::process::Abort;
use std::sync::Wait;
use std::test::Fail;

// A box that is put at seat 1 is seen at both.
fn put_and_look<R: Wait + Abort>(
    desk: &Desk<MemKeeper>,
    rt: &R,
    alloc: Global,
    one: &mut Seat<MemKeeper>,
    two: &mut Seat<MemKeeper>,
) -> Result<(), Fail>
    requires { IsSeatOf desk.now one.old × IsSeatOf desk.now two.old }
    ensures { SameSeat one.old one.new × SameSeat two.old two.new }
{
    let put = make(desk, rt, alloc, one, put_box(box_of(1)))?;
    assert!(rt; put.is_done);
    pass_note(desk, alloc, one, two)?;
    let at_two = make(desk, rt, alloc, two, see_doc())?;
    assert!(rt; at_two.has_box_1);
    let at_one = make(desk, rt, alloc, one, see_doc())?;
    assert!(rt; at_one.has_box_1);
    Ok(())
}

#[test]
fn a_box_is_seen_at_both_seats(rt: HostRuntime) -> Result<(), Fail> {
    let alloc = rt.alloc();
    let mut pair = start_pair(alloc, called(alloc)?, 10)?;
    let told = put_and_look(&pair.desk, &rt, alloc, &mut pair.one, &mut pair.two);
    let calls = close_pair(alloc, pair);
    told?;
    assert_eq!(rt; calls, Some(3));
    Ok(())
}
