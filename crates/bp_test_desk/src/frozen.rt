// What one seat froze is seen at another as it was frozen.
ghost use Rattle.std.specs.Prelude.{◌≡◌};
ghost use Rattle.bp_desk.specs.Seats.{IsSeatOf, SameSeat};

use crate::calls::{box_of, freeze, get_production, put_box};
use crate::matters::confirmed;
use crate::replies::{make, produced};
use crate::stage::{close_pair, pass_note, start_pair};
use bp_desk::{Desk, Seat};
use bp_keep::MemKeeper;
use bp_matter::Production;
use std::alloc::Global;
use std::process::Abort;
use std::sync::Wait;
use std::test::Fail;

// Seat 1 freezes, and what it told seat 2 is not changed by a box that is put there.
fn freeze_and_edit<R: Wait + Abort>(
    desk: &Desk<MemKeeper>,
    rt: &R,
    alloc: Global,
    one: &mut Seat<MemKeeper>,
    two: &mut Seat<MemKeeper>,
) -> Result<(), Fail>
    requires { IsSeatOf desk.now one.old × IsSeatOf desk.now two.old }
    ensures { SameSeat one.old one.new × SameSeat two.old two.new }
{
    let frozen = produced(desk, rt, alloc, one, freeze(alloc)?)?;
    edit_and_look(desk, rt, alloc, one, two, &frozen)
}

fn edit_and_look<R: Wait + Abort>(
    desk: &Desk<MemKeeper>,
    rt: &R,
    alloc: Global,
    one: &mut Seat<MemKeeper>,
    two: &mut Seat<MemKeeper>,
    frozen: &Production,
) -> Result<(), Fail>
    requires { IsSeatOf desk.now one.old × IsSeatOf desk.now two.old }
    ensures { SameSeat one.old one.new × SameSeat two.old two.new }
{
    pass_note(desk, alloc, one, two)?;
    let put = make(desk, rt, alloc, two, put_box(box_of(2)))?;
    assert!(rt; put.is_done);
    let got = produced(desk, rt, alloc, two, get_production(alloc)?)?;
    assert!(rt; got == *frozen);
    assert!(rt; has_box_1_alone(&got));
    Ok(())
}

fn has_box_1_alone(production: &Production) -> bool {
    match production.items.as_slice() {
        [item] => item.boxes.as_slice() == [box_of(1)].as_slice(),
        _ => false,
    }
}

#[test]
fn a_later_box_is_in_no_frozen_production(rt: HostRuntime) -> Result<(), Fail> {
    let alloc = rt.alloc();
    let mut pair = start_pair(alloc, confirmed(alloc)?, 10)?;
    let told = freeze_and_edit(&pair.desk, &rt, alloc, &mut pair.one, &mut pair.two);
    // the pair is closed before what was told is looked at: it is let go in one place
    let calls = close_pair(alloc, pair);
    told?;
    assert_eq!(rt; calls, Some(3));
    Ok(())
}
