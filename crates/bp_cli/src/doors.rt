// The doors of the program.
ghost use Rattle.std.specs.Prelude.{◌≡◌, IfOk, map};
ghost use Rattle.bp_cli.specs.Doors.{ports_to};

use bp_core::OutOfMemory;
use bp_outside::{DESK_LIMIT, TcpDoor};
use std::alloc::Global;
use std::net::Net;
use std::time::Clock;

/// Doors, or that memory lacked to make them.
pub type Doors<D> = Result<Vec<D>, OutOfMemory>;

/// The doors of the desks, in their order. None of them listens yet.
pub fn doors_of<R: Net + Clock>(rt: &R, alloc: Global) -> Doors<TcpDoor<'_, R>>
    ensures { IfOk result (λ doors. map (λ door. door.port) doors.items ≡ ports_to DESK_LIMIT) }
{
    let mut doors = Vec::new(alloc);
    let mut desk = 0;
    while desk < DESK_LIMIT {
        desk += 1;
        doors.push(TcpDoor::of(rt, desk))?;
    }
    Ok(doors)
}
