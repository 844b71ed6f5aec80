// A desk of two seats.
ghost use Rattle.std.specs.Prelude.{◌≡◌, ◌<◌, [], ◌∷◌, IfOk};
ghost use Rattle.bp_desk.specs.Seats.{IsSeatOf, SameSeat, all_fresh};
ghost use Rattle.bp_test_desk.specs.Pairs.{IsPair};

use bp_core::OutOfMemory;
use bp_desk::{Desk, Seat, Started};
use bp_keep::{Keeper, MemKeeper};
use std::alloc::{AllocError, Global};
use std::test::Fail;

/// A desk and its two seats.
#[derive(Drop)]
pub struct Pair {
    pub desk: Desk<MemKeeper>,
    pub one: Seat<MemKeeper>,
    pub two: Seat<MemKeeper>,
}

/// A desk with room for so many calls.
pub fn start_pair(alloc: Global, keeper: MemKeeper, room: u64) -> Result<Pair, Fail>
    requires { (0 < room) × (room < 1000) }
    ensures { IfOk result (λ pair. IsPair pair.desk pair.one pair.two) }
{
    match Desk::start(alloc, keeper, 2, room) {
        Ok(Started { desk, seats }) => {
            let (one, two) = two_of(&desk, seats);
            Ok(Pair { desk, one, two })
        }
        Err(_) => Err(Fail::from("the desk did not start")),
    }
}

fn two_of<K: Keeper>(desk: &Desk<K>, seats: Vec<Seat<K>>) -> (Seat<K>, Seat<K>)
    requires { (seats.items ≡ all_fresh desk.now) × (desk.now.seats ≡ 2) }
    ensures { IsPair desk.now result.0 result.1 }
{
    let _ = desk;
    let mut rest = seats;
    let last = rest.pop();
    let first = rest.pop();
    rest.destroy_empty();
    match (first, last) {
        (Some(one), Some(two)) => (one, two),
        _ => unreachable!(),
    }
}

/// The second seat takes a note of the first in.
pub fn pass_note(
    desk: &Desk<MemKeeper>,
    alloc: Global,
    from: &mut Seat<MemKeeper>,
    to: &mut Seat<MemKeeper>,
) -> Result<(), OutOfMemory>
    requires { IsSeatOf desk.now from.old × IsSeatOf desk.now to.old }
    ensures { SameSeat from.old from.new × SameSeat to.old to.new }
{
    let note = desk.note(alloc, from)?;
    desk.meet(to, note);
    Ok(())
}

/// Closes the desk. How many calls its history has, where it closes.
#[tactic(auto, using(crate::proofs::PairLemmas::pair_seats))]
pub fn close_pair(alloc: Global, pair: Pair) -> Option<usize>
    requires { IsPair pair.desk pair.one pair.two }
{
    let Pair { desk, one, two } = pair;
    let seats = row_of(alloc, one, two).ok()?;
    match desk.close(alloc, seats) {
        Ok(closed) => Some(closed.history.len()),
        Err(_) => None,
    }
}

// Both seats in a row.
fn row_of<K: Keeper>(alloc: Global, one: Seat<K>, two: Seat<K>) -> Result<Vec<Seat<K>>, AllocError>
    ensures { IfOk result (λ seats. seats.items ≡ one ∷ two ∷ []) }
{
    let mut seats = Vec::new(alloc);
    seats.push(one)?;
    seats.push(two)?;
    Ok(seats)
}
