// From the bytes of a request to the text of its reply.
ghost use Rattle.std.specs.Prelude.{◌≡◌, Result};
ghost use Rattle.bp_doors.specs.Exchanges.{text_of};
ghost use Rattle.bp_desk.specs.Doors.{history_at};
ghost use Rattle.bp_desk.specs.Exchanges.{AnswersRead, ReadsAs, answer_from};
ghost use Rattle.bp_desk.specs.Seats.{IsSeatOf, SameSeat};

use crate::desk::Desk;
use crate::seat::Seat;
use bp_book::{DeskRefusal, is_made};
use bp_doors::{Answered, refusal_bytes};
use bp_keep::Keeper;
use bp_matter::Reply;
use bp_web::{Answer, Asked, RouteTable, WebRefusal, read_request, read_request_by, reply_bytes};
use std::alloc::Global;
use std::sync::Wait;

// What these bytes ask for, by these routes; where there are none, by some that are made for it.
pub(crate) fn read_by(
    alloc: Global,
    routes: Option<&RouteTable>,
    bytes: &[u8],
) -> Result<Asked, WebRefusal>
    ensures { ReadsAs bytes.now result }
{
    match routes {
        Some(routes) => read_request_by(alloc, routes, bytes),
        None => read_request(alloc, bytes),
    }
}

// What answers what was read, at a seat.
pub(crate) fn answer_read<K: Keeper, R: Wait>(
    desk: &Desk<K>,
    rt: &R,
    alloc: Global,
    seat: &mut Seat<K>,
    request: &Result<Asked, WebRefusal>,
) -> Answered
    requires { IsSeatOf desk.now seat.old }
    ensures same { SameSeat seat.old seat.new }
    ensures answers { AnswersRead seat.old.view.number (history_at seat.old.view) request.now
        (text_of result.text) (history_at seat.new.view) }
{
    match request {
        Ok(asked) => answer_asked(desk, rt, alloc, seat, asked),
        Err(refusal) => Answered {
            text: refusal_bytes(alloc, *refusal),
            made: false,
        },
    }
}

// What answers a call.
fn answer_asked<K: Keeper, R: Wait>(
    desk: &Desk<K>,
    rt: &R,
    alloc: Global,
    seat: &mut Seat<K>,
    asked: &Asked,
) -> Answered
    requires { IsSeatOf desk.now seat.old }
    ensures same { SameSeat seat.old seat.new }
    ensures answers { AnswersRead seat.old.view.number (history_at seat.old.view)
        (Result.Ok asked.now) (text_of result.text) (history_at seat.new.view) }
{
    seat.know_own();
    let given = desk.call(rt, alloc, seat, &asked.key, &asked.call);
    let made = is_made(&given);
    let answer = answer_from(given);
    Answered {
        text: reply_bytes(alloc, &answer),
        made,
    }
}

fn answer_from(given: Result<Reply, DeskRefusal>) -> Answer
    ensures { result ≡ answer_from given }
{
    match given {
        Ok(reply) => Answer::Reply(reply),
        Err(DeskRefusal::Rule(rule)) => Answer::Rule(rule),
        Err(DeskRefusal::KeeperFault) => Answer::KeeperFault,
        Err(DeskRefusal::JournalFull { count }) => Answer::JournalFull(count),
        Err(DeskRefusal::OutOfMemory) => Answer::OutOfMemory,
    }
}
