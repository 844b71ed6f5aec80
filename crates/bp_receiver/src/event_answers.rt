// What answers the events of the receiver's desk.
ghost use Rattle.std.specs.Prelude.{◌≡◌, IfOk, Result};
ghost use Rattle.bp_doors.specs.Exchanges.{text_of};
ghost use Rattle.bp_receiver.specs.EventServing.{AnswersEvent, ReadsEvent, desk_view, is_made, text_for};

use crate::delivery::Delivery;
use crate::events::{Event, Given};
use crate::replies::given_bytes;
use crate::requests::{read_event, read_event_by};
use crate::steps::deliver_step;
use bp_core::{Bytes, OutOfMemory};
use bp_doors::{Answered, refusal_bytes};
use bp_keep::Keeper;
use bp_rules::MatterRefusal;
use bp_web::{Answer, RouteTable, WebRefusal, reply_bytes};
use std::alloc::Global;

// What these bytes ask for, by these routes; where there are none, by some that are made for it.
pub(crate) fn read_by(
    alloc: Global,
    routes: Option<&RouteTable>,
    bytes: &[u8],
) -> Result<Event, WebRefusal>
    ensures { ReadsEvent bytes.now result }
{
    match routes {
        Some(routes) => read_event_by(alloc, routes, bytes),
        None => read_event(alloc, bytes),
    }
}

// What answers what was read.
pub(crate) fn answer_read<K: Keeper>(
    alloc: Global,
    delivery: &mut Delivery,
    keeper: &mut K,
    read: &Result<Event, WebRefusal>,
) -> Answered
    ensures { AnswersEvent (desk_view delivery.old (K.shows keeper.old)) read.now
        (text_of result.text) result.made (desk_view delivery.new (K.shows keeper.new)) }
{
    match read {
        Ok(event) => answer_event(alloc, delivery, keeper, event),
        Err(refusal) => Answered {
            text: refusal_bytes(alloc, *refusal),
            made: false,
        },
    }
}

// What answers an event.
fn answer_event<K: Keeper>(
    alloc: Global,
    delivery: &mut Delivery,
    keeper: &mut K,
    event: &Event,
) -> Answered
    ensures { AnswersEvent (desk_view delivery.old (K.shows keeper.old)) (Result.Ok event.now)
        (text_of result.text) result.made (desk_view delivery.new (K.shows keeper.new)) }
{
    let _before = keeper.faults();
    let given = deliver_step(delivery, keeper, event);
    Answered {
        text: text_for(alloc, &given),
        made: is_made(&given),
    }
}

// The text for what was given, or for why nothing was.
fn text_for(alloc: Global, given: &Result<Given, MatterRefusal>) -> Result<Bytes, OutOfMemory>
    ensures { IfOk result (λ text. text ≡ text_for given.now) }
{
    match given {
        Ok(given) => given_bytes(alloc, given),
        Err(MatterRefusal::Rule(rule)) => reply_bytes(alloc, &Answer::Rule(*rule)),
        Err(MatterRefusal::KeeperFault) => reply_bytes(alloc, &Answer::KeeperFault),
        Err(MatterRefusal::OutOfMemory) => Err(OutOfMemory),
    }
}

// Whether the event was made.
fn is_made(given: &Result<Given, MatterRefusal>) -> bool
    ensures { result ≡ is_made given.now }
{
    matches!(given, Ok(_) | Err(MatterRefusal::Rule(_)))
}
