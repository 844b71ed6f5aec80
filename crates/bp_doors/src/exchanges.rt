// One exchange at a door.
ghost use Rattle.std.specs.Prelude.{◌≡◌, true};
ghost use Rattle.bp_doors.specs.Exchanges.{Talks};

use crate::handlers::Handler;
use crate::texts::{no_memory, text_of};
use bp_outside::{Door, InputStop, read_input, send};
use std::alloc::Global;

// Reads a request and sends its answer, and tells whether something was made.
pub(crate) fn converse<S, T, H: Handler<S, T>, D: Door>(
    alloc: Global,
    handler: &H,
    at: &mut S,
    by: &mut T,
    door: &mut D,
) -> bool
    requires keeps { H.Keeps handler.now (at.old, by.old) }
    requires under_way { (D.shows door.old).under_way ≡ true }
    ensures talks { Talks (H.Deals handler.now) (at.old, by.old) (D.shows door.old) result
        (at.new, by.new) (D.shows door.new) }
    ensures keeps { H.Keeps handler.now (at.new, by.new) }
{
    match read_input(alloc, door, handler) {
        Ok(bytes) => {
            let answered = handler.answer(alloc, at, by, bytes.as_slice());
            let _ = send(alloc, door, text_of(&answered.text));
            answered.made
        }
        Err(InputStop::LackedMemory) => {
            let _ = send(alloc, door, no_memory());
            false
        }
        Err(InputStop::Refused(_)) => false,
    }
}
