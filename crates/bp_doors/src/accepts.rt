// Serving a door, accept by accept.
ghost use Rattle.std.specs.Prelude.{◌≡◌, ◌+◌, ◌<◌, ◌^◌, IfSome, None, false, true};
ghost use Rattle.bp_doors.specs.Serving.{Knocks, Serves, ServesDoor, Tries, count_if, made_in};

use crate::exchanges::converse;
use crate::handlers::Handler;
use bp_outside::Door;
use std::alloc::Global;

/// Serves a door by a handler: the request of each peer is read and answered (RFC 9112), and the
/// exchange hung up. Answers in how many exchanges something was made. It returns only where an
/// accept found the door closed, behind which none is tried, or so many were, and may wait for ever
/// for a peer. A refusal of the door ends its exchange alone; what was made stays made. At its end the
/// door is left.
pub fn serve<S, T, H: Handler<S, T>, D: Door>(
    alloc: Global,
    handler: &H,
    at: &mut S,
    by: &mut T,
    door: &mut D,
    connections: u32,
) -> u32
    requires { H.Keeps handler.now (at.old, by.old) }
    ensures served { ServesDoor (H.Deals handler.now) connections (at.old, by.old)
        (D.shows door.old) result (at.new, by.new) (D.shows door.new) }
    ensures knocks { Knocks D.shows connections door.old door.new }
    ensures keeps { H.Keeps handler.now (at.new, by.new) }
{
    let count = serve_peers(alloc, handler, at, by, door, connections);
    door.leave();
    count
}

// The same, and the door isn't left.
fn serve_peers<S, T, H: Handler<S, T>, D: Door>(
    alloc: Global,
    handler: &H,
    at: &mut S,
    by: &mut T,
    door: &mut D,
    connections: u32,
) -> u32
    requires { H.Keeps handler.now (at.old, by.old) }
    ensures served { ServesDoor (H.Deals handler.now) connections (at.old, by.old)
        (D.shows door.old) result (at.new, by.new) (D.shows door.new) }
    ensures tries { Tries D.shows connections door.old door.new }
    ensures keeps { H.Keeps handler.now (at.new, by.new) }
{
    let mut tried = 0;
    let mut count = 0;
    'serving: while tried < connections {
        tried += 1;
        match serve_next(alloc, handler, at, by, door) {
            Some(made) => count = counted(count, made),
            None => return count,
        }
    }
    count
}

// Tries one accept, and serves the exchange that it begins: whether something was made. None where
// it found the door closed.
fn serve_next<S, T, H: Handler<S, T>, D: Door>(
    alloc: Global,
    handler: &H,
    at: &mut S,
    by: &mut T,
    door: &mut D,
) -> Option<bool>
    requires { H.Keeps handler.now (at.old, by.old) }
    ensures serves { Serves (H.Deals handler.now) 1 (at.old, by.old) (D.shows door.old)
        (made_in result) (at.new, by.new) (D.shows door.new) }
    ensures keeps { H.Keeps handler.now (at.new, by.new) }
    ensures closed { result ≡ None → (D.shows door.new).closed ≡ true }
    ensures opened { IfSome result (λ _. (D.shows door.new).closed ≡ false) }
{
    match door.accept(alloc) {
        Ok(true) => {
            let made = converse(alloc, handler, at, by, door);
            door.hang_up();
            Some(made)
        }
        Ok(false) => None,
        Err(_) => Some(false),
    }
}

// A count with one more, if it was made.
fn counted(count: u32, made: bool) -> u32
    requires { count + 1 < 2 ^ 32 }
    ensures { result ≡ count + count_if made }
{
    if made { count + 1 } else { count }
}
