// Serving a door of the receiver's desk.
ghost use Rattle.std.specs.Prelude.{◌≡◌};
ghost use Rattle.bp_doors.specs.Serving.{Knocks};
ghost use Rattle.bp_receiver.specs.EventServing.{DeliversDoor, desk_view};

use crate::delivery::Delivery;
use crate::handler::EventHandler;
use bp_doors::serve;
use bp_keep::Keeper;
use bp_outside::Door;
use bp_web::RouteTable;

/// Serves a door to receivers and reviewers: the request of each peer is read, the event that it asks
/// for made, its answer sent (RFC 9112), and the exchange hung up. Answers how many events were made.
/// It returns only where an accept found the door closed, behind which none is tried, or so many were,
/// and may wait for ever for a peer. A refusal of the door ends its exchange alone; an event that was
/// made stays made. The keeper is asked to commit by calls alone: at a grant and a want it stays as it
/// is.
pub fn serve_receiver<K: Keeper, D: Door>(
    delivery: &mut Delivery,
    keeper: &mut K,
    door: &mut D,
    connections: u32,
) -> u32
    ensures served { DeliversDoor connections (desk_view delivery.old (K.shows keeper.old))
        (D.shows door.old) result (desk_view delivery.new (K.shows keeper.new)) (D.shows door.new) }
    ensures knocks { Knocks D.shows connections door.old door.new }
{
    let alloc = delivery.alloc;
    // Where there is no memory for the routes, each request is read by some of its own.
    let handler = EventHandler {
        routes: RouteTable::new(alloc).ok(),
    };
    serve(alloc, &handler, delivery, keeper, door, connections)
}
