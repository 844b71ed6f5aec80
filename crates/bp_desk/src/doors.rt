// Serving doors at the seats of a desk.
ghost use Rattle.std.specs.Prelude.{◌≡◌, ℕ, ◌<◌, All, length, slice_index_or};
ghost use Rattle.bp_desk.specs.Doors.{ServesFor};
ghost use Rattle.bp_desk.specs.Seats.{IsSeatOf};

use crate::desk::Desk;
use crate::handler::SeatHandler;
use crate::seat::{Seat, SeatOf};
use bp_book::Book;
use bp_doors::serve;
use bp_keep::Keeper;
use bp_outside::Door;
use bp_web::RouteTable;
use std::alloc::Global;
use std::snapshot::Snapshot;
use std::sync::Wait;
use std::thread::{Threads, for_each_mut};

/// A seat of a desk whose book is a B, with the door that it serves.
#[derive(Drop)]
pub struct PostOf<B, D> {
    pub seat: SeatOf<B>,
    pub door: D,
}

/// A post of a desk over a keeper K.
pub type Post<K, D> = PostOf<Book<K>, D>;

/// Serves a door at a seat: the request of each peer is read and answered (RFC 9112), and the exchange
/// hung up. It returns only where an accept found the door closed, behind which none is tried, or so
/// many were, and may wait for ever for a peer or for the turn. A refusal of the door ends its exchange
/// alone; a call that was made stands in the history.
pub fn serve_door<K: Keeper, D: Door, R: Wait>(
    desk: &Desk<K>,
    rt: &R,
    alloc: Global,
    seat: &mut Seat<K>,
    door: &mut D,
    connections: u32,
)
    requires { IsSeatOf desk.now seat.old }
    ensures { ServesFor D.shows connections seat.old door.old seat.new door.new }
{
    let start = Snapshot::of(seat);
    // Where there is no memory for the routes, each request is read by some of its own.
    let routes = RouteTable::new(alloc).ok();
    let handler = SeatHandler {
        desk,
        rt,
        start,
        routes,
    };
    let mut nothing = ();
    let _calls = serve(alloc, &handler, seat, &mut nothing, door, connections);
    seat.know_own();
}

/// Serves the door of each post at its seat, each in a thread of its own where one can be made.
pub fn serve_all<K: Keeper + Send, D: Door + Send, R: Threads + Wait + Sync>(
    desk: &Desk<K>,
    rt: &R,
    alloc: Global,
    posts: &mut Vec<Post<K, D>>,
    connections: u32,
)
    requires { All (λ post. IsSeatOf desk.now post.seat) posts.old.items }
    ensures len { length posts.new.items ≡ length posts.old.items }
    ensures each { (k : ℕ) (d : _) → k < length posts.old.items
        → let before = slice_index_or posts.old.items k d in
        let after = slice_index_or posts.new.items k d in
        ServesFor D.shows connections before.seat before.door after.seat after.door }
{
    let threads = posts.len();
    if threads == 0 {
        return;
    }
    for_each_mut(
        rt,
        posts.as_mut_slice(),
        threads,
        &|_: usize, post: &mut Post<K, D>|
            requires { IsSeatOf desk.now post.old.seat }
            ensures { ServesFor D.shows connections post.old.seat post.old.door post.new.seat
                post.new.door }
        { serve_door(desk, rt, alloc, &mut post.seat, &mut post.door, connections) },
    );
}
