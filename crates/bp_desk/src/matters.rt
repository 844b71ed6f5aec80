// Serving a matter: a desk over the rows of a keeper, from its start to its end.
ghost use Rattle.std.specs.Prelude.{◌≡◌, ◌+◌, ◌<◌, ◌≤◌, [], length, map, vec_capacity, IfErr, IfOk};
ghost use Rattle.bp_keep.specs.Keeper.{KeeperView};
ghost use Rattle.bp_book.specs.Books.{Opens};
ghost use Rattle.bp_book.specs.declared.history.TheConstants.{MOST_CALLS};
ghost use Rattle.bp_desk.specs.Matters.{ServesMatter, ServesNone, ServesPosts, post_seat};
ghost use Rattle.bp_desk.specs.Seats.{AreSeats, SeatsClose, all_fresh};

use crate::desk::{Desk, MOST_SEATS};
use crate::doors::{Post, serve_all};
use crate::posts::{Hall, paired, parted};
use crate::seat::Seat;
use crate::starting::Started;
use bp_book::{Closed, MOST_CALLS, NotStarted};
use bp_keep::Keeper;
use bp_outside::Door;
use bp_rules::MatterRefusal;
use std::alloc::Global;
use std::sync::Wait;
use std::thread::Threads;

/// What serving a matter left: what its desk was closed with, and the doors.
#[derive(Drop)]
pub struct MatterServed<K, D> {
    pub closed: Closed<K>,
    pub doors: Vec<D>,
}

/// Why nobody was served, with the keeper and the doors.
#[derive(Drop)]
pub struct NobodyServed<K, D> {
    pub refused: NotStarted<K>,
    pub doors: Vec<D>,
}

/// Serves the matter that the keeper has the rows of at the first doors, each at the seat of its place,
/// from 1: a desk of so many seats is started, `serve_all` serves their doors, each for so many
/// connections, and the desk is closed. It is refused as `Desk::start` is.
pub fn serve_matter<K: Keeper + Send, D: Door + Send, R: Threads + Wait + Sync>(
    rt: &R,
    alloc: Global,
    keeper: K,
    doors: Vec<D>,
    desks: u32,
    connections: u32,
) -> Result<MatterServed<K, D>, NobodyServed<K, D>>
    requires desks { (0 < desks) × (desks ≤ MOST_SEATS) }
    requires doors { desks ≤ length doors.items }
    ensures ok { IfOk result (λ served. ServesMatter D.shows desks connections (K.shows keeper)
        doors.items served.closed.history served.closed.tables.matter
        (K.shows served.closed.keeper) served.doors.items) }
    ensures err { IfErr result (λ nobody. ServesNone (K.shows keeper) nobody.refused.why
        (K.shows nobody.refused.keeper)) }
    ensures doors { IfErr result (λ nobody. nobody.doors ≡ doors) }
{
    let Ok(posts) = Vec::with_capacity(alloc, desks as usize) else {
        let why = MatterRefusal::OutOfMemory;
        let refused = NotStarted { keeper, why };
        return Err(NobodyServed { refused, doors });
    };
    match Desk::start(alloc, keeper, desks, MOST_CALLS) {
        Ok(started) => Ok(serve_started(rt, alloc, started, posts, doors, connections)),
        Err(refused) => {
            posts.destroy_empty();
            Err(NobodyServed { refused, doors })
        }
    }
}

// Serves the first doors at all seats of a desk that started, and closes it.
fn serve_started<K: Keeper + Send, D: Door + Send, R: Threads + Wait + Sync>(
    rt: &R,
    alloc: Global,
    started: Started<K>,
    posts: Vec<Post<K, D>>,
    doors: Vec<D>,
    connections: u32,
) -> MatterServed<K, D>
    requires some { 0 < started.desk.seats }
    requires seats { started.seats.items ≡ all_fresh started.desk }
    requires posts { (posts.items ≡ []) × (started.desk.seats ≤ vec_capacity posts) }
    requires doors { started.desk.seats ≤ length doors.items }
    ensures { (before : KeeperView) → Opens before MOST_CALLS started.desk.book
        → ServesMatter D.shows started.desk.seats connections before doors.items
        result.closed.history result.closed.tables.matter (K.shows result.closed.keeper)
        result.doors.items }
{
    let Started { desk, seats } = started;
    let hall = paired(posts, seats, doors);
    let (seats, doors) = serve_hall(&desk, rt, alloc, hall, connections);
    let closed = closed_of(desk, alloc, seats);
    MatterServed { closed, doors }
}

// Serves the doors of the posts.
fn serve_hall<K: Keeper + Send, D: Door + Send, R: Threads + Wait + Sync>(
    desk: &Desk<K>,
    rt: &R,
    alloc: Global,
    hall: Hall<K, D>,
    connections: u32,
) -> (Vec<Seat<K>>, Vec<D>)
    requires seats { all_fresh desk.now ≡ map post_seat hall.posts.items }
    requires empty { hall.seats.items ≡ [] }
    requires seat_room { length hall.posts.items ≤ vec_capacity hall.seats }
    requires door_room { length hall.posts.items + length hall.behind.items
        ≤ vec_capacity hall.behind }
    ensures { ServesPosts D.shows connections hall.posts.items hall.behind.items result.0.items
        result.1.items }
{
    let mut hall = hall;
    serve_all(desk, rt, alloc, &mut hall.posts, connections);
    parted(hall)
}

// What a desk leaves.
fn closed_of<K: Keeper>(desk: Desk<K>, alloc: Global, seats: Vec<Seat<K>>) -> Closed<K>
    requires { AreSeats desk seats.items }
    ensures { SeatsClose desk seats.items result.history result.tables.matter
        (K.shows result.keeper) }
{
    match desk.close(alloc, seats) {
        Ok(closed) => closed,
        Err(_) => unreachable!(),
    }
}
