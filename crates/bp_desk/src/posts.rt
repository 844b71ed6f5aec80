// Seats and the doors that they serve, paired by their places.
ghost use Rattle.std.specs.Prelude.{◌≡◌, ◌+◌, ◌≤◌, [], length, vec_capacity};
ghost use Rattle.bp_desk.specs.Matters.{ArePaired};

use crate::doors::{Post, PostOf};
use crate::seat::Seat;
use bp_keep::Keeper;

// Posts, and what is left of the rows that they were made of.
#[derive(Drop)]
pub(crate) struct Hall<K: Keeper, D> {
    pub(crate) posts: Vec<Post<K, D>>,
    // Empty, with room for the seats.
    pub(crate) seats: Vec<Seat<K>>,
    // The other doors, the last first, with room for those of the posts.
    pub(crate) behind: Vec<D>,
}

// Pairs the seats with the first doors, by their places.
pub(crate) fn paired<K: Keeper, D>(
    posts: Vec<Post<K, D>>,
    seats: Vec<Seat<K>>,
    doors: Vec<D>,
) -> Hall<K, D>
    requires empty { posts.items ≡ [] }
    requires room { length seats.items ≤ vec_capacity posts }
    requires doors { length seats.items ≤ length doors.items }
    ensures paired { ArePaired seats.items doors.items result.posts.items result.behind.items }
    ensures empty { result.seats.items ≡ [] }
    ensures seat_room { length result.posts.items ≤ vec_capacity result.seats }
    ensures door_room { length result.posts.items + length result.behind.items
        ≤ vec_capacity result.behind }
{
    let mut posts = posts;
    let mut seats = seats;
    let mut behind = doors;
    seats.as_mut_slice().reverse();
    behind.as_mut_slice().reverse();
    while let Some(seat) = seats.pop() {
        let Some(door) = behind.pop() else {
            unreachable!()
        };
        posts.push_reserved(PostOf { seat, door });
    }
    Hall {
        posts,
        seats,
        behind,
    }
}

// The seats and all doors, by their places.
pub(crate) fn parted<K: Keeper, D>(hall: Hall<K, D>) -> (Vec<Seat<K>>, Vec<D>)
    requires empty { hall.seats.items ≡ [] }
    requires seat_room { length hall.posts.items ≤ vec_capacity hall.seats }
    requires door_room { length hall.posts.items + length hall.behind.items
        ≤ vec_capacity hall.behind }
    ensures { ArePaired result.0.items result.1.items hall.posts.items hall.behind.items }
{
    let Hall {
        posts,
        seats,
        behind,
    } = hall;
    let mut posts = posts;
    let mut seats = seats;
    let mut doors = behind;
    while let Some(post) = posts.pop() {
        let PostOf { seat, door } = post;
        seats.push_reserved(seat);
        doors.push_reserved(door);
    }
    posts.destroy_empty();
    seats.as_mut_slice().reverse();
    doors.as_mut_slice().reverse();
    (seats, doors)
}
