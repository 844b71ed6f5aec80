//! The desk: seats that share the book of one matter, and the doors that calls come to them through. Up
//! to sixteen serve at once, on threads of their own, and what they did is one history, each call once.
//!
//! `Desk::start` first, which deals the seats, then `Desk::call` at a seat, or `serve_all`, which serves
//! the doors of posts, and `Desk::close`; `serve_matter` does all of it for a row of doors. The rule of
//! the table that the seats share is `Ruled` of specs/Turns.antt, with its nine kinds of step; what a
//! call tells is `Calls` of specs/Seats.antt; what serving a door comes to is `ServesCallDoor` of
//! specs/Serving.antt, whose heart is `Served` of specs/Served.antt.
#![tactic(auto)]

mod closing;
mod desk;
mod doors;
mod handler;
pub mod laws;
mod matters;
mod notes;
mod posts;
mod replies;
mod seat;
mod starting;
mod threads;
mod turns;
mod views;

pub use closing::NotClosed;
pub use desk::{Desk, DeskOf, MOST_SEATS};
pub use doors::{Post, PostOf, serve_all, serve_door};
pub use matters::{MatterServed, NobodyServed, serve_matter};
pub use seat::{Note, NoteOf, Seat, SeatOf};
pub use starting::Started;
pub use threads::{desk_is_shared, note_goes, post_goes, seat_goes};
pub use turns::Turns;
pub use views::{Began, KeeperBegan, Opening, Peer, View};
