// What threads may share, and what goes from one to another.
use crate::desk::Desk;
use crate::doors::Post;
use crate::seat::{Note, Seat};
use bp_keep::Keeper;
use bp_outside::Door;

// Each thread may have it.
fn may_go<T: Send>(_value: &T) {}

// All threads may see it.
fn may_be_shared<T: Send + Sync>(_value: &T) {}

/// A desk may be shared by threads.
pub fn desk_is_shared<K: Keeper + Send>(desk: &Desk<K>) {
    may_be_shared(desk);
}

/// A seat may go from thread to thread.
pub fn seat_goes<K: Keeper + Send>(seat: &Seat<K>) {
    may_go(seat);
}

/// A note may go from thread to thread.
pub fn note_goes<K: Keeper + Send>(note: &Note<K>) {
    may_go(note);
}

/// So may a post, with its door.
pub fn post_goes<K: Keeper + Send, D: Door + Send>(post: &Post<K, D>) {
    may_go(post);
}
