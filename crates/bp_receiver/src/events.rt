// What comes to the desk, and what is given for it.
use crate::grants::GrantedList;
use bp_core::{Bytes, StaffNo, Text};
use bp_matter::{Call, Reply};

/// What a receiver wants.
#[derive(Debug, Drop)]
pub enum Wanted {
    /// The productions that are granted to it.
    List,
    /// The file of a path, of the production of an id.
    File { id: Text, path: Text },
}

/// What is asked of the desk; `key` is the SHA-256 of what the caller presents.
#[derive(Debug, Drop)]
pub enum Event {
    /// A call on the matter.
    Review {
        key: [u8; 32],
        call: Call,
    },
    /// The production of an id is granted to a receiver.
    Grant {
        key: [u8; 32],
        staff: StaffNo,
        id: Text,
    },
    /// A receiver wants something.
    Want {
        key: [u8; 32],
        wanted: Wanted,
    },
}

/// What is given for an event that breaks no rule.
#[derive(Debug, Drop)]
pub enum Given {
    /// The reply to a call.
    Review(Reply),
    /// The production is granted.
    Granted,
    /// The productions that are granted to who asks, in the order of the grants.
    Ids(GrantedList),
    /// The bytes of the file.
    File(Bytes),
}
