// Rows as a keeper keeps them: a key of three numbers, and a body.
use crate::byte_strings::Bytes;

/// A kept row: its key (kind, k1, k2) and its body.
#[derive(Clone, Debug, PartialEq, Eq, Drop)]
pub struct Row {
    pub kind: u8,
    pub k1: u32,
    pub k2: u32,
    pub body: Bytes,
}

/// A change of one kept row: the body that its key is to have, or None to remove it.
#[derive(Clone, Debug, PartialEq, Eq, Drop)]
pub struct Put {
    pub kind: u8,
    pub k1: u32,
    pub k2: u32,
    pub body: Option<Bytes>,
}
