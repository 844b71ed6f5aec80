// The calls that were made, in order.
use bp_core::ListOf;
use bp_matter::Call;

/// The most calls that a history has room for.
pub const MOST_CALLS: u64 = 1_048_576;

/// A call that was made: at which seat, from 1, and with the SHA-256 of which key.
#[derive(Debug, Drop)]
pub struct Made {
    pub seat: u32,
    pub key: [u8; 32],
    pub call: Call,
}

pub type History = ListOf<Made>;
