//! What stands of a freeze, wherever it was made in a history of calls: its production is kept, and the
//! volume of that production stays. The law is the contract of `freezes_stand`, which cites `volume_of`
//! of bp_press over the matters of a history, `run_calls` of bp_book; specs/Frozen.antt says what it
//! says of one freeze.
#![tactic(auto)]

mod laws;

pub use laws::freezes_stand;
