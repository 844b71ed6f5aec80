//! Looks: calls that tell what stands in the tables of a matter, and change nothing.
//!
//! `find` searches values and pages for terms: `find` of specs/Finding.antt. `laws` says that going on
//! from where each search stops gives every hit once, and what is left of a page once its hits are
//! covered. `see_states`, `see_values`, `see_staff` and `see_productions` tell what stands in the rows:
//! States.antt, Values.antt, Staff.antt and Productions.antt of specs/. `plan` tells what a freeze would
//! answer: `freeze_of` of bp_freeze.
#![tactic(auto)]

mod copies;
mod found;
mod hits;
pub mod laws;
mod matching;
mod no_such;
mod pieces;
mod plans;
mod produced;
mod productions;
mod shown;
mod staff;
mod states;
mod terms;
mod values;

pub use found::{ENOUGH_HITS, MAX_PARTS, find};
pub use plans::plan;
pub use productions::see_productions;
pub use staff::see_staff;
pub use states::{MAX_STATES, see_states};
pub use terms::{MAX_TERM, MAX_TERMS};
pub use values::see_values;
