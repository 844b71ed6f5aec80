//! The freeze of the decisions: which documents a request produces (FRCP 34), under which label
//! numbers, and the privilege log of what is held back (FRCP 26(b)(5)(A)).
//!
//! `freeze` gives the production of a request, or the first rule that it breaks: `freeze_of` of
//! specs/Freezing.antt. `log_text` gives the log of a production: `log_of` of specs/Log.antt.
//! `same_freeze` says which matters a freeze can't tell apart: specs/Alike.antt.
#![tactic(auto)]

mod documents;
mod families;
mod freezing;
mod items;
mod laws;
mod log;
mod loggable;
mod marks;
mod requests;

pub use freezing::freeze;
pub use laws::{
    a_freeze_keeps, a_repeat_is_stored, families_stand_together, found_is_kept, frozen_is_valid,
    numbers_are_taken_once, same_freeze,
};
pub use log::log_text;
pub use loggable::can_be_logged;
