//! The receiver's desk: productions granted to receiving parties, who list them and take their
//! files, beside the calls of reviewers.
//!
//! A `Delivery` has the tables of a matter and what is granted of them: `Delivery::over` first, then
//! `Delivery::grant` and `deliver_step`; the grants of a file are read by `read_grants`, and made by
//! `Delivery::with_grants`. What an event gives is `event_of` of specs/Events.antt, what
//! a list of events gives `run_of` there; what a receiver is given is `receive` of
//! specs/Receiving.antt. That it learns nothing else is `want_law` and `events_law`. A request's bytes
//! are read by `read_event` (`EventReads` of specs/EventRequests.antt), and `given_bytes` has the bytes
//! of a reply (`given_message` of specs/EventReplies.antt). `serve_receiver` serves a door; what that
//! comes to is `DeliversDoor` of specs/EventServing.antt, whose heart is `Delivered` of
//! specs/Delivered.antt.
#![tactic(auto)]

mod delivery;
mod event_answers;
mod events;
mod grant_files;
mod grants;
mod handler;
mod laws;
mod owed;
mod ready;
mod replies;
mod requests;
mod routes;
mod serving;
mod steps;
mod targets;
mod wants;

pub use delivery::Delivery;
pub use events::{Event, Given, Wanted};
pub use grant_files::read_grants;
pub use grants::{Grant, GrantList, GrantedList, GrantedRow, MAX_GRANTS};
pub use laws::{events_law, want_law};
pub use replies::given_bytes;
pub use requests::{event_enough, read_event, read_event_by};
pub use serving::serve_receiver;
pub use steps::deliver_step;
