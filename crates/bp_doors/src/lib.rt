//! Serving a door over HTTP, exchange by exchange, for whoever answers what comes.
//!
//! `serve` accepts peers one after another; of each it reads a request, has a `Handler` answer it, and
//! sends the text. What it comes to is `ServesDoor` of specs/Serving.antt: every new exchange of the
//! door dealt as the handler says (`Deals`), one after the other.
#![tactic(auto)]

mod accepts;
mod exchanges;
mod handlers;
mod texts;

pub use accepts::serve;
pub use handlers::{Answered, Handler};
pub use texts::refusal_bytes;
