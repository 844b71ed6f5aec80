//! HTTP/1.1 as bytes (RFC 9112): what one request asks for, and the reply to an answer.
//!
//! Whoever reads a connection calls `whole_length` or `enough` after each piece, then
//! `read_request`, or `read_request_by` with a `RouteTable` that serves for many, and sends what
//! `reply_bytes` gives. The contracts cite `HttpReads`, whose
//! `request_of` is the order of the refusals (specs/Requests.antt), and `reply_text`
//! (specs/Replies.antt).
//!
//! A crate with requests of its own reads them by the same parts: `heads`, `targets`, `members` and
//! `routes` of what comes, `messages` of what is sent.
#![tactic(auto)]

mod calls;
pub mod heads;
pub mod members;
pub mod messages;
mod numbers;
mod refusals;
mod replies;
mod requests;
mod router;
pub mod routes;
pub mod targets;
mod values;

pub use heads::HEAD_LIMIT;
pub use refusals::WebRefusal;
pub use replies::{Answer, NO_MEMORY, bytes_of_reply, reply_bytes};
pub use requests::{
    Asked, MAX_BODY, MAX_REQUEST, digest_of, enough, given_len, read_request, read_request_by,
    whole_length,
};
pub use router::RouteTable;
