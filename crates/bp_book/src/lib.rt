//! The book of a matter: calls to one history, each kept before it is answered.
//!
//! A `Book` has the tables of a matter, their keeper and the journal of the calls that were made:
//! `Book::start` first, then `Book::call`, and `Book::end`. What a call does is `BookCalls` of
//! specs/Books.antt; what the calls come to is `run_calls` of specs/Calls.antt.
#![tactic(auto)]

mod book;
mod history;
mod refusals;

pub use book::{Book, Closed, NotStarted, is_made};
pub use history::{History, MOST_CALLS, Made};
pub use refusals::DeskRefusal;
