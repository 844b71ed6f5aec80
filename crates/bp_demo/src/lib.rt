//! The matter of `demo`, for a trial without anybody's papers: pages, families and calls that are drawn
//! from a seed.
//!
//! `demo_asked` gives what a demo asks of a new matter, a batch and calls, `demo_tables` the tables
//! after all of it, and `demo_request` what is frozen of them. Their contracts cite `demo_asked` of
//! specs/Asked.antt, `demo_matter` of specs/Demo.antt and `demo_request` of specs/Frozen.antt. By
//! `demo_law` none of these steps breaks a rule, and the freeze one alone: that no document is
//! responsive.
#![tactic(auto)]

mod asked;
mod batch;
mod calls;
mod documents;
mod drawn;
mod draws;
mod inked;
mod laws;
mod pages;
mod plain_texts;
mod request;
mod tables;

pub use asked::{Asked, demo_asked};
pub use batch::digest_of;
pub use calls::KeyedCall;
pub use documents::MOST_PAGES;
pub use laws::demo_law;
pub use request::demo_request;
pub use tables::{demo_tables, make};
