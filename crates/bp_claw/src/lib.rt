//! Documents claimed back after they were produced (FRCP 26(b)(5)(B)). `read_notice` reads the notice
//! that names them, and `replace` writes the replacement of the whole production to a folder: the same
//! labels, the named documents as slip sheets, every other page and text as it was.
//!
//! The contracts cite `notice_of` of specs/NoticeFiles.antt, `replacement_of` of specs/Replacement.antt,
//! `replace_rule` of specs/Refusing.antt and `AgreeBut` of specs/AgreeBut.antt: two matters that agree
//! but of the named documents have the same replacement, to the byte.
#![tactic(auto)]

mod notice_files;
mod notices;
mod refusals;
mod refusing;
mod renewing;
mod replacing;

pub use notice_files::read_notice;
pub use notices::{Claim, Notice};
pub use refusals::ClawRefusal;
pub use replacing::replace;
