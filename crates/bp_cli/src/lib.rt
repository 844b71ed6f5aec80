//! The commands of the production press. A command reads files of a source, keeps the rows of a
//! matter in a keeper, writes files to a folder, and prints its line. Begin at `run` of the module
//! `run`, whose contract promises `Runs` of specs/Runs.antt; `program` of the module `program`
//! carries it out over the system, and is what bp_main calls.
#![tactic(auto)]

mod arguments;
mod burn;
mod check;
mod claw;
mod commands;
mod deliver;
mod demo;
pub mod doors;
mod import;
mod init;
mod operands;
mod press;
mod printing;
mod produce;
pub mod program;
pub mod run;
mod serve;
mod statuses;
mod stops;
mod volumes;
mod words;
