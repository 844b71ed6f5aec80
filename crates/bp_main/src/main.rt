//! The program: one command of the production press. It reads files below the current folder,
//! keeps the rows of a matter in the database `matter.db`, writes files below the folder `out`,
//! serves desks at ports of this machine, and prints its line. All that it does is `program` of
//! bp_cli.
#![tactic(auto)]

use bp_cli::doors::doors_of;
use bp_cli::program::{hold_descriptors, program};
use sqlite::Wary;
use std::env;
use std::process::ExitCode;

fn main(rt: HostRuntime) -> ExitCode {
    let _held = hold_descriptors(&rt);
    let doors = doors_of(&rt, rt.alloc());
    let left = program(&rt, &rt, Wary, doors, env::args(&rt));
    ExitCode::from(left.status)
}
