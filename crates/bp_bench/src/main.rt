// Runs library calls as often as its words say, and prints a checksum of what came out, for scripts
// that time the built program from outside (bench/).
//
//     bp_bench dat ROWS TIMES
//     bp_bench opt LINES TIMES
//     bp_bench words ROWS TIMES
//     bp_bench strips FILE PAGES TIMES
//     bp_bench read FILE TIMES
//     bp_bench judge FILE TIMES
#![tactic(auto)]

mod dat;
mod files;
mod opt;
mod strips;
mod sums;
mod words;

use anyhow::{Result, bail};
use std::env;

fn main(rt: HostRuntime) -> Result<()> {
    let words: Vec<String> = env::args(&rt)?.collect(rt.alloc())?;
    let sum = run(&rt, words.as_slice())?;
    println!(rt; "{sum}")?;
    Ok(())
}

// What the words ask for; the checksum of what came out.
fn run(rt: &HostRuntime, words: &[String]) -> Result<u64> {
    let [_program, job, operands @ ..] = words else {
        bail!("no job was named");
    };
    match job.as_str() {
        "dat" => dat::run(rt.alloc(), operands),
        "opt" => opt::run(rt.alloc(), operands),
        "words" => words::run(rt.alloc(), operands),
        "strips" => strips::run(rt, operands),
        "read" => files::read(rt, operands),
        "judge" => files::judge(rt, operands),
        other => bail!("no job {other}"),
    }
}
