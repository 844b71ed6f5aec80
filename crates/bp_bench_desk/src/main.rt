// Serves desks over a matter in memory, or makes calls there, as often as its words say, and prints
// how many calls were made, for scripts that time the built program from outside (bench/serve.sh,
// serve_desks.sh, calls.sh). The matter has so many documents of one page: that of a TIFF file, or
// one of 8 by 1 pixels where FILE is `-`.
//
//     bp_bench_desk serve FILE DOCS DESKS CONNECTIONS
//     bp_bench_desk calls FILE DOCS COUNT
#![tactic(auto)]

mod desks;
mod files;
mod rows;

use anyhow::{Result, bail};
use std::env;
use std::sync::Wait;
use std::thread::Threads;

fn main(rt: HostRuntime) -> Result<()> {
    let words: Vec<String> = env::args(&rt)?.collect(rt.alloc())?;
    let count = run(&rt, &rt, words.as_slice())?;
    println!(rt; "{count}")?;
    Ok(())
}

// What the words ask for; how many calls were made.
fn run<T: Threads + Wait + Sync>(rt: &HostRuntime, threads: &T, words: &[String]) -> Result<u64> {
    let [_program, job, operands @ ..] = words else {
        bail!("no job was named");
    };
    match job.as_str() {
        "serve" => desks::serve(rt, threads, operands),
        "calls" => desks::calls(rt, operands),
        other => bail!("no job {other}"),
    }
}
