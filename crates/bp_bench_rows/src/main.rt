// Commits and loads rows over a database as often as its words say, and prints a checksum of what
// came out, for a script that times the built program from outside (bench/keep_sql.sh). Jobs stand
// beside one another that come to the same by two ways: by the keeper, and by its statements alone.
//
//     bp_bench_rows keeper|statements open FILE TIMES
//     bp_bench_rows keeper|statements load FILE TIMES
//     bp_bench_rows keeper|statements commit FILE MIX PUTS TIMES
//     bp_bench_rows keeper|statements close FILE MIX PUTS TIMES
#![tactic(auto)]

mod database;
mod kept;
mod puts;
mod statements;

use anyhow::{Result, bail};
use std::env;

fn main(rt: HostRuntime) -> Result<()> {
    let words: Vec<String> = env::args(&rt)?.collect(rt.alloc())?;
    let sum = run(&rt, words.as_slice())?;
    println!(rt; "{sum}")?;
    Ok(())
}

// What the words ask for; the checksum of what came out.
fn run(rt: &HostRuntime, words: &[String]) -> Result<u64> {
    let [_program, way, operands @ ..] = words else {
        bail!("no way was named");
    };
    match way.as_str() {
        "keeper" => database::run(rt, "keeper", operands),
        "statements" => database::run(rt, "statements", operands),
        other => bail!("no way {other}"),
    }
}
