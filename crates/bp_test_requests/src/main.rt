// Requests and replies, tried by cases: each line of the files that are named gives bytes or an
// answer, and says behind ` = ` what they are read as, or the reply's bytes. What is told otherwise
// is printed, and at the end how many lines were tried. The head of each module lists its kinds of
// lines.
#![tactic(auto)]

mod answers;
mod calls;
mod lines;
mod looks;
mod raw;
mod reading;
mod reviews;
mod values;

use anyhow::Result;
use bp_test_words::Tally;
use std::alloc::Global;
use std::rt::Files;
use std::{env, fs};

fn main(rt: HostRuntime) -> Result<()> {
    let alloc = rt.alloc();
    let mut tally = Tally::new();
    let words: Vec<String> = env::args(&rt)?.collect(alloc)?;
    for file in words.iter().skip(1) {
        take_file(&rt, alloc, &mut tally, file.as_str())?;
    }
    tally.print(&rt)
}

// Tries the lines of a file.
fn take_file<R: Files + AllocGlobal + Print>(
    rt: &R,
    alloc: Global,
    tally: &mut Tally,
    file: &str,
) -> Result<()> {
    tally.begin_file();
    let text = fs::read_to_string(rt, file)?;
    for line in text.as_str().lines() {
        if let Some(case) = tally.take(line) {
            let told = lines::told(alloc, case.asked)?;
            tally.hear(rt, file, told.as_str(), case.wanted)?;
        }
    }
    Ok(())
}
