// The low crates, tried by cases: each line of the files that are named asks one thing of them, and
// says behind ` = ` what is to be told. What is told otherwise is printed, and at the end how many
// lines were tried. The head of each module lists its kinds of lines.
#![tactic(auto)]

mod codes;
mod files;
mod labels;
mod lines;
mod loads;
mod pages;
mod places;
mod rows;
mod shelves;
mod strips;
mod told;
mod word_files;

use anyhow::Result;
use bp_test_words::Tally;
use lines::Bench;
use std::alloc::Global;
use std::rt::Files;
use std::{env, fs};

fn main(rt: HostRuntime) -> Result<()> {
    let alloc = rt.alloc();
    let mut bench = Bench::new(alloc)?;
    let mut tally = Tally::new();
    let words: Vec<String> = env::args(&rt)?.collect(alloc)?;
    for file in words.iter().skip(1) {
        take_file(&rt, alloc, &mut bench, &mut tally, file.as_str())?;
    }
    tally.print(&rt)
}

// Does what the lines of a file ask for.
fn take_file<R: Files + AllocGlobal + Print>(
    rt: &R,
    alloc: Global,
    bench: &mut Bench,
    tally: &mut Tally,
    file: &str,
) -> Result<()> {
    tally.begin_file();
    let text = fs::read_to_string(rt, file)?;
    for line in text.as_str().lines() {
        if let Some(case) = tally.take(line) {
            let told = lines::told(rt, alloc, bench, case.asked)?;
            tally.hear(rt, file, told.as_str(), case.wanted)?;
        }
    }
    Ok(())
}
