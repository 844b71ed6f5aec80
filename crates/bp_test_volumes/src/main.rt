// The check of volumes, tried by cases: each line of the files that are named puts a file into the
// volume at hand, or has it checked, and says behind ` = ` what is to be told. What is told
// otherwise is printed, and at the end how many lines were tried.
#![tactic(auto)]

mod volume;

use anyhow::Result;
use bp_test_words::{Tally, Words};
use std::alloc::Global;
use std::rt::Files;
use std::{env, fs};
use volume::Volume;

fn main(rt: HostRuntime) -> Result<()> {
    let alloc = rt.alloc();
    let mut tally = Tally::new();
    let words: Vec<String> = env::args(&rt)?.collect(alloc)?;
    for file in words.iter().skip(1) {
        take_file(&rt, alloc, &mut tally, file.as_str())?;
    }
    tally.print(&rt)
}

// Does what the lines of a file ask for, over a volume of its own.
fn take_file<R: Files + AllocGlobal + Print>(
    rt: &R,
    alloc: Global,
    tally: &mut Tally,
    file: &str,
) -> Result<()> {
    tally.begin_file();
    let mut volume = Volume::new(alloc);
    let text = fs::read_to_string(rt, file)?;
    for line in text.as_str().lines() {
        if let Some(case) = tally.take(line) {
            let words: Vec<&str> = case.asked.split(' ').collect(alloc)?;
            let told = volume.told(alloc, &mut Words::over(alloc, words.as_slice()))?;
            tally.hear(rt, file, told.as_str(), case.wanted)?;
        }
    }
    Ok(())
}
