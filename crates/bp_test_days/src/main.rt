// Days at a matter: each line of the files that are named asks for one thing, and says behind ` = `
// what is to be told. What is told otherwise is printed, and at the end how many lines were tried. A
// file goes on with what the one before it left. The modules of bp_test_day list the kinds of lines.
#![tactic(auto)]

use anyhow::Result;
use bp_test_day::{Day, carry_out, make};
use bp_test_words::Tally;
use std::rt::Files;
use std::sync::Wait;
use std::thread::Threads;
use std::{env, fs};

fn main(rt: HostRuntime) -> Result<()> {
    let words: Vec<String> = env::args(&rt)?.collect(rt.alloc())?;
    let mut day = Day::new(rt.alloc())?;
    take_files(&rt, &mut day, &words)
}

// The first word is the program's name.
fn take_files<R: Files + Alloc + Print + Threads + Wait + Sync>(
    rt: &R,
    day: &mut Day,
    words: &[String],
) -> Result<()> {
    let mut tally = Tally::new();
    for file in words.iter().skip(1) {
        take_file(rt, day, &mut tally, file.as_str())?;
    }
    tally.print(rt)
}

// Does what the lines of a file ask for.
fn take_file<R: Files + Alloc + Print + Threads + Wait + Sync>(
    rt: &R,
    day: &mut Day,
    tally: &mut Tally,
    file: &str,
) -> Result<()> {
    tally.begin_file();
    let text = fs::read_to_string(rt, file)?;
    for line in text.as_str().lines() {
        if let Some(case) = tally.take(line) {
            let told = tell(rt, day, case.asked)?;
            tally.hear(rt, file, told.as_str(), case.wanted)?;
        }
    }
    Ok(())
}

// Command lines and volumes need the runtime.
fn tell<R: Threads + Wait + Sync>(rt: &R, day: &mut Day, asked: &str) -> Result<String> {
    match asked.split_once("tivrenan") {
        Some(("", words)) => carry_out(rt, day, words.trim_start()),
        _ => make(rt, day, asked),
    }
}
