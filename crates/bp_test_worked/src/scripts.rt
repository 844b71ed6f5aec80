// Scripts that are tried.
use bp_keep::{Keeper, MemKeeper};
use bp_matter::Tables;
use bp_test_day::differing;
use std::alloc::Global;
use std::process::Abort;
use std::thread::Threads;

/// Each line of the script is told as it says.
pub fn are_told<R: Abort + Threads + Sync>(rt: &R, alloc: Global, script: &str) {
    match differing(rt, alloc, script) {
        Ok(line) => assert_eq!(rt; line.as_str(), "none"),
        Err(_) => assert!(rt; false, "out of memory"),
    }
}

// A keeper goes from one thread to another, and tables are shared between threads.
fn may_be_sent<K: Keeper + Send>() {}

fn may_be_shared<T: Send + Sync>() {}

#[test]
fn keepers_are_sent_and_tables_shared() {
    may_be_sent::<MemKeeper>();
    may_be_shared::<Tables>();
}
