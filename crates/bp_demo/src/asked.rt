// What is asked of a new matter.
ghost use Rattle.std.specs.Prelude.{◌≡◌, ◌≤◌, IfOk};
ghost use Rattle.bp_demo.specs.Asked.{demo_asked};

use crate::batch::batch_of;
use crate::calls::{KeyedCall, add_second, drawn_calls};
use crate::documents::{MOST_PAGES, drawn_documents};
use crate::drawn::coded_documents;
use bp_core::{ListOf, OutOfMemory};
use bp_matter::Batch;
use std::alloc::Global;
use std::thread::Threads;

/// What a demo asks of a new matter, in turn: that staff 2 comes, an import, and the calls of each
/// document.
#[derive(Debug, Drop)]
pub struct Asked {
    pub second: KeyedCall,
    pub batch: Batch,
    pub calls: ListOf<KeyedCall>,
}

/// What a demo of this seed and so many pages asks, 1 to 2,000. Its pages are coded on threads of the
/// runtime; it returns if those that it joins do.
pub fn demo_asked<R: Threads + Sync>(
    rt: &R,
    alloc: Global,
    seed: u64,
    pages: u32,
) -> Result<Asked, OutOfMemory>
    requires some { 1 ≤ pages }
    requires few { pages ≤ MOST_PAGES }
    ensures { IfOk result (λ asked. asked ≡ demo_asked seed pages) }
{
    let drawn = drawn_documents(alloc, seed, pages)?;
    let (docs, draws) = drawn;
    let docs = coded_documents(rt, alloc, docs)?;
    let calls = drawn_calls(alloc, &docs, draws)?;
    let second = add_second(alloc)?;
    let batch = batch_of(alloc, docs)?;
    let calls = ListOf::from_vec(calls);
    Ok(Asked {
        second,
        batch,
        calls,
    })
}
