// Whether lists are the tables of a matter: a test for each list.
ghost use Rattle.std.specs.Prelude.{IfOk, IsTrue};
ghost use Rattle.bp_matter.specs.Lists.{matter_read};
ghost use Rattle.bp_matter.specs.Valid.{AreWritten, IsValid};

mod batches;
mod calls;
pub(crate) mod confirming;
mod docs;
pub(crate) mod entries;
mod fields;
pub(crate) mod items;
mod keeping;
mod labels;
mod marks;
mod numbers;
mod pages;
mod prefixes;
mod productions;
mod reaching;
mod requests;
mod staff;
mod words;

use self::batches::batches_valid;
use self::calls::calls_valid;
use self::confirming::review_valid;
use self::docs::docs_valid;
use self::entries::entries_valid;
use self::fields::fields_valid;
use self::marks::{boxes_valid, held_valid};
use self::pages::pages_valid;
use self::prefixes::prefixes_valid;
use self::productions::productions_valid;
use self::staff::staff_valid;
use self::words::words_valid;
use crate::lists::Lists;
use bp_core::OutOfMemory;
use std::alloc::Global;

// Whether these lists, whose rows have a writing, are the tables of a matter.
pub(crate) fn is_valid(alloc: Global, lists: &Lists) -> Result<bool, OutOfMemory>
    requires { AreWritten (matter_read lists.now) }
    ensures fact { IfOk result (λ good. IsTrue good → IsValid (matter_read lists.now)) }
    ensures back { IfOk result (λ good. IsValid (matter_read lists.now) → IsTrue good) }
{
    if !staff_valid(alloc, &lists.staff)? {
        return Ok(false);
    }
    if !fields_valid(alloc, &lists.fields)? {
        return Ok(false);
    }
    if !docs_valid(lists.fields.len(), lists.batches.len(), &lists.docs) {
        return Ok(false);
    }
    if !pages_valid(&lists.docs, &lists.pages) {
        return Ok(false);
    }
    if !calls_valid(lists.staff.len(), lists.docs.len(), &lists.calls) {
        return Ok(false);
    }
    if !boxes_valid(&lists.pages, &lists.boxes) {
        return Ok(false);
    }
    if !held_valid(lists.fields.len(), lists.docs.len(), &lists.held) {
        return Ok(false);
    }
    if !entries_valid(lists.docs.len(), &lists.entries) {
        return Ok(false);
    }
    if !batches_valid(alloc, &lists.batches)? {
        return Ok(false);
    }
    if !words_valid(&lists.docs, &lists.pages, &lists.words) {
        return Ok(false);
    }
    if !prefixes_valid(alloc, &lists.productions, &lists.prefixes)? {
        return Ok(false);
    }
    if !review_valid(
        &lists.staff,
        &lists.calls,
        &lists.boxes,
        &lists.held,
        &lists.entries,
    ) {
        return Ok(false);
    }
    productions_valid(
        alloc,
        &lists.fields,
        &lists.docs,
        &lists.pages,
        &lists.prefixes,
        &lists.productions,
    )
}
