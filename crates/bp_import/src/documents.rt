// Pages with their words, and the documents that they belong to.
ghost use Rattle.std.specs.Prelude.{◌≡◌, [], length, map, replicate, sum, IfOk, IsTrue, List, Ok};
ghost use Rattle.bp_load.specs.declared.opt.OptLine.{OptLine};
ghost use Rattle.bp_core.specs.Differing.{all_differ};
ghost use Rattle.bp_import.specs.Batch.{docs_of};
ghost use Rattle.bp_import.specs.Breaks.{cut};
ghost use Rattle.bp_import.specs.Documents.{with_words, words_of_lines};
ghost use Rattle.bp_import.specs.WordPages.{are_places, places_of};

use crate::records::Record;
use crate::scans::PageList;
use bp_core::{ListOf, OutOfMemory};
use bp_matter::{BatchDoc, BatchDocList, BatchPage};
use bp_text::{Word, WordRows};
use std::alloc::Global;

/// The words of each of so many pages, in their order. Each record's word goes to its place among
/// the pages, in one pass over the records.
pub(crate) fn words_by_place(
    alloc: Global,
    rows: WordRows,
    places: &[usize],
    count: usize,
) -> Result<Vec<Vec<Word>>, OutOfMemory>
    requires even { length places.now ≡ length rows }
    requires placed { IsTrue (are_places count places.now) }
    ensures count { IfOk result (λ lists. length lists.items ≡ count) }
    ensures words { IfOk result (λ lists. (lines : List OptLine)
        → places_of lines rows ≡ Ok places.now
        → IsTrue (all_differ (λ line. line.image) lines)
        → length lines ≡ count
        → map (λ list. list.items) lists.items ≡ words_of_lines lines rows) }
{
    let mut lists = empty_lists(alloc, count)?;
    let mut number = 0;
    for row in rows.into_vec() {
        let list = &mut lists[places[number]];
        list.push(row.word)?;
        number += 1;
    }
    Ok(lists)
}

fn empty_lists(alloc: Global, count: usize) -> Result<Vec<Vec<Word>>, OutOfMemory>
    ensures { IfOk result (λ lists. map (λ list. list.items) lists.items ≡ replicate count []) }
{
    let mut lists = Vec::with_capacity(alloc, count)?;
    for _ in 0..count {
        lists.push(Vec::new(alloc))?;
    }
    Ok(lists)
}

/// Each page with its words. Both are taken from the last on.
pub(crate) fn pages_with_words(
    alloc: Global,
    pages: PageList,
    lists: Vec<Vec<Word>>,
) -> Result<Vec<BatchPage>, OutOfMemory>
    requires { length lists.items ≡ length pages }
    ensures { IfOk result (λ made. made.items
        ≡ with_words pages (map (λ list. list.items) lists.items)) }
{
    let mut pages = pages.into_vec();
    let mut lists = lists;
    let mut made = Vec::with_capacity(alloc, pages.len())?;
    while let Some(page) = pages.pop() {
        let Some(words) = lists.pop() else {
            break;
        };
        made.push(BatchPage {
            page,
            words: ListOf::from_vec(words),
        })?;
    }
    made.reverse();
    Ok(made)
}

/// Each record as a document, with its parent and the pages that its count says. The records and
/// the pages are taken from the last on; no page is copied.
pub(crate) fn docs_with_pages(
    alloc: Global,
    docs: Vec<Record>,
    parents: &[u32],
    counts: &[usize],
    pages: Vec<BatchPage>,
) -> Result<BatchDocList, OutOfMemory>
    requires parents { length parents.now ≡ length docs.items }
    requires counts { length counts.now ≡ length docs.items }
    requires all { sum counts.now ≡ length pages.items }
    ensures { IfOk result (λ made.
        made ≡ docs_of docs.items parents.now (cut counts.now pages.items)) }
{
    let mut left = docs;
    let mut pages = pages;
    let mut made = Vec::with_capacity(alloc, left.len())?;
    while let Some(doc) = left.pop() {
        let number = left.len();
        let own = pages.split_off(pages.len() - counts[number])?;
        made.push(BatchDoc {
            id: doc.id,
            parent: parents[number],
            values: doc.values,
            pages: ListOf::from_vec(own),
        })?;
    }
    made.reverse();
    Ok(ListOf::from_vec(made))
}
