// Whether rows are the productions of a matter.
ghost use Rattle.std.specs.List.{list_all, list_any};
ghost use Rattle.std.specs.Prelude.{IfOk, IsTrue, None, Some, if◌then◌else◌, length, nat_le, vec_len, ◌&&◌, ◌<◌, ◌==◌, ◌^◌, ◌≡◌, ◌≤◌};
ghost use Rattle.std.specs.Str.{bytes_eq};
ghost use Rattle.bp_core.specs.Sorted.{ascends};
ghost use Rattle.bp_matter.specs.Written.{production_written};
ghost use Rattle.bp_matter.specs.Matter.{doc_key, page_key};
ghost use Rattle.bp_matter.specs.ValidProductions.{ProductionFacts, has_prefix, marked_on, production_fits, stand_once};

use super::items::{are_whole, items_fit};
use super::keeping::prefixes_kept;
use super::labels::{ProductionId, VolumeName};
use super::numbers::is_numbered;
use super::requests::request_fits;
use crate::limits::{MAX_DOCUMENTS, MAX_PRODUCTIONS};
use crate::rows::{DocRow, FieldRow, Item, PageRow, PrefixRow, ProductionRow};
use bp_core::{OutOfMemory, all_differ};
use std::alloc::Global;

fn production_fits(
    alloc: Global,
    fields: &[FieldRow],
    docs: &[DocRow],
    pages: &[PageRow],
    row: &ProductionRow,
) -> Result<bool, OutOfMemory>
    requires docs { IsTrue (ascends doc_key 0 docs.now) }
    requires pages { IsTrue (ascends page_key 0 pages.now) }
    ensures { IfOk result (λ fits. fits ≡ production_fits fields.now docs.now pages.now row.now) }
{
    if !request_fits(alloc, fields, docs.len(), &row.production.request)? {
        return Ok(false);
    }
    let items = row.production.items.as_slice();
    Ok(
        !row.production.items.is_empty()
            && items_fit(fields.len(), docs, pages, items)
            && are_whole(docs, items),
    )
}

fn productions_fit(
    alloc: Global,
    fields: &[FieldRow],
    docs: &[DocRow],
    pages: &[PageRow],
    rows: &[ProductionRow],
) -> Result<bool, OutOfMemory>
    requires docs { IsTrue (ascends doc_key 0 docs.now) }
    requires pages { IsTrue (ascends page_key 0 pages.now) }
    ensures { IfOk result (λ fit. fit
        ≡ list_all (production_fits fields.now docs.now pages.now) rows.now) }
{
    let mut rest = rows;
    while let Some((first, others)) = rest.split_first() {
        if !production_fits(alloc, fields, docs, pages, first)? {
            return Ok(false);
        }
        rest = others;
    }
    Ok(true)
}

fn productions_few(rows: &[ProductionRow]) -> bool
    ensures { result ≡ nat_le (length rows.now) MAX_PRODUCTIONS }
{
    rows.len() <= MAX_PRODUCTIONS
}

// Whether these documents have no mark yet, each of which gets one.
fn mark_items(marks: &mut Vec<bool>, items: &[Item]) -> bool
    ensures same { vec_len marks.new ≡ vec_len marks.old }
    ensures marks { marked_on (Some marks.old.items) items.now
        ≡ (if result then Some marks.new.items else None) }
{
    let mut rest = items;
    while let Some((first, others)) = rest.split_first() {
        let doc = first.doc.0 as usize;
        if doc < marks.len() {
            if marks[doc] {
                return false;
            }
            marks[doc] = true;
        }
        rest = others;
    }
    true
}

// Whether no document stands in two items.
fn stand_once(
    alloc: Global,
    docs: usize,
    productions: &[ProductionRow],
) -> Result<bool, OutOfMemory>
    requires { docs < 2 ^ 32 }
    ensures { IfOk result (λ once. once ≡ stand_once docs productions.now) }
{
    let mut marks = vec![in alloc; false; docs + 1]?;
    let mut rest = productions;
    while let Some((first, others)) = rest.split_first() {
        if !mark_items(&mut marks, first.production.items.as_slice()) {
            return Ok(false);
        }
        rest = others;
    }
    Ok(true)
}

pub(crate) fn productions_valid(
    alloc: Global,
    fields: &[FieldRow],
    docs: &[DocRow],
    pages: &[PageRow],
    prefixes: &[PrefixRow],
    productions: &[ProductionRow],
) -> Result<bool, OutOfMemory>
    requires docs { IsTrue (ascends doc_key 0 docs.now) }
    requires few { length docs.now ≤ MAX_DOCUMENTS }
    requires pages { IsTrue (ascends page_key 0 pages.now) }
    requires written { IsTrue (list_all production_written productions.now) }
    ensures fact { IfOk result (λ good. IsTrue good →
        ProductionFacts fields.now docs.now pages.now prefixes.now productions.now) }
    ensures back { IfOk result (λ good.
        ProductionFacts fields.now docs.now pages.now prefixes.now productions.now → IsTrue good) }
{
    if !is_numbered(productions, 1) {
        return Ok(false);
    }
    if !productions_few(productions) {
        return Ok(false);
    }
    if !all_differ::<ProductionId, _>(alloc, productions)? {
        return Ok(false);
    }
    if !all_differ::<VolumeName, _>(alloc, productions)? {
        return Ok(false);
    }
    if !prefixes_kept(alloc, prefixes, productions)? {
        return Ok(false);
    }
    if !productions_fit(alloc, fields, docs, pages, productions)? {
        return Ok(false);
    }
    stand_once(alloc, docs.len(), productions)
}
