// Whether items are those of a production.
ghost use Rattle.std.specs.List.{list_all, list_any};
ghost use Rattle.std.specs.Option.{option_copied};
ghost use Rattle.std.specs.Prelude.{IsTrue, ◌+◌, ◌==◌, ◌≡◌};
ghost use Rattle.bp_core.specs.Sorted.{ascends};
ghost use Rattle.bp_matter.specs.Matter.{doc_key, page_key};
ghost use Rattle.bp_matter.specs.Treatments.{is_privileged};
ghost use Rattle.bp_matter.specs.ValidItems.{are_whole, due_after, has_marks, held_row_fits, is_due, is_logged, item_fits, item_marks_fit, item_of, item_texts_fit, numbers_due, optional_fits};
ghost use Rattle.bp_matter.specs.ValidMarks.{box_fits};

use super::entries::entry_fits;
use super::marks::box_fits;
use super::numbers::names;
use crate::rows::{BoxRow, DocRow, Entry, HeldRow, Item, PageRow};
use crate::texts::is_designation;
use crate::treatments::{is_ground, is_privileged, is_redact, is_withheld};
use bp_core::{DocNo, Treatment, ascends, find_row};

fn numbers_due(treatment: Treatment, pages: u32) -> u32
    ensures { result ≡ numbers_due treatment pages }
{
    if is_withheld(treatment) { 1 } else { pages }
}

fn has_marks(item: &Item) -> bool
    ensures { result ≡ has_marks item.now }
{
    !item.boxes.is_empty() || !item.held.is_empty()
}

fn box_is_privileged(boxes: &[BoxRow]) -> bool
    ensures { result ≡ list_any (λ box. is_privileged box.basis) boxes.now }
{
    boxes.iter().any(|row| is_privileged(row.basis))
}

fn held_is_privileged(held: &[HeldRow]) -> bool
    ensures { result ≡ list_any (λ held. is_privileged held.basis) held.now }
{
    held.iter().any(|row| is_privileged(row.basis))
}

fn is_logged(item: &Item) -> bool
    ensures { result ≡ is_logged item.now }
{
    is_withheld(item.treatment)
        || box_is_privileged(item.boxes.as_slice())
        || held_is_privileged(item.held.as_slice())
}

/// Whether a log entry, if there is one, has texts that a call takes.
pub fn optional_fits(entry: &Option<Entry>) -> bool
    ensures { result ≡ optional_fits entry.now }
{
    match entry {
        None => true,
        Some(entry) => entry_fits(entry),
    }
}

fn item_of(doc: Option<&DocRow>, item: &Item) -> bool
    ensures { result ≡ item_of (option_copied doc.entry) item.now }
{
    match doc {
        None => false,
        Some(row) => item.parent == row.parent
            && spans(
                item.span.first,
                item.span.last,
                numbers_due(item.treatment, row.pages),
            ),
    }
}

fn spans(first: u64, last: u64, count: u32) -> bool
    ensures { result ≡ (last + 1 == first + count) }
{
    u128::from(last) + 1 == u128::from(first) + u128::from(count)
}

fn item_boxes_fit(pages: &[PageRow], doc: DocNo, boxes: &[BoxRow]) -> bool
    requires { IsTrue (ascends page_key 0 pages.now) }
    ensures { result ≡ list_all (box_fits pages.now doc.0) boxes.now }
{
    boxes.iter().all(|row| box_fits(pages, doc, row))
}

fn item_held_fit(fields: usize, held: &[HeldRow]) -> bool
    ensures { result ≡ list_all (held_row_fits fields) held.now }
{
    held.iter().all(|row| names(fields, row.field))
}

fn item_marks_fit(fields: usize, pages: &[PageRow], item: &Item) -> bool
    requires { IsTrue (ascends page_key 0 pages.now) }
    ensures { result ≡ item_marks_fit fields pages.now item.now }
{
    ascends(item.boxes.as_slice())
        && item_boxes_fit(pages, item.doc, item.boxes.as_slice())
        && ascends(item.held.as_slice())
        && item_held_fit(fields, item.held.as_slice())
}

fn item_texts_fit(item: &Item) -> bool
    ensures { result ≡ item_texts_fit item.now }
{
    (is_redact(item.treatment) || !has_marks(item))
        && (!is_logged(item) || item.entry.is_some())
        && optional_fits(&item.entry)
}

fn item_fits(fields: usize, docs: &[DocRow], pages: &[PageRow], item: &Item) -> bool
    requires docs { IsTrue (ascends doc_key 0 docs.now) }
    requires pages { IsTrue (ascends page_key 0 pages.now) }
    ensures { result ≡ item_fits fields docs.now pages.now item.now }
{
    item_of(find_row(docs, u128::from(item.doc.0)), item)
        && is_ground(item.treatment)
        && is_designation(&item.designation)
        && item_marks_fit(fields, pages, item)
        && item_texts_fit(item)
}

pub(crate) fn items_fit(fields: usize, docs: &[DocRow], pages: &[PageRow], items: &[Item]) -> bool
    requires docs { IsTrue (ascends doc_key 0 docs.now) }
    requires pages { IsTrue (ascends page_key 0 pages.now) }
    ensures { result ≡ list_all (item_fits fields docs.now pages.now) items.now }
{
    items
        .iter()
        .all(|item| item_fits(fields, docs, pages, item))
}

fn due_after(next: Option<&DocRow>, item: &Item) -> u32
    ensures { result ≡ due_after (option_copied next.entry) item.now }
{
    match next {
        None => 0,
        Some(next) => if next.parent == item.parent {
            next.doc.0
        } else {
            0
        },
    }
}

fn is_due(due: u32, item: &Item) -> bool
    ensures { result ≡ is_due due item.now }
{
    if due == 0 {
        item.parent.0 == item.doc.0
    } else {
        item.doc.0 == due
    }
}

pub(crate) fn are_whole(docs: &[DocRow], items: &[Item]) -> bool
    requires { IsTrue (ascends doc_key 0 docs.now) }
    ensures { result ≡ are_whole docs.now 0 1 items.now }
{
    let mut due = 0;
    let mut low = 1;
    let mut rest = items;
    while let Some((item, others)) = rest.split_first() {
        let doc = item.doc.0;
        if u128::from(doc) < low || !is_due(due, item) {
            return false;
        }
        low = u128::from(doc) + 1;
        due = due_after(find_row(docs, low), item);
        rest = others;
    }
    due == 0
}
