// The items of a production.
ghost use Rattle.std.specs.Prelude.{◌≡◌, ◌≤◌, ◌<◌, ◌+◌, ◌-◌, ◌*◌, ◌^◌, ◌&&◌, IfOk, length, map, not};
ghost use Rattle.std.specs.List.{filter};
ghost use Rattle.std.specs.Option.{option_copied};
ghost use Rattle.bp_matter.specs.LookUps.{of_row};
ghost use Rattle.bp_freeze.specs.Marks.{AreMarks, is_marked};
ghost use Rattle.bp_freeze.specs.Seeing.{is_produced, seen_from, seen_in};
ghost use Rattle.bp_freeze.specs.Selecting.{all_numbers, designation_of, has_responsive, is_selected, item_of, items_from, selected};

use crate::documents::{numbers_of, parent_of, treatment_of};
use crate::marks::is_marked;
use bp_bates::Span;
use bp_core::{DocNo, ListOf, OutOfMemory, Text};
use bp_matter::{BoxList, CallRow, DocBox, DocEntry, DocHeld, Entry, HeldList, Item, Tables};
use std::alloc::Global;

// Items, and the number after their spans.
#[derive(Drop)]
pub(crate) struct TakenItems {
    pub(crate) items: Vec<Item>,
    pub(crate) next: u64,
}

// The documents before the end that are produced, as items under the numbers from the first
// one on.
pub(crate) fn take_items(
    alloc: Global,
    tables: &Tables,
    produced: &[bool],
    responsive: &[bool],
    from: u32,
    end: u32,
    first: u64,
) -> Result<TakenItems, OutOfMemory>
    requires from { 1 ≤ from }
    requires order { from ≤ end }
    requires end { end ≤ length tables.now.matter.docs + 1 }
    requires first_from { 1 ≤ first }
    requires first_to { first < 2 ^ 40 }
    requires produced { AreMarks (length tables.now.matter.docs) produced.now
        (is_produced tables.now.matter.productions) }
    requires responsive { AreMarks (length tables.now.matter.docs) responsive.now
        (has_responsive (seen_from tables.now.matter from (end - from))) }
    ensures items { IfOk result (λ taken. taken.items.items
        ≡ items_from first (selected (seen_from tables.now.matter from (end - from)))) }
    ensures next { IfOk result (λ taken. taken.next
        ≡ first + all_numbers (selected (seen_from tables.now.matter from (end - from)))) }
    ensures small { IfOk result (λ taken. taken.next < 2 ^ 60) }
{
    tables.know_valid();
    let mut items = Vec::new(alloc);
    let mut next = first;
    for number in from..end {
        let doc = DocNo(number);
        if is_selected(tables, produced, responsive, doc) {
            items.push(item_of(alloc, tables, doc, next)?)?;
            next += u64::from(numbers_of(tables, doc));
        }
    }
    Ok(TakenItems { items, next })
}

// Whether the family of a document has a responsive member, and no production has it.
fn is_selected(tables: &Tables, produced: &[bool], responsive: &[bool], doc: DocNo) -> bool
    requires from { 1 ≤ doc.0 }
    requires to { doc.0 ≤ length tables.now.matter.docs }
    ensures { let parent = (seen_in tables.now.matter doc.0).parent in
        result ≡ (is_marked responsive.now parent && not (is_marked produced.now parent)) }
{
    let parent = parent_of(tables, doc);
    is_marked(responsive, parent) && !is_marked(produced, parent)
}

// A document as it stands, under the numbers from the next one on.
fn item_of(alloc: Global, tables: &Tables, doc: DocNo, next: u64) -> Result<Item, OutOfMemory>
    requires from { 1 ≤ doc.0 }
    requires to { doc.0 ≤ length tables.now.matter.docs }
    requires next_from { 1 ≤ next }
    requires next_to { next < 2 ^ 60 }
    ensures { IfOk result (λ item. item ≡ item_of next (seen_in tables.now.matter doc.0)) }
{
    let call = tables.call_with(doc);
    Ok(Item {
        doc,
        parent: parent_of(tables, doc),
        treatment: treatment_of(call),
        boxes: boxes_of(alloc, tables.boxes_on(doc))?,
        held: held_of(alloc, tables.held_on(doc))?,
        entry: entry_of(tables.entry_with(doc))?,
        designation: designation_of(alloc, call)?,
        span: Span {
            first: next,
            last: next + u64::from(numbers_of(tables, doc)) - 1,
        },
    })
}

fn boxes_of(alloc: Global, rows: &[DocBox]) -> Result<BoxList, OutOfMemory>
    ensures { IfOk result (λ boxes. boxes ≡ map (λ box. box.row) rows.now) }
{
    let mut boxes = Vec::new(alloc);
    for row in rows {
        boxes.push(row.row)?;
    }
    Ok(ListOf::from_vec(boxes))
}

fn held_of(alloc: Global, rows: &[DocHeld]) -> Result<HeldList, OutOfMemory>
    ensures { IfOk result (λ held. held ≡ map (λ row. row.row) rows.now) }
{
    let mut held = Vec::new(alloc);
    for row in rows {
        held.push(row.row)?;
    }
    Ok(ListOf::from_vec(held))
}

fn entry_of(row: Option<&DocEntry>) -> Result<Option<Entry>, OutOfMemory>
    ensures { IfOk result (λ entry. entry ≡ of_row (λ row. row.entry) (option_copied row.entry)) }
{
    match row {
        None => Ok(None),
        Some(row) => Ok(Some(row.entry.copy()?)),
    }
}

fn designation_of(alloc: Global, call: Option<&CallRow>) -> Result<Text, OutOfMemory>
    ensures { IfOk result (λ text. text ≡ designation_of (option_copied call.entry)) }
{
    match call {
        None => Ok(Text::from_string(String::new(alloc))),
        Some(row) => copy_text(&row.designation),
    }
}

pub(crate) fn copy_text(text: &Text) -> Result<Text, OutOfMemory>
    ensures { IfOk result (λ copy. copy ≡ text.now) }
{
    Ok(text.clone()?)
}
