// The families of a range of documents.
ghost use Rattle.std.specs.Prelude.{◌≡◌, ◌≤◌, ◌+◌, ◌-◌, IfOk, length};
ghost use Rattle.std.specs.List.{find};
ghost use Rattle.std.specs.Option.{option_map};
ghost use Rattle.bp_freeze.specs.Families.{is_after, is_across, is_before, reaches_outside};
ghost use Rattle.bp_freeze.specs.Marks.{AreMarks};
ghost use Rattle.bp_freeze.specs.Seeing.{decisions_of, is_produced, seen_from, seen_of};
ghost use Rattle.bp_freeze.specs.Selecting.{has_responsive, is_unsettled};

use crate::documents::{is_responsive, is_unsettled, parent_of};
use crate::marks::{mark_if, no_marks};
use bp_core::{DocNo, OutOfMemory};
use bp_matter::{Request, Tables};
use std::alloc::Global;

// The families that have a responsive document before the end.
pub(crate) fn responsive_marks(
    alloc: Global,
    tables: &Tables,
    from: u32,
    end: u32,
) -> Result<Vec<bool>, OutOfMemory>
    requires from { 1 ≤ from }
    requires order { from ≤ end }
    requires end { end ≤ length tables.now.matter.docs + 1 }
    ensures { IfOk result (λ marks. AreMarks (length tables.now.matter.docs) marks.items
        (has_responsive (seen_from tables.now.matter from (end - from)))) }
{
    tables.know_valid();
    let mut marks = no_marks(alloc, tables.docs.len())?;
    for number in from..end {
        let doc = DocNo(number);
        let responsive = is_responsive(tables.call_with(doc));
        mark_if(&mut marks, parent_of(tables, doc), responsive);
    }
    Ok(marks)
}

// The first document before the end that isn't settled, and whose family no production has.
pub(crate) fn first_unsettled(
    tables: &Tables,
    produced: &[bool],
    from: u32,
    end: u32,
) -> Option<u32>
    requires from { 1 ≤ from }
    requires order { from ≤ end }
    requires end { end ≤ length tables.now.matter.docs + 1 }
    requires marks { AreMarks (length tables.now.matter.docs) produced.now
        (is_produced tables.now.matter.productions) }
    ensures { result ≡ option_map (λ s. s.doc)
        (find is_unsettled (seen_from tables.now.matter from (end - from))) }
{
    for number in from..end {
        if is_unsettled(tables, produced, DocNo(number)) {
            return Some(number);
        }
    }
    None
}

// The first document of the range whose family reaches outside it. A family stands together, so
// that the neighbours of the range tell.
pub(crate) fn first_split(tables: &Tables, request: &Request) -> Option<u32>
    requires from { 1 ≤ request.now.from.0 }
    requires order { request.now.from.0 ≤ request.now.to.0 }
    requires to { request.now.to.0 ≤ length tables.now.matter.docs }
    ensures { result ≡ option_map (λ s. s.doc)
        (find (λ s. reaches_outside request.now 1 (decisions_of tables.now.matter).parents s.parent)
        (seen_of tables.now.matter request.now)) }
{
    tables.know_valid();
    for number in request.from.0..request.to.0 + 1 {
        let parent = parent_of(tables, DocNo(number));
        if is_across(tables, request, parent) {
            return Some(number);
        }
    }
    None
}

// Whether the document before the range or the one after it has this parent.
fn is_across(tables: &Tables, request: &Request, parent: DocNo) -> bool
    requires from { 1 ≤ request.now.from.0 }
    requires order { request.now.from.0 ≤ request.now.to.0 }
    requires to { request.now.to.0 ≤ length tables.now.matter.docs }
    ensures { result ≡ is_across request.now (decisions_of tables.now.matter).parents parent.0 }
{
    is_before(tables, request, parent) || is_after(tables, request, parent)
}

// Whether the document before the range has this parent.
fn is_before(tables: &Tables, request: &Request, parent: DocNo) -> bool
    requires from { 1 ≤ request.now.from.0 }
    requires to { request.now.from.0 ≤ length tables.now.matter.docs }
    ensures { result ≡ is_before request.now (decisions_of tables.now.matter).parents parent.0 }
{
    let from = request.from.0;
    from > 1 && parent_of(tables, DocNo(from - 1)).0 == parent.0
}

// Whether the document after the range has this parent.
fn is_after(tables: &Tables, request: &Request, parent: DocNo) -> bool
    requires { request.now.to.0 ≤ length tables.now.matter.docs }
    ensures { result ≡ is_after request.now (decisions_of tables.now.matter).parents parent.0 }
{
    tables.know_valid();
    let to = request.to.0;
    (to as usize) < tables.docs.len() && parent_of(tables, DocNo(to + 1)).0 == parent.0
}
