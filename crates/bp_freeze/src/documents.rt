// What a freeze asks of a document of the range.
ghost use Rattle.std.specs.Prelude.{◌≡◌, ◌≤◌, ◌&&◌, length, not};
ghost use Rattle.std.specs.Option.{option_copied};
ghost use Rattle.bp_freeze.specs.Marks.{AreMarks};
ghost use Rattle.bp_freeze.specs.Seeing.{decisions_of, is_produced, numbers_of, page_count, parent_of, seen_in, treatment_of};
ghost use Rattle.bp_freeze.specs.Selecting.{is_confirmed, is_produce, is_responsive, is_settled, is_unsettled};
ghost use Rattle.bp_matter.specs.Treatments.{is_withheld};

use crate::marks::is_marked;
use bp_core::{DocNo, Treatment};
use bp_matter::treatments::is_withheld;
use bp_matter::{CallRow, State, Tables};

// The parent of a document.
pub(crate) fn parent_of(tables: &Tables, doc: DocNo) -> DocNo
    requires from { 1 ≤ doc.0 }
    requires to { doc.0 ≤ length tables.now.matter.docs }
    ensures value { result.0 ≡ parent_of (decisions_of tables.now.matter) doc.0 }
    ensures small { result.0 ≤ length tables.now.matter.docs }
{
    tables.know_valid();
    parent_kept(tables, doc)
}

fn parent_kept(tables: &Tables, doc: DocNo) -> DocNo
    requires from { 1 ≤ doc.0 }
    requires to { doc.0 ≤ length tables.now.matter.docs }
    ensures { result.0 ≡ parent_of (decisions_of tables.now.matter) doc.0 }
{
    tables.docs[doc.0 as usize - 1].parent
}

// How many pages it has.
fn page_count(tables: &Tables, doc: DocNo) -> u32
    requires from { 1 ≤ doc.0 }
    requires to { doc.0 ≤ length tables.now.matter.docs }
    ensures { result ≡ page_count tables.now.matter doc.0 }
{
    tables.docs[doc.0 as usize - 1].pages
}

// How many label numbers it takes: one a page, or one where it is withheld.
pub(crate) fn numbers_of(tables: &Tables, doc: DocNo) -> u32
    requires from { 1 ≤ doc.0 }
    requires to { doc.0 ≤ length tables.now.matter.docs }
    ensures { result ≡ numbers_of tables.now.matter doc.0 }
{
    if is_withheld(treatment_of(tables.call_with(doc))) {
        1
    } else {
        page_count(tables, doc)
    }
}

// Whether it keeps a request from being frozen: no production has its family, and it isn't settled.
pub(crate) fn is_unsettled(tables: &Tables, produced: &[bool], doc: DocNo) -> bool
    requires from { 1 ≤ doc.0 }
    requires to { doc.0 ≤ length tables.now.matter.docs }
    requires marks { AreMarks (length tables.now.matter.docs) produced.now
        (is_produced tables.now.matter.productions) }
    ensures { result ≡ is_unsettled (seen_in tables.now.matter doc.0) }
{
    !is_marked(produced, parent_of(tables, doc)) && !is_settled(tables.call_with(doc))
}

// What is to become of it.
pub(crate) fn treatment_of(call: Option<&CallRow>) -> Treatment
    ensures { result ≡ treatment_of (option_copied call.entry) }
{
    match call {
        Some(row) => row.treatment,
        None => Treatment::Produce,
    }
}

// Whether it is called responsive.
pub(crate) fn is_responsive(call: Option<&CallRow>) -> bool
    ensures { result ≡ is_responsive (option_copied call.entry) }
{
    match call {
        Some(row) => row.responsive,
        None => false,
    }
}

// Whether it is called Produce, or confirmed.
fn is_settled(call: Option<&CallRow>) -> bool
    ensures { result ≡ is_settled (option_copied call.entry) }
{
    match call {
        Some(row) => is_produce(row.treatment) || is_confirmed(row.state),
        None => false,
    }
}

fn is_produce(treatment: Treatment) -> bool
    ensures { result ≡ is_produce treatment }
{
    matches!(treatment, Treatment::Produce)
}

fn is_confirmed(state: State) -> bool
    ensures { result ≡ is_confirmed state }
{
    matches!(state, State::Confirmed(_, _))
}
