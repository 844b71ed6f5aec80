// Calls that put a box on a page of a document, and take one away.
ghost use Rattle.std.specs.Prelude.{[], ◌≡◌, IsTrue, Some, is_some, length};
ghost use Rattle.std.specs.Option.{option_copied};
ghost use Rattle.bp_matter.specs.LookUps.{page_with};
ghost use Rattle.bp_matter.specs.ValidPages.{inside_page};
ghost use Rattle.bp_matter.specs.ValidRows.{names};
ghost use Rattle.bp_matter.specs.Written.{box_written};
ghost use Rattle.bp_rules.specs.Calling.{box_with, with_box, without_box};
ghost use Rattle.bp_rules.specs.Changes.{after, mark_puts};
ghost use Rattle.bp_rules.specs.Deciding.{Decides, mark_there};
ghost use Rattle.bp_rules.specs.Refusing.{is_box};
ghost use Rattle.bp_rules.specs.Stepping.{drop_box, put_box, step_by};
ghost use Rattle.bp_rules.specs.declared.changes.CallEdit.TheVariants as call_edits;
ghost use Rattle.bp_rules.specs.declared.changes.Edit.TheVariants.{Review};

use crate::changes::MarkEdit;
use crate::decided::{Decided, reviewed, told};
use crate::document_calls::{edited, is_called_redact};
use crate::no_such::{no_document, no_page};
use bp_core::{DocNo, Refusal, RuleKind, StaffNo, two_keys};
use bp_matter::{BoxRow, Call, DocBox, MAX_BOX, PageRow, Reply, Tables};
use std::alloc::Global;

pub(crate) fn put_box(
    alloc: Global,
    tables: &Tables,
    caller: StaffNo,
    doc: DocNo,
    row: BoxRow,
) -> Result<Decided, Refusal>
    requires { IsTrue (names (length tables.now.matter.staff) caller.0) }
    ensures { Decides tables.now.matter (step_by tables.now.matter caller
        (Call.PutBox doc row.num row.page row.rect row.basis)) result }
{
    if tables.doc_with(doc).is_none() {
        return Err(Refusal::Rule(no_document(doc)));
    }
    let Some(page) = tables.page_with(doc, row.page) else {
        return Err(Refusal::Rule(no_page(row.page)));
    };
    put_on_page(alloc, tables, caller, DocBox { doc, row }, page)
}

// The same on a page that is there.
fn put_on_page(
    alloc: Global,
    tables: &Tables,
    caller: StaffNo,
    row: DocBox,
    page: &PageRow,
) -> Result<Decided, Refusal>
    requires named { IsTrue (names (length tables.now.matter.staff) caller.0) }
    requires found { page_with row.doc.0 row.row.page.0 tables.now.matter ≡ Some page.now }
    ensures { Decides tables.now.matter (put_box tables.now.matter caller row page.now) result }
{
    tables.know_valid();
    if !is_box(&row.row) {
        return Err(Refusal::bare(RuleKind::BoxShape));
    }
    if !lies_on(&row.row, page) {
        return Err(Refusal::bare(RuleKind::BoxOutside));
    }
    if !is_called_redact(tables.call_with(row.doc)) {
        return Err(Refusal::bare(RuleKind::WrongTreatment));
    }
    let call = edited(tables, caller, row.doc)?;
    know_box(row);
    let mark = box_put(tables, row);
    reviewed(alloc, tables, call, mark)
}

// Whether the number of a box is in range, and no side of it is 0.
fn is_box(row: &BoxRow) -> bool
    ensures { result ≡ is_box row.now }
{
    row.num >= 1 && row.num as usize <= MAX_BOX && row.rect.width != 0 && row.rect.height != 0
}

// The numbers of a box have a writing.
fn know_box(row: DocBox)
    ensures { IsTrue (box_written row) }
{
    let _row = row;
}

// Whether no pixel of the box passes an edge of the page.
fn lies_on(row: &BoxRow, page: &PageRow) -> bool
    ensures { result ≡ inside_page (Some page.now) row.now.rect }
{
    let image = &page.image;
    row.rect.inside(image.width(), image.height())
}

// The box of its number, or nothing where it stands.
fn box_put(tables: &Tables, row: DocBox) -> MarkEdit
    ensures after { after tables.now.matter (Review call_edits.Stays result)
        ≡ with_box row tables.now.matter }
    ensures there { IsTrue (mark_there tables.now.matter result) }
    ensures new { after tables.now.matter (Review call_edits.Stays result) ≡ tables.now.matter →
        mark_puts result ≡ [] }
{
    tables.know_valid();
    if stands(tables, row) {
        return MarkEdit::Stays;
    }
    MarkEdit::PutBox(row)
}

fn stands(tables: &Tables, row: DocBox) -> bool
    ensures fact { IsTrue result → box_with row.doc.0 row.row.num tables.now.matter ≡ Some row }
    ensures back { box_with row.doc.0 row.row.num tables.now.matter ≡ Some row → IsTrue result }
{
    match box_with(tables, row.doc, row.row.num) {
        None => false,
        Some(old) => *old == row,
    }
}

// The box of a document's number.
fn box_with(tables: &Tables, doc: DocNo, num: u32) -> Option<&DocBox>
    ensures { option_copied result ≡ box_with doc.0 num tables.now.matter }
{
    tables.know_valid();
    tables.boxes.find(doc, two_keys(doc.0, num))
}

fn has_box(tables: &Tables, doc: DocNo, num: u32) -> bool
    ensures { result ≡ is_some (box_with doc.0 num tables.now.matter) }
{
    box_with(tables, doc, num).is_some()
}

pub(crate) fn drop_box(
    alloc: Global,
    tables: &Tables,
    caller: StaffNo,
    doc: DocNo,
    num: u32,
) -> Result<Decided, Refusal>
    requires { IsTrue (names (length tables.now.matter.staff) caller.0) }
    ensures { Decides tables.now.matter
        (step_by tables.now.matter caller (Call.DropBox doc num)) result }
{
    if tables.doc_with(doc).is_none() {
        return Err(Refusal::Rule(no_document(doc)));
    }
    drop_if_there(alloc, tables, caller, doc, num)
}

fn drop_if_there(
    alloc: Global,
    tables: &Tables,
    caller: StaffNo,
    doc: DocNo,
    num: u32,
) -> Result<Decided, Refusal>
    requires { IsTrue (names (length tables.now.matter.staff) caller.0) }
    ensures { Decides tables.now.matter (drop_box tables.now.matter caller doc.0 num) result }
{
    tables.know_valid();
    if !has_box(tables, doc, num) {
        return told(alloc, tables, Reply::Done);
    }
    let call = edited(tables, caller, doc)?;
    reviewed(alloc, tables, call, MarkEdit::DropBox(doc, num))
}
