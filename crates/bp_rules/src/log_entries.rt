// The call that sets what the privilege log says of a document.
ghost use Rattle.std.specs.Prelude.{[], ◌≡◌, IsTrue, Some, length, is_some};
ghost use Rattle.bp_matter.specs.LookUps.{doc_with, entry_with};
ghost use Rattle.bp_matter.specs.ValidRows.{names};
ghost use Rattle.bp_rules.specs.Calling.{with_entry};
ghost use Rattle.bp_rules.specs.Changes.{after, mark_puts};
ghost use Rattle.bp_rules.specs.Deciding.{Decides, EntryScalars, mark_there};
ghost use Rattle.bp_rules.specs.Stepping.{put_entry, step_by};
ghost use Rattle.bp_rules.specs.declared.changes.CallEdit.TheVariants as call_edits;
ghost use Rattle.bp_rules.specs.declared.changes.Edit.TheVariants.{Review};

use crate::changes::MarkEdit;
use crate::copies::copy_text;
use crate::decided::{Decided, reviewed};
use crate::document_calls::edited;
use crate::no_such::no_document;
use bp_core::{DocNo, Refusal, RuleKind, StaffNo, Text};
use bp_matter::{Call, DocEntry, Entry, Tables, entry_fits};
use std::alloc::Global;

#[allow(clippy::too_many_arguments)]
pub(crate) fn put_entry(
    alloc: Global,
    tables: &Tables,
    caller: StaffNo,
    doc: DocNo,
    date: &Text,
    author: &Text,
    recipients: &Text,
    description: &Text,
) -> Result<Decided, Refusal>
    requires { IsTrue (names (length tables.now.matter.staff) caller.0) }
    ensures { Decides tables.now.matter (step_by tables.now.matter caller
        (Call.PutEntry doc date.now author.now recipients.now description.now)) result }
{
    if tables.doc_with(doc).is_none() {
        return Err(Refusal::Rule(no_document(doc)));
    }
    let entry = Entry {
        date: copy_text(date)?,
        author: copy_text(author)?,
        recipients: copy_text(recipients)?,
        description: copy_text(description)?,
    };
    put_row(alloc, tables, caller, DocEntry { doc, entry })
}

// The same of a row that says so.
fn put_row(
    alloc: Global,
    tables: &Tables,
    caller: StaffNo,
    row: DocEntry,
) -> Result<Decided, Refusal>
    requires named { IsTrue (names (length tables.now.matter.staff) caller.0) }
    requires there { IsTrue (is_some (doc_with row.doc.0 tables.now.matter)) }
    ensures { Decides tables.now.matter (put_entry tables.now.matter caller row) result }
{
    tables.know_valid();
    know_texts(&row.entry);
    if !entry_fits(&row.entry) {
        return Err(Refusal::bare(RuleKind::TextRefused));
    }
    let call = edited(tables, caller, row.doc)?;
    let mark = entry_put(tables, row);
    reviewed(alloc, tables, call, mark)
}

// The texts of an entry are of Unicode characters.
fn know_texts(entry: &Entry)
    ensures { EntryScalars entry.now }
{
    let _date = entry.date.as_str();
    let _author = entry.author.as_str();
    let _recipients = entry.recipients.as_str();
    let _description = entry.description.as_str();
}

// The log entry of a document, or nothing where it says so.
fn entry_put(tables: &Tables, row: DocEntry) -> MarkEdit
    ensures after { after tables.now.matter (Review call_edits.Stays result)
        ≡ with_entry row tables.now.matter }
    ensures there { IsTrue (mark_there tables.now.matter result) }
    ensures new { after tables.now.matter (Review call_edits.Stays result) ≡ tables.now.matter →
        mark_puts result ≡ [] }
{
    tables.know_valid();
    if stands(tables, &row) {
        return MarkEdit::Stays;
    }
    MarkEdit::PutEntry(row)
}

fn stands(tables: &Tables, row: &DocEntry) -> bool
    ensures fact { IsTrue result → entry_with row.now.doc.0 tables.now.matter ≡ Some row.now }
    ensures back { entry_with row.now.doc.0 tables.now.matter ≡ Some row.now → IsTrue result }
{
    match tables.entry_with(row.doc) {
        None => false,
        Some(old) => same_entry(old, row),
    }
}

fn same_entry(old: &DocEntry, row: &DocEntry) -> bool
    ensures fact { IsTrue result → old.now ≡ row.now }
    ensures back { old.now ≡ row.now → IsTrue result }
{
    old.doc == row.doc && old.entry == row.entry
}
