// Whether rows are the log entries of a matter.
ghost use Rattle.std.specs.List.{list_all};
ghost use Rattle.std.specs.Prelude.{IsTrue, ◌≡◌};
ghost use Rattle.bp_core.specs.Sorted.{ascends};
ghost use Rattle.bp_matter.specs.Written.{entry_written};
ghost use Rattle.bp_matter.specs.Matter.{entry_key};
ghost use Rattle.bp_matter.specs.ValidEntries.{EntryFacts, doc_entry_fits, entry_fits};

use super::numbers::names;
use crate::limits::{MAX_DESCRIPTION, MAX_NAME};
use crate::rows::{DocEntry, Entry};
use crate::texts::is_text;
use bp_core::ascends;

/// Whether a call takes the four texts of a log entry.
pub fn entry_fits(entry: &Entry) -> bool
    ensures { result ≡ entry_fits entry.now }
{
    is_text(&entry.date, MAX_NAME)
        && is_text(&entry.author, MAX_NAME)
        && is_text(&entry.recipients, MAX_NAME)
        && is_text(&entry.description, MAX_DESCRIPTION)
}

fn entries_fit(docs: usize, rows: &[DocEntry]) -> bool
    ensures { result ≡ list_all (doc_entry_fits docs) rows.now }
{
    rows.iter()
        .all(|row| names(docs, row.doc.0) && entry_fits(&row.entry))
}

pub(crate) fn entries_valid(docs: usize, entries: &[DocEntry]) -> bool
    requires written { IsTrue (list_all entry_written entries.now) }
    ensures order { IsTrue result → IsTrue (ascends entry_key 0 entries.now) }
    ensures fact { IsTrue result → EntryFacts docs entries.now }
    ensures back { EntryFacts docs entries.now → IsTrue result }
{
    if !ascends(entries) {
        return false;
    }
    entries_fit(docs, entries)
}
