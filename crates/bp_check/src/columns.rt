// The columns of a DAT file that a check uses.
ghost use Rattle.std.specs.Prelude.{◌≡◌, IfOk};
ghost use Rattle.std.specs.List.{list_any};
ghost use Rattle.bp_load.specs.Documents.{is_begdoc};
ghost use Rattle.bp_check.specs.Columns.{are_columns, is_enddoc, is_pagecount, is_textpath};

use bp_core::{OutOfMemory, Text, texts_differ};
use bp_load::is_begdoc;
use std::alloc::Global;

/// Whether a check takes these columns: BEGDOC and ENDDOC are among them, and no two have one name.
pub(crate) fn are_columns(alloc: Global, columns: &[Text]) -> Result<bool, OutOfMemory>
    ensures { IfOk result (λ taken. taken ≡ are_columns columns.now) }
{
    if !has_begdoc(columns) || !has_enddoc(columns) {
        return Ok(false);
    }
    texts_differ(alloc, columns)
}

fn has_begdoc(columns: &[Text]) -> bool
    ensures { result ≡ list_any is_begdoc columns.now }
{
    columns.iter().any(|column| is_begdoc(column))
}

fn has_enddoc(columns: &[Text]) -> bool
    ensures { result ≡ list_any is_enddoc columns.now }
{
    columns.iter().any(|column| is_enddoc(column))
}

/// Whether the column names the last page of a document.
pub(crate) fn is_enddoc(column: &Text) -> bool
    ensures { result ≡ is_enddoc column.now }
{
    column.as_str() == "ENDDOC"
}

/// Whether it says how many pages there are.
pub(crate) fn is_pagecount(column: &Text) -> bool
    ensures { result ≡ is_pagecount column.now }
{
    column.as_str() == "PAGECOUNT"
}

/// Whether it names the text.
pub(crate) fn is_textpath(column: &Text) -> bool
    ensures { result ≡ is_textpath column.now }
{
    column.as_str() == "TEXTPATH"
}
