// The columns of the DAT file of a batch.
ghost use Rattle.std.specs.Prelude.{◌≡◌, ◌==◌, not, IfOk};
ghost use Rattle.std.specs.List.{list_all, list_any};
ghost use Rattle.bp_load.specs.Documents.{is_begdoc};
ghost use Rattle.bp_import.specs.Columns.{are_columns, is_begattach, is_column, is_end, is_field};

use bp_core::{OutOfMemory, Text, texts_differ};
use bp_load::is_begdoc;
use std::alloc::Global;

/// The most bytes of the name of a column.
pub const MAX_COLUMN: usize = 64;

/// Whether an import takes these columns: BEGDOC and BEGATTACH are among them, no two have one
/// name, and each name has 1 to 64 bytes and no newline.
pub(crate) fn are_columns(alloc: Global, columns: &[Text]) -> Result<bool, OutOfMemory>
    ensures { IfOk result (λ taken. taken ≡ are_columns columns.now) }
{
    if !has_begdoc(columns) || !has_begattach(columns) || !are_named(columns) {
        return Ok(false);
    }
    texts_differ(alloc, columns)
}

fn has_begdoc(columns: &[Text]) -> bool
    ensures { result ≡ list_any is_begdoc columns.now }
{
    columns.iter().any(|column| is_begdoc(column))
}

fn has_begattach(columns: &[Text]) -> bool
    ensures { result ≡ list_any is_begattach columns.now }
{
    columns.iter().any(|column| is_begattach(column))
}

fn are_named(columns: &[Text]) -> bool
    ensures { result ≡ list_all is_column columns.now }
{
    columns.iter().all(|column| is_column(column))
}

fn is_column(name: &Text) -> bool
    ensures { result ≡ is_column name.now }
{
    !name.is_empty() && name.len() <= MAX_COLUMN && has_no_newline(name)
}

fn has_no_newline(text: &Text) -> bool
    ensures { result ≡ list_all (λ c. not (c == 10)) text.now }
{
    text.as_str().chars().all(|c| c != '\n')
}

/// Whether the column names the first page of a family.
pub(crate) fn is_begattach(column: &Text) -> bool
    ensures { result ≡ is_begattach column.now }
{
    column.as_str() == "BEGATTACH"
}

// Whether the column names the last page of a document or a family, which nothing uses.
fn is_end(column: &Text) -> bool
    ensures { result ≡ is_end column.now }
{
    column.as_str() == "ENDDOC" || column.as_str() == "ENDATTACH"
}

/// Whether the column becomes a field.
pub(crate) fn is_field(column: &Text) -> bool
    ensures { result ≡ is_field column.now }
{
    !is_begdoc(column) && !is_begattach(column) && !is_end(column)
}
