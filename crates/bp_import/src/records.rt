// The records of the DAT file of a batch, one a document.
ghost use Rattle.std.specs.Prelude.{◌≡◌, length, map, IfOk, IsTrue};
ghost use Rattle.std.specs.List.{filter};
ghost use Rattle.bp_load.specs.Table.{is_even};
ghost use Rattle.bp_import.specs.Records.{fields_of, record_of, records_of};

use crate::columns::{is_begattach, is_field};
use bp_core::{ListOf, OutOfMemory, Text, TextList};
use bp_load::{TextTable, is_begdoc};
use std::alloc::Global;

/// What a record says of its document.
#[derive(Debug, Drop)]
pub(crate) struct Record {
    /// The image id of its first page.
    pub(crate) id: Text,
    /// The image id of the first page of its family; empty where that is its own.
    pub(crate) attach: Text,
    /// A value for each field of the batch, in their order.
    pub(crate) values: TextList,
}

/// The records of these rows, each as long as the columns. The rows are taken from the last on.
pub(crate) fn records_of(
    alloc: Global,
    columns: &[Text],
    rows: TextTable,
) -> Result<Vec<Record>, OutOfMemory>
    requires { IsTrue (is_even (record { columns = columns.now; rows = rows })) }
    ensures { IfOk result (λ docs. docs.items
        ≡ records_of (record { columns = columns.now; rows = rows })) }
{
    let mut left = rows.into_vec();
    let mut docs = Vec::with_capacity(alloc, left.len())?;
    while let Some(row) = left.pop() {
        docs.push(record_of(alloc, columns, row)?)?;
    }
    docs.reverse();
    Ok(docs)
}

/// The fields of a batch with these columns: all that an import doesn't use itself. It takes no
/// memory.
pub(crate) fn fields_of(columns: TextList) -> TextList
    ensures { result ≡ fields_of columns }
{
    let mut fields = columns.into_vec();
    fields.retain(|column| is_field(column));
    ListOf::from_vec(fields)
}

// The record of a row. The cells are taken from the last on, so that the first column of a name
// counts.
fn record_of(alloc: Global, columns: &[Text], row: TextList) -> Result<Record, OutOfMemory>
    requires { length row ≡ length columns.now }
    ensures { IfOk result (λ doc. doc ≡ record_of columns.now row) }
{
    let mut cells = row.into_vec();
    let mut left = columns;
    let mut id = Text::from_string(String::new(alloc));
    let mut attach = Text::from_string(String::new(alloc));
    let mut values = Vec::with_capacity(alloc, cells.len())?;
    while let Some(cell) = cells.pop() {
        let Some((column, before)) = left.split_last() else {
            break;
        };
        if is_begdoc(column) {
            id = cell;
        } else if is_begattach(column) {
            attach = cell;
        } else if is_field(column) {
            values.push(cell)?;
        }
        left = before;
    }
    values.reverse();
    Ok(Record {
        id,
        attach,
        values: ListOf::from_vec(values),
    })
}
