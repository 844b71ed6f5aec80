// Copies of rows and of puts.
ghost use Rattle.std.specs.Prelude.{◌≡◌, IfOk, reverse};
ghost use Rattle.bp_keep.specs.Slots.{held};

use super::slots::Slots;
use bp_core::{Bytes, OutOfMemory, Put, Row};
use std::alloc::Global;

// Copies of the rows of the filled slots.
pub fn copy_filled(alloc: Global, slots: &Slots) -> Result<Vec<Row>, OutOfMemory>
    ensures { IfOk result (λ rows. rows.items ≡ held slots.now.entries) }
{
    let mut rows = Vec::new(alloc);
    for (_, slot) in slots {
        if let Some(row) = slot {
            rows.push(copy_row(alloc, row)?)?;
        }
    }
    Ok(rows)
}

// Copies of these puts, the last one first.
pub fn copy_reversed(alloc: Global, puts: &[Put]) -> Result<Vec<Put>, OutOfMemory>
    ensures { IfOk result (λ copies. reverse copies.items ≡ puts.now) }
{
    let mut copies = Vec::new(alloc);
    for change in puts {
        copies.push(copy_put(alloc, change)?)?;
    }
    copies.reverse();
    Ok(copies)
}

fn copy_row(alloc: Global, row: &Row) -> Result<Row, OutOfMemory>
    ensures { IfOk result (λ copy. copy ≡ row.now) }
{
    let body = copy_bytes(alloc, &row.body)?;
    Ok(Row {
        kind: row.kind,
        k1: row.k1,
        k2: row.k2,
        body,
    })
}

fn copy_put(alloc: Global, change: &Put) -> Result<Put, OutOfMemory>
    ensures { IfOk result (λ copy. copy ≡ change.now) }
{
    let body = copy_body(alloc, &change.body)?;
    Ok(Put {
        kind: change.kind,
        k1: change.k1,
        k2: change.k2,
        body,
    })
}

fn copy_body(alloc: Global, body: &Option<Bytes>) -> Result<Option<Bytes>, OutOfMemory>
    ensures { IfOk result (λ copy. copy ≡ body.now) }
{
    match body {
        None => Ok(None),
        Some(bytes) => Ok(Some(copy_bytes(alloc, bytes)?)),
    }
}

fn copy_bytes(alloc: Global, bytes: &Bytes) -> Result<Bytes, OutOfMemory>
    ensures { IfOk result (λ copy. copy ≡ bytes.now) }
{
    let copy = Vec::from_slice(alloc, bytes.as_slice())?;
    Ok(Bytes::from_vec(copy))
}
