// Two commits, each of more than a page of the database: rows come, and then some of them go, some change,
// and others come.
use bp_core::{Bytes, Put, PutList, Row, RowList};
use std::alloc::{AllocError, Global};

// A body is so long.
const LENGTH: usize = 100;

fn row(alloc: Global, k1: u32, byte: u8) -> Result<Row, AllocError> {
    let body = Bytes::from_vec(Vec::from_slice(alloc, &[byte; LENGTH])?);
    let (kind, k2) = (4, 1);
    Ok(Row { kind, k1, k2, body })
}

fn rows(alloc: Global, first: u32, end: u32, byte: u8) -> Result<RowList, AllocError> {
    let mut rows = Vec::new(alloc);
    for k1 in first..end {
        rows.push(row(alloc, k1, byte)?)?;
    }
    Ok(RowList::from_vec(rows))
}

// The rows after the first commit.
pub fn before(alloc: Global) -> Result<RowList, AllocError> {
    rows(alloc, 0, 40, 1)
}

// The rows after the second.
pub fn after(alloc: Global) -> Result<RowList, AllocError> {
    rows(alloc, 20, 60, 2)
}

// Adds the puts of these rows.
fn add_puts(puts: &mut Vec<Put>, rows: RowList) -> Result<(), AllocError> {
    for row in rows.into_vec() {
        let Row { kind, k1, k2, body } = row;
        let body = Some(body);
        puts.push(Put { kind, k1, k2, body })?;
    }
    Ok(())
}

// The puts of these rows.
pub fn puts_of(alloc: Global, rows: RowList) -> Result<PutList, AllocError> {
    let mut puts = Vec::new(alloc);
    add_puts(&mut puts, rows)?;
    Ok(PutList::from_vec(puts))
}

// The puts of the second commit.
pub fn change(alloc: Global) -> Result<PutList, AllocError> {
    let mut puts = Vec::new(alloc);
    for k1 in 0..20 {
        let (kind, k2, body) = (4, 1, None);
        puts.push(Put { kind, k1, k2, body })?;
    }
    add_puts(&mut puts, after(alloc)?)?;
    Ok(PutList::from_vec(puts))
}
