// A database of many rows.
use crate::two_commits::puts_of;
use bp_core::{Bytes, Row, RowList};
use bp_keep::Keeper;
use bp_keep_sql::SqlKeeper;
use sqlite::Connection;
use std::alloc::{AllocError, Global};
use std::process::Abort;
use std::test::Fail;

// More than a matter of some days, and than the limits that a database may be given.
const MOST: u32 = 20_000;

// Bodies of 0 to 12 bytes.
const BODY: [u8; 12] = [7; 12];

fn many(alloc: Global) -> Result<RowList, AllocError> {
    let mut rows = Vec::new(alloc);
    for k1 in 0..MOST {
        let length = usize::try_from(k1 % 13).unwrap_or(0);
        let body = Bytes::from_vec(Vec::from_slice(alloc, &BODY[..length])?);
        let (kind, k2) = (4, 1);
        rows.push(Row { kind, k1, k2, body })?;
    }
    Ok(RowList::from_vec(rows))
}

// One commit keeps them all, and a load tells them.
fn keeps(rt: &impl Abort, alloc: Global, keeper: &mut impl Keeper) -> Result<(), Fail> {
    let none = keeper.load(alloc)?;
    assert!(rt; none.is_empty());
    let puts = puts_of(alloc, many(alloc)?)?;
    assert_eq!(rt; keeper.commit(alloc, &puts), Ok(()));
    assert!(rt; keeper.load(alloc)? == many(alloc)?);
    Ok(())
}

#[test]
fn twenty_thousand_rows_are_kept_and_told(rt: HostRuntime) -> Result<(), Fail> {
    let alloc = rt.alloc();
    let mut keeper = SqlKeeper::over(Connection::open_in_memory(alloc)?);
    keeps(&rt, alloc, &mut keeper)
}
