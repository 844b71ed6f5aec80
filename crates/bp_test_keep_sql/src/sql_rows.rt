// Two commits over a database in memory, its connection handed from keeper to keeper.
use crate::two_commits::{after, before, change, puts_of};
use bp_core::RowList;
use bp_keep::{KeepRefusal, Keeper};
use bp_keep_sql::SqlKeeper;
use sqlite::{Alter, Connection};
use std::alloc::Global;
use std::process::Abort;
use std::test::Fail;

// Before a first load there is no table: a commit is refused, and counted. A load makes it, without
// rows.
fn begins<S: Alter + Drop>(
    rt: &impl Abort,
    alloc: Global,
    conn: Connection<S>,
) -> Result<Connection<S>, Fail> {
    let mut keeper = SqlKeeper::over(conn);
    let puts = puts_of(alloc, before(alloc)?)?;
    assert_eq!(rt; keeper.commit(alloc, &puts), Err(KeepRefusal::Failed));
    assert_eq!(rt; keeper.faults(), 1);
    let none = keeper.load(alloc)?;
    assert!(rt; none.is_empty());
    assert_eq!(rt; keeper.commit(alloc, &puts), Ok(()));
    assert_eq!(rt; keeper.faults(), 1);
    Ok(keeper.into_connection())
}

// A keeper of this connection tells these rows, in their order.
fn stands<S: Alter + Drop>(
    rt: &impl Abort,
    alloc: Global,
    conn: Connection<S>,
    rows: &RowList,
) -> Result<SqlKeeper<S>, Fail> {
    let mut keeper = SqlKeeper::over(conn);
    assert!(rt; keeper.load(alloc)? == *rows);
    assert_eq!(rt; keeper.faults(), 0);
    Ok(keeper)
}

#[test]
fn rows_come_change_and_go(rt: HostRuntime) -> Result<(), Fail> {
    let alloc = rt.alloc();
    let conn = begins(&rt, alloc, Connection::open_in_memory(alloc)?)?;
    let mut keeper = stands(&rt, alloc, conn, &before(alloc)?)?;
    for _ in 0..2 {
        let changed = keeper.commit(alloc, &change(alloc)?);
        assert_eq!(rt; changed, Ok(()));
    }
    let _keeper = stands(&rt, alloc, keeper.into_connection(), &after(alloc)?)?;
    Ok(())
}
