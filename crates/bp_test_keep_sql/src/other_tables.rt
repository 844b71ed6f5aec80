// Tables of the same name, which another program made.
use bp_keep::{KeepRefusal, Keeper};
use bp_keep_sql::SqlKeeper;
use sqlite::{Connection, MemStore};
use std::alloc::Global;
use std::process::Abort;
use std::test::Fail;

// A keeper over a database that these statements made.
fn over(alloc: Global, sql: &str) -> Result<SqlKeeper<MemStore>, Fail> {
    let mut conn = Connection::open_in_memory(alloc)?;
    conn.execute_batch(sql)?;
    Ok(SqlKeeper::over(conn))
}

// A load fails, and is counted.
fn fails(rt: &impl Abort, alloc: Global, sql: &str) -> Result<(), Fail> {
    let mut keeper = over(alloc, sql)?;
    let failed = keeper.load(alloc).err();
    assert_eq!(rt; failed, Some(KeepRefusal::Failed));
    assert_eq!(rt; keeper.faults(), 1);
    Ok(())
}

const LOOSE: &str = "CREATE TABLE kept (kind, k1, k2, body); ";

#[test]
fn a_row_that_is_no_key_with_a_body_is_a_fault(rt: HostRuntime) -> Result<(), Fail> {
    let alloc = rt.alloc();
    let rows = [
        "INSERT INTO kept VALUES (4, 2, 1, 'text')",
        "INSERT INTO kept VALUES (256, 2, 1, x'07')",
        "INSERT INTO kept VALUES (4, -1, 1, x'07')",
        "INSERT INTO kept VALUES (4, 2, 4294967296, x'07')",
        "INSERT INTO kept VALUES (4, 2, NULL, x'07')",
        "INSERT INTO kept VALUES (4, 2, 1, x'07'), (4, 2, 1, x'08')",
    ];
    for row in rows {
        let mut sql = String::from_str(alloc, LOOSE)?;
        sql.push_str(row)?;
        fails(&rt, alloc, sql.as_str())?;
    }
    fails(&rt, alloc, "CREATE TABLE kept (kind, k1, k2)")
}
