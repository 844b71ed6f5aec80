// A commit over a disk that stops at each of its calls in turn, and is opened again.
use crate::two_commits::{after, before, change, puts_of};
use bp_core::{PutList, RowList};
use bp_keep::Keeper;
use bp_keep_sql::SqlKeeper;
use sqlite::{Connection, FileStore, Files, Options};
use sqlite_disk::{Crash, Disk, Fuse, Memory};
use std::alloc::{AllocError, Global};
use std::process::Abort;
use std::test::Fail;

type Fused = Fuse<Memory>;

type Database = Connection<FileStore<Fused>>;

// A file of these bytes, which passes so many calls on, and then fails.
fn fused(alloc: Global, bytes: &[u8], calls: u64) -> Result<Fused, AllocError> {
    let mut file = Memory::new(alloc);
    file.write_at(0, bytes).map_err(|_| AllocError)?;
    file.sync().map_err(|_| AllocError)?;
    Ok(Fuse::new(file, calls))
}

fn open(alloc: Global, files: Files<Fused>) -> Result<Database, Files<Fused>> {
    if !files.may_be_used() {
        return Err(files);
    }
    match Connection::open_files(alloc, files, Options::new(7)) {
        Ok(conn) => Ok(conn),
        Err((_, left)) => Err(left.into_files()),
    }
}

fn close(conn: Database) -> Files<Fused> {
    match conn.close_files() {
        Ok(files) => files,
        Err((_, store)) => store.close(),
    }
}

fn new_database(alloc: Global) -> Result<Database, AllocError> {
    let log = fused(alloc, &[], u64::MAX)?;
    let db = fused(alloc, &[], u64::MAX)?;
    open(alloc, Files { log, db }).map_err(|_| AllocError)
}

// Whether these puts were kept, and the files after it.
fn commit(alloc: Global, conn: Database, puts: &PutList) -> (bool, Files<Fused>) {
    let mut keeper = SqlKeeper::over(conn);
    let made = keeper.load(alloc).is_ok() && keeper.commit(alloc, puts).is_ok();
    (made, close(keeper.into_connection()))
}

// The files after the first commit.
fn begun(alloc: Global) -> Result<Files<Fused>, Fail> {
    let puts = puts_of(alloc, before(alloc)?)?;
    match commit(alloc, new_database(alloc)?, &puts) {
        (true, files) => Ok(files),
        (false, _) => Err(Fail::from("the first commit was not made")),
    }
}

// The second commit over copies of these files, of which each stops after so many calls.
fn stopped(
    alloc: Global,
    from: &Files<Fused>,
    log: u64,
    db: u64,
) -> Result<(bool, Files<Fused>), Fail> {
    let log = fused(alloc, from.log.inner().bytes(), log)?;
    let db = fused(alloc, from.db.inner().bytes(), db)?;
    let puts = change(alloc)?;
    match open(alloc, Files { log, db }) {
        Ok(conn) => Ok(commit(alloc, conn, &puts)),
        Err(files) => Ok((false, files)),
    }
}

// The rows that the files have, after a crash.
fn found(alloc: Global, mut files: Files<Fused>) -> Result<RowList, Fail> {
    files.log.crash();
    files.db.crash();
    let conn = open(alloc, files).map_err(|_| AllocError)?;
    Ok(SqlKeeper::over(conn).load(alloc)?)
}

// The rows are those before the second commit or those after it; where it was made, those after.
// Whether it was.
fn stands(
    rt: &impl Abort,
    alloc: Global,
    from: &Files<Fused>,
    log: u64,
    db: u64,
) -> Result<bool, Fail> {
    let (made, files) = stopped(alloc, from, log, db)?;
    let rows = found(alloc, files)?;
    assert!(rt; rows == after(alloc)? || (rows == before(alloc)? && !made));
    Ok(made)
}

// Stops each call of the log or of the database, until the commit is made. Whether it was, and not
// where no call passed.
fn stops(rt: &impl Abort, alloc: Global, of_log: bool) -> Result<bool, Fail> {
    let from = begun(alloc)?;
    for calls in 0..MOST_CALLS {
        let log = if of_log { calls } else { u64::MAX };
        let db = if of_log { u64::MAX } else { calls };
        if stands(rt, alloc, &from, log, db)? {
            return Ok(calls > 0);
        }
    }
    Ok(false)
}

// More than an open and a commit make.
const MOST_CALLS: u64 = 100;

#[test]
fn each_call_of_the_log_stops(rt: HostRuntime) -> Result<(), Fail> {
    assert!(rt; stops(&rt, rt.alloc(), true)?);
    Ok(())
}

#[test]
fn each_call_of_the_file_stops(rt: HostRuntime) -> Result<(), Fail> {
    assert!(rt; stops(&rt, rt.alloc(), false)?);
    Ok(())
}
