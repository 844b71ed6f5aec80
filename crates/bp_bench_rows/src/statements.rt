// The jobs of the keeper's statements alone: the same texts, each through the library as it is.
use crate::database::Work;
use crate::puts::puts_of;
use anyhow::{Result, bail};
use bp_core::Put;
use sqlite::{Alter, Connection, Error, Transaction, params};
use std::alloc::Global;

const TABLE: &str =
    "CREATE TABLE IF NOT EXISTS kept (kind INTEGER NOT NULL CHECK (kind BETWEEN 0 AND 255), k1 INTEGER NOT NULL CHECK (k1 BETWEEN 0 AND 4294967295), k2 INTEGER NOT NULL CHECK (k2 BETWEEN 0 AND 4294967295), body BLOB NOT NULL, PRIMARY KEY (kind, k1, k2)) STRICT";

const UPSERT: &str =
    "INSERT INTO kept (kind, k1, k2, body) VALUES (?1, ?2, ?3, ?4) ON CONFLICT (kind, k1, k2) DO UPDATE SET body = excluded.body";

const ROWIDS: &str = "SELECT rowid FROM kept ORDER BY rowid";

const ROWS: &str = "SELECT kind, k1, k2, body FROM kept ORDER BY kind, k1, k2";

/// Does the work, and gives the connection back; the sum is how many rows came, or commits were
/// made.
pub fn worked<S: Alter + Drop>(
    alloc: Global,
    mut connection: Connection<S>,
    work: Work<'_>,
    sum: &mut u64,
) -> Result<Connection<S>> {
    *sum = work_by(alloc, &mut connection, work)?;
    Ok(connection)
}

fn work_by<S: Alter>(alloc: Global, connection: &mut Connection<S>, work: Work<'_>) -> Result<u64> {
    match work {
        Work::Open => Ok(0),
        Work::Load(times) => load_times(connection, times),
        Work::Commit(mix, puts, times) => commit_times(alloc, connection, mix, puts, times),
    }
}

fn commit_times<S: Alter>(
    alloc: Global,
    connection: &mut Connection<S>,
    mix: &str,
    puts: u32,
    times: u32,
) -> Result<u64> {
    begin(connection)?;
    count_of(connection, ROWS)?;
    for time in 0..times {
        commit_once(connection, puts_of(alloc, mix, time, puts)?.as_slice())?;
    }
    Ok(u64::from(times))
}

fn load_times<S: Alter>(connection: &mut Connection<S>, times: u32) -> Result<u64> {
    let mut sum = 0u64;
    for time in 0..times {
        if time == 0 {
            begin(connection)?;
        }
        sum = sum.wrapping_add(count_of(connection, ROWS)?);
    }
    Ok(sum)
}

// What the first load of a keeper begins with.
fn begin<S: Alter>(connection: &mut Connection<S>) -> Result<()> {
    if connection.execute(TABLE, &[]).is_err() {
        bail!("the table isn't made");
    }
    count_of(connection, ROWIDS)?;
    Ok(())
}

// How many rows a query has.
fn count_of<S: Alter>(connection: &mut Connection<S>, query: &str) -> Result<u64> {
    match connection.query_all(query, &[]) {
        Ok(lines) => Ok(lines.len() as u64),
        Err(_) => bail!("the rows aren't given"),
    }
}

fn commit_once<S: Alter>(connection: &mut Connection<S>, puts: &[Put]) -> Result<()> {
    if !connection.is_autocommit() {
        bail!("a transaction is under way");
    }
    let mut transaction = connection.transaction();
    if upsert_all(&mut transaction, puts).is_err() {
        bail!("a put isn't made");
    }
    match transaction.commit() {
        Ok(()) => Ok(()),
        Err(_) => bail!("the puts aren't committed"),
    }
}

fn upsert_all<S: Alter>(transaction: &mut Transaction<'_, S>, puts: &[Put]) -> Result<(), Error> {
    for put in puts {
        upsert(transaction, put)?;
    }
    Ok(())
}

fn upsert<S: Alter>(transaction: &mut Transaction<'_, S>, put: &Put) -> Result<(), Error> {
    if let Some(body) = &put.body {
        let values = params![u32::from(put.kind), put.k1, put.k2, body.as_slice()];
        transaction.execute(UPSERT, values)?;
    }
    Ok(())
}
