// The jobs of a keeper over a database.
use crate::database::Work;
use crate::puts::puts_of;
use anyhow::{Result, bail};
use bp_core::PutList;
use bp_keep::Keeper;
use bp_keep_sql::SqlKeeper;
use sqlite::{Alter, Connection};
use std::alloc::Global;

/// Does the work, and gives the connection back; the sum is how many rows came, or commits were
/// made.
pub fn worked<S: Alter + Drop>(
    alloc: Global,
    connection: Connection<S>,
    work: Work<'_>,
    sum: &mut u64,
) -> Result<Connection<S>> {
    let mut keeper = SqlKeeper::over(connection);
    *sum = work_by(alloc, &mut keeper, work)?;
    Ok(keeper.into_connection())
}

fn work_by<K: Keeper>(alloc: Global, keeper: &mut K, work: Work<'_>) -> Result<u64> {
    match work {
        Work::Open => Ok(0),
        Work::Load(times) => load_times(alloc, keeper, times),
        Work::Commit(mix, puts, times) => commit_times(alloc, keeper, mix, puts, times),
    }
}

fn commit_times<K: Keeper>(
    alloc: Global,
    keeper: &mut K,
    mix: &str,
    puts: u32,
    times: u32,
) -> Result<u64> {
    load_once(alloc, keeper)?;
    for time in 0..times {
        commit_once(alloc, keeper, &puts_of(alloc, mix, time, puts)?)?;
    }
    Ok(u64::from(times))
}

fn load_times<K: Keeper>(alloc: Global, keeper: &mut K, times: u32) -> Result<u64> {
    let mut sum = 0u64;
    for _ in 0..times {
        sum = sum.wrapping_add(load_once(alloc, keeper)?);
    }
    Ok(sum)
}

fn load_once<K: Keeper>(alloc: Global, keeper: &mut K) -> Result<u64> {
    match keeper.load(alloc) {
        Ok(rows) => Ok(rows.len() as u64),
        Err(_) => bail!("the rows aren't loaded"),
    }
}

fn commit_once<K: Keeper>(alloc: Global, keeper: &mut K, puts: &PutList) -> Result<()> {
    match keeper.commit(alloc, puts) {
        Ok(()) => Ok(()),
        Err(_) => bail!("the puts aren't committed"),
    }
}
