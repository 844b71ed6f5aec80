// Jobs over a database of kept rows: by the keeper, or by its statements alone. What is done with an
// open connection is written for any store, and its own store is named in one function alone.
use crate::{kept, statements};
use anyhow::{Result, bail};
use sqlite::{Alter, Connection, FileStore};
use sqlite_disk::Disk;
use std::alloc::Global;

/// What is done with a connection.
#[derive(Clone, Copy)]
pub enum Work<'a> {
    Open,
    /// So many loads.
    Load(u32),
    /// Commits of so many puts of a mix, so many times.
    Commit(&'a str, u32, u32),
}

// A job by one of the ways, after which the file is closed or not.
#[derive(Clone, Copy)]
struct Task<'a> {
    way: &'a str,
    work: Work<'a>,
    closes: bool,
}

/// Does a job over a database file. Nothing is closed but by the job `close`, where its last word
/// isn't 0.
pub fn run(rt: &HostRuntime, way: &str, operands: &[String]) -> Result<u64> {
    let [job, file, operands @ ..] = operands else {
        bail!("JOB FILE ..");
    };
    let file = file.as_str();
    match job.as_str() {
        "open" => open_times(rt, file, way, times_of(operands)?),
        "load" => over(rt, file, task_of(way, Work::Load(times_of(operands)?))),
        "commit" => over(rt, file, task_of(way, commits_of(operands)?)),
        "close" => over(rt, file, close_of(way, operands)?),
        other => bail!("no job {other}"),
    }
}

fn times_of(operands: &[String]) -> Result<u32> {
    let [times] = operands else {
        bail!("TIMES");
    };
    Ok(times.parse::<u32>()?)
}

fn commits_of(operands: &[String]) -> Result<Work<'_>> {
    let [mix, puts, times] = operands else {
        bail!("MIX PUTS TIMES");
    };
    let (puts, times) = (puts.parse::<u32>()?, times.parse::<u32>()?);
    Ok(Work::Commit(mix.as_str(), puts, times))
}

fn task_of<'a>(way: &'a str, work: Work<'a>) -> Task<'a> {
    let closes = false;
    Task { way, work, closes }
}

// One commit, and then a close.
fn close_of<'a>(way: &'a str, operands: &'a [String]) -> Result<Task<'a>> {
    let [mix, puts, times] = operands else {
        bail!("MIX PUTS TIMES");
    };
    let (puts, times) = (puts.parse::<u32>()?, times.parse::<u32>()?);
    let work = Work::Commit(mix.as_str(), puts, 1);
    let closes = times > 0;
    Ok(Task { way, work, closes })
}

fn open_times(rt: &HostRuntime, file: &str, way: &str, times: u32) -> Result<u64> {
    for _ in 0..times {
        over(rt, file, task_of(way, Work::Open))?;
    }
    Ok(u64::from(times))
}

fn over(rt: &HostRuntime, file: &str, task: Task<'_>) -> Result<u64> {
    match Connection::open(rt, file) {
        Ok(connection) => work_and_close(rt.alloc(), connection, task),
        Err(_) => bail!("the file isn't opened"),
    }
}

fn work_and_close<D: Disk + Drop>(
    alloc: Global,
    connection: Connection<FileStore<D>>,
    task: Task<'_>,
) -> Result<u64> {
    let mut sum = 0u64;
    let connection = worked(alloc, connection, task, &mut sum)?;
    close_where(connection, task.closes)?;
    Ok(sum)
}

fn close_where<D: Disk + Drop>(connection: Connection<FileStore<D>>, wanted: bool) -> Result<()> {
    match wanted {
        true => close(connection),
        false => let_go(connection),
    }
}

fn close<D: Disk + Drop>(connection: Connection<FileStore<D>>) -> Result<()> {
    match connection.close() {
        Ok(()) => Ok(()),
        Err(_) => bail!("the file isn't closed"),
    }
}

fn let_go<D: Disk + Drop>(_connection: Connection<FileStore<D>>) -> Result<()> {
    Ok(())
}

// Does the work, and gives the connection back; the sum is how many rows came, or how many commits
// were made.
fn worked<S: Alter + Drop>(
    alloc: Global,
    connection: Connection<S>,
    task: Task<'_>,
    sum: &mut u64,
) -> Result<Connection<S>> {
    match task.way {
        "keeper" => kept::worked(alloc, connection, task.work, sum),
        _ => statements::worked(alloc, connection, task.work, sum),
    }
}
