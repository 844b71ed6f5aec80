// The program over the system.
ghost use Rattle.std.specs.Prelude.{◌≡◌, IfErr, IfOk, IsSomeAnd, IsTrue};
ghost use Rattle.std.specs.Option.{option_map};
ghost use Rattle.sqlite.specs.Opening.{is_open_error};
ghost use Rattle.sqlite_wal.specs.Files.{image_at};
ghost use Rattle.bp_cli.specs.Arguments.{EndsOpened, EndsStopped, EndsWithDoors, RunsFrom, stop_unopened};
ghost use Rattle.bp_cli.specs.Database.{ClosesAfter, EndsFiles, OpensOver};
ghost use Rattle.bp_keep_sql.specs.Keeper.{KeptOver};

use crate::doors::Doors;
use crate::printing::finish;
use crate::run::run_arguments;
use crate::stops::Stop;
use bp_keep_sql::SqlKeeper;
use bp_outside::{Door, FileFolder, FileSource, StdOut};
use sqlite::{Alter, Connection, Error, ErrorCode, FileFrom, FileStore, Files as Pair, Start};
use sqlite_disk::Disk;
use std::alloc::Global;
use std::env::Args;
use std::rt::{Files, HostRuntime};
use std::sync::Wait;
use std::thread::Threads;
use std::{fs, io};

/// The file of the kept rows, in the current folder.
pub const MATTER: &str = "matter.db";

/// How a run over a database ended: its status, and the database, if it was opened.
#[derive(Drop)]
pub struct Ran<A: Alter> {
    pub status: u8,
    pub connection: Option<Connection<A>>,
}

/// How the program ended: its status, and where the database was opened its two files, closed, or what
/// is left of them where the log couldn't be copied. What was committed stands also then.
#[derive(Drop)]
pub struct Left<D: Disk + Drop> {
    pub status: u8,
    pub files: Option<Result<Pair<D>, (Error, FileStore<D>)>>,
}

/// What holds the numbers 0, 1 and 2 where the caller closed a standard stream, so that no file of
/// the program gets one and no line is printed into a page or the database. It is open for reading
/// alone: a write fails.
#[derive(Drop)]
pub struct Descriptors<F> {
    _input: io::Result<F>,
    _output: io::Result<F>,
    _errors: io::Result<F>,
}

/// Holds these numbers, as long as its result lasts.
pub fn hold_descriptors<S: Files>(system: &S) -> Descriptors<S::File> {
    Descriptors {
        _input: fs::open(system, "/"),
        _output: fs::open(system, "/"),
        _errors: fs::open(system, "/"),
    }
}

/// The program, from the words that the system gave to the exit status, over the file `matter.db` and
/// the log beside it, which it makes where they are missing: `S` says what they held, for each such
/// contents. A run over them is as `run_over` has it, and they are closed behind it.
pub fn program<S: Start + Send, T: Threads + Wait + Sync, D: Door + Send + Drop>(
    rt: &HostRuntime,
    threads: &T,
    start: S,
    doors: Doors<D>,
    answer: io::Result<Args>,
) -> Left<FileFrom<S>>
    ensures { EndsFiles (image_at S.Start) D.shows answer doors result.files result.status }
{
    let opened = open_matter(rt, start);
    let ran = run_over(rt, threads, rt.alloc(), opened, doors, answer);
    Left {
        status: ran.status,
        files: close(ran.connection),
    }
}

// A connection to the files of the matter.
fn open_matter<S: Start>(
    rt: &HostRuntime,
    start: S,
) -> Result<Connection<FileStore<FileFrom<S>>>, Error>
    ensures opens { IfOk result (OpensOver (image_at S.Start)) }
    ensures named { IfErr result (λ e. IsTrue (is_open_error e)) }
{
    match SqlKeeper::open(rt, MATTER, start) {
        Ok(keeper) => Ok(keeper.into_connection()),
        Err(error) => Err(error),
    }
}

// Copies the log of the database into its file.
fn close<D: Disk + Drop>(
    connection: Option<Connection<FileStore<D>>>,
) -> Option<Result<Pair<D>, (Error, FileStore<D>)>>
    ensures { ClosesAfter connection result }
{
    match connection {
        Some(connection) => Some(SqlKeeper::over(connection).close()),
        None => None,
    }
}

/// A run over a database, from the words that the system gave to the exit status: it keeps rows in the
/// database that was opened, and hands that back; it reads files below the current folder, writes
/// files below the folder `out`, and prints to the standard output. Where no database could be
/// opened, or no doors could be made, the program says so before it looks at the words, and ends
/// with 6 for want of memory, else 5.
pub fn run_over<
    S: Files + Print,
    T: Threads + Wait + Sync,
    A: Alter + Send + Drop,
    D: Door + Send + Drop,
>(
    system: &S,
    threads: &T,
    alloc: Global,
    opened: Result<Connection<A>, Error>,
    doors: Doors<D>,
    answer: io::Result<Args>,
) -> Ran<A>
    ensures { EndsOpened A.Store D.shows answer opened doors result.connection result.status }
{
    match opened {
        Ok(connection) => with_doors(system, threads, alloc, connection, doors, answer),
        Err(error) => Ran {
            status: unopened(system, alloc, &error),
            connection: None,
        },
    }
}

fn with_doors<
    S: Files + Print,
    T: Threads + Wait + Sync,
    A: Alter + Send + Drop,
    D: Door + Send + Drop,
>(
    system: &S,
    threads: &T,
    alloc: Global,
    connection: Connection<A>,
    doors: Doors<D>,
    answer: io::Result<Args>,
) -> Ran<A>
    ensures { EndsWithDoors A.Store D.shows answer connection doors result.connection
        result.status }
{
    match doors {
        Ok(doors) => over_database(system, threads, alloc, connection, doors, answer),
        Err(lack) => Ran {
            status: stopped(system, alloc, Stop::from(lack)),
            connection: Some(connection),
        },
    }
}

fn over_database<
    S: Files + Print,
    T: Threads + Wait + Sync,
    A: Alter + Send + Drop,
    D: Door + Send + Drop,
>(
    system: &S,
    threads: &T,
    alloc: Global,
    connection: Connection<A>,
    doors: Vec<D>,
    answer: io::Result<Args>,
) -> Ran<A>
    ensures { IsSomeAnd result.connection (λ handed.
        RunsFrom A.Store D.shows answer connection doors.items handed result.status) }
{
    let mut source = FileSource::below(system, ".");
    let mut folder = FileFolder::below(system, "out");
    let mut out = StdOut::of(system);
    let ended = run_arguments(
        threads,
        alloc,
        answer,
        &mut source,
        SqlKeeper::over(connection),
        &mut folder,
        &mut out,
        doors,
    );
    Ran {
        status: ended.status,
        connection: connection_of(ended.keeper),
    }
}

fn connection_of<A: Alter + Drop>(keeper: Option<SqlKeeper<A>>) -> Option<Connection<A>>
    ensures { result ≡ option_map (λ (kept : KeptOver A). kept.conn) keeper }
{
    match keeper {
        Some(keeper) => Some(keeper.into_connection()),
        None => None,
    }
}

// Says that there is no database to work over.
fn unopened<S: Print>(system: &S, alloc: Global, error: &Error) -> u8
    ensures { EndsStopped (stop_unopened error.now) result }
{
    stopped(system, alloc, stop_of(error))
}

// Says why nothing is done.
fn stopped<S: Print>(system: &S, alloc: Global, stop: Stop) -> u8
    ensures { EndsStopped stop result }
{
    let mut out = StdOut::of(system);
    finish(alloc, &mut out, Err(stop))
}

fn stop_of(error: &Error) -> Stop
    ensures { result ≡ stop_unopened error.now }
{
    match error {
        Error::SqliteFailure(ErrorCode::OutOfMemory) => Stop::OutOfMemory,
        _ => Stop::KeeperFault,
    }
}
