// A keeper over a database file and its log.
ghost use Rattle.std.specs.Prelude.{◌≡◌, true, false, IfErr, IfOk, IsTrue};
ghost use Rattle.sqlite_store.specs.FileStore.{view};
ghost use Rattle.sqlite_std_file.specs.File.{IsFresh, file_is_usable};
ghost use Rattle.sqlite_trees.specs.View.{IsClean};
ghost use Rattle.sqlite_wal.specs.Files.{image_at};
ghost use Rattle.sqlite.specs.Files.{FailsToClose, IsBlankAs, IsClosed, IsOpened, file_state};
ghost use Rattle.sqlite.specs.Held.{IsNew};
ghost use Rattle.sqlite.specs.Opening.{is_open_error};
ghost use Rattle.sqlite.specs.Start.{FindsIn};
ghost use Rattle.sqlite.specs.State.{HasCleanDisk};
ghost use Rattle.bp_keep_sql.specs.Files.{Closes, TellsOf};
ghost use Rattle.bp_keep_sql.specs.Told.{rows_told};

use crate::keeper::SqlKeeper;
use sqlite::{Connection, Error, ErrorCode, FileFrom, FileStore, Files, Options, Start};
use sqlite_disk::Disk;
use sqlite_std_file::OpenError;
use std::hash::{BuildHasher, RandomState};
use std::io::ErrorKind;
use std::rt::HostRuntime;

// How many pages of 4,096 bytes that were read are kept. Each open fills room for them with zeros.
const CACHE_PAGES: usize = 256;

impl<S: Start> SqlKeeper<FileStore<FileFrom<S>>> {
    /// A keeper over the database file at this path and the log beside it, which are made where they
    /// are missing; each page of a new file has a sum, and a page whose sum is wrong is refused. `S`
    /// says what the files held, and its value is used up: no clause ties it to the path. The keeper
    /// tells the rows of these files at once.
    pub fn open(
        rt: &HostRuntime,
        path: &str,
        start: S,
    ) -> Result<SqlKeeper<FileStore<FileFrom<S>>>, Error>
        ensures opened { IfOk result (λ k. HasCleanDisk (file_state k.conn) → IsOpened k.conn) }
        ensures told { IfOk result (λ k. HasCleanDisk (file_state k.conn)
            → TellsOf (image_at S.Start) (rows_told (file_state k.conn))) }
        ensures sums { IfOk result (λ k. HasCleanDisk (file_state k.conn)
            → IsBlankAs true (image_at S.Start) → (view k.conn.store).has_sums ≡ true) }
        ensures fresh { IfOk result (λ k. k ≡ record {
          conn = k.conn;
          numbered = false;
          faults = 0;
          loads = 0;
          commits = 0;
        }) }
        ensures named { IfErr result (λ e. IsTrue (is_open_error e)) }
    {
        match connect(rt, path, start) {
            Ok(conn) => Ok(SqlKeeper::over(conn)),
            Err(error) => Err(error),
        }
    }
}

impl<D: Disk + Drop> SqlKeeper<FileStore<D>> {
    /// Copies the log into the database file, and gives both files back: they keep the rows that the
    /// keeper told last.
    pub fn close(self) -> Result<Files<D>, (Error, FileStore<D>)>
        ensures kept { IfOk result (λ files. Closes self.conn files) }
        ensures refused { IfErr result (λ e. IsClosed self.conn e.1
            × (IsClean (view e.1) → FailsToClose self.conn e.1 e.0)) }
    {
        let connection = self.into_connection();
        let _settled = connection.is_autocommit();
        let _schema = connection.schema();
        connection.close_files()
    }
}

// A connection to the files at a path, as the kit's own `open_from`, but with a smaller room for pages:
// the kit's takes nine tenths of the time that a command over a small matter needs.
fn connect<S: Start>(
    rt: &HostRuntime,
    path: &str,
    start: S,
) -> Result<Connection<FileStore<FileFrom<S>>>, Error>
    ensures opened { IfOk result (λ c. HasCleanDisk (file_state c) → IsOpened c) }
    ensures found { IfOk result (λ c. HasCleanDisk (file_state c)
        → FindsIn (image_at S.Start) (file_state c)) }
    ensures sums { IfOk result (λ c. HasCleanDisk (file_state c)
        → IsBlankAs true (image_at S.Start) → (view c.store).has_sums ≡ true) }
    ensures fresh { IfOk result IsNew }
    ensures named { IfErr result (λ e. IsTrue (is_open_error e)) }
{
    let files = files_at(rt, path, start)?;
    let options = options(rt)?;
    match Connection::open_files_with(rt.alloc(), files, options, true) {
        Ok(conn) => Ok(conn),
        Err((error, _left)) => Err(error),
    }
}

// The log and the database file at a path.
fn files_at<S: Start>(rt: &HostRuntime, path: &str, start: S) -> Result<Files<FileFrom<S>>, Error>
    ensures log { IfOk result (λ files. IsTrue (file_is_usable S.Start files.log)) }
    ensures db { IfOk result (λ files. IsTrue (file_is_usable S.Start files.db)) }
    ensures fresh { IfOk result (λ files. IsFresh true files.log × IsFresh false files.db) }
    ensures named { IfErr result (λ e. IsTrue (is_open_error e)) }
{
    match sqlite_std_file::open(rt, path, start) {
        Ok(files) => Ok(files),
        Err(error) => Err(Error::SqliteFailure(code_of(error))),
    }
}

// Why files could not be opened, as the database names it.
fn code_of(error: OpenError) -> ErrorCode
    ensures { IsTrue (is_open_error (Error.SqliteFailure result)) }
{
    match error {
        OpenError::OutOfMemory => ErrorCode::OutOfMemory,
        OpenError::Busy => ErrorCode::DatabaseBusy,
        OpenError::Io(error) if error.kind() == ErrorKind::OutOfMemory => ErrorCode::OutOfMemory,
        _ => ErrorCode::CannotOpen,
    }
}

fn options(rt: &HostRuntime) -> Result<Options, Error>
    ensures { IfErr result (λ e. IsTrue (is_open_error e)) }
{
    match RandomState::new(rt) {
        Ok(state) => {
            let mut options = Options::new(state.hash_one(&0u8));
            options.cache_pages = CACHE_PAGES;
            Ok(options)
        }
        Err(_) => Err(Error::SqliteFailure(ErrorCode::CannotOpen)),
    }
}
