//! What files keep from one opening to the next: behind a close, and behind a stop.
ghost use Rattle.std.specs.Prelude.{List, [], Option};
ghost use Rattle.sqlite_store.specs.declared.store.FileStore.{FileStore};
ghost use Rattle.sqlite_store.specs.FileStore.{view, state as store_state};
ghost use Rattle.sqlite_disk.specs.declared.Files.{Files};
ghost use Rattle.sqlite_trees.specs.View.{IsClean};
ghost use Rattle.sqlite_wal.specs.Files.{outcomes};
ghost use Rattle.sqlite_wal.specs.Recovery.{Image};
ghost use Rattle.sqlite.specs.Files.{file_state, image_of};
ghost use Rattle.sqlite.specs.Held.{Held};
ghost use Rattle.sqlite.specs.State.{HasCleanDisk};
ghost use Rattle.bp_core.specs.declared.kept.Row.{Row};
ghost use Rattle.bp_keep_sql.specs.Files.{ClosedOver, GoesOnFrom, LeavesRows, TellsEither, TellsOf};
ghost use Rattle.bp_keep_sql.specs.Told.{rows_told};

use crate::keeper::SqlKeeper;
use sqlite::FileStore;
use sqlite_disk::Disk;

/// A keeper that is opened over files which another was closed over tells the rows that this one told
/// last; also over what a crash behind the closing may leave of them, with the log or without it.
pub fn next_open_law<D: Disk + Drop>()
    ensures read { (c : Held (FileStore D D.Disk)) (files : Files D) (told : Option (List Row))
        → ClosedOver c files → TellsOf (image_of D.Disk files) told
        → GoesOnFrom (rows_told (file_state c)) told }
    ensures crashed { (c : Held (FileStore D D.Disk)) (files : Files D) (image : Image)
        (told : Option (List Row))
        → ClosedOver c files → outcomes D.Disk files.log files.db image → TellsOf image told
        → GoesOnFrom (rows_told (file_state c)) told }
    ensures lost_log { (c : Held (FileStore D D.Disk)) (files : Files D) (image : Image)
        (told : Option (List Row))
        → ClosedOver c files → outcomes D.Disk files.log files.db image
        → TellsOf (record image { log = [] }) told
        → GoesOnFrom (rows_told (file_state c)) told }
{}

/// A process that stops, whatever its keeper is at: what a crash at this moment may leave of the two
/// files (`moment`), and once the store was given up (`given_up`), opens to a keeper that tells the
/// rows from before its last call or those from after it. The premise on the keeper is what `stopped`
/// says of a load and of a commit; that on the store is that the disk returned what was written.
pub fn next_run_law<D: Disk + Drop>(keeper: SqlKeeper<FileStore<D>>) -> FileStore<D>
    ensures clean { IsClean (view result) → HasCleanDisk (file_state keeper.conn) }
    ensures moment { IsClean (view result) → (before : List Row) (after : List Row) (image : Image)
        (told : Option (List Row)) → LeavesRows (file_state keeper.conn) before after
        → (store_state keeper.conn.store).may_leave image → TellsOf image told
        → TellsEither before after told }
    ensures given_up { IsClean (view result) → (before : List Row) (after : List Row) (image : Image)
        (told : Option (List Row)) → LeavesRows (file_state keeper.conn) before after
        → (store_state result).may_leave image → TellsOf image told
        → TellsEither before after told }
{
    keeper.into_connection().into_store()
}
