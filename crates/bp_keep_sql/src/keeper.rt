// A keeper over a database.
ghost use Rattle.std.specs.Prelude.{◌≡◌, false};

use crate::commit::commit_numbered;
use crate::load::load_rows;
use crate::refusals::refuse;
use bp_core::{PutList, RowList};
use bp_keep::{KeepRefusal, Keeper};
use sqlite::{Alter, Connection};
use std::alloc::Global;
use std::marker::Model;

/// A keeper whose rows are those of one table of a database, which nobody else writes.
///
///     let mut keeper = SqlKeeper::over(connection);
///     let rows = keeper.load(alloc)?;
#[derive(Drop)]
pub struct SqlKeeper<S: Alter> {
    conn: Connection<S>,
    // No two lines of the table were found to have one rowid.
    numbered: bool,
    faults: u64,
    loads: u64,
    commits: u64,
}

impl<S: Alter> Model for SqlKeeper<S> {
    ghost use Rattle.sqlite.specs.Held.{state};
    ghost use Rattle.bp_keep_sql.specs.Told.{IsNumbered};
    ghost use Rattle.bp_keep_sql.specs.Keeper.{KeptOver, kept_code};

    ghost Value = { KeptOver S };

    ghost coded = { kept_code S.code };

    ghost view = { λ k. record {
      conn = k.conn;
      numbered = k.numbered;
      faults = k.faults;
      loads = k.loads;
      commits = k.commits;
    } };

    ghost invariant = { λ k. IsNumbered k.numbered (state S.Store k.conn) };
}

impl<S: Alter> SqlKeeper<S> {
    /// A keeper over this connection. It runs no statement.
    pub fn over(conn: Connection<S>) -> SqlKeeper<S>
        ensures { result
            ≡ record { conn = conn; numbered = false; faults = 0; loads = 0; commits = 0 } }
    {
        SqlKeeper {
            conn,
            numbered: false,
            faults: 0,
            loads: 0,
            commits: 0,
        }
    }

    /// The connection, handed back.
    pub fn into_connection(self) -> Connection<S>
        ensures { result ≡ self.conn }
    {
        self.conn
    }
}

impl<S: Alter> Keeper for SqlKeeper<S> {
    ghost use Rattle.std.specs.Prelude.{◌≡◌, ◌⊎◌, List, [], IfOk, IfSome, IsErr, IsTrue, OnOk, OnErr};
    ghost use Rattle.sqlite.specs.Held.{state};
    ghost use Rattle.sqlite.specs.State.{HasCleanDisk};
    ghost use Rattle.sqlite_trees.specs.Tree.{Trees};
    ghost use Rattle.bp_core.specs.declared.kept.Row.{Row as Kept};
    ghost use Rattle.bp_core.specs.Sorted.{ascends, row_key};
    ghost use Rattle.bp_keep.specs.Puts.{put_all};
    ghost use Rattle.bp_keep.specs.Keeper.{Loads, Commits};
    ghost use Rattle.bp_keep_sql.specs.Table.{no_schema};
    ghost use Rattle.bp_keep_sql.specs.Keeps.{Keeps, KeepsTrees};
    ghost use Rattle.bp_keep_sql.specs.Files.{LeavesRows};
    ghost use Rattle.bp_keep_sql.specs.Told.{rows_told};
    ghost use Rattle.bp_keep_sql.specs.Effects.{Leaves, KeepsTable};
    ghost use Rattle.bp_keep_sql.specs.Asked.{AnswersCommit, AnswersLoad};
    ghost use Rattle.bp_keep_sql.specs.Keeper.{keeper_shown, GoesOn, shown-ascend, shown-unfailing};

    ghost shows = { keeper_shown S.Store };

    ghost ascending = { shown-ascend S.Store.own };

    ghost unfailing = { shown-unfailing S.Store.own };

    /// Makes the table where there is none; a table that is there keeps its rows. After it rows are
    /// told, where the disk is clean and the connection open. `Failed` also where the table is of
    /// another definition and has a row that is no such key with a body. Where the process stops,
    /// another open finds the rows that were told before it.
    fn load(&mut self, alloc: Global) -> Result<RowList, KeepRefusal>
        ensures loads { Loads (keeper_shown S.Store self.old) result
            (keeper_shown S.Store self.new) }
        ensures ascends { IfOk result (λ rows. IsTrue (ascends row_key 0 rows)) }
        ensures makes { HasCleanDisk (state S.Store self.new.conn)
            → IsTrue (state S.Store self.new.conn).is_open
            → self.old.numbered ≡ false → self.old.conn.schema ≡ no_schema
            → OnOk result (Keeps (state S.Store self.new.conn).now []) }
        ensures keeps { KeepsTable (state S.Store self.old.conn) (state S.Store self.new.conn) }
        ensures opened { OnOk result (IsTrue self.new.numbered) }
        ensures stopped { HasCleanDisk (state S.Store self.new.conn)
            → IfSome (rows_told (state S.Store self.old.conn)) (λ rows.
            LeavesRows (state S.Store self.new.conn) rows rows) }
        ensures asked { HasCleanDisk (state S.Store self.new.conn)
            → AnswersLoad S.Store self.old.numbered self.old.conn self.new.conn result }
        ensures goes_on { GoesOn S.Store self.old self.new }
    {
        self.loads = self.loads.saturating_add(1);
        match load_rows(alloc, &mut self.conn, &mut self.numbered) {
            Ok(rows) => Ok(RowList::from_vec(rows)),
            Err(error) => Err(refuse(&mut self.faults, error)),
        }
    }

    /// One transaction, which is rolled back where a statement or the commit itself is refused.
    /// Where there is no table it is refused. Where the process stops, another open finds the rows
    /// from before or those with all puts.
    fn commit(&mut self, _alloc: Global, puts: &PutList) -> Result<(), KeepRefusal>
        ensures commits { Commits (keeper_shown S.Store self.old) puts.now result
            (keeper_shown S.Store self.new) }
        ensures makes { HasCleanDisk (state S.Store self.new.conn) → (rows : List Kept)
            → Keeps (state S.Store self.old.conn).now rows
            → OnOk result (Keeps (state S.Store self.new.conn).now (put_all puts.now rows)) }
        ensures schema { HasCleanDisk (state S.Store self.new.conn)
            → OnOk result (self.new.conn.schema ≡ self.old.conn.schema) }
        ensures left { OnErr result
            (Leaves (state S.Store self.old.conn) (state S.Store self.new.conn)) }
        ensures lacking { HasCleanDisk (state S.Store self.new.conn)
            → self.old.conn.schema ≡ no_schema → IsErr result }
        ensures stops { HasCleanDisk (state S.Store self.new.conn) → (rows : List Kept)
            → Keeps (state S.Store self.old.conn).now rows
            → (db : Trees) → (state S.Store self.new.conn).may_leave db
            → (state S.Store self.old.conn).may_leave db
            ⊎ KeepsTrees db (put_all puts.now rows) }
        ensures stopped { HasCleanDisk (state S.Store self.new.conn)
            → IfSome (rows_told (state S.Store self.old.conn)) (λ rows.
            LeavesRows (state S.Store self.new.conn) rows (put_all puts.now rows)) }
        ensures asked { HasCleanDisk (state S.Store self.new.conn)
            → AnswersCommit S.Store self.old.numbered puts.now self.old.conn self.new.conn
            result }
        ensures goes_on { GoesOn S.Store self.old self.new }
    {
        self.commits = self.commits.saturating_add(1);
        match commit_numbered(&mut self.conn, &mut self.numbered, puts.as_slice()) {
            Ok(()) => Ok(()),
            Err(error) => Err(refuse(&mut self.faults, error)),
        }
    }

    fn faults(&self) -> u64
        ensures { result ≡ (keeper_shown S.Store self.now).faults }
    {
        self.faults
    }
}
