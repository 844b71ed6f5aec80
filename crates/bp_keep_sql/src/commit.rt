// Puts in one transaction: all of them, or none.
ghost use Rattle.std.specs.Prelude.{◌≡◌, ◌≤◌, ◌⊎◌, false, List, OnOk, OnErr, IfErr, IfSome, IsErr, IsTrue, Some};
ghost use Rattle.std.specs.Option.{option_map};
ghost use Rattle.sqlite.specs.Held.{state};
ghost use Rattle.sqlite.specs.State.{HasCleanDisk, IsLive, KeepsCommit, Survives};
ghost use Rattle.sqlite_trees.specs.View.{doubt};
ghost use Rattle.sqlite_trees.specs.Tree.{Trees};
ghost use Rattle.bp_core.specs.declared.kept.Row.{Row as Kept};
ghost use Rattle.bp_keep.specs.Puts.{put_all, put_one};
ghost use Rattle.bp_keep_sql.specs.Table.{no_schema};
ghost use Rattle.bp_keep_sql.specs.Keeps.{Keeps, KeepsTrees};
ghost use Rattle.bp_keep_sql.specs.Effects.{Leaves};
ghost use Rattle.bp_keep_sql.specs.Files.{LeavesRows};
ghost use Rattle.bp_keep_sql.specs.Told.{IsNumbered, rows_told};
ghost use Rattle.bp_keep_sql.specs.Asked.{FailsToCommitPuts, FailsToKeep, FailsToPut, PutsAll, PutsRow, SameLimit, StopsAt};

use crate::rowids::number_once;
use crate::statements::{delete_row, find_table, upsert_row};
use bp_core::Put;
use sqlite::{Alter, Connection, Error, ErrorCode, Transaction};

// Makes these puts in order, and commits them, over a table that is numbered before. What is refused
// is rolled back.
pub fn commit_numbered<S: Alter>(
    conn: &mut Connection<S>,
    numbered: &mut bool,
    puts: &[Put],
) -> Result<(), Error>
    requires { IsNumbered numbered.old (state S.Store conn.old) }
    ensures numbered { IsNumbered numbered.new (state S.Store conn.new) }
    ensures stays { IsTrue numbered.old → IsTrue numbered.new }
    ensures told { OnOk result (IfSome (rows_told (state S.Store conn.new)) (λ now.
        option_map (put_all puts.now) (rows_told (state S.Store conn.old)) ≡ Some now)) }
    ensures rows { HasCleanDisk (state S.Store conn.new) → (rows : List Kept)
        → Keeps (state S.Store conn.old).now rows
        → OnOk result (Keeps (state S.Store conn.new).now (put_all puts.now rows)) }
    ensures schema { HasCleanDisk (state S.Store conn.new) → OnOk result
        ((state S.Store conn.new).now.schema ≡ (state S.Store conn.old).now.schema) }
    ensures lacking { HasCleanDisk (state S.Store conn.new)
        → (state S.Store conn.old).now.schema ≡ no_schema → IsErr result }
    ensures left { OnErr result (Leaves (state S.Store conn.old) (state S.Store conn.new)) }
    ensures mode { HasCleanDisk (state S.Store conn.new) → conn.old.in_transaction ≡ false
        → conn.new.in_transaction ≡ false }
    ensures stops { HasCleanDisk (state S.Store conn.new) → (rows : List Kept)
        → Keeps (state S.Store conn.old).now rows
        → (db : Trees) → (state S.Store conn.new).may_leave db
        → (state S.Store conn.old).may_leave db ⊎ KeepsTrees db (put_all puts.now rows) }
    ensures stopped { HasCleanDisk (state S.Store conn.new)
        → IfSome (rows_told (state S.Store conn.old)) (λ rows.
        LeavesRows (state S.Store conn.new) rows (put_all puts.now rows)) }
    ensures refused { HasCleanDisk (state S.Store conn.new) → IfErr result (λ e.
        FailsToCommitPuts S.Store numbered.old puts.now conn.old conn.new e) }
    ensures limit { SameLimit S.Store conn.old conn.new }
{
    let _schema = conn.schema();
    let _settled = conn.is_autocommit();
    number_once(conn, numbered)?;
    commit_puts(conn, puts)
}

// The same over a table that was numbered.
fn commit_puts<S: Alter>(conn: &mut Connection<S>, puts: &[Put]) -> Result<(), Error>
    ensures rows { HasCleanDisk (state S.Store conn.new) → (rows : List Kept)
        → Keeps (state S.Store conn.old).now rows
        → OnOk result (Keeps (state S.Store conn.new).now (put_all puts.now rows)) }
    ensures schema { HasCleanDisk (state S.Store conn.new) → OnOk result
        ((state S.Store conn.new).now.schema ≡ (state S.Store conn.old).now.schema) }
    ensures lacking { HasCleanDisk (state S.Store conn.new)
        → (state S.Store conn.old).now.schema ≡ no_schema → IsErr result }
    ensures was_open { HasCleanDisk (state S.Store conn.new)
        → IsTrue (state S.Store conn.new).is_open → IsTrue (state S.Store conn.old).is_open }
    ensures clean { doubt (state S.Store conn.old).is_clean
        ≤ doubt (state S.Store conn.new).is_clean }
    ensures left { OnErr result (Leaves (state S.Store conn.old) (state S.Store conn.new)) }
    ensures mode { HasCleanDisk (state S.Store conn.new) → conn.old.in_transaction ≡ false
        → conn.new.in_transaction ≡ false }
    ensures stops { HasCleanDisk (state S.Store conn.new) → (rows : List Kept)
        → Keeps (state S.Store conn.old).now rows
        → (db : Trees) → (state S.Store conn.new).may_leave db
        → (state S.Store conn.old).may_leave db ⊎ KeepsTrees db (put_all puts.now rows) }
    ensures without { HasCleanDisk (state S.Store conn.new)
        → (state S.Store conn.old).now.schema ≡ no_schema → (db : Trees)
        → (state S.Store conn.new).may_leave db → (state S.Store conn.old).may_leave db }
    ensures live { IsLive (state S.Store conn.old) }
    ensures outside { OnOk result (conn.old.in_transaction ≡ false) }
    ensures limit { SameLimit S.Store conn.old conn.new }
    ensures refused { HasCleanDisk (state S.Store conn.new)
        → IfErr result (FailsToKeep S.Store puts.now conn.old conn.new) }
{
    find_table(conn)?;
    put_inside(conn, puts)
}

fn put_inside<S: Alter>(conn: &mut Connection<S>, puts: &[Put]) -> Result<(), Error>
    ensures rows { HasCleanDisk (state S.Store conn.new) → (rows : List Kept)
        → Keeps (state S.Store conn.old).now rows
        → OnOk result (Keeps (state S.Store conn.new).now (put_all puts.now rows)) }
    ensures schema { HasCleanDisk (state S.Store conn.new) → OnOk result
        ((state S.Store conn.new).now.schema ≡ (state S.Store conn.old).now.schema) }
    ensures was_open { HasCleanDisk (state S.Store conn.new)
        → IsTrue (state S.Store conn.new).is_open → IsTrue (state S.Store conn.old).is_open }
    ensures clean { doubt (state S.Store conn.old).is_clean
        ≤ doubt (state S.Store conn.new).is_clean }
    ensures opened { HasCleanDisk (state S.Store conn.new)
        → OnOk result (IsTrue (state S.Store conn.old).is_open) }
    ensures left { HasCleanDisk (state S.Store conn.new) → IsTrue (state S.Store conn.new).is_open
        → OnErr result ((state S.Store conn.new).now ≡ (state S.Store conn.old).now) }
    ensures mode { conn.old.in_transaction ≡ false → conn.new.in_transaction ≡ false }
    ensures stops { HasCleanDisk (state S.Store conn.new) → (rows : List Kept)
        → Keeps (state S.Store conn.old).now rows
        → (db : Trees) → (state S.Store conn.new).may_leave db
        → (state S.Store conn.old).may_leave db ⊎ KeepsTrees db (put_all puts.now rows) }
    ensures limit { SameLimit S.Store conn.old conn.new }
    ensures refused { HasCleanDisk (state S.Store conn.new)
        → IfErr result (FailsToPut S.Store puts.now conn.old conn.new) }
{
    if !conn.is_autocommit() {
        return Err(Error::SqliteFailure(ErrorCode::TransactionState));
    }
    let mut transaction = conn.transaction();
    make_puts(&mut transaction, puts)?;
    transaction.commit()
}

fn make_puts<S: Alter>(transaction: &mut Transaction<'_, S>, puts: &[Put]) -> Result<(), Error>
    ensures same_reference { transaction.new.conn.ghost_name ≡ transaction.old.conn.ghost_name }
    ensures rows { HasCleanDisk (state S.Store transaction.new.conn.now) → (rows : List Kept)
        → Keeps (state S.Store transaction.old.conn.now).now rows
        → OnOk result (Keeps (state S.Store transaction.new.conn.now).now
        (put_all puts.now rows)) }
    ensures schema { HasCleanDisk (state S.Store transaction.new.conn.now) → OnOk result
        ((state S.Store transaction.new.conn.now).now.schema
        ≡ (state S.Store transaction.old.conn.now).now.schema) }
    ensures kept { HasCleanDisk (state S.Store transaction.new.conn.now) → KeepsCommit
        (state S.Store transaction.old.conn.now) (state S.Store transaction.new.conn.now) }
    ensures inside { HasCleanDisk (state S.Store transaction.new.conn.now)
        → IsTrue (state S.Store transaction.old.conn.now).in_transaction
        → OnOk result (IsTrue (state S.Store transaction.new.conn.now).in_transaction) }
    ensures survives { Survives (state S.Store transaction.old.conn.now)
        (state S.Store transaction.new.conn.now) (λ _. ⊥) }
    ensures all { HasCleanDisk (state S.Store transaction.new.conn.now)
        → IsTrue (state S.Store transaction.old.conn.now).in_transaction
        → OnOk result
        (PutsAll S.Store puts.now transaction.old.conn.now transaction.new.conn.now) }
    ensures refused { HasCleanDisk (state S.Store transaction.new.conn.now)
        → IsTrue (state S.Store transaction.old.conn.now).in_transaction
        → IfErr result
        (StopsAt S.Store puts.now transaction.old.conn.now transaction.new.conn.now) }
{
    for put in puts {
        make_put(transaction, put)?;
    }
    Ok(())
}

fn make_put<S: Alter>(transaction: &mut Transaction<'_, S>, put: &Put) -> Result<usize, Error>
    ensures same_reference { transaction.new.conn.ghost_name ≡ transaction.old.conn.ghost_name }
    ensures rows { HasCleanDisk (state S.Store transaction.new.conn.now) → (rows : List Kept)
        → Keeps (state S.Store transaction.old.conn.now).now rows
        → OnOk result (Keeps (state S.Store transaction.new.conn.now).now
        (put_one put.now rows)) }
    ensures schema { HasCleanDisk (state S.Store transaction.new.conn.now) → OnOk result
        ((state S.Store transaction.new.conn.now).now.schema
        ≡ (state S.Store transaction.old.conn.now).now.schema) }
    ensures kept { HasCleanDisk (state S.Store transaction.new.conn.now) → KeepsCommit
        (state S.Store transaction.old.conn.now) (state S.Store transaction.new.conn.now) }
    ensures inside { HasCleanDisk (state S.Store transaction.new.conn.now)
        → IsTrue (state S.Store transaction.old.conn.now).in_transaction
        → OnOk result (IsTrue (state S.Store transaction.new.conn.now).in_transaction) }
    ensures survives { Survives (state S.Store transaction.old.conn.now)
        (state S.Store transaction.new.conn.now) (λ _. ⊥) }
    ensures runs { HasCleanDisk (state S.Store transaction.new.conn.now)
        → IsTrue (state S.Store transaction.old.conn.now).in_transaction
        → PutsRow put.now (state S.Store transaction.old.conn.now)
        (state S.Store transaction.new.conn.now) result }
    ensures limit { SameLimit S.Store transaction.old.conn.now transaction.new.conn.now }
{
    match &put.body {
        Some(body) => upsert_row(transaction, put.kind, put.k1, put.k2, body.as_slice()),
        None => delete_row(transaction, put.kind, put.k1, put.k2),
    }
}
