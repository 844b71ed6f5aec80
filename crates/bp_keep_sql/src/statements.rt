// The statements, each run by a function of its own.
ghost use Rattle.std.specs.Prelude.{◌≡◌, ◌⊎◌, List, [], OnOk, OnErr, IfOk, IfErr, IsErr, IsTrue, true, false, map, Some, None, Ok, Err};
ghost use Rattle.sqlite.specs.Held.{state};
ghost use Rattle.sqlite.specs.State.{HasCleanDisk, IsLive, KeepsCommit, Survives};
ghost use Rattle.sqlite_trees.specs.Tree.{Trees};
ghost use Rattle.bp_core.specs.Sorted.{put, without, ascends, row_key};
ghost use Rattle.bp_core.specs.declared.kept.Row.{Row as Kept};
ghost use Rattle.bp_keep_sql.specs.Table.{kept_schema, no_schema};
ghost use Rattle.bp_keep_sql.specs.Lines.{shown_row, kept_rows};
ghost use Rattle.bp_keep_sql.specs.Rowids.{AreNumbered, Rise};
ghost use Rattle.bp_keep_sql.specs.Keeps.{Keeps, MayMake};
ghost use Rattle.bp_keep_sql.specs.Effects.{Leaves, KeepsTable};
ghost use Rattle.bp_keep_sql.specs.Texts.{rowids_text, select_text};
ghost use Rattle.bp_keep_sql.specs.Asked.{FindsTable, MakesTable, PutsBody, Queries, SameLimit};

use sqlite::{Alter, Connection, Error, ErrorCode, Row as Line, Transaction, params};

// Makes the table, where there is none of its name.
pub fn create_table<S: Alter>(conn: &mut Connection<S>) -> Result<usize, Error>
    ensures made { HasCleanDisk (state S.Store conn.new)
        → (state S.Store conn.old).now.schema ≡ no_schema
        → OnOk result (Keeps (state S.Store conn.new).now []) }
    ensures keeps { KeepsTable (state S.Store conn.old) (state S.Store conn.new) }
    ensures left { OnErr result (Leaves (state S.Store conn.old) (state S.Store conn.new)) }
    ensures stops { HasCleanDisk (state S.Store conn.new) → (db : Trees)
        → (state S.Store conn.new).may_leave db → (state S.Store conn.old).may_leave db
        ⊎ MayMake (state S.Store conn.old).now.schema db }
    ensures asked { HasCleanDisk (state S.Store conn.new)
        → MakesTable (state S.Store conn.old) (state S.Store conn.new) result }
    ensures limit { SameLimit S.Store conn.old conn.new }
{
    if !conn.is_autocommit() {
        return Err(Error::SqliteFailure(ErrorCode::TransactionState));
    }
    conn.execute(
        "CREATE TABLE IF NOT EXISTS kept (kind INTEGER NOT NULL CHECK (kind BETWEEN 0 AND 255), k1 INTEGER NOT NULL CHECK (k1 BETWEEN 0 AND 4294967295), k2 INTEGER NOT NULL CHECK (k2 BETWEEN 0 AND 4294967295), body BLOB NOT NULL, PRIMARY KEY (kind, k1, k2)) STRICT",
        &[],
    )
}

// Refuses where there is no table of that name. The text is not run.
pub fn find_table<S: Alter>(conn: &mut Connection<S>) -> Result<(), Error>
    ensures lacking { HasCleanDisk (state S.Store conn.new)
        → (state S.Store conn.old).now.schema ≡ no_schema → IsErr result }
    ensures leaves { Leaves (state S.Store conn.old) (state S.Store conn.new) }
    ensures outside { OnOk result (conn.old.in_transaction ≡ false) }
    ensures opened { HasCleanDisk (state S.Store conn.new)
        → OnOk result (IsTrue (state S.Store conn.new).is_open) }
    ensures stops { HasCleanDisk (state S.Store conn.new) → (db : Trees)
        → (state S.Store conn.new).may_leave db → (state S.Store conn.old).may_leave db }
    ensures live { IsLive (state S.Store conn.old) }
    ensures asked { HasCleanDisk (state S.Store conn.new)
        → FindsTable (state S.Store conn.old) (state S.Store conn.new) result }
    ensures limit { SameLimit S.Store conn.old conn.new }
{
    let _schema = conn.schema();
    if !conn.is_autocommit() {
        return Err(Error::SqliteFailure(ErrorCode::TransactionState));
    }
    conn.prepare("SELECT kind FROM kept")?;
    Ok(())
}

// Sets the body of a key.
pub fn upsert_row<S: Alter>(
    transaction: &mut Transaction<'_, S>,
    kind: u8,
    k1: u32,
    k2: u32,
    body: &[u8],
) -> Result<usize, Error>
    ensures same_reference { transaction.new.conn.ghost_name ≡ transaction.old.conn.ghost_name }
    ensures rows { HasCleanDisk (state S.Store transaction.new.conn.now) → (rows : List Kept)
        → Keeps (state S.Store transaction.old.conn.now).now rows
        → OnOk result (Keeps (state S.Store transaction.new.conn.now).now
        (put row_key (record { kind = kind; k1 = k1; k2 = k2; body = body.now }) rows)) }
    ensures schema { HasCleanDisk (state S.Store transaction.new.conn.now) → OnOk result
        ((state S.Store transaction.new.conn.now).now.schema
        ≡ (state S.Store transaction.old.conn.now).now.schema) }
    ensures kept { HasCleanDisk (state S.Store transaction.new.conn.now) → KeepsCommit
        (state S.Store transaction.old.conn.now) (state S.Store transaction.new.conn.now) }
    ensures inside { HasCleanDisk (state S.Store transaction.new.conn.now)
        → IsTrue (state S.Store transaction.old.conn.now).in_transaction
        → OnOk result (IsTrue (state S.Store transaction.new.conn.now).in_transaction) }
    ensures survives { Survives (state S.Store transaction.old.conn.now)
        (state S.Store transaction.new.conn.now) (λ _. ⊥) }
    ensures runs { HasCleanDisk (state S.Store transaction.new.conn.now)
        → IsTrue (state S.Store transaction.old.conn.now).in_transaction
        → PutsBody kind k1 k2 (Some body.now) (state S.Store transaction.old.conn.now)
        (state S.Store transaction.new.conn.now) result }
    ensures limit { SameLimit S.Store transaction.old.conn.now transaction.new.conn.now }
{
    transaction.execute(
        "INSERT INTO kept (kind, k1, k2, body) VALUES (?1, ?2, ?3, ?4) ON CONFLICT (kind, k1, k2) DO UPDATE SET body = excluded.body",
        params![u32::from(kind), k1, k2, body],
    )
}

// Removes the row of a key, where there is one.
pub fn delete_row<S: Alter>(
    transaction: &mut Transaction<'_, S>,
    kind: u8,
    k1: u32,
    k2: u32,
) -> Result<usize, Error>
    ensures same_reference { transaction.new.conn.ghost_name ≡ transaction.old.conn.ghost_name }
    ensures rows { HasCleanDisk (state S.Store transaction.new.conn.now) → (rows : List Kept)
        → Keeps (state S.Store transaction.old.conn.now).now rows
        → OnOk result (Keeps (state S.Store transaction.new.conn.now).now
        (without row_key (row_key (record { kind = kind; k1 = k1; k2 = k2; body = [] }))
        rows)) }
    ensures schema { HasCleanDisk (state S.Store transaction.new.conn.now) → OnOk result
        ((state S.Store transaction.new.conn.now).now.schema
        ≡ (state S.Store transaction.old.conn.now).now.schema) }
    ensures kept { HasCleanDisk (state S.Store transaction.new.conn.now) → KeepsCommit
        (state S.Store transaction.old.conn.now) (state S.Store transaction.new.conn.now) }
    ensures inside { HasCleanDisk (state S.Store transaction.new.conn.now)
        → IsTrue (state S.Store transaction.old.conn.now).in_transaction
        → OnOk result (IsTrue (state S.Store transaction.new.conn.now).in_transaction) }
    ensures survives { Survives (state S.Store transaction.old.conn.now)
        (state S.Store transaction.new.conn.now) (λ _. ⊥) }
    ensures runs { HasCleanDisk (state S.Store transaction.new.conn.now)
        → IsTrue (state S.Store transaction.old.conn.now).in_transaction
        → PutsBody kind k1 k2 None (state S.Store transaction.old.conn.now)
        (state S.Store transaction.new.conn.now) result }
    ensures limit { SameLimit S.Store transaction.old.conn.now transaction.new.conn.now }
{
    transaction.execute(
        "DELETE FROM kept WHERE kind = ?1 AND k1 = ?2 AND k2 = ?3",
        params![u32::from(kind), k1, k2],
    )
}

// All lines, ordered by key. Where their keys rise they are the rows.
pub fn select_rows<S: Alter>(conn: &mut Connection<S>) -> Result<Vec<Line>, Error>
    ensures rows { HasCleanDisk (state S.Store conn.new)
        → (state S.Store conn.old).now.schema ≡ kept_schema
        → AreNumbered ((state S.Store conn.old).now.trees 0)
        → IfOk result (λ lines. ascends row_key 0 (map shown_row lines.items) ≡ true
        → map shown_row lines.items ≡ kept_rows ((state S.Store conn.old).now.trees 0)) }
    ensures lacking { HasCleanDisk (state S.Store conn.new)
        → (state S.Store conn.old).now.schema ≡ no_schema → IsErr result }
    ensures leaves { Leaves (state S.Store conn.old) (state S.Store conn.new) }
    ensures stops { HasCleanDisk (state S.Store conn.new) → (db : Trees)
        → (state S.Store conn.new).may_leave db → (state S.Store conn.old).may_leave db }
    ensures shown { HasCleanDisk (state S.Store conn.new) → IfOk result (λ lines.
        Queries select_text (state S.Store conn.old) (state S.Store conn.new) (Ok lines.items)) }
    ensures refused { HasCleanDisk (state S.Store conn.new) → IfErr result (λ e.
        Queries select_text (state S.Store conn.old) (state S.Store conn.new) (Err e)) }
    ensures limit { SameLimit S.Store conn.old conn.new }
{
    let _schema = conn.schema();
    if !conn.is_autocommit() {
        return Err(Error::SqliteFailure(ErrorCode::TransactionState));
    }
    conn.query_all(
        "SELECT kind, k1, k2, body FROM kept ORDER BY kind, k1, k2",
        &[],
    )
}

// The rowids of the table, ordered.
pub fn select_rowids<S: Alter>(conn: &mut Connection<S>) -> Result<Vec<Line>, Error>
    ensures rise { HasCleanDisk (state S.Store conn.new)
        → (state S.Store conn.old).now.schema ≡ kept_schema
        → IfOk result (λ lines. Rise lines.items
        → AreNumbered ((state S.Store conn.old).now.trees 0)) }
    ensures leaves { Leaves (state S.Store conn.old) (state S.Store conn.new) }
    ensures same { HasCleanDisk (state S.Store conn.new)
        → OnOk result ((state S.Store conn.new).now ≡ (state S.Store conn.old).now) }
    ensures stops { HasCleanDisk (state S.Store conn.new) → (db : Trees)
        → (state S.Store conn.new).may_leave db → (state S.Store conn.old).may_leave db }
    ensures shown { HasCleanDisk (state S.Store conn.new) → IfOk result (λ lines.
        Queries rowids_text (state S.Store conn.old) (state S.Store conn.new) (Ok lines.items)) }
    ensures refused { HasCleanDisk (state S.Store conn.new) → IfErr result (λ e.
        Queries rowids_text (state S.Store conn.old) (state S.Store conn.new) (Err e)) }
    ensures limit { SameLimit S.Store conn.old conn.new }
{
    if !conn.is_autocommit() {
        return Err(Error::SqliteFailure(ErrorCode::TransactionState));
    }
    conn.query_all("SELECT rowid FROM kept ORDER BY rowid", &[])
}
