// All rows, read at once.
ghost use Rattle.std.specs.Prelude.{◌≡◌, ◌⊎◌, [], false, Ok, Err, OnOk, IfOk, IfErr, IfSome, IsErr, IsTrue};
ghost use Rattle.sqlite.specs.Held.{state};
ghost use Rattle.sqlite.specs.State.{HasCleanDisk};
ghost use Rattle.sqlite_trees.specs.Tree.{Trees};
ghost use Rattle.bp_core.specs.declared.kept.Row.{Row as Kept};
ghost use Rattle.bp_core.specs.Sorted.{ascends, row_key};
ghost use Rattle.bp_keep.specs.Keeper.{SameRows};
ghost use Rattle.bp_keep_sql.specs.Table.{kept_schema, no_schema};
ghost use Rattle.bp_keep_sql.specs.Lines.{kept_rows};
ghost use Rattle.bp_keep_sql.specs.Rowids.{AreNumbered};
ghost use Rattle.bp_keep_sql.specs.Keeps.{Keeps, MayMake};
ghost use Rattle.bp_keep_sql.specs.Effects.{Leaves, KeepsTable};
ghost use Rattle.bp_keep_sql.specs.Files.{LeavesRows};
ghost use Rattle.bp_keep_sql.specs.Asked.{LoadsTable, OpensTable, ReadsTable, SameLimit};
ghost use Rattle.bp_keep_sql.specs.Told.{IsNumbered, rows_told};

use crate::lines::read_lines;
use crate::rowids::test_rowids;
use crate::statements::{create_table, select_rows};
use bp_core::{Row, ascends};
use sqlite::{Alter, Connection, Error, ErrorCode};
use std::alloc::Global;

// The rows in ascending order of key. It makes the table where there is none.
pub fn load_rows<S: Alter>(
    alloc: Global,
    conn: &mut Connection<S>,
    numbered: &mut bool,
) -> Result<Vec<Row>, Error>
    requires { IsNumbered numbered.old (state S.Store conn.old) }
    ensures numbered { IsNumbered numbered.new (state S.Store conn.new) }
    ensures told { IfSome (rows_told (state S.Store conn.new))
        (λ rows. IfOk result (λ loaded. loaded.items ≡ rows)) }
    ensures same { SameRows (rows_told (state S.Store conn.old))
        (rows_told (state S.Store conn.new)) }
    ensures ascends { IfOk result (λ loaded. IsTrue (ascends row_key 0 loaded.items)) }
    ensures makes { HasCleanDisk (state S.Store conn.new) → IsTrue (state S.Store conn.new).is_open
        → numbered.old ≡ false → (state S.Store conn.old).now.schema ≡ no_schema
        → OnOk result (Keeps (state S.Store conn.new).now []) }
    ensures keeps { KeepsTable (state S.Store conn.old) (state S.Store conn.new) }
    ensures opened { OnOk result (IsTrue numbered.new) }
    ensures stays { IsTrue numbered.old → IsTrue numbered.new }
    ensures stopped { HasCleanDisk (state S.Store conn.new)
        → IfSome (rows_told (state S.Store conn.old)) (λ rows.
        LeavesRows (state S.Store conn.new) rows rows) }
    ensures loaded { HasCleanDisk (state S.Store conn.new) → IfOk result (λ rows.
        LoadsTable S.Store numbered.old conn.old conn.new (Ok rows.items)) }
    ensures refused { HasCleanDisk (state S.Store conn.new) → IfErr result (λ e.
        LoadsTable S.Store numbered.old conn.old conn.new (Err e)) }
    ensures limit { SameLimit S.Store conn.old conn.new }
{
    let _schema = conn.schema();
    let _settled = conn.is_autocommit();
    open_once(conn, numbered)?;
    read_table(alloc, conn)
}

// The table is there from the first time on, so later loads only read.
fn open_once<S: Alter>(conn: &mut Connection<S>, numbered: &mut bool) -> Result<(), Error>
    requires { IsNumbered numbered.old (state S.Store conn.old) }
    ensures numbered { IsNumbered numbered.new (state S.Store conn.new) }
    ensures opened { OnOk result (IsTrue numbered.new) }
    ensures same { SameRows (rows_told (state S.Store conn.old))
        (rows_told (state S.Store conn.new)) }
    ensures makes { HasCleanDisk (state S.Store conn.new) → IsTrue (state S.Store conn.new).is_open
        → numbered.old ≡ false → (state S.Store conn.old).now.schema ≡ no_schema
        → OnOk result (Keeps (state S.Store conn.new).now []) }
    ensures keeps { KeepsTable (state S.Store conn.old) (state S.Store conn.new) }
    ensures stays { IsTrue numbered.old → IsTrue numbered.new }
    ensures stops { HasCleanDisk (state S.Store conn.new) → (db : Trees)
        → (state S.Store conn.new).may_leave db → (state S.Store conn.old).may_leave db
        ⊎ MayMake (state S.Store conn.old).now.schema db }
    ensures asked { HasCleanDisk (state S.Store conn.new)
        → OpensTable S.Store numbered.old conn.old conn.new result }
    ensures limit { SameLimit S.Store conn.old conn.new }
{
    if *numbered {
        return Ok(());
    }
    open_table(conn)?;
    *numbered = true;
    Ok(())
}

fn open_table<S: Alter>(conn: &mut Connection<S>) -> Result<(), Error>
    ensures numbered { HasCleanDisk (state S.Store conn.new)
        → IsTrue (state S.Store conn.new).is_open
        → (state S.Store conn.new).now.schema ≡ kept_schema
        → OnOk result (AreNumbered ((state S.Store conn.new).now.trees 0)) }
    ensures made { HasCleanDisk (state S.Store conn.new)
        → IsTrue (state S.Store conn.new).is_open
        → (state S.Store conn.old).now.schema ≡ no_schema
        → OnOk result (Keeps (state S.Store conn.new).now []) }
    ensures same { SameRows (rows_told (state S.Store conn.old))
        (rows_told (state S.Store conn.new)) }
    ensures keeps { KeepsTable (state S.Store conn.old) (state S.Store conn.new) }
    ensures stops { HasCleanDisk (state S.Store conn.new) → (db : Trees)
        → (state S.Store conn.new).may_leave db → (state S.Store conn.old).may_leave db
        ⊎ MayMake (state S.Store conn.old).now.schema db }
    ensures asked { HasCleanDisk (state S.Store conn.new)
        → OpensTable S.Store false conn.old conn.new result }
    ensures limit { SameLimit S.Store conn.old conn.new }
{
    create_table(conn)?;
    test_rowids(conn)
}

fn read_table<S: Alter>(alloc: Global, conn: &mut Connection<S>) -> Result<Vec<Row>, Error>
    ensures rows { HasCleanDisk (state S.Store conn.new)
        → (state S.Store conn.old).now.schema ≡ kept_schema
        → AreNumbered ((state S.Store conn.old).now.trees 0)
        → IfOk result (λ loaded. loaded.items ≡ kept_rows ((state S.Store conn.old).now.trees 0)) }
    ensures lacking { HasCleanDisk (state S.Store conn.new)
        → (state S.Store conn.old).now.schema ≡ no_schema → IsErr result }
    ensures ascends { IfOk result (λ loaded. IsTrue (ascends row_key 0 loaded.items)) }
    ensures leaves { Leaves (state S.Store conn.old) (state S.Store conn.new) }
    ensures stops { HasCleanDisk (state S.Store conn.new) → (db : Trees)
        → (state S.Store conn.new).may_leave db → (state S.Store conn.old).may_leave db }
    ensures read { HasCleanDisk (state S.Store conn.new) → IfOk result (λ rows.
        ReadsTable (state S.Store conn.old) (state S.Store conn.new) (Ok rows.items)) }
    ensures refused { HasCleanDisk (state S.Store conn.new) → IfErr result (λ e.
        ReadsTable (state S.Store conn.old) (state S.Store conn.new) (Err e)) }
    ensures limit { SameLimit S.Store conn.old conn.new }
{
    let lines = select_rows(conn)?;
    let rows = read_lines(alloc, lines)?;
    if !ascends(rows.as_slice()) {
        return Err(Error::SqliteFailure(ErrorCode::DatabaseCorrupt));
    }
    Ok(rows)
}
