// That no two lines of the table have one rowid. It is so in every tree of a store, but no call of
// a connection says it, and a statement takes its lines out by their rowids.
ghost use Rattle.std.specs.Prelude.{◌≡◌, ◌-◌, ◌<◌, length, slice_index_or, [], false, None, IfSome, IsTrue, OnOk};
ghost use Rattle.sqlite.specs.Held.{state};
ghost use Rattle.sqlite.specs.State.{HasCleanDisk};
ghost use Rattle.sqlite.specs.Values.{IsInt};
ghost use Rattle.sqlite_value.specs.declared.value.Value.TheVariants.{Int};
ghost use Rattle.sqlite_trees.specs.Tree.{Trees, rowid};
ghost use Rattle.bp_keep_sql.specs.Table.{kept_schema};
ghost use Rattle.bp_keep_sql.specs.Rowids.{AreNumbered, IsBelow, Rise};
ghost use Rattle.bp_keep_sql.specs.Effects.{Leaves};
ghost use Rattle.bp_keep_sql.specs.Told.{IsNumbered};
ghost use Rattle.bp_keep_sql.specs.Asked.{NumbersOnce, NumbersTable, SameLimit};

use crate::statements::select_rowids;
use sqlite::types::ValueRef;
use sqlite::{Alter, Connection, Error, ErrorCode, Row as Line};

// Finds that no two lines of the table have one rowid. A table in which two have is refused.
pub fn test_rowids<S: Alter>(conn: &mut Connection<S>) -> Result<(), Error>
    ensures numbered { HasCleanDisk (state S.Store conn.new)
        → (state S.Store conn.old).now.schema ≡ kept_schema
        → OnOk result (AreNumbered ((state S.Store conn.old).now.trees 0)) }
    ensures leaves { Leaves (state S.Store conn.old) (state S.Store conn.new) }
    ensures same { HasCleanDisk (state S.Store conn.new)
        → OnOk result ((state S.Store conn.new).now ≡ (state S.Store conn.old).now) }
    ensures stops { HasCleanDisk (state S.Store conn.new) → (db : Trees)
        → (state S.Store conn.new).may_leave db → (state S.Store conn.old).may_leave db }
    ensures asked { HasCleanDisk (state S.Store conn.new)
        → NumbersTable (state S.Store conn.old) (state S.Store conn.new) result }
    ensures limit { SameLimit S.Store conn.old conn.new }
{
    let lines = select_rowids(conn)?;
    if rowids_rise(lines.as_slice()) {
        Ok(())
    } else {
        Err(Error::SqliteFailure(ErrorCode::DatabaseCorrupt))
    }
}

// The same, unless it was found before.
pub fn number_once<S: Alter>(conn: &mut Connection<S>, numbered: &mut bool) -> Result<(), Error>
    requires { IsNumbered numbered.old (state S.Store conn.old) }
    ensures numbered { IsNumbered numbered.new (state S.Store conn.new) }
    ensures known { OnOk result (IsTrue numbered.new) }
    ensures stays { IsTrue numbered.old → IsTrue numbered.new }
    ensures leaves { Leaves (state S.Store conn.old) (state S.Store conn.new) }
    ensures same { HasCleanDisk (state S.Store conn.new)
        → OnOk result ((state S.Store conn.new).now ≡ (state S.Store conn.old).now) }
    ensures stops { HasCleanDisk (state S.Store conn.new) → (db : Trees)
        → (state S.Store conn.new).may_leave db → (state S.Store conn.old).may_leave db }
    ensures asked { HasCleanDisk (state S.Store conn.new)
        → NumbersOnce S.Store numbered.old conn.old conn.new result }
    ensures limit { SameLimit S.Store conn.old conn.new }
{
    if *numbered {
        return Ok(());
    }
    test_rowids(conn)?;
    *numbered = true;
    Ok(())
}

fn rowids_rise(lines: &[Line]) -> bool
    ensures rise { IsTrue result → Rise lines.now }
    ensures falls { result ≡ false → ¬ Rise lines.now }
{
    for at in 0..lines.len() {
        if !rises_at(lines, at) {
            return false;
        }
    }
    true
}

// The rowid at this place is an integer, and above the one before it.
fn rises_at(lines: &[Line], at: usize) -> bool
    requires { at < length lines.now }
    ensures int { IsTrue result → IsInt (rowid (slice_index_or lines.now at [])) }
    ensures up { IsTrue result → 0 < at
        → IsBelow (slice_index_or lines.now (at - 1) []) (slice_index_or lines.now at []) }
    ensures falls { result ≡ false → ¬ Rise lines.now }
{
    let Some(id) = rowid_in(&lines[at]) else {
        return false;
    };
    if at == 0 {
        return true;
    }
    let Some(before) = rowid_in(&lines[at - 1]) else {
        return false;
    };
    before < id
}

fn rowid_in(line: &Line) -> Option<i64>
    ensures some { IfSome result (λ n. rowid line.now ≡ Int n) }
    ensures none { result ≡ None → ¬ IsInt (rowid line.now) }
{
    match line.get_ref(0) {
        Ok(ValueRef::Int(id)) => Some(id),
        _ => None,
    }
}
