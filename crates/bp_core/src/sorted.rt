// Lists of rows in ascending order of key, no key twice: found by halving, changed in place.
ghost use Rattle.std.specs.Prelude.{◌≡◌, ◌<◌, ◌≤◌, ◌+◌, length, IsTrue, is_ok, if◌then◌else◌, vec_len, nat_le, nat_lt, ◌&&◌};
ghost use Rattle.std.specs.Vec.{vec_capacity};
ghost use Rattle.std.specs.Option.{option_copied};
ghost use Rattle.std.specs.Result.{IsOk};
ghost use Rattle.std.specs.List.{AllWithin, filter};
ghost use Rattle.bp_core.specs.Sorted.{ascends, find_key, is_between, put, without};

use crate::keyed::Keyed;
use crate::refusals::OutOfMemory;

/// Whether the rows stand in ascending order of key, none twice. It takes no memory.
pub fn ascends<T: Keyed>(rows: &[T]) -> bool
    ensures { result ≡ ascends T.key_of 0 rows.now }
{
    let mut low = 0;
    let mut rest = rows;
    while let Some((first, others)) = rest.split_first() {
        let key = first.key();
        if key < low {
            return false;
        }
        low = key + 1;
        rest = others;
    }
    true
}

/// The row of this key, if there is one.
pub fn find_row<T: Keyed>(rows: &[T], key: u128) -> Option<&T>
    requires { IsTrue (ascends T.key_of 0 rows.now) }
    ensures { option_copied result ≡ find_key T.key_of key rows.now }
{
    let place = place_of(rows, key);
    if place == rows.len() {
        return None;
    }
    let row = &rows[place];
    if row.key() == key { Some(row) } else { None }
}

/// The rows whose keys are at least the first number and below the second.
pub fn rows_between<T: Keyed>(rows: &[T], low: u128, high: u128) -> &[T]
    requires ascending { IsTrue (ascends T.key_of 0 rows.now) }
    requires order { low ≤ high }
    ensures { result.now ≡ filter (is_between T.key_of low high) rows.now }
{
    let first = place_of(rows, low);
    let last = place_of(rows, high);
    &rows[first..last]
}

/// Puts the row at the place of its key, over a row of that key where there is one. Where memory is
/// lacking nothing changes; with room for one more row none is taken.
pub fn put_row<T: Keyed + Drop>(rows: &mut Vec<T>, row: T) -> Result<(), OutOfMemory>
    requires { IsTrue (ascends T.key_of 0 rows.old.items) }
    ensures items { rows.new.items ≡ (if is_ok result then put T.key_of row rows.old.items else rows.old.items) }
    ensures ascending { IsTrue (ascends T.key_of 0 rows.new.items) }
    ensures room { vec_len rows.old < vec_capacity rows.old → IsOk result }
    ensures capacity { vec_capacity rows.old ≤ vec_capacity rows.new }
    ensures len { vec_len rows.new ≤ vec_len rows.old + 1 }
{
    let key = row.key();
    let place = place_of(rows, key);
    if place < rows.len() && rows[place].key() == key {
        rows[place] = row;
    } else {
        rows.insert(place, row)?;
    }
    Ok(())
}

/// Takes the row of this key away, if there is one. It takes no memory.
pub fn remove_row<T: Keyed + Drop>(rows: &mut Vec<T>, key: u128)
    requires { IsTrue (ascends T.key_of 0 rows.old.items) }
    ensures items { rows.new.items ≡ without T.key_of key rows.old.items }
    ensures ascending { IsTrue (ascends T.key_of 0 rows.new.items) }
    ensures capacity { vec_capacity rows.old ≤ vec_capacity rows.new }
    ensures len { vec_len rows.new ≤ vec_len rows.old }
{
    let place = place_of(rows, key);
    if place < rows.len() && rows[place].key() == key {
        let _row = rows.remove(place);
    }
}

// How many rows have a key below this one.
fn place_of<T: Keyed>(rows: &[T], key: u128) -> usize
    requires { IsTrue (ascends T.key_of 0 rows.now) }
    ensures bound { result ≤ length rows.now }
    ensures below { AllWithin (λ row. T.key_of row < key) rows.now 0 result }
    ensures above { AllWithin (λ row. key ≤ T.key_of row) rows.now result (length rows.now) }
{
    rows.partition_point(|row| row.key() < key)
}
