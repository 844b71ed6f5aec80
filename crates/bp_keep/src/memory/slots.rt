// The tree of a keeper in memory. Room is made before the first put is, so that none can fail.
ghost use Rattle.std.specs.Prelude.{◌≡◌, ◌++◌, [], ℕ, IsTrue, OnOk, reverse, is_ok, if◌then◌else◌};
ghost use Rattle.std.specs.List.{list_all};
ghost use Rattle.bp_core.specs.Sorted.{ascends, row_key};
ghost use Rattle.bp_keep.specs.Puts.{put_key, put_one, put_all, row_left, set_row};
ghost use Rattle.bp_keep.specs.Slots.{held, in_order, fits_slot, has_slot};

use bp_core::{Keyed, OutOfMemory, Put, Row, two_keys};
use std::collections::BTreeMap;

// A slot at the key of each row. An empty one is as good as none.
pub type Slots = BTreeMap<u128, Option<Row>>;

// Moves all rows into the tree, the last one first. Where memory is lacking some may have moved.
pub fn move_in(given: &mut Vec<Row>, slots: &mut Slots) -> Result<(), OutOfMemory>
    requires in_order { IsTrue (in_order 0 slots.old.entries) }
    requires ascending { IsTrue (ascends row_key 0 (given.old.items ++ held slots.old.entries)) }
    ensures same { given.new.items ++ held slots.new.entries
        ≡ given.old.items ++ held slots.old.entries }
    ensures in_order { IsTrue (in_order 0 slots.new.entries) }
    ensures all { OnOk result (given.new.items ≡ []) }
{
    while let Some(last) = given.last() {
        let key = last.key();
        make_slot(slots, key)?;
        if let Some(row) = given.pop() {
            fill_slot(slots, key, Some(row));
        }
    }
    Ok(())
}

// Makes these puts, the last one of the list first. Where memory is lacking it makes none.
pub fn put_in(slots: &mut Slots, changes: Vec<Put>) -> Result<(), OutOfMemory>
    requires { IsTrue (in_order 0 slots.old.entries) }
    ensures rows { held slots.new.entries ≡ (if is_ok result
        then put_all (reverse changes.items) (held slots.old.entries)
        else held slots.old.entries) }
    ensures in_order { IsTrue (in_order 0 slots.new.entries) }
{
    make_slots(slots, changes.as_slice())?;
    make_puts(slots, changes);
    Ok(())
}

// Drops the slots that these puts left empty: those of removals, and of all where none was made. No row
// goes with them.
pub fn drop_empty(slots: &mut Slots, changes: &[Put], failed: bool)
    requires { IsTrue (in_order 0 slots.old.entries) }
    ensures rows { held slots.new.entries ≡ held slots.old.entries }
    ensures in_order { IsTrue (in_order 0 slots.new.entries) }
{
    for change in changes {
        if failed || change.body.is_none() {
            drop_if_empty(slots, key_of(change));
        }
    }
}

fn drop_if_empty(slots: &mut Slots, key: u128)
    requires { IsTrue (in_order 0 slots.old.entries) }
    ensures rows { held slots.new.entries ≡ held slots.old.entries }
    ensures in_order { IsTrue (in_order 0 slots.new.entries) }
{
    if let Some(None) = slots.get(&key) {
        let _ = slots.remove(&key);
    }
}

// Makes a slot at the key of each of these puts. The rows stay.
fn make_slots(slots: &mut Slots, changes: &[Put]) -> Result<(), OutOfMemory>
    requires { IsTrue (in_order 0 slots.old.entries) }
    ensures rows { held slots.new.entries ≡ held slots.old.entries }
    ensures in_order { IsTrue (in_order 0 slots.new.entries) }
    ensures there { OnOk result (IsTrue (list_all (λ change.
        has_slot slots.new.entries (put_key change)) changes.now)) }
{
    for change in changes {
        make_slot(slots, key_of(change))?;
    }
    Ok(())
}

// Makes an empty slot at this key, where there is none.
fn make_slot(slots: &mut Slots, key: u128) -> Result<(), OutOfMemory>
    requires { IsTrue (in_order 0 slots.old.entries) }
    ensures rows { held slots.new.entries ≡ held slots.old.entries }
    ensures in_order { IsTrue (in_order 0 slots.new.entries) }
    ensures there { OnOk result (IsTrue (has_slot slots.new.entries key)) }
    ensures kept { (other : ℕ) → IsTrue (has_slot slots.old.entries other)
        → IsTrue (has_slot slots.new.entries other) }
{
    if !slots.contains_key(&key) {
        let _ = slots.insert(key, None)?;
    }
    Ok(())
}

// Makes these puts, the last one of the list first. There is a slot for each: it takes no memory.
fn make_puts(slots: &mut Slots, changes: Vec<Put>)
    requires in_order { IsTrue (in_order 0 slots.old.entries) }
    requires there { IsTrue (list_all (λ change.
        has_slot slots.old.entries (put_key change)) changes.items) }
    ensures rows { held slots.new.entries
        ≡ put_all (reverse changes.items) (held slots.old.entries) }
    ensures in_order { IsTrue (in_order 0 slots.new.entries) }
{
    let mut left = changes;
    while let Some(change) = left.pop() {
        make_put(slots, change);
    }
}

fn make_put(slots: &mut Slots, change: Put)
    requires in_order { IsTrue (in_order 0 slots.old.entries) }
    requires there { IsTrue (has_slot slots.old.entries (put_key change)) }
    ensures rows { held slots.new.entries ≡ put_one change (held slots.old.entries) }
    ensures in_order { IsTrue (in_order 0 slots.new.entries) }
    ensures kept { (other : ℕ) → IsTrue (has_slot slots.old.entries other)
        → IsTrue (has_slot slots.new.entries other) }
{
    let key = key_of(&change);
    fill_slot(slots, key, row_left(change));
}

// Fills the slot at this key, or empties it. As it is there, this takes no memory.
fn fill_slot(slots: &mut Slots, key: u128, row: Option<Row>)
    requires in_order { IsTrue (in_order 0 slots.old.entries) }
    requires fits { IsTrue (fits_slot key row) }
    requires there { IsTrue (has_slot slots.old.entries key) }
    ensures rows { held slots.new.entries ≡ set_row key row (held slots.old.entries) }
    ensures in_order { IsTrue (in_order 0 slots.new.entries) }
    ensures kept { (other : ℕ) → IsTrue (has_slot slots.old.entries other)
        → IsTrue (has_slot slots.new.entries other) }
{
    let _ = slots.insert(key, row);
}

fn key_of(change: &Put) -> u128
    ensures { result ≡ put_key change.now }
{
    u128::from(change.kind) * 18_446_744_073_709_551_616 + two_keys(change.k1, change.k2)
}

// The row that a put leaves, if it leaves one.
fn row_left(change: Put) -> Option<Row>
    ensures { result ≡ row_left change change.body }
{
    let Put { kind, k1, k2, body } = change;
    match body {
        None => None,
        Some(body) => Some(Row { kind, k1, k2, body }),
    }
}
