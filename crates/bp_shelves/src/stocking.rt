// What is done on the shelves.
ghost use Rattle.std.specs.Prelude.{◌≡◌, ◌≤◌, ◌<◌, ◌+◌, ◌*◌, IsTrue, OnOk, length};
ghost use Rattle.std.specs.List.{filter};
ghost use Rattle.std.specs.Option.{option_copied};
ghost use Rattle.bp_core.specs.Sorted.{ascends, find_key, is_between, put, without};
ghost use Rattle.bp_shelves.specs.Shelves.{are_shelved, room_of, rooms_on, rows_on};

use crate::shelved::Shelved;
use bp_core::{DocNo, OutOfMemory, find_row, put_row, remove_row};

/// Says that the rows of the shelves stand in ascending order of key.
pub fn know_ascending<T: Shelved>(shelves: &[Vec<T>])
    requires { IsTrue (are_shelved T.key_of T.span 0 shelves.now) }
    ensures { IsTrue (ascends T.key_of 0 (rows_on shelves.now)) }
{
    let _shelves = shelves;
}

/// The rows of a document.
pub fn shelf_of<T: Shelved>(shelves: &[Vec<T>], doc: DocNo) -> &[T]
    requires { IsTrue (are_shelved T.key_of T.span 0 shelves.now) }
    ensures { result.now ≡ filter (is_between T.key_of (doc.0 * T.span) (doc.0 * T.span + T.span))
        (rows_on shelves.now) }
{
    let place = doc.0 as usize;
    if place < shelves.len() {
        shelves[place].as_slice()
    } else {
        &[]
    }
}

/// The row of a document that has this key.
pub fn find_on<T: Shelved>(shelves: &[Vec<T>], doc: DocNo, key: u128) -> Option<&T>
    requires shelved { IsTrue (are_shelved T.key_of T.span 0 shelves.now) }
    requires low { doc.0 * T.span ≤ key }
    requires high { key < doc.0 * T.span + T.span }
    ensures { option_copied result ≡ find_key T.key_of key (rows_on shelves.now) }
{
    let place = doc.0 as usize;
    if place < shelves.len() {
        find_row(&shelves[place], key)
    } else {
        None
    }
}

/// Makes the shelf of a document, where there is none, and room for one more row on it.
pub fn make_shelf<T: Shelved + Drop>(
    shelves: &mut Vec<Vec<T>>,
    doc: DocNo,
) -> Result<(), OutOfMemory>
    requires { IsTrue (are_shelved T.key_of T.span 0 shelves.old.items) }
    ensures rows { rows_on shelves.new.items ≡ rows_on shelves.old.items }
    ensures shelved { IsTrue (are_shelved T.key_of T.span 0 shelves.new.items) }
    ensures room { OnOk result (1 ≤ room_of (rooms_on shelves.new.items) doc.0) }
{
    let place = doc.0 as usize;
    add_shelves(shelves, place + 1)?;
    shelves[place].reserve(1)?;
    Ok(())
}

// Adds empty shelves until there are so many.
fn add_shelves<T: Shelved + Drop>(
    shelves: &mut Vec<Vec<T>>,
    count: usize,
) -> Result<(), OutOfMemory>
    requires { IsTrue (are_shelved T.key_of T.span 0 shelves.old.items) }
    ensures rows { rows_on shelves.new.items ≡ rows_on shelves.old.items }
    ensures shelved { IsTrue (are_shelved T.key_of T.span 0 shelves.new.items) }
    ensures count { OnOk result (count ≤ length shelves.new.items) }
{
    let alloc = *shelves.allocator();
    while shelves.len() < count {
        shelves.push(Vec::new(alloc))?;
    }
    Ok(())
}

/// Puts a row on its shelf, where there is room.
pub fn put_on<T: Shelved + Drop>(shelves: &mut Vec<Vec<T>>, row: T)
    requires shelved { IsTrue (are_shelved T.key_of T.span 0 shelves.old.items) }
    requires room { 1 ≤ room_of (rooms_on shelves.old.items) (T.doc_of row) }
    ensures rows { rows_on shelves.new.items ≡ put T.key_of row (rows_on shelves.old.items) }
    ensures shelved { IsTrue (are_shelved T.key_of T.span 0 shelves.new.items) }
{
    let place = row.doc().0 as usize;
    let _ = put_row(&mut shelves[place], row);
}

/// Takes a row of a document away, if it is there.
pub fn remove_on<T: Shelved + Drop>(shelves: &mut Vec<Vec<T>>, doc: DocNo, key: u128)
    requires shelved { IsTrue (are_shelved T.key_of T.span 0 shelves.old.items) }
    requires low { doc.0 * T.span ≤ key }
    requires high { key < doc.0 * T.span + T.span }
    ensures rows { rows_on shelves.new.items ≡ without T.key_of key (rows_on shelves.old.items) }
    ensures shelved { IsTrue (are_shelved T.key_of T.span 0 shelves.new.items) }
{
    let place = doc.0 as usize;
    if place < shelves.len() {
        remove_row(&mut shelves[place], key);
    }
}
