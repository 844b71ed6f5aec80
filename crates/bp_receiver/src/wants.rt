// What a receiver is given.
ghost use Rattle.std.specs.Prelude.{◌≡◌, ◌++◌, ◌∷◌, [], IfOk, OnOk};
ghost use Rattle.bp_core.specs.Answers.{Answers};
ghost use Rattle.bp_freeze.specs.Keeping.{KeepsProduction};
ghost use Rattle.bp_matter.specs.Matter.{Matter};
ghost use Rattle.bp_press.specs.Shown.{matter_behind, production_shown};
ghost use Rattle.bp_receiver.specs.Owed.{CanBeGiven, IsFileOf, IsOwedBy, owed_file, owed_given, row_seen, rows_left};
ghost use Rattle.bp_receiver.specs.Ready.{AreReady};
ghost use Rattle.bp_receiver.specs.Receiving.{receive};

use crate::events::{Given, Wanted};
use crate::grants::{Grant, GrantedList, GrantedRow};
use crate::owed::{Owed, OwedFile, OwedList, OwedRow, owed_for};
use crate::ready::{ReadyFile, copy_of, keep_ready, ready_at};
use bp_core::{Bytes, ListOf, OutOfMemory, Refusal};
use bp_matter::Tables;
use bp_press::file_of;
use std::alloc::Global;

// What is given for a want that comes with this key.
pub(crate) fn receive(
    alloc: Global,
    tables: &Tables,
    grants: &[Grant],
    ready: &mut Vec<ReadyFile>,
    key: &[u8; 32],
    wanted: &Wanted,
) -> Result<Given, Refusal>
    requires { AreReady tables.now.matter ready.old.items }
    ensures given { Answers (λ given. given) result
        (receive tables.now.matter grants.now key.now wanted.now) }
    ensures ready { AreReady tables.now.matter ready.new.items }
{
    let owed = owed_for(tables, grants, key, wanted);
    owed_given(alloc, owed, ready)
}

// What is owed, in memory of its own.
fn owed_given(alloc: Global, owed: Owed<'_>, ready: &mut Vec<ReadyFile>) -> Result<Given, Refusal>
    requires { CanBeGiven owed ready.old.items }
    ensures given { Answers (λ given. given) result (owed_given owed.entry) }
    ensures ready { (m : Matter)
        → IsOwedBy m owed.entry
        → AreReady m ready.old.items
        → AreReady m ready.new.items }
{
    match owed {
        Owed::Broken(kind) => Err(Refusal::bare(kind)),
        Owed::List(list) => match listed(alloc, list) {
            Ok(rows) => Ok(Given::Ids(rows)),
            Err(_) => Err(Refusal::OutOfMemory),
        },
        Owed::File(file) => file_given(alloc, file, ready),
    }
}

// The file that is owed: one that is ready, or made anew.
fn file_given(
    alloc: Global,
    file: OwedFile<'_>,
    ready: &mut Vec<ReadyFile>,
) -> Result<Given, Refusal>
    requires of { IsFileOf (matter_behind file.shown) file }
    requires ready { AreReady (matter_behind file.shown) ready.old.items }
    ensures given { Answers (λ given. given) result (owed_file file.entry) }
    ensures ready { (m : Matter)
        → IsFileOf m file.entry
        → AreReady m ready.old.items
        → AreReady m ready.new.items }
{
    if let Some(there) = ready_at(ready, file.id, file.path) {
        return Ok(Given::File(copy_of(&there.bytes)?));
    }
    let bytes = file_made(alloc, file)?;
    // What lacks memory is made anew at the next want.
    let _kept = keep_ready(ready, file.id, file.path, &bytes);
    Ok(Given::File(bytes))
}

// The same, made anew.
fn file_made(alloc: Global, file: OwedFile<'_>) -> Result<Bytes, Refusal>
    requires { KeepsProduction (matter_behind file.shown) (production_shown file.shown) }
    ensures { Answers (λ bytes. Given.File bytes) result (owed_file file.entry) }
{
    file_of(alloc, &file.shown, file.path)
}

// The productions that are lent.
fn listed(alloc: Global, list: OwedList<'_>) -> Result<GrantedList, OutOfMemory>
    ensures { IfOk result (λ rows. rows ≡ rows_left list.entry) }
{
    let mut left = list;
    let mut rows = Vec::new(alloc);
    while let Some(row) = left.next() {
        add_row(&mut rows, row)?;
    }
    Ok(ListOf::from_vec(rows))
}

// Lists one.
fn add_row(rows: &mut Vec<GrantedRow>, row: OwedRow<'_>) -> Result<(), OutOfMemory>
    ensures { OnOk result (rows.new.items ≡ rows.old.items ++ row_seen row.entry ∷ []) }
{
    let id = row.id.clone()?;
    rows.push(GrantedRow { id, span: row.span })?;
    Ok(())
}
