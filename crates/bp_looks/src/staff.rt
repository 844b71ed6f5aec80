// The staff of the matter, as it is told.
ghost use Rattle.std.specs.Prelude.{◌≡◌, IfOk};
ghost use Rattle.bp_looks.specs.Staff.{people_of, person_of};

use crate::copies::copy_text;
use bp_core::{ListOf, OutOfMemory};
use bp_matter::{PersonList, PersonRow, StaffRow, Tables};
use std::alloc::Global;

/// Each member of the staff, in order.
pub fn see_staff(alloc: Global, tables: &Tables) -> Result<PersonList, OutOfMemory>
    ensures { IfOk result (λ people. people ≡ people_of tables.now.matter) }
{
    let mut people = Vec::new(alloc);
    for row in tables.staff.as_slice() {
        people.push(person_of(row)?)?;
    }
    Ok(ListOf::from_vec(people))
}

fn person_of(row: &StaffRow) -> Result<PersonRow, OutOfMemory>
    ensures { IfOk result (λ person. person ≡ person_of row.now) }
{
    Ok(PersonRow {
        staff: row.staff,
        name: copy_text(&row.name)?,
        role: row.role,
    })
}
