// Whether rows are the staff of a matter.
ghost use Rattle.std.specs.List.{list_all, list_any};
ghost use Rattle.std.specs.Option.{option_copied};
ghost use Rattle.std.specs.Prelude.{IfOk, IsTrue, length, nat_le, ◌≡◌};
ghost use Rattle.std.specs.Str.{bytes_eq};
ghost use Rattle.bp_core.specs.Sorted.{ascends};
ghost use Rattle.bp_matter.specs.Written.{staff_written};
ghost use Rattle.bp_matter.specs.Matter.{staff_key};
ghost use Rattle.bp_matter.specs.ValidStaff.{StaffFacts, begins_with_lead, checker_there, is_checker, is_lead, staff_digest, staff_fits};

use super::labels::StaffDigest;
use super::numbers::is_numbered;
use crate::limits::{MAX_NAME, MAX_STAFF};
use crate::rows::StaffRow;
use crate::texts::is_text;
use bp_core::{OutOfMemory, Role, all_differ};
use std::alloc::Global;

fn is_lead(role: Role) -> bool
    ensures { result ≡ is_lead role }
{
    matches!(role, Role::Lead)
}

fn is_checker(role: Role) -> bool
    ensures { result ≡ is_checker role }
{
    matches!(role, Role::Second | Role::Lead)
}

fn begins_with_lead(staff: &[StaffRow]) -> bool
    ensures { result ≡ begins_with_lead staff.now }
{
    match staff {
        [] => false,
        [first, ..] => is_lead(first.role),
    }
}

fn staff_fits(row: &StaffRow) -> bool
    ensures { result ≡ staff_fits row.now }
{
    !row.name.is_empty() && is_text(&row.name, MAX_NAME)
}

fn staff_fit(rows: &[StaffRow]) -> bool
    ensures { result ≡ list_all staff_fits rows.now }
{
    rows.iter().all(|row| staff_fits(row))
}

fn staff_few(rows: &[StaffRow]) -> bool
    ensures { result ≡ nat_le (length rows.now) MAX_STAFF }
{
    rows.len() <= MAX_STAFF
}

#[tactic(auto, using(crate::proofs::NumberedLemmas::orders))]
pub(crate) fn staff_valid(alloc: Global, staff: &[StaffRow]) -> Result<bool, OutOfMemory>
    requires written { IsTrue (list_all staff_written staff.now) }
    ensures order { IfOk result (λ good. IsTrue good → IsTrue (ascends staff_key 0 staff.now)) }
    ensures fact { IfOk result (λ good. IsTrue good → StaffFacts staff.now) }
    ensures back { IfOk result (λ good. StaffFacts staff.now → IsTrue good) }
{
    if !is_numbered(staff, 1) {
        return Ok(false);
    }
    if !staff_few(staff) {
        return Ok(false);
    }
    if !begins_with_lead(staff) {
        return Ok(false);
    }
    if !all_differ::<StaffDigest, _>(alloc, staff)? {
        return Ok(false);
    }
    Ok(staff_fit(staff))
}

pub(crate) fn checker_there(row: Option<&StaffRow>) -> bool
    ensures { result ≡ checker_there (option_copied row.entry) }
{
    match row {
        None => false,
        Some(row) => is_checker(row.role),
    }
}
