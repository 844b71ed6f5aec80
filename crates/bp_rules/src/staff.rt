// The call that adds a member of the staff.
ghost use Rattle.std.specs.Prelude.{◌≡◌, ◌<◌, IsTrue, None, Some, length};
ghost use Rattle.bp_matter.specs.LookUps.{staff_with};
ghost use Rattle.bp_matter.specs.Fields.{role_number};
ghost use Rattle.bp_rules.specs.Calling.{next_staff, with_staff};
ghost use Rattle.bp_rules.specs.Deciding.{Decides};
ghost use Rattle.bp_rules.specs.Refusing.{is_staff_name as staff_name, staff_full, staff_there};
ghost use Rattle.bp_rules.specs.Stepping.{add_staff, is_member, staff_by};

use crate::changes::{Change, Edit};
use crate::copies::copy_text;
use crate::decided::{Decided, told};
use bp_core::{Refusal, Role, Rule, RuleKind, StaffNo, Text};
use bp_matter::laws::order_law;
use bp_matter::texts::is_text;
use bp_matter::{MAX_NAME, MAX_STAFF, Reply, StaffRow, Tables};
use std::alloc::Global;

// The number of the limit of the staff.
const STAFF: u64 = 5;

pub(crate) fn add_staff(
    alloc: Global,
    tables: &Tables,
    name: &Text,
    role: Role,
    digest: [u8; 32],
) -> Result<Decided, Refusal>
    ensures { Decides tables.now.matter (add_staff tables.now.matter (record {
      staff = next_staff tables.now.matter;
      role = role;
      digest = digest;
      name = name.now;
    })) result }
{
    let row = StaffRow {
        staff: next_staff(tables),
        role,
        digest,
        name: copy_text(name)?,
    };
    add_row(alloc, tables, row)
}

// The number of the next member.
fn next_staff(tables: &Tables) -> StaffNo
    ensures { result ≡ next_staff tables.now.matter }
{
    tables.know_valid();
    StaffNo(tables.staff.len() as u32 + 1)
}

// The same of a row that says so.
fn add_row(alloc: Global, tables: &Tables, row: StaffRow) -> Result<Decided, Refusal>
    requires { row.staff ≡ next_staff tables.now.matter }
    ensures { Decides tables.now.matter (add_staff tables.now.matter row) result }
{
    if !is_staff_name(&row.name) {
        return Err(Refusal::bare(RuleKind::TextRefused));
    }
    if let Some(there) = tables.staff_with(&row.digest) {
        return find_member(alloc, tables, there, &row);
    }
    if tables.staff.len() >= MAX_STAFF {
        return Err(Refusal::Rule(staff_full(tables.staff.len() as u32)));
    }
    add_member(alloc, tables, row)
}

// Who has the key is found where equal.
fn find_member(
    alloc: Global,
    tables: &Tables,
    there: &StaffRow,
    row: &StaffRow,
) -> Result<Decided, Refusal>
    ensures { Decides tables.now.matter
        (staff_by tables.now.matter row.now (Some there.now)) result }
{
    if !is_member(there, &row.name, row.role) {
        return Err(Refusal::Rule(staff_there(there.staff)));
    }
    told(alloc, tables, Reply::Staff(there.staff))
}

fn is_member(row: &StaffRow, name: &Text, role: Role) -> bool
    ensures { result ≡ is_member name.now role row.now }
{
    row.name == *name && role_number(row.role) == role_number(role)
}

fn role_number(role: Role) -> u8
    ensures { result ≡ role_number role }
{
    match role {
        Role::Reviewer => 0,
        Role::Second => 1,
        Role::Lead => 2,
        Role::Clerk => 3,
        Role::Receiver => 4,
    }
}

// A member comes, for whom there is room.
fn add_member(alloc: Global, tables: &Tables, row: StaffRow) -> Result<Decided, Refusal>
    requires number { row.staff ≡ next_staff tables.now.matter }
    requires few { length tables.now.matter.staff < 1000 }
    requires name { IsTrue (staff_name row.name) }
    requires new { staff_with row.digest tables.now.matter ≡ None }
    ensures { Decides tables.now.matter (Ok (record {
      reply = Reply.Staff row.staff;
      matter = with_staff row tables.now.matter;
    })) result }
{
    tables.know_valid();
    order_law();
    let _text = row.name.as_str();
    know_digest(&row.digest);
    let reply = Reply::Staff(row.staff);
    let change = Change::new(alloc, Edit::Staff(row))?;
    Ok(Decided { change, reply })
}

// A digest has 32 bytes.
fn know_digest(digest: &[u8; 32])
    ensures { length digest.now ≡ 32 }
{
    let _digest = digest;
}

fn is_staff_name(name: &Text) -> bool
    ensures { result ≡ staff_name name.now }
{
    !name.is_empty() && is_text(name, MAX_NAME)
}

fn staff_there(staff: StaffNo) -> Rule
    ensures { result ≡ staff_there staff.0 }
{
    Rule::naming(RuleKind::StaffThere, u64::from(staff.0))
}

// One member more than this would be too many.
fn staff_full(count: u32) -> Rule
    ensures { result ≡ staff_full count }
{
    Rule::naming_both(RuleKind::MatterFull, STAFF, u64::from(count) + 1)
}
