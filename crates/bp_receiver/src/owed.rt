// The wall of the receiver's desk: what a want is owed, lent from the tables. Nothing here is given an
// allocator or can refuse, so nothing that sees a document can tell of it by want of memory. What takes
// memory for a want sees the tables by what is owed alone.
ghost use Rattle.std.specs.Prelude.{◌≡◌, ◌<◌, IfSome, length};
ghost use Rattle.bp_freeze.specs.Freezing.{kept_production};
ghost use Rattle.bp_receiver.specs.Owed.{IsOwedBy, LendsRow, owed_given, row_lent, rows_left};
ghost use Rattle.bp_receiver.specs.Receiving.{file_given, given_to, is_granted, is_receiver, listed_by, receive};

use crate::events::Wanted;
use crate::grants::Grant;
use bp_bates::Span;
use bp_core::{Role, RuleKind, StaffNo, Text};
use bp_freeze::found_is_kept;
use bp_matter::Tables;
use bp_press::Covered;

// What a want is owed.
#[derive(Clone, Copy)]
pub(crate) enum Owed<'a> {
    // Nothing: it broke this rule.
    Broken(RuleKind),
    // The productions that are granted to a receiver.
    List(OwedList<'a>),
    // A file of a production that is granted to it.
    File(OwedFile<'a>),
}

// The productions that are granted to a receiver, to be lent one by one.
#[derive(Clone, Copy)]
pub(crate) struct OwedList<'a> {
    tables: &'a Tables,
    grants: &'a [Grant],
    staff: StaffNo,
}

// A production as it is listed.
#[derive(Clone, Copy)]
pub(crate) struct OwedRow<'a> {
    pub(crate) id: &'a Text,
    pub(crate) span: Span,
}

// The file of that path of the production of that id, of which no more is lent than its volume shows.
#[derive(Clone, Copy)]
pub(crate) struct OwedFile<'a> {
    pub(crate) id: &'a Text,
    pub(crate) path: &'a Text,
    pub(crate) shown: Covered<'a>,
}

// What a want is owed that comes with this key.
#[tactic(auto, unfolding(crate::specs::Receiving::receive))]
pub(crate) fn owed_for<'a>(
    tables: &'a Tables,
    grants: &'a [Grant],
    key: &[u8; 32],
    wanted: &'a Wanted,
) -> Owed<'a>
    ensures given { owed_given result ≡ receive tables.now.matter grants.now key.now wanted.now }
    ensures by { IsOwedBy tables.now.matter result }
{
    let Some(caller) = tables.staff_with(key) else {
        return Owed::Broken(RuleKind::KeyUnknown);
    };
    if !is_receiver(caller.role) {
        return Owed::Broken(RuleKind::RoleRefused);
    }
    owed_to(tables, grants, caller.staff, wanted)
}

pub(crate) fn is_receiver(role: Role) -> bool
    ensures { result ≡ is_receiver role }
{
    matches!(role, Role::Receiver)
}

// What this receiver is owed.
fn owed_to<'a>(
    tables: &'a Tables,
    grants: &'a [Grant],
    staff: StaffNo,
    wanted: &'a Wanted,
) -> Owed<'a>
    ensures given { owed_given result ≡ given_to tables.now.matter grants.now staff.0 wanted.now }
    ensures by { IsOwedBy tables.now.matter result }
{
    match wanted {
        Wanted::List => Owed::List(OwedList {
            tables,
            grants,
            staff,
        }),
        Wanted::File { id, path } => {
            if !is_granted(grants, staff, id) {
                return Owed::Broken(RuleKind::NoProduction);
            }
            file_owed(tables, id, path)
        }
    }
}

// Whether this member of the staff may take this production.
pub(crate) fn is_granted(grants: &[Grant], staff: StaffNo, id: &Text) -> bool
    ensures { result ≡ is_granted grants.now staff.0 id.now }
{
    grants
        .iter()
        .any(|grant| grant.staff.0 == staff.0 && grant.id == *id)
}

// The file of that path of the production of that id.
fn file_owed<'a>(tables: &'a Tables, id: &'a Text, path: &'a Text) -> Owed<'a>
    ensures given { let kept = kept_production tables.now.matter.productions id.now in
        owed_given result ≡ file_given tables.now.matter path.now kept }
    ensures by { IsOwedBy tables.now.matter result }
{
    found_is_kept();
    match tables.production(id) {
        Some(production) => Owed::File(OwedFile {
            id,
            path,
            shown: Covered::of(tables, production),
        }),
        None => Owed::Broken(RuleKind::NoProduction),
    }
}

impl<'a> OwedList<'a> {
    // The next production, if there is one.
    pub(crate) fn next(&mut self) -> Option<OwedRow<'a>>
        ensures { LendsRow (rows_left self.old) result (rows_left self.new) }
    {
        while let Some((grant, others)) = self.grants.split_first() {
            self.grants = others;
            if let Some(row) = row_by(self.tables, self.staff, grant) {
                return Some(row);
            }
        }
        None
    }
}

// What a grant lists to this member of the staff.
fn row_by<'a>(tables: &'a Tables, staff: StaffNo, grant: &Grant) -> Option<OwedRow<'a>>
    ensures { row_lent result ≡ listed_by tables.now.matter staff.0 grant.now }
{
    if grant.staff.0 != staff.0 {
        return None;
    }
    let production = tables.production(&grant.id)?;
    Some(OwedRow {
        id: &production.request.id,
        span: production.span,
    })
}
