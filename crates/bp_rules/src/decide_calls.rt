// The table of calls: who made it, whether they may, and what decides it.
ghost use Rattle.std.specs.Prelude.{◌≡◌, IsTrue};
ghost use Rattle.bp_rules.specs.Deciding.{Decides, IsCaller};
ghost use Rattle.bp_rules.specs.Roles.{may};
ghost use Rattle.bp_rules.specs.Stepping.{step_by, step_of};

use crate::boxes::{drop_box, put_box};
use crate::decided::Decided;
use crate::document_calls::set_call;
use crate::held_fields::{free_field, hold_field};
use crate::log_entries::put_entry;
use crate::looks::{find, plan, see_productions, see_staff, see_states, see_values};
use crate::productions::{freeze_call, get_production};
use crate::roles::may;
use crate::second_review::{confirm, send_back};
use crate::staff::add_staff;
use crate::views::{see_doc, see_page, see_words};
use bp_core::{Refusal, RuleKind};
use bp_matter::{BoxRow, Call, StaffRow, Tables};
use std::alloc::Global;

/// Decides a call that was made with this key: what it changes and what is replied, or the first
/// rule that it breaks. A call that changes nothing has no puts.
#[tactic(auto, unfolding(crate::specs::Stepping::step_of))]
pub fn decide(
    alloc: Global,
    tables: &Tables,
    key: &[u8; 32],
    call: &Call,
) -> Result<Decided, Refusal>
    ensures { Decides tables.now.matter (step_of tables.now.matter key.now call.now) result }
{
    tables.know_valid();
    let Some(caller) = tables.staff_with(key) else {
        return Err(Refusal::bare(RuleKind::KeyUnknown));
    };
    if !may(caller.role, call) {
        return Err(Refusal::bare(RuleKind::RoleRefused));
    }
    decide_by(alloc, tables, caller, call)
}

// Decides a call of this member of the staff, who may make it.
fn decide_by(
    alloc: Global,
    tables: &Tables,
    caller: &StaffRow,
    call: &Call,
) -> Result<Decided, Refusal>
    requires caller { IsCaller tables.now.matter caller.now }
    requires may { IsTrue (may caller.now.role call.now) }
    ensures { Decides tables.now.matter
        (step_by tables.now.matter caller.now.staff call.now) result }
{
    let by = caller.staff;
    match call {
        Call::AddStaff { name, role, digest } => add_staff(alloc, tables, name, *role, *digest),
        Call::SeeDoc { doc } => see_doc(alloc, tables, by, *doc),
        Call::SeePage { doc, page } => see_page(alloc, tables, by, *doc, *page),
        Call::SeeWords { doc, page } => see_words(alloc, tables, by, *doc, *page),
        Call::SetCall {
            doc,
            responsive,
            treatment,
            designation,
        } => set_call(
            alloc,
            tables,
            by,
            *doc,
            *responsive,
            *treatment,
            designation,
        ),
        Call::PutBox {
            doc,
            num,
            page,
            rect,
            basis,
        } => {
            let row = BoxRow {
                num: *num,
                page: *page,
                rect: *rect,
                basis: *basis,
            };
            put_box(alloc, tables, by, *doc, row)
        }
        Call::DropBox { doc, num } => drop_box(alloc, tables, by, *doc, *num),
        Call::HoldField { doc, field, basis } => {
            hold_field(alloc, tables, by, *doc, field, *basis)
        }
        Call::FreeField { doc, field } => free_field(alloc, tables, by, *doc, field),
        Call::PutEntry {
            doc,
            date,
            author,
            recipients,
            description,
        } => put_entry(
            alloc,
            tables,
            by,
            *doc,
            date,
            author,
            recipients,
            description,
        ),
        Call::Confirm { doc } => confirm(alloc, tables, by, *doc),
        Call::SendBack { doc } => send_back(alloc, tables, by, *doc),
        Call::Freeze { request } => freeze_call(alloc, tables, request),
        Call::GetProduction { id } => get_production(alloc, tables, id),
        Call::SeeStates { from } => see_states(alloc, tables, *from),
        Call::SeeValues { doc } => see_values(alloc, tables, *doc),
        Call::SeeStaff => see_staff(alloc, tables),
        Call::SeeProductions => see_productions(alloc, tables),
        Call::Find { terms, from, page } => find(alloc, tables, terms, *from, *page),
        Call::Plan { request } => plan(alloc, tables, request),
    }
}
