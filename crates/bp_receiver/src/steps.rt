// Events at the desk, one after another.
ghost use Rattle.std.specs.Prelude.{◌≡◌};
ghost use Rattle.bp_core.specs.Answers.{Answers};
ghost use Rattle.bp_matter.specs.ValidStaff.{is_lead};
ghost use Rattle.bp_rules.specs.Steps.{StepsCall};
ghost use Rattle.bp_receiver.specs.Delivering.{EventGives, GrantGives, KeyGrants, KeyWants, ReviewGives, from_grant, from_reply, from_want, stopped_by};
ghost use Rattle.bp_receiver.specs.Granting.{grant_by};
ghost use Rattle.bp_receiver.specs.Receiving.{receive};

use crate::delivery::Delivery;
use crate::events::{Event, Given, Wanted};
use crate::wants::receive;
use bp_core::{Refusal, Role, RuleKind, StaffNo, Text};
use bp_keep::Keeper;
use bp_matter::{Call, Reply};
use bp_rules::{MatterRefusal, step};

/// Makes an event: a call on the matter by `step`, a grant by a lead, or a receiver's want. The
/// keeper is asked for nothing but by a call. A refusal leaves the desk and the kept rows, and
/// KeeperFault comes of a call alone.
pub fn deliver_step<K: Keeper>(
    delivery: &mut Delivery,
    keeper: &mut K,
    event: &Event,
) -> Result<Given, MatterRefusal>
    ensures { EventGives delivery.old event.now (K.shows keeper.old) result delivery.new
        (K.shows keeper.new) }
{
    match event {
        Event::Review { key, call } => review(delivery, keeper, key, call),
        Event::Grant { key, staff, id } => granted(delivery, key, *staff, id),
        Event::Want { key, wanted } => given_wanted(delivery, key, wanted),
    }
}

// ---- a call

fn review<K: Keeper>(
    delivery: &mut Delivery,
    keeper: &mut K,
    key: &[u8; 32],
    call: &Call,
) -> Result<Given, MatterRefusal>
    ensures { ReviewGives delivery.old key.now call.now (K.shows keeper.old) result delivery.new
        (K.shows keeper.new) }
{
    from_reply(step_at(delivery, keeper, key, call))
}

// A call on the desk's matter.
fn step_at<K: Keeper>(
    delivery: &mut Delivery,
    keeper: &mut K,
    key: &[u8; 32],
    call: &Call,
) -> Result<Reply, MatterRefusal>
    ensures made { StepsCall delivery.old.matter key.now call.now (K.shows keeper.old) result
        delivery.new.matter (K.shows keeper.new) }
    ensures grants { delivery.new.grants ≡ delivery.old.grants }
{
    step(delivery.alloc, &mut delivery.tables, keeper, key, call)
}

fn from_reply(made: Result<Reply, MatterRefusal>) -> Result<Given, MatterRefusal>
    ensures { result ≡ from_reply made }
{
    match made {
        Ok(reply) => Ok(Given::Review(reply)),
        Err(refusal) => Err(refusal),
    }
}

// ---- a grant

fn granted(
    delivery: &mut Delivery,
    key: &[u8; 32],
    staff: StaffNo,
    id: &Text,
) -> Result<Given, MatterRefusal>
    ensures { KeyGrants delivery.old key.now (record { staff = staff; id = id.now }) result
        delivery.new }
{
    from_grant(grant_by(delivery, key, staff, id))
}

// A grant by who has the key.
#[tactic(auto, unfolding(crate::specs::Granting::grant_by))]
fn grant_by(
    delivery: &mut Delivery,
    key: &[u8; 32],
    staff: StaffNo,
    id: &Text,
) -> Result<(), Refusal>
    ensures { GrantGives delivery.old (grant_by delivery.old.matter delivery.old.grants key.now
        (record { staff = staff; id = id.now })) result delivery.new }
{
    let role = match delivery.tables.staff_with(key) {
        Some(caller) => caller.role,
        None => return Err(Refusal::bare(RuleKind::KeyUnknown)),
    };
    if !is_lead(role) {
        return Err(Refusal::bare(RuleKind::RoleRefused));
    }
    delivery.grant(staff, id)
}

fn is_lead(role: Role) -> bool
    ensures { result ≡ is_lead role }
{
    matches!(role, Role::Lead)
}

fn from_grant(made: Result<(), Refusal>) -> Result<Given, MatterRefusal>
    ensures { result ≡ from_grant made }
{
    match made {
        Ok(()) => Ok(Given::Granted),
        Err(refusal) => Err(stopped_by(refusal)),
    }
}

// ---- a want

fn given_wanted(
    delivery: &mut Delivery,
    key: &[u8; 32],
    wanted: &Wanted,
) -> Result<Given, MatterRefusal>
    ensures { KeyWants delivery.old key.now wanted.now result delivery.new }
{
    from_want(receive_at(delivery, key, wanted))
}

// What the desk gives for a want.
fn receive_at(delivery: &mut Delivery, key: &[u8; 32], wanted: &Wanted) -> Result<Given, Refusal>
    ensures given { Answers (λ given. given) result
        (receive delivery.old.matter delivery.old.grants key.now wanted.now) }
    ensures desk { delivery.new ≡ delivery.old }
{
    receive(
        delivery.alloc,
        &delivery.tables,
        &delivery.grants,
        &mut delivery.ready,
        key,
        wanted,
    )
}

fn from_want(made: Result<Given, Refusal>) -> Result<Given, MatterRefusal>
    ensures { result ≡ from_want made }
{
    match made {
        Ok(given) => Ok(given),
        Err(refusal) => Err(stopped_by(refusal)),
    }
}

// Why an event wasn't made, as why a call wasn't.
fn stopped_by(refusal: Refusal) -> MatterRefusal
    ensures { result ≡ stopped_by refusal }
{
    match refusal {
        Refusal::Rule(rule) => MatterRefusal::Rule(rule),
        Refusal::OutOfMemory => MatterRefusal::OutOfMemory,
    }
}
