// The receiver's desk: the tables of a matter, and what is granted of them.
ghost use Rattle.std.specs.Prelude.{◌≡◌, ◌<◌, ◌^◌, ◌++◌, ◌∷◌, [], IfOk, OnErr, OnOk, length};
ghost use Rattle.std.specs.Option.{option_copied};
ghost use Rattle.bp_core.specs.Answers.{Answers};
ghost use Rattle.bp_core.specs.Sorted.{find_key};
ghost use Rattle.bp_matter.specs.Matter.{staff_key};
ghost use Rattle.bp_receiver.specs.Delivering.{GrantGives};
ghost use Rattle.bp_receiver.specs.Granting.{at_record, grant_each, grant_of, grants_full, is_receiver_row};

use crate::grants::{GRANTS_LIMIT, Grant, MAX_GRANTS};
use crate::owed::{is_granted, is_receiver};
use crate::ready::ReadyFile;
use bp_core::{OutOfMemory, Refusal, Rule, RuleKind, StaffNo, Text};
use bp_matter::{StaffRow, Tables};
use std::alloc::Global;
use std::marker::Model;

/// The tables of a matter, and the grants of this run. Contracts see it as a `Holding`.
#[derive(Drop)]
pub struct Delivery {
    pub(crate) alloc: Global,
    pub(crate) tables: Tables,
    pub(crate) grants: Vec<Grant>,
    // Files that were made, and are given once more as they are: of a production at most those that are
    // made of all its items, each once.
    pub(crate) ready: Vec<ReadyFile>,
}

impl Model for Delivery {
    ghost use Rattle.bp_receiver.specs.Events.{Holding};
    ghost use Rattle.bp_receiver.specs.Ready.{AreReady};

    ghost Value = { Holding };

    ghost view = { λ d. record { matter = d.tables.matter; grants = d.grants.items } };

    ghost invariant = { λ d. AreReady d.tables.matter d.ready.items };
}

impl Delivery {
    /// A desk over these tables, of which nothing is granted. It takes no memory.
    pub fn over(alloc: Global, tables: Tables) -> Delivery
        ensures { result ≡ record { matter = tables.matter; grants = [] } }
    {
        Delivery {
            alloc,
            tables,
            grants: Vec::new(alloc),
            ready: Vec::new(alloc),
        }
    }

    /// A desk over these tables with these grants, made one after another. What `grant` refuses, with
    /// the place of the grant as line, counted from 1.
    pub fn with_grants(alloc: Global, tables: Tables, grants: &[Grant]) -> Result<Delivery, Refusal>
        requires { length grants.now < 2 ^ 32 }
        ensures grants { Answers (λ desk. desk.grants) result
            (grant_each tables.matter [] 1 grants.now) }
        ensures matter { IfOk result (λ desk. desk.matter ≡ tables.matter) }
    {
        let mut desk = Delivery::over(alloc, tables);
        let mut number = 0;
        let mut rest = grants;
        while let Some((grant, others)) = rest.split_first() {
            number += 1;
            desk.grant_at(number, grant)?;
            rest = others;
        }
        Ok(desk)
    }

    // A grant that the record of that number asks for.
    fn grant_at(&mut self, number: u32, grant: &Grant) -> Result<(), Refusal>
        ensures { GrantGives self.old (at_record number
            (grant_of self.old.matter self.old.grants grant.now)) result self.new }
    {
        match self.grant(grant.staff, &grant.id) {
            Ok(()) => Ok(()),
            Err(Refusal::Rule(rule)) => Err(Refusal::Rule(rule.with_line(number))),
            Err(Refusal::OutOfMemory) => Err(Refusal::OutOfMemory),
        }
    }

    /// Grants the kept production of an id to a receiver: NotReceiver where no member of the staff
    /// who is one has the number, NoProduction where no production has the id, MatterFull where there
    /// are `MAX_GRANTS` grants. A grant that stands changes nothing, and a refusal leaves the desk.
    ///
    /// ```text
    /// delivery.grant(StaffNo(3), &id) // staff 3, a receiver, may take the production of this id
    /// ```
    pub fn grant(&mut self, staff: StaffNo, id: &Text) -> Result<(), Refusal>
        ensures { GrantGives self.old (grant_of self.old.matter self.old.grants (record {
          staff = staff;
          id = id.now;
        })) result self.new }
    {
        if !is_receiver_there(&self.tables, staff) {
            return Err(Refusal::bare(RuleKind::NotReceiver));
        }
        if self.tables.production(id).is_none() {
            return Err(Refusal::bare(RuleKind::NoProduction));
        }
        if is_granted(&self.grants, staff, id) {
            return Ok(());
        }
        let count = self.grants.len();
        if count as u64 >= MAX_GRANTS {
            return Err(Refusal::Rule(grants_full(count)));
        }
        match add_grant(&mut self.grants, staff, id) {
            Ok(()) => Ok(()),
            Err(_) => Err(Refusal::OutOfMemory),
        }
    }
}

// One grant more than these would be too many.
fn grants_full(count: usize) -> Rule
    requires { count < 2 ^ 63 }
    ensures { result ≡ grants_full count }
{
    Rule::naming_both(RuleKind::MatterFull, GRANTS_LIMIT, count as u64 + 1)
}

// The member of the staff of that number.
fn staff_row(tables: &Tables, staff: StaffNo) -> Option<&StaffRow>
    ensures { option_copied result ≡ find_key staff_key staff.0 tables.now.matter.staff }
{
    tables.staff.iter().find(|row| row.staff.0 == staff.0)
}

// Whether there is one of that number, and a receiver.
fn is_receiver_there(tables: &Tables, staff: StaffNo) -> bool
    ensures { result ≡ is_receiver_row (find_key staff_key staff.0 tables.now.matter.staff) }
{
    match staff_row(tables, staff) {
        Some(row) => is_receiver(row.role),
        None => false,
    }
}

// One grant more.
fn add_grant(grants: &mut Vec<Grant>, staff: StaffNo, id: &Text) -> Result<(), OutOfMemory>
    ensures added { OnOk result (grants.new.items ≡ grants.old.items ++ (record {
      staff = staff;
      id = id.now;
    }) ∷ []) }
    ensures refused { OnErr result (grants.new.items ≡ grants.old.items) }
{
    let id = id.clone()?;
    grants.push(Grant { staff, id })?;
    Ok(())
}
