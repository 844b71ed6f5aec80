// What was decided of a call: a change and a reply, or the rule that it breaks.
ghost use Rattle.bp_rules.specs.Changes.{after};
ghost use Rattle.bp_rules.specs.Deciding.{CanBeReviewed, Decides};
ghost use Rattle.bp_rules.specs.Stepping.{done, told};
ghost use Rattle.bp_rules.specs.declared.changes.Edit.TheVariants.{Review};

use crate::changes::{CallEdit, Change, Edit, MarkEdit};
use bp_core::Refusal;
use bp_matter::laws::order_law;
use bp_matter::{Reply, Tables};
use std::alloc::Global;

/// What a call was decided to change, and its reply.
#[derive(Debug, Drop)]
pub struct Decided {
    pub change: Change,
    pub reply: Reply,
}

// A reply to a call that changes nothing.
pub(crate) fn told(alloc: Global, tables: &Tables, reply: Reply) -> Result<Decided, Refusal>
    ensures { Decides tables.now.matter (told tables.now.matter reply) result }
{
    tables.know_valid();
    let change = Change::nothing(alloc);
    Ok(Decided { change, reply })
}

// A change of the rows of a document.
pub(crate) fn reviewed(
    alloc: Global,
    tables: &Tables,
    call: CallEdit,
    mark: MarkEdit,
) -> Result<Decided, Refusal>
    requires { CanBeReviewed tables.now.matter call mark }
    ensures { Decides tables.now.matter
        (done (after tables.now.matter (Review call mark))) result }
{
    tables.know_valid();
    order_law();
    let change = Change::new(alloc, Edit::Review(call, mark))?;
    let reply = Reply::Done;
    Ok(Decided { change, reply })
}
