// Calls that tell of the matter as a whole, search it, or plan a production, and change nothing.
ghost use Rattle.bp_freeze.specs.Freezing.{freeze_of};
ghost use Rattle.bp_looks.specs.Finding.{find};
ghost use Rattle.bp_looks.specs.Productions.{productions_of};
ghost use Rattle.bp_looks.specs.Staff.{people_of};
ghost use Rattle.bp_looks.specs.States.{see_states};
ghost use Rattle.bp_looks.specs.Values.{see_values};
ghost use Rattle.bp_rules.specs.Deciding.{Decides};
ghost use Rattle.bp_rules.specs.Stepping.{quiet_answer, told};

use crate::decided::{Decided, told};
use bp_core::{DocNo, Refusal, TextList};
use bp_matter::{Reply, Request, Tables};
use std::alloc::Global;

pub(crate) fn see_states(alloc: Global, tables: &Tables, from: DocNo) -> Result<Decided, Refusal>
    ensures { Decides tables.now.matter (quiet_answer tables.now.matter Reply.States
        (see_states tables.now.matter from.0)) result }
{
    let states = bp_looks::see_states(alloc, tables, from)?;
    told(alloc, tables, Reply::States(states))
}

pub(crate) fn see_values(alloc: Global, tables: &Tables, doc: DocNo) -> Result<Decided, Refusal>
    ensures { Decides tables.now.matter (quiet_answer tables.now.matter Reply.Values
        (see_values tables.now.matter doc.0)) result }
{
    let values = bp_looks::see_values(alloc, tables, doc)?;
    told(alloc, tables, Reply::Values(values))
}

pub(crate) fn see_staff(alloc: Global, tables: &Tables) -> Result<Decided, Refusal>
    ensures { Decides tables.now.matter (told tables.now.matter
        (Reply.People (people_of tables.now.matter))) result }
{
    let people = bp_looks::see_staff(alloc, tables)?;
    told(alloc, tables, Reply::People(people))
}

pub(crate) fn see_productions(alloc: Global, tables: &Tables) -> Result<Decided, Refusal>
    ensures { Decides tables.now.matter (told tables.now.matter
        (Reply.Productions (productions_of tables.now.matter))) result }
{
    let productions = bp_looks::see_productions(alloc, tables)?;
    told(alloc, tables, Reply::Productions(productions))
}

pub(crate) fn find(
    alloc: Global,
    tables: &Tables,
    terms: &TextList,
    from: DocNo,
    page: u32,
) -> Result<Decided, Refusal>
    ensures { Decides tables.now.matter (quiet_answer tables.now.matter Reply.Found
        (find tables.now.matter terms.now from.0 page)) result }
{
    let found = bp_looks::find(alloc, tables, terms, from, page)?;
    told(alloc, tables, Reply::Found(found))
}

// What a freeze would answer. Nothing is kept.
pub(crate) fn plan(alloc: Global, tables: &Tables, request: &Request) -> Result<Decided, Refusal>
    ensures { Decides tables.now.matter (quiet_answer tables.now.matter Reply.Produced
        (freeze_of tables.now.matter request.now)) result }
{
    let production = bp_looks::plan(alloc, tables, request)?;
    told(alloc, tables, Reply::Produced(production))
}
