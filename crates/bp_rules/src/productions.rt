// The calls about productions: a request to freeze one, and the question for one that is kept.
ghost use Rattle.std.specs.Prelude.{◌≡◌, ◌+◌, ◌<◌, ◌^◌, IfOk, IsTrue, None, Ok, length};
ghost use Rattle.bp_matter.specs.Written.{prefix_written, production_written};
ghost use Rattle.bp_freeze.specs.Freezing.{freeze_of, kept_production};
ghost use Rattle.bp_freeze.specs.Keeping.{prefix_after, prefix_number, production_after, with_production};
ghost use Rattle.bp_freeze.specs.Refusals.{prefix_row};
ghost use Rattle.bp_rules.specs.Changes.{CanBeMade};
ghost use Rattle.bp_rules.specs.Deciding.{Decides};
ghost use Rattle.bp_rules.specs.Stepping.{freeze, get_production};
ghost use Rattle.bp_rules.specs.declared.changes.Edit.TheVariants.{Produced};

use crate::changes::{Change, Edit};
use crate::copies::copy_text;
use crate::decided::{Decided, told};
use bp_bates::Prefix;
use bp_core::{OutOfMemory, Refusal, RuleKind, Text};
use bp_freeze::{freeze, frozen_is_valid};
use bp_matter::laws::order_law;
use bp_matter::{PrefixRow, Production, ProductionRow, Reply, Request, Tables};
use std::alloc::Global;

// The production that is kept under an id.
pub(crate) fn get_production(alloc: Global, tables: &Tables, id: &Text) -> Result<Decided, Refusal>
    ensures { Decides tables.now.matter (get_production tables.now.matter
        (kept_production tables.now.matter.productions id.now)) result }
{
    let Some(kept) = tables.production(id) else {
        return Err(Refusal::bare(RuleKind::NoProduction));
    };
    told(alloc, tables, Reply::Produced(kept.copy(alloc)?))
}

// The production that a request gives. Where its id is kept nothing changes.
pub(crate) fn freeze_call(
    alloc: Global,
    tables: &Tables,
    request: &Request,
) -> Result<Decided, Refusal>
    ensures { Decides tables.now.matter (freeze tables.now.matter
        (freeze_of tables.now.matter request.now)) result }
{
    let production = freeze(alloc, tables, request)?;
    if tables.production(&production.request.id).is_some() {
        return told(alloc, tables, Reply::Produced(production));
    }
    keep_production(alloc, tables, request, production)
}

// The production of a new id is kept, and its prefix with the numbers that it takes.
fn keep_production(
    alloc: Global,
    tables: &Tables,
    request: &Request,
    production: Production,
) -> Result<Decided, Refusal>
    requires answer { freeze_of tables.now.matter request.now ≡ Ok production }
    requires new { kept_production tables.now.matter.productions production.request.id ≡ None }
    ensures { Decides tables.now.matter (Ok (record {
      reply = Reply.Produced production;
      matter = with_production production tables.now.matter;
    })) result }
{
    know_kept(tables, request, &production);
    let change = production_change(alloc, tables, &production)?;
    let reply = Reply::Produced(production);
    Ok(Decided { change, reply })
}

// The change that keeps a production. The row has a copy of it.
fn production_change(
    alloc: Global,
    tables: &Tables,
    production: &Production,
) -> Result<Change, OutOfMemory>
    requires prefix { IsTrue (prefix_written
        (prefix_after production.now tables.now.matter.prefixes)) }
    requires row { IsTrue (production_written
        (production_after production.now tables.now.matter.productions)) }
    requires number { prefix_number tables.now.matter.prefixes (prefix_row
        tables.now.matter.prefixes production.now.request.prefix.text) < 2 ^ 32 }
    requires productions { length tables.now.matter.productions + 1 < 2 ^ 32 }
    requires next { production.now.span.last + 1 < 2 ^ 64 }
    ensures { IfOk result (λ change. change ≡ Produced
        (prefix_after production.now tables.now.matter.prefixes)
        (production_after production.now tables.now.matter.productions)) }
{
    let prefix = prefix_after(tables, production)?;
    let row = production_after(tables, production.copy(alloc)?);
    Change::new(alloc, Edit::Produced(prefix, row))
}

// Says what holds of the rows that keep the production of a new id.
fn know_kept(tables: &Tables, request: &Request, production: &Production)
    requires answer { freeze_of tables.now.matter request.now ≡ Ok production.now }
    requires new { kept_production tables.now.matter.productions production.now.request.id
        ≡ None }
    ensures made { CanBeMade tables.now.matter (Produced
        (prefix_after production.now tables.now.matter.prefixes)
        (production_after production.now tables.now.matter.productions)) }
    ensures prefix { IsTrue (prefix_written
        (prefix_after production.now tables.now.matter.prefixes)) }
    ensures row { IsTrue (production_written
        (production_after production.now tables.now.matter.productions)) }
    ensures number { prefix_number tables.now.matter.prefixes (prefix_row
        tables.now.matter.prefixes production.now.request.prefix.text) < 2 ^ 32 }
    ensures productions { length tables.now.matter.productions + 1 < 2 ^ 32 }
    ensures next { production.now.span.last + 1 < 2 ^ 64 }
{
    let _request = request;
    let _production = production;
    tables.know_valid();
    order_law();
    frozen_is_valid();
}

// The prefix of a production, whose next number is the one after its last.
fn prefix_after(tables: &Tables, production: &Production) -> Result<PrefixRow, OutOfMemory>
    requires number { prefix_number tables.now.matter.prefixes (prefix_row
        tables.now.matter.prefixes production.now.request.prefix.text) < 2 ^ 32 }
    requires next { production.now.span.last + 1 < 2 ^ 64 }
    ensures { IfOk result (λ row. row
        ≡ prefix_after production.now tables.now.matter.prefixes) }
{
    let prefix = &production.request.prefix;
    Ok(PrefixRow {
        num: prefix_number(tables, &prefix.text),
        prefix: copy_prefix(prefix)?,
        next: production.span.last + 1,
    })
}

// The number of the prefix of a text; a new one comes behind the others.
fn prefix_number(tables: &Tables, text: &Text) -> u32
    requires { prefix_number tables.now.matter.prefixes
        (prefix_row tables.now.matter.prefixes text.now) < 2 ^ 32 }
    ensures { result ≡ prefix_number tables.now.matter.prefixes
        (prefix_row tables.now.matter.prefixes text.now) }
{
    match tables.prefix_with(text) {
        Some(row) => row.num,
        None => tables.prefixes.len() as u32 + 1,
    }
}

fn copy_prefix(prefix: &Prefix) -> Result<Prefix, OutOfMemory>
    ensures { IfOk result (λ copy. copy ≡ prefix.now) }
{
    Ok(Prefix {
        text: copy_text(&prefix.text)?,
        width: prefix.width,
    })
}

// The production behind the others.
fn production_after(tables: &Tables, production: Production) -> ProductionRow
    requires { length tables.now.matter.productions + 1 < 2 ^ 32 }
    ensures { result ≡ production_after production tables.now.matter.productions }
{
    ProductionRow {
        num: tables.productions.len() as u32 + 1,
        production,
    }
}
