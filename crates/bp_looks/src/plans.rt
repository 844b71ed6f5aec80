// What a request would be frozen to.
ghost use Rattle.bp_core.specs.Answers.{Answers};
ghost use Rattle.bp_freeze.specs.Alike.{DecidedAlike};
ghost use Rattle.bp_freeze.specs.Freezing.{freeze_of};
ghost use Rattle.bp_matter.specs.Matter.{Matter};

use bp_core::Refusal;
use bp_freeze::freeze;
use bp_matter::{Production, Request, Tables};
use std::alloc::Global;

/// The production that a freeze of this request would give, or the rule that it would break: what
/// `freeze` answers, and nothing is kept.
pub fn plan(alloc: Global, tables: &Tables, request: &Request) -> Result<Production, Refusal>
    ensures answer { Answers (λ f. f) result (freeze_of tables.now.matter request.now) }
    ensures alike { (other : Matter) →
        DecidedAlike request.now tables.now.matter other →
        Answers (λ f. f) result (freeze_of other request.now) }
{
    freeze(alloc, tables, request)
}
