// Calls and imports in turn.
ghost use Rattle.std.specs.Prelude.{◌≡◌, [], ◌∷◌};
ghost use Rattle.bp_rules.specs.Keeping.{StepKeeps};
ghost use Rattle.bp_rules.specs.Running.{AnswersOne, RunLoads, Runs, run_state, counted_answer, refusal_answer, reply_answer};

use crate::refusals::MatterRefusal;
use crate::steps::{Counted, step, step_import};
use bp_core::Rule;
use bp_keep::Keeper;
use bp_matter::{Batch, Call, Reply, Tables};
use std::alloc::Global;

/// What is asked of a matter.
#[derive(Debug, Drop)]
pub enum RunStep {
    /// A call, with the SHA-256 of the key that it is made with.
    Call { key: [u8; 32], call: Call },
    /// The import of a batch.
    Import { batch: Batch },
}

/// What is answered.
#[derive(Debug, Drop)]
pub enum RunAnswer {
    /// The reply to a call.
    Replied(Reply),
    /// How many documents and pages a batch has.
    Counted(Counted),
    /// This rule was broken, and nothing changed.
    Refused(Rule),
}

/// Makes all that is asked in turn, and adds the answers, in order, to those that were given. What
/// breaks a rule changes nothing, and the next is made; a fault of the keeper and want of memory
/// end the run, with all that was asked before made, kept and answered.
pub fn step_all<K: Keeper>(
    alloc: Global,
    tables: &mut Tables,
    keeper: &mut K,
    asked: &[RunStep],
    answers: &mut Vec<RunAnswer>,
) -> Result<(), MatterRefusal>
    ensures run { let before = run_state tables.old.matter (K.shows keeper.old) answers.old.items in
        let now = run_state tables.new.matter (K.shows keeper.new) answers.new.items in
        Runs before asked.now result now }
    ensures kept { StepKeeps tables.old.matter tables.new.matter }
{
    for one in asked {
        match answer_next(alloc, tables, keeper, one, answers) {
            Ok(()) => {}
            Err(refusal) => return Err(refusal),
        }
    }
    Ok(())
}

// Makes the next of a run. Room for its answer is there before it is made.
fn answer_next<K: Keeper>(
    alloc: Global,
    tables: &mut Tables,
    keeper: &mut K,
    asked: &RunStep,
    answers: &mut Vec<RunAnswer>,
) -> Result<(), MatterRefusal>
    ensures run { let before = run_state tables.old.matter (K.shows keeper.old) answers.old.items in
        let now = run_state tables.new.matter (K.shows keeper.new) answers.new.items in
        Runs before (asked.now ∷ []) result now }
    ensures kept { StepKeeps tables.old.matter tables.new.matter }
{
    if answers.reserve(1).is_err() {
        return Err(MatterRefusal::OutOfMemory);
    }
    let answer = match make_one(alloc, tables, keeper, asked) {
        Ok(answer) => answer,
        Err(refusal) => return Err(refusal),
    };
    answers.push_reserved(answer);
    Ok(())
}

// Makes one that is asked, and answers it.
fn make_one<K: Keeper>(
    alloc: Global,
    tables: &mut Tables,
    keeper: &mut K,
    asked: &RunStep,
) -> Result<RunAnswer, MatterRefusal>
    ensures made { AnswersOne tables.old.matter asked.now (K.shows keeper.old) result
        tables.new.matter (K.shows keeper.new) }
    ensures kept { StepKeeps tables.old.matter tables.new.matter }
{
    match asked {
        RunStep::Call { key, call } => reply_answer(step(alloc, tables, keeper, key, call)),
        RunStep::Import { batch } => counted_answer(step_import(alloc, tables, keeper, batch)),
    }
}

fn reply_answer(made: Result<Reply, MatterRefusal>) -> Result<RunAnswer, MatterRefusal>
    ensures { result ≡ reply_answer made }
{
    match made {
        Ok(reply) => Ok(RunAnswer::Replied(reply)),
        Err(refusal) => refusal_answer(refusal),
    }
}

fn counted_answer(made: Result<Counted, MatterRefusal>) -> Result<RunAnswer, MatterRefusal>
    ensures { result ≡ counted_answer made }
{
    match made {
        Ok(counted) => Ok(RunAnswer::Counted(counted)),
        Err(refusal) => refusal_answer(refusal),
    }
}

// A broken rule is an answer, and the run goes on.
fn refusal_answer(refusal: MatterRefusal) -> Result<RunAnswer, MatterRefusal>
    ensures { result ≡ refusal_answer refusal }
{
    match refusal {
        MatterRefusal::Rule(rule) => Ok(RunAnswer::Refused(rule)),
        MatterRefusal::KeeperFault => Err(MatterRefusal::KeeperFault),
        MatterRefusal::OutOfMemory => Err(MatterRefusal::OutOfMemory),
    }
}

/// What is loaded after a run is the matter after it. The function does nothing: its contract is
/// the law.
pub fn run_law()
    ensures { RunLoads }
{}
