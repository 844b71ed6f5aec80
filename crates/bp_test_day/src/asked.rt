// Calls, one by one and in one run.
//
//     call KEY NAME OPERAND..      one of the twenty calls, by the one who has this key
//     refused KEY NAME OPERAND..   the same: what is told, where it changes no row
//     may ROLE NAME OPERAND..      whether that role may make the call
//     decided KEY NAME OPERAND..   what would be told, and what would be put
//     ask KEY NAME OPERAND.. / ask_import NAME     waits for the run
//     run                          makes all that waits; what each is told, and where it stopped
use crate::calls::call_of;
use crate::day::Day;
use crate::told::{
    constant, of_call, of_counted, of_matter, of_refusal, of_reply, of_rule, unread, yes_or_no,
};
use anyhow::Result;
use bp_core::NumberList;
use bp_keep::Keeper;
use bp_matter::Call;
use bp_rules::{
    Decided, MatterRefusal, RunAnswer, RunStep, decide, make_room, may, step, step_all,
};
use bp_test_words::Words;
use std::alloc::Global;

pub fn told(day: &mut Day, verb: &str, words: &mut Words) -> Option<Result<String>> {
    match verb {
        "call" => Some(call(day, words)),
        "refused" => Some(refused(day, words)),
        "may" => Some(may_make(day, words)),
        "decided" => Some(decided(day, words)),
        "ask" => Some(ask(day, words)),
        "ask_import" => Some(ask_import(day, words)),
        "run" => Some(run(day)),
        _ => None,
    }
}

fn call(day: &mut Day, words: &mut Words) -> Result<String> {
    let key = words.digest();
    let call = call_of(words);
    if words.is_read() {
        make(day, &key, &call)
    } else {
        unread(day.alloc)
    }
}

// A copy of the call is made.
fn make(day: &mut Day, key: &[u8; 32], call: &Call) -> Result<String> {
    let call = call.copy(day.alloc)?;
    let told = step(day.alloc, &mut day.tables, &mut day.keeper, key, &call);
    of_call(day.alloc, &told)
}

fn refused(day: &mut Day, words: &mut Words) -> Result<String> {
    let before = day.tables.rows(day.alloc)?;
    let told = call(day, words)?;
    let kept = day.keeper.load(day.alloc)?;
    if kept == before && day.tables.rows(day.alloc)? == before {
        Ok(told)
    } else {
        constant(day.alloc, "a row has changed")
    }
}

fn may_make(day: &Day, words: &mut Words) -> Result<String> {
    let role = words.role();
    let call = call_of(words);
    if words.is_read() {
        yes_or_no(day.alloc, may(role, &call))
    } else {
        unread(day.alloc)
    }
}

fn decided(day: &mut Day, words: &mut Words) -> Result<String> {
    let key = words.digest();
    let call = call_of(words);
    if !words.is_read() {
        return unread(day.alloc);
    }
    match &decide(day.alloc, &day.tables, &key, &call) {
        Ok(decided) => decision(day, decided),
        Err(refusal) => of_refusal(day.alloc, *refusal),
    }
}

// The reply, and the key of each put.
fn decision(day: &mut Day, decided: &Decided) -> Result<String> {
    let mut text = of_reply(day.alloc, &decided.reply)?;
    for put in decided.change.puts().as_slice() {
        let (kind, k1, k2) = (put.kind, put.k1, put.k2);
        write!(text, " {kind}:{k1}:{k2}")?;
        text.push_str(if put.body.is_some() { "+" } else { "-" })?;
    }
    make_room(&mut day.tables, &decided.change)?;
    Ok(text)
}

fn ask(day: &mut Day, words: &mut Words) -> Result<String> {
    let key = words.digest();
    let call = call_of(words);
    if !words.is_read() {
        return unread(day.alloc);
    }
    day.asked.push(RunStep::Call { key, call })?;
    constant(day.alloc, "")
}

fn ask_import(day: &mut Day, words: &mut Words) -> Result<String> {
    let name = words.text();
    if !words.is_read() {
        return unread(day.alloc);
    }
    if let Ok(batch) = day.files.batch(&name, NumberList::new(day.alloc))? {
        day.asked.push(RunStep::Import { batch })?;
    }
    constant(day.alloc, "")
}

fn run(day: &mut Day) -> Result<String> {
    let mut answers = Vec::new(day.alloc);
    let ended = step_all(
        day.alloc,
        &mut day.tables,
        &mut day.keeper,
        &day.asked,
        &mut answers,
    );
    run_text(day.alloc, &answers, ended)
}

// What each is told, and where the run stopped.
fn run_text(
    alloc: Global,
    answers: &[RunAnswer],
    ended: Result<(), MatterRefusal>,
) -> Result<String> {
    let mut text = answers_text(alloc, answers)?;
    match ended {
        Ok(()) => {}
        Err(refusal) => {
            text.push_str(" / ")?;
            text.push_str(of_matter(alloc, refusal)?.as_str())?;
        }
    }
    Ok(text)
}

fn answers_text(alloc: Global, answers: &[RunAnswer]) -> Result<String> {
    let mut text = String::new(alloc);
    for answer in answers {
        if !text.is_empty() {
            text.push_str(" / ")?;
        }
        text.push_str(answer_text(alloc, answer)?.as_str())?;
    }
    Ok(text)
}

fn answer_text(alloc: Global, answer: &RunAnswer) -> Result<String> {
    match answer {
        RunAnswer::Replied(reply) => of_reply(alloc, reply),
        RunAnswer::Counted(counted) => of_counted(alloc, *counted),
        RunAnswer::Refused(rule) => of_rule(alloc, *rule),
    }
}
