// An answer, as a line gives it.
use crate::looks;
use crate::values::{document, page, production, words_of};
use bp_core::{Rule, RuleKind, StaffNo};
use bp_matter::{KeptPage, Reply};
use bp_test_words::Words;
use bp_web::{Answer, WebRefusal};
use std::alloc::Global;

/// `done`, `staff NUMBER`, `doc ..`, `words ..`, `produced ..`, `page ..`, a look, `rule NAME LINE A B`,
/// `web NAME`, `fault`, `full COUNT` or `memory`.
pub fn answer_of(alloc: Global, words: &mut Words) -> Answer {
    match words.word() {
        "done" => Answer::Reply(Reply::Done),
        "staff" => Answer::Reply(Reply::Staff(StaffNo(words.number()))),
        "doc" => Answer::Reply(Reply::Doc(document(alloc, words))),
        "words" => Answer::Reply(Reply::Words(words_of(alloc, words))),
        "produced" => Answer::Reply(Reply::Produced(production(alloc, words))),
        "page" => page_answer(alloc, words),
        "rule" => Answer::Rule(rule(words)),
        "web" => Answer::Web(refusal(words)),
        "fault" => Answer::KeeperFault,
        "full" => Answer::JournalFull(words.long_number()),
        "memory" => Answer::OutOfMemory,
        look => look_answer(alloc, words, look),
    }
}

// `states ..`, `values ..`, `people ..`, `productions ..` or `found ..`.
fn look_answer(alloc: Global, words: &mut Words, name: &str) -> Answer {
    match name {
        "states" => Answer::Reply(Reply::States(looks::states(alloc, words))),
        "values" => Answer::Reply(Reply::Values(looks::values(alloc, words))),
        "people" => Answer::Reply(Reply::People(looks::people(alloc, words))),
        "productions" => Answer::Reply(Reply::Productions(looks::productions(alloc, words))),
        "found" => Answer::Reply(Reply::Found(looks::found(alloc, words))),
        _ => {
            words.refuse();
            Answer::KeeperFault
        }
    }
}

fn page_answer(alloc: Global, words: &mut Words) -> Answer {
    let Some(page) = page(alloc, words) else {
        words.refuse();
        return Answer::KeeperFault;
    };
    match KeptPage::of(alloc, &page) {
        Ok(kept) => Answer::Reply(Reply::Image(kept)),
        Err(_) => Answer::OutOfMemory,
    }
}

fn rule(words: &mut Words) -> Rule {
    let kind = rule_kind(words);
    let line = words.number();
    let a = words.long_number();
    let b = words.long_number();
    Rule { kind, line, a, b }
}

fn rule_kind(words: &mut Words) -> RuleKind {
    match words.word() {
        "KeyUnknown" => RuleKind::KeyUnknown,
        "NoDocument" => RuleKind::NoDocument,
        "NoPage" => RuleKind::NoPage,
        "RoleRefused" => RuleKind::RoleRefused,
        "BoxOutside" => RuleKind::BoxOutside,
        "NoField" => RuleKind::NoField,
        "BatesFull" => RuleKind::BatesFull,
        "NoProduction" => RuleKind::NoProduction,
        "NoFile" => RuleKind::NoFile,
        "MatterFull" => RuleKind::MatterFull,
        "WordsPage" => RuleKind::WordsPage,
        "PageLimit" => RuleKind::PageLimit,
        "KeptRowBad" => RuleKind::KeptRowBad,
        "TermRefused" => RuleKind::TermRefused,
        _ => {
            words.refuse();
            RuleKind::KeyUnknown
        }
    }
}

fn refusal(words: &mut Words) -> WebRefusal {
    match words.word() {
        "HeadRefused" => WebRefusal::HeadRefused,
        "NoRoute" => WebRefusal::NoRoute,
        "KeyMissing" => WebRefusal::KeyMissing,
        "BodyLimit" => WebRefusal::BodyLimit,
        "BodyRefused" => WebRefusal::BodyRefused,
        "OutOfMemory" => WebRefusal::OutOfMemory,
        _ => {
            words.refuse();
            WebRefusal::OutOfMemory
        }
    }
}
