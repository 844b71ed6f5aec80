// The command `produce`.
ghost use Rattle.std.specs.Prelude.{◌≡◌, ◌≤◌, IfOk, Some, length, map};
ghost use Rattle.std.specs.Str.{chars};
ghost use Rattle.bp_outside.specs.Source.{SourceView};
ghost use Rattle.bp_cli.specs.Commands.{produce, ReadsAndWorks};
ghost use Rattle.bp_cli.specs.Endings.{world};
ghost use Rattle.bp_cli.specs.Produce.{request_of_words, request_with, width_of};
ghost use Rattle.bp_cli.specs.ProduceSteps.{Freezes, IsProduced, TellsFrozen};
ghost use Rattle.bp_cli.specs.Words.{words_lent};

use crate::stops::Stop;
use crate::volumes::put_volume;
use crate::words::{number_in, text_of, word_at};
use bp_bates::Prefix;
use bp_core::{Bytes, DocNo, ListOf, OutOfMemory, TextList};
use bp_freeze::a_freeze_keeps;
use bp_keep::Keeper;
use bp_matter::{Call, Production, Reply, Request, Tables};
use bp_outside::Folder;
use bp_rules::{MatterRefusal, load_tables, step};
use std::alloc::Global;
use std::thread::Threads;

/// How many operands there are before the fields.
pub const REQUEST_WORDS: usize = 6;

/// The greatest width of labels that a line can ask for.
pub const MAX_WIDTH_WORD: u32 = 255;

// ---- its line

/// What the operands of `produce ID VOLUME PREFIX WIDTH FROM TO [FIELD..]` ask.
pub fn request_in(alloc: Global, operands: &[&str]) -> Result<Option<Request>, OutOfMemory>
    ensures { IfOk result (λ request. request ≡ request_of_words (words_lent operands.now)) }
{
    if operands.len() < REQUEST_WORDS {
        return Ok(None);
    }
    let Some(width) = width_in(word_at(operands, 3)) else {
        return Ok(None);
    };
    let Some(from) = number_in(word_at(operands, 4)) else {
        return Ok(None);
    };
    let Some(to) = number_in(word_at(operands, 5)) else {
        return Ok(None);
    };
    Ok(Some(request_with(alloc, operands, width, from, to)?))
}

fn width_in(word: &str) -> Option<u8>
    ensures { result ≡ width_of word.now }
{
    let width = number_in(word)?;
    if width > MAX_WIDTH_WORD {
        return None;
    }
    Some(width as u8)
}

fn request_with(
    alloc: Global,
    operands: &[&str],
    width: u8,
    from: u32,
    to: u32,
) -> Result<Request, OutOfMemory>
    requires { 6 ≤ length operands.now }
    ensures { IfOk result (λ request.
        request ≡ request_with (words_lent operands.now) width from to) }
{
    let prefix = Prefix {
        text: text_of(alloc, word_at(operands, 2))?,
        width,
    };
    Ok(Request {
        id: text_of(alloc, word_at(operands, 0))?,
        volume: text_of(alloc, word_at(operands, 1))?,
        prefix,
        from: DocNo(from),
        to: DocNo(to),
        fields: texts_of(alloc, &operands[REQUEST_WORDS..])?,
    })
}

#[tactic(auto, using(crate::proofs::WordLemmas::chars_next))]
fn texts_of(alloc: Global, words: &[&str]) -> Result<TextList, OutOfMemory>
    ensures { IfOk result (λ texts. texts ≡ map chars (words_lent words.now)) }
{
    let mut texts = Vec::new(alloc);
    for word in words {
        texts.push(text_of(alloc, word)?)?;
    }
    Ok(ListOf::from_vec(texts))
}

// ---- its work

/// Freezes what is asked for the lead, keeps it, and puts its volume. The line that tells its labels,
/// how many files it has, and the digest of its manifest.
pub fn produce_volume<R: Threads + Sync, K: Keeper, F: Folder>(
    rt: &R,
    alloc: Global,
    request: Request,
    keeper: &mut K,
    folder: &mut F,
) -> Result<Bytes, Stop>
    ensures { (source : SourceView)
        → let line = Some (produce request) in
        let before = world source (K.shows keeper.old) (F.shows folder.old) in
        let after = world source (K.shows keeper.new) (F.shows folder.new) in
        ReadsAndWorks line before result after }
{
    a_freeze_keeps();
    let mut tables = load_tables(alloc, keeper)?;
    tables.know_valid();
    let production = freeze_for_lead(alloc, &mut tables, keeper, request)?;
    put_volume(rt, alloc, &tables, &production, folder)
}

// Makes the call of the lead that freezes what is asked.
fn freeze_for_lead<K: Keeper>(
    alloc: Global,
    tables: &mut Tables,
    keeper: &mut K,
    request: Request,
) -> Result<Production, Stop>
    ensures { Freezes tables.old.matter request (K.shows keeper.old) result tables.new.matter
        (K.shows keeper.new) }
{
    tables.know_valid();
    let lead = tables.lead_digest();
    let call = Call::Freeze { request };
    let answer = step(alloc, tables, keeper, &lead, &call);
    frozen_in(answer)
}

// The production that a freeze was answered with, or why there is none.
fn frozen_in(answer: Result<Reply, MatterRefusal>) -> Result<Production, Stop>
    requires { IfOk answer IsProduced }
    ensures { TellsFrozen answer result }
{
    match answer {
        Ok(reply) => Ok(production_in(reply)),
        Err(refusal) => Err(Stop::from(refusal)),
    }
}

// The production that a reply has.
pub fn production_in(reply: Reply) -> Production
    requires { IsProduced reply }
    ensures { reply ≡ Reply.Produced result }
{
    match reply {
        Reply::Produced(production) => production,
        _ => unreachable!(),
    }
}
