// The freeze of a request.
ghost use Rattle.std.specs.Prelude.{◌≡◌, ◌≤◌, ◌<◌, ◌+◌, ◌++◌, ◌^◌, IfOk, IsTrue, None, if◌then◌else◌, length};
ghost use Rattle.bp_core.specs.Answers.{Answers};
ghost use Rattle.bp_core.specs.Rules.{bare_rule};
ghost use Rattle.bp_bates.specs.Prefixes.{is_good_prefix};
ghost use Rattle.bp_matter.specs.Matter.{Matter};
ghost use Rattle.bp_freeze.specs.Alike.{DecidedAlike};
ghost use Rattle.bp_freeze.specs.Freezing.{freeze_of, frozen_unless, new_production, production_of, same_request};
ghost use Rattle.bp_freeze.specs.Marks.{AreMarks};
ghost use Rattle.bp_freeze.specs.Refusals.{family_rules, first_refusal, first_rule, next_number, prefix_row, request_rules, taken_rules, taking_rules};
ghost use Rattle.bp_freeze.specs.Seeing.{decisions_of, is_produced, seen_of};
ghost use Rattle.bp_freeze.specs.Selecting.{first_of_items, last_of_items};

use crate::families::{first_split, first_unsettled, responsive_marks};
use crate::items::take_items;
use crate::marks::produced_marks;
use crate::requests::{request_refusal, rule_with, same_request};
use bp_bates::{Span, largest};
use bp_core::{Ink, ListOf, OutOfMemory, Refusal, Rule, RuleKind, Text};
use bp_matter::{Item, MAX_PRODUCTIONS, Production, Request, Tables};
use std::alloc::Global;

/// The production that a request gives from then on, or the first rule that it breaks (FRCP 34).
/// A kept id answers with its production, where the request is equal, and with RequestDiffers where
/// it isn't. What is answered depends on what was decided, and on how many pages those documents of
/// the range have that aren't withheld, and on nothing else.
pub fn freeze(alloc: Global, tables: &Tables, request: &Request) -> Result<Production, Refusal>
    ensures answer { Answers (λ f. f) result (freeze_of tables.now.matter request.now) }
    ensures alike { (other : Matter) →
        DecidedAlike request.now tables.now.matter other →
        Answers (λ f. f) result (freeze_of other request.now) }
{
    match tables.production(&request.id) {
        Some(kept) => repeat(alloc, kept, request),
        None => freeze_new(alloc, tables, request),
    }
}

// What a kept production answers to a request of its id.
fn repeat(alloc: Global, kept: &Production, request: &Request) -> Result<Production, Refusal>
    ensures { Answers (λ f. f) result (if same_request kept.now.request request.now
        then Ok kept.now else Err (bare_rule RuleKind.RequestDiffers)) }
{
    if !same_request(&kept.request, request) {
        return Err(Refusal::Rule(Rule::bare(RuleKind::RequestDiffers)));
    }
    Ok(kept.copy(alloc)?)
}

// What a request of a new id gives.
fn freeze_new(alloc: Global, tables: &Tables, request: &Request) -> Result<Production, Refusal>
    ensures { let d = decisions_of tables.now.matter in
        let docs = seen_of tables.now.matter request.now in
        Answers (λ f. f) result (frozen_unless (first_refusal d docs request.now)
        (new_production d docs request.now)) }
{
    if let Some(rule) = request_refusal(alloc, tables, request)? {
        return Err(Refusal::Rule(rule));
    }
    freeze_range(alloc, tables, request)
}

// What a request gives that breaks no rule by itself.
fn freeze_range(alloc: Global, tables: &Tables, request: &Request) -> Result<Production, Refusal>
    requires { first_rule (request_rules (decisions_of tables.now.matter) request.now) ≡ None }
    ensures { let d = decisions_of tables.now.matter in
        let docs = seen_of tables.now.matter request.now in
        Answers (λ f. f) result (frozen_unless
        (first_rule (family_rules d docs request.now ++ taking_rules d docs request.now))
        (new_production d docs request.now)) }
{
    know_passed(tables, request);
    let produced = produced_marks(alloc, tables)?;
    if let Some(rule) = family_refusal(tables, request, &produced) {
        return Err(Refusal::Rule(rule));
    }
    freeze_families(alloc, tables, request, &produced)
}

// Says what holds of a request that breaks no rule by itself.
fn know_passed(tables: &Tables, request: &Request)
    requires { first_rule (request_rules (decisions_of tables.now.matter) request.now) ≡ None }
    ensures good { IsTrue (is_good_prefix request.now.prefix.text request.now.prefix.width) }
    ensures from { 1 ≤ request.now.from.0 }
    ensures order { request.now.from.0 ≤ request.now.to.0 }
    ensures to { request.now.to.0 ≤ length tables.now.matter.docs }
{
    let _tables = tables;
    let _request = request;
}

// The first rule that the families of the range break.
fn family_refusal(tables: &Tables, request: &Request, produced: &[bool]) -> Option<Rule>
    requires from { 1 ≤ request.now.from.0 }
    requires order { request.now.from.0 ≤ request.now.to.0 }
    requires to { request.now.to.0 ≤ length tables.now.matter.docs }
    requires marks { AreMarks (length tables.now.matter.docs) produced.now
        (is_produced tables.now.matter.productions) }
    ensures { result ≡ first_rule (family_rules (decisions_of tables.now.matter)
        (seen_of tables.now.matter request.now) request.now) }
{
    tables.know_valid();
    if let Some(doc) = first_split(tables, request) {
        return Some(rule_with(RuleKind::SplitFamily, u64::from(doc)));
    }
    let from = request.from.0;
    let end = request.to.0 + 1;
    if let Some(doc) = first_unsettled(tables, produced, from, end) {
        return Some(rule_with(RuleKind::Unsettled, u64::from(doc)));
    }
    None
}

// What a request gives whose families stand whole in the range and are settled.
fn freeze_families(
    alloc: Global,
    tables: &Tables,
    request: &Request,
    produced: &[bool],
) -> Result<Production, Refusal>
    requires good { IsTrue (is_good_prefix request.now.prefix.text request.now.prefix.width) }
    requires from { 1 ≤ request.now.from.0 }
    requires order { request.now.from.0 ≤ request.now.to.0 }
    requires to { request.now.to.0 ≤ length tables.now.matter.docs }
    requires marks { AreMarks (length tables.now.matter.docs) produced.now
        (is_produced tables.now.matter.productions) }
    ensures { let d = decisions_of tables.now.matter in
        let docs = seen_of tables.now.matter request.now in
        Answers (λ f. f) result (frozen_unless (first_rule (taking_rules d docs request.now))
        (new_production d docs request.now)) }
{
    tables.know_valid();
    let from = request.from.0;
    let end = request.to.0 + 1;
    let responsive = responsive_marks(alloc, tables, from, end)?;
    let first = next_number(tables, &request.prefix.text);
    let taken = take_items(alloc, tables, produced, &responsive, from, end, first)?;
    let last = taken.next - 1;
    let width = request.prefix.width;
    if let Some(rule) = taking_refusal(taken.items.len(), last, width, productions(tables)) {
        return Err(Refusal::Rule(rule));
    }
    Ok(production_of(alloc, request, taken.items, Span { first, last })?)
}

// The next number under a prefix, which is 1 under a new one.
fn next_number(tables: &Tables, text: &Text) -> u64
    ensures value { result ≡ next_number (prefix_row tables.now.matter.prefixes text.now) }
    ensures from { 1 ≤ result }
    ensures to { result < 2 ^ 40 }
{
    tables.know_valid();
    match tables.prefix_with(text) {
        Some(row) => row.next,
        None => 1,
    }
}

// How many productions stand.
fn productions(tables: &Tables) -> usize
    ensures value { result ≡ length tables.now.matter.productions }
    ensures few { result < 2 ^ 32 }
{
    tables.know_valid();
    tables.productions.len()
}

// The first rule that a production of so many documents breaks which ends at this number of this
// width.
fn taking_refusal(documents: usize, last: u64, width: u8, productions: usize) -> Option<Rule>
    requires from { 4 ≤ width }
    requires to { width ≤ 10 }
    requires few { productions < 2 ^ 32 }
    ensures { result ≡ first_rule (taken_rules documents last width productions) }
{
    if documents == 0 {
        return Some(Rule::bare(RuleKind::NothingResponsive));
    }
    let largest = largest(width);
    if last > largest {
        return Some(Rule::bates_full(largest));
    }
    if productions >= MAX_PRODUCTIONS {
        return Some(Rule {
            a: 7,
            b: productions as u64 + 1,
            ..Rule::bare(RuleKind::MatterFull)
        });
    }
    None
}

// The production of these items, which have these numbers. Its boxes are lettered.
fn production_of(
    alloc: Global,
    request: &Request,
    items: Vec<Item>,
    span: Span,
) -> Result<Production, OutOfMemory>
    requires first { span.first ≡ first_of_items items.items }
    requires last { span.last ≡ last_of_items items.items }
    ensures { IfOk result (λ f. f ≡ production_of request.now items.items) }
{
    Ok(Production {
        ink: Ink::Lettered,
        request: request.copy(alloc)?,
        items: ListOf::from_vec(items),
        span,
    })
}
