// What keeps a production from being replaced.
ghost use Rattle.std.specs.Prelude.{◌≡◌, ◌+◌, ◌<◌, ◌^◌, ◌==◌, ◌&&◌, [], length, not};
ghost use Rattle.std.specs.List.{list_any};
ghost use Rattle.bp_freeze.specs.Refusals.{is_taken};
ghost use Rattle.bp_claw.specs.Claims.{is_named};
ghost use Rattle.bp_claw.specs.Refusing.{claim_rule, claims_rule, is_shown, replace_rule, shows_doc, volume_rule};

use crate::notices::{Claim, Notice};
use bp_core::{DocNo, Rule, RuleKind, Text};
use bp_matter::texts::is_volume;
use bp_matter::treatments::is_withheld;
use bp_matter::{Item, Production, ProductionRow, Tables};

// The first rule that a replacement breaks.
pub(crate) fn refusal(
    tables: &Tables,
    production: &Production,
    volume: &Text,
    notice: &Notice,
) -> Option<Rule>
    requires { length production.now.items + 1 < 2 ^ 32 }
    ensures { result
        ≡ replace_rule tables.now.matter production.now volume.now notice.now }
{
    match volume_refusal(tables, volume) {
        Some(rule) => Some(rule),
        None => claims_refusal(production, notice.as_slice()),
    }
}

// The first rule that the name of a replacement breaks.
fn volume_refusal(tables: &Tables, volume: &Text) -> Option<Rule>
    ensures { result ≡ volume_rule tables.now.matter volume.now }
{
    if !is_volume(volume) {
        return Some(Rule::bare(RuleKind::BadVolume));
    }
    if is_taken(&tables.productions, volume) {
        return Some(Rule::bare(RuleKind::VolumeTaken));
    }
    None
}

// Whether a production has a volume of this name.
fn is_taken(productions: &[ProductionRow], volume: &Text) -> bool
    ensures { result ≡ is_taken productions.now volume.now }
{
    productions
        .iter()
        .any(|row| row.production.request.volume == *volume)
}

// The first rule that the claims of a notice break. Each claim that breaks none names another item, so
// that their places are small numbers.
fn claims_refusal(production: &Production, notice: &[Claim]) -> Option<Rule>
    requires { length production.now.items + 1 < 2 ^ 32 }
    ensures { result ≡ claims_rule production.now [] 1 notice.now }
{
    let mut place = 0;
    while place < notice.len() {
        let number = place as u32 + 1;
        if let Some(rule) = claim_refusal(production, &notice[..place], number, &notice[place]) {
            return Some(rule);
        }
        place += 1;
    }
    None
}

// The rule that a claim breaks after those before it. Its record has this number.
fn claim_refusal(
    production: &Production,
    before: &[Claim],
    number: u32,
    claim: &Claim,
) -> Option<Rule>
    ensures { result ≡ claim_rule production.now before.now number claim.now }
{
    if is_named(before, claim.doc) {
        return Some(Rule::notice_twice(number, claim.doc));
    }
    if is_shown(production.items.as_slice(), claim.doc) {
        return None;
    }
    Some(Rule::not_produced(number, claim.doc))
}

// Whether some claim names the document.
fn is_named(notice: &[Claim], doc: DocNo) -> bool
    ensures { result ≡ is_named notice.now doc.0 }
{
    notice.iter().any(|claim| claim.doc.0 == doc.0)
}

// Whether some item shows the document.
fn is_shown(items: &[Item], doc: DocNo) -> bool
    ensures { result ≡ list_any (shows_doc doc.0) items.now }
{
    items.iter().any(|item| shows_doc(item, doc))
}

fn shows_doc(item: &Item, doc: DocNo) -> bool
    ensures { result ≡ shows_doc doc.0 item.now }
{
    item.doc.0 == doc.0 && !is_withheld(item.treatment)
}
