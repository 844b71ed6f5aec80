// How far the numbers under each prefix go.
ghost use Rattle.std.specs.List.{list_all};
ghost use Rattle.std.specs.Option.{option_copied};
ghost use Rattle.std.specs.Prelude.{IfOk, IsTrue, None, Option, Some, unwrap_or, ℕ, ◌&&◌, ◌≡◌};
ghost use Rattle.bp_matter.specs.ValidPrefixes.{after_items, after_reached, was_reached, is_reached, is_used, spans_reach};

use super::labels::text_bytes;
use crate::rows::{Item, PrefixRow, ProductionRow};
use bp_core::OutOfMemory;
use std::alloc::Global;
use std::collections::BTreeMap;

// The number after the spans of these items, where they follow one another from this one on.
fn after_items(number: u128, items: &[Item]) -> Option<u128>
    ensures value { result ≡ after_items number items.now }
{
    let mut next = number;
    let mut rest = items;
    while let Some((first, others)) = rest.split_first() {
        let begins = first.span.first;
        let ends = first.span.last;
        if u128::from(begins) != next || u128::from(ends) < next {
            return None;
        }
        next = u128::from(ends) + 1;
        rest = others;
    }
    Some(next)
}

// The same behind what was reached under the prefix, which begins with 1.
fn after_reached(before: Option<&Option<u128>>, items: &[Item]) -> Option<u128>
    ensures { result ≡ after_reached (option_copied before.entry) items.now }
{
    match before {
        None => after_items(1, items),
        Some(None) => None,
        Some(Some(number)) => after_items(*number, items),
    }
}

// Whether this number was reached.
fn is_reached(found: Option<&Option<u128>>, number: u64) -> bool
    ensures { result ≡ is_reached (option_copied found.entry) number }
{
    match found {
        Some(Some(next)) => *next == u128::from(number),
        _ => false,
    }
}

// Whether each prefix is used, and its spans reach its next number. One look-up a row.
pub(crate) fn prefixes_reach(
    alloc: Global,
    productions: &[ProductionRow],
    prefixes: &[PrefixRow],
) -> Result<bool, OutOfMemory>
    ensures used { IfOk result (λ good.
        IsTrue good → IsTrue (list_all (is_used productions.now) prefixes.now)) }
    ensures reach { IfOk result (λ good.
        IsTrue good → IsTrue (list_all (spans_reach productions.now) prefixes.now)) }
    ensures back { IfOk result (λ good.
        IsTrue (list_all (is_used productions.now) prefixes.now) →
        IsTrue (list_all (spans_reach productions.now) prefixes.now) → IsTrue good) }
{
    let mut reached = BTreeMap::new(alloc);
    let mut left = productions;
    while let Some((row, others)) = left.split_first() {
        let text = text_bytes(&row.production.request.prefix.text);
        let next = after_reached(reached.get(&text), row.production.items.as_slice());
        let _before = reached.insert(text, next)?;
        left = others;
    }
    let mut rest = prefixes;
    while let Some((first, more)) = rest.split_first() {
        let bytes = text_bytes(&first.prefix.text);
        if !is_reached(reached.get(&bytes), first.next) {
            return Ok(false);
        }
        rest = more;
    }
    Ok(true)
}
