// Whether rows are the prefixes of a matter.
ghost use Rattle.std.specs.List.{list_all};
ghost use Rattle.std.specs.Prelude.{IfOk, IsTrue, ◌≡◌};
ghost use Rattle.bp_matter.specs.Written.{prefix_written};
ghost use Rattle.bp_matter.specs.ValidPrefixes.{PrefixFacts, prefix_fits};

use super::labels::PrefixText;
use super::numbers::is_numbered;
use super::reaching::prefixes_reach;
use crate::rows::{PrefixRow, ProductionRow};
use bp_bates::{good_prefix, largest};
use bp_core::{OutOfMemory, all_differ};
use std::alloc::Global;

fn prefix_fits(row: &PrefixRow) -> bool
    ensures { result ≡ prefix_fits row.now }
{
    if !good_prefix(&row.prefix.text, row.prefix.width) {
        return false;
    }
    row.next >= 1 && row.next <= largest(row.prefix.width) + 1
}

fn prefixes_fit(rows: &[PrefixRow]) -> bool
    ensures { result ≡ list_all prefix_fits rows.now }
{
    rows.iter().all(|row| prefix_fits(row))
}

pub(crate) fn prefixes_valid(
    alloc: Global,
    productions: &[ProductionRow],
    prefixes: &[PrefixRow],
) -> Result<bool, OutOfMemory>
    requires written { IsTrue (list_all prefix_written prefixes.now) }
    ensures fact { IfOk result (λ good. IsTrue good → PrefixFacts productions.now prefixes.now) }
    ensures back { IfOk result (λ good. PrefixFacts productions.now prefixes.now → IsTrue good) }
{
    if !is_numbered(prefixes, 1) {
        return Ok(false);
    }
    if !prefixes_fit(prefixes) {
        return Ok(false);
    }
    if !all_differ::<PrefixText, _>(alloc, prefixes)? {
        return Ok(false);
    }
    prefixes_reach(alloc, productions, prefixes)
}
