// Whether the prefix of each production is kept, with its width.
ghost use Rattle.std.specs.List.{list_all};
ghost use Rattle.std.specs.Prelude.{IfOk, ◌≡◌};
ghost use Rattle.bp_matter.specs.ValidProductions.{has_prefix};

use super::labels::text_bytes;
use crate::rows::{PrefixRow, ProductionRow};
use bp_core::OutOfMemory;
use std::alloc::Global;
use std::collections::BTreeSet;

// One look-up a row.
pub(crate) fn prefixes_kept(
    alloc: Global,
    prefixes: &[PrefixRow],
    productions: &[ProductionRow],
) -> Result<bool, OutOfMemory>
    ensures { IfOk result (λ kept. kept ≡ list_all (has_prefix prefixes.now) productions.now) }
{
    let mut kept = BTreeSet::new(alloc);
    let mut left = prefixes;
    while let Some((row, others)) = left.split_first() {
        let _new = kept.insert((text_bytes(&row.prefix.text), row.prefix.width))?;
        left = others;
    }
    let mut rest = productions;
    while let Some((first, more)) = rest.split_first() {
        let asked = &first.production.request.prefix;
        if !kept.contains(&(text_bytes(&asked.text), asked.width)) {
            return Ok(false);
        }
        rest = more;
    }
    Ok(true)
}
