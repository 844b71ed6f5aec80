// Whether rows are the batches of a matter.
ghost use Rattle.std.specs.List.{list_all, list_any};
ghost use Rattle.std.specs.Prelude.{IfOk, IsTrue, length, nat_le, ◌≡◌};
ghost use Rattle.std.specs.Str.{bytes_eq};
ghost use Rattle.bp_matter.specs.Written.{batch_written};
ghost use Rattle.bp_matter.specs.ValidBatches.{BatchFacts, batch_fits, batch_name};

use super::labels::BatchName;
use super::numbers::is_numbered;
use crate::limits::MAX_BATCHES;
use crate::rows::BatchRow;
use crate::texts::is_batch_name;
use bp_core::{OutOfMemory, Text, all_differ};
use std::alloc::Global;

fn batches_fit(rows: &[BatchRow]) -> bool
    ensures { result ≡ list_all batch_fits rows.now }
{
    rows.iter().all(|row| is_batch_name(&row.name))
}

fn batches_few(rows: &[BatchRow]) -> bool
    ensures { result ≡ nat_le (length rows.now) MAX_BATCHES }
{
    rows.len() <= MAX_BATCHES
}

pub(crate) fn batches_valid(alloc: Global, batches: &[BatchRow]) -> Result<bool, OutOfMemory>
    requires written { IsTrue (list_all batch_written batches.now) }
    ensures fact { IfOk result (λ good. IsTrue good → BatchFacts batches.now) }
    ensures back { IfOk result (λ good. BatchFacts batches.now → IsTrue good) }
{
    if !is_numbered(batches, 1) {
        return Ok(false);
    }
    if !batches_few(batches) {
        return Ok(false);
    }
    if !all_differ::<BatchName, _>(alloc, batches)? {
        return Ok(false);
    }
    Ok(batches_fit(batches))
}
