// The table of the DAT file of a batch: its columns are tested before its later lines are.
ghost use Rattle.std.specs.Prelude.{◌<◌, ◌^◌, length};
ghost use Rattle.bp_core.specs.Answers.{Answers};
ghost use Rattle.bp_import.specs.Columns.{tested_table};

use crate::columns::are_columns;
use bp_core::{Refusal, Rule, RuleKind};
use bp_load::{Dat, read_columns, read_dat};
use std::alloc::Global;

/// The table of a DAT file with columns that an import takes. DatEncoding, or DatShape at line 1;
/// then DatColumns; then DatShape at the first bad line behind.
pub(crate) fn read_table(alloc: Global, bytes: &[u8]) -> Result<Dat, Refusal>
    requires { length bytes.now < 2 ^ 32 }
    ensures { Answers (λ dat. dat) result (tested_table bytes.now) }
{
    let columns = read_columns(alloc, bytes)?;
    if !are_columns(alloc, columns.as_slice())? {
        return Err(Refusal::Rule(Rule::bare(RuleKind::DatColumns)));
    }
    read_dat(alloc, bytes)
}
