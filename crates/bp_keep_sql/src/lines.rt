// Lines of an answer as kept rows.
ghost use Rattle.std.specs.Prelude.{◌≡◌, ◌⊎◌, true, false, IfOk, IfErr, OnOk, map};
ghost use Rattle.std.specs.List.{list_all};
ghost use Rattle.bp_keep_sql.specs.Lines.{shown_row, is_row};

use bp_core::{Bytes, Row};
use sqlite::{Error, ErrorCode, Row as Line};
use std::alloc::Global;

// The kept rows that these lines are. Each line is let go as soon as it was read.
pub fn read_lines(alloc: Global, lines: Vec<Line>) -> Result<Vec<Row>, Error>
    ensures rows { IfOk result (λ rows. rows.items ≡ map shown_row lines.items) }
    ensures all { OnOk result (list_all is_row lines.items ≡ true) }
    ensures refused { IfErr result (λ e. (e ≡ Error.SqliteFailure ErrorCode.OutOfMemory)
        ⊎ (list_all is_row lines.items ≡ false)) }
{
    let mut rows = Vec::with_capacity(alloc, lines.len())?;
    for line in lines {
        rows.push(read_line(&line)?)?;
    }
    Ok(rows)
}

fn read_line(line: &Line) -> Result<Row, Error>
    ensures row { IfOk result (λ row. row ≡ shown_row line.now) }
    ensures is { OnOk result (is_row line.now ≡ true) }
    ensures refused { IfErr result (λ e. (e ≡ Error.SqliteFailure ErrorCode.OutOfMemory)
        ⊎ (is_row line.now ≡ false)) }
{
    let kind = line.get::<u32>(0)?;
    let Ok(kind) = u8::try_from(kind) else {
        return Err(Error::IntegralValueOutOfRange(0));
    };
    let k1 = line.get::<u32>(1)?;
    let k2 = line.get::<u32>(2)?;
    let body = line.get::<Vec<u8>>(3)?;
    Ok(Row {
        kind,
        k1,
        k2,
        body: Bytes::from_vec(body),
    })
}
