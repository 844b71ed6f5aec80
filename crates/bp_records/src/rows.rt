// Rows, a record each.
ghost use Rattle.std.specs.Prelude.{◌≡◌, ◌≤◌, ◌^◌, ◌<◌, [], IfOk, length};
ghost use Rattle.std.specs.Bool.{MatchBool};
ghost use Rattle.std.specs.Option.{ok_or};
ghost use Rattle.csv.specs.Records.{fields_of};
ghost use Rattle.bp_core.specs.Answers.{Answers};
ghost use Rattle.bp_core.specs.Rules.{rule_at_line};
ghost use Rattle.bp_records.specs.ReadRecords.{IsBetween, Takes, records_left};
ghost use Rattle.bp_records.specs.Rows.{rows_in};

use bp_core::{ListOf, OutOfMemory, Refusal, Rule, RuleKind};
use csv::{ByteRecord, Reader, ReaderBuilder};
use std::alloc::Global;

/// Which row a record is.
pub trait Rows<T> {
    ghost use Rattle.std.specs.Prelude.{◌≡◌, ℕ, List, Option, IfOk};
    ghost use Rattle.csv.specs.Records.{fields_of};
    ghost use Rattle.bp_core.specs.declared.rules.RuleKind.{RuleKind};

    // What a record says.
    ghost row_of: { List (List ℕ) → Option T };

    // The rule that a record breaks which says nothing.
    ghost broken: { Self → RuleKind };

    /// What a record says.
    fn row_in(&self, alloc: Global, from: &ByteRecord) -> Result<Option<T>, OutOfMemory>
        ensures { IfOk result (λ row. row ≡ row_of (fields_of from.now)) };

    /// The rule that a record breaks which says nothing.
    fn broken(&self) -> RuleKind
        ensures { result ≡ broken self.now };
}

/// The rows of a file, or the rule with the number of the first bad record, counted from 1. The file
/// has comma-separated values in UTF-8, without a line of names. A byte order mark at the head is
/// dropped, and empty lines are no records.
pub fn read_rows<T: Drop, R: Rows<T>>(
    alloc: Global,
    rows: &R,
    bytes: &[u8],
) -> Result<ListOf<T>, Refusal>
    requires { length bytes.now < 2 ^ 32 }
    ensures answer { Answers (λ list. list) result
        (rows_in R.row_of (R.broken rows.now) bytes.now) }
    ensures few { IfOk result (λ list. length list ≤ length bytes.now) }
{
    let mut reader = ReaderBuilder::new()
        .has_headers(false)
        .flexible(true)
        .from_reader(alloc, bytes);
    let mut record = ByteRecord::new(alloc);
    let mut list = Vec::new(alloc);
    let mut number = 0;
    while read_record(&mut reader, &mut record)? {
        number += 1;
        list.push(row_at(alloc, rows, &record, number)?)?;
    }
    Ok(ListOf::from_vec(list))
}

// The next record, and whether there was one. Bytes in memory are read without a fault, and records
// may have any number of fields, so that an error is want of memory.
fn read_record(reader: &mut Reader<&[u8]>, row: &mut ByteRecord) -> Result<bool, OutOfMemory>
    requires { IsBetween reader.old }
    ensures { IfOk result (λ found. MatchBool found
        (Takes reader.old reader.new (fields_of row.new))
        (records_left reader.old ≡ [])) }
{
    reader.read_byte_record(row).ok().ok_or(OutOfMemory)
}

// What a record of that number says.
fn row_at<T: Drop, R: Rows<T>>(
    alloc: Global,
    rows: &R,
    from: &ByteRecord,
    number: u32,
) -> Result<T, Refusal>
    ensures { Answers (λ row. row) result
        (ok_or (R.row_of (fields_of from.now)) (rule_at_line (R.broken rows.now) number)) }
{
    match rows.row_in(alloc, from)? {
        Some(row) => Ok(row),
        None => Err(Refusal::Rule(Rule::at_line(rows.broken(), number))),
    }
}
