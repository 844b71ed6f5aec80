// Files of grants, a record a grant.
ghost use Rattle.std.specs.Prelude.{◌≡◌, ◌≤◌, ◌^◌, ◌<◌, IfOk, length, option_map};
ghost use Rattle.std.specs.Str.{chars};
ghost use Rattle.csv.specs.Records.{fields_of};
ghost use Rattle.bp_core.specs.Answers.{Answers};
ghost use Rattle.bp_receiver.specs.GrantFiles.{grant_in, grant_of_record, grants_in, part_seen};

use crate::grants::{Grant, GrantList};
use bp_core::{OutOfMemory, Refusal, RuleKind, StaffNo, Text, ordinal_in};
use bp_records::{Rows, field_at, read_rows, text_in};
use csv::ByteRecord;
use std::alloc::Global;

// How many fields a record has, and the place of each, counted from 0.
const FIELDS: usize = 2;

const STAFF: usize = 0;

const ID: usize = 1;

/// The grants of a file, or GrantShape with the number of the first bad record, counted from 1. The
/// file has comma-separated values (RFC 4180) in UTF-8, without a line of names: the number of a
/// member of the staff, 1 to 9 digits of which the first isn't 0, and the id of a production. A byte
/// order mark at the head is dropped, and empty lines are no records.
pub fn read_grants(alloc: Global, bytes: &[u8]) -> Result<GrantList, Refusal>
    requires { length bytes.now < 2 ^ 32 }
    ensures answer { Answers (λ rows. rows) result (grants_in bytes.now) }
    ensures few { IfOk result (λ rows. length rows ≤ length bytes.now) }
{
    read_rows(alloc, &GrantShapes, bytes)
}

// Grants, by their records.
struct GrantShapes;

impl Rows<Grant> for GrantShapes {
    ghost use Rattle.bp_core.specs.declared.rules.RuleKind.TheVariants.{GrantShape};
    ghost use Rattle.bp_receiver.specs.GrantFiles.{grant_of_record};

    ghost row_of = { grant_of_record };

    ghost broken = { λ _. GrantShape };

    fn row_in(&self, alloc: Global, from: &ByteRecord) -> Result<Option<Grant>, OutOfMemory> {
        match part_in(from) {
            Some(part) => Ok(Some(row_from(alloc, &part)?)),
            None => Ok(None),
        }
    }

    fn broken(&self) -> RuleKind {
        RuleKind::GrantShape
    }
}

// The same with its text in memory of its own.
fn row_from(alloc: Global, part: &Part) -> Result<Grant, OutOfMemory>
    ensures { IfOk result (λ row. row ≡ part_seen part.now) }
{
    Ok(Grant {
        staff: StaffNo(part.staff),
        id: text_from(alloc, part.id)?,
    })
}

fn text_from(alloc: Global, text: &str) -> Result<Text, OutOfMemory>
    ensures { IfOk result (λ copied. copied ≡ chars text.now) }
{
    Ok(Text::from_string(String::from_str(alloc, text)?))
}

// The fields of a record, the id lent from it.
#[derive(Clone, Copy)]
struct Part<'a> {
    staff: u32,
    id: &'a str,
}

// What a record says.
fn part_in(row: &ByteRecord) -> Option<Part<'_>>
    ensures { option_map part_seen result ≡ grant_of_record (fields_of row.now) }
{
    if row.len() == FIELDS {
        fields_in(row)
    } else {
        None
    }
}

fn fields_in(row: &ByteRecord) -> Option<Part<'_>>
    requires { length (fields_of row.now) ≡ FIELDS }
    ensures { option_map part_seen result ≡ grant_in (fields_of row.now) }
{
    Some(Part {
        staff: ordinal_in(field_at(row, STAFF))?,
        id: text_in(field_at(row, ID))?,
    })
}
