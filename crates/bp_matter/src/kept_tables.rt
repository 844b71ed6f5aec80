// Reading the kept rows of a matter.
ghost use Rattle.std.specs.Prelude.{◌≡◌, IfOk, false, None, length};
ghost use Rattle.bp_matter.specs.Lists.{matter_read};
ghost use Rattle.bp_matter.specs.ReadRows.{is_formed};
ghost use Rattle.bp_matter.specs.ReadTables.{ReadsTables, least_bad, lesser, bad_rule, kept_row_bad};
ghost use Rattle.bp_matter.specs.Valid.{IsValid};
ghost use Rattle.bp_matter.specs.declared.read_fault.ReadFault.TheVariants.{Malformed};

use crate::checking::is_valid;
use crate::lists::{Lists, take_lists};
use crate::read_fault::ReadFault;
use crate::reading::{
    take_batch, take_box, take_call, take_doc, take_entry, take_field, take_held, take_page,
    take_prefix, take_production, take_staff, take_words,
};
use crate::tables::Tables;
use bp_core::{Keyed, OutOfMemory, Refusal, Row, RowList, Rule, RuleKind};
use bp_shelves::Shelves;
use bp_t6::laws::strip_law;
use std::alloc::Global;

/// The tables that these rows are kept for. KeptRowBad with the least key whose body isn't of its
/// form, or with 0 and 0 where the rows are those of no valid matter.
pub fn read_tables(alloc: Global, rows: &RowList) -> Result<Tables, Refusal>
    ensures { ReadsTables rows.now result }
{
    strip_law();
    let rows = rows.as_slice();
    let (lists, rest) = take_lists(alloc, rows)?;
    let good = is_valid(alloc, &lists)?;
    if rest.is_empty() && good {
        return Ok(tables_of(alloc, lists)?);
    }
    let least = least_bad(alloc, rows)?;
    Err(Refusal::Rule(bad_rule(least)))
}

// The tables of these lists.
fn tables_of(alloc: Global, lists: Lists) -> Result<Tables, OutOfMemory>
    requires { IsValid (matter_read lists) }
    ensures { IfOk result (λ tables. tables.matter ≡ matter_read lists) }
{
    Ok(Tables {
        staff: lists.staff,
        fields: lists.fields,
        docs: lists.docs,
        pages: lists.pages,
        calls: Shelves::from_rows(alloc, lists.calls)?,
        boxes: Shelves::from_rows(alloc, lists.boxes)?,
        held: Shelves::from_rows(alloc, lists.held)?,
        entries: Shelves::from_rows(alloc, lists.entries)?,
        prefixes: lists.prefixes,
        productions: lists.productions,
        batches: lists.batches,
        words: lists.words,
    })
}

fn lesser(number: u128, least: Option<u128>) -> u128
    ensures { result ≡ lesser number least }
{
    match least {
        None => number,
        Some(other) => if number <= other { number } else { other },
    }
}

fn bad_rule(least: Option<u128>) -> Rule
    ensures { result ≡ bad_rule least }
{
    let number = least.unwrap_or(0);
    let kind = (number / 18_446_744_073_709_551_616) as u64;
    let numbers = (number % 18_446_744_073_709_551_616) as u64;
    Rule::naming_both(RuleKind::KeptRowBad, kind, numbers)
}

fn least_bad(alloc: Global, rows: &[Row]) -> Result<Option<u128>, OutOfMemory>
    ensures { IfOk result (λ least. least ≡ least_bad None rows.now) }
{
    let mut least = None;
    let mut rest = rows;
    while let Some((first, others)) = rest.split_first() {
        if !is_formed(alloc, first)? {
            least = Some(lesser(first.key(), least));
        }
        rest = others;
    }
    Ok(least)
}

fn no_form(fault: ReadFault) -> Result<bool, OutOfMemory>
    ensures { IfOk result (λ formed. (formed ≡ false) × (fault ≡ Malformed)) }
{
    match fault {
        ReadFault::Malformed => Ok(false),
        ReadFault::OutOfMemory => Err(OutOfMemory),
    }
}

// Whether the body is of the form of its kind.
fn is_formed(alloc: Global, row: &Row) -> Result<bool, OutOfMemory>
    ensures { IfOk result (λ formed. formed ≡ is_formed row.now) }
{
    let bytes = row.body.as_slice();
    match row.kind {
        1 => match take_staff(alloc, row.k1, bytes) {
            Ok((_, rest)) => Ok(rest.is_empty()),
            Err(fault) => no_form(fault),
        },
        2 => match take_field(alloc, row.k1, bytes) {
            Ok((_, rest)) => Ok(rest.is_empty()),
            Err(fault) => no_form(fault),
        },
        3 => match take_doc(alloc, row.k1, bytes) {
            Ok((_, rest)) => Ok(rest.is_empty()),
            Err(fault) => no_form(fault),
        },
        4 => match take_page(alloc, row.k1, row.k2, bytes) {
            Ok(_) => Ok(true),
            Err(fault) => no_form(fault),
        },
        5 => match take_call(alloc, row.k1, bytes) {
            Ok((_, rest)) => Ok(rest.is_empty()),
            Err(fault) => no_form(fault),
        },
        6 => match take_box(row.k1, row.k2, bytes) {
            Ok((_, rest)) => Ok(rest.is_empty()),
            Err(fault) => no_form(fault),
        },
        7 => match take_held(row.k1, row.k2, bytes) {
            Ok((_, rest)) => Ok(rest.is_empty()),
            Err(fault) => no_form(fault),
        },
        8 => match take_entry(alloc, row.k1, bytes) {
            Ok((_, rest)) => Ok(rest.is_empty()),
            Err(fault) => no_form(fault),
        },
        9 => match take_prefix(alloc, row.k1, bytes) {
            Ok((_, rest)) => Ok(rest.is_empty()),
            Err(fault) => no_form(fault),
        },
        10 => match take_production(alloc, row.k1, bytes) {
            Ok((_, rest)) => Ok(rest.is_empty()),
            Err(fault) => no_form(fault),
        },
        11 => match take_batch(alloc, row.k1, bytes) {
            Ok((_, rest)) => Ok(rest.is_empty()),
            Err(fault) => no_form(fault),
        },
        12 => match take_words(alloc, row.k1, row.k2, bytes) {
            Ok((_, rest)) => Ok(rest.is_empty()),
            Err(fault) => no_form(fault),
        },
        _ => Ok(false),
    }
}
