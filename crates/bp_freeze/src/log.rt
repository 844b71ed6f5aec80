// The privilege log of a production, written with csv.
ghost use Rattle.std.specs.Prelude.{◌≡◌, ◌≤◌, ◌∷◌, ◌++◌, [], IfOk, IsTrue, OnOk, encode_utf8_all, length};
ghost use Rattle.std.specs.List.{list_all, list_any};
ghost use Rattle.bp_bates.specs.Prefixes.{is_good_prefix};
ghost use Rattle.bp_bates.specs.Spans.{largest_of};
ghost use Rattle.bp_matter.specs.ValidItems.{is_logged};
ghost use Rattle.bp_matter.specs.Treatments.{is_privileged, is_withheld};
ghost use Rattle.csv.specs.Records.{fields_of, partial_of};
ghost use Rattle.bp_freeze.specs.Csv.{csv_line};
ghost use Rattle.bp_freeze.specs.Log.{CanBeLogged, claim_values, claims, entry_stands, entry_values, is_basis, is_withheld_for, label_in, log_columns, log_of, log_row, occurs, outcome, span_fits};
ghost use Rattle.bp_freeze.specs.Writing.{AddsLine, WriterIsBetween, WritesRow, is_one_line, written_text};

use bp_bates::{Prefix, label_into};
use bp_core::{Basis, Bytes, OutOfMemory, Text, Treatment};
use bp_matter::treatments::{is_privileged, is_withheld};
use bp_matter::{BoxRow, Entry, HeldRow, Item, Production};
use csv::{ByteRecord, Writer, WriterBuilder};
use std::alloc::Global;

// The longest label.
const LABEL: usize = 22;

/// The privilege log of a production (FRCP 26(b)(5)(A)), as comma-separated values in UTF-8 (RFC
/// 4180) whose lines end with a newline alone. It has a line for each item that is withheld, or has
/// a box or a held field with AC or WP.
pub fn log_text(alloc: Global, production: &Production) -> Result<Bytes, OutOfMemory>
    requires { CanBeLogged production.now }
    ensures { IfOk result (λ bytes. bytes ≡ log_of production.now) }
{
    let mut writer = WriterBuilder::new().from_writer(Vec::new(alloc));
    put_columns(alloc, &mut writer)?;
    let mut row = ByteRecord::new(alloc);
    let prefix = &production.request.prefix;
    let mut rest = production.items.as_slice();
    while let Some((item, others)) = rest.split_first() {
        if is_logged(item) {
            put_item(&mut writer, &mut row, prefix, item)?;
        }
        rest = others;
    }
    bytes_of(writer)
}

// The bytes that were written.
fn bytes_of(writer: Writer<Vec<u8>>) -> Result<Bytes, OutOfMemory>
    requires { WriterIsBetween writer }
    ensures { IfOk result (λ bytes. bytes ≡ written_text writer) }
{
    match writer.into_inner() {
        Ok(bytes) => Ok(Bytes::from_vec(bytes)),
        Err(_) => Err(OutOfMemory),
    }
}

// A line of the values of this record. Bytes in memory are written without a fault, and each line
// has as many values as the first, so that an error is want of memory.
fn put_line(writer: &mut Writer<Vec<u8>>, row: &ByteRecord) -> Result<(), OutOfMemory>
    requires between { WriterIsBetween writer.old }
    requires many { 2 ≤ length (fields_of row.now) }
    requires lines { IsTrue (list_all is_one_line (fields_of row.now)) }
    ensures { OnOk result (AddsLine writer.old writer.new (csv_line (fields_of row.now))) }
{
    match writer.write_byte_record(row) {
        Ok(()) => Ok(()),
        Err(_) => Err(OutOfMemory),
    }
}

// The line with the names of the columns.
fn put_columns(alloc: Global, writer: &mut Writer<Vec<u8>>) -> Result<(), OutOfMemory>
    requires { WriterIsBetween writer.old }
    ensures { OnOk result (AddsLine writer.old writer.new (csv_line log_columns)) }
{
    let columns: [&[u8]; 8] = [
        b"BEGLABEL",
        b"ENDLABEL",
        b"TREATMENT",
        b"BASIS",
        b"DATE",
        b"AUTHOR",
        b"RECIPIENTS",
        b"DESCRIPTION",
    ];
    let row = ByteRecord::from_fields(alloc, &columns)?;
    put_line(writer, &row)
}

// The line of an item that the log lists.
fn put_item(
    writer: &mut Writer<Vec<u8>>,
    row: &mut ByteRecord,
    prefix: &Prefix,
    item: &Item,
) -> Result<(), OutOfMemory>
    requires between { WriterIsBetween writer.old }
    requires prefix { IsTrue (is_good_prefix prefix.now.text prefix.now.width) }
    requires span { IsTrue (span_fits prefix.now.width item.now) }
    requires entry { IsTrue (entry_stands item.now) }
    ensures { OnOk result (AddsLine writer.old writer.new
        (csv_line (log_row prefix.now item.now))) }
{
    add_claim(row, prefix, item)?;
    add_entry(row, &item.entry)?;
    put_line(writer, row)
}

// The labels of an item, what became of it, and on which ground.
fn add_claim(row: &mut ByteRecord, prefix: &Prefix, item: &Item) -> Result<(), OutOfMemory>
    requires prefix { IsTrue (is_good_prefix prefix.now.text prefix.now.width) }
    requires span { IsTrue (span_fits prefix.now.width item.now) }
    ensures { OnOk result (WritesRow row.new (claim_values prefix.now item.now)) }
{
    row.clear();
    add_label(row, prefix, item.span.first)?;
    add_label(row, prefix, item.span.last)?;
    add(row, outcome(item.treatment))?;
    add(row, claims(item))
}

// The label of a number.
fn add_label(row: &mut ByteRecord, prefix: &Prefix, number: u64) -> Result<(), OutOfMemory>
    requires good { IsTrue (is_good_prefix prefix.now.text prefix.now.width) }
    requires from { 1 ≤ number }
    requires to { number ≤ largest_of prefix.now.width }
    requires whole { partial_of row.old ≡ [] }
    ensures { OnOk result
        (WritesRow row.new (fields_of row.old ++ label_in prefix.now number ∷ [])) }
{
    let mut into = [0; LABEL];
    let length = label_into(prefix, number, &mut into);
    add(row, &into[..length])
}

// The four texts of an entry, in UTF-8.
fn add_entry(row: &mut ByteRecord, entry: &Option<Entry>) -> Result<(), OutOfMemory>
    requires { partial_of row.old ≡ [] }
    ensures { OnOk result (WritesRow row.new (fields_of row.old ++ entry_values entry.now)) }
{
    match entry {
        None => {
            add(row, b"")?;
            add(row, b"")?;
            add(row, b"")?;
            add(row, b"")
        }
        Some(entry) => {
            add_text(row, &entry.date)?;
            add_text(row, &entry.author)?;
            add_text(row, &entry.recipients)?;
            add_text(row, &entry.description)
        }
    }
}

fn add_text(row: &mut ByteRecord, text: &Text) -> Result<(), OutOfMemory>
    requires { partial_of row.old ≡ [] }
    ensures { OnOk result (WritesRow row.new (fields_of row.old ++ encode_utf8_all text.now ∷ [])) }
{
    add(row, text.as_str().as_bytes())
}

// One value more.
fn add(row: &mut ByteRecord, value: &[u8]) -> Result<(), OutOfMemory>
    requires { partial_of row.old ≡ [] }
    ensures { OnOk result (WritesRow row.new (fields_of row.old ++ value.now ∷ [])) }
{
    row.push_field(value)?;
    Ok(())
}

// Whether the log lists an item: it is withheld, or has a box or a held field with AC or WP.
pub(crate) fn is_logged(item: &Item) -> bool
    ensures { result ≡ is_logged item.now }
{
    is_withheld(item.treatment)
        || has_privileged_box(item.boxes.as_slice())
        || has_privileged_field(item.held.as_slice())
}

fn has_privileged_box(boxes: &[BoxRow]) -> bool
    ensures { result ≡ list_any (λ box. is_privileged box.basis) boxes.now }
{
    boxes.iter().any(|row| is_privileged(row.basis))
}

fn has_privileged_field(held: &[HeldRow]) -> bool
    ensures { result ≡ list_any (λ held. is_privileged held.basis) held.now }
{
    held.iter().any(|row| is_privileged(row.basis))
}

// What became of the document.
fn outcome(treatment: Treatment) -> &'static [u8]
    ensures { result.now ≡ outcome treatment }
{
    if is_withheld(treatment) {
        b"Withheld"
    } else {
        b"Redacted"
    }
}

// The codes AC and WP that occur.
fn claims(item: &Item) -> &'static [u8]
    ensures { result.now ≡ claims item.now }
{
    match (occurs(Basis::Ac, item), occurs(Basis::Wp, item)) {
        (true, true) => b"AC;WP",
        (true, false) => b"AC",
        (false, true) => b"WP",
        (false, false) => b"",
    }
}

// Whether something of the item is held back on this ground.
fn occurs(basis: Basis, item: &Item) -> bool
    ensures { result ≡ occurs basis item.now }
{
    is_withheld_for(basis, item.treatment)
        || has_box(basis, item.boxes.as_slice())
        || has_held_field(basis, item.held.as_slice())
}

fn is_withheld_for(basis: Basis, treatment: Treatment) -> bool
    ensures { result ≡ is_withheld_for basis treatment }
{
    match treatment {
        Treatment::Withhold(other) => is_basis(basis, other),
        _ => false,
    }
}

fn has_box(basis: Basis, boxes: &[BoxRow]) -> bool
    ensures { result ≡ list_any (λ box. is_basis basis box.basis) boxes.now }
{
    boxes.iter().any(|row| is_basis(basis, row.basis))
}

fn has_held_field(basis: Basis, held: &[HeldRow]) -> bool
    ensures { result ≡ list_any (λ held. is_basis basis held.basis) held.now }
{
    held.iter().any(|row| is_basis(basis, row.basis))
}

fn is_basis(basis: Basis, other: Basis) -> bool
    ensures { result ≡ is_basis basis other }
{
    match basis {
        Basis::Ac => matches!(other, Basis::Ac),
        Basis::Wp => matches!(other, Basis::Wp),
        Basis::Pi => matches!(other, Basis::Pi),
        Basis::Ts => matches!(other, Basis::Ts),
    }
}
