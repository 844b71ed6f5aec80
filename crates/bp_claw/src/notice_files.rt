// Notices that claim produced documents back, a record a document.
ghost use Rattle.std.specs.Prelude.{◌≡◌, ◌^◌, ◌<◌, IfOk, IsTrue, length};
ghost use Rattle.std.specs.List.{list_all};
ghost use Rattle.std.specs.Str.{chars};
ghost use Rattle.csv.specs.Records.{fields_of};
ghost use Rattle.bp_core.specs.Answers.{Answers};
ghost use Rattle.bp_claw.specs.Claims.{claim_fits};
ghost use Rattle.bp_claw.specs.NoticeFiles.{claim_in, claim_of, claimed_entry, notice_of, privilege_of, claimed_text, text_within};

use crate::notices::{Claim, Notice};
use bp_core::{Basis, DocNo, OutOfMemory, Refusal, RuleKind, Text, ordinal_in};
use bp_matter::texts::is_text;
use bp_matter::{Entry, MAX_DESCRIPTION, MAX_NAME};
use bp_records::{Rows, field_at, read_rows, text_in};
use csv::ByteRecord;
use std::alloc::Global;

// How many fields a record has, and the place of each, counted from 0.
const FIELDS: usize = 6;

const DOCUMENT: usize = 0;

const BASIS: usize = 1;

const DATE: usize = 2;

const AUTHOR: usize = 3;

const RECIPIENTS: usize = 4;

const DESCRIPTION: usize = 5;

/// The claims of a notice. The file has comma-separated values (RFC 4180) in UTF-8, without a line of
/// names: document, basis, date, author, recipients, description. A document is 1 to 9 digits, the
/// first not 0; the basis is AC or WP; the texts are those that a log entry takes. NoticeShape has the
/// number of the first other record, counted from 1; NoticeEmpty comes where there is no record. A byte
/// order mark at the head is dropped, and empty lines are no records. `replace` takes what was read.
///
///     let notice = read_notice(alloc, b"1,AC,2019-01-07,Ng,Ortiz,Letter to counsel\n")?;
pub fn read_notice(alloc: Global, bytes: &[u8]) -> Result<Notice, Refusal>
    requires { length bytes.now < 2 ^ 32 }
    ensures answer { Answers (λ notice. notice) result (notice_of bytes.now) }
    ensures fits { IfOk result (λ notice. IsTrue (list_all claim_fits notice)) }
{
    let claims = read_rows(alloc, &Claims, bytes)?;
    if claims.is_empty() {
        return Err(Refusal::bare(RuleKind::NoticeEmpty));
    }
    Ok(claims)
}

// Claims, by their records.
struct Claims;

impl Rows<Claim> for Claims {
    ghost use Rattle.bp_core.specs.declared.rules.RuleKind.TheVariants.{NoticeShape};
    ghost use Rattle.bp_claw.specs.NoticeFiles.{claim_of};

    ghost row_of = { claim_of };

    ghost broken = { λ _. NoticeShape };

    fn row_in(&self, alloc: Global, from: &ByteRecord) -> Result<Option<Claim>, OutOfMemory> {
        claim_from(alloc, from)
    }

    fn broken(&self) -> RuleKind {
        RuleKind::NoticeShape
    }
}

// What a record claims.
fn claim_from(alloc: Global, row: &ByteRecord) -> Result<Option<Claim>, OutOfMemory>
    ensures { IfOk result (λ claim. claim ≡ claim_of (fields_of row.now)) }
{
    if row.len() != FIELDS {
        return Ok(None);
    }
    claim_in(alloc, row)
}

fn claim_in(alloc: Global, row: &ByteRecord) -> Result<Option<Claim>, OutOfMemory>
    requires { length (fields_of row.now) ≡ FIELDS }
    ensures { IfOk result (λ claim. claim ≡ claim_in (fields_of row.now)) }
{
    let Some(doc) = ordinal_in(field_at(row, DOCUMENT)) else {
        return Ok(None);
    };
    let Some(basis) = privilege_of(field_at(row, BASIS)) else {
        return Ok(None);
    };
    let Some(entry) = entry_in(alloc, row)? else {
        return Ok(None);
    };
    Ok(Some(Claim {
        doc: DocNo(doc),
        basis,
        entry,
    }))
}

// What the privilege log is to say of the document.
fn entry_in(alloc: Global, row: &ByteRecord) -> Result<Option<Entry>, OutOfMemory>
    requires { length (fields_of row.now) ≡ FIELDS }
    ensures { IfOk result (λ entry. entry ≡ claimed_entry (fields_of row.now)) }
{
    let Some(date) = entry_text(alloc, field_at(row, DATE), MAX_NAME)? else {
        return Ok(None);
    };
    let Some(author) = entry_text(alloc, field_at(row, AUTHOR), MAX_NAME)? else {
        return Ok(None);
    };
    let Some(recipients) = entry_text(alloc, field_at(row, RECIPIENTS), MAX_NAME)? else {
        return Ok(None);
    };
    let Some(description) = entry_text(alloc, field_at(row, DESCRIPTION), MAX_DESCRIPTION)? else {
        return Ok(None);
    };
    Ok(Some(Entry {
        date,
        author,
        recipients,
        description,
    }))
}

// A privilege by its code.
fn privilege_of(field: &[u8]) -> Option<Basis>
    ensures { result ≡ privilege_of field.now }
{
    if field == b"AC".as_slice() {
        Some(Basis::Ac)
    } else if field == b"WP".as_slice() {
        Some(Basis::Wp)
    } else {
        None
    }
}

// The text in a field, where a log entry takes it.
fn entry_text(alloc: Global, field: &[u8], limit: usize) -> Result<Option<Text>, OutOfMemory>
    ensures { IfOk result (λ text. text ≡ claimed_text limit field.now) }
{
    match text_in(field) {
        Some(text) => text_within(text_from(alloc, text)?, limit),
        None => Ok(None),
    }
}

fn text_within(text: Text, limit: usize) -> Result<Option<Text>, OutOfMemory>
    ensures { IfOk result (λ found. found ≡ text_within limit text) }
{
    if is_text(&text, limit) {
        Ok(Some(text))
    } else {
        Ok(None)
    }
}

fn text_from(alloc: Global, text: &str) -> Result<Text, OutOfMemory>
    ensures { IfOk result (λ copied. copied ≡ chars text.now) }
{
    Ok(Text::from_string(String::from_str(alloc, text)?))
}
