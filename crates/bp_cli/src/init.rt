// The command `init`.
ghost use Rattle.std.specs.Prelude.{◌≡◌, IfOk, Some, map, codes};
ghost use Rattle.std.specs.List.{list_all};
ghost use Rattle.bp_outside.specs.Source.{SourceView};
ghost use Rattle.bp_outside.specs.Folder.{FolderView};
ghost use Rattle.bp_matter.specs.KeptRows.{rows_of};
ghost use Rattle.bp_rules.specs.Beginning.{begun};
ghost use Rattle.bp_rules.specs.Changes.{put_of};
ghost use Rattle.bp_cli.specs.Words.{words_lent};
ghost use Rattle.bp_cli.specs.Init.{is_low_hex as low_hex, key_digest_of, init_of};
ghost use Rattle.bp_cli.specs.Commands.{init, ReadsAndWorks};
ghost use Rattle.bp_cli.specs.Endings.{world, line_of};

use crate::stops::Stop;
use crate::words::word_at;
use bp_core::{Bytes, OutOfMemory, Put, PutList, Row, RowList, Rule, RuleKind};
use bp_keep::Keeper;
use bp_matter::Tables;
use bp_rules::begin;
use hex::FromHex;
use std::alloc::Global;

/// The bytes of a SHA-256.
pub const DIGEST_BYTES: usize = 32;

// ---- its line

/// The digest that the one operand of `init KEYDIGEST` gives.
pub fn init_in(operands: &[&str]) -> Option<[u8; DIGEST_BYTES]>
    ensures { result ≡ init_of (words_lent operands.now) }
{
    if operands.len() != 1 {
        return None;
    }
    digest_in(word_at(operands, 0))
}

fn digest_in(word: &str) -> Option<[u8; DIGEST_BYTES]>
    ensures { result ≡ key_digest_of word.now }
{
    if !all_low_hex(word.as_bytes()) {
        return None;
    }
    <[u8; DIGEST_BYTES] as FromHex>::from_hex(word).ok()
}

fn all_low_hex(word: &[u8]) -> bool
    ensures { result ≡ list_all low_hex word.now }
{
    word.iter().all(|c| is_low_hex(*c))
}

fn is_low_hex(c: u8) -> bool
    ensures { result ≡ low_hex c }
{
    c.is_ascii_digit() || (b'a' <= c && c <= b'f')
}

// ---- its work

/// Makes a matter in a keeper without rows: its rows are committed at once. The line that says so.
pub fn make_matter<K: Keeper>(
    alloc: Global,
    digest: [u8; DIGEST_BYTES],
    keeper: &mut K,
) -> Result<Bytes, Stop>
    ensures { (source : SourceView) (folder : FolderView)
        → let line = Some (init digest) in
        let before = world source (K.shows keeper.old) folder in
        let after = world source (K.shows keeper.new) folder in
        ReadsAndWorks line before result after }
{
    let rows = keeper.load(alloc)?;
    if !rows.is_empty() {
        return Err(Stop::Broken(Rule::bare(RuleKind::MatterThere)));
    }
    let line = line_of_matter(alloc)?;
    let puts = first_puts(alloc, digest)?;
    keeper.commit(alloc, &puts)?;
    Ok(line)
}

fn line_of_matter(alloc: Global) -> Result<Bytes, OutOfMemory>
    ensures { IfOk result (λ line. line ≡ line_of (codes "matter made")) }
{
    Ok(Bytes::from_vec(Vec::from_slice(alloc, b"matter made\n")?))
}

// The puts that keep a matter which begins.
fn first_puts(alloc: Global, digest: [u8; DIGEST_BYTES]) -> Result<PutList, OutOfMemory>
    ensures { IfOk result (λ puts. puts ≡ map put_of (rows_of (begun digest))) }
{
    let tables = begin(alloc, digest)?;
    puts_of_tables(alloc, &tables)
}

// The puts that keep a matter whole.
pub fn puts_of_tables(alloc: Global, tables: &Tables) -> Result<PutList, OutOfMemory>
    ensures { IfOk result (λ puts. puts ≡ map put_of (rows_of tables.now.matter)) }
{
    let rows = tables.rows(alloc)?;
    puts_of_rows(alloc, rows)
}

// The puts that keep these rows.
fn puts_of_rows(alloc: Global, rows: RowList) -> Result<PutList, OutOfMemory>
    ensures { IfOk result (λ puts. puts ≡ map put_of rows) }
{
    let puts = rows.into_vec().into_iter().map(put_of).collect(alloc)?;
    Ok(PutList::from_vec(puts))
}

fn put_of(row: Row) -> Put
    ensures { result ≡ put_of row }
{
    Put {
        kind: row.kind,
        k1: row.k1,
        k2: row.k2,
        body: Some(row.body),
    }
}
