// The codes of ITU-T T.6 and the glyphs. A table is `white`, `black` or `modes`.
//
//     code bits TABLE ROW              the code of that row, in zeros and ones
//     code next TABLE FILL HEX BIT     the row whose code begins at that bit, or why none does
//     code ahead TABLE HEX BIT SKIP    row and length of the code behind so many bits of the
//                                      look-ahead at that bit, or `none`
//     code glyph CHARACTER             its seven rows, or `none`
ghost use Rattle.std.specs.Prelude.{◌≤◌};

use crate::told::{constant, unread};
use anyhow::Result;
use bp_codes::{
    BitSpan, Code, CodeTable, Fill, Found, NoCode, black, black_ahead, glyphs, mode_ahead, modes,
    white, white_ahead,
};
use bp_test_words::Words;
use std::alloc::Global;

pub fn told(alloc: Global, words: &mut Words) -> Result<String> {
    match words.word() {
        "bits" => bits(alloc, words),
        "next" => next(alloc, words),
        "ahead" => ahead(alloc, words),
        "glyph" => glyph(alloc, words),
        _ => unread(alloc),
    }
}

/// `high` or `low`: which bit of a byte is the first.
pub fn fill_of(words: &mut Words) -> Fill {
    match words.word() {
        "high" => Fill::High,
        "low" => Fill::Low,
        _ => {
            words.refuse();
            Fill::High
        }
    }
}

fn bits(alloc: Global, words: &mut Words) -> Result<String> {
    let table = words.word();
    let row = words.number() as usize;
    if !words.is_read() {
        return unread(alloc);
    }
    match table {
        "white" => bits_in(alloc, &white(), row),
        "black" => bits_in(alloc, &black(), row),
        "modes" => bits_in(alloc, &modes(), row),
        _ => unread(alloc),
    }
}

fn bits_in<const N: usize>(alloc: Global, table: &CodeTable<N>, row: usize) -> Result<String> {
    if row >= N {
        return unread(alloc);
    }
    digits(alloc, table.code_of(row))
}

fn digits(alloc: Global, code: Code) -> Result<String> {
    let mut text = String::new(alloc);
    for place in (0..code.len.min(32)).rev() {
        text.push(if code.bits >> place & 1 == 1 {
            '1'
        } else {
            '0'
        })?;
    }
    Ok(text)
}

fn next(alloc: Global, words: &mut Words) -> Result<String> {
    let table = words.word();
    let fill = fill_of(words);
    let bytes = words.bytes();
    let at = words.long_number();
    if !words.is_read() || bytes.len() > 1_000 {
        return unread(alloc);
    }
    let span = BitSpan {
        bytes: &bytes,
        fill,
    };
    match table {
        "white" => next_in(alloc, &white(), &span, at),
        "black" => next_in(alloc, &black(), &span, at),
        "modes" => next_in(alloc, &modes(), &span, at),
        _ => unread(alloc),
    }
}

fn next_in<const N: usize>(
    alloc: Global,
    table: &CodeTable<N>,
    span: &BitSpan,
    at: u64,
) -> Result<String> {
    if at > span.len() {
        return unread(alloc);
    }
    match table.next_code(span, at) {
        Ok(row) => Ok(format!(in alloc; "{row}")?),
        Err(NoCode::Ends) => constant(alloc, "ends"),
        Err(NoCode::Strange) => constant(alloc, "strange"),
    }
}

fn ahead(alloc: Global, words: &mut Words) -> Result<String> {
    let table = words.word();
    let bytes = words.bytes();
    let at = words.long_number();
    let skipped = words.long_number();
    if !words.is_read() || bytes.len() > 1_000 || skipped > 44 {
        return unread(alloc);
    }
    let span = BitSpan {
        bytes: &bytes,
        fill: Fill::High,
    };
    if at > span.len() {
        return unread(alloc);
    }
    match span.ahead(at) {
        Some(word) => found(alloc, ahead_in(table, word, skipped)),
        None => constant(alloc, "no look-ahead"),
    }
}

fn ahead_in(table: &str, word: u64, skipped: u64) -> Option<Found>
    requires { skipped ≤ 44 }
{
    match table {
        "white" => white_ahead(word, skipped),
        "black" => black_ahead(word, skipped),
        _ => mode_ahead(word << skipped),
    }
}

fn found(alloc: Global, found: Option<Found>) -> Result<String> {
    match found {
        Some(Found { row, len }) => Ok(format!(in alloc; "{row} {len}")?),
        None => constant(alloc, "none"),
    }
}

fn glyph(alloc: Global, words: &mut Words) -> Result<String> {
    let text = words.text();
    let character = text.as_str().chars().next().unwrap_or('\0');
    let rows = glyphs().rows_of(character);
    if !words.is_read() || bp_burn::glyph(character) != rows {
        return unread(alloc);
    }
    match rows {
        Some(rows) => glyph_text(alloc, rows.as_slice()),
        None => constant(alloc, "none"),
    }
}

fn glyph_text(alloc: Global, rows: &[u8]) -> Result<String> {
    let mut text = String::new(alloc);
    for row in rows {
        if !text.is_empty() {
            text.push(' ')?;
        }
        write!(text, "{row}")?;
    }
    Ok(text)
}
