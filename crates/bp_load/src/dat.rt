// The DAT load file (Concordance): a line of column names, and a line a record.
ghost use Rattle.std.specs.Prelude.{◌≡◌, ◌+◌, ◌<◌, ◌^◌, ◌∷◌, [], length, true, false, IfOk, IsTrue, OnOk, ◌==◌, ◌++◌, not, MatchOption, map, encode_utf8_all};
ghost use Rattle.std.specs.List.{list_all, flat_map};
ghost use Rattle.std.specs.Option.{ok_or};
ghost use Rattle.std.specs.Str.{chars, all_scalars};
ghost use Rattle.std.specs.String.{string_bytes};
ghost use Rattle.bp_core.specs.Answers.{Answers};
ghost use Rattle.bp_core.specs.declared.rules.RuleKind.TheVariants.{DatShape};
ghost use Rattle.bp_core.specs.Rules.{rule_at_line};
ghost use Rattle.bp_load.specs.Lines.{each_line, filled_lines};
ghost use Rattle.bp_load.specs.Dat.{dat_others_text, columns_in, dat_columns, dat_of, table_of, row_of_values, values_of_line, quoted_value, is_quoted, inside, is_inner, stands_for_itself, read_character, write_character, quoted, dat_values_text, dat_line_text, dat_text, is_cell_character, is_cell, is_name, is_writable};
ghost use Rattle.bp_load.specs.Table.{is_even};

use crate::fields::next_field;
use crate::lines::{first_filled_line, text_without_mark};
use bp_core::{Bytes, ListOf, OutOfMemory, Refusal, Rule, RuleKind, Text, TextList};
use std::alloc::Global;
use std::marker::Model;

// What stands at both ends of a value, between two values, and for a newline in a value.
const QUOTE: char = '\u{fe}';

const SEPARATOR: char = '\u{14}';

const NEWLINE_SIGN: char = '\u{ae}';

/// A list of rows of texts.
pub type TextTable = ListOf<TextList>;

/// Column names, and rows of as many cells.
#[derive(Clone, Debug, Drop)]
pub struct Dat {
    columns: TextList,
    rows: TextTable,
}

impl Model for Dat {
    ghost use Rattle.bp_load.specs.Table.{Table, is_even};
    ghost use Rattle.std.specs.Prelude.{IsTrue};

    ghost Value = { Table };

    ghost view = { λ d. record { columns = d.columns; rows = d.rows } };

    ghost invariant = { λ d. IsTrue (is_even (record { columns = d.columns; rows = d.rows })) };
}

impl Dat {
    /// A table of these columns and rows. It takes no memory.
    pub fn new(columns: TextList, rows: TextTable) -> Dat
        requires { IsTrue (is_even (record { columns = columns; rows = rows })) }
        ensures { result ≡ record { columns = columns; rows = rows } }
    {
        Dat { columns, rows }
    }

    /// The column names.
    pub fn columns(&self) -> &TextList
        ensures { result.now ≡ self.now.columns }
    {
        &self.columns
    }

    /// The rows, each as long as the columns.
    pub fn rows(&self) -> &TextTable
        ensures rows { result.now ≡ self.now.rows }
        ensures even { IsTrue (is_even self.now) }
    {
        &self.rows
    }

    /// Whether it can be written: there is a column, no cell and no column name has U+00FE, U+0014, CR or
    /// U+00AE, and no column name has a newline.
    pub fn writable(&self) -> bool
        ensures { result ≡ is_writable self.now }
    {
        !self.columns.is_empty()
            && are_names(self.columns.as_slice())
            && are_rows(self.rows.as_slice())
    }

    /// The column names and the rows. It takes no memory.
    pub fn into_parts(self) -> (TextList, TextTable)
        ensures columns { result.0 ≡ self.columns }
        ensures rows { result.1 ≡ self.rows }
        ensures even { IsTrue (is_even self) }
    {
        (self.columns, self.rows)
    }
}

/// The table of a DAT file. DatEncoding where the file isn't UTF-8; else DatShape with the number of the
/// first bad line, counted from 1 without empty lines. A line has values between two U+00FE, with U+0014
/// between them, as many as there are columns; a value has no U+00FE, U+0014 or CR, and U+00AE in it
/// stands for a newline.
pub fn read_dat(alloc: Global, bytes: &[u8]) -> Result<Dat, Refusal>
    requires { length bytes.now < 2 ^ 32 }
    ensures { Answers (λ dat. dat) result (dat_of bytes.now) }
{
    match str::from_utf8(bytes) {
        Ok(text) => read_table(alloc, text_without_mark(text)),
        Err(_) => Err(refused(RuleKind::DatEncoding, 0)),
    }
}

/// The column names of a DAT file, whatever stands behind its first line. DatEncoding where the file
/// isn't UTF-8; DatShape at line 1 where there is no line, or the first is none of values.
pub fn read_columns(alloc: Global, bytes: &[u8]) -> Result<TextList, Refusal>
    ensures { Answers (λ columns. columns) result (dat_columns bytes.now) }
{
    let Ok(text) = str::from_utf8(bytes) else {
        return Err(refused(RuleKind::DatEncoding, 0));
    };
    read_header(alloc, text_without_mark(text))
}

// The columns of a text without a mark.
fn read_header(alloc: Global, text: &str) -> Result<TextList, Refusal>
    ensures { Answers (λ columns. columns) result (columns_in (filled_lines text.now)) }
{
    let Some((header, _)) = first_filled_line(text) else {
        return Err(refused(RuleKind::DatShape, 1));
    };
    match read_values(alloc, header, 0)? {
        Some(columns) => Ok(columns),
        None => Err(refused(RuleKind::DatShape, 1)),
    }
}

fn refused(kind: RuleKind, line: u32) -> Refusal
    ensures { result ≡ Refusal.Rule (rule_at_line kind line) }
{
    Refusal::Rule(Rule::at_line(kind, line))
}

// The table of a text without a mark.
fn read_table(alloc: Global, text: &str) -> Result<Dat, Refusal>
    requires { length text.now < 2 ^ 32 }
    ensures { Answers (λ dat. dat) result (table_of (filled_lines text.now)) }
{
    let Some((header, rest)) = first_filled_line(text) else {
        return Err(refused(RuleKind::DatShape, 1));
    };
    let Some(columns) = read_values(alloc, header, 0)? else {
        return Err(refused(RuleKind::DatShape, 1));
    };
    let rows = read_rows(alloc, rest, columns.len())?;
    Ok(Dat::new(columns, rows))
}

// The rows of the lines after the first, each of as many values.
fn read_rows(alloc: Global, text: &str, width: usize) -> Result<TextTable, Refusal>
    requires { length text.now + 1 < 2 ^ 32 }
    ensures { Answers (λ rows. rows) result
        (each_line (row_of_values width) DatShape 2 (filled_lines text.now)) }
{
    let mut rest = text;
    let mut rows = Vec::new(alloc);
    let mut number = 1;
    while let Some((line, after)) = first_filled_line(rest) {
        number += 1;
        rows.push(read_row(alloc, line, width, number)?)?;
        rest = after;
    }
    Ok(ListOf::from_vec(rows))
}

// The row of a line of that number.
fn read_row(alloc: Global, line: &str, width: usize, number: u32) -> Result<TextList, Refusal>
    ensures { Answers (λ row. row) result
        (ok_or (row_of_values width line.now) (rule_at_line DatShape number)) }
{
    match read_values(alloc, line, width)? {
        Some(values) if values.len() == width => Ok(values),
        _ => Err(refused(RuleKind::DatShape, number)),
    }
}

// The values of a line, with room for so many from the start.
fn read_values(alloc: Global, line: &str, room: usize) -> Result<Option<TextList>, OutOfMemory>
    ensures { IfOk result (λ found. found ≡ values_of_line line.now) }
{
    let mut values = Vec::with_capacity(alloc, room)?;
    let mut rest = Some(line);
    while rest.is_some() {
        let (piece, after) = next_field(rest, SEPARATOR);
        let Some(value) = read_value(alloc, piece)? else {
            return Ok(None);
        };
        values.push(value)?;
        rest = after;
    }
    Ok(Some(ListOf::from_vec(values)))
}

// The value between two quotes.
fn read_value(alloc: Global, piece: &str) -> Result<Option<Text>, OutOfMemory>
    ensures { IfOk result (λ found. found ≡ quoted_value (chars piece.now)) }
{
    let Some(inner) = unquoted(piece) else {
        return Ok(None);
    };
    if stand_for_themselves(inner.as_bytes()) {
        let text = String::from_str(alloc, inner)?;
        return Ok(Some(Text::from_string(text)));
    }
    if !are_inner(inner) {
        return Ok(None);
    }
    let text = with_newlines(alloc, inner)?;
    Ok(Some(Text::from_string(text)))
}

// What stands between the two quotes of a piece.
fn unquoted(piece: &str) -> Option<&str>
    ensures { MatchOption result (is_quoted (chars piece.now) ≡ false)
        (λ inner. (is_quoted (chars piece.now) ≡ true)
        × (chars inner.now ≡ inside (chars piece.now))) }
{
    piece.strip_prefix(QUOTE)?.strip_suffix(QUOTE)
}

// Whether each byte is ASCII and no CR. Such a value, as most are, stands for itself, and is copied whole.
fn stand_for_themselves(bytes: &[u8]) -> bool
    ensures { result ≡ list_all stands_for_itself bytes.now }
{
    bytes.iter().all(|byte| byte.is_ascii() && *byte != b'\r')
}

fn are_inner(text: &str) -> bool
    ensures { result ≡ list_all is_inner (chars text.now) }
{
    text.chars().all(|c| is_inner(c))
}

fn is_inner(c: char) -> bool
    ensures { result ≡ is_inner c }
{
    c != QUOTE && c != '\r'
}

// The text with a newline for each sign of one.
fn with_newlines(alloc: Global, text: &str) -> Result<String, OutOfMemory>
    ensures { IfOk result
        (λ read. string_bytes read ≡ encode_utf8_all (map read_character (chars text.now))) }
{
    let mut read = String::with_capacity(alloc, text.len())?;
    for c in text.chars() {
        read.push(read_character(c))?;
    }
    Ok(read)
}

fn read_character(c: char) -> char
    ensures { result ≡ read_character c }
{
    if c == NEWLINE_SIGN { '\n' } else { c }
}

fn are_rows(rows: &[TextList]) -> bool
    ensures { result ≡ list_all (list_all is_cell) rows.now }
{
    rows.iter().all(|row| are_cells(row.as_slice()))
}

fn are_cells(cells: &[Text]) -> bool
    ensures { result ≡ list_all is_cell cells.now }
{
    cells.iter().all(|cell| is_cell(cell))
}

fn are_names(names: &[Text]) -> bool
    ensures { result ≡ list_all is_name names.now }
{
    names.iter().all(|name| is_name(name))
}

fn is_cell(text: &Text) -> bool
    ensures { result ≡ is_cell text.now }
{
    text.as_str().chars().all(|c| is_cell_character(c))
}

fn is_cell_character(c: char) -> bool
    ensures { result ≡ is_cell_character c }
{
    c != QUOTE && c != SEPARATOR && c != '\r' && c != NEWLINE_SIGN
}

fn is_name(text: &Text) -> bool
    ensures { result ≡ is_name text.now }
{
    is_cell(text) && has_no_newline(text)
}

fn has_no_newline(text: &Text) -> bool
    ensures { result ≡ list_all (λ c. not (c == 10)) text.now }
{
    text.as_str().chars().all(|c| c != '\n')
}

/// The file of a table: a line of column names and a line a row, each ended by CR LF, without a mark.
/// Reading gives the table back.
pub fn write_dat(alloc: Global, dat: &Dat) -> Result<Bytes, OutOfMemory>
    requires { IsTrue (is_writable dat.now) }
    ensures text { IfOk result (λ bytes. bytes ≡ dat_text dat.now) }
    ensures read_back { IfOk result (λ bytes. dat_of bytes ≡ Ok dat.now) }
{
    let mut out = String::new(alloc);
    write_line(&mut out, dat.columns().as_slice())?;
    for row in dat.rows().as_slice() {
        write_line(&mut out, row.as_slice())?;
    }
    Ok(Bytes::from_vec(out.into_bytes()))
}

// Adds a line of these values with its end.
fn write_line(out: &mut String, values: &[Text]) -> Result<(), OutOfMemory>
    ensures ok { OnOk result
        (string_bytes out.new ≡ string_bytes out.old ++ dat_line_text values.now) }
    ensures scalars { OnOk result (list_all all_scalars values.now ≡ true) }
{
    write_values(out, values)?;
    out.push_str("\r\n")?;
    Ok(())
}

// Adds the values with a separator between each two.
fn write_values(out: &mut String, values: &[Text]) -> Result<(), OutOfMemory>
    ensures ok { OnOk result
        (string_bytes out.new ≡ string_bytes out.old ++ dat_values_text values.now) }
    ensures scalars { OnOk result (list_all all_scalars values.now ≡ true) }
{
    let Some((first, others)) = values.split_first() else {
        return Ok(());
    };
    write_value(out, first)?;
    write_others(out, others)
}

// Adds each value, with a separator before it.
fn write_others(out: &mut String, values: &[Text]) -> Result<(), OutOfMemory>
    ensures ok { OnOk result
        (string_bytes out.new ≡ string_bytes out.old ++ dat_others_text values.now) }
    ensures scalars { OnOk result (list_all all_scalars values.now ≡ true) }
{
    for value in values {
        out.push(SEPARATOR)?;
        write_value(out, value)?;
    }
    Ok(())
}

// Adds a value between two quotes, with the sign for each newline.
fn write_value(out: &mut String, value: &Text) -> Result<(), OutOfMemory>
    ensures ok { OnOk result
        (string_bytes out.new ≡ string_bytes out.old ++ encode_utf8_all (quoted value.now)) }
    ensures scalars { OnOk result (all_scalars value.now ≡ true) }
{
    out.push(QUOTE)?;
    write_characters(out, value.as_str())?;
    out.push(QUOTE)?;
    Ok(())
}

fn write_characters(out: &mut String, text: &str) -> Result<(), OutOfMemory>
    ensures { let written = map write_character (chars text.now) in
        OnOk result (string_bytes out.new ≡ string_bytes out.old ++ encode_utf8_all written) }
{
    for c in text.chars() {
        out.push(write_character(c))?;
    }
    Ok(())
}

fn write_character(c: char) -> char
    ensures { result ≡ write_character c }
{
    if c == '\n' { NEWLINE_SIGN } else { c }
}
