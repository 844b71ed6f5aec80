// The OPT load file (Opticon): a line a page.
ghost use Rattle.std.specs.Prelude.{◌≡◌, ◌==◌, true, false, ◌<◌, ◌^◌, length, drop, slice_index_or, [], ◌∷◌, nat_lt, is_some, IfOk, OnOk, IsTrue, ◌++◌, encode_utf8_all, MatchOption};
ghost use Rattle.std.specs.Option.{ok_or, option_copied};
ghost use Rattle.std.specs.List.{slice_split};
ghost use Rattle.std.specs.Str.{chars, all_scalars};
ghost use Rattle.bp_core.specs.Answers.{Answers};
ghost use Rattle.bp_core.specs.Characters.{comma};
ghost use Rattle.bp_core.specs.Rules.{rule_at_line};
ghost use Rattle.bp_load.specs.Opt.{opt_of, opt_line_of, is_flag, is_page_count, are_of_form, page_of, has_count, is_field, is_field_character, is_opt_line, are_opt_lines, opt_line_text, opt_text, flag_text, has_texts};
ghost use Rattle.bp_load.specs.OptFields.{opt_fields, seven};

use crate::fields::next_field;
use crate::lines::{first_line, without_mark};
use bp_core::{Bytes, ListOf, OutOfMemory, Refusal, Rule, RuleKind, Text, are_digits};
use std::alloc::Global;

/// A page of a production: its image id, its volume and the path of its image, whether a document, a
/// folder and a box begin at it, and how many pages the document has, in digits or empty.
#[derive(Clone, Debug, PartialEq, Eq, Drop)]
pub struct OptLine {
    pub image: Text,
    pub volume: Text,
    pub path: Text,
    pub doc_break: bool,
    pub folder_break: bool,
    pub box_break: bool,
    pub pages: Text,
}

pub type OptList = ListOf<OptLine>;

/// The lines of an OPT file, or OptShape with the number of the first bad one, counted from 1 without
/// empty lines. A line has three to seven fields with commas between them, missing ones empty; the image
/// and the path aren't empty, a break is `Y` or empty, the pages are empty or 1 to 9 digits.
pub fn read_opt(alloc: Global, bytes: &[u8]) -> Result<OptList, Refusal>
    requires { length bytes.now < 2 ^ 32 }
    ensures { Answers (λ lines. lines) result (opt_of bytes.now) }
{
    let mut rest = without_mark(bytes);
    let mut lines = Vec::new(alloc);
    let mut number = 0;
    while !rest.is_empty() {
        let (line, after) = first_line(rest);
        rest = after;
        if !line.is_empty() {
            number += 1;
            lines.push(read_line(alloc, line, number)?)?;
        }
    }
    Ok(ListOf::from_vec(lines))
}

// What a line of that number says.
fn read_line(alloc: Global, line: &[u8], number: u32) -> Result<OptLine, Refusal>
    ensures { let rule = rule_at_line RuleKind.OptShape number in
        Answers (λ page. page) result (ok_or (opt_line_of line.now) rule) }
{
    match form_of(line) {
        Some(fields) => Ok(page_of(alloc, &fields)?),
        None => Err(Refusal::Rule(Rule::at_line(RuleKind::OptShape, number))),
    }
}

// The seven fields of a line, lent from it.
#[derive(Clone, Copy)]
struct Fields<'a> {
    image: &'a str,
    volume: &'a str,
    path: &'a str,
    doc_break: &'a str,
    folder_break: &'a str,
    box_break: &'a str,
    pages: &'a str,
}

// The fields of a line that is of the form.
fn form_of(line: &[u8]) -> Option<Fields<'_>>
    ensures { MatchOption result
        (opt_line_of line.now ≡ None)
        (λ fields. opt_line_of line.now ≡ Some (page_of (opt_fields fields))) }
{
    let Ok(text) = str::from_utf8(line) else {
        return None;
    };
    if line.contains(&b'\r') {
        return None;
    }
    let Some(fields) = split_fields(text) else {
        return None;
    };
    if is_of_form(&fields) {
        Some(fields)
    } else {
        None
    }
}

// The three to seven fields between the commas, missing ones empty.
fn split_fields(text: &str) -> Option<Fields<'_>>
    ensures { let fields = slice_split (λ c. c == comma) text.now in
        MatchOption result
        (has_count fields ≡ false)
        (λ found. (has_count fields ≡ true) × (opt_fields found ≡ seven fields)) }
{
    let (image, rest) = next_field(Some(text), ',');
    let (volume, rest) = next_field(rest, ',');
    if rest.is_none() {
        return None;
    }
    let (path, rest) = next_field(rest, ',');
    let (doc_break, rest) = next_field(rest, ',');
    let (folder_break, rest) = next_field(rest, ',');
    let (box_break, rest) = next_field(rest, ',');
    let (pages, rest) = next_field(rest, ',');
    if rest.is_some() {
        return None;
    }
    Some(Fields {
        image,
        volume,
        path,
        doc_break,
        folder_break,
        box_break,
        pages,
    })
}

fn is_of_form(fields: &Fields) -> bool
    ensures { result ≡ are_of_form (opt_fields fields.now) }
{
    !fields.image.is_empty()
        && !fields.path.is_empty()
        && is_flag(fields.doc_break)
        && is_flag(fields.folder_break)
        && is_flag(fields.box_break)
        && is_page_count(fields.pages.as_bytes())
}

fn is_flag(text: &str) -> bool
    ensures { result ≡ is_flag text.now }
{
    text.is_empty() || text == "Y"
}

fn is_page_count(text: &[u8]) -> bool
    ensures { result ≡ is_page_count text.now }
{
    text.is_empty() || are_digits(text)
}

// The fields in memory of their own.
fn page_of(alloc: Global, fields: &Fields) -> Result<OptLine, OutOfMemory>
    ensures { IfOk result (λ page. page ≡ page_of (opt_fields fields.now)) }
{
    Ok(OptLine {
        image: text_of(alloc, fields.image)?,
        volume: text_of(alloc, fields.volume)?,
        path: text_of(alloc, fields.path)?,
        doc_break: fields.doc_break == "Y",
        folder_break: fields.folder_break == "Y",
        box_break: fields.box_break == "Y",
        pages: text_of(alloc, fields.pages)?,
    })
}

fn text_of(alloc: Global, text: &str) -> Result<Text, OutOfMemory>
    ensures { IfOk result (λ copied. copied ≡ chars text.now) }
{
    Ok(Text::from_string(String::from_str(alloc, text)?))
}

/// Whether each line can be written: no comma, CR, LF or byte order mark in its texts, an image and a
/// path, and pages that are empty or 1 to 9 digits.
pub fn opt_writable(lines: &OptList) -> bool
    ensures { result ≡ are_opt_lines lines.now }
{
    lines.as_slice().iter().all(|line| is_writable(line))
}

fn is_writable(line: &OptLine) -> bool
    ensures { result ≡ is_opt_line line.now }
{
    is_field(&line.image)
        && is_field(&line.volume)
        && is_field(&line.path)
        && is_field(&line.pages)
        && !line.image.is_empty()
        && !line.path.is_empty()
        && is_count(&line.pages)
}

fn is_field(text: &Text) -> bool
    ensures { result ≡ is_field text.now }
{
    text.as_str().chars().all(|c| is_field_character(c))
}

fn is_field_character(c: char) -> bool
    ensures { result ≡ is_field_character c }
{
    c != ',' && c != '\r' && c != '\n' && c != '\u{feff}'
}

fn is_count(text: &Text) -> bool
    ensures { result ≡ is_page_count text.now }
{
    is_page_count(text.as_str().as_bytes())
}

/// The file of these lines: seven fields a line, each line ended by CR LF. Reading gives them back.
pub fn write_opt(alloc: Global, lines: &OptList) -> Result<Bytes, OutOfMemory>
    requires { IsTrue (are_opt_lines lines.now) }
    ensures text { IfOk result (λ bytes. bytes ≡ opt_text lines.now) }
    ensures read_back { IfOk result (λ bytes. opt_of bytes ≡ Ok lines.now) }
{
    let mut out = Vec::new(alloc);
    for line in lines.as_slice() {
        write_line(&mut out, line)?;
    }
    Ok(Bytes::from_vec(out))
}

// Adds a line with its end.
fn write_line(out: &mut Vec<u8>, line: &OptLine) -> Result<(), OutOfMemory>
    ensures ok { OnOk result (out.new.items ≡ out.old.items ++ opt_line_text line.now) }
    ensures texts { OnOk result (has_texts line.now ≡ true) }
{
    write_text(out, &line.image, b",")?;
    write_text(out, &line.volume, b",")?;
    write_text(out, &line.path, b",")?;
    write_flag(out, line.doc_break)?;
    write_flag(out, line.folder_break)?;
    write_flag(out, line.box_break)?;
    write_text(out, &line.pages, b"\r\n")
}

// Adds a text, and what ends it.
fn write_text(out: &mut Vec<u8>, text: &Text, end: &[u8]) -> Result<(), OutOfMemory>
    ensures ok { let added = encode_utf8_all text.now ++ end.now in
        OnOk result (out.new.items ≡ out.old.items ++ added) }
    ensures scalars { OnOk result (all_scalars text.now ≡ true) }
{
    out.extend_from_slice(text.as_str().as_bytes())?;
    out.extend_from_slice(end)?;
    Ok(())
}

// Adds `Y` or nothing, and a comma.
fn write_flag(out: &mut Vec<u8>, is_set: bool) -> Result<(), OutOfMemory>
    ensures { OnOk result (out.new.items ≡ out.old.items ++ (flag_text is_set ++ 44 ∷ [])) }
{
    let text = if is_set {
        b"Y,".as_slice()
    } else {
        b",".as_slice()
    };
    out.extend_from_slice(text)?;
    Ok(())
}
