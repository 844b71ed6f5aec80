// Load files: DAT and OPT. Where no text is given the file at hand is read.
//
//     load dat TEXT..            columns and rows
//     load dat_written TEXT..    what is written of what was read, or `same` where that is what was read
//     load dat_writable NAME CELL    whether a table of one column and one cell can be written; of none
//                                    where none is given
//     load opt TEXT.. / load opt_written TEXT..            the same of its lines
ghost use Rattle.std.specs.Prelude.{◌<◌, ◌^◌, length};

use crate::files::File;
use crate::told::{constant, of_refusal, unread, yes_or_no};
use anyhow::Result;
use bp_core::{ListOf, Text};
use bp_load::{Dat, OptLine, OptList, opt_writable, read_dat, read_opt, write_dat, write_opt};
use bp_test_words::{Words, escaped};
use std::alloc::Global;

pub fn told(alloc: Global, file: &File, words: &mut Words) -> Result<String> {
    match words.word() {
        "dat_writable" => dat_writable(alloc, words),
        verb => of_file(alloc, verb, file, words),
    }
}

fn of_file(alloc: Global, verb: &str, file: &File, words: &mut Words) -> Result<String> {
    let mut given = Vec::new(alloc);
    let is_given = words.has_more();
    words.add_texts(&mut given);
    let bytes = if is_given {
        given.as_slice()
    } else {
        file.as_slice()
    };
    if !words.is_read() || bytes.len() > 1_000_000 {
        return unread(alloc);
    }
    match verb {
        "dat" => dat(alloc, bytes),
        "dat_written" => dat_written(alloc, bytes),
        "opt" => opt(alloc, bytes),
        "opt_written" => opt_written(alloc, bytes),
        _ => unread(alloc),
    }
}

fn dat(alloc: Global, bytes: &[u8]) -> Result<String>
    requires { length bytes.now < 2 ^ 32 }
{
    match read_dat(alloc, bytes) {
        Ok(dat) => dat_text(alloc, &dat),
        Err(refusal) => of_refusal(alloc, refusal),
    }
}

fn dat_text(alloc: Global, dat: &Dat) -> Result<String> {
    let mut text = String::new(alloc);
    add_texts(alloc, &mut text, dat.columns().as_slice())?;
    for row in dat.rows().as_slice() {
        text.push_str(" /")?;
        add_texts(alloc, &mut text, row.as_slice())?;
    }
    Ok(text)
}

// Each text in brackets behind a space.
fn add_texts(alloc: Global, text: &mut String, texts: &[Text]) -> Result<()> {
    for part in texts {
        let part = escaped(alloc, part.as_str())?;
        write!(text, "[{part}]")?;
    }
    Ok(())
}

fn dat_written(alloc: Global, bytes: &[u8]) -> Result<String>
    requires { length bytes.now < 2 ^ 32 }
{
    match read_dat(alloc, bytes) {
        Ok(dat) => dat_back(alloc, &dat, bytes),
        Err(refusal) => of_refusal(alloc, refusal),
    }
}

fn dat_back(alloc: Global, dat: &Dat, bytes: &[u8]) -> Result<String> {
    if !dat.writable() {
        return constant(alloc, "not writable");
    }
    let written = write_dat(alloc, dat)?;
    as_text(alloc, written.as_slice(), bytes)
}

// A file as a text, or `same` where it is what was read.
fn as_text(alloc: Global, written: &[u8], read: &[u8]) -> Result<String> {
    if written == read {
        return constant(alloc, "same");
    }
    match str::from_utf8(written) {
        Ok(text) => escaped(alloc, text),
        Err(_) => constant(alloc, "no text"),
    }
}

fn dat_writable(alloc: Global, words: &mut Words) -> Result<String> {
    if !words.has_more() {
        let empty = Dat::new(ListOf::new(alloc), ListOf::new(alloc));
        return yes_or_no(alloc, empty.writable());
    }
    let name = vec![in alloc; words.text()]?;
    let cell = vec![in alloc; words.text()]?;
    let row = ListOf::from_vec(cell);
    let rows = ListOf::from_vec(vec![in alloc; row]?);
    let dat = Dat::new(ListOf::from_vec(name), rows);
    if words.is_read() {
        yes_or_no(alloc, dat.writable())
    } else {
        unread(alloc)
    }
}

fn opt(alloc: Global, bytes: &[u8]) -> Result<String>
    requires { length bytes.now < 2 ^ 32 }
{
    match read_opt(alloc, bytes) {
        Ok(lines) => opt_text(alloc, &lines),
        Err(refusal) => of_refusal(alloc, refusal),
    }
}

fn opt_written(alloc: Global, bytes: &[u8]) -> Result<String>
    requires { length bytes.now < 2 ^ 32 }
{
    match read_opt(alloc, bytes) {
        Ok(lines) => opt_back(alloc, &lines, bytes),
        Err(refusal) => of_refusal(alloc, refusal),
    }
}

fn opt_back(alloc: Global, lines: &OptList, bytes: &[u8]) -> Result<String> {
    if !opt_writable(lines) {
        return constant(alloc, "not writable");
    }
    let written = write_opt(alloc, lines)?;
    as_text(alloc, written.as_slice(), bytes)
}

fn opt_text(alloc: Global, lines: &OptList) -> Result<String> {
    let mut text = String::new(alloc);
    for line in lines.as_slice() {
        if !text.is_empty() {
            text.push_str(" / ")?;
        }
        add_line(alloc, &mut text, line)?;
    }
    Ok(text)
}

// Image, volume, path, which of the three breaks begin, and pages.
fn add_line(alloc: Global, text: &mut String, line: &OptLine) -> Result<()> {
    let image = escaped(alloc, line.image.as_str())?;
    let volume = escaped(alloc, line.volume.as_str())?;
    let path = escaped(alloc, line.path.as_str())?;
    let doc = if line.doc_break { "d" } else { "-" };
    let folder = if line.folder_break { "f" } else { "-" };
    let boxed = if line.box_break { "b" } else { "-" };
    let pages = escaped(alloc, line.pages.as_str())?;
    write!(text, "[{image}][{volume}][{path}]")?;
    write!(text, " {doc}{folder}{boxed} [{pages}]")?;
    Ok(())
}
