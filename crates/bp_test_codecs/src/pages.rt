// Pages: made, drawn on, burned and written. A unit is `none`, `inch` or `centimetre`, a rectangle LEFT
// TOP WIDTH HEIGHT, an ink `black` or `lettered`, a stamp a rectangle and its ground. The lines that make a page tell nothing, or why none is made.
//
//     page white WIDTH HEIGHT ACROSS DOWN UNIT         a white page; a resolution is NUMERATOR DENOMINATOR
//     page strip WIDTH HEIGHT HEX..                    the page that this strip of packed rows is
//     page packed WIDTH HEIGHT HEX..                   the same, whatever the unused bits are
//     page coded WIDTH HEIGHT FILL HEX..               the page of a strip of codes (ITU-T T.6), whole and
//                                                      a row at a time
//     page black ROW FROM TO / paint ROW FROM TO / box RECTANGLE / set ROW COLUMN YES_OR_NO
//     page burn RECTANGLE.. / row ROW RECTANGLE..
//     page produced INK LABEL DESIGNATION STAMP..
//     page strip_produced INK LABEL DESIGNATION STAMP..    whether its strip of codes is the same where it
//                                                      is made of the page's strip a row at a time
//     page slip GROUND LABEL DESIGNATION
//     page strip_slip GROUND LABEL DESIGNATION     whether its strip of codes is the same where only the
//                                                      rows of its texts are drawn
//     page file        the page of the file at hand
//     page sides       width, height, resolutions across and down, and unit
//     page rows        its strip
//     page get ROW COLUMN / count / runs ROW COUNT / changes ROW
//     page codes       its strip of codes
//     page again       whether the page of its strip of codes has its rows
//     page written FORM CHANGES    whether its file is the one at hand with these changes
ghost use Rattle.std.specs.Prelude.{IsTrue};
ghost use Rattle.bp_rows.specs.Limits.{sides_are_imported};
ghost use Rattle.bp_burn.specs.Drawn.{has_glyphs};

use crate::codes::fill_of;
use crate::files::File;
use crate::strips::is_told_by_rows;
use crate::told::{constant, of_numbers, of_refusal, unread, yes_or_no};
use anyhow::Result;
use bp_burn::{burn, burn_row, has_glyphs, produced, produced_strip, slip_page, slip_strip};
use bp_codes::Fill;
use bp_core::{Bytes, Ink, ListOf, RectList, Refusal, Stamp, StampList, Text};
use bp_rows::{Page, Res, Runs, Unit, allowed_sides, bytes_of_strip, import_sides};
use bp_t6::{code_page, read_strip};
use bp_test_words::{Words, hex_words};
use bp_tiff::{Form, read_tiff, write_tiff};
use std::alloc::Global;

const DOTS: Res = Res { num: 200, den: 1 };

pub fn told(alloc: Global, page: &mut Page, file: &File, words: &mut Words) -> Result<String> {
    match words.word() {
        "white" => white(alloc, page, words),
        "strip" => strip(alloc, page, words),
        "packed" => packed(alloc, page, words),
        "coded" => coded(alloc, page, words),
        "produced" => produce(alloc, page, words),
        "strip_produced" => produce_strip(alloc, page, words),
        "slip" => slip(alloc, page, words),
        "strip_slip" => slip_strips_agree(alloc, words),
        "burn" => burn_boxes(alloc, page, words),
        "written" => written(alloc, page, file, words),
        "file" => put(alloc, page, read_tiff(alloc, file.as_slice())),
        "sides" => sides(alloc, page),
        "rows" => hex_words(alloc, page.strip()),
        "codes" => hex_words(alloc, code_page(alloc, page)?.as_slice()),
        "again" => again(alloc, page),
        "count" => count(alloc, page),
        "get" => get(alloc, page, words),
        "runs" => runs(alloc, page, words),
        "changes" => changes(alloc, page, words),
        verb => draw(alloc, page, verb, words),
    }
}

// The answer in place of the page, where it is one.
fn put(alloc: Global, page: &mut Page, answer: Result<Page, Refusal>) -> Result<String> {
    match answer {
        Ok(made) => *page = made,
        Err(refusal) => return of_refusal(alloc, refusal),
    }
    constant(alloc, "")
}

fn unit_of(words: &mut Words) -> Unit {
    match words.word() {
        "none" => Unit::None,
        "inch" => Unit::Inch,
        "centimetre" => Unit::Centimetre,
        _ => {
            words.refuse();
            Unit::None
        }
    }
}

fn res_of(words: &mut Words) -> Res {
    let num = words.number();
    let den = words.number();
    Res { num, den }
}

fn white(alloc: Global, page: &mut Page, words: &mut Words) -> Result<String> {
    let (width, height) = (words.number(), words.number());
    let (xres, yres) = (res_of(words), res_of(words));
    let unit = unit_of(words);
    if words.is_read() {
        put(
            alloc,
            page,
            Page::white(alloc, width, height, xres, yres, unit),
        )
    } else {
        unread(alloc)
    }
}

fn strip(alloc: Global, page: &mut Page, words: &mut Words) -> Result<String> {
    let (width, height) = (words.number(), words.number());
    let mut bytes = Vec::new(alloc);
    words.add_bytes(&mut bytes);
    if !words.is_read() {
        return unread(alloc);
    }
    match Page::from_strip(width, height, DOTS, DOTS, Unit::Inch, bytes) {
        Ok(made) => *page = made,
        Err(fault) => return Ok(format!(in alloc; "{fault}")?),
    }
    constant(alloc, "")
}

fn packed(alloc: Global, page: &mut Page, words: &mut Words) -> Result<String> {
    let (width, height) = (words.number(), words.number());
    let mut bytes = Vec::new(alloc);
    words.add_bytes(&mut bytes);
    let is_read = words.is_read() && allowed_sides(width, height);
    if is_read && bytes.len() == bytes_of_strip(width, height) {
        *page = Page::of_packed(width, height, DOTS, DOTS, Unit::Inch, bytes);
        constant(alloc, "")
    } else {
        unread(alloc)
    }
}

fn coded(alloc: Global, page: &mut Page, words: &mut Words) -> Result<String> {
    let (width, height) = (words.number(), words.number());
    let fill = fill_of(words);
    let mut bytes = Vec::new(alloc);
    words.add_bytes(&mut bytes);
    if !words.is_read() || bytes.len() >= 1_000_000 {
        return unread(alloc);
    }
    let told = put(alloc, page, read_strip(alloc, &bytes, fill, width, height))?;
    let sides = (width, height);
    if is_told_by_rows(alloc, &bytes, fill, page, sides, told.as_str())? {
        Ok(told)
    } else {
        constant(alloc, "the two readers differ")
    }
}

// The rectangles of all words that are left.
fn rects_of(alloc: Global, words: &mut Words) -> Result<RectList> {
    let mut rects = Vec::new(alloc);
    for _ in 0..words.count() / 4 {
        rects.push(words.rect())?;
    }
    Ok(ListOf::from_vec(rects))
}

fn burn_boxes(alloc: Global, page: &mut Page, words: &mut Words) -> Result<String> {
    let boxes = rects_of(alloc, words)?;
    if !words.is_read() {
        return unread(alloc);
    }
    *page = burn(alloc, page, &boxes)?;
    constant(alloc, "")
}

pub fn ink_of(words: &mut Words) -> Ink {
    match words.word() {
        "black" => Ink::Black,
        "lettered" => Ink::Lettered,
        _ => {
            words.refuse();
            Ink::Black
        }
    }
}

// The stamps of all words that are left.
pub fn stamps_of(alloc: Global, words: &mut Words) -> Result<StampList> {
    let mut stamps = Vec::new(alloc);
    for _ in 0..words.count() / 5 {
        let rect = words.rect();
        let basis = words.basis();
        stamps.push(Stamp { rect, basis })?;
    }
    Ok(ListOf::from_vec(stamps))
}

fn produce(alloc: Global, page: &mut Page, words: &mut Words) -> Result<String> {
    let ink = ink_of(words);
    let label = words.text();
    let designation = words.text();
    let stamps = stamps_of(alloc, words)?;
    let drawable = has_glyphs(&label) && has_glyphs(&designation);
    if words.is_read() && drawable && import_sides(page.width(), page.height()) {
        *page = produced(alloc, ink, page, &stamps, &label, &designation)?;
        constant(alloc, "")
    } else {
        unread(alloc)
    }
}

fn produce_strip(alloc: Global, page: &Page, words: &mut Words) -> Result<String> {
    let ink = ink_of(words);
    let label = words.text();
    let designation = words.text();
    let stamps = stamps_of(alloc, words)?;
    let drawable = has_glyphs(&label) && has_glyphs(&designation);
    if words.is_read() && drawable && import_sides(page.width(), page.height()) {
        strips_agree(alloc, ink, page, &stamps, &label, &designation)
    } else {
        unread(alloc)
    }
}

fn strips_agree(
    alloc: Global,
    ink: Ink,
    page: &Page,
    stamps: &StampList,
    label: &Text,
    designation: &Text,
) -> Result<String>
    requires sides { IsTrue (sides_are_imported page.now.width page.now.height) }
    requires label { IsTrue (has_glyphs label.now) }
    requires designation { IsTrue (has_glyphs designation.now) }
{
    let wanted = strip_of_whole(alloc, ink, page, stamps, label, designation)?;
    let made = strip_of_strip(alloc, ink, page, stamps, label, designation)?;
    yes_or_no(alloc, made == wanted)
}

// The strip of the page that goes out.
fn strip_of_whole(
    alloc: Global,
    ink: Ink,
    page: &Page,
    stamps: &StampList,
    label: &Text,
    designation: &Text,
) -> Result<Bytes>
    requires sides { IsTrue (sides_are_imported page.now.width page.now.height) }
    requires label { IsTrue (has_glyphs label.now) }
    requires designation { IsTrue (has_glyphs designation.now) }
{
    let whole = produced(alloc, ink, page, stamps, label, designation)?;
    Ok(code_page(alloc, &whole)?)
}

// The same, made of the page's strip a row at a time.
fn strip_of_strip(
    alloc: Global,
    ink: Ink,
    page: &Page,
    stamps: &StampList,
    label: &Text,
    designation: &Text,
) -> Result<Bytes>
    requires sides { IsTrue (sides_are_imported page.now.width page.now.height) }
    requires label { IsTrue (has_glyphs label.now) }
    requires designation { IsTrue (has_glyphs designation.now) }
{
    let strip = code_page(alloc, page)?;
    let (width, height) = (page.width(), page.height());
    let strip = strip.as_slice();
    Ok(produced_strip(alloc, ink, strip, width, height, stamps, label, designation)?)
}

fn slip(alloc: Global, page: &mut Page, words: &mut Words) -> Result<String> {
    let basis = words.basis();
    let label = words.text();
    let designation = words.text();
    if words.is_read() && has_glyphs(&label) && has_glyphs(&designation) {
        *page = slip_page(alloc, basis, &label, &designation)?;
        constant(alloc, "")
    } else {
        unread(alloc)
    }
}

fn slip_strips_agree(alloc: Global, words: &mut Words) -> Result<String> {
    let basis = words.basis();
    let label = words.text();
    let designation = words.text();
    if words.is_read() && has_glyphs(&label) && has_glyphs(&designation) {
        let whole = slip_page(alloc, basis, &label, &designation)?;
        let wanted = code_page(alloc, &whole)?;
        let made = slip_strip(alloc, basis, &label, &designation)?;
        yes_or_no(alloc, made == wanted)
    } else {
        unread(alloc)
    }
}

// The lines that draw on a page in place.
fn draw(alloc: Global, page: &mut Page, verb: &str, words: &mut Words) -> Result<String> {
    let is_drawn = match verb {
        "black" => black(page, words),
        "paint" => paint(alloc, page, words)?,
        "box" => blacken_box(page, words),
        "set" => set(page, words),
        "row" => burn_one(alloc, page, words)?,
        _ => false,
    };
    constant(alloc, if is_drawn { "" } else { "not read" })
}

fn black(page: &mut Page, words: &mut Words) -> bool {
    let (row, from, to) = (words.number(), words.number(), words.number());
    let is_drawn = words.is_read() && row < page.height() && from <= to && to <= page.width();
    if is_drawn {
        page.blacken(row, from, to);
    }
    is_drawn
}

fn paint(alloc: Global, page: &mut Page, words: &mut Words) -> Result<bool> {
    let (row, from, to) = (words.number(), words.number(), words.number());
    let width = page.width();
    let is_drawn = words.is_read() && row < page.height() && from <= to && to <= width;
    if is_drawn {
        let runs = Runs::from_vec(vec![in alloc; from, to - from, width - to]?);
        page.set_runs(row, &runs);
    }
    Ok(is_drawn)
}

fn blacken_box(page: &mut Page, words: &mut Words) -> bool {
    let area = words.rect();
    let is_drawn = words.is_read() && area.inside(page.width(), page.height());
    if is_drawn {
        page.blacken_box(&area);
    }
    is_drawn
}

fn set(page: &mut Page, words: &mut Words) -> bool {
    let (row, column) = (words.number(), words.number());
    let is_black = words.yes_or_no();
    let is_drawn = words.is_read() && row < page.height() && column < page.width();
    if is_drawn {
        page.set(row, column, is_black);
    }
    is_drawn
}

fn burn_one(alloc: Global, page: &mut Page, words: &mut Words) -> Result<bool> {
    let row = words.number();
    let boxes = rects_of(alloc, words)?;
    let is_drawn = words.is_read() && row < page.height();
    if is_drawn {
        burn_row(page, row, &boxes);
    }
    Ok(is_drawn)
}

fn written(alloc: Global, page: &Page, file: &File, words: &mut Words) -> Result<String> {
    let form = match words.word() {
        "plain" => Form::Plain,
        _ => Form::G4,
    };
    let wanted = file.changed(alloc, words)?;
    let bytes = write_tiff(alloc, form, page)?;
    if words.is_read() {
        yes_or_no(alloc, bytes.as_slice() == wanted.as_slice())
    } else {
        unread(alloc)
    }
}

fn again(alloc: Global, page: &Page) -> Result<String> {
    let strip = code_page(alloc, page)?;
    match read_strip(
        alloc,
        strip.as_slice(),
        Fill::High,
        page.width(),
        page.height(),
    ) {
        Ok(read) => yes_or_no(alloc, read.strip() == page.strip()),
        Err(refusal) => of_refusal(alloc, refusal),
    }
}

/// Sides, resolutions and unit, and the strip of a page.
pub fn shown(alloc: Global, page: &Page) -> Result<String> {
    let sides = sides(alloc, page)?;
    let rows = hex_words(alloc, page.strip())?;
    Ok(format!(in alloc; "{sides} {rows}")?)
}

fn sides(alloc: Global, page: &Page) -> Result<String> {
    let (width, height) = (page.width(), page.height());
    let (xres, yres) = (page.xres(), page.yres());
    let across = res_text(alloc, xres)?;
    let down = res_text(alloc, yres)?;
    let unit = match page.unit() {
        Unit::None => "none",
        Unit::Inch => "inch",
        Unit::Centimetre => "centimetre",
    };
    let resolutions = format!(in alloc; "{across} {down} {unit}")?;
    Ok(format!(in alloc; "{width} {height} {resolutions}")?)
}

fn res_text(alloc: Global, res: Res) -> Result<String> {
    let (num, den) = (res.num, res.den);
    Ok(format!(in alloc; "{num}/{den}")?)
}

fn get(alloc: Global, page: &Page, words: &mut Words) -> Result<String> {
    let (row, column) = (words.number(), words.number());
    if words.is_read() && row < page.height() && column < page.width() {
        yes_or_no(alloc, page.get(row, column))
    } else {
        unread(alloc)
    }
}

fn count(alloc: Global, page: &Page) -> Result<String> {
    let mut count = 0u32;
    for byte in page.strip() {
        count = count.saturating_add(byte.count_ones());
    }
    Ok(format!(in alloc; "{count}")?)
}

// The first so many runs of a row, white first.
fn runs(alloc: Global, page: &Page, words: &mut Words) -> Result<String> {
    let row = words.number();
    let most = words.number() as usize;
    if !words.is_read() || row >= page.height() {
        return unread(alloc);
    }
    let runs = page.row_runs(alloc, row)?;
    let runs = runs.as_slice();
    of_numbers(alloc, &runs[..most.min(runs.len())])
}

fn changes(alloc: Global, page: &Page, words: &mut Words) -> Result<String> {
    let row = words.number();
    if !words.is_read() || row >= page.height() {
        return unread(alloc);
    }
    let mut places = Vec::new(alloc);
    page.row_changes(row, &mut places)?;
    of_numbers(alloc, &places)
}
