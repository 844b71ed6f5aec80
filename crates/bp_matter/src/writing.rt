// Writing the bodies of kept rows.
ghost use Rattle.std.specs.Prelude.{◌≡◌, ◌<◌, ◌^◌, ◌++◌, ◌&&◌, length, OnOk, IsTrue, encode_utf8_all};
ghost use Rattle.std.specs.Str.{all_scalars};
ghost use Rattle.std.specs.List.{list_all, flat_map};
ghost use Rattle.bp_matter.specs.Images.{strip, unit_number};
ghost use Rattle.bp_matter.specs.Fields.{byte, word, long_kept, text_kept, list, flag, state, treatment, basis, rect, span, prefix, optional, ink_number, role_number};
ghost use Rattle.bp_matter.specs.Written.{is_word, is_short, are_few, if_there, treatment_written, entry_fields_written, word_written, item_written, request_written, span_written, staff_written, field_written, doc_written, call_written, entry_written, prefix_written, production_written, batch_written, words_written};
ghost use Rattle.bp_matter.specs.Bodies.{entry_part, box_rest, box_part, held_part, word_part, item_part, request_part, staff_body, field_body, doc_body, page_body, call_body, box_body, held_body, entry_body, prefix_body, production_body, batch_body, words_body, image_part};

use crate::kept_page::KeptPage;
use crate::parts::Part;
use crate::rows::{
    BatchRow, BoxRow, CallRow, DocBox, DocEntry, DocHeld, DocRow, Entry, FieldRow, HeldRow, Item,
    PageRow, PageWords, PrefixRow, ProductionRow, Request, StaffRow, State,
};
use bp_bates::{Prefix, Span};
use bp_core::{Basis, Ink, OutOfMemory, Rect, Role, Text, Treatment};
use bp_rows::Unit;
use bp_text::Word;

fn put_u8(out: &mut Vec<u8>, number: u8) -> Result<(), OutOfMemory>
    ensures { OnOk result (out.new.items ≡ out.old.items ++ byte number) }
{
    out.push(number)?;
    Ok(())
}

#[tactic(auto, unfolding(crate::specs::Fields::word))]
fn put_u32(out: &mut Vec<u8>, number: u32) -> Result<(), OutOfMemory>
    ensures { OnOk result (out.new.items ≡ out.old.items ++ word number) }
{
    out.extend_from_slice(&number.to_le_bytes())?;
    Ok(())
}

pub(crate) fn put_text(out: &mut Vec<u8>, characters: &Text) -> Result<(), OutOfMemory>
    requires { length (encode_utf8_all characters.now) < 2 ^ 32 }
    ensures { OnOk result (out.new.items ≡ out.old.items ++ text_kept characters.now) }
{
    put_u32(out, characters.len() as u32)?;
    out.extend_from_slice(characters.as_str().as_bytes())?;
    Ok(())
}

fn put_state(out: &mut Vec<u8>, of: State) -> Result<(), OutOfMemory>
    ensures { OnOk result (out.new.items ≡ out.old.items ++ state of) }
{
    let (number, editor, confirmer) = match of {
        State::Uncalled => (0, 0, 0),
        State::First(editor) => (1, editor.0, 0),
        State::Confirmed(editor, confirmer) => (2, editor.0, confirmer.0),
    };
    put_u8(out, number)?;
    put_u32(out, editor)?;
    put_u32(out, confirmer)
}

fn treatment_number(of: Treatment) -> u8
    ensures { byte result ≡ treatment of }
{
    match of {
        Treatment::Produce => 0,
        Treatment::Redact => 1,
        Treatment::Withhold(Basis::Ac) => 2,
        Treatment::Withhold(Basis::Wp) => 3,
        Treatment::Withhold(_) => 255,
    }
}

#[tactic(auto, unfolding(crate::specs::Fields::long_kept))]
fn put_u64(out: &mut Vec<u8>, number: u64) -> Result<(), OutOfMemory>
    ensures { OnOk result (out.new.items ≡ out.old.items ++ long_kept number) }
{
    out.extend_from_slice(&number.to_le_bytes())?;
    Ok(())
}

fn put_list<T: Part>(out: &mut Vec<u8>, values: &[T]) -> Result<(), OutOfMemory>
    requires { IsTrue (are_few T.is_written values.now) }
    ensures { OnOk result (out.new.items ≡ out.old.items ++ list T.part_of values.now) }
{
    put_u32(out, values.len() as u32)?;
    put_many(out, values)
}

fn put_many<T: Part>(out: &mut Vec<u8>, values: &[T]) -> Result<(), OutOfMemory>
    requires { IsTrue (list_all T.is_written values.now) }
    ensures { OnOk result (out.new.items ≡ out.old.items ++ flat_map T.part_of values.now) }
{
    for value in values {
        value.put(out)?;
    }
    Ok(())
}

fn put_rect(out: &mut Vec<u8>, of: Rect) -> Result<(), OutOfMemory>
    ensures { OnOk result (out.new.items ≡ out.old.items ++ rect of) }
{
    put_u32(out, of.left)?;
    put_u32(out, of.top)?;
    put_u32(out, of.width)?;
    put_u32(out, of.height)
}

fn put_span(out: &mut Vec<u8>, of: Span) -> Result<(), OutOfMemory>
    ensures { OnOk result (out.new.items ≡ out.old.items ++ span of) }
{
    put_u64(out, of.first)?;
    put_u64(out, of.last)
}

fn put_prefix(out: &mut Vec<u8>, of: &Prefix) -> Result<(), OutOfMemory>
    requires { IsTrue (is_short of.now.text) }
    ensures { OnOk result (out.new.items ≡ out.old.items ++ prefix of.now) }
{
    put_text(out, &of.text)?;
    put_u8(out, of.width)
}

fn put_entry_fields(out: &mut Vec<u8>, entry: &Entry) -> Result<(), OutOfMemory>
    requires { IsTrue (entry_fields_written entry.now) }
    ensures { OnOk result (out.new.items ≡ out.old.items ++ entry_part entry.now) }
{
    put_text(out, &entry.date)?;
    put_text(out, &entry.author)?;
    put_text(out, &entry.recipients)?;
    put_text(out, &entry.description)
}

fn put_entry_if(out: &mut Vec<u8>, entry: &Option<Entry>) -> Result<(), OutOfMemory>
    requires { IsTrue (if_there entry_fields_written entry.now) }
    ensures { OnOk result (out.new.items ≡ out.old.items ++ optional entry_part entry.now) }
{
    match entry {
        None => put_u8(out, 0),
        Some(entry) => {
            put_u8(out, 1)?;
            put_entry_fields(out, entry)
        }
    }
}

fn put_box_rest(out: &mut Vec<u8>, row: &BoxRow) -> Result<(), OutOfMemory>
    ensures { OnOk result (out.new.items ≡ out.old.items ++ box_rest row.now) }
{
    put_u32(out, row.page.0)?;
    put_rect(out, row.rect)?;
    put_u8(out, row.basis as u8)
}

pub(crate) fn put_box_part(out: &mut Vec<u8>, row: &BoxRow) -> Result<(), OutOfMemory>
    ensures { OnOk result (out.new.items ≡ out.old.items ++ box_part row.now) }
{
    put_u32(out, row.num)?;
    put_box_rest(out, row)
}

pub(crate) fn put_held_part(out: &mut Vec<u8>, row: &HeldRow) -> Result<(), OutOfMemory>
    ensures { OnOk result (out.new.items ≡ out.old.items ++ held_part row.now) }
{
    put_u32(out, row.field)?;
    put_u8(out, row.basis as u8)
}

pub(crate) fn put_word_part(out: &mut Vec<u8>, of: &Word) -> Result<(), OutOfMemory>
    requires { IsTrue (word_written of.now) }
    ensures { OnOk result (out.new.items ≡ out.old.items ++ word_part of.now) }
{
    put_u32(out, of.line)?;
    put_rect(out, of.rect)?;
    put_text(out, &of.text)
}

fn put_item_end(out: &mut Vec<u8>, item: &Item) -> Result<(), OutOfMemory>
    requires { IsTrue (if_there entry_fields_written item.now.entry
        && (is_short item.now.designation && span_written item.now.span)) }
    ensures { OnOk result (out.new.items ≡ out.old.items
        ++ (optional entry_part item.now.entry
        ++ (text_kept item.now.designation ++ span item.now.span))) }
{
    put_entry_if(out, &item.entry)?;
    put_text(out, &item.designation)?;
    put_span(out, item.span)
}

pub(crate) fn put_item(out: &mut Vec<u8>, item: &Item) -> Result<(), OutOfMemory>
    requires { IsTrue (item_written item.now) }
    ensures { OnOk result (out.new.items ≡ out.old.items ++ item_part item.now) }
{
    put_u32(out, item.doc.0)?;
    put_u32(out, item.parent.0)?;
    put_u8(out, treatment_number(item.treatment))?;
    put_list(out, item.boxes.as_slice())?;
    put_list(out, item.held.as_slice())?;
    put_item_end(out, item)
}

fn put_request(out: &mut Vec<u8>, of: &Request) -> Result<(), OutOfMemory>
    requires { IsTrue (request_written of.now) }
    ensures { OnOk result (out.new.items ≡ out.old.items ++ request_part of.now) }
{
    put_text(out, &of.id)?;
    put_text(out, &of.volume)?;
    put_prefix(out, &of.prefix)?;
    put_u32(out, of.from.0)?;
    put_u32(out, of.to.0)?;
    put_list(out, of.fields.as_slice())
}

fn unit_number(of: Unit) -> u8
    ensures { result ≡ unit_number of }
{
    match of {
        Unit::None => 1,
        Unit::Inch => 2,
        Unit::Centimetre => 3,
    }
}

fn put_image_end(out: &mut Vec<u8>, of: &KeptPage) -> Result<(), OutOfMemory>
    ensures { OnOk result (out.new.items ≡ out.old.items
        ++ (word of.now.yres.num ++ (word of.now.yres.den
        ++ (byte (unit_number of.now.unit) ++ strip of.now)))) }
{
    let frame = of.frame();
    put_u32(out, frame.yres.num)?;
    put_u32(out, frame.yres.den)?;
    put_u8(out, unit_number(frame.unit))?;
    put_strip(out, of)
}

// Adds the strip of a page as it lies.
#[tactic(auto, unfolding(crate::specs::Images::strip))]
fn put_strip(out: &mut Vec<u8>, of: &KeptPage) -> Result<(), OutOfMemory>
    ensures { OnOk result (out.new.items ≡ out.old.items ++ strip of.now) }
{
    put_bytes(out, of.strip())
}

fn put_image(out: &mut Vec<u8>, of: &KeptPage) -> Result<(), OutOfMemory>
    ensures { OnOk result (out.new.items ≡ out.old.items ++ image_part of.now) }
{
    let frame = of.frame();
    put_u32(out, frame.width)?;
    put_u32(out, frame.height)?;
    put_u32(out, frame.xres.num)?;
    put_u32(out, frame.xres.den)?;
    put_image_end(out, of)
}

fn put_bytes(out: &mut Vec<u8>, bytes: &[u8]) -> Result<(), OutOfMemory>
    ensures { OnOk result (out.new.items ≡ out.old.items ++ bytes.now) }
{
    out.extend_from_slice(bytes)?;
    Ok(())
}

fn role_number(of: Role) -> u8
    ensures { result ≡ role_number of }
{
    of as u8
}

// Adds the body of a member of the staff.
pub(crate) fn put_staff_body(out: &mut Vec<u8>, row: &StaffRow) -> Result<(), OutOfMemory>
    requires { IsTrue (staff_written row.now) }
    ensures { OnOk result (out.new.items ≡ out.old.items ++ staff_body row.now) }
{
    put_u8(out, 1)?;
    put_u8(out, role_number(row.role))?;
    put_bytes(out, &row.digest)?;
    put_text(out, &row.name)
}

// Adds the body of a field.
pub(crate) fn put_field_body(out: &mut Vec<u8>, row: &FieldRow) -> Result<(), OutOfMemory>
    requires { IsTrue (field_written row.now) }
    ensures { OnOk result (out.new.items ≡ out.old.items ++ field_body row.now) }
{
    put_u8(out, 1)?;
    put_text(out, &row.name)
}

// Adds the body of a document.
pub(crate) fn put_doc_body(out: &mut Vec<u8>, row: &DocRow) -> Result<(), OutOfMemory>
    requires { IsTrue (doc_written row.now) }
    ensures { OnOk result (out.new.items ≡ out.old.items ++ doc_body row.now) }
{
    put_u8(out, 1)?;
    put_u32(out, row.parent.0)?;
    put_u32(out, row.pages)?;
    put_u32(out, row.batch)?;
    put_text(out, &row.id)?;
    put_list(out, row.values.as_slice())
}

// Adds the body of a page.
pub(crate) fn put_page_body(out: &mut Vec<u8>, row: &PageRow) -> Result<(), OutOfMemory>
    ensures { OnOk result (out.new.items ≡ out.old.items ++ page_body row.now) }
{
    put_u8(out, 1)?;
    put_image(out, &row.image)
}

// Adds the body of a call.
pub fn put_call_body(out: &mut Vec<u8>, row: &CallRow) -> Result<(), OutOfMemory>
    requires { IsTrue (call_written row.now) }
    ensures { OnOk result (out.new.items ≡ out.old.items ++ call_body row.now) }
{
    put_u8(out, 1)?;
    put_state(out, row.state)?;
    put_u8(out, u8::from(row.responsive))?;
    put_u8(out, treatment_number(row.treatment))?;
    put_text(out, &row.designation)
}

// Adds the body of a box.
pub(crate) fn put_box_body(out: &mut Vec<u8>, row: &DocBox) -> Result<(), OutOfMemory>
    ensures { OnOk result (out.new.items ≡ out.old.items ++ box_body row.now) }
{
    put_u8(out, 1)?;
    put_box_rest(out, &row.row)
}

// Adds the body of a held field.
pub(crate) fn put_held_body(out: &mut Vec<u8>, row: &DocHeld) -> Result<(), OutOfMemory>
    ensures { OnOk result (out.new.items ≡ out.old.items ++ held_body row.now) }
{
    put_u8(out, 1)?;
    put_u8(out, row.row.basis as u8)
}

// Adds the body of a log entry.
pub(crate) fn put_entry_body(out: &mut Vec<u8>, row: &DocEntry) -> Result<(), OutOfMemory>
    requires { IsTrue (entry_written row.now) }
    ensures { OnOk result (out.new.items ≡ out.old.items ++ entry_body row.now) }
{
    put_u8(out, 1)?;
    put_entry_fields(out, &row.entry)
}

// Adds the body of a prefix.
pub(crate) fn put_prefix_body(out: &mut Vec<u8>, row: &PrefixRow) -> Result<(), OutOfMemory>
    requires { IsTrue (prefix_written row.now) }
    ensures { OnOk result (out.new.items ≡ out.old.items ++ prefix_body row.now) }
{
    put_u8(out, 1)?;
    put_u8(out, row.prefix.width)?;
    put_u64(out, row.next)?;
    put_text(out, &row.prefix.text)
}

// The version of the body of a production, which tells its ink.
fn ink_number(of: Ink) -> u8
    ensures { result ≡ ink_number of }
{
    match of {
        Ink::Black => 1,
        Ink::Lettered => 2,
    }
}

// Adds the body of a production.
pub(crate) fn put_production_body(out: &mut Vec<u8>, row: &ProductionRow) -> Result<(), OutOfMemory>
    requires { IsTrue (production_written row.now) }
    ensures { OnOk result (out.new.items ≡ out.old.items ++ production_body row.now) }
{
    put_u8(out, ink_number(row.production.ink))?;
    put_request(out, &row.production.request)?;
    put_list(out, row.production.items.as_slice())
}

// Adds the body of a batch.
pub(crate) fn put_batch_body(out: &mut Vec<u8>, row: &BatchRow) -> Result<(), OutOfMemory>
    requires { IsTrue (batch_written row.now) }
    ensures { OnOk result (out.new.items ≡ out.old.items ++ batch_body row.now) }
{
    put_u8(out, 1)?;
    put_bytes(out, &row.digest)?;
    put_u32(out, row.documents)?;
    put_u32(out, row.pages)?;
    put_text(out, &row.name)
}

// Adds the body of the words of a page.
pub(crate) fn put_words_body(out: &mut Vec<u8>, row: &PageWords) -> Result<(), OutOfMemory>
    requires { IsTrue (words_written row.now) }
    ensures { OnOk result (out.new.items ≡ out.old.items ++ words_body row.now) }
{
    put_u8(out, 1)?;
    put_list(out, row.words.as_slice())
}
