// Reading the bodies of kept rows.
ghost use Rattle.std.specs.Prelude.{◌≡◌, ◌<◌, ◌≤◌, ◌^◌, length};
ghost use Rattle.bp_matter.specs.Written.{span_of, first_number, last_number};
ghost use Rattle.bp_matter.specs.Reading.{Gives, u8_at, u32_at, u64_at, text_at, characters_at, value_of_byte, one_of, flag_of_byte, basis_of, ink_of, treatment_of_byte, state_at, state_of, role_of, bytes_at, many_at, list_at, value_there, optional_at, rect_at, span_at, prefix_at, entry_fields_at, box_rest_at, box_part_at, held_part_at, word_part_at, item_at, request_at, unit_of_byte, image_left, staff_at, field_at, doc_at, page_at, call_at, box_at, held_at, log_entry_at, prefix_row_at, production_at, batch_at, words_at};

use crate::kept_page::{Frame, KeptPage};
use crate::parts::Part;
use crate::read_fault::ReadFault;
use crate::rows::{
    BatchRow, BoxRow, CallRow, DocBox, DocEntry, DocHeld, DocRow, Entry, FieldRow, HeldRow, Item,
    PageRow, PageWords, PrefixRow, Production, ProductionRow, Request, StaffRow, State,
};
use bp_bates::{Prefix, Span};
use bp_core::{
    Basis, DocNo, Ink, ListOf, OutOfMemory, PageNo, Rect, Role, StaffNo, Text, Treatment,
};
use bp_rows::{Res, Unit};
use bp_text::Word;
use std::alloc::{AllocError, Global};

fn take_u8(bytes: &[u8]) -> Result<(u8, &[u8]), ReadFault>
    ensures { Gives (λ x. (x.0, x.1.now)) result (u8_at bytes.now) }
{
    match bytes {
        [] => Err(ReadFault::Malformed),
        [first, rest @ ..] => Ok((*first, rest)),
    }
}

fn take_u32(bytes: &[u8]) -> Result<(u32, &[u8]), ReadFault>
    ensures { Gives (λ x. (x.0, x.1.now)) result (u32_at bytes.now) }
{
    if bytes.len() < 4 {
        return Err(ReadFault::Malformed);
    }
    let (front, rest) = bytes.split_at(4);
    let number = u32::from_le_bytes([front[0], front[1], front[2], front[3]]);
    Ok((number, rest))
}

fn take_characters(alloc: Global, len: usize, bytes: &[u8]) -> Result<(Text, &[u8]), ReadFault>
    ensures { Gives (λ x. (x.0, x.1.now)) result (characters_at len bytes.now) }
{
    if bytes.len() < len {
        return Err(ReadFault::Malformed);
    }
    let (front, rest) = bytes.split_at(len);
    match str::from_utf8(front) {
        Ok(text) => Ok((Text::from_string(String::from_str(alloc, text)?), rest)),
        Err(_) => Err(ReadFault::Malformed),
    }
}

#[tactic(auto, unfolding(crate::specs::Reading::text_at))]
pub(crate) fn take_text(alloc: Global, bytes: &[u8]) -> Result<(Text, &[u8]), ReadFault>
    ensures { Gives (λ x. (x.0, x.1.now)) result (text_at bytes.now) }
{
    let (len, rest) = take_u32(bytes)?;
    take_characters(alloc, len as usize, rest)
}

fn take_version(bytes: &[u8]) -> Result<((), &[u8]), ReadFault>
    ensures { Gives (λ x. (x.0, x.1.now)) result (value_of_byte one_of bytes.now) }
{
    let (byte, rest) = take_u8(bytes)?;
    if byte == 1 {
        Ok(((), rest))
    } else {
        Err(ReadFault::Malformed)
    }
}

fn take_flag(bytes: &[u8]) -> Result<(bool, &[u8]), ReadFault>
    ensures { Gives (λ x. (x.0, x.1.now)) result (value_of_byte flag_of_byte bytes.now) }
{
    let (byte, rest) = take_u8(bytes)?;
    match byte {
        0 => Ok((false, rest)),
        1 => Ok((true, rest)),
        _ => Err(ReadFault::Malformed),
    }
}

fn take_treatment(bytes: &[u8]) -> Result<(Treatment, &[u8]), ReadFault>
    ensures { Gives (λ x. (x.0, x.1.now)) result (value_of_byte treatment_of_byte bytes.now) }
{
    let (byte, rest) = take_u8(bytes)?;
    match byte {
        0 => Ok((Treatment::Produce, rest)),
        1 => Ok((Treatment::Redact, rest)),
        2 => Ok((Treatment::Withhold(Basis::Ac), rest)),
        3 => Ok((Treatment::Withhold(Basis::Wp), rest)),
        _ => Err(ReadFault::Malformed),
    }
}

fn state_of(number: u8, editor: u32, confirmer: u32) -> Option<State>
    ensures { result ≡ state_of number editor confirmer }
{
    if number == 1 && confirmer == 0 {
        Some(State::First(StaffNo(editor)))
    } else if number == 2 && confirmer != 0 {
        Some(State::Confirmed(StaffNo(editor), StaffNo(confirmer)))
    } else {
        None
    }
}

#[tactic(auto, unfolding(crate::specs::Reading::state_at))]
fn take_state(bytes: &[u8]) -> Result<(State, &[u8]), ReadFault>
    ensures { Gives (λ x. (x.0, x.1.now)) result (state_at bytes.now) }
{
    let (number, rest) = take_u8(bytes)?;
    let (editor, rest) = take_u32(rest)?;
    let (confirmer, rest) = take_u32(rest)?;
    match state_of(number, editor, confirmer) {
        Some(state) => Ok((state, rest)),
        None => Err(ReadFault::Malformed),
    }
}

fn take_u64(bytes: &[u8]) -> Result<(u64, &[u8]), ReadFault>
    ensures { Gives (λ x. (x.0, x.1.now)) result (u64_at bytes.now) }
{
    if bytes.len() < 8 {
        return Err(ReadFault::Malformed);
    }
    let (front, rest) = bytes.split_at(8);
    let number = u64::from_le_bytes([
        front[0], front[1], front[2], front[3], front[4], front[5], front[6], front[7],
    ]);
    Ok((number, rest))
}

// So many values one after the other.
fn take_many<T: Part>(alloc: Global, count: u32, bytes: &[u8]) -> Result<(Vec<T>, &[u8]), ReadFault>
    ensures { Gives (λ x. (x.0.items, x.1.now)) result (many_at T.read_at count bytes.now) }
{
    let mut values = Vec::new(alloc);
    let mut rest = bytes;
    let mut left = count;
    while left > 0 {
        match T::take(alloc, rest) {
            Ok((value, others)) => {
                if let Err(error) = values.push(value) {
                    return Err(AllocError::from(error).into());
                }
                rest = others;
            }
            Err(fault) => return Err(fault),
        }
        left -= 1;
    }
    Ok((values, rest))
}

// A list. Its count is never trusted with memory.
fn take_list<T: Part>(alloc: Global, bytes: &[u8]) -> Result<(ListOf<T>, &[u8]), ReadFault>
    ensures { Gives (λ x. (x.0, x.1.now)) result (list_at T.read_at bytes.now) }
{
    let (count, rest) = take_u32(bytes)?;
    let (values, rest) = take_many(alloc, count, rest)?;
    Ok((ListOf::from_vec(values), rest))
}

#[tactic(auto, unfolding(crate::specs::Reading::optional_at))]
fn take_entry_if(alloc: Global, bytes: &[u8]) -> Result<(Option<Entry>, &[u8]), ReadFault>
    ensures { Gives (λ x. (x.0, x.1.now)) result (optional_at entry_fields_at bytes.now) }
{
    let (there, rest) = take_flag(bytes)?;
    if there {
        let (entry, rest) = take_entry_fields(alloc, rest)?;
        Ok((Some(entry), rest))
    } else {
        Ok((None, rest))
    }
}

#[tactic(auto, unfolding(crate::specs::Reading::rect_at))]
fn take_rect(bytes: &[u8]) -> Result<(Rect, &[u8]), ReadFault>
    ensures { Gives (λ x. (x.0, x.1.now)) result (rect_at bytes.now) }
{
    let (left, rest) = take_u32(bytes)?;
    let (top, rest) = take_u32(rest)?;
    let (width, rest) = take_u32(rest)?;
    let (height, rest) = take_u32(rest)?;
    let row = Rect {
        left,
        top,
        width,
        height,
    };
    Ok((row, rest))
}

#[tactic(auto, unfolding(crate::specs::Reading::span_at))]
fn take_span(bytes: &[u8]) -> Result<(Span, &[u8]), ReadFault>
    ensures { Gives (λ x. (x.0, x.1.now)) result (span_at bytes.now) }
{
    let (first, rest) = take_u64(bytes)?;
    let (last, rest) = take_u64(rest)?;
    Ok((Span { first, last }, rest))
}

#[tactic(auto, unfolding(crate::specs::Reading::prefix_at))]
fn take_prefix_part(alloc: Global, bytes: &[u8]) -> Result<(Prefix, &[u8]), ReadFault>
    ensures { Gives (λ x. (x.0, x.1.now)) result (prefix_at bytes.now) }
{
    let (text, rest) = take_text(alloc, bytes)?;
    let (width, rest) = take_u8(rest)?;
    Ok((Prefix { text, width }, rest))
}

#[tactic(auto, unfolding(crate::specs::Reading::entry_fields_at))]
fn take_entry_fields(alloc: Global, bytes: &[u8]) -> Result<(Entry, &[u8]), ReadFault>
    ensures { Gives (λ x. (x.0, x.1.now)) result (entry_fields_at bytes.now) }
{
    let (date, rest) = take_text(alloc, bytes)?;
    let (author, rest) = take_text(alloc, rest)?;
    let (recipients, rest) = take_text(alloc, rest)?;
    let (description, rest) = take_text(alloc, rest)?;
    let row = Entry {
        date,
        author,
        recipients,
        description,
    };
    Ok((row, rest))
}

#[tactic(auto, unfolding(crate::specs::Reading::box_rest_at))]
fn take_box_rest(num: u32, bytes: &[u8]) -> Result<(BoxRow, &[u8]), ReadFault>
    ensures { Gives (λ x. (x.0, x.1.now)) result (box_rest_at num bytes.now) }
{
    let (page, rest) = take_u32(bytes)?;
    let (rect, rest) = take_rect(rest)?;
    let (basis, rest) = take_basis(rest)?;
    let row = BoxRow {
        num,
        page: PageNo(page),
        rect,
        basis,
    };
    Ok((row, rest))
}

#[tactic(auto, unfolding(crate::specs::Reading::box_part_at))]
pub(crate) fn take_box_part(bytes: &[u8]) -> Result<(BoxRow, &[u8]), ReadFault>
    ensures { Gives (λ x. (x.0, x.1.now)) result (box_part_at bytes.now) }
{
    let (num, rest) = take_u32(bytes)?;
    take_box_rest(num, rest)
}

#[tactic(auto, unfolding(crate::specs::Reading::held_part_at))]
pub(crate) fn take_held_part(bytes: &[u8]) -> Result<(HeldRow, &[u8]), ReadFault>
    ensures { Gives (λ x. (x.0, x.1.now)) result (held_part_at bytes.now) }
{
    let (field, rest) = take_u32(bytes)?;
    let (basis, rest) = take_basis(rest)?;
    Ok((HeldRow { field, basis }, rest))
}

#[tactic(auto, unfolding(crate::specs::Reading::word_part_at))]
pub(crate) fn take_word_part(alloc: Global, bytes: &[u8]) -> Result<(Word, &[u8]), ReadFault>
    ensures { Gives (λ x. (x.0, x.1.now)) result (word_part_at bytes.now) }
{
    let (line, rest) = take_u32(bytes)?;
    let (rect, rest) = take_rect(rest)?;
    let (text, rest) = take_text(alloc, rest)?;
    Ok((Word { line, rect, text }, rest))
}

#[tactic(auto, unfolding(crate::specs::Reading::item_at))]
pub(crate) fn take_item(alloc: Global, bytes: &[u8]) -> Result<(Item, &[u8]), ReadFault>
    ensures { Gives (λ x. (x.0, x.1.now)) result (item_at bytes.now) }
{
    let (doc, rest) = take_u32(bytes)?;
    let (parent, rest) = take_u32(rest)?;
    let (treatment, rest) = take_treatment(rest)?;
    let (boxes, rest) = take_list(alloc, rest)?;
    let (held, rest) = take_list(alloc, rest)?;
    let (entry, rest) = take_entry_if(alloc, rest)?;
    let (designation, rest) = take_text(alloc, rest)?;
    let (span, rest) = take_span(rest)?;
    let row = Item {
        doc: DocNo(doc),
        parent: DocNo(parent),
        treatment,
        boxes,
        held,
        entry,
        designation,
        span,
    };
    Ok((row, rest))
}

#[tactic(auto, unfolding(crate::specs::Reading::request_at))]
fn take_request(alloc: Global, bytes: &[u8]) -> Result<(Request, &[u8]), ReadFault>
    ensures { Gives (λ x. (x.0, x.1.now)) result (request_at bytes.now) }
{
    let (id, rest) = take_text(alloc, bytes)?;
    let (volume, rest) = take_text(alloc, rest)?;
    let (prefix, rest) = take_prefix_part(alloc, rest)?;
    let (from, rest) = take_u32(rest)?;
    let (to, rest) = take_u32(rest)?;
    let (fields, rest) = take_list(alloc, rest)?;
    let row = Request {
        id,
        volume,
        prefix,
        from: DocNo(from),
        to: DocNo(to),
        fields,
    };
    Ok((row, rest))
}

fn take_role(bytes: &[u8]) -> Result<(Role, &[u8]), ReadFault>
    ensures { Gives (λ x. (x.0, x.1.now)) result (value_of_byte role_of bytes.now) }
{
    let (byte, rest) = take_u8(bytes)?;
    match byte {
        0 => Ok((Role::Reviewer, rest)),
        1 => Ok((Role::Second, rest)),
        2 => Ok((Role::Lead, rest)),
        3 => Ok((Role::Clerk, rest)),
        4 => Ok((Role::Receiver, rest)),
        _ => Err(ReadFault::Malformed),
    }
}

fn take_basis(bytes: &[u8]) -> Result<(Basis, &[u8]), ReadFault>
    ensures { Gives (λ x. (x.0, x.1.now)) result (value_of_byte basis_of bytes.now) }
{
    let (byte, rest) = take_u8(bytes)?;
    match byte {
        0 => Ok((Basis::Ac, rest)),
        1 => Ok((Basis::Wp, rest)),
        2 => Ok((Basis::Pi, rest)),
        3 => Ok((Basis::Ts, rest)),
        _ => Err(ReadFault::Malformed),
    }
}

fn take_ink(bytes: &[u8]) -> Result<(Ink, &[u8]), ReadFault>
    ensures { Gives (λ x. (x.0, x.1.now)) result (value_of_byte ink_of bytes.now) }
{
    let (byte, rest) = take_u8(bytes)?;
    match byte {
        1 => Ok((Ink::Black, rest)),
        2 => Ok((Ink::Lettered, rest)),
        _ => Err(ReadFault::Malformed),
    }
}

fn take_digest(bytes: &[u8]) -> Result<([u8; 32], &[u8]), ReadFault>
    ensures { Gives (λ x. (x.0, x.1.now)) result (bytes_at 32 bytes.now) }
{
    if bytes.len() < 32 {
        return Err(ReadFault::Malformed);
    }
    let (front, rest) = bytes.split_at(32);
    let mut digest = [0; 32];
    digest.copy_from_slice(front);
    Ok((digest, rest))
}

#[tactic(auto, unfolding(crate::specs::Reading::staff_at))]
pub(crate) fn take_staff(
    alloc: Global,
    staff: u32,
    bytes: &[u8],
) -> Result<(StaffRow, &[u8]), ReadFault>
    ensures { Gives (λ x. (x.0, x.1.now)) result (staff_at staff bytes.now) }
{
    let (_version, rest) = take_version(bytes)?;
    let (role, rest) = take_role(rest)?;
    let (digest, rest) = take_digest(rest)?;
    let (name, rest) = take_text(alloc, rest)?;
    let row = StaffRow {
        staff: StaffNo(staff),
        role,
        digest,
        name,
    };
    Ok((row, rest))
}

#[tactic(auto, unfolding(crate::specs::Reading::field_at))]
pub(crate) fn take_field(
    alloc: Global,
    field: u32,
    bytes: &[u8],
) -> Result<(FieldRow, &[u8]), ReadFault>
    ensures { Gives (λ x. (x.0, x.1.now)) result (field_at field bytes.now) }
{
    let (_version, rest) = take_version(bytes)?;
    let (name, rest) = take_text(alloc, rest)?;
    Ok((FieldRow { field, name }, rest))
}

#[tactic(auto, unfolding(crate::specs::Reading::doc_at))]
pub(crate) fn take_doc(alloc: Global, doc: u32, bytes: &[u8]) -> Result<(DocRow, &[u8]), ReadFault>
    ensures { Gives (λ x. (x.0, x.1.now)) result (doc_at doc bytes.now) }
{
    let (_version, rest) = take_version(bytes)?;
    let (parent, rest) = take_u32(rest)?;
    let (pages, rest) = take_u32(rest)?;
    let (batch, rest) = take_u32(rest)?;
    let (id, rest) = take_text(alloc, rest)?;
    let (values, rest) = take_list(alloc, rest)?;
    let row = DocRow {
        doc: DocNo(doc),
        parent: DocNo(parent),
        pages,
        batch,
        id,
        values,
    };
    Ok((row, rest))
}

fn take_unit(bytes: &[u8]) -> Result<(Unit, &[u8]), ReadFault>
    ensures { Gives (λ x. (x.0, x.1.now)) result (value_of_byte unit_of_byte bytes.now) }
{
    let (byte, rest) = take_u8(bytes)?;
    match byte {
        1 => Ok((Unit::None, rest)),
        2 => Ok((Unit::Inch, rest)),
        3 => Ok((Unit::Centimetre, rest)),
        _ => Err(ReadFault::Malformed),
    }
}

#[tactic(auto, unfolding(crate::specs::Reading::image_left))]
fn take_image(alloc: Global, bytes: &[u8]) -> Result<KeptPage, ReadFault>
    ensures { Gives (λ x. x) result (image_left bytes.now) }
{
    let (width, rest) = take_u32(bytes)?;
    let (height, rest) = take_u32(rest)?;
    let (xres_num, rest) = take_u32(rest)?;
    let (xres_den, rest) = take_u32(rest)?;
    let (yres_num, rest) = take_u32(rest)?;
    let (yres_den, rest) = take_u32(rest)?;
    let (unit, rest) = take_unit(rest)?;
    let frame = Frame {
        width,
        height,
        xres: Res {
            num: xres_num,
            den: xres_den,
        },
        yres: Res {
            num: yres_num,
            den: yres_den,
        },
        unit,
    };
    KeptPage::read(alloc, frame, rest)
}

#[tactic(auto, unfolding(crate::specs::Reading::page_at))]
pub(crate) fn take_page(
    alloc: Global,
    doc: u32,
    page: u32,
    bytes: &[u8],
) -> Result<PageRow, ReadFault>
    ensures { Gives (λ x. x) result (page_at doc page bytes.now) }
{
    let (_version, rest) = take_version(bytes)?;
    let image = take_image(alloc, rest)?;
    Ok(PageRow {
        doc: DocNo(doc),
        page: PageNo(page),
        image,
    })
}

#[tactic(auto, unfolding(crate::specs::Reading::call_at))]
pub(crate) fn take_call(
    alloc: Global,
    doc: u32,
    bytes: &[u8],
) -> Result<(CallRow, &[u8]), ReadFault>
    ensures { Gives (λ x. (x.0, x.1.now)) result (call_at doc bytes.now) }
{
    let (_version, rest) = take_version(bytes)?;
    let (state, rest) = take_state(rest)?;
    let (responsive, rest) = take_flag(rest)?;
    let (treatment, rest) = take_treatment(rest)?;
    let (designation, rest) = take_text(alloc, rest)?;
    let row = CallRow {
        doc: DocNo(doc),
        state,
        responsive,
        treatment,
        designation,
    };
    Ok((row, rest))
}

#[tactic(auto, unfolding(crate::specs::Reading::box_at))]
pub(crate) fn take_box(doc: u32, num: u32, bytes: &[u8]) -> Result<(DocBox, &[u8]), ReadFault>
    ensures { Gives (λ x. (x.0, x.1.now)) result (box_at doc num bytes.now) }
{
    let (_version, rest) = take_version(bytes)?;
    let (row, rest) = take_box_rest(num, rest)?;
    let doc = DocNo(doc);
    Ok((DocBox { doc, row }, rest))
}

#[tactic(auto, unfolding(crate::specs::Reading::held_at))]
pub(crate) fn take_held(doc: u32, field: u32, bytes: &[u8]) -> Result<(DocHeld, &[u8]), ReadFault>
    ensures { Gives (λ x. (x.0, x.1.now)) result (held_at doc field bytes.now) }
{
    let (_version, rest) = take_version(bytes)?;
    let (basis, rest) = take_basis(rest)?;
    let doc = DocNo(doc);
    let row = HeldRow { field, basis };
    Ok((DocHeld { doc, row }, rest))
}

#[tactic(auto, unfolding(crate::specs::Reading::log_entry_at))]
pub(crate) fn take_entry(
    alloc: Global,
    doc: u32,
    bytes: &[u8],
) -> Result<(DocEntry, &[u8]), ReadFault>
    ensures { Gives (λ x. (x.0, x.1.now)) result (log_entry_at doc bytes.now) }
{
    let (_version, rest) = take_version(bytes)?;
    let (entry, rest) = take_entry_fields(alloc, rest)?;
    let doc = DocNo(doc);
    Ok((DocEntry { doc, entry }, rest))
}

#[tactic(auto, unfolding(crate::specs::Reading::prefix_row_at))]
pub(crate) fn take_prefix(
    alloc: Global,
    num: u32,
    bytes: &[u8],
) -> Result<(PrefixRow, &[u8]), ReadFault>
    ensures { Gives (λ x. (x.0, x.1.now)) result (prefix_row_at num bytes.now) }
{
    let (_version, rest) = take_version(bytes)?;
    let (width, rest) = take_u8(rest)?;
    let (next, rest) = take_u64(rest)?;
    let (text, rest) = take_text(alloc, rest)?;
    let prefix = Prefix { text, width };
    Ok((PrefixRow { num, prefix, next }, rest))
}

fn last_number(items: &[Item]) -> u64
    ensures { result ≡ last_number 0 items.now }
{
    let mut last = 0;
    for item in items {
        last = item.span.last;
    }
    last
}

fn first_number(items: &[Item]) -> u64
    ensures { result ≡ first_number items.now }
{
    match items {
        [] => 0,
        [first, ..] => first.span.first,
    }
}

fn span_of(items: &[Item]) -> Span
    ensures { result ≡ span_of items.now }
{
    Span {
        first: first_number(items),
        last: last_number(items),
    }
}

#[tactic(auto, unfolding(crate::specs::Reading::production_at))]
pub(crate) fn take_production(
    alloc: Global,
    num: u32,
    bytes: &[u8],
) -> Result<(ProductionRow, &[u8]), ReadFault>
    ensures { Gives (λ x. (x.0, x.1.now)) result (production_at num bytes.now) }
{
    let (ink, rest) = take_ink(bytes)?;
    let (request, rest) = take_request(alloc, rest)?;
    let (items, rest) = take_list(alloc, rest)?;
    let span = span_of(items.as_slice());
    let production = Production {
        ink,
        request,
        items,
        span,
    };
    Ok((ProductionRow { num, production }, rest))
}

#[tactic(auto, unfolding(crate::specs::Reading::batch_at))]
pub(crate) fn take_batch(
    alloc: Global,
    num: u32,
    bytes: &[u8],
) -> Result<(BatchRow, &[u8]), ReadFault>
    ensures { Gives (λ x. (x.0, x.1.now)) result (batch_at num bytes.now) }
{
    let (_version, rest) = take_version(bytes)?;
    let (digest, rest) = take_digest(rest)?;
    let (documents, rest) = take_u32(rest)?;
    let (pages, rest) = take_u32(rest)?;
    let (name, rest) = take_text(alloc, rest)?;
    let row = BatchRow {
        num,
        digest,
        documents,
        pages,
        name,
    };
    Ok((row, rest))
}

#[tactic(auto, unfolding(crate::specs::Reading::words_at))]
pub(crate) fn take_words(
    alloc: Global,
    doc: u32,
    page: u32,
    bytes: &[u8],
) -> Result<(PageWords, &[u8]), ReadFault>
    ensures { Gives (λ x. (x.0, x.1.now)) result (words_at doc page bytes.now) }
{
    let (_version, rest) = take_version(bytes)?;
    let (words, rest) = take_list(alloc, rest)?;
    let row = PageWords {
        doc: DocNo(doc),
        page: PageNo(page),
        words,
    };
    Ok((row, rest))
}
