// What a volume shows of an item beside its images: its text, and its values of the chosen fields.
ghost use Rattle.std.specs.Prelude.{◌≡◌, ◌≤◌, ◌<◌, ◌+◌, ◌-◌, ◌^◌, IfOk, None, [], encode_utf8_all, length};
ghost use Rattle.std.specs.List.{Contains, flat_map};
ghost use Rattle.std.specs.Option.{option_copied};
ghost use Rattle.bp_core.specs.Review.{basis_code};
ghost use Rattle.bp_text.specs.PageText.{page_text_of};
ghost use Rattle.bp_press.specs.Contents.{ground_of, held_text, kept_text, label_count, pages_of, part_of, value_shown, withheld_text};
ghost use Rattle.bp_press.specs.Shown.{end_before, value_lent, words_left};

use crate::lent::{KeptWords, ShownValue};
use crate::names::add;
use crate::shown::Shows;
use bp_core::{Basis, Bytes, OutOfMemory, PageNo, Text, Treatment};
use bp_matter::{HeldRow, Item, Production};
use bp_text::Word;
use std::alloc::Global;

// The ground on which a whole document is withheld.
pub(crate) fn ground_of(treatment: Treatment) -> Option<Basis>
    ensures { result ≡ ground_of treatment }
{
    match treatment {
        Treatment::Withhold(basis) => Some(basis),
        _ => None,
    }
}

// How many labels an item has.
pub(crate) fn label_count(item: &Item) -> u64
    requires { item.now.span.last + 1 < 2 ^ 64 }
    ensures { result ≡ label_count item.now }
{
    (item.span.last + 1).saturating_sub(item.span.first)
}

// The words of a page which no box touches, as text.
pub(crate) fn kept_text<P: Shows>(
    alloc: Global,
    shown: &P,
    item: &Item,
    page: PageNo,
) -> Result<Text, OutOfMemory>
    requires there { Contains (P.production shown.now).items item.now }
    requires shown { ground_of item.now.treatment ≡ None }
    ensures { IfOk result (λ text. text ≡ kept_text (P.matter shown.now) item.now page.0) }
{
    words_text(alloc, shown.words(item, page))
}

// The text of a page with the words that are lent: each with a space after it where the next word is of
// its line, and CR LF where it isn't and after the last; then a form feed.
fn words_text(alloc: Global, lent: KeptWords<'_>) -> Result<Text, OutOfMemory>
    ensures { IfOk result (λ text. text ≡ page_text_of (words_left lent.entry)) }
{
    let mut text = String::new(alloc);
    let mut words = lent;
    let mut next = words.next();
    while let Some(word) = next {
        next = words.next();
        text.push_str(word.text.as_str())?;
        text.push_str(end_of(word, next))?;
    }
    text.push_str("\u{c}")?;
    Ok(Text::from_string(text))
}

// What stands between a word and the next, if there is one.
fn end_of(word: &Word, next: Option<&Word>) -> &'static str
    ensures { result.now ≡ end_before word.now (option_copied next.entry) }
{
    match next {
        Some(next) if word.line == next.line => " ",
        _ => "\r\n",
    }
}

// The text of an item that isn't withheld, in UTF-8.
pub(crate) fn pages_text<P: Shows>(
    alloc: Global,
    shown: &P,
    item: &Item,
) -> Result<Bytes, OutOfMemory>
    requires there { Contains (P.production shown.now).items item.now }
    requires shown { ground_of item.now.treatment ≡ None }
    requires from { 1 ≤ item.now.doc.0 }
    requires to { item.now.doc.0 ≤ length (P.matter shown.now).docs }
    ensures { let text = flat_map (kept_text (P.matter shown.now) item.now)
        (pages_of (P.matter shown.now) item.now.doc.0) in
        IfOk result (λ bytes. bytes ≡ encode_utf8_all text) }
{
    let pages = shown.pages(item);
    let mut bytes = Vec::new(alloc);
    let mut page = 0;
    while page < pages {
        page += 1;
        let text = kept_text(alloc, shown, item, PageNo(page))?;
        bytes.extend_from_slice(text.as_str().as_bytes())?;
    }
    Ok(Bytes::from_vec(bytes))
}

// What stands for a value that is held.
fn held_text(alloc: Global, held: &HeldRow) -> Result<Text, OutOfMemory>
    ensures { IfOk result (λ text. text ≡ held_text held.now) }
{
    let mut text = String::new(alloc);
    add(&mut text, "WITHHELD - ")?;
    add(&mut text, held.basis.code())?;
    Ok(Text::from_string(text))
}

// The code of a ground.
pub(crate) fn code_text(alloc: Global, basis: Basis) -> Result<Text, OutOfMemory>
    ensures { IfOk result (λ text. text ≡ basis_code basis) }
{
    let mut text = String::new(alloc);
    add(&mut text, basis.code())?;
    Ok(Text::from_string(text))
}

// What is shown of the field of a name.
pub(crate) fn value_shown<P: Shows>(
    alloc: Global,
    shown: &P,
    item: &Item,
    name: &Text,
) -> Result<Text, OutOfMemory>
    requires there { Contains (P.production shown.now).items item.now }
    requires shown { ground_of item.now.treatment ≡ None }
    requires chosen { Contains (P.production shown.now).request.fields name.now }
    ensures { IfOk result (λ text. text ≡ value_shown (P.matter shown.now) item.now name.now) }
{
    value_text(alloc, shown.value(item, name))
}

// The text of a value that is lent.
fn value_text(alloc: Global, value: ShownValue<'_>) -> Result<Text, OutOfMemory>
    ensures { IfOk result (λ text. text ≡ value_lent value.entry) }
{
    match value {
        ShownValue::Nothing => Ok(empty_text(alloc)),
        ShownValue::Held(held) => held_text(alloc, held),
        ShownValue::Value(text) => Ok(text.clone()?),
    }
}

// The text without characters.
pub(crate) fn empty_text(alloc: Global) -> Text
    ensures { result ≡ [] }
{
    Text::from_string(String::new(alloc))
}

// The text of the sheet of an item that is withheld on a ground.
fn sheet_text(alloc: Global, basis: Basis) -> Result<Text, OutOfMemory>
    ensures { IfOk result (λ text. text ≡ withheld_text basis) }
{
    let mut text = String::new(alloc);
    add(&mut text, sheet_words(basis))?;
    Ok(Text::from_string(text))
}

fn sheet_words(basis: Basis) -> &'static str
    ensures { result.now ≡ withheld_text basis }
{
    match basis {
        Basis::Ac => "DOCUMENT WITHHELD - AC\r\n\u{c}",
        Basis::Wp => "DOCUMENT WITHHELD - WP\r\n\u{c}",
        Basis::Pi => "DOCUMENT WITHHELD - PI\r\n\u{c}",
        Basis::Ts => "DOCUMENT WITHHELD - TS\r\n\u{c}",
    }
}

// The text of that sheet, in UTF-8.
fn sheet_bytes(alloc: Global, basis: Basis) -> Result<Bytes, OutOfMemory>
    ensures { IfOk result (λ bytes. bytes ≡ encode_utf8_all (withheld_text basis)) }
{
    let text = sheet_text(alloc, basis)?;
    Ok(Bytes::from_vec(text.into_string().into_bytes()))
}

// The text of an item, in UTF-8.
pub(crate) fn text_bytes<P: Shows>(
    alloc: Global,
    shown: &P,
    production: &Production,
    item: &Item,
) -> Result<Bytes, OutOfMemory>
    requires there { Contains (P.production shown.now).items item.now }
    requires from { 1 ≤ item.now.doc.0 }
    requires to { item.now.doc.0 ≤ length (P.matter shown.now).docs }
    ensures { let part = part_of production.now (P.matter shown.now) item.now in
        IfOk result (λ bytes. bytes ≡ encode_utf8_all part.content.text) }
{
    let _production = production;
    match item.treatment {
        Treatment::Produce => pages_text(alloc, shown, item),
        Treatment::Redact => pages_text(alloc, shown, item),
        Treatment::Withhold(basis) => sheet_bytes(alloc, basis),
    }
}
