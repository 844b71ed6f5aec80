// The texts that calls and the import accept.
ghost use Rattle.std.specs.Prelude.{◌≡◌, ◌==◌, ◌&&◌, ◌||◌, length, nat_le, not};
ghost use Rattle.std.specs.List.{list_all};
ghost use Rattle.std.specs.Str.{bytes_eq};
ghost use Rattle.bp_matter.specs.Texts.{is_text, is_text_character, is_designation, is_designation_character, is_volume_character, is_id_character, is_volume, is_id, is_value_character, is_value, is_name_character, is_field_name, is_id_of_doc_character, is_id_of_doc, is_plain_character, is_word_text, is_batch_name, is_one_column, is_column_name};

use crate::limits::{MAX_DESIGNATION, MAX_ID};
use bp_core::Text;

fn is_text_character(c: char) -> bool
    ensures { result ≡ is_text_character c }
{
    is_plain_character(c) && c as u32 != 0xFE
}

fn are_text_characters(text: &Text) -> bool
    ensures { result ≡ list_all is_text_character text.now }
{
    text.as_str().chars().all(|c| is_text_character(c))
}

fn is_designation_character(c: char) -> bool
    ensures { result ≡ is_designation_character c }
{
    is_volume_character(c) || matches!(c, '.' | ' ')
}

fn are_designation_characters(text: &Text) -> bool
    ensures { result ≡ list_all is_designation_character text.now }
{
    text.as_str().chars().all(|c| is_designation_character(c))
}

fn is_volume_character(c: char) -> bool
    ensures { result ≡ is_volume_character c }
{
    matches!(c, 'A'..='Z' | '0'..='9' | '-' | '_')
}

fn are_volume_characters(text: &Text) -> bool
    ensures { result ≡ list_all is_volume_character text.now }
{
    text.as_str().chars().all(|c| is_volume_character(c))
}

fn is_id_character(c: char) -> bool
    ensures { result ≡ is_id_character c }
{
    is_volume_character(c) || matches!(c, 'a'..='z')
}

fn are_id_characters(text: &Text) -> bool
    ensures { result ≡ list_all is_id_character text.now }
{
    text.as_str().chars().all(|c| is_id_character(c))
}

fn is_value_character(c: char) -> bool
    ensures { result ≡ is_value_character c }
{
    c as u32 != 0xFE && c as u32 != 0x14 && c as u32 != 13 && c as u32 != 0xAE
}

fn are_value_characters(text: &Text) -> bool
    ensures { result ≡ list_all is_value_character text.now }
{
    text.as_str().chars().all(|c| is_value_character(c))
}

fn is_name_character(c: char) -> bool
    ensures { result ≡ is_name_character c }
{
    is_value_character(c) && c as u32 != 10
}

fn are_name_characters(text: &Text) -> bool
    ensures { result ≡ list_all is_name_character text.now }
{
    text.as_str().chars().all(|c| is_name_character(c))
}

fn is_id_of_doc_character(c: char) -> bool
    ensures { result ≡ is_id_of_doc_character c }
{
    is_name_character(c) && c as u32 != 44
}

fn are_id_of_doc_characters(text: &Text) -> bool
    ensures { result ≡ list_all is_id_of_doc_character text.now }
{
    text.as_str().chars().all(|c| is_id_of_doc_character(c))
}

fn is_plain_character(c: char) -> bool
    ensures { result ≡ is_plain_character c }
{
    c as u32 >= 32 && c as u32 != 127
}

fn are_plain_characters(text: &Text) -> bool
    ensures { result ≡ list_all is_plain_character text.now }
{
    text.as_str().chars().all(|c| is_plain_character(c))
}

fn is_at_most(text: &Text, limit: usize) -> bool
    ensures { result ≡ nat_le (length text.now) limit }
{
    text.as_str().chars().count() <= limit
}

/// Whether a call takes the text: at most so many bytes in UTF-8, no control character and no U+00FE.
pub fn is_text(text: &Text, limit: usize) -> bool
    ensures { result ≡ is_text limit text.now }
{
    text.len() <= limit && are_text_characters(text)
}

/// Whether a document may have this designation.
pub fn is_designation(text: &Text) -> bool
    ensures { result ≡ is_designation text.now }
{
    is_at_most(text, MAX_DESIGNATION) && are_designation_characters(text)
}

fn is_there(text: &Text) -> bool
    ensures { result ≡ nat_le 1 (length text.now) }
{
    !text.is_empty()
}

/// Whether it may be the name of a volume: 1 to 32 characters of A-Z, 0-9, `-` and `_`.
pub fn is_volume(text: &Text) -> bool
    ensures { result ≡ is_volume text.now }
{
    is_there(text) && is_at_most(text, MAX_ID) && are_volume_characters(text)
}

/// Whether it may be the id of a production: 1 to 32 characters of A-Z, a-z, 0-9, `-` and `_`.
pub fn is_id(text: &Text) -> bool
    ensures { result ≡ is_id text.now }
{
    is_there(text) && is_at_most(text, MAX_ID) && are_id_characters(text)
}

pub(crate) fn is_value(text: &Text) -> bool
    ensures { result ≡ is_value text.now }
{
    are_value_characters(text)
}

pub(crate) fn is_field_name(text: &Text) -> bool
    ensures { result ≡ is_field_name text.now }
{
    are_name_characters(text)
}

pub(crate) fn is_id_of_doc(text: &Text) -> bool
    ensures { result ≡ is_id_of_doc text.now }
{
    !text.is_empty() && are_id_of_doc_characters(text)
}

pub(crate) fn is_word_text(text: &Text) -> bool
    ensures { result ≡ is_word_text text.now }
{
    !text.is_empty() && are_plain_characters(text)
}

/// Whether a batch may have this name: 1 to 32 of A-Z, a-z, 0-9, `-` and `_`.
pub fn is_batch_name(text: &Text) -> bool
    ensures { result ≡ is_batch_name text.now }
{
    is_id(text)
}

/// Whether each load file has a column of this name of itself.
pub fn is_column_name(text: &Text) -> bool
    ensures { result ≡ is_column_name text.now }
{
    is_column(text.as_str().as_bytes())
}

fn is_column(bytes: &[u8]) -> bool
    ensures { result ≡ is_one_column bytes.now }
{
    bytes == b"BEGDOC".as_slice()
        || bytes == b"ENDDOC".as_slice()
        || bytes == b"BEGATTACH".as_slice()
        || bytes == b"ENDATTACH".as_slice()
        || bytes == b"PAGECOUNT".as_slice()
        || bytes == b"DESIGNATION".as_slice()
        || bytes == b"WITHHELD".as_slice()
        || bytes == b"TEXTPATH".as_slice()
}
