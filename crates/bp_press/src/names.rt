// The labels of a volume, and the paths of its files.
ghost use Rattle.std.specs.Prelude.{◌≡◌, ◌≤◌, ◌<◌, ◌+◌, ◌++◌, ◌∷◌, [], IfOk, IsTrue, OnOk, length};
ghost use Rattle.std.specs.List.{join_with_byte};
ghost use Rattle.std.specs.Str.{chars};
ghost use Rattle.std.specs.String.{string_bytes};
ghost use Rattle.bp_bates.specs.Labels.{padded};
ghost use Rattle.bp_bates.specs.Prefixes.{is_good_prefix};
ghost use Rattle.bp_bates.specs.Spans.{largest_of};
ghost use Rattle.bp_freeze.specs.Log.{label_in};
ghost use Rattle.bp_press.specs.Paths.{data_path, folder_of, image_path, manifest_path, text_path};

use crate::paths::{FOLDER_DIGITS, IMAGES_A_FOLDER};
use bp_bates::{Prefix, label_into};
use bp_core::{OutOfMemory, Text};
use bp_matter::Request;
use std::alloc::Global;

// The longest label.
pub(crate) const LABEL: usize = 22;

// The last step of a path: a label, and how the name ends.
#[derive(Clone, Copy)]
struct LastStep<'n> {
    label: &'n Text,
    ending: &'n str,
}

// The label of a number.
pub(crate) fn label_text(alloc: Global, prefix: &Prefix, number: u64) -> Result<Text, OutOfMemory>
    requires good { IsTrue (is_good_prefix prefix.now.text prefix.now.width) }
    requires from { 1 ≤ number }
    requires to { number ≤ largest_of prefix.now.width }
    ensures { IfOk result (λ text. text ≡ label_in prefix.now number) }
{
    let mut into = [0; LABEL];
    let length = label_into(prefix, number, &mut into);
    text_of(alloc, &into[..length])
}

// The characters whose numbers are these bytes.
fn text_of(alloc: Global, bytes: &[u8]) -> Result<Text, OutOfMemory>
    ensures { IfOk result (λ text. text ≡ bytes.now) }
{
    let mut text = String::new(alloc);
    for byte in bytes {
        add_character(&mut text, char::from(*byte))?;
    }
    Ok(Text::from_string(text))
}

// The name of the folder of an image, counted from 0.
fn folder_text(alloc: Global, place: u64) -> Result<Text, OutOfMemory>
    ensures { IfOk result (λ text. text ≡ folder_of place) }
{
    let mut into = [b'0'; FOLDER_DIGITS as usize];
    write_digits(&mut into, place / IMAGES_A_FOLDER + 1);
    text_of(alloc, &into)
}

// Writes the last decimal digits of the number, as many as there is room for.
fn write_digits(into: &mut [u8], number: u64)
    ensures { into.new ≡ padded (length into.old) number }
{
    let mut rest = number;
    for place in (0..into.len()).rev() {
        into[place] = b'0' + (rest % 10) as u8;
        rest /= 10;
    }
}

// The path of an image, counted from 0, under a label number.
pub(crate) fn image_path(
    alloc: Global,
    separator: char,
    request: &Request,
    place: u64,
    number: u64,
) -> Result<Text, OutOfMemory>
    requires good { IsTrue (is_good_prefix request.now.prefix.text request.now.prefix.width) }
    requires from { 1 ≤ number }
    requires to { number ≤ largest_of request.now.prefix.width }
    ensures { IfOk result (λ path. path ≡ image_path separator request.now place number) }
{
    let folder = folder_text(alloc, place)?;
    let label = label_text(alloc, &request.prefix, number)?;
    let last = LastStep {
        label: &label,
        ending: ".TIF",
    };
    path_of(alloc, separator, &request.volume, "IMAGES", &folder, last)
}

// The path of the text of an item whose first image is this one.
pub(crate) fn text_path(
    alloc: Global,
    separator: char,
    request: &Request,
    place: u64,
    number: u64,
) -> Result<Text, OutOfMemory>
    requires good { IsTrue (is_good_prefix request.now.prefix.text request.now.prefix.width) }
    requires from { 1 ≤ number }
    requires to { number ≤ largest_of request.now.prefix.width }
    ensures { IfOk result (λ path. path ≡ text_path separator request.now place number) }
{
    let folder = folder_text(alloc, place)?;
    let label = label_text(alloc, &request.prefix, number)?;
    let last = LastStep {
        label: &label,
        ending: ".TXT",
    };
    path_of(alloc, separator, &request.volume, "TEXT", &folder, last)
}

// Four steps.
fn path_of(
    alloc: Global,
    separator: char,
    volume: &Text,
    kind: &str,
    folder: &Text,
    last: LastStep<'_>,
) -> Result<Text, OutOfMemory>
    ensures { let name = last.entry.label.now ++ chars last.entry.ending.now in
        let steps = volume.now ∷ chars kind.now ∷ folder.now ∷ name ∷ [] in
        IfOk result (λ path. path ≡ join_with_byte separator steps) }
{
    let mut path = String::new(alloc);
    add(&mut path, volume.as_str())?;
    add_character(&mut path, separator)?;
    add(&mut path, kind)?;
    add_character(&mut path, separator)?;
    add(&mut path, folder.as_str())?;
    add_character(&mut path, separator)?;
    add(&mut path, last.label.as_str())?;
    add(&mut path, last.ending)?;
    Ok(Text::from_string(path))
}

// The path of a file of all items, whose name ends with this.
pub(crate) fn data_path(alloc: Global, request: &Request, ending: &str) -> Result<Text, OutOfMemory>
    ensures { IfOk result (λ path. path ≡ data_path request.now (chars ending.now)) }
{
    let mut path = String::new(alloc);
    add(&mut path, request.volume.as_str())?;
    add(&mut path, "/DATA/")?;
    add(&mut path, request.volume.as_str())?;
    add(&mut path, ending)?;
    Ok(Text::from_string(path))
}

// The path of the manifest.
pub(crate) fn manifest_path(alloc: Global, request: &Request) -> Result<Text, OutOfMemory>
    ensures { IfOk result (λ path. path ≡ manifest_path request.now) }
{
    let mut path = String::new(alloc);
    add(&mut path, request.volume.as_str())?;
    add(&mut path, "/MANIFEST.TXT")?;
    Ok(Text::from_string(path))
}

// Adds the characters of a piece.
pub(crate) fn add(text: &mut String, piece: &str) -> Result<(), OutOfMemory>
    ensures { OnOk result (chars (string_bytes text.new) ≡
        chars (string_bytes text.old) ++ chars piece.now) }
{
    text.push_str(piece)?;
    Ok(())
}

fn add_character(text: &mut String, character: char) -> Result<(), OutOfMemory>
    ensures { OnOk result (chars (string_bytes text.new) ≡
        chars (string_bytes text.old) ++ character ∷ []) }
{
    text.push(character)?;
    Ok(())
}
