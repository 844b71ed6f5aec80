// The lines of the load files.
ghost use Rattle.std.specs.Prelude.{◌≡◌, ◌<◌, ◌+◌, ◌-◌, ◌++◌, ◌∷◌, ◌^◌, ◌==◌, IfOk, IsTrue, OnOk, [], if◌then◌else◌, length};
ghost use Rattle.std.specs.Fmt.{decimal};
ghost use Rattle.std.specs.List.{Contains};
ghost use Rattle.bp_bates.specs.Prefixes.{is_good_prefix};
ghost use Rattle.bp_core.specs.Characters.{reverse_solidus};
ghost use Rattle.bp_freeze.specs.Log.{label_in};
ghost use Rattle.bp_freeze.specs.Selecting.{first_of_items, last_of_items};
ghost use Rattle.bp_press.specs.Contents.{Content, ground_of, label_count, part_of, value_in_column};
ghost use Rattle.bp_press.specs.Files.{Placed};
ghost use Rattle.bp_press.specs.LoadFiles.{dat_row, family_of, opt_line, opt_lines, optional_code};
ghost use Rattle.bp_press.specs.Paths.{text_path};
ghost use Rattle.bp_press.specs.Needs.{CanBeListed, IsLabelled};
ghost use Rattle.bp_press.specs.Pressing.{AreLabels, CanBePlaced, placed_at};

use crate::contents::{code_text, empty_text, ground_of, label_count, value_shown};
use crate::names::{image_path, label_text, text_path};
use crate::shown::Shows;
use crate::volume_files::image_count;
use bp_bates::{Prefix, Span};
use bp_core::{Basis, ListOf, OutOfMemory, Text, TextList};
use bp_load::OptLine;
use bp_matter::{Item, Production, Request};
use std::alloc::Global;

// A number in decimal digits.
fn number_text(alloc: Global, number: u64) -> Result<Text, OutOfMemory>
    ensures { IfOk result (λ text. text ≡ decimal number) }
{
    Ok(Text::from_string(number.to_string(alloc)?))
}

// What the OPT says of the number of images, at an image of an item that has so many.
fn count_text(alloc: Global, count: u32, page: u32) -> Result<Text, OutOfMemory>
    ensures { IfOk result (λ text. text ≡ (if page == 0 then decimal count else [])) }
{
    if page == 0 {
        number_text(alloc, u64::from(count))
    } else {
        Ok(empty_text(alloc))
    }
}

// The line of an image of an item that has so many, counted from 0, whatever the images are.
fn opt_line(
    alloc: Global,
    request: &Request,
    item: &Item,
    place: u64,
    count: u32,
    page: u32,
) -> Result<OptLine, OutOfMemory>
    requires places { place + 2 ^ 32 < 2 ^ 64 }
    requires page { page < count }
    requires labels { AreLabels request.now item.now.span.first count }
    ensures { (content : Content) → count ≡ length content.images
        → let p : Placed = record { place = place; item = item.now; content = content } in
        IfOk result (λ line. line ≡ opt_line request.now p page) }
{
    let number = item.span.first + u64::from(page);
    let place = place + u64::from(page);
    Ok(OptLine {
        image: label_text(alloc, &request.prefix, number)?,
        volume: request.volume.clone()?,
        path: image_path(alloc, '\\', request, place, number)?,
        doc_break: page == 0,
        folder_break: false,
        box_break: false,
        pages: count_text(alloc, count, page)?,
    })
}

// Adds the lines of the images of an item, and tells how many images it has.
pub(crate) fn add_opt_lines<P: Shows>(
    alloc: Global,
    shown: &P,
    production: &Production,
    item: &Item,
    place: u64,
    lines: &mut Vec<OptLine>,
) -> Result<u32, OutOfMemory>
    requires there { Contains (P.production shown.now).items item.now }
    requires placed { CanBePlaced production.now.request (P.matter shown.now) item.now }
    requires places { place + 2 ^ 32 < 2 ^ 64 }
    ensures lines { let p = placed_at production.now (P.matter shown.now) item.now place in
        OnOk result (lines.new.items ≡ lines.old.items ++ opt_lines production.now.request p) }
    ensures count { let part = part_of production.now (P.matter shown.now) item.now in
        IfOk result (λ count. count ≡ length part.content.images) }
{
    let request = &production.request;
    let count = image_count(shown, production, item);
    let mut page = 0;
    while page < count {
        lines.push(opt_line(alloc, request, item, place, count, page)?)?;
        page += 1;
    }
    Ok(count)
}

// Adds the label of a number to a row.
fn add_label(
    alloc: Global,
    prefix: &Prefix,
    number: u64,
    row: &mut Vec<Text>,
) -> Result<(), OutOfMemory>
    requires good { IsTrue (is_good_prefix prefix.now.text prefix.now.width) }
    requires number { IsLabelled prefix.now.width number }
    ensures { OnOk result (row.new.items ≡ row.old.items ++ label_in prefix.now number ∷ []) }
{
    row.push(label_text(alloc, prefix, number)?)?;
    Ok(())
}

// Adds the labels of an item and of its family.
fn add_labels(
    alloc: Global,
    prefix: &Prefix,
    own: Span,
    family: Span,
    row: &mut Vec<Text>,
) -> Result<(), OutOfMemory>
    requires good { IsTrue (is_good_prefix prefix.now.text prefix.now.width) }
    requires first { IsLabelled prefix.now.width own.first }
    requires last { IsLabelled prefix.now.width own.last }
    requires family_first { IsLabelled prefix.now.width family.first }
    requires family_last { IsLabelled prefix.now.width family.last }
    ensures { OnOk result (row.new.items ≡ row.old.items
        ++ label_in prefix.now own.first ∷ label_in prefix.now own.last
        ∷ label_in prefix.now family.first ∷ label_in prefix.now family.last ∷ []) }
{
    add_label(alloc, prefix, own.first, row)?;
    add_label(alloc, prefix, own.last, row)?;
    add_label(alloc, prefix, family.first, row)?;
    add_label(alloc, prefix, family.last, row)
}

// The code of a ground, if there is one.
fn optional_code(alloc: Global, claimed: Option<Basis>) -> Result<Text, OutOfMemory>
    ensures { IfOk result (λ text. text ≡ optional_code claimed) }
{
    match claimed {
        Some(basis) => code_text(alloc, basis),
        None => Ok(empty_text(alloc)),
    }
}

// Adds how many labels an item has, what is stamped on it, why it is withheld, and its text.
fn add_facts(
    alloc: Global,
    request: &Request,
    item: &Item,
    place: u64,
    row: &mut Vec<Text>,
) -> Result<(), OutOfMemory>
    requires good { IsTrue (is_good_prefix request.now.prefix.text request.now.prefix.width) }
    requires first { IsLabelled request.now.prefix.width item.now.span.first }
    requires last { item.now.span.last + 1 < 2 ^ 64 }
    ensures { OnOk result (row.new.items ≡ row.old.items
        ++ decimal (label_count item.now) ∷ item.now.designation
        ∷ optional_code (ground_of item.now.treatment)
        ∷ text_path reverse_solidus request.now place item.now.span.first ∷ []) }
{
    row.push(number_text(alloc, label_count(item))?)?;
    row.push(item.designation.clone()?)?;
    row.push(optional_code(alloc, ground_of(item.treatment))?)?;
    row.push(text_path(alloc, '\\', request, place, item.span.first)?)?;
    Ok(())
}

// The value in the column of a chosen field.
fn value_in_column<P: Shows>(
    alloc: Global,
    shown: &P,
    item: &Item,
    name: &Text,
) -> Result<Text, OutOfMemory>
    requires there { Contains (P.production shown.now).items item.now }
    requires chosen { Contains (P.production shown.now).request.fields name.now }
    ensures { let claimed = ground_of item.now.treatment in
        IfOk result (λ text.
        text ≡ value_in_column (P.matter shown.now) item.now claimed name.now) }
{
    match ground_of(item.treatment) {
        Some(_) => Ok(empty_text(alloc)),
        None => value_shown(alloc, shown, item, name),
    }
}

// Adds the values of an item in the chosen fields.
fn add_values<P: Shows>(
    alloc: Global,
    shown: &P,
    production: &Production,
    item: &Item,
    row: &mut Vec<Text>,
) -> Result<(), OutOfMemory>
    requires same { P.production shown.now ≡ production.now }
    requires there { Contains (P.production shown.now).items item.now }
    ensures { let part = part_of production.now (P.matter shown.now) item.now in
        OnOk result (row.new.items ≡ row.old.items ++ part.content.values) }
{
    let mut rest = production.request.fields.as_slice();
    while let Some((name, others)) = rest.split_first() {
        row.push(value_in_column(alloc, shown, item, name)?)?;
        rest = others;
    }
    Ok(())
}

// The row of an item in the DAT, with the first and the last number of its family.
pub(crate) fn dat_row<P: Shows>(
    alloc: Global,
    shown: &P,
    production: &Production,
    item: &Item,
    place: u64,
    family: Span,
) -> Result<TextList, OutOfMemory>
    requires same { P.production shown.now ≡ production.now }
    requires there { Contains (P.production shown.now).items item.now }
    requires good { let prefix = production.now.request.prefix in
        IsTrue (is_good_prefix prefix.text prefix.width) }
    requires listed { CanBeListed production.now item.now }
    requires last { item.now.span.last + 1 < 2 ^ 64 }
    requires family_first { family.first ≡ first_of_items (family_of production.now item.now) }
    requires family_last { family.last ≡ last_of_items (family_of production.now item.now) }
    ensures { let f = production.now in
        let p = placed_at f (P.matter shown.now) item.now place in
        IfOk result (λ row. row ≡ dat_row f p) }
{
    let request = &production.request;
    let mut row = Vec::new(alloc);
    add_labels(alloc, &request.prefix, item.span, family, &mut row)?;
    add_facts(alloc, request, item, place, &mut row)?;
    add_values(alloc, shown, production, item, &mut row)?;
    Ok(ListOf::from_vec(row))
}
