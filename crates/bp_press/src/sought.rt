// The files of a volume among which a path is sought. An image or a text is named by its label, so
// where the path ends with a label these are the files of the one item that has its number.
ghost use Rattle.std.specs.Prelude.{◌≡◌, IfOk, IfSome, IsTrue, OnOk, false, true};
ghost use Rattle.bp_bates.specs.Prefixes.{is_good_prefix};
ghost use Rattle.bp_press.specs.Needs.{CanBePressed, IsLabelled};
ghost use Rattle.bp_press.specs.Pressing.{CanAllBePlaced, files_from};
ghost use Rattle.bp_press.specs.Sought.{BearsLabel, IsOutside, IsSought, Seeks};
ghost use Rattle.bp_press.specs.Volume.{files_before, placed_items};

use crate::entries::{IMAGE_END, TEXT_END, ends_with_label};
use crate::shown::Shows;
use crate::volume_files::{VolumeFile, image_count, list_item};
use bp_bates::{Prefix, good_prefix, largest};
use bp_core::{OutOfMemory, Text};
use bp_matter::{Item, Production};
use std::alloc::Global;

// How many characters stand behind a label.
const END: usize = 4;

// The files among which the path is found as among all before the manifest.
pub(crate) fn list_sought<'p, P: Shows>(
    alloc: Global,
    shown: &P,
    production: &'p Production,
    path: &Text,
) -> Result<Vec<VolumeFile<'p>>, OutOfMemory>
    requires same { P.production shown.now ≡ production.now }
    requires pressed { CanBePressed production.now (P.matter shown.now) }
    ensures { let f = production.now in let m = (P.matter shown.now) in
        IfOk result (λ list. IsSought f m path.now list.items (files_before f (placed_items f m))) }
{
    let mut list = Vec::new(alloc);
    list_holders(shown, production, path, &mut list)?;
    list.push(VolumeFile::Dat)?;
    list.push(VolumeFile::Opt)?;
    list.push(VolumeFile::Log)?;
    Ok(list)
}

// Lists the files of each item that may hold the path, and passes the others.
fn list_holders<'p, P: Shows>(
    shown: &P,
    production: &'p Production,
    path: &Text,
    list: &mut Vec<VolumeFile<'p>>,
) -> Result<(), OutOfMemory>
    requires same { P.production shown.now ≡ production.now }
    requires placed { CanAllBePlaced production.now (P.matter shown.now) 0 production.now.items }
    ensures { let f = production.now in let m = (P.matter shown.now) in
        OnOk result (Seeks f m path.now list.old.items (files_from f m 0 f.items) list.new.items) }
{
    let number = label_number(path, &production.request.prefix);
    let mut rest = production.items.as_slice();
    let mut place = 0;
    while let Some((item, others)) = rest.split_first() {
        let count = u64::from(image_count(shown, production, item));
        if may_hold(item, count, number) {
            list_item(shown, item, place, list)?;
        }
        place += count;
        rest = others;
    }
    Ok(())
}

// Whether an item may hold the path that has this number: it has so many from its first on. Any item
// may hold a path that has none.
fn may_hold(item: &Item, count: u64, number: Option<u64>) -> bool
    ensures { result ≡ false → IsOutside number item.now.span.first count }
{
    match number {
        Some(number) => item.span.first <= number && number - item.span.first < count,
        None => true,
    }
}

// The number of the label that a path ends with, as the path of an image or a text does.
fn label_number(path: &Text, prefix: &Prefix) -> Option<u64>
    ensures { IfSome result (λ number. BearsLabel path.now prefix.now number) }
{
    if !good_prefix(&prefix.text, prefix.width) {
        return None;
    }
    let number = last_number(path, prefix.width)?;
    if number < 1 || number > largest(prefix.width) || !has_label(path, prefix, number) {
        return None;
    }
    Some(number)
}

// Whether a path ends with the label of this number, and then as an image or a text.
fn has_label(path: &Text, prefix: &Prefix, number: u64) -> bool
    requires good { IsTrue (is_good_prefix prefix.now.text prefix.now.width) }
    requires label { IsLabelled prefix.now.width number }
    ensures { result ≡ true → BearsLabel path.now prefix.now number }
{
    if ends_with_label(path, prefix, number, &IMAGE_END) {
        return true;
    }
    ends_with_label(path, prefix, number, &TEXT_END)
}

// The number that so many digits write before the end of a path. Where no digits stand there it is
// any number: `has_label` tells.
fn last_number(path: &Text, width: u8) -> Option<u64> {
    let bytes = path.as_str().as_bytes();
    let width = usize::from(width);
    if bytes.len() < width + END {
        return None;
    }
    let end = bytes.len() - END;
    Some(number_of(&bytes[end - width..end]))
}

// The number that digits write.
fn number_of(digits: &[u8]) -> u64 {
    let mut number = 0u64;
    for digit in digits {
        number = number
            .wrapping_mul(10)
            .wrapping_add(u64::from(digit.wrapping_sub(b'0')));
    }
    number
}
