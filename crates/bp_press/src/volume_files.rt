// The list of the files of a volume before its manifest, in order. It alone goes through the items;
// writing, finding and the manifest go through the list.
ghost use Rattle.std.specs.Prelude.{◌≡◌, ◌≤◌, ◌<◌, ◌+◌, ◌^◌, IfOk, None, Some, length};
ghost use Rattle.std.specs.List.{Contains};
ghost use Rattle.std.specs.Result.{OnOk};
ghost use Rattle.bp_matter.specs.Matter.{Matter};
ghost use Rattle.bp_matter.specs.declared.rows.Production.{Production};
ghost use Rattle.bp_press.specs.Contents.{ground_of, part_of};
ghost use Rattle.bp_press.specs.Files.{item_files};
ghost use Rattle.bp_press.specs.Needs.{CanBePressed};
ghost use Rattle.bp_press.specs.Pressing.{AreSheetsFew, CanAllBePlaced, CanBePlaced, HasFewLabels, files_from, images_in, placed_at};
ghost use Rattle.bp_press.specs.Volume.{files_before, placed_items};
ghost use Rattle.bp_press.specs.VolumeFiles.{IsListed, Lists};

use crate::contents::label_count;
use crate::shown::Shows;
use bp_core::{Basis, OutOfMemory, Treatment};
use bp_matter::{Item, Production};
use std::alloc::Global;

// A file of a volume before the manifest. The place is that of the first image of its item, where
// images are counted from 0.
#[derive(Clone, Copy)]
pub(crate) enum VolumeFile<'p> {
    // The image of a page of an item that isn't withheld. Its pages are counted from 0.
    Page {
        item: &'p Item,
        place: u64,
        page: u32,
    },
    // A sheet of an item that is withheld on a ground. Its sheets are counted from 0.
    Sheet {
        item: &'p Item,
        place: u64,
        basis: Basis,
        sheet: u32,
    },
    Text {
        item: &'p Item,
        place: u64,
    },
    Dat,
    Opt,
    Log,
}

#[tactic(auto, using(crate::proofs::ListLemmas::image_count, crate::proofs::ListLemmas::sheet_count))]
// How many images an item has.
pub(crate) fn image_count<P: Shows>(shown: &P, production: &Production, item: &Item) -> u32
    requires there { Contains (P.production shown.now).items item.now }
    requires placed { CanBePlaced production.now.request (P.matter shown.now) item.now }
    ensures { result ≡ length (part_of production.now (P.matter shown.now) item.now).content.images }
{
    let _production = production;
    match item.treatment {
        Treatment::Produce => shown.pages(item),
        Treatment::Redact => shown.pages(item),
        Treatment::Withhold(_) => label_count(item) as u32,
    }
}

// The files of the volume of a production before its manifest.
pub(crate) fn list_files<'p, P: Shows>(
    alloc: Global,
    shown: &P,
    production: &'p Production,
) -> Result<Vec<VolumeFile<'p>>, OutOfMemory>
    requires same { P.production shown.now ≡ production.now }
    requires pressed { CanBePressed production.now (P.matter shown.now) }
    ensures { let f = production.now in let m = (P.matter shown.now) in
        IfOk result (λ list. IsListed f m list.items (files_before f (placed_items f m))) }
{
    let mut list = Vec::new(alloc);
    list_items(shown, production, &mut list)?;
    list.push(VolumeFile::Dat)?;
    list.push(VolumeFile::Opt)?;
    list.push(VolumeFile::Log)?;
    Ok(list)
}

// Lists the files of all items.
fn list_items<'p, P: Shows>(
    shown: &P,
    production: &'p Production,
    list: &mut Vec<VolumeFile<'p>>,
) -> Result<(), OutOfMemory>
    requires same { P.production shown.now ≡ production.now }
    requires placed { CanAllBePlaced production.now (P.matter shown.now) 0 production.now.items }
    ensures { let f = production.now in let m = (P.matter shown.now) in
        OnOk result (Lists f m list.old.items (files_from f m 0 f.items) list.new.items) }
{
    let mut rest = production.items.as_slice();
    let mut place = 0;
    while let Some((item, others)) = rest.split_first() {
        list_item(shown, item, place, list)?;
        place += u64::from(image_count(shown, production, item));
        rest = others;
    }
    Ok(())
}

// Lists the files of an item: its images, and then its text.
pub(crate) fn list_item<'p, P: Shows>(
    shown: &P,
    item: &'p Item,
    place: u64,
    list: &mut Vec<VolumeFile<'p>>,
) -> Result<(), OutOfMemory>
    requires there { Contains (P.production shown.now).items item.now }
    requires from { 1 ≤ item.now.doc.0 }
    requires to { item.now.doc.0 ≤ length (P.matter shown.now).docs }
    requires places { place + 2 ^ 32 < 2 ^ 64 }
    requires sheets { AreSheetsFew item.now (ground_of item.now.treatment) }
    ensures { (f : Production) → let m = (P.matter shown.now) in
        let p = placed_at f m item.now place in
        CanBePlaced f.request m item.now
        → Contains f.items item.now
        → OnOk result (Lists f m list.old.items (item_files f.request p) list.new.items) }
{
    list_images(shown, item, place, list)?;
    list.push(VolumeFile::Text { item, place })?;
    Ok(())
}

// Lists the images of an item: its pages, or its sheet.
fn list_images<'p, P: Shows>(
    shown: &P,
    item: &'p Item,
    place: u64,
    list: &mut Vec<VolumeFile<'p>>,
) -> Result<(), OutOfMemory>
    requires there { Contains (P.production shown.now).items item.now }
    requires from { 1 ≤ item.now.doc.0 }
    requires to { item.now.doc.0 ≤ length (P.matter shown.now).docs }
    requires places { place + 2 ^ 32 < 2 ^ 64 }
    requires sheets { AreSheetsFew item.now (ground_of item.now.treatment) }
    ensures { (f : Production) → let m = (P.matter shown.now) in
        let p = placed_at f m item.now place in
        CanBePlaced f.request m item.now
        → Contains f.items item.now
        → OnOk result (Lists f m list.old.items (images_in f.request p) list.new.items) }
{
    match item.treatment {
        Treatment::Produce => list_pages(shown, item, place, list),
        Treatment::Redact => list_pages(shown, item, place, list),
        Treatment::Withhold(basis) => list_sheets(item, place, basis, list),
    }
}

// Lists the sheets of an item that is withheld on a ground, one for each of its labels.
fn list_sheets<'p>(
    item: &'p Item,
    place: u64,
    basis: Basis,
    list: &mut Vec<VolumeFile<'p>>,
) -> Result<(), OutOfMemory>
    requires sheets { HasFewLabels item.now }
    requires places { place + 2 ^ 32 < 2 ^ 64 }
    requires withheld { ground_of item.now.treatment ≡ Some basis }
    ensures { (f : Production) (m : Matter)
        → let p = placed_at f m item.now place in
        CanBePlaced f.request m item.now
        → OnOk result (Lists f m list.old.items (images_in f.request p) list.new.items) }
{
    let count = label_count(item) as u32;
    let mut sheet = 0;
    while sheet < count {
        list.push(VolumeFile::Sheet {
            item,
            place,
            basis,
            sheet,
        })?;
        sheet += 1;
    }
    Ok(())
}

// Lists the images of the pages of an item that isn't withheld.
fn list_pages<'p, P: Shows>(
    shown: &P,
    item: &'p Item,
    place: u64,
    list: &mut Vec<VolumeFile<'p>>,
) -> Result<(), OutOfMemory>
    requires there { Contains (P.production shown.now).items item.now }
    requires from { 1 ≤ item.now.doc.0 }
    requires to { item.now.doc.0 ≤ length (P.matter shown.now).docs }
    requires places { place + 2 ^ 32 < 2 ^ 64 }
    requires shown { ground_of item.now.treatment ≡ None }
    ensures { (f : Production) → let m = (P.matter shown.now) in
        let p = placed_at f m item.now place in
        CanBePlaced f.request m item.now
        → Contains f.items item.now
        → OnOk result (Lists f m list.old.items (images_in f.request p) list.new.items) }
{
    let count = shown.pages(item);
    let mut page = 0;
    while page < count {
        list.push(VolumeFile::Page { item, place, page })?;
        page += 1;
    }
    Ok(())
}
