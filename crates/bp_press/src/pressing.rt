// The volume of a production, written to a folder.
ghost use Rattle.std.specs.Prelude.{◌≡◌, ◌+◌, ◌<◌, ◌^◌, ◌∷◌, [], All, IfOk, length, map};
ghost use Rattle.std.specs.Result.{OnOk, IfErr};
ghost use Rattle.bp_matter.specs.Matter.{Matter};
ghost use Rattle.bp_outside.specs.Folder.{after_refusal, file};
ghost use Rattle.bp_freeze.specs.Agree.{Agree};
ghost use Rattle.bp_freeze.specs.Keeping.{KeepsProduction};
ghost use Rattle.bp_press.specs.Needs.{CanBePressed};
ghost use Rattle.bp_press.specs.Paths.{manifest_path};
ghost use Rattle.bp_press.specs.Pressed.{folder_refusal_of, pressed_of};
ghost use Rattle.bp_press.specs.ReadBack.{IsReadBack};
ghost use Rattle.bp_press.specs.Volume.{volume_of};
ghost use Rattle.bp_press.specs.VolumeFiles.{EntryCanBeMade, file_of_entry};
ghost use Rattle.bp_press.specs.Writing.{AddsListed, AddsAll, AddsPart, LeavesCut, with_files};

use crate::covered::Covered;
use crate::gate::Gate;
use crate::made_files::{Maker, add_batch, add_beside, coded_batch};
use crate::manifest::digest_of;
use crate::names::manifest_path;
use crate::shown::Shows;
use crate::volume_files::{VolumeFile, list_files};
use bp_matter::{Production, Request, Tables};
use bp_outside::{Folder, FolderRefusal, put_file};
use bp_tiff::written_is_read;
use std::alloc::Global;
use std::thread::Threads;
use thiserror::Error;

/// How many files a volume has, and the SHA-256 (FIPS 180-4) of its manifest.
#[derive(Clone, Copy, Debug, PartialEq, Eq)]
pub struct Pressed {
    pub files: u32,
    pub manifest: [u8; 32],
}

/// Why a volume wasn't written whole.
#[derive(Clone, Copy, Debug, PartialEq, Eq, Error)]
pub enum PressRefusal {
    /// The folder failed.
    #[error("writing a file failed")]
    FolderFault,
    /// There was too little memory.
    #[error("out of memory")]
    OutOfMemory,
}

// What a refusal of the folder means to the caller.
fn press_refusal(refusal: FolderRefusal) -> PressRefusal
    ensures { folder_refusal_of result ≡ refusal }
{
    match refusal {
        FolderRefusal::Failed => PressRefusal::FolderFault,
        FolderRefusal::OutOfMemory => PressRefusal::OutOfMemory,
    }
}

// The number of files of a volume, of which these stand before the manifest.
fn file_count(list: &[VolumeFile]) -> u32
    requires { length list.now + 1 < 2 ^ 32 }
    ensures { result ≡ length list.now + 1 }
{
    list.len() as u32 + 1
}

// Adds the listed files of the volume in order, each with its line of the manifest.
fn add_listed<P: Shows + Sync, R: Threads + Sync, F: Folder, G: Gate + Sync>(
    maker: &Maker<'_, P, R, G>,
    alloc: Global,
    folder: &mut F,
    manifest: &mut Vec<u8>,
) -> Result<(), FolderRefusal>
    requires same { P.production maker.now.shown.now ≡ maker.now.production.now }
    requires some { 0 < length maker.now.list.now }
    requires made { let m = P.matter maker.now.shown.now in
        All (EntryCanBeMade maker.now.production.now m) maker.now.list.now }
    ensures { let m = P.matter maker.now.shown.now in
        let rows = map (file_of_entry maker.now.production.now m) maker.now.list.now in
        AddsListed rows (F.shows folder.old) manifest.old.items result
        (F.shows folder.new) manifest.new.items }
{
    let mut from = 0;
    let mut coded = coded_batch(maker, alloc, from)?;
    while coded.batch.end < maker.list.len() {
        let (next, added) = add_beside(maker, alloc, from, &coded, folder, manifest);
        added?;
        from = coded.batch.end;
        coded = next?;
    }
    add_batch(maker, alloc, from, &coded, folder, manifest)
}

// Adds the manifest of these bytes.
#[tactic(auto, using(crate::proofs::WritingLemmas::one_put))]
fn add_manifest<F: Folder>(
    alloc: Global,
    request: &Request,
    folder: &mut F,
    manifest: &[u8],
) -> Result<(), FolderRefusal>
    ensures files { let row = file (manifest_path request.now) manifest.now in
        OnOk result (AddsAll (F.shows folder.old) (row ∷ []) (F.shows folder.new)) }
    ensures cut { let row = file (manifest_path request.now) manifest.now in
        IfErr result (λ refusal.
        LeavesCut (F.shows folder.old) (row ∷ []) refusal (F.shows folder.new)) }
{
    let path = manifest_path(alloc, request)?;
    put_file(alloc, folder, path.as_str(), manifest)
}

// Writes the volume of a production. Of the matter it is given what the volume shows, and no more.
fn write_volume<P: Shows + Sync, R: Threads + Sync, F: Folder, G: Gate + Sync>(
    rt: &R,
    alloc: Global,
    shown: &P,
    production: &Production,
    folder: &mut F,
    gate: &G,
) -> Result<Pressed, FolderRefusal>
    requires same { P.production shown.now ≡ production.now }
    requires pressed { CanBePressed production.now (P.matter shown.now) }
    ensures told { let files = volume_of production.now (P.matter shown.now) in
        IfOk result (λ pressed. pressed ≡ pressed_of files) }
    ensures files { let files = volume_of production.now (P.matter shown.now) in
        OnOk result (AddsAll (F.shows folder.old) files (F.shows folder.new)) }
    ensures cut { let files = volume_of production.now (P.matter shown.now) in
        IfErr result (λ refusal.
        LeavesCut (F.shows folder.old) files refusal (F.shows folder.new)) }
{
    let list = list_files(alloc, shown, production)?;
    let mut manifest = Vec::new(alloc);
    let maker = Maker {
        rt,
        gate,
        shown,
        production,
        list: list.as_slice(),
    };
    add_listed(&maker, alloc, folder, &mut manifest)?;
    add_manifest(alloc, &production.request, folder, manifest.as_slice())?;
    Ok(Pressed {
        files: file_count(list.as_slice()),
        manifest: digest_of(manifest.as_slice()),
    })
}

/// Writes the volume of a production of these tables: the images and the text of each item, then
/// DAT, OPT, log and manifest. With `Ok` exactly these files were added, in this order, and the
/// answer has their number and the digest of the manifest. After a refusal the files added are a
/// prefix of the volume, the last one perhaps in part.
///
/// The files depend on the matter by nothing but what it shows of the production: every other
/// matter that keeps the production and agrees on it gives the same bytes. Each image is read, as
/// TIFF 6.0 says, as the burned page or the slip sheet that it was made of, and as no other page.
///
/// Sixteen images are made at a time, each by a job of its own that enters the gate, as those of
/// `strips_of`. It returns if the threads that it joins do.
///
///     let pressed = press(&rt, alloc, &tables, &production, &mut folder, &OpenGate)?;
pub fn press<R: Threads + Sync, F: Folder, G: Gate + Sync>(
    rt: &R,
    alloc: Global,
    tables: &Tables,
    production: &Production,
    folder: &mut F,
    gate: &G,
) -> Result<Pressed, PressRefusal>
    requires { KeepsProduction tables.now.matter production.now }
    ensures told { let files = volume_of production.now tables.now.matter in
        IfOk result (λ pressed. pressed ≡ pressed_of files) }
    ensures files { let files = volume_of production.now tables.now.matter in
        OnOk result (F.shows folder.new ≡ with_files (F.shows folder.old) files) }
    ensures cut { let files = volume_of production.now tables.now.matter in
        IfErr result (λ refusal.
        AddsPart (after_refusal (F.shows folder.old) (folder_refusal_of refusal)) files
        (F.shows folder.new)) }
    ensures alike { (other : Matter)
        → KeepsProduction other production.now
        → Agree production.now tables.now.matter other
        → OnOk result
        (F.shows folder.new ≡ with_files (F.shows folder.old) (volume_of production.now other)) }
    ensures told_alike { (other : Matter)
        → KeepsProduction other production.now
        → Agree production.now tables.now.matter other
        → IfOk result (λ pressed. pressed ≡ pressed_of (volume_of production.now other)) }
    ensures read_back { IsReadBack production.now tables.now.matter }
{
    tables.know_valid();
    written_is_read();
    let shown = Covered::of(tables, production);
    match write_volume(rt, alloc, &shown, production, folder, gate) {
        Ok(pressed) => Ok(pressed),
        Err(refusal) => Err(press_refusal(refusal)),
    }
}
