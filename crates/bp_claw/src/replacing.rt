// The replacement of a production after a notice, written to a folder.
ghost use Rattle.std.specs.Prelude.{◌≡◌, ◌<◌, ◌^◌, ◌∷◌, [], IfOk, IsTrue, length};
ghost use Rattle.std.specs.List.{list_all};
ghost use Rattle.std.specs.Result.{IfErr, OnOk};
ghost use Rattle.bp_matter.specs.Matter.{Matter};
ghost use Rattle.bp_matter.specs.Texts.{is_volume};
ghost use Rattle.bp_freeze.specs.Keeping.{KeepsProduction};
ghost use Rattle.bp_press.specs.Pressed.{pressed_of};
ghost use Rattle.bp_press.specs.Writing.{AddsAll, LeavesCut, with_files};
ghost use Rattle.bp_claw.specs.AgreeBut.{AgreeBut};
ghost use Rattle.bp_claw.specs.Answering.{IsRuled, LeavesFolder, claw_refusal_of};
ghost use Rattle.bp_claw.specs.Claims.{claim_fits};
ghost use Rattle.bp_claw.specs.Refusing.{replace_rule};
ghost use Rattle.bp_claw.specs.Replacement.{replacement_of};
ghost use Rattle.bp_claw.specs.Staying.{StaysInPlace};

use crate::notices::Notice;
use crate::refusals::ClawRefusal;
use crate::refusing::refusal;
use crate::renewing::replaced;
use bp_core::Text;
use bp_matter::{Production, Tables};
use bp_outside::{FileRow, Folder, FolderRefusal, put_file};
use bp_press::{Covered, FilesInTurn, Pressed};
use std::alloc::Global;

// What a refusal of the folder means to the caller.
fn claw_refusal(refusal: FolderRefusal) -> ClawRefusal
    ensures { result ≡ claw_refusal_of refusal }
{
    match refusal {
        FolderRefusal::Failed => ClawRefusal::FolderFault,
        FolderRefusal::OutOfMemory => ClawRefusal::OutOfMemory,
    }
}

// Puts a file.
#[tactic(auto, using(bp_press::proofs::WritingLemmas::puts_ok, bp_press::proofs::WritingLemmas::puts_cut))]
fn put_row<F: Folder>(alloc: Global, row: &FileRow, folder: &mut F) -> Result<(), FolderRefusal>
    ensures files { OnOk result (AddsAll (F.shows folder.old) (row.now ∷ []) (F.shows folder.new)) }
    ensures cut { IfErr result (λ refusal.
        LeavesCut (F.shows folder.old) (row.now ∷ []) refusal (F.shows folder.new)) }
{
    put_file(alloc, folder, row.path.as_str(), row.bytes.as_slice())
}

// Puts these files in their order. How many there were, and the digest of the last one.
fn put_files<F: Folder>(
    alloc: Global,
    files: FilesInTurn<'_>,
    folder: &mut F,
) -> Result<Pressed, FolderRefusal>
    requires some { 0 < length files }
    requires few { length files < 2 ^ 32 }
    ensures told { IfOk result (λ pressed. pressed ≡ pressed_of files.entry) }
    ensures files { OnOk result
        (AddsAll (F.shows folder.old) files.entry (F.shows folder.new)) }
    ensures cut { IfErr result (λ refusal.
        LeavesCut (F.shows folder.old) files.entry refusal (F.shows folder.new)) }
{
    let mut left = files;
    let mut pressed = Pressed {
        files: 0,
        manifest: [0; 32],
    };
    while let Some(file) = left.next(alloc)? {
        put_row(alloc, &file.row, folder)?;
        pressed = Pressed {
            files: pressed.files + 1,
            manifest: file.digest,
        };
    }
    Ok(pressed)
}

// Writes the replacement of a production of these tables, which breaks no rule.
fn add_replacement<F: Folder>(
    alloc: Global,
    tables: &Tables,
    production: &Production,
    volume: &Text,
    notice: &Notice,
    folder: &mut F,
) -> Result<Pressed, FolderRefusal>
    requires kept { KeepsProduction tables.now.matter production.now }
    requires fits { IsTrue (list_all claim_fits notice.now) }
    requires named { IsTrue (is_volume volume.now) }
    ensures told { let m = tables.now.matter in
        let files = replacement_of production.now notice.now volume.now m in
        IfOk result (λ pressed. pressed ≡ pressed_of files) }
    ensures files { let m = tables.now.matter in
        let files = replacement_of production.now notice.now volume.now m in
        OnOk result (AddsAll (F.shows folder.old) files (F.shows folder.new)) }
    ensures cut { let m = tables.now.matter in
        let files = replacement_of production.now notice.now volume.now m in
        IfErr result (λ refusal.
        LeavesCut (F.shows folder.old) files refusal (F.shows folder.new)) }
{
    tables.know_valid();
    let replacement = replaced(alloc, production, notice, volume)?;
    let shown = Covered::of(tables, &replacement);
    let files = FilesInTurn::over(alloc, &shown)?;
    put_files(alloc, files, folder)
}

/// Writes the replacement of a production of these tables, as a volume of this name: each document
/// that the notice names is a slip sheet under each of its labels, withheld on the ground that is
/// claimed, and logged with the entry of its claim. Everything else is as in the production's volume,
/// but for the volume's name. Nothing is kept.
///
/// A rule is the first of BadVolume, VolumeTaken, NoticeTwice and NotProduced, the last two at the
/// first claim that breaks one, and leaves the folder; to find it takes no memory. With `Ok` exactly
/// the files of the replacement were added, in order, and the answer has their number and the digest
/// of the manifest. After another refusal the files added are a prefix of the replacement, the last
/// one perhaps in part. Each image and text of a document that isn't named has, under the volume's
/// new name, the bytes of the production's volume.
///
/// The files depend on the matter by nothing of the documents that the notice names: every other matter
/// that keeps the production and agrees on its other items gives the same bytes.
///
/// Each file is made as it is put, and let go before the next, without threads.
///
///     let pressed = replace(alloc, &tables, &production, &volume, &notice, &mut folder)?;
pub fn replace<F: Folder>(
    alloc: Global,
    tables: &Tables,
    production: &Production,
    volume: &Text,
    notice: &Notice,
    folder: &mut F,
) -> Result<Pressed, ClawRefusal>
    requires kept { KeepsProduction tables.now.matter production.now }
    requires fits { IsTrue (list_all claim_fits notice.now) }
    ensures ruled { let m = tables.now.matter in
        IsRuled result (replace_rule m production.now volume.now notice.now) }
    ensures told { let m = tables.now.matter in
        let files = replacement_of production.now notice.now volume.now m in
        IfOk result (λ pressed. pressed ≡ pressed_of files) }
    ensures files { let m = tables.now.matter in
        let files = replacement_of production.now notice.now volume.now m in
        OnOk result (F.shows folder.new ≡ with_files (F.shows folder.old) files) }
    ensures left { let m = tables.now.matter in
        let files = replacement_of production.now notice.now volume.now m in
        IfErr result
        (λ refusal. LeavesFolder (F.shows folder.old) files refusal (F.shows folder.new)) }
    ensures alike { (other : Matter)
        → AgreeBut production.now notice.now tables.now.matter other
        → let files = replacement_of production.now notice.now volume.now other in
        OnOk result (F.shows folder.new ≡ with_files (F.shows folder.old) files) }
    ensures told_alike { (other : Matter)
        → AgreeBut production.now notice.now tables.now.matter other
        → let files = replacement_of production.now notice.now volume.now other in
        IfOk result (λ pressed. pressed ≡ pressed_of files) }
    ensures stays { StaysInPlace production.now notice.now volume.now tables.now.matter }
{
    tables.know_valid();
    if let Some(rule) = refusal(tables, production, volume, notice) {
        return Err(ClawRefusal::Rule(rule));
    }
    match add_replacement(alloc, tables, production, volume, notice, folder) {
        Ok(pressed) => Ok(pressed),
        Err(refusal) => Err(claw_refusal(refusal)),
    }
}
