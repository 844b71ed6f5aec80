// The one file of a volume that has a path.
ghost use Rattle.std.specs.Prelude.{◌≡◌, ◌++◌, ◌∷◌, [], All, IfOk, OnOk, map};
ghost use Rattle.bp_core.specs.Answers.{Answers};
ghost use Rattle.bp_freeze.specs.Keeping.{KeepsProduction};
ghost use Rattle.bp_press.specs.Answering.{file_answer};
ghost use Rattle.bp_press.specs.Manifest.{manifest_line, manifest_of};
ghost use Rattle.bp_press.specs.Needs.{CanBePressed};
ghost use Rattle.bp_press.specs.Paths.{manifest_path};
ghost use Rattle.bp_press.specs.Shown.{matter_behind, production_shown};
ghost use Rattle.bp_press.specs.Volume.{file_at, files_before, placed_items, volume_of};
ghost use Rattle.bp_press.specs.VolumeFiles.{EntryCanBeMade, file_of_entry};
ghost use Rattle.bp_outside.specs.Folder.{file};

use crate::covered::Covered;
use crate::entries::entry_at;
use crate::file_rows::{file_bytes, file_made};
use crate::manifest::add_line;
use crate::names::manifest_path;
use crate::shown::Shows;
use crate::sought::list_sought;
use crate::volume_files::{VolumeFile, list_files};
use bp_core::{Bytes, OutOfMemory, Refusal, Rule, RuleKind, Text};
use bp_matter::Production;
use std::alloc::Global;

// Adds the line of a file.
fn add_line_of<P: Shows>(
    alloc: Global,
    shown: &P,
    production: &Production,
    file: &VolumeFile,
    manifest: &mut Vec<u8>,
) -> Result<(), OutOfMemory>
    requires same { P.production shown.now ≡ production.now }
    requires made { EntryCanBeMade production.now (P.matter shown.now) file.now }
    ensures { let row = file_of_entry production.now (P.matter shown.now) file.now in
        OnOk result (manifest.new.items ≡ manifest.old.items ++ manifest_line row) }
{
    let made = file_made(alloc, shown, production, file)?;
    add_line(manifest, &made.row.path, made.digest)
}

// The bytes of the manifest over these files. Each is made for its digest, one at a time.
fn manifest_bytes<P: Shows>(
    alloc: Global,
    shown: &P,
    production: &Production,
    list: &[VolumeFile],
) -> Result<Bytes, OutOfMemory>
    requires same { P.production shown.now ≡ production.now }
    requires made { All (EntryCanBeMade production.now (P.matter shown.now)) list.now }
    ensures { let rows = map (file_of_entry production.now (P.matter shown.now)) list.now in
        IfOk result (λ bytes. bytes ≡ manifest_of rows) }
{
    let mut manifest = Vec::new(alloc);
    for file in list {
        add_line_of(alloc, shown, production, file, &mut manifest)?;
    }
    Ok(Bytes::from_vec(manifest))
}

// The manifest, if its file has the path.
fn manifest_if<P: Shows>(
    alloc: Global,
    shown: &P,
    production: &Production,
    path: &Text,
) -> Result<Option<Bytes>, OutOfMemory>
    requires same { P.production shown.now ≡ production.now }
    requires pressed { CanBePressed production.now (P.matter shown.now) }
    ensures { let f = production.now in
        let rows = files_before f (placed_items f (P.matter shown.now)) in
        let row = file (manifest_path f.request) (manifest_of rows) in
        IfOk result (λ found. found ≡ file_at path.now (row ∷ [])) }
{
    let own = manifest_path(alloc, &production.request)?;
    if own != *path {
        return Ok(None);
    }
    let list = list_files(alloc, shown, production)?;
    Ok(Some(manifest_bytes(alloc, shown, production, list.as_slice())?))
}

// The file of the volume that has the path.
fn find_file<P: Shows>(
    alloc: Global,
    shown: &P,
    production: &Production,
    path: &Text,
) -> Result<Option<Bytes>, OutOfMemory>
    requires same { P.production shown.now ≡ production.now }
    requires pressed { CanBePressed production.now (P.matter shown.now) }
    ensures { let files = volume_of production.now (P.matter shown.now) in
        IfOk result (λ found. found ≡ file_at path.now files) }
{
    let list = list_sought(alloc, shown, production, path)?;
    match entry_at(alloc, production, list.as_slice(), path)? {
        Some(file) => Ok(Some(file_bytes(alloc, shown, production, &file)?)),
        None => manifest_if(alloc, shown, production, path),
    }
}

/// The bytes of the file of that path in the volume of the production that is shown, which the
/// tables behind it keep; or NoFile exactly where the volume has no file of that path. No file is
/// made but the one that is asked, and for the manifest those that it digests. An image or a text is
/// found by its label, among the files of the one item that has its number.
///
///     let bytes = file_of(alloc, &Covered::of(&tables, &production), &path)?;
pub fn file_of(alloc: Global, shown: &Covered<'_>, path: &Text) -> Result<Bytes, Refusal>
    requires { KeepsProduction (matter_behind shown.now) (production_shown shown.now) }
    ensures { let files = volume_of (production_shown shown.now) (matter_behind shown.now) in
        Answers (λ bytes. bytes) result (file_answer path.now files) }
{
    shown.know_valid();
    match find_file(alloc, shown, shown.production(), path)? {
        Some(bytes) => Ok(bytes),
        None => Err(Refusal::Rule(Rule::bare(RuleKind::NoFile))),
    }
}
