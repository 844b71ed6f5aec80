// The command `import`.
ghost use Rattle.std.specs.Prelude.{◌≡◌, IfOk, Some};
ghost use Rattle.std.specs.Option.{option_map};
ghost use Rattle.bp_outside.specs.Folder.{FolderView};
ghost use Rattle.bp_cli.specs.Words.{words_lent};
ghost use Rattle.bp_cli.specs.Import.{batch_named, imported_line};
ghost use Rattle.bp_cli.specs.Commands.{import, ReadsAndWorks};
ghost use Rattle.bp_cli.specs.Endings.{world};

use crate::stops::Stop;
use crate::words::{text_of, word_at};
use bp_core::{Bytes, OutOfMemory};
use bp_import::{one_batch, read_batch};
use bp_keep::Keeper;
use bp_outside::Source;
use bp_rules::{Counted, load_tables, step_import};
use std::alloc::Global;

/// The name of the folder that the one operand of `import BATCH` gives.
pub fn batch_in<'a>(operands: &[&'a str]) -> Option<&'a str>
    ensures { option_map (λ name. name.now) result ≡ batch_named (words_lent operands.now) }
{
    if operands.len() != 1 {
        return None;
    }
    Some(word_at(operands, 0))
}

/// Imports the batch of a folder of the source into the matter that the keeper has the rows of.
/// The line that tells how many documents and pages the batch has.
pub fn import_batch<S: Source, K: Keeper>(
    alloc: Global,
    name: &str,
    source: &mut S,
    keeper: &mut K,
) -> Result<Bytes, Stop>
    ensures { (folder : FolderView)
        → let line = Some (import name.now) in
        let before = world (S.shows source.old) (K.shows keeper.old) folder in
        let after = world (S.shows source.new) (K.shows keeper.new) folder in
        ReadsAndWorks line before result after }
{
    one_batch();
    let mut tables = load_tables(alloc, keeper)?;
    tables.know_valid();
    let folder = text_of(alloc, name)?;
    let batch = read_batch(alloc, source, &folder)?;
    let counted = step_import(alloc, &mut tables, keeper, &batch)?;
    Ok(line_of_counts(alloc, name, counted)?)
}

// `batch NAME documents N pages N`
fn line_of_counts(alloc: Global, name: &str, counted: Counted) -> Result<Bytes, OutOfMemory>
    ensures { IfOk result (λ line. line ≡ imported_line name.now counted) }
{
    let Counted { documents, pages } = counted;
    let line = format!(in alloc; "batch {name} documents {documents} pages {pages}\n")?;
    Ok(Bytes::from_vec(line.into_bytes()))
}
