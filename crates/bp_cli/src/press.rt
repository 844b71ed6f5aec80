// The commands `press` and `log`.
ghost use Rattle.std.specs.Prelude.{◌≡◌, Some};
ghost use Rattle.std.specs.Option.{option_map};
ghost use Rattle.std.specs.Str.{chars};
ghost use Rattle.bp_outside.specs.Folder.{FolderView};
ghost use Rattle.bp_outside.specs.Source.{SourceView};
ghost use Rattle.bp_cli.specs.Commands.{log, press, ReadsAndWorks};
ghost use Rattle.bp_cli.specs.Endings.{world};
ghost use Rattle.bp_cli.specs.Press.{id_named};
ghost use Rattle.bp_cli.specs.Words.{words_lent};

use crate::stops::Stop;
use crate::volumes::put_volume;
use crate::words::{text_of, word_at};
use bp_core::{Bytes, Rule, RuleKind};
use bp_freeze::{found_is_kept, log_text};
use bp_keep::Keeper;
use bp_outside::Folder;
use bp_rules::load_tables;
use std::alloc::Global;
use std::thread::Threads;

/// The id of a production that the one operand of `press ID` and `log ID` gives.
pub fn id_in<'a>(operands: &[&'a str]) -> Option<&'a str>
    ensures { option_map (λ id. chars id.now) result ≡ id_named (words_lent operands.now) }
{
    if operands.len() != 1 {
        return None;
    }
    Some(word_at(operands, 0))
}

/// Puts the volume of a kept production once more. The line that `produce` printed.
pub fn press_kept<R: Threads + Sync, K: Keeper, F: Folder>(
    rt: &R,
    alloc: Global,
    id: &str,
    keeper: &mut K,
    folder: &mut F,
) -> Result<Bytes, Stop>
    ensures { (source : SourceView)
        → let line = Some (press (chars id.now)) in
        let before = world source (K.shows keeper.old) (F.shows folder.old) in
        let after = world source (K.shows keeper.new) (F.shows folder.new) in
        ReadsAndWorks line before result after }
{
    found_is_kept();
    let tables = load_tables(alloc, keeper)?;
    tables.know_valid();
    let id = text_of(alloc, id)?;
    match tables.production(&id) {
        None => Err(Stop::Broken(Rule::bare(RuleKind::NoProduction))),
        Some(production) => put_volume(rt, alloc, &tables, production, folder),
    }
}

/// The privilege log of a kept production.
pub fn log_kept<K: Keeper>(alloc: Global, id: &str, keeper: &mut K) -> Result<Bytes, Stop>
    ensures { (source : SourceView) (folder : FolderView)
        → let line = Some (log (chars id.now)) in
        let before = world source (K.shows keeper.old) folder in
        let after = world source (K.shows keeper.new) folder in
        ReadsAndWorks line before result after }
{
    found_is_kept();
    let tables = load_tables(alloc, keeper)?;
    tables.know_valid();
    let id = text_of(alloc, id)?;
    match tables.production(&id) {
        None => Err(Stop::Broken(Rule::bare(RuleKind::NoProduction))),
        Some(production) => Ok(log_text(alloc, production)?),
    }
}
