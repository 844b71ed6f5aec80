// The paths of the load files and of the manifest.
ghost use Rattle.std.specs.Prelude.{◌≡◌};
ghost use Rattle.std.specs.Option.{option_copied};
ghost use Rattle.bp_core.specs.Answers.{Answers};
ghost use Rattle.bp_check.specs.Check.{optional_operand, paths_of};

use bp_core::{Refusal, Text, path_of};
use std::alloc::Global;

/// The paths that the operands of a check name.
#[derive(Debug, Drop)]
pub(crate) struct Paths {
    pub(crate) dat: Text,
    pub(crate) opt: Text,
    pub(crate) manifest: Option<Text>,
}

/// The paths that three operands name, of which the last may be left out. PathRefused where one
/// names none.
pub(crate) fn paths_of(
    alloc: Global,
    dat: &Text,
    opt: &Text,
    manifest: Option<&Text>,
) -> Result<Paths, Refusal>
    ensures { Answers (λ paths. paths) result (paths_of
        (record { dat = dat.now; opt = opt.now; manifest = option_copied manifest.entry })) }
{
    let dat = path_of(alloc, dat.as_str())?;
    let opt = path_of(alloc, opt.as_str())?;
    let manifest = optional_path(alloc, manifest)?;
    Ok(Paths { dat, opt, manifest })
}

fn optional_path(alloc: Global, text: Option<&Text>) -> Result<Option<Text>, Refusal>
    ensures { Answers (λ path. path) result (optional_operand (option_copied text.entry)) }
{
    match text {
        Some(text) => Ok(Some(path_of(alloc, text.as_str())?)),
        None => Ok(None),
    }
}
