// Texts in memory of their own.
ghost use Rattle.std.specs.Prelude.{◌≡◌, IfOk, []};
ghost use Rattle.std.specs.Option.{option_copied};

use bp_core::{OutOfMemory, Text};
use std::alloc::Global;

pub(crate) fn copy_text(text: &Text) -> Result<Text, OutOfMemory>
    ensures { IfOk result (λ copy. copy ≡ text.now) }
{
    Ok(text.clone()?)
}

pub(crate) fn empty(alloc: Global) -> Text
    ensures { result ≡ [] }
{
    Text::from_string(String::new(alloc))
}

pub(crate) fn copy_if(text: Option<&Text>) -> Result<Option<Text>, OutOfMemory>
    ensures { IfOk result (λ copy. copy ≡ option_copied text.entry) }
{
    match text {
        None => Ok(None),
        Some(text) => Ok(Some(copy_text(text)?)),
    }
}
