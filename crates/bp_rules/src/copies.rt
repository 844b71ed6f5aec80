// Copies of what a batch and the tables hold.
ghost use Rattle.std.specs.Prelude.{◌≡◌, IfOk};

use bp_core::{ListOf, OutOfMemory, Text};
use bp_text::{Word, WordList};
use std::alloc::Global;

pub(crate) fn copy_text(text: &Text) -> Result<Text, OutOfMemory>
    ensures { IfOk result (λ copy. copy ≡ text.now) }
{
    Ok(text.clone()?)
}

pub(crate) fn copy_words(alloc: Global, words: &WordList) -> Result<WordList, OutOfMemory>
    ensures { IfOk result (λ copies. copies ≡ words.now) }
{
    let mut copies = Vec::new(alloc);
    for word in words.as_slice() {
        copies.push(Word {
            line: word.line,
            rect: word.rect,
            text: copy_text(&word.text)?,
        })?;
    }
    Ok(ListOf::from_vec(copies))
}
