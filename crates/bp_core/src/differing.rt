// Whether no two rows have the same name, or what else tells them apart.
ghost use Rattle.std.specs.Prelude.{◌≡◌, ℕ, List, IfOk};
ghost use Rattle.bp_core.specs.Differing.{all_differ, texts_differ};

use crate::refusals::OutOfMemory;
use crate::texts::Text;
use std::alloc::Global;
use std::collections::BTreeSet;

/// What tells rows of this type apart: a text, which is compared by its bytes.
pub trait UniqueText<T> {
    // the text
    ghost text_of: { T → List ℕ };

    // its bytes
    ghost coded: { List ℕ → List ℕ };

    // the text that has these bytes
    ghost decoded: { List ℕ → List ℕ };

    /// The bytes of the text.
    fn bytes(row: &T) -> &[u8]
        ensures bytes { result.now ≡ coded (text_of row.now) }
        ensures text { decoded result.now ≡ text_of row.now };
}

/// Whether no two rows have the same text, by one look-up a row.
pub fn all_differ<L: UniqueText<T>, T>(alloc: Global, rows: &[T]) -> Result<bool, OutOfMemory>
    ensures { IfOk result (λ differ. differ ≡ all_differ L.text_of rows.now) }
{
    let mut seen = BTreeSet::new(alloc);
    let mut rest = rows;
    while let Some((first, others)) = rest.split_first() {
        if !seen.insert(L::bytes(first))? {
            return Ok(false);
        }
        rest = others;
    }
    Ok(true)
}

// A text tells itself apart.
struct WholeText;

impl UniqueText<Text> for WholeText {
    ghost use Rattle.std.specs.Prelude.{encode_utf8_all};
    ghost use Rattle.std.specs.Str.{chars};

    ghost text_of = { λ text. text };

    ghost coded = { encode_utf8_all };

    ghost decoded = { chars };

    fn bytes(row: &Text) -> &[u8] {
        row.as_str().as_bytes()
    }
}

/// Whether no two texts are alike, by one look-up a text.
pub fn texts_differ(alloc: Global, texts: &[Text]) -> Result<bool, OutOfMemory>
    ensures { IfOk result (λ differ. differ ≡ texts_differ texts.now) }
{
    all_differ::<WholeText, _>(alloc, texts)
}
