// Where terms match texts in turn.
ghost use Rattle.std.specs.Prelude.{◌≡◌, ◌<◌, ◌^◌, ◌++◌, OnOk, IfOk, length, map};
ghost use Rattle.bp_looks.specs.Hits.{lent_texts, terms_of, has_hit, hit_at, hits_of, word_text};
ghost use Rattle.bp_looks.specs.Pieces.{pieces_of};

use crate::matching::matches;
use crate::pieces::pieces;
use bp_core::{DocNo, OutOfMemory, Text};
use bp_matter::Hit;
use bp_text::Word;
use std::alloc::Global;

// Where a row of texts stands: on a page, with field 0, or in a field, with page 0.
#[derive(Clone, Copy)]
pub(crate) struct Spot {
    pub(crate) doc: DocNo,
    pub(crate) page: u32,
    pub(crate) field: u32,
}

// Adds the hits of a value, cut at every space.
pub(crate) fn add_value_hits(
    alloc: Global,
    hits: &mut Vec<Hit>,
    terms: &[Vec<char>],
    spot: Spot,
    value: &Text,
) -> Result<(), OutOfMemory>
    requires terms { length terms.now < 2 ^ 32 }
    requires value { length value.now < 2 ^ 32 }
    ensures { OnOk result (hits.new.items
        ≡ hits.old.items ++ hits_of (terms_of terms.now) spot (pieces_of value.now)) }
{
    let texts = pieces(alloc, value)?;
    add_hits(hits, terms, spot, texts.as_slice())
}

// Adds the hits of the words of a page.
pub(crate) fn add_word_hits(
    alloc: Global,
    hits: &mut Vec<Hit>,
    terms: &[Vec<char>],
    spot: Spot,
    words: &[Word],
) -> Result<(), OutOfMemory>
    requires terms { length terms.now < 2 ^ 32 }
    requires words { length words.now < 2 ^ 32 }
    ensures { OnOk result (hits.new.items
        ≡ hits.old.items ++ hits_of (terms_of terms.now) spot (map word_text words.now)) }
{
    let texts = word_texts(alloc, words)?;
    add_hits(hits, terms, spot, texts.as_slice())
}

// The texts of words, lent.
fn word_texts(alloc: Global, words: &[Word]) -> Result<Vec<&str>, OutOfMemory>
    ensures { IfOk result (λ texts. lent_texts texts.items ≡ map word_text words.now) }
{
    let mut texts = Vec::new(alloc);
    for word in words {
        texts.push(word.text.as_str())?;
    }
    Ok(texts)
}

// Adds the hits of a row of texts.
fn add_hits(
    hits: &mut Vec<Hit>,
    terms: &[Vec<char>],
    spot: Spot,
    texts: &[&str],
) -> Result<(), OutOfMemory>
    requires terms { length terms.now < 2 ^ 32 }
    requires texts { length texts.now < 2 ^ 32 }
    ensures { OnOk result (hits.new.items
        ≡ hits.old.items ++ hits_of (terms_of terms.now) spot (lent_texts texts.now)) }
{
    for i in 0..texts.len() {
        if has_hit(terms, &texts[i..]) {
            hits.push(hit_at(spot, terms.len() as u32, i as u32 + 1))?;
        }
    }
    Ok(())
}

fn hit_at(spot: Spot, count: u32, place: u32) -> Hit
    ensures { result ≡ hit_at spot count place }
{
    Hit {
        doc: spot.doc,
        page: spot.page,
        field: spot.field,
        place,
        count,
    }
}

// Whether the terms match the first texts, in turn.
fn has_hit(terms: &[Vec<char>], texts: &[&str]) -> bool
    ensures { result ≡ has_hit (terms_of terms.now) (lent_texts texts.now) }
{
    for i in 0..terms.len() {
        if i >= texts.len() {
            return false;
        }
        let text = texts[i];
        if !matches(terms[i].as_slice(), text) {
            return false;
        }
    }
    true
}
