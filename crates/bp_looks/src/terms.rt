// The terms of a search.
ghost use Rattle.std.specs.Prelude.{◌≡◌, IfOk};
ghost use Rattle.std.specs.List.{list_all};
ghost use Rattle.bp_matter.specs.Texts.{is_plain_character};
ghost use Rattle.bp_looks.specs.Hits.{terms_of};
ghost use Rattle.bp_looks.specs.Terms.{is_term, are_terms};

use bp_core::{OutOfMemory, Text, TextList};
use std::alloc::Global;

/// The most terms of a search.
pub const MAX_TERMS: usize = 8;

/// The most bytes of a term.
pub const MAX_TERM: usize = 200;

// Whether a search takes these terms.
pub(crate) fn are_terms(terms: &TextList) -> bool
    ensures { result ≡ are_terms terms.now }
{
    !terms.is_empty() && terms.len() <= MAX_TERMS && is_each_term(terms.as_slice())
}

// Whether each of these texts is a term.
fn is_each_term(texts: &[Text]) -> bool
    ensures { result ≡ list_all is_term texts.now }
{
    texts.iter().all(|text| is_term(text))
}

fn is_term(term: &Text) -> bool
    ensures { result ≡ is_term term.now }
{
    term.len() <= MAX_TERM && !term.is_empty() && are_plain_characters(term)
}

fn are_plain_characters(text: &Text) -> bool
    ensures { result ≡ list_all is_plain_character text.now }
{
    text.as_str().chars().all(|c| is_plain_character(c))
}

fn is_plain_character(c: char) -> bool
    ensures { result ≡ is_plain_character c }
{
    c as u32 >= 32 && c as u32 != 127
}

// The characters of each term.
pub(crate) fn letters_of(alloc: Global, terms: &TextList) -> Result<Vec<Vec<char>>, OutOfMemory>
    ensures { IfOk result (λ letters. terms_of letters.items ≡ terms.now) }
{
    let mut letters = Vec::new(alloc);
    for term in terms.as_slice() {
        letters.push(letters_in(alloc, term)?)?;
    }
    Ok(letters)
}

fn letters_in(alloc: Global, term: &Text) -> Result<Vec<char>, OutOfMemory>
    ensures { IfOk result (λ letters. letters.items ≡ term.now) }
{
    let letters: Vec<char> = term.as_str().chars().collect(alloc)?;
    Ok(letters)
}
