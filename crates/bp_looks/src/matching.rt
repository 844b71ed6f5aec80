// When a term matches a word.
ghost use Rattle.std.specs.Prelude.{◌≡◌, ◌<◌, ◌∷◌, ◌++◌, [], IfSome, IfNone, length, reverse};
ghost use Rattle.std.specs.Str.{chars};
ghost use Rattle.bp_looks.specs.Matching.{stands_for_one, begins, begins_somewhere};
ghost use Rattle.bp_looks.specs.Matching.{has_front_star, without_front_star};
ghost use Rattle.bp_looks.specs.Matching.{has_end_star, without_end_star, stands_for};
ghost use Rattle.bp_looks.specs.Matching.{is_letter_or_digit, from_first_letter, core_of};
ghost use Rattle.bp_looks.specs.Matching.{matches};

use ucd_case::simple_fold;
use ucd_category::{GeneralCategory, GeneralCategoryGroup};

// What stands for any characters, as the first or the last character of a term.
const STAR: char = '*';

// What stands for one digit in a term.
const NUMBER_SIGN: char = '#';

// Whether the term, a list of characters, matches the word: it stands for the word or for its core.
pub(crate) fn matches(term: &[char], word: &str) -> bool
    ensures { result ≡ matches term.now (chars word.now) }
{
    stands_for(term, word) || stands_for(term, core_of(word))
}

// Whether it stands for the word.
fn stands_for(term: &[char], word: &str) -> bool
    ensures { result ≡ stands_for term.now (chars word.now) }
{
    let rest = without_front_star(term);
    let more_follows = has_end_star(rest);
    let middle = without_end_star(rest);
    if has_front_star(term) {
        begins_somewhere(more_follows, middle, word)
    } else {
        begins(more_follows, middle, word)
    }
}

fn has_front_star(term: &[char]) -> bool
    ensures { result ≡ has_front_star term.now }
{
    !term.is_empty() && term[0] == STAR
}

fn without_front_star(term: &[char]) -> &[char]
    ensures { result.now ≡ without_front_star term.now }
{
    if has_front_star(term) {
        &term[1..]
    } else {
        term
    }
}

fn has_end_star(term: &[char]) -> bool
    ensures { result ≡ has_end_star term.now }
{
    !term.is_empty() && term[term.len() - 1] == STAR
}

fn without_end_star(term: &[char]) -> &[char]
    ensures { result.now ≡ without_end_star term.now }
{
    if has_end_star(term) {
        &term[..term.len() - 1]
    } else {
        term
    }
}

// Whether the signs stand for the beginning of the word, or of what is left of it after some characters.
fn begins_somewhere(more_follows: bool, signs: &[char], word: &str) -> bool
    ensures { result ≡ begins_somewhere more_follows signs.now (chars word.now) }
{
    let mut rest = word;
    'rest: loop {
        if begins(more_follows, signs, rest) {
            return true;
        }
        match split_first(rest) {
            Some((_, more)) => rest = more,
            None => return false,
        }
    }
}

// Whether the signs stand for the word or, where more may follow them, for its beginning.
fn begins(more_follows: bool, signs: &[char], word: &str) -> bool
    ensures { result ≡ begins more_follows signs.now (chars word.now) }
{
    let mut rest = word;
    for sign in signs {
        match split_first(rest) {
            Some((c, more)) => {
                if !stands_for_one(*sign, c) {
                    return false;
                }
                rest = more;
            }
            None => return false,
        }
    }
    more_follows || split_first(rest).is_none()
}

fn stands_for_one(sign: char, c: char) -> bool
    ensures { result ≡ stands_for_one sign c }
{
    if sign == NUMBER_SIGN {
        c.is_ascii_digit()
    } else {
        simple_fold(sign) == simple_fold(c)
    }
}

// The word from its first letter or digit to its last.
fn core_of(word: &str) -> &str
    ensures { chars result.now ≡ core_of (chars word.now) }
{
    to_last_letter(from_first_letter(word))
}

fn from_first_letter(word: &str) -> &str
    ensures { chars result.now ≡ from_first_letter (chars word.now) }
{
    let mut rest = word;
    while let Some((c, more)) = split_first(rest) {
        if is_letter_or_digit(c) {
            return rest;
        }
        rest = more;
    }
    rest
}

fn to_last_letter(word: &str) -> &str
    ensures { chars result.now ≡ reverse (from_first_letter (reverse (chars word.now))) }
{
    let mut rest = word;
    while let Some((c, more)) = split_last(rest) {
        if is_letter_or_digit(c) {
            return rest;
        }
        rest = more;
    }
    rest
}

fn is_letter_or_digit(c: char) -> bool
    ensures { result ≡ is_letter_or_digit c }
{
    let category = GeneralCategory::for_char(c);
    GeneralCategoryGroup::Letter.contains(category)
        || category.number() == GeneralCategory::DecimalNumber.number()
}

// The first character of a text, and the rest.
fn split_first(text: &str) -> Option<(char, &str)>
    ensures none { IfNone result (chars text.now ≡ []) }
    ensures some { IfSome result (λ x. chars text.now ≡ x.0 ∷ chars x.1.now) }
    ensures shorter { IfSome result (λ x. length x.1.now < length text.now) }
{
    let mut walk = text.chars();
    match walk.next() {
        Some(c) => Some((c, walk.as_str())),
        None => None,
    }
}

// The last character of a text, and what is before it.
fn split_last(text: &str) -> Option<(char, &str)>
    ensures none { IfNone result (chars text.now ≡ []) }
    ensures some { IfSome result (λ x. chars text.now ≡ chars x.1.now ++ x.0 ∷ []) }
    ensures shorter { IfSome result (λ x. length x.1.now < length text.now) }
{
    let mut walk = text.chars();
    match walk.next_back() {
        Some(c) => Some((c, walk.as_str())),
        None => None,
    }
}
