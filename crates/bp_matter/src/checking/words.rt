// Whether rows are the words of the pages of a matter.
ghost use Rattle.std.specs.List.{list_all};
ghost use Rattle.std.specs.Option.{option_copied};
ghost use Rattle.std.specs.Prelude.{IsTrue, ◌≡◌};
ghost use Rattle.bp_core.specs.Sorted.{ascends};
ghost use Rattle.bp_matter.specs.Written.{words_written};
ghost use Rattle.bp_matter.specs.Matter.{page_key};
ghost use Rattle.bp_matter.specs.ValidWords.{WordFacts, word_fits, words_fit};

use super::pages::{are_paged, inside_page, page_in};
use crate::rows::{DocRow, PageRow, PageWords};
use crate::texts::is_word_text;
use bp_core::ascends;
use bp_text::Word;

fn word_fits(page: Option<&PageRow>, word: &Word) -> bool
    ensures { result ≡ word_fits (option_copied page.entry) word.now }
{
    inside_page(page, word.rect) && is_word_text(&word.text)
}

fn words_fit(pages: &[PageRow], row: &PageWords) -> bool
    requires { IsTrue (ascends page_key 0 pages.now) }
    ensures { result ≡ words_fit pages.now row.now }
{
    let page = page_in(pages, row.doc, row.page);
    row.words
        .as_slice()
        .iter()
        .all(|word| word_fits(page, word))
}

fn all_words_fit(pages: &[PageRow], rows: &[PageWords]) -> bool
    requires { IsTrue (ascends page_key 0 pages.now) }
    ensures { result ≡ list_all (words_fit pages.now) rows.now }
{
    rows.iter().all(|row| words_fit(pages, row))
}

pub(crate) fn words_valid(docs: &[DocRow], pages: &[PageRow], words: &[PageWords]) -> bool
    requires pages { IsTrue (ascends page_key 0 pages.now) }
    requires written { IsTrue (list_all words_written words.now) }
    ensures fact { IsTrue result → WordFacts docs.now pages.now words.now }
    ensures back { WordFacts docs.now pages.now words.now → IsTrue result }
{
    if !ascends(words) {
        return false;
    }
    if !are_paged(docs, words) {
        return false;
    }
    all_words_fit(pages, words)
}
