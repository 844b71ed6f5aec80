// The words of a page that is drawn.
ghost use Rattle.std.specs.Prelude.{◌≡◌, ◌<◌, IfOk, OnOk};
ghost use Rattle.bp_demo.specs.Draws.{next};
ghost use Rattle.bp_demo.specs.Pages.{AreLines, behind_page, words_drawn, word_from};

use crate::draws::Draws;
use crate::plain_texts::word_text;
use bp_core::{OutOfMemory, Rect};
use bp_text::Word;
use std::alloc::Global;

/// The width of a drawn page in pixels.
pub const PAGE_WIDTH: u32 = 850;

/// The height of a drawn page in pixels.
pub const PAGE_HEIGHT: u32 = 1_100;

/// The resolution of a drawn page, in dots to the inch.
pub const PAGE_DOTS: u32 = 100;

/// How many words a drawn page has, each on a line of its own.
pub const LINES: u32 = 40;

/// The first row of the first word.
pub const FIRST_ROW: u32 = 50;

/// How many rows there are from the first row of a word to that of the next one.
pub const LINE_ROWS: u32 = 25;

/// How many rows a word has.
pub const WORD_ROWS: u32 = 12;

// Draws the words of a page.
pub fn drawn_words(alloc: Global, draws: &mut Draws) -> Result<Vec<Word>, OutOfMemory>
    ensures words { IfOk result (λ words. words.items ≡ words_drawn draws.old.state) }
    ensures lines { IfOk result (λ words. AreLines words.items) }
    ensures state { OnOk result (draws.new.state ≡ behind_page draws.old.state) }
{
    let mut words = Vec::new(alloc);
    for i in 0..LINES {
        words.push(drawn_word(alloc, draws, i)?)?;
    }
    Ok(words)
}

// Draws a word of a page, by its place from 0.
fn drawn_word(alloc: Global, draws: &mut Draws, i: u32) -> Result<Word, OutOfMemory>
    requires { i < LINES }
    ensures word { IfOk result (λ word. word ≡ word_from draws.old.state i) }
    ensures state { OnOk result (draws.new.state ≡ next (next (next draws.old.state))) }
{
    let left = 50 + draws.draw(600);
    let width = 1 + draws.draw(150);
    let number = draws.draw(1_000);
    let rect = Rect {
        left,
        top: FIRST_ROW + LINE_ROWS * i,
        width,
        height: WORD_ROWS,
    };
    let text = word_text(alloc, number)?;
    Ok(Word {
        line: i + 1,
        rect,
        text,
    })
}
