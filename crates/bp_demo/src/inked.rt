// A page that is drawn, coded row by row without pixels: of a row only the places are needed where its
// colour changes.
ghost use Rattle.std.specs.Prelude.{◌≡◌, ◌<◌, IfOk, MatchOption, OnOk};
ghost use Rattle.bp_rows.specs.Changes.{Shows};
ghost use Rattle.bp_rows.specs.Image.{row_of};
ghost use Rattle.bp_rows.specs.declared.resolution.Unit.TheVariants.{Inch};
ghost use Rattle.bp_t6.specs.Written.{bits_strip};
ghost use Rattle.bp_demo.specs.Pages.{AreLines, PassesNone, PassesWord, demo_dots, page_image};

use crate::pages::{FIRST_ROW, LINE_ROWS, PAGE_DOTS, PAGE_HEIGHT, PAGE_WIDTH, WORD_ROWS};
use bp_core::{Bytes, OutOfMemory};
use bp_matter::{Frame, KeptPage};
use bp_rows::{Res, Unit};
use bp_t6::StripWriter;
use bp_t6::laws::{strip_law, strip_size};
use bp_text::Word;
use std::alloc::Global;

// The page on which these words are black, coded. To keep it, its strip is read and coded once more,
// which takes less than to look for the changing elements among the pixels of a painted page.
pub fn inked_page(alloc: Global, words: &[Word]) -> Result<KeptPage, OutOfMemory>
    requires { AreLines words.now }
    ensures { IfOk result (λ kept. kept ≡ page_image words.now) }
{
    let strip = inked_strip(alloc, words)?;
    strip_law();
    strip_size();
    match KeptPage::of_strip(alloc, page_frame(), strip.as_slice())? {
        Some(kept) => Ok(kept),
        None => unreachable!(),
    }
}

// The sides and resolutions of a drawn page.
fn page_frame() -> Frame
    ensures { result ≡ record {
      width = PAGE_WIDTH;
      height = PAGE_HEIGHT;
      xres = demo_dots;
      yres = demo_dots;
      unit = Inch;
    } }
{
    let dots = Res {
        num: PAGE_DOTS,
        den: 1,
    };
    Frame {
        width: PAGE_WIDTH,
        height: PAGE_HEIGHT,
        xres: dots,
        yres: dots,
        unit: Unit::Inch,
    }
}

// The strip of the page on which these words are black (ITU-T T.6).
fn inked_strip(alloc: Global, words: &[Word]) -> Result<Bytes, OutOfMemory>
    requires { AreLines words.now }
    ensures { IfOk result (λ strip. strip ≡ bits_strip (page_image words.now)) }
{
    let mut writer = StripWriter::start(alloc, PAGE_WIDTH)?;
    let mut places = Vec::new(alloc);
    for row in 0..PAGE_HEIGHT {
        put_places(&mut places, words, row)?;
        writer.add_places(&places)?;
    }
    writer.finish(alloc)
}

// The places where the colour of a row changes become these: both ends of the word in it, if there is
// one.
fn put_places(places: &mut Vec<u32>, words: &[Word], row: u32) -> Result<(), OutOfMemory>
    requires lines { AreLines words.now }
    requires row { row < PAGE_HEIGHT }
    ensures { OnOk result (Shows places.new.items PAGE_WIDTH (row_of (page_image words.now) row)) }
{
    places.clear();
    if let Some(word) = word_in(words, row) {
        places.push(word.rect.left)?;
        places.push(word.rect.left + word.rect.width)?;
    }
    Ok(())
}

// The word that a row passes, by the places of words on a page.
fn word_in(words: &[Word], row: u32) -> Option<&Word>
    ensures { let all = words.now in
        MatchOption result (PassesNone all row) (λ word. PassesWord all row word.now) }
{
    let below = row.checked_sub(FIRST_ROW)?;
    if below % LINE_ROWS < WORD_ROWS {
        words.get((below / LINE_ROWS) as usize)
    } else {
        None
    }
}
