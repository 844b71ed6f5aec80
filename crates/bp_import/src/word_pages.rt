// The words of a batch and the pages that they stand on.
ghost use Rattle.std.specs.Prelude.{◌≡◌, ◌<◌, ◌^◌, length, IsTrue, List, Ok};
ghost use Rattle.bp_core.specs.Answers.{Answers};
ghost use Rattle.bp_load.specs.declared.opt.OptLine.{OptLine};
ghost use Rattle.bp_import.specs.Breaks.{place_of};
ghost use Rattle.bp_import.specs.Places.{Finds};
ghost use Rattle.bp_import.specs.WordPages.{GivesInside, are_places, places_of};

use crate::breaks::Places;
use bp_core::{Refusal, Rule, RuleKind, Text};
use bp_matter::KeptPage;
use bp_text::WordRow;
use std::alloc::Global;

/// The place of the line of each word. WordsPage with the number of the first record, from 1, whose
/// image id no line has.
pub(crate) fn places_of(
    alloc: Global,
    places: &Places<'_>,
    rows: &[WordRow],
) -> Result<Vec<usize>, Refusal>
    requires { length rows.now < 2 ^ 32 }
    ensures { (lines : List OptLine) → Finds places.now lines
        → Answers (λ found. found.items) result (places_of lines rows.now) }
{
    let mut found = Vec::with_capacity(alloc, rows.len())?;
    let mut number = 0;
    for row in rows {
        number += 1;
        match place_of(places, &row.image) {
            Some(place) => found.push(place)?,
            None => return Err(Refusal::Rule(Rule::at_line(RuleKind::WordsPage, number))),
        }
    }
    Ok(found)
}

fn place_of(places: &Places<'_>, image: &Text) -> Option<usize>
    ensures { (lines : List OptLine) → Finds places.now lines
        → result ≡ place_of image.now lines }
{
    places.get(image.as_str()).copied()
}

/// Tests that each word lies inside its page, at its place among the pages. WordOutside with the
/// number of the first record, from 1, whose word doesn't.
pub(crate) fn words_inside(
    rows: &[WordRow],
    places: &[usize],
    pages: &[KeptPage],
) -> Result<(), Rule>
    requires few { length rows.now < 2 ^ 32 }
    requires even { length places.now ≡ length rows.now }
    requires placed { IsTrue (are_places (length pages.now) places.now) }
    ensures { (lines : List OptLine) → places_of lines rows.now ≡ Ok places.now
        → length lines ≡ length pages.now
        → GivesInside lines pages.now rows.now result }
{
    let mut number = 0;
    for row in rows {
        let page = &pages[places[number]];
        if !row.word.rect.inside(page.width(), page.height()) {
            return Err(Rule::at_line(RuleKind::WordOutside, number as u32 + 1));
        }
        number += 1;
    }
    Ok(())
}
