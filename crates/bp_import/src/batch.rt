// The batch of a folder, whole or with the first rule that it breaks.
ghost use Rattle.std.specs.Prelude.{◌≡◌, length, IfOk, IfSome, Ok};
ghost use Rattle.bp_import.specs.Batch.{BatchAnswers, docs_of};
ghost use Rattle.bp_import.specs.Breaks.{breaks_of, cut, page_counts};
ghost use Rattle.bp_import.specs.Documents.{with_words, words_of_lines};
ghost use Rattle.bp_import.specs.Families.{parents_of};
ghost use Rattle.bp_import.specs.Importing.{Comes, after_step};
ghost use Rattle.bp_import.specs.WordPages.{places_of};

use crate::breaks::page_counts;
use crate::documents::{docs_with_pages, pages_with_words, words_by_place};
use crate::plans::{Placed, Planned, read_plan};
use crate::records::Record;
use crate::refusals::ImportRefusal;
use crate::scans::{Images, PageList, read_images};
use crate::word_pages::words_inside;
use bp_core::{OutOfMemory, Text};
use bp_load::OptLine;
use bp_matter::{Batch, BatchDocList};
use bp_outside::Source;
use std::alloc::Global;

/// The batch in the folder `name` of a source: its DAT, OPT and words file and the images that the
/// OPT file names, in this order. The first rule that is broken, in the order of `BatchAnswers`;
/// SourceFault where a read failed. A document is a record of the DAT file, and a page is a line of
/// the OPT file.
pub fn read_batch<S: Source>(
    alloc: Global,
    source: &mut S,
    name: &Text,
) -> Result<Batch, ImportRefusal>
    // Over told files it is the defined batch, or the first rule that is broken.
    ensures told { IfSome (S.shows source.old).files (λ files.
        Comes (λ batch. batch) (BatchAnswers files name.now) result) }

    // Of the source the count of the refusal's own cause alone rises.
    ensures after { S.shows source.new ≡ after_step (S.shows source.old) result }
{
    let plan = read_plan(alloc, source, name)?;
    let Planned {
        fields,
        docs,
        lines,
        placed,
        digest,
    } = plan;
    let images = read_images(alloc, source, name, lines.as_slice(), digest)?;
    let Images { pages, digest } = images;
    let rows = placed.words.as_slice();
    if let Err(rule) = words_inside(rows, &placed.places, pages.as_slice()) {
        return Err(ImportRefusal::Rule(rule));
    }
    let docs = docs_of(alloc, docs, placed, lines.as_slice(), pages)?;
    let name = name.clone()?;
    Ok(Batch {
        name,
        digest,
        fields,
        docs,
    })
}

// The documents of the records, with their pages in the order of the lines.
fn docs_of(
    alloc: Global,
    docs: Vec<Record>,
    placed: Placed,
    lines: &[OptLine],
    pages: PageList,
) -> Result<BatchDocList, OutOfMemory>
    requires breaks { breaks_of docs.items lines.now ≡ Ok tt }
    requires parents { parents_of docs.items ≡ Ok placed.parents.items }
    requires places { places_of lines.now placed.words ≡ Ok placed.places.items }
    requires pages { length pages ≡ length lines.now }
    ensures { IfOk result (λ made. made ≡ docs_of docs.items placed.parents.items
        (cut (page_counts lines.now) (with_words pages (words_of_lines lines.now placed.words)))) }
{
    let lists = words_by_place(alloc, placed.words, &placed.places, pages.len())?;
    let pages = pages_with_words(alloc, pages, lists)?;
    let counts = page_counts(alloc, lines)?;
    docs_with_pages(alloc, docs, &placed.parents, &counts, pages)
}
