// Whether rows are the boxes and the held fields of a matter.
ghost use Rattle.std.specs.List.{list_all};
ghost use Rattle.std.specs.Prelude.{IsTrue, ◌≡◌};
ghost use Rattle.bp_core.specs.Sorted.{ascends};
ghost use Rattle.bp_matter.specs.Written.{box_written, held_written};
ghost use Rattle.bp_matter.specs.Matter.{box_key, held_key, page_key};
ghost use Rattle.bp_matter.specs.ValidMarks.{BoxFacts, HeldFacts, box_fits, doc_box_fits, doc_held_fits};

use super::numbers::names;
use super::pages::{inside_page, page_in};
use crate::limits::MAX_BOX;
use crate::rows::{BoxRow, DocBox, DocHeld, PageRow};
use bp_core::{DocNo, ascends};

pub(crate) fn box_fits(pages: &[PageRow], doc: DocNo, row: &BoxRow) -> bool
    requires { IsTrue (ascends page_key 0 pages.now) }
    ensures { result ≡ box_fits pages.now doc.0 row.now }
{
    names(MAX_BOX, row.num) && inside_page(page_in(pages, doc, row.page), row.rect)
}

fn boxes_fit(pages: &[PageRow], rows: &[DocBox]) -> bool
    requires { IsTrue (ascends page_key 0 pages.now) }
    ensures { result ≡ list_all (doc_box_fits pages.now) rows.now }
{
    rows.iter().all(|row| box_fits(pages, row.doc, &row.row))
}

pub(crate) fn boxes_valid(pages: &[PageRow], boxes: &[DocBox]) -> bool
    requires pages { IsTrue (ascends page_key 0 pages.now) }
    requires written { IsTrue (list_all box_written boxes.now) }
    ensures order { IsTrue result → IsTrue (ascends box_key 0 boxes.now) }
    ensures fact { IsTrue result → BoxFacts pages.now boxes.now }
    ensures back { BoxFacts pages.now boxes.now → IsTrue result }
{
    if !ascends(boxes) {
        return false;
    }
    boxes_fit(pages, boxes)
}

fn held_fit(fields: usize, docs: usize, rows: &[DocHeld]) -> bool
    ensures { result ≡ list_all (doc_held_fits fields docs) rows.now }
{
    rows.iter().all(|row| names(docs, row.doc.0) && names(fields, row.row.field))
}

pub(crate) fn held_valid(fields: usize, docs: usize, held: &[DocHeld]) -> bool
    requires written { IsTrue (list_all held_written held.now) }
    ensures order { IsTrue result → IsTrue (ascends held_key 0 held.now) }
    ensures fact { IsTrue result → HeldFacts fields docs held.now }
    ensures back { HeldFacts fields docs held.now → IsTrue result }
{
    if !ascends(held) {
        return false;
    }
    held_fit(fields, docs, held)
}
