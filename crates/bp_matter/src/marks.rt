// The boxes and the held fields of a document, on shelves or in a list.
ghost use Rattle.std.specs.Prelude.{◌≡◌, IsTrue};
ghost use Rattle.std.specs.List.{list_all};
ghost use Rattle.bp_core.specs.Sorted.{ascends};
ghost use Rattle.bp_matter.specs.Matter.{box_key, held_key};
ghost use Rattle.bp_matter.specs.Written.{box_written, held_written};
ghost use Rattle.bp_matter.specs.Confirming.{boxes_on, held_on};

use crate::rows::{DocBox, DocBoxShelves, DocHeld, DocHeldShelves};
use bp_core::{DocNo, rows_between, two_keys};

// The boxes on the shelf of this document, in ascending order of number.
pub(crate) fn boxes_of(boxes: &DocBoxShelves, doc: DocNo) -> &[DocBox]
    requires { IsTrue (list_all box_written boxes.now.rows) }
    ensures { result.now ≡ boxes_on doc.0 boxes.now.rows }
{
    boxes.of_doc(doc)
}

// The held fields on the shelf of this document, in ascending order of field.
pub(crate) fn held_of(held: &DocHeldShelves, doc: DocNo) -> &[DocHeld]
    requires { IsTrue (list_all held_written held.now.rows) }
    ensures { result.now ≡ held_on doc.0 held.now.rows }
{
    held.of_doc(doc)
}

// The boxes of this document in a list, in ascending order of number.
pub(crate) fn boxes_on(boxes: &[DocBox], doc: DocNo) -> &[DocBox]
    requires ascending { IsTrue (ascends box_key 0 boxes.now) }
    requires written { IsTrue (list_all box_written boxes.now) }
    ensures { result.now ≡ boxes_on doc.0 boxes.now }
{
    let first = two_keys(doc.0, 0);
    rows_between(boxes, first, first + 4_294_967_296)
}

// The held fields of this document in a list, in ascending order of field.
pub(crate) fn held_on(held: &[DocHeld], doc: DocNo) -> &[DocHeld]
    requires ascending { IsTrue (ascends held_key 0 held.now) }
    requires written { IsTrue (list_all held_written held.now) }
    ensures { result.now ≡ held_on doc.0 held.now }
{
    let first = two_keys(doc.0, 0);
    rows_between(held, first, first + 4_294_967_296)
}
