// Marks of families, by the numbers of their parents.
ghost use Rattle.std.specs.Prelude.{◌≡◌, ◌<◌, ◌+◌, ◌^◌, ◌||◌, ◌&&◌, ◌==◌, ℕ, IfOk, false, length, vec_len};
ghost use Rattle.std.specs.List.{list_any};
ghost use Rattle.bp_matter.specs.declared.rows.Item.{Item};
ghost use Rattle.bp_freeze.specs.Marks.{AreMarks, is_marked};
ghost use Rattle.bp_freeze.specs.Seeing.{is_produced};

use bp_core::{DocNo, OutOfMemory};
use bp_matter::{Item, Tables};
use std::alloc::Global;

// No marks, for so many documents.
pub(crate) fn no_marks(alloc: Global, documents: usize) -> Result<Vec<bool>, OutOfMemory>
    requires { documents < 2 ^ 32 }
    ensures { IfOk result (λ marks. AreMarks documents marks.items (λ n. false)) }
{
    Ok(vec![in alloc; false; documents + 1]?)
}

// Marks a family, if it is to be marked.
pub(crate) fn mark_if(marks: &mut Vec<bool>, parent: DocNo, yes: bool)
    ensures many { vec_len marks.new ≡ vec_len marks.old }
    ensures tell { (n : ℕ) → n < vec_len marks.old → is_marked marks.new.items n
        ≡ (is_marked marks.old.items n || ((parent.0 == n) && yes)) }
{
    let place = parent.0 as usize;
    if yes && place < marks.len() {
        marks[place] = true;
    }
}

// Whether a family is marked.
pub(crate) fn is_marked(marks: &[bool], parent: DocNo) -> bool
    ensures { result ≡ is_marked marks.now parent.0 }
{
    let place = parent.0 as usize;
    place < marks.len() && marks[place]
}

// The families that stand in a production.
pub(crate) fn produced_marks(alloc: Global, tables: &Tables) -> Result<Vec<bool>, OutOfMemory>
    ensures { IfOk result (λ marks. AreMarks (length tables.now.matter.docs) marks.items
        (is_produced tables.now.matter.productions)) }
{
    tables.know_valid();
    let mut marks = no_marks(alloc, tables.docs.len())?;
    let mut rest = tables.productions.as_slice();
    while let Some((first, others)) = rest.split_first() {
        mark_items(&mut marks, first.production.items.as_slice());
        rest = others;
    }
    Ok(marks)
}

// Marks the families of these items.
fn mark_items(marks: &mut Vec<bool>, items: &[Item])
    ensures many { vec_len marks.new ≡ vec_len marks.old }
    ensures tell { (n : ℕ) → n < vec_len marks.old → is_marked marks.new.items n
        ≡ (is_marked marks.old.items n || list_any (λ item. item.parent.0 == n) items.now) }
{
    let mut rest = items;
    while let Some((first, others)) = rest.split_first() {
        mark_if(marks, first.parent, true);
        rest = others;
    }
}
