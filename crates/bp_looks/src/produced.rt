// In which productions documents stand.
ghost use Rattle.std.specs.Prelude.{◌≡◌, ◌<◌, ◌+◌, ◌==◌, ℕ, IfOk, vec_len};
ghost use Rattle.std.specs.List.{list_any};
ghost use Rattle.std.specs.Option.{option_or};
ghost use Rattle.bp_matter.specs.declared.rows.Item.{Item};
ghost use Rattle.bp_looks.specs.Produced.{AreIds, id_at, id_if, item_is};

use bp_core::{DocNo, OutOfMemory, Text};
use bp_matter::{Item, Tables};
use std::alloc::Global;

// For so many documents, from this one on, the id of the production in which each stands: one pass over
// the items of all productions.
pub(crate) fn production_ids(
    alloc: Global,
    tables: &Tables,
    from: DocNo,
    count: usize,
) -> Result<Vec<Option<&Text>>, OutOfMemory>
    ensures { IfOk result (λ ids. AreIds tables.now.matter from.0 count ids.items) }
{
    let mut ids = vec![in alloc; None; count]?;
    let mut rest = tables.productions.as_slice();
    while let Some((first, others)) = rest.split_first() {
        let production = &first.production;
        put_ids(
            &mut ids,
            from,
            production.items.as_slice(),
            &production.request.id,
        );
        rest = others;
    }
    Ok(ids)
}

// Puts the id of a production at its documents.
fn put_ids<'a>(ids: &mut Vec<Option<&'a Text>>, from: DocNo, items: &[Item], id: &'a Text)
    ensures many { vec_len ids.new ≡ vec_len ids.old }
    ensures tell { (k : ℕ) → k < vec_len ids.old → id_at ids.new.items k
        ≡ option_or (id_at ids.old.items k) (id_if (list_any (item_is (from.0 + k)) items.now) id.now) }
{
    let mut rest = items;
    while let Some((first, others)) = rest.split_first() {
        put_id(ids, from, first.doc, id);
        rest = others;
    }
}

// Puts it at one document, where that is one of them and has none yet.
fn put_id<'a>(ids: &mut Vec<Option<&'a Text>>, from: DocNo, doc: DocNo, id: &'a Text)
    ensures many { vec_len ids.new ≡ vec_len ids.old }
    ensures tell { (k : ℕ) → k < vec_len ids.old → id_at ids.new.items k
        ≡ option_or (id_at ids.old.items k) (id_if (doc.0 == from.0 + k) id.now) }
{
    if doc.0 < from.0 {
        return;
    }
    let place = (doc.0 - from.0) as usize;
    if place < ids.len() && ids[place].is_none() {
        ids[place] = Some(id);
    }
}
