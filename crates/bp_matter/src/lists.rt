// The lists of rows, before it is known whether they are the tables of a matter.
ghost use Rattle.std.specs.Prelude.{◌≡◌, ◌++◌, IfOk};
ghost use Rattle.bp_matter.specs.KeptRows.{rows_of};
ghost use Rattle.bp_matter.specs.ReadRows.{matter_at_front};
ghost use Rattle.bp_matter.specs.Lists.{matter_read};
ghost use Rattle.bp_matter.specs.Valid.{AreWritten};

use crate::kinds::take_rows;
use crate::rows::{
    BatchList, CallList, DocBoxList, DocHeldList, DocList, EntryList, FieldList, PageList,
    PageWordsList, PrefixList, ProductionList, StaffList,
};
use bp_core::{OutOfMemory, Row};
use std::alloc::Global;

#[derive(Drop)]
pub(crate) struct Lists {
    pub(crate) staff: StaffList,
    pub(crate) fields: FieldList,
    pub(crate) docs: DocList,
    pub(crate) pages: PageList,
    pub(crate) calls: CallList,
    pub(crate) boxes: DocBoxList,
    pub(crate) held: DocHeldList,
    pub(crate) entries: EntryList,
    pub(crate) prefixes: PrefixList,
    pub(crate) productions: ProductionList,
    pub(crate) batches: BatchList,
    pub(crate) words: PageWordsList,
}

// The rows of each kind in turn, and what is left.
pub(crate) fn take_lists(alloc: Global, rows: &[Row]) -> Result<(Lists, &[Row]), OutOfMemory>
    ensures lists { IfOk result (λ x. matter_read x.0 ≡ (matter_at_front rows.now).0) }
    ensures rest { IfOk result (λ x. x.1.now ≡ (matter_at_front rows.now).1) }
    ensures parts { IfOk result (λ x. rows.now ≡ rows_of (matter_read x.0) ++ x.1.now) }
    ensures written { IfOk result (λ x. AreWritten (matter_read x.0)) }
{
    let (staff, rest) = take_rows(alloc, rows)?;
    let (fields, rest) = take_rows(alloc, rest)?;
    let (docs, rest) = take_rows(alloc, rest)?;
    let (pages, rest) = take_rows(alloc, rest)?;
    let (calls, rest) = take_rows(alloc, rest)?;
    let (boxes, rest) = take_rows(alloc, rest)?;
    let (held, rest) = take_rows(alloc, rest)?;
    let (entries, rest) = take_rows(alloc, rest)?;
    let (prefixes, rest) = take_rows(alloc, rest)?;
    let (productions, rest) = take_rows(alloc, rest)?;
    let (batches, rest) = take_rows(alloc, rest)?;
    let (words, rest) = take_rows(alloc, rest)?;
    let lists = Lists {
        staff,
        fields,
        docs,
        pages,
        calls,
        boxes,
        held,
        entries,
        prefixes,
        productions,
        batches,
        words,
    };
    Ok((lists, rest))
}
