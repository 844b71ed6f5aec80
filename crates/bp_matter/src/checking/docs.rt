// Whether rows are the documents of a matter.
ghost use Rattle.std.specs.List.{list_all};
ghost use Rattle.std.specs.Prelude.{IsTrue, length, nat_le, ◌≡◌, ◌≤◌};
ghost use Rattle.bp_core.specs.Sorted.{ascends};
ghost use Rattle.bp_matter.specs.Written.{doc_written};
ghost use Rattle.bp_matter.specs.Matter.{doc_key};
ghost use Rattle.bp_matter.specs.Texts.{is_value};
ghost use Rattle.bp_matter.specs.ValidDocs.{DocFacts, are_families, doc_fits};

use super::numbers::{is_numbered, names};
use crate::limits::MAX_DOCUMENTS;
use crate::rows::DocRow;
use crate::texts::{is_id_of_doc, is_value};
use bp_core::Text;

fn are_families(docs: &[DocRow]) -> bool
    ensures { result ≡ are_families 1 docs.now }
{
    let mut before = 1;
    let mut rest = docs;
    while let Some((first, others)) = rest.split_first() {
        if first.parent != first.doc && first.parent.0 != before {
            return false;
        }
        before = first.parent.0;
        rest = others;
    }
    true
}

fn are_values(values: &[Text]) -> bool
    ensures { result ≡ list_all is_value values.now }
{
    values.iter().all(|text| is_value(text))
}

fn doc_fits(fields: usize, batches: usize, row: &DocRow) -> bool
    ensures { result ≡ doc_fits fields batches row.now }
{
    row.pages >= 1
        && row.values.len() <= fields
        && names(batches, row.batch)
        && is_id_of_doc(&row.id)
        && are_values(row.values.as_slice())
}

fn docs_fit(fields: usize, batches: usize, rows: &[DocRow]) -> bool
    ensures { result ≡ list_all (doc_fits fields batches) rows.now }
{
    rows.iter().all(|row| doc_fits(fields, batches, row))
}

fn docs_few(rows: &[DocRow]) -> bool
    ensures { result ≡ nat_le (length rows.now) MAX_DOCUMENTS }
{
    rows.len() <= MAX_DOCUMENTS
}

#[tactic(auto, using(crate::proofs::NumberedLemmas::orders))]
pub(crate) fn docs_valid(fields: usize, batches: usize, docs: &[DocRow]) -> bool
    requires written { IsTrue (list_all doc_written docs.now) }
    ensures order { IsTrue result → IsTrue (ascends doc_key 0 docs.now) }
    ensures few { IsTrue result → length docs.now ≤ MAX_DOCUMENTS }
    ensures fact { IsTrue result → DocFacts fields batches docs.now }
    ensures back { DocFacts fields batches docs.now → IsTrue result }
{
    if !is_numbered(docs, 1) {
        return false;
    }
    if !docs_few(docs) {
        return false;
    }
    if !are_families(docs) {
        return false;
    }
    docs_fit(fields, batches, docs)
}
