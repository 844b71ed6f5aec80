// What is shown of a document: of its call, and how much else there is.
ghost use Rattle.std.specs.Prelude.{◌≡◌, IfOk, length};
ghost use Rattle.std.specs.Option.{option_copied};
ghost use Rattle.bp_matter.specs.Confirming.{boxes_on, held_on, is_entered};
ghost use Rattle.bp_matter.specs.LookUps.{called_state};
ghost use Rattle.bp_looks.specs.Shown.{shown_designation, shown_responsive, shown_treatment};

use crate::copies::{copy_text, empty};
use bp_core::{DocNo, OutOfMemory, Text, Treatment};
use bp_matter::{CallRow, State, Tables};
use std::alloc::Global;

pub(crate) fn called_state(call: Option<&CallRow>) -> State
    ensures { result ≡ called_state (option_copied call.entry) }
{
    match call {
        None => State::Uncalled,
        Some(row) => row.state,
    }
}

pub(crate) fn shown_responsive(call: Option<&CallRow>) -> bool
    ensures { result ≡ shown_responsive (option_copied call.entry) }
{
    match call {
        None => false,
        Some(row) => row.responsive,
    }
}

pub(crate) fn shown_treatment(call: Option<&CallRow>) -> Treatment
    ensures { result ≡ shown_treatment (option_copied call.entry) }
{
    match call {
        None => Treatment::Produce,
        Some(row) => row.treatment,
    }
}

pub(crate) fn shown_designation(alloc: Global, call: Option<&CallRow>) -> Result<Text, OutOfMemory>
    ensures { IfOk result (λ shown. shown ≡ shown_designation (option_copied call.entry)) }
{
    match call {
        None => Ok(empty(alloc)),
        Some(row) => copy_text(&row.designation),
    }
}

// How many boxes a document has.
pub(crate) fn box_count(tables: &Tables, doc: DocNo) -> u32
    ensures { result ≡ length (boxes_on doc.0 tables.now.matter.boxes) }
{
    tables.know_valid();
    tables.boxes_on(doc).len() as u32
}

// How many fields of a document are held back.
pub(crate) fn held_count(tables: &Tables, doc: DocNo) -> u32
    ensures { result ≡ length (held_on doc.0 tables.now.matter.held) }
{
    tables.know_valid();
    tables.held_on(doc).len() as u32
}

// Whether the privilege log has an entry of a document.
pub(crate) fn is_entered(tables: &Tables, doc: DocNo) -> bool
    ensures { result ≡ is_entered doc.0 tables.now.matter.entries }
{
    match tables.entry_with(doc) {
        None => false,
        Some(_) => true,
    }
}
