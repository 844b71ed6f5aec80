// Looking things up in the tables. None of these calls takes memory.
ghost use Rattle.std.specs.Prelude.{◌≡◌, IsTrue, length};
ghost use Rattle.std.specs.Option.{option_copied};
ghost use Rattle.bp_core.specs.Sorted.{find_key};
ghost use Rattle.bp_matter.specs.Confirming.{boxes_on, held_on};
ghost use Rattle.bp_matter.specs.LookUps.{call_with, called_state, doc_with, entry_with, field_with, lead_digest_in, of_row, page_with, prefix_with, production_with, staff_with, state_of_doc, words_with};
ghost use Rattle.bp_matter.specs.ValidRows.{is_numbered};

use crate::kept_page::KeptPage;
use crate::marks::{boxes_of, held_of};
use crate::rows::{
    CallRow, DocBox, DocEntry, DocHeld, DocRow, FieldRow, PageRow, PageWords, PrefixRow,
    Production, ProductionRow, StaffRow, State,
};
use crate::tables::Tables;
use bp_core::{DocNo, Keyed, PageNo, Text, find_row, two_keys};

impl Tables {
    /// The production of this id.
    pub fn production(&self, id: &Text) -> Option<&Production>
        ensures { option_copied result
            ≡ of_row (λ row. row.production) (production_with id.now self.now.matter) }
    {
        match self.production_with(id) {
            Some(row) => Some(&row.production),
            None => None,
        }
    }

    /// The row of the production of this id.
    pub fn production_with(&self, id: &Text) -> Option<&ProductionRow>
        ensures { option_copied result ≡ production_with id.now self.now.matter }
    {
        self.productions
            .iter()
            .find(|row| row.production.request.id == *id)
    }

    /// The SHA-256 of the key of staff 1, who is a lead.
    pub fn lead_digest(&self) -> [u8; 32]
        ensures { result ≡ lead_digest_in self.now.matter.staff }
    {
        self.staff[0].digest
    }

    /// How many documents there are.
    pub fn documents(&self) -> u32
        ensures { result ≡ length self.now.matter.docs }
    {
        self.docs.len() as u32
    }

    /// How many pages a document has.
    pub fn doc_pages(&self, doc: DocNo) -> Option<u32>
        ensures { result ≡ of_row (λ row. row.pages) (doc_with doc.0 self.now.matter) }
    {
        match self.doc_with(doc) {
            Some(row) => Some(row.pages),
            None => None,
        }
    }

    /// How far the review of a document has come.
    pub fn state(&self, doc: DocNo) -> Option<State>
        ensures { result ≡ state_of_doc doc.0 self.now.matter }
    {
        match self.doc_with(doc) {
            Some(_) => Some(called_state(self.call_with(doc))),
            None => None,
        }
    }

    /// The row of a document.
    pub fn doc_with(&self, doc: DocNo) -> Option<&DocRow>
        ensures { option_copied result ≡ doc_with doc.0 self.now.matter }
    {
        row_numbered(&self.docs, doc.0)
    }

    /// The row of a page of a document.
    pub fn page_with(&self, doc: DocNo, page: PageNo) -> Option<&PageRow>
        ensures { option_copied result ≡ page_with doc.0 page.0 self.now.matter }
    {
        find_row(&self.pages, two_keys(doc.0, page.0))
    }

    /// A page of a document, as it is kept.
    pub fn kept(&self, doc: DocNo, page: PageNo) -> Option<&KeptPage>
        ensures { option_copied result
            ≡ of_row (λ row. row.image) (page_with doc.0 page.0 self.now.matter) }
    {
        match self.page_with(doc, page) {
            Some(row) => Some(&row.image),
            None => None,
        }
    }

    /// The words of a page of a document.
    pub fn words_with(&self, doc: DocNo, page: PageNo) -> Option<&PageWords>
        ensures { option_copied result ≡ words_with doc.0 page.0 self.now.matter }
    {
        find_row(&self.words, two_keys(doc.0, page.0))
    }

    /// The call of a document; None where it is uncalled.
    pub fn call_with(&self, doc: DocNo) -> Option<&CallRow>
        ensures { option_copied result ≡ call_with doc.0 self.now.matter }
    {
        self.calls.find(doc, two_keys(0, doc.0))
    }

    /// The boxes of a document, in ascending order of number.
    pub fn boxes_on(&self, doc: DocNo) -> &[DocBox]
        ensures { result.now ≡ boxes_on doc.0 self.now.matter.boxes }
    {
        boxes_of(&self.boxes, doc)
    }

    /// The fields of a document that are held back, in ascending order of number.
    pub fn held_on(&self, doc: DocNo) -> &[DocHeld]
        ensures { result.now ≡ held_on doc.0 self.now.matter.held }
    {
        held_of(&self.held, doc)
    }

    /// What the privilege log says of a document.
    pub fn entry_with(&self, doc: DocNo) -> Option<&DocEntry>
        ensures { option_copied result ≡ entry_with doc.0 self.now.matter }
    {
        self.entries.find(doc, two_keys(0, doc.0))
    }

    /// The member of the staff whose key has this SHA-256.
    pub fn staff_with(&self, digest: &[u8; 32]) -> Option<&StaffRow>
        ensures { option_copied result ≡ staff_with digest.now self.now.matter }
    {
        self.staff.iter().find(|row| row.digest == *digest)
    }

    /// The field of this name.
    pub fn field_with(&self, name: &Text) -> Option<&FieldRow>
        ensures { option_copied result ≡ field_with name.now self.now.matter }
    {
        self.fields.iter().find(|row| row.name == *name)
    }

    /// The prefix of this text.
    pub fn prefix_with(&self, text: &Text) -> Option<&PrefixRow>
        ensures { option_copied result ≡ prefix_with text.now self.now.matter }
    {
        self.prefixes.iter().find(|row| row.prefix.text == *text)
    }
}

// How far a document of this call has come.
fn called_state(call: Option<&CallRow>) -> State
    ensures { result ≡ called_state (option_copied call.entry) }
{
    match call {
        None => State::Uncalled,
        Some(row) => row.state,
    }
}

// The row of this number, in a list of rows that are numbered from 1 without a gap.
fn row_numbered<T: Keyed>(rows: &[T], number: u32) -> Option<&T>
    requires { IsTrue (is_numbered T.key_of 1 rows.now) }
    ensures { option_copied result ≡ find_key T.key_of number rows.now }
{
    let count = number as usize;
    if count == 0 || rows.len() < count {
        return None;
    }
    Some(&rows[count - 1])
}
