// What is told of a matter as a whole, and what a search finds.
use crate::rows::State;
use bp_bates::Span;
use bp_core::{Basis, DocNo, ListOf, Role, StaffNo, Text, Treatment};

/// How far the review of a document has come. Of an uncalled one `responsive` is false, the treatment
/// Produce and the designation empty.
#[derive(Debug, Drop)]
pub struct StateRow {
    pub doc: DocNo,
    pub parent: DocNo,
    /// How many pages it has.
    pub pages: u32,
    pub state: State,
    pub responsive: bool,
    pub treatment: Treatment,
    pub designation: Text,
    /// How many boxes it has.
    pub boxes: u32,
    /// How many of its fields are held back.
    pub held: u32,
    /// Whether the privilege log has an entry of it.
    pub entry: bool,
    /// The id of the production in which it stands.
    pub production: Option<Text>,
}

pub type StateList = ListOf<StateRow>;

/// A field of the matter, and what a document has in it.
#[derive(Debug, Drop)]
pub struct ValueRow {
    /// The number of the field, from 1.
    pub field: u32,
    pub name: Text,
    /// Empty where the document has none.
    pub value: Text,
    /// The ground on which it is held back, where it is.
    pub held: Option<Basis>,
}

pub type ValueList = ListOf<ValueRow>;

/// What is told of a member of the staff: nothing of their key.
#[derive(Debug, Drop)]
pub struct PersonRow {
    pub staff: StaffNo,
    pub name: Text,
    pub role: Role,
}

pub type PersonList = ListOf<PersonRow>;

/// What is told of a kept production. `from` and `to` are the first and the last document of its
/// request.
#[derive(Debug, Drop)]
pub struct ProductionView {
    pub id: Text,
    pub volume: Text,
    pub prefix: Text,
    /// How many digits its labels have.
    pub width: u8,
    pub span: Span,
    /// How many items it has: one a document.
    pub items: u32,
    pub from: DocNo,
    pub to: DocNo,
}

pub type ProductionViewList = ListOf<ProductionView>;

/// Where terms match: on a page, with field 0, or in a field of the matter, with page 0.
#[derive(Clone, Copy, Debug, PartialEq, Eq)]
pub struct Hit {
    pub doc: DocNo,
    /// The number of the page in its document, from 1, or 0.
    pub page: u32,
    /// The number of the field, from 1, or 0.
    pub field: u32,
    /// Which word of the page or of the field's value the first term matches, from 1.
    pub place: u32,
    /// How many words are matched: one a term.
    pub count: u32,
}

pub type HitList = ListOf<Hit>;

/// What one search found. `next` and `next_page` name the first part that it didn't take: a document and
/// a page of it, or 0 for the document's values. Where none is left both are 0.
#[derive(Debug, Drop)]
pub struct Found {
    pub hits: HitList,
    pub next: u32,
    pub next_page: u32,
}
