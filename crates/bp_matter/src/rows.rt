// The rows of the tables.
use crate::kept_page::KeptPage;
use bp_bates::{Prefix, Span};
use bp_core::{
    Basis, DocNo, Ink, Keyed, ListOf, PageNo, Rect, Role, StaffNo, Text, TextList, Treatment,
    two_keys,
};
use bp_shelves::{Shelved, Shelves};
use bp_text::WordList;

pub type BoxList = ListOf<BoxRow>;

pub type HeldList = ListOf<HeldRow>;

pub type ItemList = ListOf<Item>;

// The lists of the tables are `Vec`s: how many rows they take without more memory is part of them.
// What comes and goes with a document stands on the document's shelf.
pub type StaffList = Vec<StaffRow>;

pub type FieldList = Vec<FieldRow>;

pub type DocList = Vec<DocRow>;

pub type PageList = Vec<PageRow>;

pub type CallList = Vec<CallRow>;

pub type CallShelves = Shelves<CallRow>;

pub type DocBoxList = Vec<DocBox>;

pub type DocBoxShelves = Shelves<DocBox>;

pub type DocHeldList = Vec<DocHeld>;

pub type DocHeldShelves = Shelves<DocHeld>;

pub type EntryList = Vec<DocEntry>;

pub type EntryShelves = Shelves<DocEntry>;

pub type PrefixList = Vec<PrefixRow>;

pub type ProductionList = Vec<ProductionRow>;

pub type BatchList = Vec<BatchRow>;

pub type PageWordsList = Vec<PageWords>;

/// A member of the staff.
#[derive(Debug, Drop)]
pub struct StaffRow {
    pub staff: StaffNo,
    pub role: Role,
    pub digest: [u8; 32],
    pub name: Text,
}

/// A field of the load files.
#[derive(Debug, Drop)]
pub struct FieldRow {
    pub field: u32,
    pub name: Text,
}

/// A document. Its values are those of the first fields, in their order.
#[derive(Debug, Drop)]
pub struct DocRow {
    pub doc: DocNo,
    pub parent: DocNo,
    pub pages: u32,
    pub batch: u32,
    pub id: Text,
    pub values: TextList,
}

/// A page of a document, kept as its strip.
#[derive(Debug, Drop)]
pub struct PageRow {
    pub doc: DocNo,
    pub page: PageNo,
    pub image: KeptPage,
}

/// How far the review of a document has come.
#[derive(Clone, Copy, Debug, PartialEq, Eq)]
pub enum State {
    Uncalled,
    /// Called; the number is that of the last editor.
    First(StaffNo),
    /// Called by the first, and confirmed by the second.
    Confirmed(StaffNo, StaffNo),
}

/// What was decided of a called document.
#[derive(Debug, Drop)]
pub struct CallRow {
    pub doc: DocNo,
    pub state: State,
    pub responsive: bool,
    pub treatment: Treatment,
    pub designation: Text,
}

/// A box of a document or of an item.
#[derive(Clone, Copy, Debug, PartialEq, Eq)]
pub struct BoxRow {
    pub num: u32,
    pub page: PageNo,
    pub rect: Rect,
    pub basis: Basis,
}

#[derive(Clone, Copy, Debug, PartialEq, Eq)]
pub struct DocBox {
    pub doc: DocNo,
    pub row: BoxRow,
}

/// A field of a document or of an item that is held back.
#[derive(Clone, Copy, Debug, PartialEq, Eq)]
pub struct HeldRow {
    pub field: u32,
    pub basis: Basis,
}

#[derive(Clone, Copy, Debug, PartialEq, Eq)]
pub struct DocHeld {
    pub doc: DocNo,
    pub row: HeldRow,
}

/// What is said of a document in the privilege log.
#[derive(Debug, PartialEq, Eq, Drop)]
pub struct Entry {
    pub date: Text,
    pub author: Text,
    pub recipients: Text,
    pub description: Text,
}

#[derive(Debug, Drop)]
pub struct DocEntry {
    pub doc: DocNo,
    pub entry: Entry,
}

/// A prefix of labels, and the number that its next label has.
#[derive(Debug, Drop)]
pub struct PrefixRow {
    pub num: u32,
    pub prefix: Prefix,
    pub next: u64,
}

/// What a production was asked for.
#[derive(Debug, PartialEq, Eq, Drop)]
pub struct Request {
    pub id: Text,
    pub volume: Text,
    pub prefix: Prefix,
    pub from: DocNo,
    pub to: DocNo,
    pub fields: TextList,
}

/// A document of a production, as it stood when it was frozen.
#[derive(Debug, PartialEq, Eq, Drop)]
pub struct Item {
    pub doc: DocNo,
    pub parent: DocNo,
    pub treatment: Treatment,
    pub boxes: BoxList,
    pub held: HeldList,
    pub entry: Option<Entry>,
    pub designation: Text,
    pub span: Span,
}

/// What a request gave when it was frozen: how its boxes are drawn, and its items with their numbers.
#[derive(Debug, PartialEq, Eq, Drop)]
pub struct Production {
    pub ink: Ink,
    pub request: Request,
    pub items: ItemList,
    pub span: Span,
}

#[derive(Debug, Drop)]
pub struct ProductionRow {
    pub num: u32,
    pub production: Production,
}

/// A batch that was imported.
#[derive(Debug, Drop)]
pub struct BatchRow {
    pub num: u32,
    pub digest: [u8; 32],
    pub documents: u32,
    pub pages: u32,
    pub name: Text,
}

/// The words of a page.
#[derive(Debug, Drop)]
pub struct PageWords {
    pub doc: DocNo,
    pub page: PageNo,
    pub words: WordList,
}

impl Keyed for StaffRow {
    ghost key_of = { λ row. row.staff.0 };

    fn key(&self) -> u128 {
        let number = self.staff.0;
        u128::from(number)
    }
}

impl Keyed for FieldRow {
    ghost key_of = { λ row. row.field };

    fn key(&self) -> u128 {
        let number = self.field;
        u128::from(number)
    }
}

impl Keyed for DocRow {
    ghost key_of = { λ row. row.doc.0 };

    fn key(&self) -> u128 {
        let number = self.doc.0;
        u128::from(number)
    }
}

impl Keyed for CallRow {
    ghost key_of = { λ row. row.doc.0 };

    fn key(&self) -> u128 {
        let number = self.doc.0;
        u128::from(number)
    }
}

impl Keyed for BoxRow {
    ghost key_of = { λ row. row.num };

    fn key(&self) -> u128 {
        let number = self.num;
        u128::from(number)
    }
}

impl Keyed for HeldRow {
    ghost key_of = { λ row. row.field };

    fn key(&self) -> u128 {
        let number = self.field;
        u128::from(number)
    }
}

impl Keyed for DocEntry {
    ghost key_of = { λ row. row.doc.0 };

    fn key(&self) -> u128 {
        let number = self.doc.0;
        u128::from(number)
    }
}

impl Keyed for PrefixRow {
    ghost key_of = { λ row. row.num };

    fn key(&self) -> u128 {
        let number = self.num;
        u128::from(number)
    }
}

impl Keyed for ProductionRow {
    ghost key_of = { λ row. row.num };

    fn key(&self) -> u128 {
        let number = self.num;
        u128::from(number)
    }
}

impl Keyed for BatchRow {
    ghost key_of = { λ row. row.num };

    fn key(&self) -> u128 {
        let number = self.num;
        u128::from(number)
    }
}

impl Keyed for PageRow {
    ghost use Rattle.bp_core.specs.Sorted.{two_keys};

    ghost key_of = { λ row. two_keys row.doc.0 row.page.0 };

    fn key(&self) -> u128 {
        two_keys(self.doc.0, self.page.0)
    }
}

impl Keyed for DocBox {
    ghost use Rattle.bp_core.specs.Sorted.{two_keys};

    ghost key_of = { λ row. two_keys row.doc.0 row.row.num };

    fn key(&self) -> u128 {
        two_keys(self.doc.0, self.row.num)
    }
}

impl Keyed for DocHeld {
    ghost use Rattle.bp_core.specs.Sorted.{two_keys};

    ghost key_of = { λ row. two_keys row.doc.0 row.row.field };

    fn key(&self) -> u128 {
        two_keys(self.doc.0, self.row.field)
    }
}

impl Keyed for PageWords {
    ghost use Rattle.bp_core.specs.Sorted.{two_keys};

    ghost key_of = { λ row. two_keys row.doc.0 row.page.0 };

    fn key(&self) -> u128 {
        two_keys(self.doc.0, self.page.0)
    }
}

// A document has one call at most, and one log entry.
impl Shelved for CallRow {
    ghost span = { 1 };

    ghost doc_of = { λ row. row.doc.0 };

    fn doc(&self) -> DocNo {
        self.doc
    }
}

impl Shelved for DocEntry {
    ghost span = { 1 };

    ghost doc_of = { λ row. row.doc.0 };

    fn doc(&self) -> DocNo {
        self.doc
    }
}

// A document's boxes and held fields are numbered below 2^32.
impl Shelved for DocBox {
    ghost span = { 4294967296 };

    ghost doc_of = { λ row. row.doc.0 };

    fn doc(&self) -> DocNo {
        let _num = self.row.num;
        self.doc
    }
}

impl Shelved for DocHeld {
    ghost span = { 4294967296 };

    ghost doc_of = { λ row. row.doc.0 };

    fn doc(&self) -> DocNo {
        let _field = self.row.field;
        self.doc
    }
}
