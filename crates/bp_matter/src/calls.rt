// What members of the staff ask for, and what is replied.
use crate::kept_page::KeptPage;
use crate::looks::{Found, PersonList, ProductionViewList, StateList, ValueList};
use crate::rows::{BoxList, Entry, HeldList, Production, Request, State};
use bp_core::{Basis, DocNo, PageNo, Rect, Role, StaffNo, Text, TextList, Treatment};
use bp_text::WordList;

/// A call of a member of the staff.
#[derive(Debug, Drop)]
pub enum Call {
    /// Adds a member of the staff, whose key has this SHA-256.
    AddStaff {
        name: Text,
        role: Role,
        digest: [u8; 32],
    },
    /// Asks what is known of a document.
    SeeDoc {
        doc: DocNo,
    },
    /// Asks for a page, not burned.
    SeePage {
        doc: DocNo,
        page: PageNo,
    },
    /// Asks for the words of a page.
    SeeWords {
        doc: DocNo,
        page: PageNo,
    },
    /// Decides what becomes of a document.
    SetCall {
        doc: DocNo,
        responsive: bool,
        treatment: Treatment,
        designation: Text,
    },
    /// Puts a box on a page, in place of the document's box of that number.
    PutBox {
        doc: DocNo,
        num: u32,
        page: PageNo,
        rect: Rect,
        basis: Basis,
    },
    /// Takes a box away.
    DropBox {
        doc: DocNo,
        num: u32,
    },
    /// Holds the value of a field back.
    HoldField {
        doc: DocNo,
        field: Text,
        basis: Basis,
    },
    /// Frees a field that is held back.
    FreeField {
        doc: DocNo,
        field: Text,
    },
    /// Sets what the privilege log says of a document.
    PutEntry {
        doc: DocNo,
        date: Text,
        author: Text,
        recipients: Text,
        description: Text,
    },
    /// Confirms the call of a document.
    Confirm {
        doc: DocNo,
    },
    /// Takes the call of a document back.
    SendBack {
        doc: DocNo,
    },
    /// Freezes a production.
    Freeze {
        request: Request,
    },
    /// Asks for a frozen production.
    GetProduction {
        id: Text,
    },
    /// Asks for the states of documents, from this one on.
    SeeStates {
        from: DocNo,
    },
    /// Asks for the values of a document.
    SeeValues {
        doc: DocNo,
    },
    /// Asks who is of the staff.
    SeeStaff,
    /// Asks for the kept productions.
    SeeProductions,
    /// Searches for terms, from a part of a document on: a page of it, or 0 for its values.
    Find {
        terms: TextList,
        from: DocNo,
        page: u32,
    },
    /// Asks what a freeze would answer.
    Plan {
        request: Request,
    },
}

/// What is known of a document. Of an uncalled one `responsive` is false, the treatment Produce and
/// the designation empty.
#[derive(Debug, Drop)]
pub struct DocView {
    pub doc: DocNo,
    pub parent: DocNo,
    /// How many pages it has.
    pub pages: u32,
    pub state: State,
    pub responsive: bool,
    pub treatment: Treatment,
    pub designation: Text,
    pub boxes: BoxList,
    pub held: HeldList,
    pub entry: Option<Entry>,
}

/// The reply to a call that breaks no rule.
#[derive(Debug, Drop)]
pub enum Reply {
    /// The member of the staff who was added, or was there.
    Staff(StaffNo),
    Doc(DocView),
    Image(KeptPage),
    Words(WordList),
    Done,
    Produced(Production),
    States(StateList),
    Values(ValueList),
    People(PersonList),
    Productions(ProductionViewList),
    Found(Found),
}
