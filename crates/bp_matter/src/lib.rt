//! The matter: its tables, always valid, and the rows that keep them.
//!
//! `read_tables` gives the tables that rows are kept for, or the rule KeptRowBad; `Tables::rows` gives
//! the rows again, in ascending order; `laws` says that equal rows are of equal tables. Their contracts
//! cite `IsValid` of specs/Valid.antt, what holds of every matter, and `rows_of` of specs/KeptRows.antt.
//! The look-ups of `Tables` find rows. `Call`, `Reply` and `Batch` are what crosses between this crate
//! and those above.
#![tactic(auto)]

mod batches;
mod calls;
mod checking;
mod copies;
mod images;
mod kept_page;
mod kept_tables;
mod kinds;
pub mod laws;
mod limits;
mod list_parts;
mod lists;
mod looks;
mod lookups;
mod marks;
mod parts;
mod read_fault;
mod reading;
mod rows;
mod tables;
pub mod texts;
mod threads;
pub mod treatments;
mod writing;

pub use batches::{Batch, BatchDoc, BatchDocList, BatchPage, BatchPageList};
pub use calls::{Call, DocView, Reply};
pub use checking::confirming::confirm_rule;
pub use checking::entries::entry_fits;
pub use checking::items::optional_fits;
pub use kept_page::{Frame, KeptPage};
pub use kept_tables::read_tables;
pub use kinds::Kind;
pub use limits::{
    MAX_BATCHES, MAX_BOX, MAX_DESCRIPTION, MAX_DESIGNATION, MAX_DOCUMENTS, MAX_FIELDS,
    MAX_FREE_PIXELS, MAX_ID, MAX_NAME, MAX_PAGES, MAX_PIXELS, MAX_PRODUCTIONS, MAX_STAFF,
    MAX_STRIP_BYTES,
};
pub use looks::{
    Found, Hit, HitList, PersonList, PersonRow, ProductionView, ProductionViewList, StateList,
    StateRow, ValueList, ValueRow,
};
pub use rows::{
    BatchList, BatchRow, BoxList, BoxRow, CallRow, CallShelves, DocBox, DocBoxShelves, DocEntry,
    DocHeld, DocHeldShelves, DocList, DocRow, Entry, EntryShelves, FieldList, FieldRow, HeldList,
    HeldRow, Item, ItemList, PageList, PageRow, PageWords, PageWordsList, PrefixList, PrefixRow,
    Production, ProductionList, ProductionRow, Request, StaffList, StaffRow, State,
};
pub use tables::Tables;
pub use threads::tables_are_shared;
