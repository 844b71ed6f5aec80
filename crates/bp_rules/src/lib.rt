//! The rules of a matter: how it begins, how it is loaded from its keeper, and how it changes.
//!
//! A change is decided on tables (`decide`, `decide_import`), room is made for it (`make_room`),
//! its puts are committed to the keeper, and it is made (`apply`), which can't fail; `step` and
//! `step_import` do all of it, and `step_all` of calls and imports in turn. What a call does to a
//! matter is `step_of` of specs/Stepping.antt, what an import does `import_of` of
//! specs/Importing.antt, and what both do in turn `run_of` and `answers_of` of
//! specs/Running.antt. `may` says who may make a call.
#![tactic(auto)]

mod apply_changes;
mod boxes;
mod changes;
mod copies;
mod decide_calls;
mod decide_imports;
mod decided;
mod document_calls;
mod held_fields;
mod histories;
mod import_rows;
mod limits;
mod loaded_tables;
mod log_entries;
mod looks;
mod new_matter;
mod no_such;
mod productions;
mod refusals;
mod roles;
mod second_review;
mod staff;
mod steps;
mod views;

pub use apply_changes::{apply, make_room};
pub use changes::{CallEdit, Change, Edit, ImportRows, MarkEdit};
pub use decide_calls::decide;
pub use decide_imports::{Imported, decide_import};
pub use decided::Decided;
pub use histories::{RunAnswer, RunStep, run_law, step_all};
pub use loaded_tables::load_tables;
pub use new_matter::begin;
pub use refusals::MatterRefusal;
pub use roles::may;
pub use steps::{Counted, step, step_import};
