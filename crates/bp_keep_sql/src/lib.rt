//! The rows of a matter in a table of a SQLite database.
//!
//! `SqlKeeper` is a keeper of rows (`Keeper` of bp_keep) over a connection to any store: a file,
//! files in memory, or memory alone. It keeps one table, `kept`, whose rows have a key (kind, k1,
//! k2) and a body. `SqlKeeper::over` comes first, and runs no statement; the first `load` makes
//! the table where there is none. Contracts cite `keeper_shown`: its rows, where they are told
//! (`rows_told`), its counts, and that it isn't sure.
#![tactic(auto)]

mod commit;
mod files;
mod keeper;
pub mod laws;
mod lines;
mod load;
mod refusals;
mod rowids;
mod statements;

pub use keeper::SqlKeeper;
