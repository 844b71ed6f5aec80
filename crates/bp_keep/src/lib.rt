//! Where the rows of a matter are kept.
//!
//! `Keeper` is a keeper of rows as a trait. It has one ghost view, `shows`, which contracts cite
//! (`KeeperView`): its rows, where they are told, and counts of its faults, loads and commits that
//! never fall. `load` comes first and gives the rows; `commit` makes a list of puts (`put_all`), all
//! of them or none.
//! `MemKeeper` holds its rows in memory, and tells them.
#![tactic(auto)]

mod keeper;
mod memory;
mod refusals;

pub use keeper::Keeper;
pub use memory::MemKeeper;
pub use refusals::KeepRefusal;
