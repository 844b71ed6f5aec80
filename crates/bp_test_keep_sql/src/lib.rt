//! Tests of a keeper over a database: commits in memory, tables of another definition, and a disk
//! that stops.
#![tactic(auto)]

#[cfg(test)]
mod many_rows;
#[cfg(test)]
mod other_tables;
#[cfg(test)]
mod sql_rows;
#[cfg(test)]
mod stops;
#[cfg(test)]
mod two_commits;
