//! Tests of the commands where no line of `bp_test_days` reaches: the program over a system of the tests'
//! own, and the top call over a database in memory.
#![tactic(auto)]

#[cfg(test)]
mod databases;
#[cfg(test)]
mod meeting_door;
#[cfg(test)]
mod page_file;
#[cfg(test)]
mod programs;
#[cfg(test)]
mod replies;
#[cfg(test)]
mod stage;
#[cfg(test)]
mod two_doors;
