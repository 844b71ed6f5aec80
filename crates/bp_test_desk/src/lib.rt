//! Tests of `bp_desk`: seats of one desk at once, with ample memory.
#![tactic(auto)]

#[cfg(test)]
mod calls;
#[cfg(test)]
mod four_doors;
#[cfg(test)]
mod frozen;
#[cfg(test)]
mod full_histories;
#[cfg(test)]
mod matters;
#[cfg(test)]
mod notes;
#[cfg(test)]
mod replies;
#[cfg(test)]
mod slow_keeper;
#[cfg(test)]
mod stage;
