//! Tests of `bp_outside`: the objects in memory, with ample memory and with each call failing in
//! turn; and the adapters, over a runtime of the tests' own, on a real disk and over real sockets.
#![tactic(auto)]

#[cfg(test)]
mod adapters;
#[cfg(test)]
mod disk;
#[cfg(test)]
mod doors;
#[cfg(test)]
mod lists;
#[cfg(test)]
mod looks;
#[cfg(test)]
mod memory;
#[cfg(test)]
mod ports;
#[cfg(test)]
mod stage;
