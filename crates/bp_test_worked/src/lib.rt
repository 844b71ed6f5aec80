//! Worked rows as days: each test is a script of which each line is told as it says.
#![tactic(auto)]

#[cfg(test)]
mod marks;
#[cfg(test)]
mod presses;
#[cfg(test)]
mod requests;
#[cfg(test)]
mod scripts;
