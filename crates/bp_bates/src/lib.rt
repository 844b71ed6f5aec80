//! Bates numbers: the prefixes of labels, the spans of numbers that productions take, and the labels.
#![tactic(auto)]

mod labels;
mod prefixes;
mod spans;

pub use labels::{label_into, labels_tell_apart};
pub use prefixes::{Prefix, good_prefix};
pub use spans::{Span, Taken, largest, take};
