// What is told is what is wanted. These functions alone have such assertions: an assertion lends
// both of its sides, and each function that makes one proves those loans anew.
use std::fmt::{Debug, Display};
use std::process::Abort;

pub fn same<T: Copy + Debug + PartialEq>(rt: &impl Abort, told: T, wanted: T) {
    assert_eq!(rt; told, wanted);
}

// The same in the case of a table that begins with these two.
pub fn same_at<T: Copy + Debug + PartialEq>(
    rt: &impl Abort,
    told: T,
    wanted: T,
    one: impl Copy + Display,
    two: impl Copy + Display,
) {
    assert_eq!(rt; told, wanted, "at {one}, {two}");
}

pub fn holds(rt: &impl Abort, told: bool) {
    assert!(rt; told);
}
