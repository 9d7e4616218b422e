//! An assertion in its own function: proving one takes longer than proving a call.
use std::fmt::Debug;
use std::process::Abort;

/// Asserts that the given value is the expected one.
pub fn same<T: PartialEq + Debug + Copy>(rt: &impl Abort, what: &str, given: T, expected: T) {
    assert_eq!(rt; given, expected, "{what}");
}
