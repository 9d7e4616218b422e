use std::fmt::Debug;
use std::process::Abort;

// Asserts that the given value is the right one. A call of this function is proved faster than
// the macro in it.
pub fn same<T: PartialEq + Debug + Drop>(rt: &impl Abort, given: T, want: T) {
    assert_eq!(rt; given, want);
}
