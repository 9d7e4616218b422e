// Comparisons. A call of one is proved faster than the macro in it.
use std::fmt::Debug;
use std::process::Abort;

// Asserts that the given value is the right one.
pub fn same<T: PartialEq + Debug + Drop>(rt: &impl Abort, given: T, want: T) {
    assert_eq!(rt; given, want);
}

// Asserts the same for a case of a table.
pub fn same_for<C: Debug + Drop, T: PartialEq + Debug + Drop>(
    rt: &impl Abort,
    case: C,
    given: T,
    want: T,
) {
    assert_eq!(rt; given, want, "{case:?}");
}
