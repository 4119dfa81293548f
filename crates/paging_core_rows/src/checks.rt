//! Comparisons as calls: a test with an `assert_eq!` for each takes several times as long to be proved.
use std::fmt::Debug;
use std::process::Abort;

/// Ends the test, and shows both values, if they differ.
pub(crate) fn same<T: PartialEq + Debug + Drop>(rt: &impl Abort, found: T, wanted: T) {
    assert_eq!(rt; found, wanted);
}
