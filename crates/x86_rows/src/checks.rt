//! Comparisons as calls: a test with an `assert_eq!` for each takes several times as long to be proved.
use std::fmt::{Debug, Display};
use std::process::Abort;

/// Ends the test, and shows both values, if they differ.
pub(crate) fn same<T: PartialEq + Debug + Drop>(rt: &impl Abort, found: T, wanted: T) {
    assert_eq!(rt; found, wanted);
}

/// The same for one row of several, which is shown too.
pub(crate) fn same_at<T: PartialEq + Debug + Drop, R: Display + Drop>(
    rt: &impl Abort,
    row: R,
    found: T,
    wanted: T,
) {
    assert_eq!(rt; found, wanted, "{row}");
}
