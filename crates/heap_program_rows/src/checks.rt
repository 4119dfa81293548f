//! What tests share. A function that owns a machine gives it up wherever it may return, which takes long to be proved: so
//! tests make one, and pass it to what they do with it.
use crate::runs::{Row, outcome};
use kernel_heap::{Config, Machine};
use std::alloc::Global;
use std::fmt::Debug;
use std::process::Abort;
use std::test::Fail;

/// Ends the test, and shows both values, if they differ. A test with an `assert_eq!` for each comparison takes several
/// times as long to be proved.
pub(crate) fn same<T: PartialEq + Debug + Drop>(rt: &impl Abort, found: T, wanted: T) {
    assert_eq!(rt; found, wanted);
}

/// A machine of a configuration that is none of the refused ones.
pub(crate) fn machine_of(rt: &impl Abort, alloc: Global, config: &Config) -> Machine {
    let Ok(machine) = Machine::new(alloc, config) else {
        panic!(rt; "no machine");
    };
    machine
}

/// Looks that a command prints the row's output for its input, and ends with status 0.
pub(crate) fn expect_row(
    rt: &impl Abort,
    alloc: Global,
    words: &[&str],
    row: &Row,
) -> Result<(), Fail> {
    let (ended, sink) = outcome(alloc, words, row.input.as_bytes())?;
    assert_eq!(rt; sink.written(), row.output.as_bytes(), "for {}", row.input);
    assert_eq!(rt; ended.status, 0);
    Ok(())
}

/// Looks that the command `run` prints this output for an input, and ends with status 0.
pub(crate) fn expect_output(
    rt: &impl Abort,
    alloc: Global,
    input: &[u8],
    output: &[u8],
) -> Result<(), Fail> {
    let (ended, sink) = outcome(alloc, &["run"], input)?;
    same(rt, sink.written(), output);
    same(rt, ended.status, 0);
    Ok(())
}
