//! Runs of the whole program over bytes in memory, for rows of an input and what is printed for it.
use heap_program::{Ended, SureSink, SureSource, heap_main};
use std::alloc::{AllocError, Global};

/// What the command `run` prints for an input. Each run ends with status 0.
pub(crate) struct Row {
    /// What the program reads.
    pub(crate) input: &'static str,
    /// What it writes.
    pub(crate) output: &'static str,
}

/// Words as the program takes them.
pub(crate) fn strings(alloc: Global, words: &[&str]) -> Result<Vec<String>, AllocError> {
    let mut strings = Vec::new(alloc);
    for word in words {
        strings.push(String::from_str(alloc, word)?)?;
    }
    Ok(strings)
}

/// Runs a command over an input in memory.
pub(crate) fn outcome(
    alloc: Global,
    words: &[&str],
    input: &[u8],
) -> Result<(Ended, SureSink), AllocError> {
    let mut source = SureSource::new(input.to_vec(alloc)?);
    let mut sink = SureSink::new(alloc);
    let ended = heap_main(alloc, &strings(alloc, words)?, &mut source, &mut sink);
    Ok((ended, sink))
}
