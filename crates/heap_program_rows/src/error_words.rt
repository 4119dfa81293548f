use crate::checks::same;
use dlmalloc::MallocError;
use heap_memory::GrantFault;
use kernel_heap::RunError;
use std::test::Fail;

/// Why no machine is made, in the words that the program writes to standard error.
const RUN_ERRORS: [(RunError, &'static str); 4] = [
    (RunError::BadWindow, "bad window"),
    (RunError::BadGranularity, "bad granularity"),
    (RunError::TooFewFrames, "too few frames"),
    (RunError::OutOfMemory, "out of memory"),
];

/// Why a heap hands out no block; a fault of the system keeps its own words.
const MALLOC_ERRORS: [(MallocError, &'static str); 4] = [
    (MallocError::TooLarge, "too large"),
    (MallocError::System(GrantFault::NoSpace), "no space"),
    (MallocError::System(GrantFault::NoFrames), "no frames"),
    (
        MallocError::System(GrantFault::OutOfMemory),
        "out of memory",
    ),
];

#[test]
fn errors_have_their_words(rt: HostRuntime) -> Result<(), Fail> {
    for (error, words) in RUN_ERRORS {
        let text = format!(in rt.alloc(); "{error}")?;
        same(&rt, text.as_str(), words);
    }
    for (error, words) in MALLOC_ERRORS {
        let text = format!(in rt.alloc(); "{error}")?;
        same(&rt, text.as_str(), words);
        if let MallocError::System(fault) = error {
            let text = format!(in rt.alloc(); "{fault}")?;
            same(&rt, text.as_str(), words);
        }
    }
    Ok(())
}
