ghost use Rattle.std.specs.Prelude.{◌≡◌};
ghost use Rattle.kernel_heap.specs.declared.run_error.RunError.TheVariants.{OutOfMemory};

use std::alloc::AllocError;
use thiserror::Error;

/// Why no machine was made, or why a machine did not serve all calls. The first three are asked for in this order.
#[derive(Clone, Copy, PartialEq, Eq, Debug, Drop, Error)]
pub enum RunError {
    /// The window is empty, begins off a page, does not lie wholly in one canonical half, or holds the first or the
    /// last page of the address space.
    #[error("bad window")]
    BadWindow,
    /// The granularity is no power of two of at least 16.
    #[error("bad granularity")]
    BadGranularity,
    /// There is no frame for the root table.
    #[error("too few frames")]
    TooFewFrames,
    /// The host had too little memory.
    #[error("out of memory")]
    OutOfMemory,
}

impl From<AllocError> for RunError {
    ghost from_gives = { λ _ error. error ≡ OutOfMemory };

    fn from(_: AllocError) -> RunError {
        RunError::OutOfMemory
    }
}
