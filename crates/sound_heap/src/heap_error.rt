use dlmalloc::MallocError;
use thiserror::Error;

/// Why a call is refused. The heap is as it was.
#[derive(Clone, Copy, PartialEq, Eq, Debug, Drop, Error)]
pub enum HeapError {
    /// The alignment is no power of two.
    #[error("bad alignment")]
    BadAlign,
    /// No block begins at the address.
    #[error("no block")]
    NoBlock,
    /// The heap refuses the request.
    #[error("{0}")]
    Refused(MallocError),
}
