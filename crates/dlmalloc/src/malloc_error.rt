use heap_memory::GrantFault;
use thiserror::Error;

/// Why a request was refused. The heap is as it was.
#[derive(Clone, Copy, PartialEq, Eq, Debug, Drop, Error)]
pub enum MallocError {
    /// The size is so great that no heap of this granularity serves it.
    #[error("too large")]
    TooLarge,
    /// No free extent serves the request, and the system denied a region for it.
    #[error("{0}")]
    System(GrantFault),
}
