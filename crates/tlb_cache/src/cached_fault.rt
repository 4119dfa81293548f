use kernel_heap::UnmapFault;
use thiserror::Error;

/// Why no region of the user is unmapped and flushed. A refused call changes nothing.
#[derive(Clone, Copy, PartialEq, Eq, Debug, Drop, Error)]
pub enum CachedFault {
    /// The system refuses it.
    #[error("{0}")]
    Unmap(UnmapFault),
    /// The host had too little memory for the commands. This may come in place of `HeapRegion` or `UnknownRegion`, but not
    /// of `BadRange`, and only if there are at least as many frames as pages were to be unmapped.
    #[error("out of memory")]
    OutOfMemory,
}
