use heap_memory::GrantFault;
use thiserror::Error;

/// Why an object was not inserted. The objects are as they were, and so is the heap, but for what its system denies next.
#[derive(Clone, Copy, PartialEq, Eq, Debug, Drop, Error)]
pub enum PoolFault {
    /// No slot is free, and there are as many as a pool can have.
    #[error("full")]
    Full,
    /// No slot is free, and the heap has no room for a slab: its system denied a region with this fault.
    #[error("{0}")]
    Heap(GrantFault),
    /// No slot is free, and the host has no memory for more.
    #[error("out of memory")]
    OutOfMemory,
}
