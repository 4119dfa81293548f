use crate::Bytes;
use paging_core::{AccessKind, Rights};
use public_list::PublicList;

/// A call of the machine. A block is named by its number.
#[derive(Drop)]
pub enum Call {
    /// Asks for a new block of `size` bytes at a multiple of `align`.
    Malloc {
        size: u64,
        align: u64,
    },
    /// Asks for a new block of `size` bytes of value 0 at a multiple of `align`.
    Calloc {
        size: u64,
        align: u64,
    },
    /// Gives the block another size. It keeps its number, its alignment, and as many of its bytes as both sizes have.
    Realloc {
        block: u64,
        size: u64,
    },
    /// Gives the block another size, at a multiple of 16 whatever its alignment was, and keeps as many of its bytes as
    /// both sizes have.
    CRealloc {
        block: u64,
        size: u64,
    },
    /// Ends the block.
    Free {
        block: u64,
    },
    /// Puts the bytes into the block, the first of them at `offset` bytes from its start.
    Write {
        block: u64,
        offset: u64,
        bytes: Bytes,
    },
    /// Asks for `length` bytes of the block, the first of them at `offset` bytes from its start.
    Read {
        block: u64,
        offset: u64,
        length: u64,
    },
    /// Maps `pages` pages from the address `start` on as a region of the user, with these rights.
    Map {
        start: u64,
        pages: u64,
        rights: Rights,
    },
    /// Unmaps the region of the user that has just `pages` pages from the address `start` on.
    Unmap {
        start: u64,
        pages: u64,
    },
    /// Looks at the byte at an address as an access does, by the user or by the kernel.
    Probe {
        at: u64,
        access: AccessKind,
        user: bool,
    },
    /// Gives back memory that no block needs. The heap keeps more than `pad` bytes free at its end, if it has them.
    Trim {
        pad: u64,
    },
    /// Sets how many large chunks are freed between two release passes of the heap; 0 stands for the greatest number.
    SetRate {
        rate: u64,
    },
    /// Has the heap ask for multiples of this many bytes, if that is a power of two of at least 16.
    SetGranularity {
        granularity: u64,
    },
    /// Ends all blocks and gives all memory of the heap back. The granularity and the rate stay, and no number is given
    /// again.
    Reset,
    /// Asks for the extents of the heap.
    Extents,
}

/// Calls, in the order in which they are made.
pub type CallList = PublicList<Call>;
