//! Stacks of freed blocks in front of a heap.
//!
//! `CachedHeap` is for programs that free and ask for blocks of the same few sizes again and again. A block that is freed goes onto
//! the stack of its chunk's size, and the next request of that size takes it from there: neither call walks the heap or writes a
//! word of a block. To the heap below (`sound_heap`), what lies on a stack is a block in use.
//!
//! There are 66 stacks, one for each size of chunk below 1056 bytes, and each holds up to 15 blocks. Larger blocks, and blocks whose
//! stack is full, go to the heap at once.
//!
//! What it promises, each as a clause of the calls:
//!
//! - A block of the heap is in a caller's hands or lies on one stack, once, and never both. No call hands out a block that a caller
//!   has.
//! - A request is served by a stack whenever the stack of its size holds a block, and a freed block goes onto its stack whenever that
//!   has room.
//! - The blocks that callers have are apart, and keep their bytes and sizes through every call but their own `free`.
//! - A request is refused only if the heap refuses it with nothing on stacks: before that the heap frees all that lies there, and is
//!   asked again. A request that is too large whatever is free is refused with nothing changed. After a refusal callers have what
//!   they had.
//!
//! ```text
//! let mut heap = CachedHeap::new(Heap::new(system));
//! let first = heap.malloc(24)?;   // a new block of the heap
//! heap.free(first);               // it lies on the stack of chunks of 32 bytes
//! let again = heap.malloc(20)?;   // the same block: again == first
//! heap.empty();                   // the heap frees what lies on stacks
//! ```
#![tactic(auto)]

mod aligned;
mod cached;
mod clearing;
mod resizing;
mod stacks;
mod upkeep;
mod words;

pub use cached::CachedHeap;
pub use stacks::Stacks;

#[cfg(test)]
mod tests;
