//! Chunks of memory with their sizes in boundary tags (dlmalloc: `Chunk`), one chunk at a time.
//!
//! A chunk is named by its address. It is its words `prev_foot` (at the address itself), `head` (8 bytes on), `prev`
//! (16 bytes on) and `next` (24 bytes on), and more after them. The head has the chunk's size, a multiple of 8, and two
//! bits: bit 0 says that the chunk before is in use, and bit 1 that this chunk is. A free chunk's size also stands in
//! the `prev_foot` of the chunk after it.
#![tactic(auto)]

pub mod chunk;
mod extent;
mod head;
mod sizes;

pub use extent::{Extent, ExtentList, Kind};
pub use sizes::{compute_tree_index, max_request, request2size, small_index};
