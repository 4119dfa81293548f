//! A heap of blocks in memory that is granted in regions (dlmalloc: `Dlmalloc`).
//!
//! Blocks stand in chunks, and chunks tile a segment: each begins where the one before ends. What a heap is
//! stands in its fields and in words of the memory: the records say its segments, and the head words of the chunks their extents.
#![tactic(auto)]

mod binning;
mod block_laws;
mod contents;
mod free;
mod grow;
mod heap;
mod layout;
mod listing;
mod malloc;
mod malloc_error;
mod memalign;
pub mod order_laws;
mod prepend;
mod realloc;
mod record;
mod release;
mod resize;
mod settle;
mod split;
mod take;
mod top;
mod trim;
mod walk;

pub use dlmalloc_chunks::{Extent, ExtentList, Kind};
pub use heap::{Dlmalloc, is_granularity};
pub use malloc_error::MallocError;
