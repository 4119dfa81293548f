//! A heap for callers that prove nothing: what it needs of itself is a condition of its type.
//!
//! `Heap` is such a heap over any system (`sound_heap`). `CheckedHeap` is one over words that the caller gives, whose calls
//! look at the addresses that they are given.
#![tactic(auto)]

mod checked;
mod heap_arenas;
mod marks;

pub use checked::{CheckedHeap, GRANULARITY};
pub use heap_arenas::add_arena;
pub use sound_heap::{Heap, HeapError};

#[cfg(test)]
mod arenas_tests;
#[cfg(test)]
mod tests;
