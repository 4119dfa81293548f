//! A heap over any system, whose soundness is a condition of its type (`Heap`).
//!
//! A caller carries nothing from call to call: no soundness, and no counter of steps. A crate may reach the heap of chunks
//! below (`Heap::heap`), for calls of its own system; whatever it does there leaves the heap sound.
#![tactic(auto)]

mod calls;
mod heap;
mod heap_error;
mod requests;
mod words;

pub use heap::Heap;
pub use heap_error::HeapError;

#[cfg(test)]
mod tests;
