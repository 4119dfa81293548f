//! A system over words that the caller gives: grants come from their front, and the memory after them is not touched.
#![tactic(auto)]

mod add_fault;
mod among;
mod arena;
mod arena_allocator;
mod arenas;
mod arenas_allocator;
mod arenas_memory;
mod table;
mod words;

pub use add_fault::AddFault;
pub use arena::Arena;
pub use arenas::Arenas;

#[cfg(test)]
mod tests;
