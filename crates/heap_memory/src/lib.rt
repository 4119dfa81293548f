//! Memory that is granted in regions, and read and written by words and bytes.
//!
//! A heap is generic over `Links` and `Allocator`: it sees the granted regions, a word at each multiple of 8 in them,
//! and grants that are made one after the other. `FlatSystem` is such a system over plain words, with its grants in a
//! script.
#![tactic(auto)]

mod allocator;
mod flat_release;
mod flat_script;
mod flat_system;
mod flat_words;
mod grant;
mod links;
mod memory;
mod steps;

pub use allocator::Allocator;
pub use flat_script::FlatStep;
pub use flat_system::FlatSystem;
pub use grant::{Grant, GrantFault};
pub use links::Links;
pub use memory::Memory;
pub use steps::Steps;
