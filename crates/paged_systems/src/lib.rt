//! Two systems for a heap whose memory lies in pages: `PagedSystem`, in which every word is reached by a walk of its page
//! tables and the user has regions beside the heap's; and its twin `TwinSystem`, which keeps each word of the heap in
//! flat memory too.
#![tactic(auto)]

mod flat_window;
mod paged_allocator;
mod paged_bytes;
mod paged_memory;
mod paged_system;
mod paged_words;
mod twin_system;
mod user_regions;

pub use paged_system::PagedSystem;
pub use twin_system::TwinSystem;
