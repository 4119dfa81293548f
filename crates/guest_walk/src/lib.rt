//! The walk of a processor over a guest's page tables, for emulators, virtual machine monitors and debuggers.
//!
//! `past_entry` is one step of it. Its caller reads the entries: so the memory may lie anywhere and in parts, and others may write
//! to it meanwhile. `walk` is the whole walk, over words in a row, and `page_fault` what an access gives at its end. A `Mode` says how
//! the processor is set.
#![tactic(auto)]

pub mod granting;
pub mod laws;
pub mod marking;
pub mod mode;
#[cfg(test)]
mod tests;
pub mod walking;
pub mod whole;

pub use granting::{page_fault, permits};
pub use marking::{maps_page, marked};
pub use mode::Mode;
pub use walking::{End, Found, Next, index_of, past_entry};
pub use whole::walk;
