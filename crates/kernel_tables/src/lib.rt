//! Page tables for a kernel: they lie in an area of frames that the kernel gives, and their pages lead to any frames
//! outside of it. Pages that users do not reach may lead into it, too, if the kernel asks for that.
//!
//! No call asks for more than its types do. What is refused changes nothing.
#![tactic(auto)]

mod faults;
mod grants;
mod large_pages;
pub mod laws;
mod range_changes;
mod range_checks;
mod range_ends;
mod range_fault;
mod ranges;
mod tables;

pub use faults::{EntryFault, MapFault};
pub use grants::Grant;
pub use range_fault::RangeFault;
pub use tables::Tables;

#[cfg(test)]
mod tests;
