//! Regions of pages, and regions that are mapped in page tables over a physical memory: of the heap in a window, and of the user
//! anywhere.
//!
//! A contract sees a [`RegionTree`] as the list of its regions, by ascending address. Page numbers serve in place of addresses
//! if a range may end with the address space: the address there is 2^64, and the page number 2^52.
#![tactic(auto)]

mod large_slots;
mod map_fault;
mod met_slots;
mod region_tree;
mod regions;
mod user_regions;

pub use map_fault::{MapFault, UnmapFault};
pub use region_tree::RegionTree;
pub use regions::MappedRegions;
