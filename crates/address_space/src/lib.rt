//! Address spaces: pages with rights and bytes, over page tables of their own.
//!
//! A space is a finite map from pages to rights and 4096 bytes. It keeps that map in page tables, as a processor
//! reads it, and the longest runs of pages with equal rights in an interval tree, by which every search goes.
#![tactic(auto)]

mod access;
mod area;
mod bytes;
mod changing;
mod copying;
mod mapping;
mod range;
mod run_changes;
mod runs;
mod space;
mod space_fault;

pub use access::Bytes;
pub use area::{Area, AreaList};
pub use space::Space;
pub use space_fault::SpaceFault;
