//! Ranges of pages over page tables, with large pages: a slot that lies whole in a range is mapped by one entry if a
//! run of frames is free, and the other pages by tables. A range that leaves may cut the large page in which it begins.
#![tactic(auto)]

mod mapping;
mod slots;
mod unmapping;

pub use mapping::{map_pages, map_slots};
pub use unmapping::unmap_pages;
