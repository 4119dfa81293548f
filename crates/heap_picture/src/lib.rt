//! Drawings of a recorded run, each one SVG document: the map of the heap that it leaves ([`heap_map`]), with the numbers of its
//! live blocks, and beside what the heap consists of the regions of the heap and the user, with their pages, their owners and their large pages; the page
//! tables ([`heap_tables`]); or the heap over the whole run ([`heap_time`]).
#![tactic(auto)]

mod blocks;
mod large;
mod laws;
mod lines;
mod owners;
mod picture;
mod regions;
mod style;
mod tables;
mod timing;

pub use laws::{each_block_has_its_name, each_page_has_its_owner, each_region_is_in_one_line};
pub use picture::{Picture, picture_main};
