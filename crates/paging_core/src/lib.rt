//! Four-level page tables in a modelled physical memory: addresses, pages, frames, a pool of frames,
//! the walk, and the calls that map pages, unmap them and change their rights.
//!
//! What a walk finds is defined over the raw words of the memory. Each of these calls keeps the tables
//! a tree: no frame is met twice on walks, and no free frame is met.
//!
//! The tables lie in a program's own memory (`Frames`), whose pages have words too, or in an area that a caller lends
//! (`TableArea`): then pages lead to any frames below a limit, and two pages may lead to one.
#![tactic(auto)]

pub mod access;
pub mod addr;
pub mod bit_field;
pub mod frame_allocator;
pub mod frames_ahead;
pub mod large;
pub mod laws;
pub mod mapping;
pub mod memory;
pub mod missing;
pub mod page_table;
pub mod page_table_flags;
pub mod page_walk;
pub mod pages;
pub mod phys_frames;
pub mod physical_memory;
pub mod pool;
pub mod processor_access;
pub mod processor_walk;
pub mod protecting;
mod range;
pub mod split;
pub mod table_area;
pub mod table_frames;
mod tables;
pub mod unmapping;
pub mod walk_end;

pub use access::{copy_page, load_word, load_words, store_word, store_words};
pub use addr::{PhysAddr, PhysAddrNotValid, VirtAddr, VirtAddrNotValid, align_down, align_up};
pub use bit_field::{get_bits, set_bits};
pub use frame_allocator::{FrameAllocator, FrameDeallocator};
pub use frames_ahead::FramesAhead;
pub use large::{cut_large, has_table, large_page, map_large, map_slot, unmap_large};
pub use mapping::{map_at, map_page};
pub use memory::Frames;
pub use missing::missing_tables;
pub use page_table::{PageBits, PageTableEntry, PageTableIndex, Rights};
pub use page_table_flags::PageTableFlags;
pub use page_walk::{Mapped, walk};
pub use pages::{
    AddressNotAligned, NotGiantPageSize, Page, PageRange, PageRangeInclusive, PageSize, Size1GiB,
    Size2MiB, Size4KiB, index_after,
};
pub use phys_frames::{PhysFrame, PhysFrameRange, PhysFrameRangeInclusive};
pub use physical_memory::PhysicalMemory;
pub use pool::FramePool;
pub use processor_access::{AccessKind, access_byte};
pub use processor_walk::{Next, Translated, past_entry, translate};
pub use protecting::{protect_at, protect_page, protect_range};
pub use range::map_range;
pub use split::{protect_large, split_large};
pub use table_area::TableArea;
pub use table_frames::TableFrames;
pub use tables::make_root;
pub use unmapping::{clear_at, unmap_page, unmap_range};
pub use walk_end::{EntryPlace, WalkEnd, end_of_walk};
