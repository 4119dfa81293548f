//! Which traits the types have, at pages and frames of every size.
use paging_core::*;
use std::hash::Hash;

/// Compiles at the types that can be keys of maps, by number.
fn is_key<T: Copy + Ord + Hash>() {}

/// Compiles at the types that can be compared and hashed, and have no order.
fn is_hashed<T: Copy + Eq + Hash>() {}

fn are_keys<S: PageSize>() {
    is_key::<Page<S>>();
    is_key::<PhysFrame<S>>();
    is_hashed::<PageRange<S>>();
    is_hashed::<PageRangeInclusive<S>>();
    is_hashed::<PhysFrameRange<S>>();
    is_hashed::<PhysFrameRangeInclusive<S>>();
}

#[test]
fn addresses_pages_and_frames_are_keys() {
    is_key::<VirtAddr>();
    is_key::<PhysAddr>();
    is_key::<PageTableIndex>();
    are_keys::<Size4KiB>();
    are_keys::<Size2MiB>();
    are_keys::<Size1GiB>();
}
