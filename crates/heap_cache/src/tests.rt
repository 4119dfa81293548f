// Calls of the heap with stacks in front, over a system that gives one region. The addresses are worked out by hand: a block of up
// to 24 bytes takes a chunk of 32, one of 1000 takes 1008, and the first block is 16 bytes after the region's start.
use super::*;
use dlmalloc::MallocError;
use heap_memory::{FlatStep, FlatSystem, GrantFault};
use sound_heap::{Heap, HeapError};
use std::alloc::{AllocError, Global};
use std::test::Fail;

const REFUSED: FlatStep = FlatStep::Refuse {
    fault: GrantFault::NoFrames,
};

/// A heap whose system gives 4096 bytes at 0x400000 once, and then refuses.
fn small_heap(alloc: Global) -> Result<CachedHeap<FlatSystem>, AllocError> {
    let mut script = Vec::new(alloc);
    script.push(FlatStep::Give {
        base: 0x40_0000,
        size: 4096,
        flags: 0,
    })?;
    script.push(REFUSED)?;
    script.push(REFUSED)?;
    script.push(REFUSED)?;
    script.push(REFUSED)?;
    let system = FlatSystem::new(alloc, script, true, true, 4096)?;
    let mut heap = Heap::new(system);
    heap.set_granularity(4096);
    Ok(CachedHeap::new(heap))
}

#[test]
fn a_freed_block_is_served_again(rt: HostRuntime) -> Result<(), Fail> {
    let mut heap = small_heap(rt.alloc())?;
    let mut told = [0, 0, 0, 0];
    if let Ok(first) = heap.malloc(24) {
        told[0] = first;
        heap.free(first);
    }
    if let Ok(again) = heap.malloc(20) {
        told[1] = again;
        heap.free(again);
    }
    if let Ok(cleared) = heap.calloc(17) {
        told[2] = cleared;
    }
    if let Ok(other) = heap.malloc(24) {
        told[3] = other;
    }
    assert_eq!(rt;
        told.as_slice(),
        [0x40_0010, 0x40_0010, 0x40_0010, 0x40_0030].as_slice()
    );
    Ok(())
}

#[test]
fn a_request_is_refused_only_with_nothing_on_stacks(rt: HostRuntime) -> Result<(), Fail> {
    let mut heap = small_heap(rt.alloc())?;
    if let Ok(first) = heap.malloc(1000) {
        heap.free(first);
    }
    let too_large = HeapError::Refused(MallocError::TooLarge);
    let no_frames = HeapError::Refused(MallocError::System(GrantFault::NoFrames));
    // 80 of the 4096 bytes are the foot. Besides the chunk of 1008 that lies on a stack the heap has 3008, and 3500 bytes need 3520.
    assert_eq!(rt; heap.malloc(3500), Ok(0x40_0010));
    assert_eq!(rt; heap.malloc(1000), Err(no_frames));
    assert_eq!(rt; heap.malloc(400), Ok(0x40_0dd0));
    assert_eq!(rt; heap.malloc(u64::MAX), Err(too_large));
    Ok(())
}

#[test]
fn a_block_gets_another_size(rt: HostRuntime) -> Result<(), Fail> {
    let mut heap = small_heap(rt.alloc())?;
    let mut told = [0, 0, 0];
    if let Ok(first) = heap.malloc(24) {
        told[0] = first;
        if let Ok(same) = heap.realloc(first, 12) {
            told[1] = same;
            if let Ok(moved) = heap.realloc(same, 40) {
                told[2] = moved;
            }
        }
    }
    assert_eq!(rt;
        told.as_slice(),
        [0x40_0010, 0x40_0010, 0x40_0030].as_slice()
    );
    // The block that it was lies on a stack.
    assert_eq!(rt; heap.malloc(24), Ok(0x40_0010));
    Ok(())
}

#[test]
fn blocks_begin_at_multiples_of_an_alignment(rt: HostRuntime) -> Result<(), Fail> {
    let mut heap = small_heap(rt.alloc())?;
    assert_eq!(rt; heap.malloc(24), Ok(0x40_0010));
    // The chunk begins at 0x400020. At 0x400040 only 16 bytes would be left before it, so the next multiple of 64 is taken.
    assert_eq!(rt; heap.malloc_aligned(24, 64), Ok(0x40_0080));
    assert_eq!(rt; heap.malloc_aligned(24, 24), Err(HeapError::BadAlign));
    Ok(())
}

#[test]
fn a_trim_empties_the_stacks(rt: HostRuntime) -> Result<(), Fail> {
    let mut heap = small_heap(rt.alloc())?;
    if let Ok(first) = heap.malloc(24) {
        heap.free(first);
    }
    assert!(rt; !heap.trim(0));
    assert!(rt; !heap.let_go(2));
    Ok(())
}
