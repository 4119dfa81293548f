// Calls of the heap over a system that its caller made: nothing is proved by hand.
use super::*;
use dlmalloc::MallocError;
use heap_memory::{FlatStep, FlatSystem, GrantFault};
use std::alloc::{AllocError, Global};
use std::test::Fail;

/// A heap whose system gives one region, of 65536 bytes at 0x400000, and no other.
fn flat_heap(alloc: Global) -> Result<Heap<FlatSystem>, AllocError> {
    let mut script = Vec::new(alloc);
    script.push(FlatStep::Give {
        base: 0x40_0000,
        size: 65536,
        flags: 0,
    })?;
    script.push(FlatStep::Refuse {
        fault: GrantFault::NoFrames,
    })?;
    Ok(Heap::new(FlatSystem::new(alloc, script, true, true, 4096)?))
}

#[test]
fn words_of_a_new_block_are_kept(rt: HostRuntime) -> Result<(), Fail> {
    let mut heap = flat_heap(rt.alloc())?;
    let mut told = 0;
    let mut size = 0;
    if let Ok(address) = heap.malloc(24, 8) {
        heap.store(address, 16, 77);
        told = heap.load(address, 16);
        size = heap.usable_size(address);
        heap.free(address);
    }
    assert_eq!(rt; told, 77);
    assert_eq!(rt; size, 24);
    // The block's chunk became part of the top, whose end goes back in whole pages.
    assert!(rt; heap.set_granularity(4096));
    assert!(rt; heap.trim(0));
    assert!(rt; !heap.trim(0));
    Ok(())
}

#[test]
fn a_block_that_grows_keeps_its_words(rt: HostRuntime) -> Result<(), Fail> {
    let mut heap = flat_heap(rt.alloc())?;
    let mut words = [1, 1, 1];
    if let Ok(address) = heap.calloc(40, 16) {
        words[0] = heap.load(address, 32);
        heap.store(address, 32, 5);
        if let Ok(to) = heap.realloc(address, 4000) {
            words[1] = heap.load(to, 32);
            heap.store(to, 3992, 6);
            words[2] = heap.load(to, 3992);
        }
    }
    assert_eq!(rt; words.as_slice(), [0, 5, 6].as_slice());
    assert_eq!(rt; heap.extents(rt.alloc())?.len(), 3);
    Ok(())
}

#[test]
fn requests_are_refused_with_their_cause(rt: HostRuntime) -> Result<(), Fail> {
    let mut heap = flat_heap(rt.alloc())?;
    let no_frames = HeapError::Refused(MallocError::System(GrantFault::NoFrames));
    let too_large = HeapError::Refused(MallocError::TooLarge);
    assert!(rt; !heap.set_granularity(24));
    let rows = [
        (24, 16, Ok(0x40_0010)),
        (24, 24, Err(HeapError::BadAlign)),
        (u64::MAX, 16, Err(too_large)),
        (65536, 16, Err(no_frames)),
        (24, 16, Ok(0x40_0030)),
    ];
    for (size, align, answer) in rows {
        assert_eq!(rt; heap.malloc(size, align), answer);
    }
    Ok(())
}

#[test]
fn a_reset_gives_all_memory_back(rt: HostRuntime) -> Result<(), Fail> {
    let mut heap = flat_heap(rt.alloc())?;
    heap.set_release_rate(7);
    let mut places = [1, 1];
    if let Ok(address) = heap.malloc(24, 64) {
        places[0] = address % 64;
        if let Ok(to) = heap.realloc_aligned(address, 24, 64, 4000) {
            places[1] = to % 64;
        }
    }
    assert_eq!(rt; places.as_slice(), [0, 0].as_slice());
    let (_, other) = flat_heap(rt.alloc())?.destroy();
    assert_eq!(rt; heap.reset(other).0, 65536);
    assert_eq!(rt; heap.extents(rt.alloc())?.len(), 0);
    assert_eq!(rt; heap.granularity(), 65536);
    assert_eq!(rt; heap.release_rate(), 7);
    Ok(())
}
