//! Regions of the user beside those of the heap: rows whose answers are known.
ghost use Rattle.std.specs.Prelude.{◌≡◌, ◌%◌, ◌<◌};
ghost use Rattle.kernel_heap.specs.Moves.{IsKeptBeside};

use crate::checks::same;
use heap_memory::Allocator;
use kernel_heap::{MapFault, PagedSystem, Region, Rights, UnmapFault};
use sound_heap::Heap;
use std::alloc::{AllocError, Global};
use std::process::Abort;
use std::test::Fail;

const READ: Rights = Rights {
    write: false,
    user: false,
    fetch: false,
};

const READ_WRITE: Rights = Rights {
    write: true,
    user: false,
    fetch: false,
};

/// The last page of the address space.
const LAST: u64 = 0xffff_ffff_ffff_f000;

// A window of `pages` pages from 0x400000 on, and 1024 frames.
fn empty(alloc: Global, pages: u64) -> Result<PagedSystem, AllocError>
    requires some { 0 < pages }
    requires few { pages < 65536 }
{
    PagedSystem::new(alloc, 0x40_0000, pages, 1024)
}

// Where `size` bytes were granted, if they were.
fn grant(system: &mut PagedSystem, size: u64) -> Option<u64>
    requires some { 0 < size }
    requires whole { size % 16 ≡ 0 }
{
    match system.alloc(size) {
        Ok(grant) => Some(grant.base),
        Err(_) => None,
    }
}

// Checks that a map gets this answer.
fn expect_map(
    rt: &impl Abort,
    system: &mut PagedSystem,
    start: u64,
    pages: u64,
    answer: Result<(), MapFault>,
) {
    assert_eq!(rt;
        system.map(start, pages, READ_WRITE),
        answer,
        "{start:x} {pages}"
    );
}

// Checks that an unmap gets this answer.
fn expect_unmap(
    rt: &impl Abort,
    system: &mut PagedSystem,
    start: u64,
    pages: u64,
    answer: Result<(), UnmapFault>,
) {
    assert_eq!(rt; system.unmap(start, pages), answer, "{start:x} {pages}");
}

// How many frames are free, and how many are tables.
fn counts(system: &PagedSystem) -> (u64, u64) {
    (system.free_frames(), system.tables())
}

// Maps and unmaps ranges for which several causes could be given.
fn expect_causes(rt: &impl Abort, system: &mut PagedSystem) {
    same(rt, system.map(LAST, 1, READ), Ok(()));
    same(rt, grant(system, 65536), Some(0x40_0000));
    for (start, pages, answer) in [
        (0x7fff_ffff_f000, 2, Err(MapFault::BadRange)),
        (0x1001, 1, Err(MapFault::BadRange)),
        (0x40_0000, 1, Err(MapFault::HeapRegion)),
        (LAST, 1, Err(MapFault::Overlap)),
        (0x50_0000, 1024, Err(MapFault::NoFrames)),
    ] {
        expect_map(rt, system, start, pages, answer);
    }
    for (start, pages, answer) in [
        (0x7000, 0, Err(UnmapFault::BadRange)),
        (0x7000, 1, Err(UnmapFault::UnknownRegion)),
        (0x40_0000, 16, Err(UnmapFault::HeapRegion)),
        (LAST, 1, Ok(())),
    ] {
        expect_unmap(rt, system, start, pages, answer);
    }
}

#[test]
fn causes_in_their_order(rt: HostRuntime) -> Result<(), Fail> {
    let alloc = rt.alloc();
    let mut system = empty(alloc, 1024)?;
    expect_causes(&rt, &mut system);
    same(&rt, counts(&system), (1001, 7));
    same(&rt, system.regions(alloc)?.len(), 1);
    Ok(())
}

// Checks that a system has these regions, all of which may be written.
fn expect_regions(
    rt: &impl Abort,
    alloc: Global,
    system: &PagedSystem,
    expected: &[(u64, u64, bool)],
) -> Result<(), AllocError> {
    let regions = system.regions(alloc)?;
    same(rt, regions.len(), expected.len() as u64);
    for (index, &(start, pages, heap)) in expected.iter().enumerate() {
        let region = Region {
            start,
            pages,
            heap,
            rights: READ_WRITE,
        };
        same(rt, regions.get(index as u64), Some(&region));
    }
    Ok(())
}

#[test]
fn grants_go_around_the_regions_of_the_user(rt: HostRuntime) -> Result<(), Fail> {
    let alloc = rt.alloc();
    let mut system = empty(alloc, 64)?;
    same(&rt, grant(&mut system, 65536), Some(0x40_0000));
    same(&rt, system.map(0x41_0000, 1, READ_WRITE), Ok(()));
    same(&rt, grant(&mut system, 131072), Some(0x41_1000));
    let expected = [
        (0x40_0000, 16, true),
        (0x41_0000, 1, false),
        (0x41_1000, 32, true),
    ];
    expect_regions(&rt, alloc, &system, &expected)?;
    same(&rt, counts(&system), (971, 4));
    Ok(())
}

// Maps pages beside the regions of a heap. The heap stays in its state, with the order of its bins.
fn map_beside(
    heap: &mut Heap<PagedSystem>,
    start: u64,
    pages: u64,
    rights: Rights,
) -> Result<(), MapFault>
    ensures kept { IsKeptBeside heap.old heap.new }
{
    heap.heap.law_rests_outside();
    heap.heap.law_order_rests_outside();
    heap.heap.allocator_mut().map(start, pages, rights)
}

// Unmaps pages beside the regions of a heap. The heap stays in its state, with the order of its bins.
fn unmap_beside(heap: &mut Heap<PagedSystem>, start: u64, pages: u64) -> Result<(), UnmapFault>
    ensures kept { IsKeptBeside heap.old heap.new }
{
    heap.heap.law_rests_outside();
    heap.heap.law_order_rests_outside();
    heap.heap.allocator_mut().unmap(start, pages)
}

// Has a heap grow on both sides of a region of the user, which then goes.
fn grow_around<R: Abort>(rt: &R, heap: &mut Heap<PagedSystem>) {
    same(rt, heap.malloc(100, 16), Ok(0x40_0010));
    same(rt, map_beside(heap, 0x40_1000, 1, READ_WRITE), Ok(()));
    same(rt, heap.malloc(5000, 16), Ok(0x40_2010));
    same(rt, unmap_beside(heap, 0x40_1000, 1), Ok(()));
    same(rt, heap.malloc(3912, 16), Ok(0x40_1010));
    same(rt, counts(heap.system()), (1016, 4));
}

#[test]
fn a_heap_has_regions_on_both_sides(rt: HostRuntime) -> Result<(), Fail> {
    let mut heap = Heap::new(empty(rt.alloc(), 1024)?);
    // It asks for single pages.
    same(&rt, heap.set_granularity(4096), true);
    grow_around(&rt, &mut heap);
    Ok(())
}
