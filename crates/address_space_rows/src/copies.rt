//! Copies of pages.
use crate::bytes::{denied, expect_bytes, expect_no_byte};
use crate::checks::same;
use crate::pages::{DATA, READ, area, expect_areas};
use address_space::{Space, SpaceFault};
use paging_core::{Page, VirtAddr, walk};
use std::test::Fail;

// 16 frames: one is the root, and the pages miss three tables.
#[test]
fn pages_are_copied(rt: HostRuntime) -> Result<(), Fail> {
    let alloc = rt.alloc();
    let mut space = Space::new(alloc, 16)?;
    same(&rt, space.map_at(0x1000, 2, DATA), Ok(()));
    same(&rt, space.store(0x1ffe, &[1, 2, 3, 4], false), Ok(()));
    same(&rt, space.protect(0x2000, 1, READ), Ok(()));
    same(&rt, space.duplicate(0x1000, 2, 0x5000), Ok(()));
    expect_bytes(&rt, &space, 0x5ffe, &[1, 2, 3, 4]);
    same(&rt, space.free_frames(), 8);
    for (address, write) in [(0x5000, Some(true)), (0x6000, Some(false)), (0x7000, None)] {
        let page = Page::containing_address(VirtAddr::new_truncate(address));
        let place = walk(space.frames(), space.root(), page);
        same(&rt, place.map(|place| place.write), write);
    }
    same(&rt, space.place(0x1000, 0x8000, 2, DATA), Ok(0x3000));
    let full = Err(SpaceFault::NoRoom);
    same(&rt, space.place(0x1000, 0x8000, 2, DATA), full);
    same(&rt, space.unmap(0x2000, 3), Ok(3));
    expect_no_byte(&rt, &space, 0x2000, false, denied(0x2000, 0));
    let parts = [
        area(0x1000, 1, DATA),
        area(0x5000, 1, DATA),
        area(0x6000, 1, READ),
    ];
    same(&rt, space.free_frames(), 9);
    expect_areas(&rt, alloc, &space, &parts)
}

#[test]
fn copies_are_refused(rt: HostRuntime) -> Result<(), Fail> {
    let mut space = Space::new(rt.alloc(), 8)?;
    same(&rt, space.map_at(0x1000, 2, DATA), Ok(()));
    for (from, pages, to, fault) in [
        (0x1000, 0, 0x5000, SpaceFault::BadRange),
        (0x1001, 1, 0x5000, SpaceFault::BadRange),
        (0x1000, 1, 0x5001, SpaceFault::BadRange),
        (0x2000, 2, 0x2000, SpaceFault::Hole { at: 0x3000 }),
        (0x1000, 2, 0x2000, SpaceFault::Overlap),
        (0x1000, 2, 0x4000_0000, SpaceFault::NoFrames),
    ] {
        same(&rt, space.duplicate(from, pages, to), Err(fault));
    }
    same(&rt, space.free_frames(), 2);
    Ok(())
}
