//! Pages that are mapped, get other rights and leave.
use crate::checks::same;
use address_space::{Area, Space, SpaceFault};
use paging_core::Rights;
use std::alloc::Global;
use std::process::Abort;
use std::test::Fail;

pub(crate) const DATA: Rights = Rights {
    write: true,
    user: false,
    fetch: false,
};

const TEXT: Rights = Rights {
    write: false,
    user: false,
    fetch: true,
};

pub(crate) const READ: Rights = Rights {
    write: false,
    user: false,
    fetch: false,
};

/// `pages` pages from an address on, with the rights.
pub(crate) fn area(start: u64, pages: u64, rights: Rights) -> Area {
    Area {
        start,
        pages,
        rights,
    }
}

/// Checks that these are the areas of the space.
pub(crate) fn expect_areas(
    rt: &impl Abort,
    alloc: Global,
    space: &Space,
    expected: &[Area],
) -> Result<(), Fail> {
    let areas = space.areas(alloc)?;
    same(rt, areas.as_slice(), expected);
    Ok(())
}

// 16 frames: one is the root, and the pages from 0x1000 on miss three tables.
#[test]
fn pages_are_mapped_at_their_places(rt: HostRuntime) -> Result<(), Fail> {
    let alloc = rt.alloc();
    let mut space = Space::new(alloc, 16)?;
    same(&rt, space.free_frames(), 15);
    same(&rt, space.map_at(0x1000, 2, DATA), Ok(()));
    same(&rt, space.map_at(0x5000, 2, TEXT), Ok(()));
    same(&rt, space.free_frames(), 8);
    same(&rt, space.place(0x1000, 0x8000, 2, DATA), Ok(0x3000));
    same(
        &rt,
        space.place(0x1000, 0x8000, 2, DATA),
        Err(SpaceFault::NoRoom),
    );
    same(&rt, space.free_frames(), 6);
    let data = Area {
        start: 0x1000,
        pages: 4,
        rights: DATA,
    };
    let text = Area {
        start: 0x5000,
        pages: 2,
        rights: TEXT,
    };
    expect_areas(&rt, alloc, &space, &[data, text])
}

#[test]
fn each_refusal_comes_once(rt: HostRuntime) -> Result<(), Fail> {
    let mut space = Space::new(rt.alloc(), 8)?;
    let bad = Err(SpaceFault::BadRange);
    for (start, pages) in [
        (0x1000, 0),
        (0x1001, 1),
        (1 << 47, 1),
        (0x7fff_ffff_f000, 2),
    ] {
        same(&rt, space.map_at(start, pages, DATA), bad);
    }
    same(
        &rt,
        space.map_at(0x1000, 5, DATA),
        Err(SpaceFault::NoFrames),
    );
    same(&rt, space.map_at(0x1000, 4, DATA), Ok(()));
    same(&rt, space.map_at(0x0000, 2, DATA), Err(SpaceFault::Overlap));
    same(
        &rt,
        space.place(0x2000, 0x2000, 1, DATA),
        Err(SpaceFault::BadRange),
    );
    same(
        &rt,
        space.place(0x0000, 0x2000, 0, DATA),
        Err(SpaceFault::BadRange),
    );
    same(
        &rt,
        space.place(0x1000, 0x5000, 1, DATA),
        Err(SpaceFault::NoRoom),
    );
    same(
        &rt,
        space.place(0x0000, 0x9000, 1, DATA),
        Err(SpaceFault::NoFrames),
    );
    same(&rt, space.free_frames(), 0);
    same(&rt, space.unmap(0x1001, 1), Err(SpaceFault::BadRange));
    same(&rt, space.unmap(0x1000, 0), Err(SpaceFault::BadRange));
    same(&rt, space.protect(0x1000, 0, READ), bad);
    same(&rt, space.protect(1 << 47, 1, READ), bad);
    let hole = Err(SpaceFault::Hole { at: 0x5000 });
    same(&rt, space.protect(0x3000, 9, READ), hole);
    Ok(())
}

// Runs are split at their ends, joined again, and leave.
fn change_six(rt: &impl Abort, alloc: Global, space: &mut Space) -> Result<(), Fail> {
    same(rt, space.map_at(0x1000, 6, DATA), Ok(()));
    same(rt, space.protect(0x2000, 3, READ), Ok(()));
    same(rt, space.protect(0x3000, 1, TEXT), Ok(()));
    let parts = [
        area(0x1000, 1, DATA),
        area(0x2000, 1, READ),
        area(0x3000, 1, TEXT),
        area(0x4000, 1, READ),
        area(0x5000, 2, DATA),
    ];
    expect_areas(rt, alloc, space, &parts)?;
    same(rt, space.protect(0x2000, 3, DATA), Ok(()));
    expect_areas(rt, alloc, space, &[area(0x1000, 6, DATA)])?;
    same(rt, space.free_frames(), 6);
    same(rt, space.unmap(0x3000, 2), Ok(2));
    let parts = [area(0x1000, 2, DATA), area(0x5000, 2, DATA)];
    expect_areas(rt, alloc, space, &parts)?;
    same(rt, space.unmap(0x0000, 0x10_0000), Ok(4));
    same(rt, space.unmap(0x0000, 0x10_0000), Ok(0));
    same(rt, space.free_frames(), 12);
    Ok(())
}

#[test]
fn rights_change_and_pages_leave(rt: HostRuntime) -> Result<(), Fail> {
    let mut space = Space::new(rt.alloc(), 16)?;
    change_six(&rt, rt.alloc(), &mut space)
}
