ghost use Rattle.std.specs.Prelude.{◌≡◌, ℕ, ◌+◌, ◌*◌, ◌<◌, ◌≤◌, ◌-◌, ◌^◌, false, None, length};
ghost use Rattle.paging_core.specs.Memory.{frame_count};
ghost use Rattle.paging_core.specs.Pool.{is_frame_free, FreeBelow};
ghost use Rattle.paging_core.specs.Tree.{IsTree};
ghost use Rattle.paging_core.specs.Walk.{walk_of};

use crate::checks::same;
use page_ranges::*;
use paging_core::*;
use std::alloc::Global;
use std::process::Abort;
use std::test::Fail;

const DATA: Rights = Rights {
    write: true,
    user: false,
    fetch: false,
};

fn page_at<S: PageSize>(rt: &impl Abort, address: u64) -> Page<S> {
    let Ok(start) = VirtAddr::try_new(address) else {
        panic!(rt; "{address} is canonical");
    };
    Page::containing_address(start)
}

/// The frame to which the page at the address leads, and whether it may be written, used and fetched from.
fn found(
    rt: &impl Abort,
    frames: &Frames,
    root: PhysFrame,
    address: u64,
) -> Option<(u64, bool, bool, bool)>
    requires root { root < frame_count frames.now }
{
    let mapped = walk(frames, root, page_at(rt, address))?;
    Some((
        mapped.frame.number(),
        mapped.write,
        mapped.user,
        mapped.fetch,
    ))
}

/// A range that is mapped in an empty memory of a given number of frames: at which slot the large pages end, how many
/// frames are taken, and where some of its pages are.
#[derive(Clone, Copy)]
struct RangeRow {
    frames: u32,
    page: u64,
    pages: u64,
    stop: u64,
    taken: u64,
    missing: u64,
    walks: [(u64, Option<u64>); 4],
}

/// Maps the range of the row.
fn map_row(
    rt: &impl Abort,
    frames: &mut Frames,
    pool: &mut FramePool,
    root: PhysFrame,
    row: RangeRow,
)
    requires root { root < frame_count frames.old }
    requires known { FreeBelow pool.old (frame_count frames.old) }
    requires tree { IsTree frames.old root pool.old }
    requires unmapped { (page : ℕ) → walk_of frames.old root page ≡ None }
    requires some { 0 < row.pages }
    requires low { row.page + row.pages < 2 ^ 20 }
{
    let first = page_at::<Size4KiB>(rt, row.page << 12);
    assert!(rt; first.number() == row.page);
    let free = pool.free_count();
    assert!(rt; row.pages + missing_tables(frames, root, row.page, row.pages) <= free);
    let stop = map_pages(frames, pool, root, first, row.pages, DATA.bits());
    same(rt, stop, row.stop);
    let left = pool.free_count();
    assert!(rt; left <= free);
    same(rt, free - left, row.taken);
    same(
        rt,
        missing_tables(frames, root, row.page, row.pages),
        row.missing,
    );
    for (address, frame) in row.walks {
        let to = match frame {
            Some(frame) => Some((frame, true, false, false)),
            None => None,
        };
        same(rt, found(rt, frames, root, address), to);
    }
}

fn map_in_memory(rt: &impl Abort, alloc: Global, row: RangeRow) -> Result<(), Fail>
    requires some { 0 < row.pages }
    requires low { row.page + row.pages < 2 ^ 20 }
{
    let mut frames = Frames::new(alloc, row.frames)?;
    let mut pool = FramePool::new(alloc, row.frames)?;
    let Some(root) = make_root(&mut frames, &mut pool) else {
        return Err(Fail::from("no root"));
    };
    map_row(rt, &mut frames, &mut pool, root, row);
    Ok(())
}

#[test]
fn a_range_of_one_slot_is_mapped_by_one_entry(rt: HostRuntime) -> Result<(), Fail> {
    let row = RangeRow {
        frames: 1024,
        page: 0x800,
        pages: 512,
        stop: 5,
        taken: 514,
        missing: 1,
        walks: [
            (0x7f_ffff, None),
            (0x80_0000, Some(512)),
            (0x9f_ffff, Some(1023)),
            (0xa0_0000, None),
        ],
    };
    map_in_memory(&rt, rt.alloc(), row)
}

#[test]
fn a_range_round_a_slot_has_tables_beside_it(rt: HostRuntime) -> Result<(), Fail> {
    let row = RangeRow {
        frames: 2048,
        page: 0x801,
        pages: 1024,
        stop: 6,
        taken: 1028,
        missing: 1,
        walks: [
            (0x80_1000, Some(3)),
            (0x80_2000, Some(5)),
            (0xa0_0000, Some(512)),
            (0xc0_0000, Some(1027)),
        ],
    };
    map_in_memory(&rt, rt.alloc(), row)
}

#[test]
fn a_range_with_no_run_has_tables(rt: HostRuntime) -> Result<(), Fail> {
    let row = RangeRow {
        frames: 600,
        page: 0x800,
        pages: 512,
        stop: 4,
        taken: 515,
        missing: 0,
        walks: [
            (0x7f_ffff, None),
            (0x80_0000, Some(1)),
            (0x80_1000, Some(5)),
            (0xa0_0000, None),
        ],
    };
    map_in_memory(&rt, rt.alloc(), row)
}

#[test]
fn a_range_of_two_slots_takes_the_one_run(rt: HostRuntime) -> Result<(), Fail> {
    let row = RangeRow {
        frames: 1535,
        page: 0x800,
        pages: 1024,
        stop: 5,
        taken: 1027,
        missing: 1,
        walks: [
            (0x80_0000, Some(512)),
            (0x9f_f000, Some(1023)),
            (0xa0_0000, Some(3)),
            (0xa0_1000, Some(5)),
        ],
    };
    map_in_memory(&rt, rt.alloc(), row)
}

/// A range that is mapped in an empty memory of a given number of frames, and leaves from a page on while no frame is
/// free: how many frames are given back, how many tables the range misses then, and where some of its pages are.
#[derive(Clone, Copy)]
struct LeavingRow {
    frames: u32,
    page: u64,
    pages: u64,
    from: u64,
    given: u64,
    missing: u64,
    walks: [(u64, Option<u64>); 4],
}

/// Takes every frame that is free.
fn take_all(pool: &mut FramePool)
    ensures flags { length pool.new ≡ length pool.old }
    ensures none { (frame : ℕ) → is_frame_free pool.new frame ≡ false }
{
    while FrameAllocator::<Size4KiB>::allocate_frame(pool).is_some() {}
}

/// Maps the range of the row, and unmaps the part that leaves.
fn leave_row(
    rt: &impl Abort,
    frames: &mut Frames,
    pool: &mut FramePool,
    root: PhysFrame,
    row: LeavingRow,
)
    requires root { root < frame_count frames.old }
    requires known { FreeBelow pool.old (frame_count frames.old) }
    requires flags { frame_count frames.old ≤ length pool.old }
    requires tree { IsTree frames.old root pool.old }
    requires unmapped { (page : ℕ) → walk_of frames.old root page ≡ None }
    requires low { row.page + row.pages < 2 ^ 20 }
    requires from { row.page ≤ row.from }
    requires some { row.from < row.page + row.pages }
{
    let first = page_at::<Size4KiB>(rt, row.page << 12);
    assert!(rt; first.number() == row.page);
    assert!(rt; row.pages + missing_tables(frames, root, row.page, row.pages) <= pool.free_count());
    map_pages(frames, pool, root, first, row.pages, DATA.bits());
    take_all(pool);
    same(rt, pool.free_count(), 0);
    let from = first.after(row.from - row.page);
    unmap_pages(frames, pool, root, from, row.page + row.pages - row.from);
    same(rt, pool.free_count(), row.given);
    same(
        rt,
        missing_tables(frames, root, row.page, row.pages),
        row.missing,
    );
    for (address, frame) in row.walks {
        let to = match frame {
            Some(frame) => Some((frame, true, false, false)),
            None => None,
        };
        same(rt, found(rt, frames, root, address), to);
    }
}

fn leave_memory(rt: &impl Abort, alloc: Global, row: LeavingRow) -> Result<(), Fail>
    requires low { row.page + row.pages < 2 ^ 20 }
    requires from { row.page ≤ row.from }
    requires some { row.from < row.page + row.pages }
{
    let mut frames = Frames::new(alloc, row.frames)?;
    let mut pool = FramePool::new(alloc, row.frames)?;
    let Some(root) = make_root(&mut frames, &mut pool) else {
        return Err(Fail::from("no root"));
    };
    leave_row(rt, &mut frames, &mut pool, root, row);
    Ok(())
}

#[test]
fn two_large_pages_leave_with_pages_beside_them(rt: HostRuntime) -> Result<(), Fail> {
    let row = LeavingRow {
        frames: 2048,
        page: 0x7fe,
        pages: 1029,
        from: 0x7fe,
        given: 1029,
        missing: 2,
        walks: [
            (0x7f_e000, None),
            (0x80_0000, None),
            (0xbf_f000, None),
            (0xc0_2000, None),
        ],
    };
    leave_memory(&rt, rt.alloc(), row)
}

#[test]
fn a_large_page_is_cut_with_no_frame_free(rt: HostRuntime) -> Result<(), Fail> {
    let row = LeavingRow {
        frames: 1024,
        page: 0x800,
        pages: 512,
        from: 0x803,
        given: 508,
        missing: 0,
        walks: [
            (0x80_0000, Some(512)),
            (0x80_2fff, Some(514)),
            (0x80_3000, None),
            (0x9f_ffff, None),
        ],
    };
    leave_memory(&rt, rt.alloc(), row)
}
