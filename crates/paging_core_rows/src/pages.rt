ghost use Rattle.std.specs.Prelude.{◌≡◌, ℕ, ◌+◌, ◌*◌, ◌<◌, ◌≤◌, None, length};
ghost use Rattle.paging_core.specs.Memory.{frame_count};
ghost use Rattle.paging_core.specs.Pool.{FreeBelow};
ghost use Rattle.paging_core.specs.Tree.{IsTree};
ghost use Rattle.paging_core.specs.Walk.{walk_of};

use crate::checks::same;
use paging_core::*;
use std::alloc::Global;
use std::process::Abort;
use std::test::Fail;

const DATA: Rights = Rights {
    write: true,
    user: false,
    fetch: false,
};

const CODE: Rights = Rights {
    write: false,
    user: true,
    fetch: true,
};

#[test]
fn errors_have_texts(rt: HostRuntime) -> Result<(), Fail> {
    let text = format!(in rt.alloc(); "{}", VirtAddrNotValid(0x8000_0000_0000))?;
    same(
        &rt,
        text.as_str(),
        "0x800000000000 is no canonical virtual address",
    );
    let text = format!(in rt.alloc(); "{}", PhysAddrNotValid(1 << 52))?;
    same(
        &rt,
        text.as_str(),
        "0x10000000000000 is no physical address of 52 bits",
    );
    let text = format!(in rt.alloc(); "{AddressNotAligned}")?;
    same(&rt, text.as_str(), "the given address was not aligned");
    Ok(())
}

/// Maps sixteen pages at 4 MiB, in order: the frame of a page is taken before those of the tables that it misses.
fn map_sixteen(rt: &impl Abort, frames: &mut Frames, pool: &mut FramePool, root: PhysFrame)
    requires root { root < frame_count frames.old }
    requires known { FreeBelow pool.old (frame_count frames.old) }
    requires tree { IsTree frames.old root pool.old }
    requires unmapped { (page : ℕ) → walk_of frames.old root page ≡ None }
{
    let missing = missing_tables(frames, root, 0x400, 16);
    assert_eq!(rt; missing, 3);
    let free = pool.free_count();
    assert!(rt; missing + 16 <= free);
    let first = Page::containing_address(VirtAddr::new(0x400000));
    map_range(frames, pool, root, first, 16, DATA.bits());
    same(rt, free - pool.free_count(), 19);
    for (address, frame) in [(0x400000, 1), (0x401000, 5), (0x40f000, 19)] {
        let Ok(address) = VirtAddr::try_new(address) else {
            panic!(rt; "{address} is canonical");
        };
        let found = walk(frames, root, Page::containing_address(address));
        same(rt, found.map(|mapped| mapped.frame.number()), Some(frame));
    }
}

/// A memory of `count` frames, with a root; the window of 1024 pages at 4 MiB then misses four tables.
fn build(rt: &impl Abort, alloc: Global, count: u32) -> Result<(), Fail> {
    let mut frames = Frames::new(alloc, count)?;
    let mut pool = FramePool::new(alloc, count)?;
    let Some(root) = make_root(&mut frames, &mut pool) else {
        return Err(Fail::from("no root"));
    };
    same(rt, missing_tables(&frames, root, 0x400, 1024), 4);
    map_sixteen(rt, &mut frames, &mut pool, root);
    same(rt, pool.free_count(), 1004);
    Ok(())
}

#[test]
fn pages_are_mapped_in_order(rt: HostRuntime) -> Result<(), Fail> {
    build(&rt, rt.alloc(), 1024)
}

/// Maps three pages, gives them other rights, and unmaps them. The three tables stay.
fn change_three(rt: &impl Abort, frames: &mut Frames, pool: &mut FramePool, root: PhysFrame)
    requires root { root < frame_count frames.old }
    requires known { FreeBelow pool.old (frame_count frames.old) }
    requires flags { frame_count frames.old ≤ length pool.old }
    requires tree { IsTree frames.old root pool.old }
    requires unmapped { (page : ℕ) → walk_of frames.old root page ≡ None }
{
    let free = pool.free_count();
    let missing = missing_tables(frames, root, 0x400, 3);
    assert!(rt; missing + 3 <= free);
    let first = Page::containing_address(VirtAddr::new(0x400000));
    map_range(frames, pool, root, first, 3, DATA.bits());
    protect_range(frames, root, first, 3, CODE.bits());
    for (address, frame) in [(0x400000, 1), (0x401000, 5), (0x402000, 6)] {
        let found = walk(frames, root, page_at(rt, address));
        let rights = found.map(|mapped| (
            mapped.frame.number(),
            mapped.write,
            mapped.user,
            mapped.fetch,
        ));
        same(rt, rights, Some((frame, false, true, true)));
    }
    unmap_range(frames, pool, root, first, 3);
    same(rt, walk(frames, root, first), None);
    same(rt, missing_tables(frames, root, 0x400, 3), 0);
    same(rt, free - pool.free_count(), 3);
}

#[test]
fn pages_get_rights_and_leave(rt: HostRuntime) -> Result<(), Fail> {
    let mut frames = Frames::new(rt.alloc(), 64)?;
    let mut pool = FramePool::new(rt.alloc(), 64)?;
    let Some(root) = make_root(&mut frames, &mut pool) else {
        return Err(Fail::from("no root"));
    };
    change_three(&rt, &mut frames, &mut pool, root);
    Ok(())
}

/// Gives a frame back that was handed out.
fn give_back<D: FrameDeallocator<Size4KiB>>(frames: &mut D, frame: PhysFrame)
    requires { D.is_out frames.old frame }
    ensures { D.given frames.old frame frames.new }
{
    frames.deallocate_frame(frame);
}

#[test]
fn frames_come_back(rt: HostRuntime) -> Result<(), Fail> {
    let mut pool = FramePool::new(rt.alloc(), 4)?;
    let Some(frame) = pool.allocate_frame() else {
        return Err(Fail::from("no frame"));
    };
    same(&rt, pool.free_count(), 3);
    give_back(&mut pool, frame);
    same(&rt, pool.free_count(), 4);
    Ok(())
}

/// The page of the size that begins at the address.
fn page_at<S: PageSize>(rt: &impl Abort, address: u64) -> Page<S> {
    let Ok(start) = VirtAddr::try_new(address) else {
        panic!(rt; "{address} is canonical");
    };
    let Ok(page) = Page::from_start_address(start) else {
        panic!(rt; "{address} is a multiple of the size");
    };
    page
}

fn address_of<S: PageSize>(page: Option<Page<S>>) -> Option<u64> {
    page.map(|page| page.start_address().as_u64())
}

/// Steps forward to a page, and back from it.
fn steps_on<S: PageSize>(rt: &impl Abort, start: u64, count: usize, end: u64) {
    let (first, last) = (page_at::<S>(rt, start), page_at::<S>(rt, end));
    same(
        rt,
        address_of(Page::forward_checked(first, count)),
        Some(end),
    );
    same(
        rt,
        address_of(Page::backward_checked(last, count)),
        Some(start),
    );
    same(rt, Page::steps_between(&first, &last), (count, Some(count)));
    same(rt, Page::range(first, last).len(), count as u64);
    if count != 0 {
        same(rt, Page::steps_between(&last, &first), (0, None));
    }
}

fn ends_at<S: PageSize>(rt: &impl Abort, start: u64, steps: usize) {
    let page = page_at::<S>(rt, start);
    same(rt, address_of(Page::forward_checked(page, steps)), None);
}

fn begins_at<S: PageSize>(rt: &impl Abort, start: u64, steps: usize) {
    let page = page_at::<S>(rt, start);
    same(rt, address_of(Page::backward_checked(page, steps)), None);
}

#[test]
fn pages_of_4_kib_step_over_the_gap(rt: HostRuntime) -> Result<(), Fail> {
    let steps = [
        (0, 0, 0),
        (0, 1, 0x1000),
        (0x1000, 0, 0x1000),
        (0x1000, 1, 0x2000),
        (0x7fff_ffff_f000, 1, 0xffff_8000_0000_0000),
        (0xffff_8000_0000_0000, 0, 0xffff_8000_0000_0000),
        (0xffff_8000_0000_0000, 1, 0xffff_8000_0000_1000),
        (0xffff_8000_0000_1000, 0, 0xffff_8000_0000_1000),
        (0x7fff_ffff_f000, 0x1_2345_6789, 0xffff_9234_5678_8000),
        (0x7fff_ffff_f000, 0x8_0000_0000, 0xffff_ffff_ffff_f000),
        (0x7fff_fff0_0000, 0x8_0000_00ff, 0xffff_ffff_ffff_f000),
        (0, 0x8_0000_0000, 0xffff_8000_0000_0000),
        (0xff000, 0x7_ffff_ff01, 0xffff_8000_0000_0000),
        (0, 0x10_0000, 0x1_0000_0000),
        (0, 0x1_0000_0000, 0x1000_0000_0000),
    ];
    for (start, count, end) in steps {
        steps_on::<Size4KiB>(&rt, start, count, end);
    }
    ends_at::<Size4KiB>(&rt, 0xffff_ffff_ffff_f000, 1);
    ends_at::<Size4KiB>(&rt, 0x7fff_fff0_0000, 0x8_0000_0100);
    ends_at::<Size4KiB>(&rt, 0x7fff_ffff_f000, 0x8_0000_0001);
    ends_at::<Size4KiB>(&rt, 0, usize::MAX);
    begins_at::<Size4KiB>(&rt, 0, 1);
    begins_at::<Size4KiB>(&rt, 0xffff_8000_0000_0000, 0x8_0000_0001);
    begins_at::<Size4KiB>(&rt, 0xffff_ffff_ffff_f000, usize::MAX);
    Ok(())
}

#[test]
fn larger_pages_step_over_the_gap(rt: HostRuntime) -> Result<(), Fail> {
    steps_on::<Size2MiB>(&rt, 0x20_0000, 1, 0x40_0000);
    steps_on::<Size2MiB>(&rt, 0x7fff_ffe0_0000, 1, 0xffff_8000_0000_0000);
    steps_on::<Size2MiB>(&rt, 0, 0x7ff_ffff, 0xffff_ffff_ffe0_0000);
    ends_at::<Size2MiB>(&rt, 0, 0x800_0000);
    ends_at::<Size2MiB>(&rt, 0xffff_ffff_ffe0_0000, 1);
    begins_at::<Size2MiB>(&rt, 0xffff_8000_0000_0000, 0x400_0001);
    steps_on::<Size1GiB>(&rt, 0x4000_0000, 1, 0x8000_0000);
    steps_on::<Size1GiB>(&rt, 0x7fff_c000_0000, 1, 0xffff_8000_0000_0000);
    steps_on::<Size1GiB>(&rt, 0, 0x3_ffff, 0xffff_ffff_c000_0000);
    ends_at::<Size1GiB>(&rt, 0, 0x4_0000);
    ends_at::<Size1GiB>(&rt, 0xffff_ffff_c000_0000, 1);
    begins_at::<Size1GiB>(&rt, 0xffff_8000_0000_0000, 0x2_0001);
    Ok(())
}

/// A range of this many pages, and of one more if its end is included.
fn has_pages<S: PageSize>(rt: &impl Abort, start: u64, end: u64, count: u64) {
    let (start, end) = (page_at::<S>(rt, start), page_at::<S>(rt, end));
    let range = Page::range(start, end);
    assert_eq!(rt; (range.len(), range.is_empty()), (count, count == 0));
    let inclusive = Page::range_inclusive(start, end);
    same(
        rt,
        (inclusive.len(), inclusive.is_empty()),
        (count + 1, false),
    );
}

#[test]
fn ranges_have_lengths(rt: HostRuntime) -> Result<(), Fail> {
    has_pages::<Size4KiB>(&rt, 0xdead_b000, 0xdeb0_d000, 50);
    has_pages::<Size4KiB>(&rt, 0x7fff_ffff_f000, 0xffff_8000_0000_1000, 2);
    has_pages::<Size2MiB>(&rt, 0x7fff_ffc0_0000, 0xffff_8000_0000_0000, 2);
    has_pages::<Size1GiB>(&rt, 0x7fff_c000_0000, 0xffff_8000_4000_0000, 2);
    has_pages::<Size1GiB>(&rt, 0x4000_0000, 0x4000_0000, 0);
    let (low, high) = (
        page_at::<Size4KiB>(&rt, 0),
        page_at(&rt, 0xffff_8000_0000_0000),
    );
    let back = Page::range(high, low);
    same(&rt, (back.len(), back.is_empty()), (0, true));
    let back = Page::range_inclusive(high, low);
    same(&rt, (back.len(), back.is_empty()), (0, true));
    Ok(())
}

#[test]
fn ranges_of_frames_have_lengths(rt: HostRuntime) -> Result<(), Fail> {
    let start = PhysFrame::<Size4KiB>::containing_address(PhysAddr::new(0xdead_beaf));
    let end = PhysFrame::containing_address(PhysAddr::new(0xdeb0_deaf));
    let range = PhysFrameRange { start, end };
    same(&rt, (range.len(), range.is_empty()), (50, false));
    let inclusive = PhysFrameRangeInclusive { start, end };
    same(&rt, (inclusive.len(), inclusive.is_empty()), (51, false));
    let back = PhysFrameRange {
        start: end,
        end: start,
    };
    same(&rt, (back.len(), back.is_empty()), (0, true));
    let back = PhysFrameRangeInclusive {
        start: end,
        end: start,
    };
    same(&rt, (back.len(), back.is_empty()), (0, true));
    Ok(())
}

#[test]
fn pages_of_each_size_have_indices(rt: HostRuntime) -> Result<(), Fail> {
    let page = page_at::<Size4KiB>(&rt, 0xffff_ff80_80c0_4000);
    same(
        &rt,
        (page.p4_index().value(), page.p3_index().value()),
        (511, 2),
    );
    same(
        &rt,
        (page.p2_index().value(), page.p1_index().value()),
        (6, 4),
    );
    let page = page_at::<Size2MiB>(&rt, 0xffff_ff80_80c0_0000);
    same(
        &rt,
        (page.p4_index().value(), page.p3_index().value()),
        (511, 2),
    );
    same(&rt, page.p2_index().value(), 6);
    let page = page_at::<Size1GiB>(&rt, 0xffff_ff80_8000_0000);
    same(
        &rt,
        (page.p4_index().value(), page.p3_index().value()),
        (511, 2),
    );
    Ok(())
}

#[test]
fn addresses_are_aligned(rt: HostRuntime) -> Result<(), Fail> {
    same(&rt, align_up(u64::MAX, 1), u64::MAX);
    same(&rt, align_up(1233, 2), 1234);
    same(
        &rt,
        align_up(0xffff_ffff_ffff_fffe, 2),
        0xffff_ffff_ffff_fffe,
    );
    same(&rt, align_up(0, 0x8000_0000_0000_0000), 0);
    same(&rt, align_up(0x1001, 0x1000), 0x2000);
    same(&rt, align_down(0x1fff, 0x1000), 0x1000);
    Ok(())
}

#[test]
fn fields_are_read_and_replaced(rt: HostRuntime) -> Result<(), Fail> {
    same(&rt, get_bits(0x000f_ffff_ffff_f000, 12, 52), 0xff_ffff_ffff);
    same(&rt, get_bits(0xffff_8000_0000_0000, 47, 64), 0x1_ffff);
    same(&rt, get_bits(u64::MAX, 0, 64), u64::MAX);
    same(&rt, get_bits(0x8000_0000_0000_0000, 63, 64), 1);
    same(&rt, set_bits(u64::MAX, 12, 52, 0), 0xfff0_0000_0000_0fff);
    same(
        &rt,
        set_bits(0x8000_0000_0000_0003, 12, 52, 0xdeadb),
        0x8000_0000_dead_b003,
    );
    same(&rt, set_bits(0, 0, 64, u64::MAX), u64::MAX);
    Ok(())
}

/// The lowest run that is wholly free, by its number.
fn take_run(pool: &mut FramePool) -> Option<u64> {
    let run: Option<PhysFrame<Size2MiB>> = pool.allocate_frame();
    Some(run?.number())
}

/// The lowest free frame, by its number.
fn take_frame(pool: &mut FramePool) -> Option<u64> {
    let frame: Option<PhysFrame<Size4KiB>> = pool.allocate_frame();
    Some(frame?.number())
}

#[test]
fn runs_are_taken_from_the_lowest_on(rt: HostRuntime) -> Result<(), Fail> {
    let mut pool = FramePool::new(rt.alloc(), 2047)?;
    same(&rt, take_run(&mut pool), Some(0));
    same(&rt, take_frame(&mut pool), Some(512));
    same(&rt, take_run(&mut pool), Some(2));
    // Run 1 lacks a frame, and run 3 has 511.
    same(&rt, take_run(&mut pool), None);
    same(&rt, pool.free_count(), 2047 - 512 - 1 - 512);
    for number in 513..1024 {
        same(&rt, take_frame(&mut pool), Some(number));
    }
    same(&rt, take_frame(&mut pool), Some(1536));
    Ok(())
}

#[test]
fn a_run_comes_back(rt: HostRuntime) -> Result<(), Fail> {
    let mut pool = FramePool::new(rt.alloc(), 1024)?;
    let Some(run) = FrameAllocator::<Size2MiB>::allocate_frame(&mut pool) else {
        return Err(Fail::from("no run"));
    };
    assert_eq!(rt; run.start_address().as_u64(), 0);
    assert_eq!(rt; pool.free_count(), 512);
    FrameDeallocator::<Size2MiB>::deallocate_frame(&mut pool, run);
    same(&rt, pool.free_count(), 1024);
    same(&rt, take_run(&mut pool), Some(0));
    same(&rt, take_run(&mut pool), Some(1));
    same(&rt, take_run(&mut pool), None);
    Ok(())
}
