ghost use Rattle.std.specs.Prelude.{◌≡◌, ℕ, ◌*◌, ◌<◌, ◌≤◌, ◌-◌, None, length};
ghost use Rattle.paging_core.specs.Memory.{frame_count};
ghost use Rattle.paging_core.specs.Pool.{FreeBelow};
ghost use Rattle.paging_core.specs.Tree.{IsTree};
ghost use Rattle.paging_core.specs.Walk.{reach, walk_of};

use crate::checks::same;
use paging_core::*;
use std::alloc::Global;
use std::process::Abort;
use std::test::Fail;

const DATA: Rights = Rights {
    write: true,
    user: false,
    fetch: false,
};

fn page_at<S: PageSize>(rt: &impl Abort, address: u64) -> Page<S> {
    let Ok(start) = VirtAddr::try_new(address) else {
        panic!(rt; "{address} is canonical");
    };
    Page::containing_address(start)
}

/// The frame to which the page at the address leads, and whether it may be written, used and fetched from.
fn found(
    rt: &impl Abort,
    frames: &Frames,
    root: PhysFrame,
    address: u64,
) -> Option<(u64, bool, bool, bool)>
    requires root { root < frame_count frames.now }
{
    let mapped = walk(frames, root, page_at(rt, address))?;
    Some((
        mapped.frame.number(),
        mapped.write,
        mapped.user,
        mapped.fetch,
    ))
}

/// Writes an entry of a table.
pub(crate) fn write(frames: &mut Frames, table: u64, index: u16, word: u64)
    requires small { table < 4 }
    requires inside { 3 < frame_count frames.old }
    requires index { index < 512 }
    ensures { frame_count frames.new ≡ frame_count frames.old }
{
    let frame = PhysFrame::containing_address(PhysAddr::new(table << 12));
    frames.set_word(frame, index, word);
}

/// Raw words: the root in frame 0, tables in the frames 1, 2 and 3.
fn write_entries(frames: &mut Frames)
    requires { 3 < frame_count frames.old }
    ensures { frame_count frames.new ≡ frame_count frames.old }
{
    write(frames, 0, 0, 0x1007);
    // Bit 7 says nothing at the second step.
    write(frames, 1, 0, 0x2087);
    // A large page of the frames 512 to 1023, which may be used and fetched from.
    write(frames, 2, 4, 0x20_0085);
    // Bit 12 is part of the address: the frame 513 is no multiple of 512.
    write(frames, 2, 5, 0x20_1087);
    // The frame 1024 may be past the last, and there are no 512 frames from it on.
    write(frames, 2, 6, 0x40_0087);
    // A large page that is not present.
    write(frames, 2, 8, 0x20_0086);
    // A table. Its first entry has bit 7, which says nothing at the last step.
    write(frames, 2, 7, 0x3007);
    write(frames, 3, 0, 0x8000_0000_0020_1083);
}

/// Walks over these words in a memory of `count` frames.
fn walk_over(rt: &impl Abort, alloc: Global, count: u32) -> Result<(), Fail>
    requires { 1024 ≤ count }
{
    let mut frames = Frames::new(alloc, count)?;
    let root = PhysFrame::containing_address(PhysAddr::new(0));
    write_entries(&mut frames);
    let walks = [
        (0x80_0000, Some((512, false, true, true))),
        (0x80_1234, Some((513, false, true, true))),
        (0x9f_ffff, Some((1023, false, true, true))),
        (0xa0_0000, None),
        (0xc0_0000, None),
        (0xe0_0000, Some((513, true, false, false))),
        (0xe0_1000, None),
        (0x100_0000, None),
    ];
    for (address, to) in walks {
        same(rt, found(rt, &frames, root, address), to);
    }
    // A slot with a large page counts as one that misses its table.
    same(rt, missing_tables(&frames, root, 0x800, 512), 1);
    same(rt, missing_tables(&frames, root, 0xe00, 512), 0);
    Ok(())
}

#[test]
fn a_third_entry_with_bit_7_ends_the_walk(rt: HostRuntime) -> Result<(), Fail> {
    walk_over(&rt, rt.alloc(), 1024)
}

/// Walks to a large page of which the last frame is missing.
fn walk_past(rt: &impl Abort, alloc: Global, count: u32) -> Result<(), Fail>
    requires some { 3 < count }
{
    let mut frames = Frames::new(alloc, count)?;
    let root = PhysFrame::containing_address(PhysAddr::new(0));
    write_entries(&mut frames);
    same(rt, found(rt, &frames, root, 0x80_0000), None);
    Ok(())
}

#[test]
fn all_frames_of_a_large_page_exist(rt: HostRuntime) -> Result<(), Fail> {
    walk_past(&rt, rt.alloc(), 1023)
}

/// Maps the slot at 8 MiB, writes to it, cuts it, and maps the next one and unmaps it.
fn change_slots(rt: &impl Abort, frames: &mut Frames, pool: &mut FramePool, root: PhysFrame)
    requires root { root < frame_count frames.old }
    requires known { FreeBelow pool.old (frame_count frames.old) }
    requires flags { frame_count frames.old ≤ length pool.old }
    requires tree { IsTree frames.old root pool.old }
    requires empty { (level number : ℕ) → 0 < level → reach frames.old root level number ≡ None }
    requires unmapped { (page : ℕ) → walk_of frames.old root page ≡ None }
{
    let free = pool.free_count();
    assert!(rt; 514 <= free);
    let slot = Page::<Size2MiB>::containing_address(VirtAddr::new(0x80_0000));
    same(rt, missing_tables(frames, root, 0x800, 512), 3);
    assert!(rt; map_slot(frames, pool, root, slot, DATA.bits()));
    let left = pool.free_count();
    assert!(rt; left <= free);
    same(rt, free - left, 514);
    same(rt, missing_tables(frames, root, 0x800, 512), 1);
    let walks = [
        (0x7f_f000, None),
        (0x80_0000, Some((512, true, false, false))),
        (0x9f_ffff, Some((1023, true, false, false))),
        (0xa0_0000, None),
    ];
    for (address, to) in walks {
        same(rt, found(rt, frames, root, address), to);
    }
    store_word(frames, root, VirtAddr::new(0x80_2008), 77);
    cut_large(frames, pool, root, slot, 3);
    let walks = [
        (0x80_0000, Some((512, true, false, false))),
        (0x80_2fff, Some((514, true, false, false))),
        (0x80_3000, None),
        (0x9f_ffff, None),
    ];
    for (address, to) in walks {
        same(rt, found(rt, frames, root, address), to);
    }
    let left = pool.free_count();
    assert!(rt; left <= free);
    same(rt, free - left, 6);
    same(rt, missing_tables(frames, root, 0x800, 512), 0);
    assert!(rt; 1024 <= frames.count());
    let third = PhysFrame::containing_address(PhysAddr::new(0x20_2000));
    same(rt, frames.word(third, 1), 77);
}

/// Maps the slot at 8 MiB and unmaps it.
fn unmap_slot(rt: &impl Abort, frames: &mut Frames, pool: &mut FramePool, root: PhysFrame)
    requires root { root < frame_count frames.old }
    requires known { FreeBelow pool.old (frame_count frames.old) }
    requires tree { IsTree frames.old root pool.old }
    requires empty { (level number : ℕ) → 0 < level → reach frames.old root level number ≡ None }
    requires unmapped { (page : ℕ) → walk_of frames.old root page ≡ None }
{
    assert!(rt; 514 <= pool.free_count());
    let slot = Page::<Size2MiB>::containing_address(VirtAddr::new(0x80_0000));
    if map_slot(frames, pool, root, slot, DATA.bits()) {
        same(rt, unmap_large(frames, root, slot).number(), 1);
    }
    same(rt, found(rt, frames, root, 0x80_0000), None);
}

fn with_memory(rt: &impl Abort, alloc: Global, count: u32, cut: bool) -> Result<(), Fail> {
    let mut frames = Frames::new(alloc, count)?;
    let mut pool = FramePool::new(alloc, count)?;
    let Some(root) = make_root(&mut frames, &mut pool) else {
        return Err(Fail::from("no root"));
    };
    if cut {
        change_slots(rt, &mut frames, &mut pool, root);
    } else {
        unmap_slot(rt, &mut frames, &mut pool, root);
    }
    Ok(())
}

#[test]
fn a_slot_is_mapped_and_cut(rt: HostRuntime) -> Result<(), Fail> {
    with_memory(&rt, rt.alloc(), 1024, true)
}

#[test]
fn a_slot_is_mapped_and_unmapped(rt: HostRuntime) -> Result<(), Fail> {
    with_memory(&rt, rt.alloc(), 1024, false)
}
