// Page tables: pages are mapped, walked to, given other rights, and unmapped.
ghost use Rattle.std.specs.Prelude.{◌≡◌, ℕ, ◌^◌, ◌<◌, ◌≤◌, None, length};
ghost use Rattle.paging_core.specs.Memory.{frame_count};
ghost use Rattle.paging_core.specs.Pool.{FreeBelow};
ghost use Rattle.paging_core.specs.Tree.{IsTree};
ghost use Rattle.paging_core.specs.Walk.{walk_of};

use crate::{CODE, DATA};
use measuring::Watch;
use paging_core::{
    FramePool, Frames, Page, PhysFrame, VirtAddr, make_root, map_range, missing_tables,
    protect_range, unmap_range, walk,
};
use std::io;

/// The address of the first page.
const FIRST: u64 = 0x40_0000;

/// To how many of the pages the walk finds its way.
fn walk_to_all(frames: &Frames, root: PhysFrame, pages: u32) -> u32
    requires { root < frame_count frames.now }
{
    let mut met = 0u32;
    for number in 0..pages {
        let address = VirtAddr::new_truncate(FIRST + 4096 * u64::from(number));
        if walk(frames, root, Page::containing_address(address)).is_some() {
            met = met.saturating_add(1);
        }
    }
    met
}

fn measure_calls(
    rt: &HostRuntime,
    frames: &mut Frames,
    pool: &mut FramePool,
    root: PhysFrame,
    pages: u32,
) -> io::Result<()>
    requires root { root < frame_count frames.old }
    requires known { FreeBelow pool.old (frame_count frames.old) }
    requires flags { frame_count frames.old ≤ length pool.old }
    requires tree { IsTree frames.old root pool.old }
    requires unmapped { (page : ℕ) → walk_of frames.old root page ≡ None }
    requires some { 0 < pages }
    requires few { pages ≤ 2 ^ 20 }
{
    let wanted = u64::from(pages);
    let watch = Watch::start(rt)?;
    let tables = missing_tables(frames, root, FIRST / 4096, wanted);
    let count = watch.mean(rt, 1)?;
    if tables + wanted > pool.free_count() {
        return Err(io::Error::from(io::ErrorKind::OutOfMemory));
    }
    let first = Page::containing_address(VirtAddr::new(FIRST));
    let watch = Watch::start(rt)?;
    map_range(frames, pool, root, first, wanted, DATA.bits());
    let map = watch.mean(rt, pages)?;
    let watch = Watch::start(rt)?;
    let met = walk_to_all(frames, root, pages);
    let walk = watch.mean(rt, pages)?;
    let watch = Watch::start(rt)?;
    protect_range(frames, root, first, wanted, CODE.bits());
    let protect = watch.mean(rt, pages)?;
    let watch = Watch::start(rt)?;
    unmap_range(frames, pool, root, first, wanted);
    let unmap = watch.mean(rt, pages)?;
    println!(rt; "{pages} pages: {tables} tables missed, {met} pages met")?;
    eprintln!(rt;
        "{pages} pages: missing_tables {count:?}; a page: map_range {map:?}, walk {walk:?}, protect_range {protect:?}, unmap_range {unmap:?}"
    )
}

/// Measures this number of pages, over frames of which there are 1,000 more.
pub(crate) fn measure(rt: &HostRuntime, pages: u32) -> io::Result<()>
    requires some { 0 < pages }
    requires few { pages ≤ 2 ^ 20 }
{
    let count = pages + pages / 256 + 1_000;
    let mut frames = Frames::new(rt.alloc(), count)?;
    let mut pool = FramePool::new(rt.alloc(), count)?;
    match make_root(&mut frames, &mut pool) {
        Some(root) => measure_calls(rt, &mut frames, &mut pool, root, pages),
        None => Err(io::Error::from(io::ErrorKind::OutOfMemory)),
    }
}
