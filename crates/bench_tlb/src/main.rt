//! Measures a cache of translations: for each number of the command line, one with room for so many. Hits, misses in which
//! the oldest entry leaves, flushes, and walks to the same pages beside them.
//!
//! Standard output says what the calls found, standard error what processor time each took.
#![tactic(auto)]

ghost use Rattle.std.specs.Prelude.{◌^◌, ◌<◌, ◌≤◌};
ghost use Rattle.paging_core.specs.Memory.{frame_count};

use measuring::{Watch, numbers};
use paging_core::{
    FramePool, Frames, Page, PhysFrame, Rights, VirtAddr, make_root, map_range, missing_tables,
    walk,
};
use std::io;
use tlb_cache::Tlb;
use x86_instructions::tlb::FlushCommand;

/// The address of the first page.
const FIRST: u64 = 0x40_0000;

/// How many calls are measured of each kind.
const ROUNDS: u32 = 200_000;

/// The most translations.
const MOST: u32 = 1 << 16;

const READ: Rights = Rights {
    write: false,
    user: false,
    fetch: false,
};

/// The page of a call, of so many in turn.
fn page(call: u32, pages: u32) -> Page
    requires { 0 < pages }
{
    let address = FIRST + 4096 * u64::from(call % pages);
    Page::containing_address(VirtAddr::new_truncate(address))
}

/// Looks so many pages up in turn, and counts those that have entries.
fn look_up(tlb: &mut Tlb, frames: &Frames, root: PhysFrame, pages: u32) -> u32
    requires root { root < frame_count frames.now }
    requires some { 0 < pages }
{
    let mut hits = 0u32;
    for call in 0..ROUNDS {
        if tlb.translate(frames, root, page(call, pages)).hit {
            hits = hits.saturating_add(1);
        }
    }
    hits
}

/// Walks to so many pages in turn, and counts those that are mapped.
fn walk_to(frames: &Frames, root: PhysFrame, pages: u32) -> u32
    requires root { root < frame_count frames.now }
    requires some { 0 < pages }
{
    let mut met = 0u32;
    for call in 0..ROUNDS {
        if walk(frames, root, page(call, pages)).is_some() {
            met = met.saturating_add(1);
        }
    }
    met
}

/// Forgets pages one by one that have no entries.
fn flush_absent(tlb: &mut Tlb, rounds: u32) {
    for call in 0..rounds {
        tlb.apply(&FlushCommand::Invlpg(VirtAddr::new_truncate(u64::from(call) * 4096 % FIRST)));
    }
}

/// Forgets a page that has an entry, and looks it up again.
fn flush_present(tlb: &mut Tlb, frames: &Frames, root: PhysFrame, pages: u32, rounds: u32)
    requires root { root < frame_count frames.now }
    requires some { 0 < pages }
{
    for call in 0..rounds {
        let page = page(call, pages);
        tlb.apply(&FlushCommand::Invlpg(page.start_address()));
        tlb.translate(frames, root, page);
    }
}

/// Forgets all entries of a cache that is filled before each time.
fn flush_all(tlb: &mut Tlb, frames: &Frames, root: PhysFrame, pages: u32, rounds: u32)
    requires root { root < frame_count frames.now }
    requires some { 0 < pages }
{
    for _ in 0..rounds {
        for call in 0..pages {
            tlb.translate(frames, root, page(call, pages));
        }
        tlb.apply(&FlushCommand::ReloadCr3);
    }
}

fn measure_calls(
    rt: &HostRuntime,
    tlb: &mut Tlb,
    frames: &Frames,
    root: PhysFrame,
    capacity: u32,
) -> io::Result<()>
    requires root { root < frame_count frames.now }
    requires some { 0 < capacity }
    requires few { capacity ≤ 2 ^ 16 }
{
    let watch = Watch::start(rt)?;
    let met = walk_to(frames, root, capacity);
    let walk = watch.mean(rt, ROUNDS)?;
    look_up(tlb, frames, root, capacity);
    let watch = Watch::start(rt)?;
    let hits = look_up(tlb, frames, root, capacity);
    let hit = watch.mean(rt, ROUNDS)?;
    let watch = Watch::start(rt)?;
    let wrong = look_up(tlb, frames, root, 2 * capacity);
    let miss = watch.mean(rt, ROUNDS)?;
    let watch = Watch::start(rt)?;
    flush_absent(tlb, ROUNDS);
    let absent = watch.mean(rt, ROUNDS)?;
    look_up(tlb, frames, root, capacity);
    let rounds = ROUNDS / capacity + 10;
    let watch = Watch::start(rt)?;
    flush_present(tlb, frames, root, capacity, rounds);
    let present = watch.mean(rt, rounds)?;
    let watch = Watch::start(rt)?;
    flush_all(tlb, frames, root, capacity, rounds);
    let all = watch.mean(rt, rounds)?;
    println!(rt;
        "{capacity} translations: {met} pages met, {hits} hits, {wrong} hits among twice as many pages"
    )?;
    eprintln!(rt;
        "{capacity} translations: walk {walk:?}, hit {hit:?}, miss {miss:?}, flush of a page without an entry {absent:?}, of one with an entry and its miss {present:?}, of all with as many misses {all:?}"
    )
}

/// Measures a cache with room for so many translations.
fn measure(rt: &HostRuntime, capacity: u32) -> io::Result<()>
    requires some { 0 < capacity }
    requires few { capacity ≤ 2 ^ 16 }
{
    let pages = 2 * capacity;
    let count = pages + pages / 256 + 1_000;
    let mut frames = Frames::new(rt.alloc(), count)?;
    let mut pool = FramePool::new(rt.alloc(), count)?;
    let Some(root) = make_root(&mut frames, &mut pool) else {
        return Err(io::Error::from(io::ErrorKind::OutOfMemory));
    };
    let wanted = u64::from(pages);
    if missing_tables(&frames, root, FIRST / 4096, wanted) + wanted > pool.free_count() {
        return Err(io::Error::from(io::ErrorKind::OutOfMemory));
    }
    let first = Page::containing_address(VirtAddr::new(FIRST));
    map_range(&mut frames, &mut pool, root, first, wanted, READ.bits());
    let mut tlb = Tlb::new(rt.alloc(), u64::from(capacity))?;
    measure_calls(rt, &mut tlb, &frames, root, capacity)
}

fn main(rt: HostRuntime) -> io::Result<()> {
    for number in numbers(&rt, rt.alloc())? {
        let capacity = number.min(MOST);
        if capacity != 0 {
            measure(&rt, capacity)?;
        }
    }
    Ok(())
}
