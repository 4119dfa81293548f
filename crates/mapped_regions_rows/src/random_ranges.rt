//! Ranges that are mapped and unmapped as numbers say that look random, beside a plain map of pages.
ghost use Rattle.std.specs.Prelude.{◌^◌, ◌<◌, ◌≤◌};

use crate::checks::same;
use machine_model::Rights;
use mapped_regions::{MapFault, MappedRegions, UnmapFault};
use std::alloc::Global;
use std::process::Abort;
use std::test::Fail;

const USER: Rights = Rights {
    write: true,
    user: true,
    fetch: false,
};

/// The pages that ranges may have: those of four slots, and a part of the fifth.
const PAGES: u64 = 2_500;

/// The next of numbers that look random, below a bound.
fn random(seed: &mut u64, bound: u64) -> u64
    requires { 0 < bound }
    ensures { result < bound }
{
    *seed = seed
        .wrapping_mul(6_364_136_223_846_793_005)
        .wrapping_add(1_442_695_040_888_963_407);
    (*seed >> 33) % bound
}

/// The owner of a page in a plain map: one more than the first page of its range, or 0.
fn owner(plain: &[u64], page: u64) -> u64 {
    plain.get(page as usize).copied().unwrap_or(0)
}

/// Whether none of the pages has an owner.
fn is_clear(plain: &[u64], first: u64, pages: u64) -> bool {
    for page in first..first.saturating_add(pages) {
        if owner(plain, page) != 0 {
            return false;
        }
    }
    true
}

/// Gives the pages an owner.
fn put(plain: &mut [u64], first: u64, pages: u64, new: u64) {
    for page in first..first.saturating_add(pages) {
        if let Some(owner) = plain.get_mut(page as usize) {
            *owner = new;
        }
    }
}

/// How many pages from the first on have its owner.
fn pages_from(plain: &[u64], first: u64) -> u64
    requires { first ≤ 2 ^ 32 }
{
    let mut pages = 0u64;
    for page in first..PAGES {
        if owner(plain, page) != owner(plain, first) {
            return pages;
        }
        pages = pages.saturating_add(1);
    }
    pages
}

/// Maps a range and unmaps another one, and checks that both are answered as the plain map says.
fn change(rt: &impl Abort, regions: &mut MappedRegions, plain: &mut [u64], seed: &mut u64) {
    let first = random(seed, PAGES);
    let most = if random(seed, 4) == 0 { 1_200 } else { 40 };
    let pages = (1 + random(seed, most)).min(PAGES - first);
    let clear = is_clear(plain, first, pages);
    let enough = regions.free_frames() >= pages + 8;
    match regions.map(first * 4096, pages, USER) {
        Ok(()) => {
            assert!(rt; clear, "{first} {pages}");
            put(plain, first, pages, first + 1);
        }
        Err(MapFault::Overlap) => assert!(rt; !clear, "{first} {pages}"),
        Err(MapFault::NoFrames) => assert!(rt; clear && !enough, "{first} {pages}"),
        Err(_) => panic!(rt; "{first} {pages}"),
    }
    let start = random(seed, PAGES);
    let count = pages_from(plain, start);
    let is_range = owner(plain, start) == start + 1;
    match regions.unmap(start * 4096, count) {
        Ok(()) => {
            assert!(rt; is_range, "{start} {count}");
            put(plain, start, count, 0);
        }
        Err(UnmapFault::UnknownRegion) => assert!(rt; !is_range, "{start} {count}"),
        Err(_) => panic!(rt; "{start} {count}"),
    }
}

/// Checks that walks find the pages that have an owner and no others, and that all frames are counted.
fn compare(rt: &impl Abort, regions: &MappedRegions, plain: &[u64], frames: u32) {
    let mut mapped = 0u64;
    for page in 0..PAGES {
        let found = regions.rights_at(page * 4096).is_some();
        assert!(rt; found == (owner(plain, page) != 0), "page {page}");
        mapped = mapped.saturating_add(u64::from(found));
    }
    same(
        rt,
        mapped
            .saturating_add(regions.free_frames())
            .saturating_add(regions.tables()),
        u64::from(frames),
    );
}

/// Maps and unmaps at random in a memory of `frames` frames.
fn run(rt: &impl Abort, alloc: Global, frames: u32) -> Result<(), Fail>
    requires { 0 < frames }
{
    let mut regions = MappedRegions::new(alloc, 0x4000_0000, 1, frames)?;
    let mut plain = [0; PAGES as usize];
    let mut seed = u64::from(frames);
    for turn in 0u32..700 {
        change(rt, &mut regions, &mut plain, &mut seed);
        if turn % 20 == 0 {
            compare(rt, &regions, &plain, frames);
        }
    }
    Ok(())
}

#[test]
fn ranges_come_and_go_at_random(rt: HostRuntime) -> Result<(), Fail> {
    let alloc = rt.alloc();
    for frames in [600, 2_048, 5_000] {
        run(&rt, alloc, frames)?;
    }
    Ok(())
}
