//! Rows whose answers are known.
ghost use Rattle.std.specs.Prelude.{◌≡◌, ◌*◌, ◌^◌, ◌<◌, ◌||◌, nat_le, IfSome};
ghost use Rattle.std.specs.List.{list_all};
ghost use Rattle.machine_model.specs.State.{end_of_region, is_within};
ghost use Rattle.mapped_regions.specs.Regions.{AreHeld, IsRegionBoundary};

use crate::checks::same;
use machine_model::{Region, RegionList, Rights};
use mapped_regions::{MapFault, MappedRegions, UnmapFault};
use std::alloc::{AllocError, Global};
use std::process::Abort;
use std::test::Fail;

const READ_WRITE: Rights = Rights {
    write: true,
    user: false,
    fetch: false,
};

// Maps pages as a region of the heap at their lowest place, if they have one and there are frames.
fn grant(regions: &mut MappedRegions, pages: u64) -> Result<Option<u64>, AllocError>
    requires { 0 < pages }
{
    let Some(start) = regions.lowest_place(pages) else {
        return Ok(None);
    };
    if !regions.has_frames(start / 4096, pages) {
        return Ok(None);
    }
    regions.join(Region {
        start,
        pages,
        heap: true,
        rights: READ_WRITE,
    })?;
    Ok(Some(start))
}

// A window of `pages` pages from 0x400000 on, and 1024 frames.
fn empty(alloc: Global, pages: u64) -> Result<MappedRegions, AllocError>
    requires some { 0 < pages }
    requires few { pages < 65536 }
{
    MappedRegions::new(alloc, 0x40_0000, pages, 1024)
}

// Maps pages of the user, and says nothing of them: callers that know less are proved sooner.
fn map(regions: &mut MappedRegions, start: u64, pages: u64) -> Result<(), MapFault> {
    regions.map(start, pages, READ_WRITE)
}

fn unmap(regions: &mut MappedRegions, start: u64, pages: u64) -> Result<(), UnmapFault> {
    regions.unmap(start, pages)
}

// The frames that are free, and those that hold tables.
fn free_and_tables(regions: &MappedRegions) -> (u64, u64) {
    (regions.free_frames(), regions.tables())
}

/// Maps and unmaps ranges that are refused, each for the first cause that it has, and some that are not.
fn answer_in_order(
    rt: &impl Abort,
    alloc: Global,
    regions: &mut MappedRegions,
) -> Result<(), Fail> {
    let last = 0xffff_ffff_ffff_f000;
    same(rt, grant(regions, 16)?, Some(0x40_0000));
    same(rt, map(regions, last, 1), Ok(()));
    same(rt, map(regions, 0x4_0000, 4), Ok(()));
    same(rt, free_and_tables(regions), (1024 - 16 - 5 - 8, 8));
    for (start, pages, answer) in [
        (0x1000, 0, Err(MapFault::BadRange)),
        (0x1001, 1, Err(MapFault::BadRange)),
        (0x7fff_ffff_f000, 2, Err(MapFault::BadRange)),
        (0x8000_0000_0000, 1, Err(MapFault::BadRange)),
        (last, 2, Err(MapFault::BadRange)),
        (0x40_0000, 1, Err(MapFault::HeapRegion)),
        (0x4_3000, 0x400, Err(MapFault::HeapRegion)),
        (last, 1, Err(MapFault::Overlap)),
        (0x4_3000, 1, Err(MapFault::Overlap)),
        (0x3_f000, 2, Err(MapFault::Overlap)),
        (0x50_0000, 1024, Err(MapFault::NoFrames)),
        (0x4_4000, 1, Ok(())),
    ] {
        assert_eq!(rt; map(regions, start, pages), answer, "{start:x} {pages}");
    }
    for (start, pages, answer) in [
        (0x7000, 0, Err(UnmapFault::BadRange)),
        (0x4_0800, 1, Err(UnmapFault::BadRange)),
        (0x40_0000, 16, Err(UnmapFault::HeapRegion)),
        (0x3f_f000, 2, Err(UnmapFault::HeapRegion)),
        (0x7000, 1, Err(UnmapFault::UnknownRegion)),
        (0x4_0000, 3, Err(UnmapFault::UnknownRegion)),
        (0x4_0000, 5, Err(UnmapFault::UnknownRegion)),
        (0x4_1000, 3, Err(UnmapFault::UnknownRegion)),
        (0x4_0000, 4, Ok(())),
        (0x4_0000, 4, Err(UnmapFault::UnknownRegion)),
        (last, 1, Ok(())),
        (0x4_4000, 1, Ok(())),
    ] {
        assert_eq!(rt; unmap(regions, start, pages), answer, "{start:x} {pages}");
    }
    same(rt, regions.regions(alloc)?.len(), 1);
    same(rt, free_and_tables(regions), (1024 - 16 - 8, 8));
    Ok(())
}

#[test]
fn causes_in_their_order(rt: HostRuntime) -> Result<(), Fail> {
    let mut regions = empty(rt.alloc(), 1024)?;
    answer_in_order(&rt, rt.alloc(), &mut regions)
}

/// Grants places to the heap beside a region of the user, and where that region was.
fn grant_beside(rt: &impl Abort, regions: &mut MappedRegions) -> Result<(), Fail> {
    same(rt, grant(regions, 16)?, Some(0x40_0000));
    same(rt, map(regions, 0x41_0000, 1), Ok(()));
    same(rt, grant(regions, 32)?, Some(0x41_1000));
    same(rt, grant(regions, 16)?, None);
    same(rt, unmap(regions, 0x41_0000, 1), Ok(()));
    same(rt, grant(regions, 1)?, Some(0x41_0000));
    same(rt, grant(regions, 15)?, Some(0x43_1000));
    same(rt, grant(regions, 1)?, None);
    same(rt, free_and_tables(regions), (1024 - 64 - 4, 4));
    Ok(())
}

#[test]
fn places_beside_regions_of_the_user(rt: HostRuntime) -> Result<(), Fail> {
    let mut regions = empty(rt.alloc(), 64)?;
    grant_beside(&rt, &mut regions)
}

/// Whether the region has the first byte of a page.
fn has_page(region: &Region, page: u64) -> bool
    requires { page < 2 ^ 35 }
    ensures { result ≡ is_within (4096 * page) region.now }
{
    region.start <= page * 4096 && (page * 4096 - region.start) / 4096 < region.pages
}

/// Whether the region ends at a page or before, or begins there or after it.
fn is_missed(region: &Region, page: u64) -> bool
    requires { page < 2 ^ 35 }
    ensures { result ≡ nat_le (end_of_region region.now) (4096 * page) || nat_le (4096 * page) region.now.start }
{
    region.start >= page * 4096 || region.pages <= (page * 4096 - region.start) / 4096
}

/// Whether each region ends at a page or before, or begins there or after it.
fn are_missed(list: &[Region], page: u64) -> bool
    requires { page < 2 ^ 35 }
    ensures { result ≡ list_all (λ region. nat_le (end_of_region region) (4096 * page) || nat_le (4096 * page) region.start) list.now }
{
    list.iter().all(|region| is_missed(region, page))
}

/// The page after the region that has a page, if one has it and none reaches over its end.
fn end_page(list: &[Region], page: u64) -> Option<u64>
    requires { page < 2 ^ 35 }
    ensures range { IfSome result (λ end. (page < end) × (end < 2 ^ 35)) }
    ensures held { IfSome result (λ end. AreHeld (4096 * page) (4096 * end) list.now) }
    ensures boundary { IfSome result (λ end. IsRegionBoundary (4096 * end) list.now) }
{
    let region = list.iter().find(|region| has_page(region, page))?;
    let end = (region.start / 4096).checked_add(region.pages)?;
    if end <= page || end >= 1 << 35 || !are_missed(list, end) {
        return None;
    }
    Some(end)
}

/// Cuts from a page on what is left of its region, and of the one after it if it is to cut two. Answers how many pages
/// were cut.
fn cut_from(
    regions: &mut MappedRegions,
    alloc: Global,
    page: u32,
    two: bool,
) -> Result<u64, AllocError> {
    let first = page.into();
    let list = regions.regions(alloc)?;
    let Some(end) = end_page(list.as_slice(), first) else {
        return Ok(0);
    };
    if !two {
        regions.cut(first * 4096, end - first);
        return Ok(end - first);
    }
    let Some(last) = end_page(list.as_slice(), end) else {
        return Ok(0);
    };
    regions.cut(first * 4096, last - first);
    Ok(last - first)
}

// The first page of a region and its pages.
fn pages_at(list: &RegionList, index: u64) -> (u64, u64) {
    list.get(index)
        .map_or((0, 0), |region| (region.start / 4096, region.pages))
}

/// Checks that these regions are listed after a cut from a page on, each by its first page and its pages.
fn are_listed(rt: &impl Abort, list: &RegionList, page: u32, regions: &[(u64, u64)]) {
    for (index, want) in regions.iter().enumerate() {
        let found = pages_at(list, index as u64);
        assert_eq!(rt; found, *want, "{index} after {page:x}");
    }
}

/// Cuts what is left of regions from a page on, in turns.
fn cut_in_turns(rt: &impl Abort, alloc: Global, regions: &mut MappedRegions) -> Result<(), Fail> {
    // The heap has 0x400 to 0x40f, 0x410 to 0x417 and 0x419 to 0x41c, the user 0x3fe, 0x3ff and 0x418.
    same(rt, map(regions, 0x3f_e000, 2), Ok(()));
    same(rt, grant(regions, 16)?, Some(0x40_0000));
    same(rt, grant(regions, 8)?, Some(0x41_0000));
    same(rt, map(regions, 0x41_8000, 1), Ok(()));
    same(rt, grant(regions, 4)?, Some(0x41_9000));
    for (page, two, cut, free, rest) in [
        (
            0x500,
            false,
            0,
            988,
            [(0x3fe, 2), (0x400, 16), (0x410, 8), (0x418, 1), (0x419, 4)],
        ),
        (
            0x417,
            false,
            1,
            989,
            [(0x3fe, 2), (0x400, 16), (0x410, 7), (0x418, 1), (0x419, 4)],
        ),
        (
            0x40c,
            true,
            11,
            1000,
            [(0x3fe, 2), (0x400, 12), (0x418, 1), (0x419, 4), (0, 0)],
        ),
        (
            0x418,
            true,
            5,
            1005,
            [(0x3fe, 2), (0x400, 12), (0, 0), (0, 0), (0, 0)],
        ),
        (
            0x400,
            false,
            12,
            1017,
            [(0x3fe, 2), (0, 0), (0, 0), (0, 0), (0, 0)],
        ),
    ] {
        assert_eq!(rt;
            cut_from(regions, alloc, page, two)?,
            cut,
            "from {page:x} on"
        );
        let list = regions.regions(alloc)?;
        are_listed(rt, &list, page, &rest);
        same(rt, free_and_tables(regions), (free, 5));
    }
    same(rt, grant(regions, 24)?, Some(0x40_0000));
    Ok(())
}

#[test]
fn regions_are_cut_at_their_ends(rt: HostRuntime) -> Result<(), Fail> {
    let mut regions = empty(rt.alloc(), 64)?;
    cut_in_turns(&rt, rt.alloc(), &mut regions)
}
