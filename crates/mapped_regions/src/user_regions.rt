// Regions of the user: pages that are mapped and unmapped at an address that the caller names.
ghost use Rattle.std.specs.Prelude.{◌/◌, ◌+◌, ◌^◌, ◌≤◌, ◌↔◌, IsTrue, IfErr, OnOk};
ghost use Rattle.mapped_regions.specs.Mapped.{IsPageRange, CanMap, IsRegionJoined, IsLeft};
ghost use Rattle.mapped_regions.specs.Shown.{paged_view, KeptIfErr};
ghost use Rattle.mapped_regions.specs.UserRegions.{user_region, IsMapRefused, IsUnmapRefused, CanUnmap};

use crate::map_fault::{MapFault, UnmapFault};
use crate::regions::MappedRegions;
use machine_model::{Region, Rights};
use paging_core::{PageSize, Size4KiB};

/// The pages of a canonical half.
const HALF_PAGES: u64 = 1 << 35;

/// The first page of the upper canonical half, and the pages of the address space.
const UPPER_FIRST: u64 = (1 << 52) - HALF_PAGES;

const ALL_PAGES: u64 = 1 << 52;

/// Whether `pages` pages from an address on are whole pages of one canonical half, and at least one.
fn is_page_range(start: u64, pages: u64) -> bool
    ensures range { IsTrue result ↔ IsPageRange start pages }
    ensures within { IsTrue result → start / 4096 + pages ≤ 2 ^ 52 }
{
    let first = start / Size4KiB::SIZE;
    if start % Size4KiB::SIZE != 0 || pages == 0 || pages > HALF_PAGES {
        return false;
    }
    let end = first + pages;
    end <= HALF_PAGES || (UPPER_FIRST <= first && end <= ALL_PAGES)
}

impl MappedRegions {
    /// Maps `pages` pages from the address `start` on as a region of the user with these rights, each at a cleared
    /// frame. A refused call changes nothing.
    pub fn map(&mut self, start: u64, pages: u64, rights: Rights) -> Result<(), MapFault>
        ensures ok { OnOk result (IsRegionJoined (paged_view self.old) (paged_view self.new) (user_region start pages rights)) }
        ensures can { OnOk result (CanMap (paged_view self.old) start pages) }
        ensures err { KeptIfErr result self.old self.new }
        ensures refused { IfErr result (λ fault. IsMapRefused (paged_view self.old) start pages fault) }
    {
        if !is_page_range(start, pages) {
            return Err(MapFault::BadRange);
        }
        let first = start / Size4KiB::SIZE;
        if self.regions.lowest_heap_met(first, pages).is_some() {
            return Err(MapFault::HeapRegion);
        }
        if self.regions.lowest_met(first, pages).is_some() {
            return Err(MapFault::Overlap);
        }
        if !self.has_frames(first, pages) {
            return Err(MapFault::NoFrames);
        }
        let region = Region {
            start,
            pages,
            heap: false,
            rights,
        };
        match self.join(region) {
            Ok(()) => Ok(()),
            Err(_) => Err(MapFault::OutOfMemory),
        }
    }

    /// Unmaps the region of the user that has just `pages` pages from the address `start` on, and gives its frames
    /// back. It takes no memory, and a refused call changes nothing.
    pub fn unmap(&mut self, start: u64, pages: u64) -> Result<(), UnmapFault>
        ensures ok { OnOk result (IsLeft (paged_view self.old) (paged_view self.new) start pages) }
        ensures can { OnOk result (CanUnmap (paged_view self.old) start pages) }
        ensures err { KeptIfErr result self.old self.new }
        ensures refused { IfErr result (λ fault. IsUnmapRefused (paged_view self.old) start pages fault) }
    {
        if !is_page_range(start, pages) {
            return Err(UnmapFault::BadRange);
        }
        let first = start / Size4KiB::SIZE;
        if self.regions.lowest_heap_met(first, pages).is_some() {
            return Err(UnmapFault::HeapRegion);
        }
        match self.regions.lowest_met(first, pages) {
            Some(region) if region.start == start && region.pages == pages => {
                self.leave(&region);
                Ok(())
            }
            _ => Err(UnmapFault::UnknownRegion),
        }
    }
}
