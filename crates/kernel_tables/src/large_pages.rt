//! The calls on large pages: 512 pages in a row that are mapped by one entry, to 512 frames in a row.
ghost use Rattle.std.specs.Prelude.{◌≡◌, ◌+◌, ◌*◌, ◌<◌, ◌↔◌, None, Some, IsSome, IfSome, OnOk};
ghost use Rattle.std.specs.Option.{option_map};
ghost use Rattle.paging_core.specs.Large.{slot_of, missing_above};
ghost use Rattle.paging_core.specs.PageBits.{bits_of};
ghost use Rattle.paging_core.specs.Walk.{reach, large_of, mapped_place};
ghost use Rattle.kernel_tables.specs.Changes.{ChangesOnly, IsChange, IsLargeMapped, IsLargeUnmapped};
ghost use Rattle.kernel_tables.specs.Faults.{map_large_fault};
ghost use Rattle.kernel_tables.specs.Flush.{no_page, pages_of_slot, IsFlushEnough};
ghost use Rattle.kernel_tables.specs.TableState.{IsLarge};

use crate::faults::MapFault;
use crate::tables::Tables;
use paging_core::{
    Mapped, Page, PageBits, PhysFrame, PhysicalMemory, Rights, Size2MiB, has_table, large_page,
    map_large, missing_tables, unmap_large,
};

impl<'a> Tables<'a> {
    /// The large page, by its first frame, and its rights. None exactly if it is not mapped by one entry.
    pub fn large_page(&self, page: Page<Size2MiB>) -> Option<Mapped>
        ensures { option_map mapped_place result ≡ large_of self.now.words self.now.root (slot_of page) }
    {
        large_page(&self.memory, self.root, page)
    }

    /// How many tables the large page misses above its slot.
    ///
    /// The slot has no table, and so the first page misses one more.
    fn missing_above(&self, page: Page<Size2MiB>) -> u64
        requires { reach self.now.words self.now.root 3 (slot_of page) ≡ None }
        ensures { result ≡ missing_above self.now.words self.now.root page }
    {
        let first: Page = Page::containing_address(page.start_address());
        missing_tables(&self.memory, self.root, first.number(), 1).saturating_sub(1)
    }

    /// Why the large page is not mapped to the frames, if it is not.
    fn map_large_fault(
        &self,
        page: Page<Size2MiB>,
        frame: PhysFrame<Size2MiB>,
        user: bool,
    ) -> Option<MapFault>
        ensures { result ≡ map_large_fault self.now page frame user }
    {
        if large_page(&self.memory, self.root, page).is_some() {
            return Some(MapFault::IsMapped);
        }
        if has_table(&self.memory, self.root, page) {
            return Some(MapFault::HasTable);
        }
        let first: PhysFrame = PhysFrame::containing_address(frame.start_address());
        if first.number() + 511 >= self.memory.limit() {
            return Some(MapFault::PastLimit);
        }
        if !self.sees_area(user) && self.memory.meets(first, 512) {
            return Some(MapFault::InArea);
        }
        let missing = self.missing_above(page);
        let left = self.free.left();
        if missing > left {
            return Some(MapFault::NoFrames {
                wanting: missing - left,
            });
        }
        None
    }

    /// Maps the large page to the frames with the rights, by one entry, with type 0 and not global, and makes the tables that it
    /// misses above it. No entry that was present changes, so no flush is needed.
    pub fn map_large(
        &mut self,
        page: Page<Size2MiB>,
        frame: PhysFrame<Size2MiB>,
        rights: Rights,
    ) -> Result<(), MapFault>
        ensures change { IsChange (pages_of_slot page) no_page (map_large_fault self.old page frame rights.user) self.old result self.new }
        ensures mapped { OnOk result (IsLargeMapped self.old self.new page frame (bits_of rights)) }
    {
        self.map_large_with(page, frame, rights.bits())
    }

    /// Does what `map_large` does, with all bits of the entry.
    pub fn map_large_with(
        &mut self,
        page: Page<Size2MiB>,
        frame: PhysFrame<Size2MiB>,
        bits: PageBits,
    ) -> Result<(), MapFault>
        ensures change { IsChange (pages_of_slot page) no_page (map_large_fault self.old page frame bits.user) self.old result self.new }
        ensures mapped { OnOk result (IsLargeMapped self.old self.new page frame bits) }
    {
        match self.map_large_fault(page, frame, bits.user) {
            Some(fault) => Err(fault),
            None => {
                map_large(
                    &mut self.memory,
                    &mut self.free,
                    self.root,
                    page,
                    frame,
                    bits,
                );
                Ok(())
            }
        }
    }

    /// Ends the mapping of the large page, and answers the frames to which it led. None exactly if it is not mapped by
    /// one entry. The tables stay. Its pages are to be flushed before the frames have another use.
    pub fn unmap_large(&mut self, page: Page<Size2MiB>) -> Option<PhysFrame<Size2MiB>>
        ensures some { IsSome result ↔ IsLarge self.old page }
        ensures same { result ≡ None → self.new ≡ self.old }
        ensures only { ChangesOnly (pages_of_slot page) self.old self.new }
        ensures flush { IsFlushEnough self.old self.new (pages_of_slot page) }
        ensures free { self.new.free ≡ self.old.free }
        ensures unmapped { IfSome result (λ frame. IsLargeUnmapped self.old self.new page (512 * frame)) }
    {
        if large_page(&self.memory, self.root, page).is_none() {
            return None;
        }
        Some(unmap_large(&mut self.memory, self.root, page))
    }
}
