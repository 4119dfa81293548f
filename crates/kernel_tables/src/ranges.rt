//! The calls on ranges of pages.
ghost use Rattle.std.specs.Prelude.{◌≡◌, ℕ, ◌+◌, ◌*◌, ◌/◌, ◌%◌, ◌^◌, ◌<◌, ◌≤◌, None, Some, OnOk, ◌&&◌, ◌==◌, nat_le, is_none};
ghost use Rattle.paging_core.specs.Address.{IsCanonicalRange};
ghost use Rattle.paging_core.specs.Large.{slot_of, missing_above, IsLargeAdded};
ghost use Rattle.paging_core.specs.Mapping.{IsPageAdded};
ghost use Rattle.paging_core.specs.Missing.{missing_of};
ghost use Rattle.paging_core.specs.PageBits.{bits_of};
ghost use Rattle.paging_core.specs.Walk.{reach};
ghost use Rattle.kernel_tables.specs.Changes.{ChangesOnly, IsChange, IsMappedInARow};
ghost use Rattle.kernel_tables.specs.Faults.{IsPageMappable, IsLargeMappable};
ghost use Rattle.kernel_tables.specs.Flush.{no_page, page_alone, pages_of_slot, pages_of_range};
ghost use Rattle.kernel_tables.specs.Ranges.{map_range_fault, IsMappableRange};
ghost use Rattle.kernel_tables.specs.Words.{KeepsOtherWords};

use crate::range_checks::slot_at;
use crate::range_fault::RangeFault;
use crate::tables::Tables;
use paging_core::{
    Page, PageBits, PhysFrame, Rights, Size2MiB, WalkEnd, end_of_walk, has_table, map_at,
    map_large, map_page,
};

impl<'a> Tables<'a> {
    /// Maps the page, which nothing hinders.
    fn add_page(&mut self, page: Page, frame: PhysFrame, bits: PageBits)
        requires { IsPageMappable self.old page frame bits.user }
        ensures only { ChangesOnly (page_alone page) self.old self.new }
        ensures words { KeepsOtherWords (page_alone page) self.old self.new }
        ensures added { IsPageAdded self.old.words self.new.words self.old.free self.new.free self.old.root page frame bits }
        ensures missing { (first pages : ℕ) → IsCanonicalRange first pages → first ≤ page → page < first + pages →
            missing_of self.new.words self.new.root first pages + missing_of self.old.words self.old.root page 1 ≡ missing_of self.old.words self.old.root first pages }
    {
        match end_of_walk(&self.memory, self.root, page) {
            WalkEnd::Entry { entry, .. } => {
                map_at(
                    &mut self.memory,
                    self.root,
                    page,
                    entry.table,
                    entry.index,
                    frame,
                    bits,
                );
            }
            _ => {
                map_page(
                    &mut self.memory,
                    &mut self.free,
                    self.root,
                    page,
                    frame,
                    bits,
                );
            }
        }
    }

    /// Maps the large page, which nothing hinders.
    fn add_large(&mut self, page: Page<Size2MiB>, frame: PhysFrame<Size2MiB>, bits: PageBits)
        requires { IsLargeMappable self.old page frame bits.user }
        ensures only { ChangesOnly (pages_of_slot page) self.old self.new }
        ensures words { KeepsOtherWords (pages_of_slot page) self.old self.new }
        ensures added { IsLargeAdded self.old.words self.new.words self.old.free self.new.free self.old.root page frame bits }
        ensures missing { (first pages : ℕ) → IsCanonicalRange first pages → first ≤ 512 * page → 512 * page + 512 ≤ first + pages →
            missing_of self.new.words self.new.root first pages + missing_above self.old.words self.old.root page ≡ missing_of self.old.words self.old.root first pages }
    {
        map_large(
            &mut self.memory,
            &mut self.free,
            self.root,
            page,
            frame,
            bits,
        );
    }

    /// Whether the pages from this one on, of which `left` are still to be mapped, begin with a slot that becomes
    /// large.
    fn begins_large(&self, page: Page, left: u64, frame: PhysFrame) -> bool
        ensures { result ≡ (page % 512 == 0 && (frame % 512 == 0 && (nat_le 512 left && is_none (reach self.now.words self.now.root 3 (slot_of (page / 512)))))) }
    {
        page.number() % 512 == 0
            && frame.number() % 512 == 0
            && left >= 512
            && !has_table(&self.memory, self.root, slot_at(page))
    }

    /// Maps the range, which nothing hinders.
    fn map_all(&mut self, page: Page, pages: u64, frame: PhysFrame, bits: PageBits)
        requires mappable { IsMappableRange self.old page pages frame bits.user }
        requires fits { frame + pages ≤ 2 ^ 40 }
        ensures only { ChangesOnly (pages_of_range page pages) self.old self.new }
        ensures mapped { IsMappedInARow self.old self.new page pages frame bits }
    {
        let mut done = 0;
        while done < pages {
            let at = page.after(done);
            let to = frame.after(done);
            if self.begins_large(at, pages - done, to) {
                let run = PhysFrame::containing_address(to.start_address());
                self.add_large(slot_at(at), run, bits);
                done += 512;
            } else {
                self.add_page(at, to, bits);
                done += 1;
            }
        }
    }

    /// Maps `pages` pages from this one on to frames in a row, with the rights, with type 0 and not global, and makes the tables that
    /// they miss. A slot is mapped by one entry if it lies whole in the range, has no table, and its frames begin at a multiple of
    /// 512. No entry that was present changes, so no flush is needed.
    pub fn map_range(
        &mut self,
        page: Page,
        pages: u64,
        frame: PhysFrame,
        rights: Rights,
    ) -> Result<(), RangeFault>
        ensures change { IsChange (pages_of_range page pages) no_page (map_range_fault self.old page pages frame rights.user) self.old result self.new }
        ensures mapped { OnOk result (IsMappedInARow self.old self.new page pages frame (bits_of rights)) }
    {
        self.map_range_with(page, pages, frame, rights.bits())
    }

    /// Does what `map_range` does, with all bits of the entries.
    pub fn map_range_with(
        &mut self,
        page: Page,
        pages: u64,
        frame: PhysFrame,
        bits: PageBits,
    ) -> Result<(), RangeFault>
        ensures change { IsChange (pages_of_range page pages) no_page (map_range_fault self.old page pages frame bits.user) self.old result self.new }
        ensures mapped { OnOk result (IsMappedInARow self.old self.new page pages frame bits) }
    {
        if pages == 0 {
            return Ok(());
        }
        match self.map_range_fault(page, pages, frame, bits.user) {
            Some(fault) => Err(fault),
            None => {
                self.map_all(page, pages, frame, bits);
                Ok(())
            }
        }
    }
}
