//! The calls that change ranges of pages that are mapped.
ghost use Rattle.std.specs.Prelude.{◌≡◌, ℕ, ◌+◌, ◌-◌, ◌*◌, ◌/◌, ◌<◌, ◌≤◌, true, false, None, Some, IsTrue, IsFalse, IsSome, IfSome, OnOk, not, if◌then◌else◌};
ghost use Rattle.paging_core.specs.Address.{IsCanonicalRange};
ghost use Rattle.paging_core.specs.Large.{slot_of};
ghost use Rattle.paging_core.specs.LargeChanges.{IsLargeSplit};
ghost use Rattle.paging_core.specs.Pool.{free_count};
ghost use Rattle.paging_core.specs.Premises.{IsPageEntry};
ghost use Rattle.paging_core.specs.Prefix.{prefix_of};
ghost use Rattle.paging_core.specs.Walk.{reach, large_of, place_with, mapped_place};
ghost use Rattle.kernel_tables.specs.Changes.{ChangesOnly, ChangesNone, IsChange, IsEntryCleared, IsEntryGranted, IsLargeSlotCleared, IsLargeSlotGranted, IsRangeUnmapped, IsRangeGranted};
ghost use Rattle.kernel_tables.specs.Faults.{entry_fault, split_of};
ghost use Rattle.kernel_tables.specs.Flush.{page_alone, pages_of_range};
ghost use Rattle.kernel_tables.specs.Grants.{all_bits, with_rights, given_by, user_of};
ghost use Rattle.kernel_tables.specs.Ranges.{has_page_of, lies_whole, is_cut, is_split, splits, change_range_fault, protect_range_fault, AreWithin, AreNotLarge, AreSlotsGranted, IsMappedWhole};
ghost use Rattle.kernel_tables.specs.TableState.{leads, gives_area, HasOwnEntry, IsLarge};
ghost use Rattle.kernel_tables.specs.Words.{KeepsOtherWords};

use crate::grants::Grant;
use crate::range_checks::slot_at;
use crate::range_fault::RangeFault;
use crate::tables::Tables;
use paging_core::{
    EntryPlace, Mapped, Page, PageBits, PhysFrame, Rights, Size2MiB, WalkEnd, clear_at,
    end_of_walk, large_page, protect_at, protect_large, protect_page, split_large, unmap_large,
    unmap_page, walk,
};

impl<'a> Tables<'a> {
    /// Splits the large page in a frame of the area. Each page leads where it led.
    fn split_slot(&mut self, slot: Page<Size2MiB>)
        requires large { IsLarge self.old slot }
        requires room { 0 < free_count self.old.free }
        ensures none { ChangesNone self.old self.new }
        ensures split { IsLargeSplit self.old.words self.new.words self.old.free self.new.free self.old.root slot }
    {
        split_large(&mut self.memory, &mut self.free, self.root, slot);
    }

    /// Splits the large page of this page's slot in a frame of the area, if it reaches over an end of the range. Each page leads
    /// where it led.
    fn split_beside(&mut self, at: Page, page: Page, pages: u64)
        requires range { IsCanonicalRange page pages }
        requires room { is_split self.old page pages (at / 512) ≡ true → 0 < free_count self.old.free }
        ensures none { ChangesNone self.old self.new }
        ensures free { free_count self.new.free + (if is_split self.old page pages (at / 512) then 1 else 0) ≡ free_count self.old.free }
        ensures larges { (n : ℕ) → (n ≡ slot_of (at / 512) → ⊥) → large_of self.new.words self.new.root n ≡ large_of self.old.words self.old.root n }
        ensures whole { is_split self.new page pages (at / 512) ≡ false }
        ensures here { large_of self.new.words self.new.root (slot_of (at / 512)) ≡ (if lies_whole page pages (at / 512) then large_of self.old.words self.old.root (slot_of (at / 512)) else None) }
        ensures words { KeepsOtherWords (page_alone at) self.old self.new }
    {
        if !self.is_split(at, page, pages) {
            return;
        }
        self.split_slot(slot_at(at));
    }

    /// Splits the large pages that reach over the ends of the range. Each page leads where it led.
    fn split_ends(&mut self, page: Page, pages: u64)
        requires range { IsCanonicalRange page pages }
        requires room { splits self.old page pages ≤ free_count self.old.free }
        ensures none { ChangesNone self.old self.new }
        ensures free { free_count self.new.free + splits self.old page pages ≡ free_count self.old.free }
        ensures within { AreWithin self.new page pages }
        ensures large { AreNotLarge (is_cut page pages) self.old self.new }
        ensures words { KeepsOtherWords (pages_of_range page pages) self.old self.new }
    {
        let last = page.after(pages - 1);
        self.split_beside(page, page, pages);
        self.split_beside(last, page, pages);
    }

    /// Gives the page, which is mapped, an entry of its own: splits the large page of which it is part. Each page leads where it led.
    pub(crate) fn own_entry(&mut self, page: Page)
        requires { entry_fault self.old page ≡ None }
        ensures none { ChangesNone self.old self.new }
        ensures free { free_count self.new.free + split_of self.old page ≡ free_count self.old.free }
        ensures small { IsSome (reach self.new.words self.new.root 3 (prefix_of page 3)) }
        ensures same { split_of self.old page ≡ 0 → self.new ≡ self.old }
        ensures larges { (n : ℕ) → (n ≡ slot_of (page / 512) → ⊥) → large_of self.new.words self.new.root n ≡ large_of self.old.words self.old.root n }
        ensures words { KeepsOtherWords (page_alone page) self.old self.new }
    {
        let slot = slot_at(page);
        if self.large_page(slot).is_none() {
            return;
        }
        self.split_slot(slot);
    }

    /// Unmaps the page, which has an entry of its own, and answers its frame.
    pub(crate) fn clear_page(&mut self, page: Page) -> PhysFrame
        requires { HasOwnEntry self.old page }
        ensures { IsEntryCleared self.old self.new page result }
    {
        unmap_page(&mut self.memory, self.root, page)
    }

    /// Unmaps the page if it has an entry of its own, and answers its frame. None exactly if it has none: it is not mapped, or
    /// it is part of a large page.
    #[inline(always)]
    pub(crate) fn clear_entry(&mut self, page: Page) -> Option<PhysFrame>
        ensures some { IsSome result → IsSome (leads self.old page) × (large_of self.old.words self.old.root (slot_of (page / 512)) ≡ None) }
        ensures none { result ≡ None → IsSome (leads self.old page) → IsLarge self.old (page / 512) }
        ensures same { result ≡ None → self.new ≡ self.old }
        ensures cleared { IfSome result (λ frame. IsEntryCleared self.old self.new page frame) }
    {
        match end_of_walk(&self.memory, self.root, page) {
            WalkEnd::Entry {
                entry,
                page: Some(met),
            } => {
                clear_at(&mut self.memory, self.root, page, entry.table, entry.index);
                Some(met.frame)
            }
            WalkEnd::Large(_) => None,
            _ => None,
        }
    }

    /// Gives the page, which is mapped so by this entry, new bits, if users do not reach the area by it then. False exactly if they
    /// would.
    #[inline(always)]
    fn grant_at(&mut self, page: Page, entry: EntryPlace, met: Mapped, grant: Grant) -> bool
        requires place { IsPageEntry self.old.area self.old.words self.old.root page entry.table entry.index }
        requires met { leads self.old page ≡ Some (mapped_place met) }
        ensures hidden { result ≡ not (gives_area self.old page (user_of grant)) }
        ensures same { IsFalse result → self.new ≡ self.old }
        ensures granted { IsTrue result → IsEntryGranted self.old self.new page (given_by grant) }
    {
        let frame = met.frame;
        let bits = grant.bits(met);
        if bits.user && self.memory.contains(frame) {
            return false;
        }
        protect_at(
            &mut self.memory,
            self.root,
            page,
            entry.table,
            entry.index,
            frame,
            bits,
        );
        true
    }

    /// Gives the page new bits if it has an entry of its own, and users do not reach the area by it then. False exactly if it has
    /// none, or they would: it has none if it is not mapped, or is part of a large page.
    #[inline(always)]
    pub(crate) fn grant_entry(&mut self, page: Page, grant: Grant) -> bool
        ensures some { IsTrue result → IsSome (leads self.old page) × (large_of self.old.words self.old.root (slot_of (page / 512)) ≡ None) }
        ensures hidden { IsTrue result → gives_area self.old page (user_of grant) ≡ false }
        ensures none { IsFalse result → IsSome (leads self.old page) → gives_area self.old page (user_of grant) ≡ false → IsLarge self.old (page / 512) }
        ensures same { IsFalse result → self.new ≡ self.old }
        ensures granted { IsTrue result → IsEntryGranted self.old self.new page (given_by grant) }
    {
        match end_of_walk(&self.memory, self.root, page) {
            WalkEnd::Entry {
                entry,
                page: Some(met),
            } => self.grant_at(page, entry, met, grant),
            WalkEnd::Large(_) => false,
            _ => false,
        }
    }

    /// Unmaps the large page.
    fn clear_slot(&mut self, slot: Page<Size2MiB>)
        requires { IsLarge self.old slot }
        ensures { IsLargeSlotCleared self.old self.new slot }
    {
        unmap_large(&mut self.memory, self.root, slot);
    }

    /// Gives the page, which has an entry of its own, new bits.
    pub(crate) fn grant_page(&mut self, page: Page, grant: Grant)
        requires entry { HasOwnEntry self.old page }
        requires hidden { gives_area self.old page (user_of grant) ≡ false }
        ensures { IsEntryGranted self.old self.new page (given_by grant) }
    {
        let Some(met) = walk(&self.memory, self.root, page) else {
            unreachable!()
        };
        protect_page(&mut self.memory, self.root, page, grant.bits(met));
    }

    /// Gives the pages of the large page new bits.
    fn grant_slot(&mut self, slot: Page<Size2MiB>, grant: Grant)
        requires large { IsLarge self.old slot }
        requires hidden { (k : ℕ) → k < 512 → gives_area self.old (512 * slot + k) (user_of grant) ≡ false }
        ensures { IsLargeSlotGranted self.old self.new slot (given_by grant) }
    {
        let Some(met) = large_page(&self.memory, self.root, slot) else {
            unreachable!()
        };
        protect_large(&mut self.memory, self.root, slot, grant.bits(met));
    }

    /// Unmaps the range, which is mapped; its large pages lie whole in it.
    fn clear_all(&mut self, page: Page, pages: u64)
        requires { IsMappedWhole self.old page pages }
        ensures only { ChangesOnly (pages_of_range page pages) self.old self.new }
        ensures free { self.new.free ≡ self.old.free }
        ensures unmapped { (k : ℕ) → k < pages → leads self.new (page + k) ≡ None }
        ensures large { AreNotLarge (has_page_of page pages) self.old self.new }
        ensures words { KeepsOtherWords (pages_of_range page pages) self.old self.new }
    {
        let mut done = 0;
        while done < pages {
            let at = page.after(done);
            if self.clear_entry(at).is_some() {
                done += 1;
            } else {
                self.clear_slot(slot_at(at));
                done += 512;
            }
        }
    }

    /// Gives the range, which is mapped, new bits; its large pages lie whole in it.
    fn grant_all(&mut self, page: Page, pages: u64, grant: Grant)
        requires whole { IsMappedWhole self.old page pages }
        requires hidden { (k : ℕ) → k < pages → gives_area self.old (page + k) (user_of grant) ≡ false }
        ensures only { ChangesOnly (pages_of_range page pages) self.old self.new }
        ensures free { self.new.free ≡ self.old.free }
        ensures granted { (k : ℕ) → k < pages → IfSome (leads self.old (page + k)) (λ was. leads self.new (page + k) ≡ Some (place_with was.frame (given_by grant was))) }
        ensures large { AreSlotsGranted self.old self.new page pages (given_by grant) }
        ensures words { KeepsOtherWords (pages_of_range page pages) self.old self.new }
    {
        let mut done = 0;
        while done < pages {
            let at = page.after(done);
            if self.grant_entry(at, grant) {
                done += 1;
            } else {
                self.grant_slot(slot_at(at), grant);
                done += 512;
            }
        }
    }

    /// Ends the mapping of `pages` pages from this one on. A large page that lies whole in the range leaves by its one
    /// entry; one that reaches over an end of the range is split in a frame of the area. The other tables stay. The
    /// pages of the range are to be flushed before their frames have another use.
    pub fn unmap_range(&mut self, page: Page, pages: u64) -> Result<(), RangeFault>
        ensures change { IsChange (pages_of_range page pages) (pages_of_range page pages) (change_range_fault self.old page pages) self.old result self.new }
        ensures unmapped { OnOk result (IsRangeUnmapped self.old self.new page pages) }
    {
        if pages == 0 {
            return Ok(());
        }
        match self.change_range_fault(page, pages) {
            Some(fault) => Err(fault),
            None => {
                self.split_ends(page, pages);
                self.clear_all(page, pages);
                Ok(())
            }
        }
    }

    /// Gives new bits to `pages` pages from this one on. Each keeps its frame.
    pub fn grant_range(&mut self, page: Page, pages: u64, grant: Grant) -> Result<(), RangeFault>
        ensures change { IsChange (pages_of_range page pages) (pages_of_range page pages) (protect_range_fault self.old page pages (user_of grant)) self.old result self.new }
        ensures granted { OnOk result (IsRangeGranted self.old self.new page pages (given_by grant)) }
    {
        if pages == 0 {
            return Ok(());
        }
        match self.protect_range_fault(page, pages, grant) {
            Some(fault) => Err(fault),
            None => {
                self.split_ends(page, pages);
                self.grant_all(page, pages, grant);
                Ok(())
            }
        }
    }

    /// Gives these rights to `pages` pages from this one on. Each keeps its frame and its type, and stays global or not. A large page
    /// that lies whole in the range is given them by its one entry; one that reaches over an end of the range is split in a frame of
    /// the area. The pages of the range are to be flushed.
    pub fn protect_range(
        &mut self,
        page: Page,
        pages: u64,
        rights: Rights,
    ) -> Result<(), RangeFault>
        ensures change { IsChange (pages_of_range page pages) (pages_of_range page pages) (protect_range_fault self.old page pages rights.user) self.old result self.new }
        ensures granted { OnOk result (IsRangeGranted self.old self.new page pages (with_rights rights)) }
    {
        self.grant_range(page, pages, Grant::Only(rights))
    }

    /// Does what `protect_range` does, with all bits of the entries.
    pub fn protect_range_with(
        &mut self,
        page: Page,
        pages: u64,
        bits: PageBits,
    ) -> Result<(), RangeFault>
        ensures change { IsChange (pages_of_range page pages) (pages_of_range page pages) (protect_range_fault self.old page pages bits.user) self.old result self.new }
        ensures granted { OnOk result (IsRangeGranted self.old self.new page pages (all_bits bits)) }
    {
        self.grant_range(page, pages, Grant::All(bits))
    }
}
