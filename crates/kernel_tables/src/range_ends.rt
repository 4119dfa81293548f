//! What hinders a change of the pages of a range: pages that are not mapped, and large pages that reach over its ends.
ghost use Rattle.std.specs.Prelude.{◌≡◌, ℕ, ◌+◌, ◌-◌, ◌*◌, ◌/◌, ◌%◌, ◌^◌, ◌<◌, ◌≤◌, None, IsSome, true, false};
ghost use Rattle.paging_core.specs.Address.{IsCanonicalRange};
ghost use Rattle.paging_core.specs.Area.{in_area};
ghost use Rattle.kernel_tables.specs.Grants.{user_of};
ghost use Rattle.kernel_tables.specs.Ranges.{lowest_unmapped, lowest_giving, is_split, splits, change_range_fault, protect_range_fault};
ghost use Rattle.kernel_tables.specs.TableState.{leads, place_in, IsPage};

use crate::grants::Grant;
use crate::range_checks::{lies_in_half, slot_at};
use crate::range_fault::RangeFault;
use crate::tables::Tables;
use paging_core::{Page, PhysFrame, PhysicalMemory, WalkEnd, end_of_walk, large_page};

impl<'a> Tables<'a> {
    /// How many pages from this one on its entry maps: none if the page is not mapped.
    fn pages_of_entry(&self, page: Page) -> u64
        ensures none { result ≡ 0 → leads self.now page ≡ None }
        ensures bounded { result ≤ 512 }
        ensures mapped { (k : ℕ) → k < result → IsSome (leads self.now (page + k)) }
    {
        match end_of_walk(&self.memory, self.root, page) {
            WalkEnd::Entry { page: Some(_), .. } => 1,
            WalkEnd::Large(_) => 512 - page.number() % 512,
            _ => 0,
        }
    }

    /// The lowest page of the range that is not mapped.
    fn lowest_unmapped(&self, page: Page, pages: u64) -> Option<Page>
        requires range { IsCanonicalRange page pages }
        ensures { result ≡ lowest_unmapped self.now page pages }
    {
        let mut done = 0;
        while done < pages {
            let at = page.after(done);
            let mapped = self.pages_of_entry(at);
            if mapped == 0 {
                return Some(at);
            }
            done += mapped;
        }
        None
    }

    /// How many of `count` pages, from one that leads to this frame on, to frames in a row, are seen to lead past the area: none if
    /// the first leads into it.
    fn frames_beside(&self, frame: PhysFrame, count: u64) -> u64
        requires some { 0 < count }
        requires fits { frame + count ≤ 2 ^ 40 }
        ensures none { result ≡ 0 → in_area self.now.area frame ≡ true }
        ensures bounded { result ≤ count }
        ensures beside { (k : ℕ) → k < result → in_area self.now.area (frame + k) ≡ false }
    {
        if self.memory.contains(frame) {
            0
        } else if self.memory.meets(frame, count) {
            1
        } else {
            count
        }
    }

    /// How many pages from this one on are seen not to lead into the area: none if the page does. A large page is seen at once, if it
    /// lies beside the area.
    fn pages_beside(&self, page: Page) -> u64
        ensures none { result ≡ 0 → place_in self.now.area (leads self.now page) ≡ true }
        ensures bounded { result ≤ 512 }
        ensures beside { (k : ℕ) → k < result → place_in self.now.area (leads self.now (page + k)) ≡ false }
    {
        match end_of_walk(&self.memory, self.root, page) {
            WalkEnd::Entry {
                page: Some(met),
                ..
            } => self.frames_beside(met.frame, 1),
            WalkEnd::Large(met) => {
                let _bounded = self.memory.limit();
                self.frames_beside(met.frame, 512 - page.number() % 512)
            }
            _ => 1,
        }
    }

    /// The lowest page of the range by which users would reach the area if they reached it.
    fn lowest_giving(&self, page: Page, pages: u64, user: bool) -> Option<Page>
        requires range { IsCanonicalRange page pages }
        ensures { result ≡ lowest_giving self.now page pages user }
    {
        if !user {
            return None;
        }
        let mut done = 0;
        while done < pages {
            let at = page.after(done);
            let beside = self.pages_beside(at);
            if beside == 0 {
                return Some(at);
            }
            done += beside;
        }
        None
    }

    /// Whether a large page maps this page's slot, and the slot does not lie whole in the range.
    pub(crate) fn is_split(&self, at: Page, page: Page, pages: u64) -> bool
        requires range { IsCanonicalRange page pages }
        ensures { result ≡ is_split self.now page pages (at / 512) }
    {
        let slot = slot_at(at);
        let from = 512 * slot.number();
        let first = page.number();
        large_page(&self.memory, self.root, slot).is_some()
            && !(first <= from && from + 512 <= first + pages)
    }

    /// How many large pages reach over the ends of the range.
    fn splits(&self, page: Page, pages: u64) -> u64
        requires range { IsCanonicalRange page pages }
        ensures { result ≡ splits self.now page pages }
    {
        let last = page.after(pages - 1);
        let begin = self.is_split(page, page, pages);
        let end = slot_at(last).number() != slot_at(page).number()
            && self.is_split(last, page, pages);
        let mut splits = 0;
        if begin {
            splits += 1;
        }
        if end {
            splits += 1;
        }
        splits
    }

    /// Why the pages, at least one, are not changed, if they are not.
    pub(crate) fn change_range_fault(&self, page: Page, pages: u64) -> Option<RangeFault>
        requires some { 0 < pages }
        ensures fault { result ≡ change_range_fault self.now page pages }
        ensures canonical { IsPage page }
    {
        let _canonical = page.number();
        if !lies_in_half(page, pages) {
            return Some(RangeFault::NotCanonical);
        }
        if let Some(hole) = self.lowest_unmapped(page, pages) {
            return Some(RangeFault::NotMapped(hole));
        }
        let wanted = self.splits(page, pages);
        let free = self.free.left();
        if wanted > free {
            return Some(RangeFault::NoFrames {
                wanting: wanted - free,
            });
        }
        None
    }

    /// Why the pages, at least one, are not given new bits, if they are not.
    pub(crate) fn protect_range_fault(
        &self,
        page: Page,
        pages: u64,
        grant: Grant,
    ) -> Option<RangeFault>
        requires some { 0 < pages }
        ensures fault { result ≡ protect_range_fault self.now page pages (user_of grant) }
        ensures canonical { IsPage page }
    {
        let _canonical = page.number();
        if !lies_in_half(page, pages) {
            return Some(RangeFault::NotCanonical);
        }
        if let Some(hole) = self.lowest_unmapped(page, pages) {
            return Some(RangeFault::NotMapped(hole));
        }
        if let Some(giving) = self.lowest_giving(page, pages, grant.user()) {
            return Some(RangeFault::LeadsIntoArea(giving));
        }
        let wanted = self.splits(page, pages);
        let free = self.free.left();
        if wanted > free {
            return Some(RangeFault::NoFrames {
                wanting: wanted - free,
            });
        }
        None
    }
}
