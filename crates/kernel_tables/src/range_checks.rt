//! What a range of pages meets: its lowest page that is mapped, and the tables that it needs.
ghost use Rattle.std.specs.Prelude.{◌≡◌, ℕ, ◌+◌, ◌-◌, ◌*◌, ◌/◌, ◌%◌, ◌^◌, ◌<◌, ◌≤◌, None, IsTrue, IsSome};
ghost use Rattle.paging_core.specs.Address.{IsCanonicalRange};
ghost use Rattle.paging_core.specs.Missing.{missing_of};
ghost use Rattle.paging_core.specs.Prefix.{prefix_of};
ghost use Rattle.paging_core.specs.Walk.{reach};
ghost use Rattle.kernel_tables.specs.Ranges.{lies_in_half, lowest_mapped, large_count, tables_wanted, map_range_fault};
ghost use Rattle.kernel_tables.specs.TableState.{leads, IsPage, misses};

use crate::range_fault::RangeFault;
use crate::tables::Tables;
use paging_core::{
    Page, PhysFrame, PhysicalMemory, Size2MiB, WalkEnd, end_of_walk, has_table, missing_tables,
};

/// Whether the pages, at least one, lie in one canonical half.
pub(crate) fn lies_in_half(page: Page, pages: u64) -> bool
    requires { 0 < pages }
    ensures test { result ≡ lies_in_half page pages }
    ensures range { IsTrue result → IsCanonicalRange page pages }
{
    pages <= (1 << 35) - page.number() % (1 << 35)
}

/// The slot of the page.
pub(crate) fn slot_at(page: Page) -> Page<Size2MiB>
    ensures { result ≡ page / 512 }
{
    Page::containing_address(page.start_address())
}

impl<'a> Tables<'a> {
    /// How many tables the range misses. They are counted for the pages of one entry of the root at a time.
    fn missing_in(&self, page: Page, pages: u64) -> u64
        requires range { IsCanonicalRange page pages }
        ensures { result ≡ missing_of self.now.words self.now.root page pages }
    {
        let mut done = 0;
        let mut missing = 0;
        while done < pages {
            let at = page.after(done);
            let count = ((1 << 27) - at.number() % (1 << 27)).min(pages - done);
            missing += missing_tables(&self.memory, self.root, at.number(), count);
            done += count;
        }
        missing
    }

    /// The end of a run of pages from this one on that are alike. The page misses `missing` tables. If it is not
    /// mapped, none of the run is; and if its slot has no table, no slot of the run has one.
    fn alike_until(&self, page: Page, missing: u64) -> u64
        requires missing { missing ≡ misses self.now page }
        ensures more { page < result }
        ensures bounded { result ≤ page + 2 ^ 27 }
        ensures unmapped { leads self.now page ≡ None → (other : ℕ) → page ≤ other → other < result → leads self.now other ≡ None }
        ensures no_table { reach self.now.words self.now.root 3 (prefix_of page 3) ≡ None →
            (result % 512 ≡ 0) × ((other : ℕ) → page ≤ other → other < result → reach self.now.words self.now.root 3 (prefix_of other 3) ≡ None) }
    {
        let number = page.number();
        let block = 1u64 << (9 * missing);
        number - number % block + block
    }

    /// How many pages from this one on are seen to be unmapped: none if the page is mapped.
    fn pages_unmapped(&self, page: Page) -> u64
        ensures none { result ≡ 0 → IsSome (leads self.now page) }
        ensures bounded { result ≤ 2 ^ 27 }
        ensures unmapped { (k : ℕ) → k < result → leads self.now (page + k) ≡ None }
    {
        match end_of_walk(&self.memory, self.root, page) {
            WalkEnd::Entry { page: None, .. } => 1,
            WalkEnd::Missing(tables) => self.alike_until(page, tables) - page.number(),
            _ => 0,
        }
    }

    /// The lowest page of the range that is mapped.
    fn lowest_mapped(&self, page: Page, pages: u64) -> Option<Page>
        requires range { IsCanonicalRange page pages }
        ensures { result ≡ lowest_mapped self.now page pages }
    {
        let mut done = 0;
        while done < pages {
            let at = page.after(done);
            let unmapped = self.pages_unmapped(at);
            if unmapped == 0 {
                return Some(at);
            }
            done += unmapped;
        }
        None
    }

    /// How many slots of the range become large if it is mapped.
    fn large_count(&self, page: Page, pages: u64, frame: PhysFrame) -> u64
        requires range { IsCanonicalRange page pages }
        ensures { result ≡ large_count self.now page pages frame }
    {
        if page.number() % 512 != frame.number() % 512 {
            return 0;
        }
        let end = (page.number() + pages) / 512;
        let mut slot = (page.number() + 511) / 512;
        let mut count = 0;
        while slot < end {
            let at = page.after(512 * slot - page.number());
            if has_table(&self.memory, self.root, slot_at(at)) {
                slot += 1;
            } else {
                let missing = missing_tables(&self.memory, self.root, at.number(), 1);
                let next = (self.alike_until(at, missing) / 512).min(end);
                count += next - slot;
                slot = next;
            }
        }
        count
    }

    /// How many tables are made if the range is mapped.
    fn tables_wanted(&self, page: Page, pages: u64, frame: PhysFrame) -> u64
        requires range { IsCanonicalRange page pages }
        ensures { result ≡ tables_wanted self.now page pages frame }
    {
        self.missing_in(page, pages)
            .saturating_sub(self.large_count(page, pages, frame))
    }

    /// Why the pages, at least one, are not mapped to the frames, if they are not.
    pub(crate) fn map_range_fault(
        &self,
        page: Page,
        pages: u64,
        frame: PhysFrame,
        user: bool,
    ) -> Option<RangeFault>
        requires some { 0 < pages }
        ensures fault { result ≡ map_range_fault self.now page pages frame user }
        ensures fits { result ≡ None → frame + pages ≤ 2 ^ 40 }
        ensures canonical { IsPage page }
    {
        let _canonical = page.number();
        if !lies_in_half(page, pages) {
            return Some(RangeFault::NotCanonical);
        }
        if let Some(mapped) = self.lowest_mapped(page, pages) {
            return Some(RangeFault::IsMapped(mapped));
        }
        if frame.number() + pages > self.memory.limit() {
            return Some(RangeFault::PastLimit);
        }
        if !self.sees_area(user) && self.memory.meets(frame, pages) {
            return Some(RangeFault::InArea);
        }
        let wanted = self.tables_wanted(page, pages, frame);
        let free = self.free.left();
        if wanted > free {
            return Some(RangeFault::NoFrames {
                wanting: wanted - free,
            });
        }
        None
    }
}
