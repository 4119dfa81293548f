//! Regions by page number.
ghost use Rattle.std.specs.Prelude.{◌≡◌, ◌+◌, ◌-◌, ◌*◌, ◌^◌, ◌<◌, ◌≤◌, IfNone, [], ◌∷◌, ◌++◌};
ghost use Rattle.std.specs.Prelude.{IsFalse, IsTrue, OnOk, OnErr, filter, find, map, length, vec_len, vec_capacity};
ghost use Rattle.std.specs.List.{list_any};
ghost use Rattle.machine_model.specs.Place.{meets, meets_any, with_region};
ghost use Rattle.meminterval.specs.Tree.{entries};
ghost use Rattle.mapped_regions.specs.Pairs.{region_of, pair_regions, ArePages, ArePagesOf, Follow};
ghost use Rattle.mapped_regions.specs.Regions.{AreLaid, AreHeld, HasPlaces, HasWholePages, IsHint, IsLowest, IsRegionBoundary, AreTakenOut, IsPutIn, is_at, meets_heap, without_region, with_page_count, cut_regions};

use machine_model::{Region, RegionList, Rights};
use meminterval::{Interval, IntervalTree};
use paging_core::{PageSize, Size4KiB};
use std::alloc::{AllocError, Global};
use std::marker::Model;

/// What a region is besides its pages.
#[derive(Clone, Copy)]
struct Kind {
    heap: bool,
    rights: Rights,
}

/// The region of the pages in an interval.
fn region(pages: &Interval<u64>, kind: Kind) -> Region
    requires { ArePages pages.now }
    ensures { result ≡ region_of (pages.now, kind) }
{
    Region {
        start: pages.start * Size4KiB::SIZE,
        pages: pages.end - pages.start,
        heap: kind.heap,
        rights: kind.rights,
    }
}

/// The pages of a region.
fn pages_of(region: &Region) -> Interval<u64>
    requires { HasWholePages region.now }
    ensures { ArePagesOf region.now result }
{
    let first = region.start / Size4KiB::SIZE;
    Interval::new(first, first + region.pages)
}

/// Puts a region after those of a list that has a place for it, if it is the heap's.
fn push_of_heap(list: &mut Vec<Region>, region: Region)
    requires place { vec_len list.old < vec_capacity list.old }
    ensures items { list.new.items ≡ list.old.items ++ filter (λ region. region.heap) (region ∷ []) }
    ensures capacity { vec_capacity list.new ≡ vec_capacity list.old }
{
    if region.heap {
        list.push_reserved(region);
    }
}

/// The end of the regions that follow each other from a page on.
fn run_end(tree: &IntervalTree<u64, Kind>, from: u64) -> u64
    requires { Follow 0 (entries tree.now) (2 ^ 52) }
    ensures above { from ≤ result }
    ensures held { AreHeld (4096 * from) (4096 * result) (pair_regions (entries tree.now)) }
{
    let mut at = from;
    while let Some(entry) = tree.first_from(&at) {
        if entry.interval.start != at {
            return at;
        }
        at = entry.interval.end;
    }
    at
}

/// The hint of a window from the page `base` on, when pages from `first` on have become free.
fn lowered(hint: u64, base: u64, first: u64) -> u64
    requires { base ≤ hint }
    ensures above { base ≤ result }
    ensures below { result ≤ hint }
    ensures before { base < result → result ≤ first }
{
    if hint <= first {
        hint
    } else if base <= first {
        first
    } else {
        base
    }
}

/// Regions of pages, none of which meets another. A contract sees them as a list by ascending address.
///
/// A tree is made for the window from a page on, and remembers how far the pages from there on are all taken. A search
/// for a place in that window begins after them.
#[derive(Drop)]
pub struct RegionTree {
    tree: IntervalTree<u64, Kind>,
    /// The first page of the window.
    base: u64,
    /// No page of the window before this one is free.
    hint: u64,
}

impl Model for RegionTree {
    ghost use Rattle.std.specs.Prelude.{List, ◌^◌};
    ghost use Rattle.machine_model.specs.declared.region.Region.{Region};
    ghost use Rattle.meminterval.specs.Tree.{entries};
    ghost use Rattle.mapped_regions.specs.Pairs.{pair_regions, IsTreeKept};

    ghost Value = { List Region };

    ghost view = { λ t. pair_regions (entries t.tree) };

    ghost invariant = { λ t. IsTreeKept t.base t.hint (entries t.tree) };
}

impl RegionTree {
    /// No regions, for a window from the page `base` on. Takes no memory.
    pub fn new(base: u64) -> Self
        ensures { result ≡ [] }
    {
        RegionTree {
            tree: IntervalTree::new(),
            base,
            hint: base,
        }
    }

    /// How many regions there are.
    pub fn count(&self) -> usize
        ensures count { result ≡ length self.now }
        ensures few { result ≤ 2 ^ 52 }

        // Each region has pages and ends before the next one begins.
        ensures laid { AreLaid 0 self.now (2 ^ 64) }
    {
        self.tree.size()
    }

    /// Puts the regions into a list that has places for them, by ascending address.
    pub fn list(&self, mut list: Vec<Region>) -> RegionList
        requires { HasPlaces list (length self.now) }
        ensures { result ≡ self.now }
    {
        let mut at = 0;
        while let Some(entry) = self.tree.first_from(&at) {
            list.push_reserved(region(entry.interval, *entry.value));
            at = entry.interval.end;
        }
        RegionList::from_vec(list)
    }

    /// Puts the regions of the heap into a list that has places for all regions, by ascending address.
    pub fn list_of_heap(&self, mut list: Vec<Region>) -> RegionList
        requires { HasPlaces list (length self.now) }
        ensures { result ≡ filter (λ region. region.heap) self.now }
    {
        let mut page = 0;
        while let Some(entry) = self.tree.first_from(&page) {
            push_of_heap(&mut list, region(entry.interval, *entry.value));
            page = entry.interval.end;
        }
        RegionList::from_vec(list)
    }

    /// The lowest page of the window of `pages` pages from the page `base` on, from which `n` pages lie in the window
    /// and meet no region.
    ///
    /// In the window for which the tree was made, it takes two look-ups if no region lies after the first free page.
    pub fn lowest_place(&self, base: u64, pages: u64, n: u64) -> Option<u64>
        requires some { 0 < n }
        requires window { base + pages ≤ 2 ^ 52 }
        ensures { IsLowest base pages self.now n result }
    {
        let hint = self.hint_in(base, base + pages);
        self.place_behind(hint, base, pages, n)
    }

    /// A page of the window from `base` to `end` before which none is free.
    fn hint_in(&self, base: u64, end: u64) -> u64
        requires { base ≤ end }
        ensures { IsHint base end self.now result }
    {
        if base != self.base {
            return base;
        }
        if self.hint > end {
            return base;
        }
        self.hint
    }

    /// The lowest place, if no page of the window before the page `hint` is free.
    fn place_behind(&self, hint: u64, base: u64, pages: u64, n: u64) -> Option<u64>
        requires some { 0 < n }
        requires window { base + pages ≤ 2 ^ 52 }
        requires hint { IsHint base (base + pages) self.now hint }
        ensures { IsLowest base pages self.now n result }
    {
        self.place_from(hint, base + pages - hint, n)
    }

    /// The lowest place, by a search from the page `base` on.
    fn place_from(&self, base: u64, pages: u64, n: u64) -> Option<u64>
        requires window { base + pages ≤ 2 ^ 52 }
        ensures { IsLowest base pages self.now n result }
    {
        let end = base + pages;
        let mut at = base;
        if let Some(entry) = self.tree.last_before(&base) {
            if entry.interval.end > base {
                at = entry.interval.end;
            }
        }
        while at <= end && n <= end - at {
            match self.tree.first_from(&at) {
                None => return Some(at),
                Some(entry) => {
                    if entry.interval.start - at >= n {
                        return Some(at);
                    }
                    at = entry.interval.end;
                }
            }
        }
        None
    }

    /// The lowest region that `pages` pages from the page `first` on meet.
    pub fn lowest_met(&self, first: u64, pages: u64) -> Option<Region>
        requires within { first + pages ≤ 2 ^ 52 }
        ensures value { result ≡ find (meets (4096 * first) pages) self.now }
        ensures clear { IfNone result (IsFalse (meets_any (4096 * first) pages self.now)) }
        ensures laid { AreLaid 0 self.now (2 ^ 64) }
    {
        if let Some(entry) = self.tree.last_before(&first) {
            if entry.interval.end > first {
                return Some(region(entry.interval, *entry.value));
            }
        }
        match self.tree.first_from(&first) {
            Some(entry) => {
                if entry.interval.start < first + pages {
                    Some(region(entry.interval, *entry.value))
                } else {
                    None
                }
            }
            None => None,
        }
    }

    /// The lowest region of the heap that `pages` pages from the page `first` on meet.
    pub fn lowest_heap_met(&self, first: u64, pages: u64) -> Option<Region>
        requires within { first + pages ≤ 2 ^ 52 }
        ensures { result ≡ find (meets_heap (4096 * first) pages) self.now }
    {
        let end = first + pages;
        let mut at = first;
        while let Some(region) = self.lowest_met(at, end - at) {
            if region.heap {
                return Some(region);
            }
            let next = region.start / Size4KiB::SIZE + region.pages;
            if next >= end {
                return None;
            }
            at = next;
        }
        None
    }

    /// Puts a region in that meets none of the others. An `Err` changes nothing.
    pub fn add(&mut self, alloc: Global, region: Region) -> Result<(), AllocError>
        requires whole { HasWholePages region }
        requires some { 0 < region.pages }
        requires clear { IsFalse (meets_any region.start region.pages self.old) }
        ensures ok { OnOk result (self.new ≡ with_region region self.old) }
        ensures put { OnOk result (IsPutIn region self.old self.new) }
        ensures err { OnErr result (self.new ≡ self.old) }
    {
        let pages = pages_of(&region);
        let kind = Kind {
            heap: region.heap,
            rights: region.rights,
        };
        let first = pages.start;
        let end = pages.end;
        self.tree.insert(alloc, pages, kind)?;
        if first == self.hint {
            self.hint = run_end(&self.tree, end);
        }
        Ok(())
    }

    /// Takes a region out, if it is there.
    pub fn remove(&mut self, region: &Region)
        requires { HasWholePages region.now }
        ensures regions { self.new ≡ without_region region.now.start region.now.pages self.old }

        // If it is there, its addresses leave and no others.
        ensures taken { IsTrue (list_any (is_at region.now.start region.now.pages) self.old) → AreTakenOut region.now.start (region.now.start + 4096 * region.now.pages) self.old self.new }
    {
        let pages = pages_of(region);
        self.tree.delete(&pages);
        self.hint = lowered(self.hint, self.base, pages.start);
    }

    /// Cuts a region at its end, so that `left` of its pages are left.
    pub fn shorten(&mut self, region: &Region, left: u64)
        requires whole { HasWholePages region.now }
        requires there { IsTrue (list_any (is_at region.now.start region.now.pages) self.old) }
        requires some { 0 < left }
        requires less { left ≤ region.now.pages }
        ensures { self.new ≡ map (with_page_count region.now.start region.now.pages left) self.old }
    {
        let pages = pages_of(region);
        let end = pages.start + left;
        self.tree.shorten(&pages, end);
        self.hint = lowered(self.hint, self.base, end);
    }

    /// Takes `pages` pages from the page `first` on out of the regions: one that meets them ends where they begin, and
    /// leaves if it begins there or after that.
    pub fn cut(&mut self, first: u64, pages: u64)
        requires within { first + pages ≤ 2 ^ 52 }
        ensures regions { self.new ≡ cut_regions (4096 * first) pages self.old }

        // If no region reaches over their end, these pages leave and no others.
        ensures taken { IsRegionBoundary (4096 * (first + pages)) self.old → AreTakenOut (4096 * first) (4096 * (first + pages)) self.old self.new }
        ensures laid { AreLaid 0 self.old (2 ^ 64) }
    {
        // After a look at a field, what the type keeps is known of the regions as they were.
        let _ = &self.tree;
        while let Some(region) = self.lowest_met(first, pages) {
            let start = region.start / Size4KiB::SIZE;
            if start < first {
                self.shorten(&region, first - start);
            } else {
                self.remove(&region);
            }
        }
    }
}
