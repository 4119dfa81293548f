//! An address space.
ghost use Rattle.std.specs.Prelude.{◌≡◌, ◌+◌, ◌-◌, ◌^◌, ◌<◌, ◌≤◌, ◌↔◌, IsTrue, IfOk, IfSome, IfNone, OnOk, None, []};
ghost use Rattle.paging_core.specs.Address.{IsCanonicalRange};
ghost use Rattle.paging_core.specs.Memory.{frame_count};
ghost use Rattle.paging_core.specs.Pool.{free_count};
ghost use Rattle.meminterval.specs.Tree.{entries};
ghost use Rattle.address_space.specs.Runs.{areas_of};
ghost use Rattle.address_space.specs.Space.{AreTablesKept, AreTablesKept-prop, page_map_of};
ghost use Rattle.address_space.specs.PageMap.{AreNoneMapped, IsPagePlace, HasNoPagePlace};
ghost use Rattle.address_space.specs.Mapping.{CanMapPages, HasFrames, ArePagesMapped};

use crate::area::AreaList;
use crate::runs;
use meminterval::IntervalTree;
use paging_core::{
    FramePool, Frames, Page, PhysFrame, Rights, VirtAddr, make_root, map_range, missing_tables,
};
use std::alloc::{AllocError, Global};

/// Pages with rights and bytes, each with a frame of its own in a physical memory, over page tables with a root of
/// their own.
#[derive(Drop)]
pub struct Space {
    pub(crate) alloc: Global,
    pub(crate) frames: Frames,
    pub(crate) pool: FramePool,
    pub(crate) root: PhysFrame,
    pub(crate) runs: IntervalTree<u64, Rights>,
    ghost kept: { AreTablesKept (record { words = frames; root = root; free = pool; runs = entries runs }) } by { AreTablesKept-prop (record { words = frames; root = root; free = pool; runs = entries runs }) },
}

impl Space {
    ghost use Rattle.address_space.specs.Seen.{tables_of, KeptIfErr};

    /// A space with `frames` frames, of which one holds the root table. No page is mapped.
    pub fn new(alloc: Global, frames: u32) -> Result<Self, AllocError>
        requires { 0 < frames }
        ensures runs { IfOk result (λ space. (tables_of space).runs ≡ []) }
        ensures frames { IfOk result (λ space. frame_count (tables_of space).words ≡ frames) }
        ensures free { IfOk result (λ space. free_count (tables_of space).free + 1 ≡ frames) }
    {
        let mut memory = Frames::new(alloc, frames)?;
        let mut pool = FramePool::new(alloc, frames)?;
        let Some(root) = make_root(&mut memory, &mut pool) else {
            unreachable!()
        };
        Ok(Space {
            alloc,
            frames: memory,
            pool,
            root,
            runs: IntervalTree::new(),
        })
    }

    /// The physical memory.
    pub fn frames(&self) -> &Frames
        ensures words { result.now ≡ (tables_of self.now).words }

        // In it the walk from the root finds exactly the pages of the map, with their rights and bytes.
        ensures kept { AreTablesKept (tables_of self.now) }
    {
        &self.frames
    }

    /// The frame of the root table.
    pub fn root(&self) -> PhysFrame
        ensures { result ≡ (tables_of self.now).root }
    {
        self.root
    }

    /// The number of free frames.
    pub fn free_frames(&self) -> u64
        ensures { result ≡ free_count (tables_of self.now).free }
    {
        self.pool.free_count()
    }

    /// The longest runs of pages of equal rights, by ascending address.
    pub fn areas(&self, alloc: Global) -> Result<AreaList, AllocError>
        ensures { IfOk result (λ list. list ≡ areas_of (tables_of self.now).runs) }
    {
        runs::list(&self.runs, alloc)
    }

    /// Whether none of the `pages` pages from `first` on is mapped.
    pub(crate) fn is_clear(&self, first: Page, pages: u64) -> bool
        requires some { 0 < pages }
        requires within { first + pages ≤ 2 ^ 52 }
        ensures { IsTrue result ↔ AreNoneMapped (page_map_of (tables_of self.now)) first pages }
    {
        runs::is_clear(&self.runs, first.number(), first.number() + pages)
    }

    /// The lowest page of a window in one canonical half, from which `pages` pages up to `end` are not mapped.
    pub(crate) fn lowest_place(&self, base: Page, end: u64, pages: u64) -> Option<Page>
        requires some { 0 < pages }
        requires window { end ≤ 2 ^ 52 }
        requires range { IsCanonicalRange base (end - base) }
        ensures place { IfSome result (IsPagePlace (page_map_of (tables_of self.now)).rights base end pages) }
        ensures range { IfSome result (λ first. IsCanonicalRange first pages) }
        ensures none { IfNone result (HasNoPagePlace (page_map_of (tables_of self.now)).rights base end pages) }
    {
        let Some(number) = runs::lowest_place(&self.runs, base.number(), end, pages) else {
            return None;
        };
        Some(Page::containing_address(VirtAddr::new(number * 4096)))
    }

    /// Whether there are frames for the `pages` pages from `first` on, and for the tables that they miss.
    pub(crate) fn has_frames(&self, first: Page, pages: u64) -> bool
        requires { IsCanonicalRange first pages }
        ensures { IsTrue result ↔ HasFrames (tables_of self.now) first pages }
    {
        let free = self.pool.free_count();
        if free < pages {
            return false;
        }
        missing_tables(&self.frames, self.root, first.number(), pages) <= free - pages
    }

    /// Maps pages that are not mapped, and for which there are frames. An `Err` changes nothing.
    pub(crate) fn map_clear(
        &mut self,
        first: Page,
        pages: u64,
        rights: Rights,
    ) -> Result<(), AllocError>
        requires { CanMapPages (tables_of self.old) first pages }
        ensures ok { OnOk result (ArePagesMapped (tables_of self.old) (tables_of self.new) first pages rights) }
        ensures err { KeptIfErr result self.old self.new }
    {
        let number = first.number();
        runs::add(&mut self.runs, self.alloc, number, number + pages, rights)?;
        map_range(
            &mut self.frames,
            &mut self.pool,
            self.root,
            first,
            pages,
            rights.bits(),
        );
        Ok(())
    }
}
