// Regions that are mapped in page tables over a physical memory.
ghost use Rattle.std.specs.Prelude.{◌≡◌, ℕ, ◌+◌, ◌*◌, ◌/◌, ◌%◌, ◌^◌, ◌≤◌, ◌<◌, ◌↔◌, IsTrue, IsSome, IfOk, IfSome, IfNone, OnOk, List, Bool, set, filter, length, slice_index, Some, [], ◌⊎◌, ◌≢◌};
ghost use Rattle.std.specs.List.{list_any};
ghost use Rattle.std.specs.Option.{option_map};
ghost use Rattle.paging_core.specs.Address.{is_canonical, IsCanonicalRange};
ghost use Rattle.paging_core.specs.Memory.{byte_of, frame_count, AreWordsWritten};
ghost use Rattle.paging_core.specs.Pool.{free_count};
ghost use Rattle.paging_core.specs.Walk.{walk_of, reached};
ghost use Rattle.paging_core.specs.Tree.{IsTree};
ghost use Rattle.machine_model.specs.Place.{IsPlace, HasNoPlace};
ghost use Rattle.machine_model.specs.Machine.{rights_of};
ghost use Rattle.mapped_regions.specs.Regions.{is_at, kind_at, AreHeld, AreLaid, HasPlaces, IsRegionBoundary};
ghost use Rattle.mapped_regions.specs.MetSlots.{AreMet, AreMet-prop};
ghost use Rattle.mapped_regions.specs.Mapped.{IsPageRange, IsMapped, IsMapped-prop};

use crate::large_slots::list_large;
use crate::met_slots::MetSlots;
use crate::region_tree::RegionTree;
use machine_model::{Region, RegionList, Rights, SlotList};
use page_ranges::{map_pages, unmap_pages};
use paging_core::{
    FramePool, Frames, Page, PageSize, PhysFrame, Size2MiB, Size4KiB, VirtAddr, load_word,
    make_root, missing_tables, walk,
};
use std::alloc::{AllocError, Global};
use std::mem;

/// The place in its page of the word at a multiple of 8.
fn word_index(at: u64) -> u16
    ensures index { result ≡ at % 4096 / 8 }
    ensures bounded { result < 512 }
{
    (at % Size4KiB::SIZE / 8) as u16
}

/// Physical memory with its page tables and its free frames, and regions of pages that are mapped in it, each page at
/// a frame of its own: regions of the heap in a window, and regions of the user anywhere. A slot that lies whole in a
/// region may be mapped by one entry, as a large page.
#[derive(Drop)]
pub struct MappedRegions {
    alloc: Global,
    base: u64,
    pages: u64,
    frames: Frames,
    pool: FramePool,
    root: PhysFrame,
    tables: u64,
    /// How often a region joined. It begins anew after the greatest number, and says no more than whether one joined
    /// lately.
    joins: u64,
    /// The pages that stores met, and their slots: a word of one of these takes one step of the walk at most.
    met_slots: MetSlots,
    /// The first addresses of the slots that the region which joined last has in large pages, until they are asked for.
    slots: Vec<u64>,
    pub(crate) regions: RegionTree,
    ghost met: { AreMet frames root met_slots } by { AreMet-prop frames root met_slots },
    ghost mapped: { IsMapped (record { base = base; pages = pages; words = frames; root = root; free = pool; tables = tables; joins = joins; regions = regions; slots = slots.items }) } by { IsMapped-prop (record { base = base; pages = pages; words = frames; root = root; free = pool; tables = tables; joins = joins; regions = regions; slots = slots.items }) },
}

impl MappedRegions {
    ghost use Rattle.mapped_regions.specs.Mapped.{IsEmpty, IsRegion, HasFrames, CanMap, IsRegionJoined, IsLeft, AreGone, IsMappedWord, word_reached};
    ghost use Rattle.mapped_regions.specs.FrameUse.{HasOneUse};
    ghost use Rattle.mapped_regions.specs.Shown.{paged_view, KeptIfErr};
    ghost use Rattle.paging_core.specs.Stores.{KeepsTables, IsWordPut};

    /// A memory with `frames` frames, of which one holds the root table, and with a window of `pages` pages from the
    /// address `base` on. Nothing is mapped.
    pub fn new(alloc: Global, base: u64, pages: u64, frames: u32) -> Result<Self, AllocError>
        requires window { IsPageRange base pages }
        requires frames { 0 < frames }
        ensures { IfOk result (λ memory. IsEmpty (paged_view memory) base pages frames) }
    {
        let mut memory = Frames::new(alloc, frames)?;
        let mut pool = FramePool::new(alloc, frames)?;
        let Some(root) = make_root(&mut memory, &mut pool) else {
            unreachable!()
        };
        Ok(MappedRegions {
            alloc,
            base,
            pages,
            frames: memory,
            pool,
            root,
            tables: 1,
            joins: 0,
            met_slots: MetSlots::new(root),
            slots: Vec::new(alloc),
            regions: RegionTree::new(base / Size4KiB::SIZE),
        })
    }

    /// The regions, by ascending address.
    pub fn regions(&self, alloc: Global) -> Result<RegionList, AllocError>
        ensures { IfOk result (λ list. list ≡ (paged_view self.now).regions) }
    {
        let list = Vec::with_capacity(alloc, self.regions.count())?;
        Ok(self.regions.list(list))
    }

    /// Each frame of the physical memory serves for exactly one thing: it is free, or it holds one table that walks from
    /// the root meet, or one page of one region. A large page is 512 pages, each at a frame of its own. No two regions
    /// have an address in common. It does nothing: its clauses are what a caller has by calling it.
    pub fn law_frames_have_one_use(&self)
        ensures frames { (frame : ℕ) → frame < frame_count (paged_view self.now).words → HasOneUse (paged_view self.now) frame }
        ensures regions { AreLaid 0 (paged_view self.now).regions (2 ^ 64) }
    {
        // The tree says here how its regions lie.
        let _ = self.regions.count();
    }

    /// The physical memory.
    pub fn frames(&self) -> &Frames
        ensures words { result.now ≡ (paged_view self.now).words }

        // In it the walk finds a page exactly where a region has it, with the region's rights, and no frame serves two
        // pages.
        ensures mapped { IsMapped (paged_view self.now) }
    {
        &self.frames
    }

    /// The frame of the root table.
    pub fn root(&self) -> PhysFrame
        ensures { result ≡ (paged_view self.now).root }
    {
        self.root
    }

    /// The number of free frames.
    pub fn free_frames(&self) -> u64
        ensures { result ≡ free_count (paged_view self.now).free }
    {
        self.pool.free_count()
    }

    /// How often a region joined, modulo 2^64.
    pub fn joins(&self) -> u64
        ensures { result ≡ (paged_view self.now).joins }
    {
        self.joins
    }

    /// The number of tables, with the root.
    pub fn tables(&self) -> u64
        ensures { result ≡ (paged_view self.now).tables }
    {
        self.tables
    }

    /// The number of regions.
    pub fn count(&self) -> usize
        ensures count { result ≡ length (paged_view self.now).regions }
        ensures few { result ≤ 2 ^ 52 }
    {
        self.regions.count()
    }

    /// Puts the regions into a list that has places for them.
    pub fn list(&self, list: Vec<Region>) -> RegionList
        requires { HasPlaces list (length (paged_view self.now).regions) }
        ensures { result ≡ (paged_view self.now).regions }
    {
        self.regions.list(list)
    }

    /// Puts the regions of the heap into a list that has places for all regions.
    pub fn list_of_heap(&self, list: Vec<Region>) -> RegionList
        requires { HasPlaces list (length (paged_view self.now).regions) }
        ensures { result ≡ filter (λ region. region.heap) (paged_view self.now).regions }
    {
        self.regions.list_of_heap(list)
    }

    /// Whether there are frames for the `pages` pages from `page` on, and for the tables that they lack.
    pub fn has_frames(&self, page: u64, pages: u64) -> bool
        requires { IsCanonicalRange page pages }
        ensures { IsTrue result ↔ HasFrames (paged_view self.now) page pages }
    {
        let free = self.pool.free_count();
        if free < pages {
            return false;
        }
        missing_tables(&self.frames, self.root, page, pages) <= free - pages
    }

    /// The lowest place in the window for `pages` pages.
    pub fn lowest_place(&self, pages: u64) -> Option<u64>
        requires some { 0 < pages }
        ensures place { IfSome result (λ start. IsPlace (paged_view self.now).base (paged_view self.now).pages (paged_view self.now).regions pages start) }
        ensures range { IfSome result (λ start. IsPageRange start pages) }
        ensures none { IfNone result (HasNoPlace (paged_view self.now).base (paged_view self.now).pages (paged_view self.now).regions pages) }
    {
        let base = self.base / Size4KiB::SIZE;
        let page = self.regions.lowest_place(base, self.pages, pages)?;
        Some(page * Size4KiB::SIZE)
    }

    /// Maps the pages of a region, and puts it among the others. Slots that lie whole in it and have no table are mapped
    /// by one entry each, as long as a run of frames is free. An `Err` changes nothing.
    pub fn join(&mut self, region: Region) -> Result<(), AllocError>
        requires region { IsRegion (paged_view self.old).base (paged_view self.old).pages region }
        requires can { CanMap (paged_view self.old) region.start region.pages }
        ensures ok { OnOk result (IsRegionJoined (paged_view self.old) (paged_view self.new) region) }
        ensures err { KeptIfErr result self.old self.new }
    {
        let free = self.pool.free_count();
        let places = region.pages * Size4KiB::SIZE / Size2MiB::SIZE;
        self.slots.reserve(places as usize)?;
        self.regions.add(self.alloc, region)?;
        self.joins = self.joins.wrapping_add(1);
        let stop = map_pages(
            &mut self.frames,
            &mut self.pool,
            self.root,
            Page::containing_address(VirtAddr::new(region.start)),
            region.pages,
            region.rights.bits(),
        );
        self.tables += free - region.pages - self.pool.free_count();
        self.slots.clear();
        list_large(&mut self.slots, &self.frames, self.root, region, stop);
        Ok(())
    }

    /// The slots that the region which joined last has in large pages, by ascending address, if there are any and they
    /// were not asked for before.
    pub fn take_slots(&mut self) -> Option<SlotList>
        ensures none { IfNone result ((paged_view self.old).slots ≡ []) }
        ensures some { IfSome result (λ list. (list ≡ (paged_view self.old).slots) × (list ≢ [])) }
        ensures rest { paged_view self.new ≡ record (paged_view self.old) { slots = [] } }
    {
        if self.slots.is_empty() {
            return None;
        }
        let slots = mem::replace(&mut self.slots, Vec::new(self.alloc));
        Some(SlotList::from_vec(slots))
    }

    /// Unmaps the pages of a region, and takes it out. It takes no memory.
    pub fn leave(&mut self, region: &Region)
        requires there { IsTrue (list_any (is_at region.now.start region.now.pages) (paged_view self.old).regions) }
        ensures { IsLeft (paged_view self.old) (paged_view self.new) region.now.start region.now.pages }
    {
        // The tree says here how its regions lie.
        let _ = self.regions.count();
        self.regions.remove(region);
        unmap_pages(
            &mut self.frames,
            &mut self.pool,
            self.root,
            Page::containing_address(VirtAddr::new(region.start)),
            region.pages,
        );
        self.met_slots.forget_pages(self.root);
    }

    /// What may be done at an address: the rights of the region that has it, if there is one, by a walk.
    pub fn rights_at(&self, address: u64) -> Option<Rights>
        requires { IsTrue (is_canonical address) }
        ensures region { result ≡ option_map (λ kind. kind.1) (kind_at (paged_view self.now).regions address) }
        ensures walk { result ≡ option_map rights_of (walk_of (paged_view self.now).words (paged_view self.now).root (address / 4096)) }
    {
        let page = Page::containing_address(VirtAddr::new(address));
        let Some(mapped) = walk(&self.frames, self.root, page) else {
            return None;
        };
        Some(Rights {
            write: mapped.write,
            user: mapped.user,
            fetch: mapped.fetch,
        })
    }

    /// The byte at an address that a region has, by a walk.
    pub fn byte(&self, address: u64) -> u8
        requires canonical { IsTrue (is_canonical address) }
        requires there { IsSome (kind_at (paged_view self.now).regions address) }
        ensures { reached (paged_view self.now).words (paged_view self.now).root address ≡ Some result }
    {
        let place = VirtAddr::new(address - address % 8);
        let word = load_word(&self.frames, self.root, place);
        word.to_le_bytes()[(address % 8) as usize]
    }

    /// Unmaps `pages` pages from the address `start` on and takes them out of the regions, which have all of them and
    /// of which none reaches over their end. If they begin in the middle of a large page, the first frame of them
    /// becomes the table of what is left of it. It takes no memory, and no free frame.
    pub fn cut(&mut self, start: u64, pages: u64)
        requires range { IsPageRange start pages }
        requires held { AreHeld start (start + 4096 * pages) (paged_view self.old).regions }
        requires ends { IsRegionBoundary (start + 4096 * pages) (paged_view self.old).regions }
        ensures { AreGone (paged_view self.old) (paged_view self.new) start pages }
    {
        // The tree says here how its regions lie.
        let _ = self.regions.count();
        self.regions.cut(start / Size4KiB::SIZE, pages);
        let free = self.pool.free_count();
        unmap_pages(
            &mut self.frames,
            &mut self.pool,
            self.root,
            Page::containing_address(VirtAddr::new(start)),
            pages,
        );
        self.tables += free + pages - self.pool.free_count();
        self.met_slots.forget_pages(self.root);
    }

    /// The word at a multiple of 8 in a page that is mapped, by a walk.
    pub fn word(&self, at: u64) -> u64
        requires word { IsMappedWord (paged_view self.now) at }
        ensures { result ≡ word_reached (paged_view self.now) at }
    {
        let page = Page::containing_address(VirtAddr::new(at));
        let frame = self.met_slots.frame(&self.frames, self.root, page);
        self.frames.word(frame, word_index(at))
    }

    /// Puts a word at a multiple of 8 in a page that is mapped, by a walk, and changes nothing else.
    pub fn set_word(&mut self, at: u64, value: u64)
        requires word { IsMappedWord (paged_view self.old) at }
        ensures others { paged_view self.new ≡ record (paged_view self.old) { words = (paged_view self.new).words } }
        ensures kept { KeepsTables (paged_view self.old).words (paged_view self.new).words (paged_view self.old).root }
        ensures set { IfSome (walk_of (paged_view self.old).words (paged_view self.old).root (at / 4096)) (λ place. (paged_view self.new).words ≡ set (paged_view self.old).words (512 * place.frame + at % 4096 / 8) value) }
        ensures put { IsWordPut (paged_view self.old).words (paged_view self.new).words (paged_view self.old).root at value }
    {
        let page = Page::containing_address(VirtAddr::new(at));
        let frame = self.met_slots.frame_kept(&self.frames, self.root, page);
        self.frames.set_word(frame, word_index(at), value);
    }

    /// Reads words from a multiple of 8 on in a page that is mapped, by one walk. The page has that many words from
    /// there on.
    pub fn words(&self, at: u64, words: &mut [u64])
        requires word { IsMappedWord (paged_view self.now) at }
        requires fits { at % 4096 / 8 + length words.old ≤ 512 }
        ensures read { (k : ℕ) → k < length words.new → slice_index words.new k ≡ word_reached (paged_view self.now) (at + 8 * k) }
        ensures length { length words.new ≡ length words.old }
    {
        let page = Page::containing_address(VirtAddr::new(at));
        let frame = self.met_slots.frame(&self.frames, self.root, page);
        self.frames.read_words(frame, word_index(at), words);
    }

    /// Puts words from a multiple of 8 on in a page that is mapped, by one walk, and changes nothing else. The page has
    /// that many words from there on.
    pub fn set_words(&mut self, at: u64, words: &[u64])
        requires word { IsMappedWord (paged_view self.old) at }
        requires fits { at % 4096 / 8 + length words.now ≤ 512 }
        ensures others { paged_view self.new ≡ record (paged_view self.old) { words = (paged_view self.new).words } }
        ensures kept { KeepsTables (paged_view self.old).words (paged_view self.new).words (paged_view self.old).root }
        ensures set { IfSome (walk_of (paged_view self.old).words (paged_view self.old).root (at / 4096)) (λ place. AreWordsWritten (paged_view self.old).words (paged_view self.new).words place.frame (at % 4096 / 8) words.now) }
        ensures bytes { (free : List Bool) → IsTree (paged_view self.old).words (paged_view self.old).root free → (k : ℕ) → k < 8 * length words.now →
            reached (paged_view self.new).words (paged_view self.old).root (at + k) ≡ Some (byte_of (slice_index words.now (k / 8)) (k % 8)) }
        ensures other_bytes { (free : List Bool) → IsTree (paged_view self.old).words (paged_view self.old).root free → (other : ℕ) → IsTrue (is_canonical other) → (other < at) ⊎ (at + 8 * length words.now ≤ other) →
            reached (paged_view self.new).words (paged_view self.old).root other ≡ reached (paged_view self.old).words (paged_view self.old).root other }
    {
        let page = Page::containing_address(VirtAddr::new(at));
        let frame = self.met_slots.meet(&self.frames, self.root, page);
        self.frames.write_words(frame, word_index(at), words);
    }
}
