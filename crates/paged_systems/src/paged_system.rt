// The paged system: regions of the heap in a window, and regions of the user anywhere.
ghost use Rattle.std.specs.Prelude.{◌≡◌, ℕ, ◌+◌, ◌*◌, ◌/◌, ◌^◌, ◌<◌, ◌≤◌, ◌%◌, IsTrue, IsSome, Some, option_map, IfOk, IfErr, OnErr, length, vec_capacity, []};
ghost use Rattle.paging_core.specs.Address.{is_canonical};
ghost use Rattle.paging_core.specs.Memory.{frame_count};
ghost use Rattle.paging_core.specs.Pool.{free_count};
ghost use Rattle.paging_core.specs.Walk.{walk_of, reached};
ghost use Rattle.mapped_regions.specs.Regions.{kind_at, AreLaid};
ghost use Rattle.mapped_regions.specs.FrameUse.{HasOneUse};
ghost use Rattle.machine_model.specs.Machine.{rights_of};
ghost use Rattle.machine_model.specs.Room.{heap_region as granted_region, heap_rights as granted_rights};
ghost use Rattle.paged_systems.specs.Window.{IsHeapWindow};
ghost use Rattle.machine_model.specs.Request.{pages_in};
ghost use Rattle.paged_systems.specs.Layout.{IsPagedKept, IsPagedKept-prop};
ghost use Rattle.mapped_regions.specs.Shown.{paged_view};

use heap_memory::{Grant, GrantFault};
use machine_model::{Region, RegionList, Rights};
use mapped_regions::MappedRegions;
use paging_core::{Frames, PageSize, PhysFrame, Size4KiB};
use std::alloc::{AllocError, Global};

/// The rights of the heap: its pages may be written, and neither used by the user nor fetched from.
fn heap_rights() -> Rights
    ensures { result ≡ granted_rights }
{
    Rights {
        write: true,
        user: false,
        fetch: false,
    }
}

/// How many pages hold this number of bytes.
#[tactic(auto, unfolding(machine_model::specs::Request::pages_in))]
pub(crate) fn pages_in(size: u64) -> u64
    ensures { result ≡ pages_in size }
{
    size.div_ceil(Size4KiB::SIZE)
}

/// A region of the heap.
fn heap_region(start: u64, pages: u64) -> Region
    ensures { result ≡ granted_region start pages }
{
    Region {
        start,
        pages,
        heap: true,
        rights: heap_rights(),
    }
}

/// Mapped regions: of the heap in a window, and of the user anywhere.
#[derive(Drop)]
pub struct PagedSystem {
    pub(crate) regions: MappedRegions,
    ghost kept: { IsPagedKept (paged_view regions) } by { IsPagedKept-prop (paged_view regions) },
}

impl PagedSystem {
    ghost use Rattle.paged_systems.specs.Layout.{IsNew, CanGrant, LacksPlaceOrFrames, MayDeny, IsGrantedFor};
    ghost use Rattle.paged_systems.specs.System.{paged};
    ghost use Rattle.paged_systems.specs.Words.{heap_regions, grants_of};
    ghost use Rattle.mapped_regions.specs.Mapped.{word_reached};
    ghost use Rattle.heap_memory.specs.Regions.{IsWordOf};
    ghost use Rattle.heap_memory.specs.Runs.{IsRun, without_run};
    ghost use Rattle.paged_systems.specs.Released.{IsReleasedFor};
    ghost use Rattle.heap_memory.specs.Words.{IsStored};
    ghost use Rattle.machine_model.specs.Machine.{OnlyHeapBytesChange};
    ghost use Rattle.paged_systems.specs.Written.{AreInPage, AreLoaded, ArePut};

    /// A system with a window of `pages` pages from the address `base` on, and with `frames` frames, of which one
    /// holds the root table. Nothing is mapped.
    pub fn new(alloc: Global, base: u64, pages: u64, frames: u32) -> Result<Self, AllocError>
        requires window { IsHeapWindow base pages }
        requires frames { 0 < frames }
        ensures { IfOk result (λ system. IsNew (paged system) base pages frames) }
    {
        let regions = MappedRegions::new(alloc, base, pages, frames)?;
        Ok(PagedSystem { regions })
    }

    /// The regions, by ascending address.
    pub fn regions(&self, alloc: Global) -> Result<RegionList, AllocError>
        ensures { IfOk result (λ list. list ≡ (paged self.now).regions) }
    {
        self.regions.regions(alloc)
    }

    /// Each frame of the physical memory serves for exactly one thing: it is free, or it holds one table that walks from
    /// the root meet, or one page of one region. A large page is 512 pages, each at a frame of its own. No two regions
    /// have an address in common. It does nothing: its clauses are what a caller has by calling it.
    pub fn law_frames_have_one_use(&self)
        ensures frames { (frame : ℕ) → frame < frame_count (paged self.now).words → HasOneUse (paged self.now) frame }
        ensures regions { AreLaid 0 (paged self.now).regions (2 ^ 64) }
    {
        self.regions.law_frames_have_one_use();
    }

    /// The physical memory.
    pub fn frames(&self) -> &Frames
        ensures { result.now ≡ (paged self.now).words }
    {
        self.regions.frames()
    }

    /// The frame of the root table.
    pub fn root(&self) -> PhysFrame
        ensures { result ≡ (paged self.now).root }
    {
        self.regions.root()
    }

    /// The number of free frames.
    pub fn free_frames(&self) -> u64
        ensures { result ≡ free_count (paged self.now).free }
    {
        self.regions.free_frames()
    }

    /// The number of tables, with the root.
    pub fn tables(&self) -> u64
        ensures { result ≡ (paged self.now).tables }
    {
        self.regions.tables()
    }

    /// The number of regions.
    pub fn region_count(&self) -> usize
        ensures count { result ≡ length (paged self.now).regions }
        ensures few { result ≤ 2 ^ 52 }
    {
        self.regions.count()
    }

    /// How often a region joined, modulo 2^64.
    pub fn joins(&self) -> u64
        ensures { result ≡ (paged self.now).joins }
    {
        self.regions.joins()
    }

    /// Puts the regions of the heap into a list that has places for all regions.
    pub fn list_of_heap(&self, list: Vec<Region>) -> RegionList
        requires empty { list.items ≡ [] }
        requires places { length (paged self.now).regions ≤ vec_capacity list }
        ensures { result ≡ heap_regions (paged self.now).regions }
    {
        self.regions.list_of_heap(list)
    }

    /// The address where a grant of this number of pages would begin now. Nothing is granted. `NoSpace` if the window has no
    /// place for them, and `NoFrames` if it has, but too few frames are free for them and the tables that they lack.
    pub fn plan(&self, pages: u64) -> Result<u64, GrantFault>
        requires some { 0 < pages }
        ensures ok { IfOk result (λ place. CanGrant (paged self.now) pages place) }
        ensures lacks { IfErr result (λ fault. LacksPlaceOrFrames (paged self.now) pages fault) }
    {
        let Some(place) = self.regions.lowest_place(pages) else {
            return Err(GrantFault::NoSpace);
        };
        if !self.regions.has_frames(place / Size4KiB::SIZE, pages) {
            return Err(GrantFault::NoFrames);
        }
        Ok(place)
    }

    /// Grants the pages that hold this number of bytes. An `Err` changes nothing.
    pub(crate) fn grant_bytes(&mut self, size: u64) -> Result<Grant, GrantFault>
        requires some { 0 < size }
        ensures ok { IfOk result (λ grant. IsGrantedFor (paged self.old) (paged self.new) size grant) }
        ensures err { OnErr result (paged self.new ≡ paged self.old) }
        ensures lacks { IfErr result (λ fault. MayDeny (paged self.old) size fault) }
    {
        let pages = pages_in(size);
        let place = self.plan(pages)?;
        match self.regions.join(heap_region(place, pages)) {
            Ok(()) => Ok(Grant {
                base: place,
                size: pages * Size4KiB::SIZE,
                flags: 0,
            }),
            Err(_) => Err(GrantFault::OutOfMemory),
        }
    }

    /// What may be done at an address: the rights of its page, if it is mapped, by a walk.
    pub fn rights_at(&self, address: u64) -> Option<Rights>
        requires { IsTrue (is_canonical address) }
        ensures region { result ≡ option_map (λ kind. kind.1) (kind_at (paged self.now).regions address) }
        ensures walk { result ≡ option_map rights_of (walk_of (paged self.now).words (paged self.now).root (address / 4096)) }
    {
        self.regions.rights_at(address)
    }

    /// The byte at an address that a region has, by a walk.
    pub fn byte(&self, address: u64) -> u8
        requires canonical { IsTrue (is_canonical address) }
        requires there { IsSome (kind_at (paged self.now).regions address) }
        ensures { reached (paged self.now).words (paged self.now).root address ≡ Some result }
    {
        self.regions.byte(address)
    }

    /// Gives back what is after the first `left` bytes of a run, in whole pages: their frames are free again, and the
    /// tables stay. It takes no memory.
    pub(crate) fn release(&mut self, at: u64, size: u64, left: u64)
        requires run { IsRun (grants_of (paged self.old)) at (at + size) }
        requires within { left ≤ size }
        requires in_pages { left % 4096 ≡ 0 }
        ensures released { IsReleasedFor (paged self.old) (paged self.new) at size left }
        ensures regions { grants_of (paged self.new) ≡ without_run (at + left) (at + size) (grants_of (paged self.old)) }
        ensures words { (k : ℕ) → IsWordOf (grants_of (paged self.new)) k → word_reached (paged self.new) k ≡ word_reached (paged self.old) k }
    {
        if left == size {
            return;
        }
        self.regions.cut(at + left, (size - left) / Size4KiB::SIZE);
    }

    /// The word at a multiple of 8 in the regions, by a walk.
    pub(crate) fn word(&self, at: u64) -> u64
        requires { IsWordOf (grants_of (paged self.now)) at }
        ensures { result ≡ word_reached (paged self.now) at }
    {
        self.regions.word(at)
    }

    /// Puts a word at a multiple of 8 in the regions, by a walk, and changes nothing else.
    pub(crate) fn set_word(&mut self, at: u64, value: u64)
        requires { IsWordOf (grants_of (paged self.old)) at }
        ensures still { OnlyHeapBytesChange (paged self.old) (paged self.new) }
        ensures stored { IsStored (grants_of (paged self.old)) (word_reached (paged self.old)) at value (word_reached (paged self.new)) }
    {
        self.regions.set_word(at, value);
    }

    /// Reads words of one page of the regions, by one walk.
    pub(crate) fn words(&self, at: u64, words: &mut [u64])
        requires { AreInPage (paged self.now) at (length words.old) }
        ensures loaded { AreLoaded (word_reached (paged self.now)) at words.new }
        ensures length { length words.new ≡ length words.old }
    {
        self.regions.words(at, words);
    }

    /// Puts words into one page of the regions, by one walk, and changes nothing else.
    pub(crate) fn set_words(&mut self, at: u64, words: &[u64])
        requires { AreInPage (paged self.old) at (length words.now) }
        ensures still { OnlyHeapBytesChange (paged self.old) (paged self.new) }
        ensures put { ArePut (grants_of (paged self.old)) (word_reached (paged self.old)) at words.now (word_reached (paged self.new)) }
    {
        self.regions.set_words(at, words);
    }
}
