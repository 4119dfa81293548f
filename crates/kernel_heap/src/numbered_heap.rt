// A heap over a paged system, and the blocks that were handed out of it, by number.
ghost use Rattle.std.specs.Prelude.{◌≡◌, ◌<◌, ◌≤◌, ◌++◌, ◌∷◌, Some, None, IfOk, IfErr, OnErr, [], vec_capacity, length};
ghost use Rattle.dlmalloc.specs.Blocks.{BlocksAreApart};
ghost use Rattle.kernel_heap.specs.Heap.{heap_state};
ghost use Rattle.kernel_heap.specs.LaidOut.{IsLive};
ghost use Rattle.kernel_heap.specs.Refusing.{refusal_of, IsRefusalOf};
ghost use Rattle.kernel_heap.specs.Blocks.{align_kept, IsLiveResized, IsLiveRefused};

use crate::beside;
use crate::numbered_blocks::NumberedBlocks;
use dlmalloc::MallocError;
use heap_memory::GrantFault;
use machine_model::{Answer, Call, Live, Refusal, Region, RegionList, Reply, SlotList};
use paged_systems::PagedSystem;
use sound_heap::Heap;
use std::alloc::{AllocError, Global};

/// The alignment that every block has, in bytes.
const LEAST_ALIGNMENT: u64 = 16;

/// The answer that refuses a call.
pub(crate) fn refused(refusal: Refusal) -> Answer
    ensures { result ≡ record { reply = Reply.Refused refusal; regions = None; large = None } }
{
    Answer {
        reply: Reply::Refused(refusal),
        regions: None,
        large: None,
    }
}

/// The alignment that a live block has with another size: its own, or the least.
fn alignment_kept(live: Live, keeps: bool) -> u64
    ensures { result ≡ align_kept keeps live }
{
    if keeps { live.align } else { LEAST_ALIGNMENT }
}

/// Gives a live block another size, at its own alignment or at the least.
fn resize_live(
    heap: &mut Heap<PagedSystem>,
    live: Live,
    size: u64,
    keeps_alignment: bool,
) -> Result<u64, MallocError>
    requires block { IsLive (heap_state heap.old) live }
    ensures ok { IfOk result (λ address. IsLiveResized keeps_alignment heap.old live size address heap.new) }
    ensures err { IfErr result (λ error. IsLiveRefused keeps_alignment heap.old live size error heap.new) }
    ensures apart { BlocksAreApart (heap_state heap.new) }
{
    if keeps_alignment {
        heap.realloc_aligned(live.address, live.size, live.align, size)
    } else {
        heap.realloc(live.address, size)
    }
}

/// The answer where the heap refuses. Want of memory leaves none.
fn refused_by(error: MallocError) -> Result<Answer, AllocError>
    ensures ok { IfOk result (λ answer. IsRefusalOf error answer) }
    ensures err { OnErr result (refusal_of error ≡ None) }
{
    match error {
        MallocError::TooLarge => Ok(refused(Refusal::TooLarge)),
        MallocError::System(GrantFault::NoSpace) => Ok(refused(Refusal::NoSpace)),
        MallocError::System(GrantFault::NoFrames) => Ok(refused(Refusal::NoFrames)),
        MallocError::System(GrantFault::OutOfMemory) => Err(AllocError),
    }
}

/// How often a region joined the system, modulo 2^64, and its frames that hold no page. A call of the heap brings at most
/// one region, so the heap's regions are as they were where both are.
#[derive(Clone, Copy)]
pub(crate) struct Marks {
    joins: u64,
    /// The free frames and the tables: a cut through a large page may free none, where the first frame becomes a table.
    pageless: u64,
}

/// A heap over a paged system, and its blocks by number.
#[derive(Drop)]
pub(crate) struct NumberedHeap {
    pub(crate) alloc: Global,
    pub(crate) heap: Heap<PagedSystem>,
    pub(crate) blocks: NumberedBlocks,
    /// The list of the next answer that tells of regions. Its places are reserved before the heap is asked.
    pub(crate) list: Vec<Region>,
}

impl NumberedHeap {
    ghost use Rattle.paged_systems.specs.Words.{heap_regions};
    ghost use Rattle.paged_systems.specs.System.{paged};
    ghost use Rattle.kernel_heap.specs.Machine.{system_of};
    ghost use Rattle.kernel_heap.specs.Numbered.{live_at};
    ghost use Rattle.kernel_heap.specs.LaidOut.{IsNumberedSound};
    ghost use Rattle.kernel_heap.specs.Blocks.{request, resizing};
    ghost use Rattle.kernel_heap.specs.Moves.{marks_of, AreRegionsTold, HasToldSlots};
    ghost use Rattle.kernel_heap.specs.Served.{HasServedCall, IsServedOrNot};

    /// Hands out a block of `size` bytes at a multiple of `align`, of value 0 where that is asked for. The answer and the
    /// block have their places before anything changes.
    #[inline(always)]
    pub(crate) fn hand_out(
        &mut self,
        size: u64,
        align: u64,
        cleared: bool,
    ) -> Result<Answer, AllocError>
        requires sound { IsNumberedSound self.old }
        ensures sound { IsNumberedSound self.new }
        ensures served { IsServedOrNot self.old (request cleared size align) result self.new }
    {
        if !align.is_power_of_two() {
            return Ok(refused(Refusal::BadAlign));
        }
        let count = self.heap.system().region_count();
        self.blocks.reserve()?;
        self.list.clear();
        self.list.reserve(count + 1)?;
        let before = self.marks();
        self.heap.law_intact();
        self.heap.law_blocks_placed();
        match self.heap.hand_out(size, align, cleared) {
            Ok(address) => {
                self.heap.law_blocks_placed();
                Ok(Answer {
                    reply: self.add_block(address, size, align),
                    regions: self.changed_regions(before),
                    large: self.new_slots(before),
                })
            }
            Err(error) => refused_by(error),
        }
    }

    /// Gives a block another size, at its own alignment or at the least. The answer has its places before anything
    /// changes.
    #[inline(always)]
    pub(crate) fn resize(
        &mut self,
        number: u64,
        size: u64,
        keeps_alignment: bool,
    ) -> Result<Answer, AllocError>
        requires sound { IsNumberedSound self.old }
        ensures sound { IsNumberedSound self.new }
        ensures served { IsServedOrNot self.old (resizing keeps_alignment number size) result self.new }
    {
        let Some(live) = self.live(number) else {
            return Ok(refused(Refusal::UnknownBlock));
        };
        let align = alignment_kept(live, keeps_alignment);
        let count = self.heap.system().region_count();
        self.list.clear();
        self.list.reserve(count + 1)?;
        let before = self.marks();
        self.heap.law_intact();
        self.heap.law_blocks_placed();
        match resize_live(&mut self.heap, live, size, keeps_alignment) {
            Ok(address) => {
                self.heap.law_blocks_placed();
                self.blocks.change(
                    number,
                    Live {
                        address,
                        size,
                        align,
                    },
                );
                Ok(Answer {
                    reply: Reply::Block { number, address },
                    regions: self.changed_regions(before),
                    large: self.new_slots(before),
                })
            }
            Err(error) => refused_by(error),
        }
    }

    /// The live block of a number, if there is one.
    pub(crate) fn live(&self, number: u64) -> Option<Live>
        ensures { result ≡ live_at self.now.blocks.items number }
    {
        self.blocks.get(number)
    }

    /// Numbers a block. It has its place among the blocks.
    fn add_block(&mut self, address: u64, size: u64, align: u64) -> Reply
        requires place { length self.old.blocks.items < self.old.blocks.capacity }
        ensures reply { result ≡ Reply.Block (length self.old.blocks.items) address }
        ensures blocks { self.new.blocks.items ≡ self.old.blocks.items ++ Some (record { address = address; size = size; align = align }) ∷ [] }
        ensures heap { self.new.heap ≡ self.old.heap }
        ensures list { self.new.list ≡ self.old.list }
    {
        let number = self.blocks.push(Live {
            address,
            size,
            align,
        });
        Reply::Block { number, address }
    }

    /// What tells whether regions come or go behind this moment.
    pub(crate) fn marks(&self) -> Marks
        ensures { result ≡ marks_of (paged (system_of self.now)) }
    {
        let system = self.heap.system();
        Marks {
            joins: system.joins(),
            pageless: system.free_frames() + system.tables(),
        }
    }

    /// The regions of the heap, where some came or went since a moment. The list has its places.
    pub(crate) fn changed_regions(&mut self, before: Marks) -> Option<RegionList>
        requires empty { self.old.list.items ≡ [] }
        requires places { length (paged (system_of self.old)).regions ≤ vec_capacity self.old.list }
        ensures told { AreRegionsTold (paged (system_of self.old)) before result }
        ensures blocks { self.new.blocks ≡ self.old.blocks }
        ensures heap { self.new.heap ≡ self.old.heap }
    {
        let now = self.marks();
        if now.joins == before.joins && now.pageless == before.pageless {
            return None;
        }
        Some(self.list_regions())
    }

    /// The slots that the region which joined since a moment has in large pages, if one joined and has any. They are
    /// told once.
    pub(crate) fn new_slots(&mut self, before: Marks) -> Option<SlotList>
        requires sound { IsNumberedSound self.old }
        ensures sound { IsNumberedSound self.new }
        ensures told { HasToldSlots self.old before result self.new }
    {
        if self.marks().joins == before.joins {
            return None;
        }
        beside::take_slots(&mut self.heap)
    }

    /// The regions of the heap, in the list that has places for them.
    fn list_regions(&mut self) -> RegionList
        requires empty { self.old.list.items ≡ [] }
        requires places { length (paged (system_of self.old)).regions ≤ vec_capacity self.old.list }
        ensures list { result ≡ heap_regions (paged (system_of self.old)).regions }
        ensures blocks { self.new.blocks ≡ self.old.blocks }
        ensures heap { self.new.heap ≡ self.old.heap }
    {
        let list = std::mem::replace(&mut self.list, Vec::new(self.alloc));
        self.heap.system().list_of_heap(list)
    }

    /// Ends a block. The answer has its places before anything changes: regions may go back to the system by it.
    #[inline(always)]
    pub(crate) fn free(&mut self, number: u64) -> Result<Answer, AllocError>
        requires sound { IsNumberedSound self.old }
        ensures sound { IsNumberedSound self.new }
        ensures served { IsServedOrNot self.old (Call.Free number) result self.new }
    {
        let Some(live) = self.live(number) else {
            return Ok(refused(Refusal::UnknownBlock));
        };
        let count = self.heap.system().region_count();
        self.list.clear();
        self.list.reserve(count)?;
        let before = self.marks();
        self.heap.law_blocks_placed();
        self.heap.free(live.address);
        self.heap.law_blocks_placed();
        self.blocks.end(number);
        Ok(Answer {
            reply: Reply::Done,
            regions: self.changed_regions(before),
            large: None,
        })
    }

    /// Lists the extents of the heap.
    pub(crate) fn extents(&self) -> Result<Answer, AllocError>
        requires sound { IsNumberedSound self.now }
        ensures ok { IfOk result (λ answer. HasServedCall self.now Call.Extents answer self.now) }
    {
        self.heap.law_intact();
        Ok(Answer {
            reply: Reply::Extents(self.heap.extents(self.alloc)?),
            regions: None,
            large: None,
        })
    }
}
