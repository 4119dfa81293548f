// Slabs: blocks of a heap, each with places for 64 objects.
ghost use Rattle.std.specs.Prelude.{◌≡◌, ◌+◌, ◌*◌, ◌<◌, ◌≤◌, IfOk, IfErr, length, vec_len, vec_capacity};
ghost use Rattle.dlmalloc_chunks.specs.Request.{limit, padded};
ghost use Rattle.dlmalloc.specs.AfterFree.{IsFreed};
ghost use Rattle.dlmalloc.specs.Binned.{IsBinned};
ghost use Rattle.dlmalloc.specs.Blocks.{ArePlaced};
ghost use Rattle.dlmalloc.specs.Grown.{IsAsItWas};
ghost use Rattle.dlmalloc.specs.Heap.{state_of, IsGranularity};
ghost use Rattle.dlmalloc.specs.Served.{IsDenied, refused_events};
ghost use Rattle.sound_heap.specs.Heap.{HasBlock, AreInBlock, StaysInState};
ghost use Rattle.object_pool.specs.Bytes.{AreGranted, IsWritten};
ghost use Rattle.object_pool.specs.Emptied.{IsEmptied};
ghost use Rattle.object_pool.specs.Pool.{object_bytes_at, slot_address, IsObjectPut, IsSlabAdded, IsSlotThere, AreSlabsLaidOut, KeepsAll};

use crate::bytes::{read_bytes, write_bytes};
use dlmalloc::MallocError;
use heap_memory::{Allocator, GrantFault, Links, Memory};
use sound_heap::Heap;

/// How many slots stand in a slab.
pub(crate) const SLOTS: u64 = 64;

/// The alignment of a slab, in bytes.
const ALIGNMENT: u64 = 16;

/// Slabs of a heap, for objects of a size.
#[derive(Drop)]
pub(crate) struct Slabs<A: Allocator> {
    pub(crate) heap: Heap<A>,
    pub(crate) size: u64,
    /// Where the slabs begin.
    pub(crate) places: Vec<u64>,
}

/// A slab is never too large for a heap (own).
fn law_slabs_small(granularity: u64, size: u64)
    requires granularity { IsGranularity granularity }
    requires small { size ≤ 262144 }
    ensures { size < limit granularity }
{}

/// Puts bytes at an address of a block. The heap stays in its state, and no other byte of a region changes.
fn put_bytes<A: Allocator + Memory>(heap: &mut Heap<A>, address: u64, bytes: &[u8])
    requires inside { AreInBlock (state_of A.word heap.old) address (length bytes.now) }
    ensures written { IsWritten (A.regions heap.old.system) (A.word heap.old.system) address bytes.now (length bytes.now) (A.word heap.new.system) }
    ensures stays { StaysInState A.regions A.word A.follows heap.old heap.new }
{
    heap.heap.law_blocks_placed();
    heap.heap.law_rests_outside();
    heap.heap.law_order_rests_outside();
    write_bytes(heap.heap.allocator_mut(), address, bytes);
}

/// Gives a slab back. The blocks before are placed.
fn free_slab<A: Allocator>(heap: &mut Heap<A>, address: u64)
    requires block { HasBlock (state_of A.word heap.old) address }
    ensures freed { IsFreed A.regions A.word A.follows (A.frees heap.old.system) (A.parts heap.old.system) (A.unit heap.old.system) heap.old address heap.new }
    ensures linked { IsBinned A.regions A.word heap.new }
    ensures placed { ArePlaced (A.regions heap.old.system) (state_of A.word heap.old) }
{
    heap.law_blocks_placed();
    heap.free(address);
    heap.law_intact();
}

impl<A: Allocator + Memory> Slabs<A> {
    /// How many slabs there are.
    pub(crate) fn len(&self) -> u64
        ensures { result ≡ length self.now.places.items }
    {
        self.places.len() as u64
    }

    /// The place of a slot. It is granted, with the bytes of an object.
    pub(crate) fn place(&self, index: u32) -> u64
        requires { IsSlotThere A.regions A.word self.now.heap self.now.size self.now.places.items index }
        ensures place { result ≡ slot_address self.now.places.items self.now.size index }
        ensures granted { AreGranted (A.regions self.now.heap.system) result self.now.size }
    {
        self.heap.law_blocks_placed();
        let slot = index as u64;
        self.places[(slot / SLOTS) as usize] + self.size * (slot % SLOTS)
    }

    /// Reads the bytes at the place of a slot.
    pub(crate) fn read(&self, index: u32, bytes: &mut [u8])
        requires slot { IsSlotThere A.regions A.word self.now.heap self.now.size self.now.places.items index }
        requires many { length bytes.old ≡ self.now.size }
        ensures { bytes.new ≡ object_bytes_at A.word self.now.heap self.now.places.items self.now.size index }
    {
        let place = self.place(index);
        read_bytes(self.heap.system(), place, bytes);
    }

    /// Puts bytes at the place of a slot.
    pub(crate) fn write(&mut self, index: u32, bytes: &[u8])
        requires slot { IsSlotThere A.regions A.word self.old.heap self.old.size self.old.places.items index }
        requires many { length bytes.now ≡ self.old.size }
        ensures laid { AreSlabsLaidOut A.regions A.word self.new.heap self.new.size self.new.places.items }
        ensures size { self.new.size ≡ self.old.size }
        ensures places { self.new.places ≡ self.old.places }
        ensures put { IsObjectPut A.regions A.word A.follows self.old.heap self.old.places.items self.old.size index bytes.now self.new.heap }
    {
        let place = self.place(index);
        self.heap.law_blocks_placed();
        self.heap.law_blocks_apart();
        put_bytes(&mut self.heap, place, bytes);
    }

    /// Takes one more slab of the heap. It has a place in the list.
    pub(crate) fn add(&mut self) -> Result<(), GrantFault>
        requires laid { AreSlabsLaidOut A.regions A.word self.old.heap self.old.size self.old.places.items }
        requires room { vec_len self.old.places < vec_capacity self.old.places }
        ensures laid { AreSlabsLaidOut A.regions A.word self.new.heap self.new.size self.new.places.items }
        ensures size { self.new.size ≡ self.old.size }
        ensures kept { KeepsAll A.word self.old.heap self.new.heap }
        ensures added { IfOk result (λ done. IsSlabAdded A.regions A.word A.follows self.old.heap self.old.size self.old.places.items self.new.heap self.new.places.items) }
        ensures places { IfErr result (λ fault. self.new.places ≡ self.old.places) }
        ensures err { IfErr result (λ fault. IsAsItWas A.regions A.word A.follows A.refuses (refused_events (state_of A.word self.old.heap) (64 * self.old.size) (MallocError.System fault)) self.old.heap self.new.heap) }
        ensures denied { IfErr result (λ fault. IsDenied A.denies self.old.heap.system (state_of A.word self.old.heap) (padded (64 * self.old.size)) fault) }
    {
        self.heap.law_intact();
        law_slabs_small(self.heap.granularity(), SLOTS * self.size);
        self.heap.law_blocks_placed();
        match self.heap.hand_out(SLOTS * self.size, ALIGNMENT, false) {
            Ok(address) => {
                self.places.push_reserved(address);
                Ok(())
            }
            Err(MallocError::System(fault)) => Err(fault),
            Err(MallocError::TooLarge) => unreachable!(),
        }
    }

    /// Gives every slab back, the last one first, and answers the heap.
    pub(crate) fn free_all(self) -> Heap<A>
        requires laid { AreSlabsLaidOut A.regions A.word self.heap self.size self.places.items }
        ensures { IsEmptied A.regions A.word A.follows (A.frees self.heap.system) (A.parts self.heap.system) (A.unit self.heap.system) self.heap self.places.items result }
    {
        let mut heap = self.heap;
        heap.law_intact();
        let mut places = self.places;
        while let Some(address) = places.pop() {
            free_slab(&mut heap, address);
        }
        heap
    }
}
