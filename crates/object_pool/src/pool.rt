//! The pool.
ghost use Rattle.std.specs.Prelude.{◌≡◌, ◌+◌, ◌-◌, ◌*◌, ◌^◌, ◌<◌, ◌≤◌, true, false, [], IfOk, IfErr, OnErr, OnOk, Some, None, Err, IsSome, IfSome, IsTrue, ◌↔◌, length, vec_len, vec_capacity};
ghost use Rattle.object_pool.specs.Bytes.{AreGranted, bytes_at};
ghost use Rattle.object_pool.specs.Places.{HasPlacesFor, KeepsSlots};
ghost use Rattle.object_pool.specs.Lists.{Lists, empty, object_of, object_count, slab_count, IsNewKey, keys_of, inserted, with_new_bytes, without_object, HasAllSlots};

use crate::Bytes;
use crate::key::Key;
use crate::keys::Keys;
use crate::pool_fault::PoolFault;
use crate::slabs::{SLOTS, Slabs};
use crate::slots::Slots;
use heap_memory::{Allocator, Links, Memory};
use sound_heap::Heap;
use std::alloc::{AllocError, Global};
use std::marker::Model;

/// The most slots that a pool can have.
const MOST_SLOTS: u64 = 0x1_0000_0000 - SLOTS;

/// Reserves a place for a slab more, and for its slots. It changes no slab and no slot.
fn reserve(slabs: &mut Vec<u64>, slots: &mut Slots) -> Result<(), AllocError>
    ensures slabs { slabs.new.items ≡ slabs.old.items }
    ensures place { OnOk result (vec_len slabs.old < vec_capacity slabs.new) }
    ensures kept { KeepsSlots slots.old slots.new }
    ensures room { OnOk result (HasPlacesFor 64 slots.old slots.new) }
{
    slabs.reserve(1)?;
    slots.reserve(SLOTS)
}

/// Objects of one size, in slabs of a heap, behind keys that never name another object.
#[derive(Drop)]
pub struct Pool<A: Allocator + Memory> {
    alloc: Global,
    slabs: Slabs<A>,
    slots: Slots,
}

impl<A: Allocator + Memory> Model for Pool<A> {
    ghost use Rattle.object_pool.specs.Pooled.{Pooled};

    ghost Value = { Pooled A };

    ghost use Rattle.std.specs.Prelude.{vec_capacity};
    ghost use Rattle.object_pool.specs.Pool.{IsPool};

    ghost view = { λ pool. record { heap = pool.slabs.heap; size = pool.slabs.size; slabs = pool.slabs.places.items; slots = pool.slots.slots.items; freed = pool.slots.freed.items } };

    ghost invariant = { λ pool. IsPool A.regions A.word pool.slabs.heap pool.slabs.size pool.slabs.places.items pool.slots.slots.items (vec_capacity pool.slots.slots) (vec_capacity pool.slots.freed) };
}

impl<A: Allocator + Memory> Pool<A> {
    ghost use Rattle.object_pool.specs.Emptied.{IsEmptied};
    ghost use Rattle.sound_heap.specs.Heap.{StaysInState};
    ghost use Rattle.object_pool.specs.Pool.{ChangesSlabsAlone, HasFreeSlot, HasSlotsInSlabs, IsSlabAdded, AreSlabsLaidOut, IsPoolRefused, IsSlabRefused, IsUnchanged, Keeps, LacksFreeSlot, PlacesAreApart, StandsForLists, TakesSlabIfNeeded, slot_address};

    /// A pool without objects or slabs, for objects of `size` bytes, over a heap.
    pub fn new(alloc: Global, heap: Heap<A>, size: u64) -> Pool<A>
        requires some { 0 < size }
        requires small { size ≤ 4096 }
        ensures is { result ≡ record { heap = heap; size = size; slabs = []; slots = []; freed = [] } }
        ensures stands { StandsForLists A.word result empty }
    {
        Pool {
            alloc,
            slabs: Slabs {
                heap,
                size,
                places: Vec::new(alloc),
            },
            slots: Slots::new(alloc),
        }
    }

    /// Inserts an object, and answers its key, which no object had before. It uses the slot freed last, else the lowest that was never used, and takes a
    /// slab only if no slot is free. An `Err` changes nothing, unless the heap's
    /// system denied a region: what it denies next may be other.
    pub fn insert(&mut self, bytes: &[u8]) -> Result<Key, PoolFault>
        requires many { length bytes.now ≡ self.old.size }
        ensures key { (lists : Lists) → StandsForLists A.word self.old lists → IfOk result (λ key. IsNewKey lists key) }
        ensures after { (lists : Lists) → StandsForLists A.word self.old lists → IfOk result (λ key. StandsForLists A.word self.new (inserted bytes.now lists)) }
        ensures slab { (lists : Lists) → StandsForLists A.word self.old lists → IfOk result (λ key. TakesSlabIfNeeded A.regions A.word A.follows self.old lists self.new) }
        ensures refused { (lists : Lists) → StandsForLists A.word self.old lists → IfErr result (λ fault. IsPoolRefused A.word A.denies self.old lists fault) }
        ensures full { (lists : Lists) → StandsForLists A.word self.old lists → HasAllSlots lists → result ≡ Err PoolFault.Full }
        ensures err { IfErr result (λ fault. IsUnchanged A.regions A.word A.follows A.refuses self.old fault self.new) }
        ensures kept { Keeps A.word self.old self.new }
    {
        self.make_room()?;
        let key = self.slots.take();
        self.slabs.write(key.index, bytes);
        Ok(key)
    }

    /// Whether no slot is free.
    fn lacks_slot(&self) -> bool
        ensures slots { HasSlotsInSlabs A.regions A.word self.now }
        ensures answer { IsTrue result ↔ LacksFreeSlot self.now }
    {
        self.slots.none_freed() && self.slots.len() == SLOTS * self.slabs.len()
    }

    /// Takes a slab if no slot is free.
    fn make_room(&mut self) -> Result<(), PoolFault>
        ensures slots { HasSlotsInSlabs A.regions A.word self.old }
        ensures room { OnOk result (HasFreeSlot A.regions A.word A.follows self.old self.new) }
        ensures changed { ChangesSlabsAlone A.word self.old self.new }
        ensures lacks { OnErr result (LacksFreeSlot self.old) }
        ensures err { IfErr result (λ fault. IsSlabRefused A.regions A.word A.follows A.refuses A.denies self.old fault self.new) }
    {
        if !self.lacks_slot() {
            return Ok(());
        }
        self.add_slab()
    }

    /// Takes one more slab if no slot is free. Every place that its slots need is reserved before the heap is asked.
    fn add_slab(&mut self) -> Result<(), PoolFault>
        requires lacks { LacksFreeSlot self.old }
        ensures added { OnOk result (IsSlabAdded A.regions A.word A.follows self.old.heap self.old.size self.old.slabs self.new.heap self.new.slabs) }
        ensures few { OnOk result (length self.old.slots < 2 ^ 32 - 64) }
        ensures changed { ChangesSlabsAlone A.word self.old self.new }
        ensures err { IfErr result (λ fault. IsSlabRefused A.regions A.word A.follows A.refuses A.denies self.old fault self.new) }
    {
        if self.slots.len() == MOST_SLOTS {
            return Err(PoolFault::Full);
        }
        if reserve(&mut self.slabs.places, &mut self.slots).is_err() {
            return Err(PoolFault::OutOfMemory);
        }
        match self.slabs.add() {
            Ok(()) => Ok(()),
            Err(fault) => Err(PoolFault::Heap(fault)),
        }
    }

    /// A copy of the bytes of a key's object; `None` if the key has no object. It takes memory for the copy, and fails only for want of
    /// that: `read` takes none.
    pub fn get(&self, key: Key) -> Result<Option<Bytes>, AllocError>
        ensures ok { (lists : Lists) → StandsForLists A.word self.now lists → IfOk result (λ object. object ≡ object_of key lists.entries) }
        ensures err { (lists : Lists) → StandsForLists A.word self.now lists → OnErr result (IsSome (object_of key lists.entries)) }
    {
        if !self.slots.has(key) {
            return Ok(None);
        }
        let mut bytes = vec![in self.alloc; 0; self.slabs.size as usize]?;
        self.slabs.read(key.index, bytes.as_mut_slice());
        Ok(Some(Bytes::from_vec(bytes)))
    }

    /// Reads the bytes of a key's object into `bytes`. False if the key has no object; then `bytes` stay as they were. It takes no
    /// memory.
    pub fn read(&self, key: Key, bytes: &mut [u8]) -> bool
        requires many { length bytes.old ≡ self.now.size }
        ensures answer { (lists : Lists) → StandsForLists A.word self.now lists → IsTrue result ↔ IsSome (object_of key lists.entries) }
        ensures object { (lists : Lists) → StandsForLists A.word self.now lists → result ≡ true → object_of key lists.entries ≡ Some bytes.new }
        ensures same { result ≡ false → bytes.new ≡ bytes.old }
    {
        if !self.slots.has(key) {
            return false; // and `bytes` stay
        }
        self.slabs.read(key.index, bytes);
        true
    }

    /// The address of a key's object in the heap's memory; `None` if the key has no object. The object stays there until it is removed:
    /// its slab stays, and a slot never moves.
    pub fn at(&self, key: Key) -> Option<u64>
        ensures answer { (lists : Lists) → StandsForLists A.word self.now lists → IsSome result ↔ IsSome (object_of key lists.entries) }
        ensures place { IfSome result (λ address. address ≡ slot_address self.now.slabs self.now.size key.index) }
        ensures object { (lists : Lists) → StandsForLists A.word self.now lists → IfSome result (λ address. object_of key lists.entries ≡ Some (bytes_at (A.word self.now.heap.system) address self.now.size)) }
        ensures granted { IfSome result (λ address. AreGranted (A.regions self.now.heap.system) address self.now.size) }
    {
        if !self.slots.has(key) {
            return None;
        }
        Some(self.slabs.place(key.index))
    }

    /// Gives a key's object other bytes. False exactly if the key has no object; then nothing changes. It takes no memory.
    pub fn set(&mut self, key: Key, bytes: &[u8]) -> bool
        requires many { length bytes.now ≡ self.old.size }
        ensures answer { (lists : Lists) → StandsForLists A.word self.old lists → IsTrue result ↔ IsSome (object_of key lists.entries) }
        ensures after { (lists : Lists) → StandsForLists A.word self.old lists → result ≡ true → StandsForLists A.word self.new (with_new_bytes key bytes.now lists) }
        ensures same { result ≡ false → self.new ≡ self.old }
        ensures others { self.new ≡ record self.old { heap = self.new.heap } }
        ensures heap { StaysInState A.regions A.word A.follows self.old.heap self.new.heap }
        ensures kept { Keeps A.word self.old self.new }
    {
        if !self.slots.has(key) {
            return false; // and no byte changes
        }
        self.slabs.write(key.index, bytes);
        true
    }

    /// Removes a key's object. False exactly if the key has no object; then nothing changes. The slot is free, unless it was
    /// its last generation. It takes no memory.
    pub fn remove(&mut self, key: Key) -> bool
        ensures answer { (lists : Lists) → StandsForLists A.word self.old lists → IsTrue result ↔ IsSome (object_of key lists.entries) }
        ensures after { (lists : Lists) → StandsForLists A.word self.old lists → result ≡ true → StandsForLists A.word self.new (without_object key lists) }
        ensures same { result ≡ false → self.new ≡ self.old }
        ensures heap { self.new.heap ≡ self.old.heap }
        ensures slabs { self.new.slabs ≡ self.old.slabs }
        ensures size { self.new.size ≡ self.old.size }
    {
        if !self.slots.has(key) {
            return false;
        }
        self.slots.release(key);
        true
    }

    /// The keys of the objects, by index. They take no memory, and a step costs what the slots that it passes do.
    pub fn keys(&self) -> Keys<'_>
        ensures { (lists : Lists) → StandsForLists A.word self.now lists → result ≡ keys_of lists.entries }
    {
        self.slots.keys()
    }

    /// The number of objects.
    pub fn len(&self) -> u64
        ensures { (lists : Lists) → StandsForLists A.word self.now lists → result ≡ object_count lists.entries }
    {
        self.slots.used()
    }

    /// The number of slabs.
    pub fn slabs(&self) -> u64
        ensures number { result ≡ length self.now.slabs }
        ensures needed { (lists : Lists) → StandsForLists A.word self.now lists → result ≡ slab_count lists.entries }
    {
        self.slabs.len()
    }

    /// The heap. Each slab is a block of it.
    pub fn heap(&self) -> &Heap<A>
        ensures heap { result.now ≡ self.now.heap }
        ensures laid { AreSlabsLaidOut A.regions A.word self.now.heap self.now.size self.now.slabs }
    {
        &self.slabs.heap
    }

    /// The objects of two slots have no byte in common (own).
    pub fn law_places_apart(&self)
        ensures { PlacesAreApart self.now.slabs self.now.size }
    {
        self.slabs.heap.law_blocks_apart();
    }

    /// Gives every slab back, the one taken last first, and answers the heap: the blocks that are no slabs stand in it with the
    /// bytes that they had. It asks the heap's system for nothing; what that gets back is what these frees give back, and its
    /// bins are in the order that they leave.
    pub fn finish(self) -> Heap<A>
        ensures { IsEmptied A.regions A.word A.follows (A.frees self.heap.system) (A.parts self.heap.system) (A.unit self.heap.system) self.heap self.slabs result }
    {
        self.slabs.free_all()
    }
}
