// Words of blocks.
use crate::heap::Heap;
use heap_memory::{Allocator, Memory};

impl<A: Allocator + Memory> Heap<A> {
    ghost use Rattle.std.specs.Prelude.{◌≡◌, ◌+◌, ◌%◌, ◌≤◌};
    ghost use Rattle.dlmalloc.specs.Heap.{state_of};
    ghost use Rattle.heap_memory.specs.Words.{IsStored};
    ghost use Rattle.sound_heap.specs.Heap.{HasBlock, usable, StaysInState};

    /// The word at an offset of a block.
    pub fn load(&self, address: u64, offset: u64) -> u64
        requires block { HasBlock (state_of A.word self.now) address }
        requires within { offset + 8 ≤ usable (state_of A.word self.now) address }
        requires aligned { offset % 8 ≡ 0 }
        ensures { result ≡ A.word self.now.system (address + offset) }
    {
        self.heap.allocator().load(address + offset)
    }

    /// Puts a word at an offset of a block, and changes nothing else: each block is there still.
    pub fn store(&mut self, address: u64, offset: u64, value: u64)
        requires block { HasBlock (state_of A.word self.old) address }
        requires within { offset + 8 ≤ usable (state_of A.word self.old) address }
        requires aligned { offset % 8 ≡ 0 }
        ensures stored { IsStored (A.regions self.old.system) (A.word self.old.system) (address + offset) value (A.word self.new.system) }
        ensures stays { StaysInState A.regions A.word A.follows self.old self.new }
        ensures block { HasBlock (state_of A.word self.new) address }
        ensures usable { usable (state_of A.word self.new) address ≡ usable (state_of A.word self.old) address }
    {
        self.heap.law_rests_outside();
        self.heap.law_order_rests_outside();
        self.heap.allocator_mut().store(address + offset, value);
    }
}
