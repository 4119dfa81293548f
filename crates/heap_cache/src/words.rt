// Words of blocks that callers have.
use crate::cached::CachedHeap;
use heap_memory::{Allocator, Memory};

impl<A: Allocator + Memory> CachedHeap<A> {
    ghost use Rattle.std.specs.Prelude.{◌≡◌, ◌+◌, ◌%◌, ◌≤◌};
    ghost use Rattle.dlmalloc.specs.Heap.{state_of};
    ghost use Rattle.dlmalloc.specs.Blocks.{usable};
    ghost use Rattle.heap_memory.specs.Words.{IsStored};
    ghost use Rattle.sound_heap.specs.Heap.{StaysInState};
    ghost use Rattle.heap_cache.specs.Held.{IsLive};
    ghost use Rattle.heap_cache.specs.Live.{HasSameLive};

    /// The word at an offset of a block that a caller has.
    pub fn load(&self, address: u64, offset: u64) -> u64
        requires live { IsLive (state_of A.word self.now.0) self.now.1 address }
        requires within { offset + 8 ≤ usable (state_of A.word self.now.0) address }
        requires aligned { offset % 8 ≡ 0 }
        ensures { result ≡ A.word self.now.0.system (address + offset) }
    {
        self.heap.load(address, offset)
    }

    /// Puts a word at an offset of a block that a caller has, and changes nothing else.
    pub fn store(&mut self, address: u64, offset: u64, value: u64)
        requires live { IsLive (state_of A.word self.old.0) self.old.1 address }
        requires within { offset + 8 ≤ usable (state_of A.word self.old.0) address }
        requires aligned { offset % 8 ≡ 0 }
        ensures stored { IsStored (A.regions self.old.0.system) (A.word self.old.0.system) (address + offset) value (A.word self.new.0.system) }
        ensures stays { StaysInState A.regions A.word A.follows self.old.0 self.new.0 }
        ensures rows { self.new.1 ≡ self.old.1 }
        ensures live { HasSameLive (state_of A.word self.old.0) self.old.1 (state_of A.word self.new.0) self.new.1 }
        ensures usable { usable (state_of A.word self.new.0) address ≡ usable (state_of A.word self.old.0) address }
    {
        self.heap.store(address, offset, value);
    }
}
