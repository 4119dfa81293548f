// The heap as a whole: what it can give back, and what it lists.
use crate::cached::CachedHeap;
use crate::stacks::Stacks;
use dlmalloc::ExtentList;
use heap_memory::Allocator;
use std::alloc::{AllocError, Global};

impl<A: Allocator> CachedHeap<A> {
    ghost use Rattle.std.specs.Prelude.{◌≡◌, IfOk};
    ghost use Rattle.dlmalloc.specs.Listed.{IsListed};
    ghost use Rattle.heap_cache.specs.Emptied.{HasLetGo, AreEmpty};
    ghost use Rattle.heap_cache.specs.Trimmed.{IsTrimmedEmptied};
    ghost use Rattle.heap_cache.specs.Live.{StaysForCallers};

    /// Has the heap free all that lies on stacks, and then gives memory back to the system that no block needs: the top keeps more
    /// than `pad` bytes. `true` if and only if bytes went back by that.
    pub fn trim(&mut self, pad: u64) -> bool
        ensures trimmed { IsTrimmedEmptied A.regions A.word A.follows A.frees A.parts A.unit self.old.0 self.old.1 pad result self.new.0 self.new.1 }
        ensures stays { StaysForCallers A.word self.old.0 self.old.1 self.new.0 self.new.1 }
    {
        self.empty();
        self.heap.trim(pad)
    }

    /// Has the heap free all that lies on stacks, and lists its extents, by ascending address: each that is in use then is a block
    /// that a caller has.
    pub fn extents(&mut self, alloc: Global) -> Result<ExtentList, AllocError>
        ensures gone { HasLetGo A.regions A.word A.follows A.frees A.parts A.unit self.old.0 self.old.1 self.new.0 self.new.1 }
        ensures empty { AreEmpty self.new.1 }
        ensures stays { StaysForCallers A.word self.old.0 self.old.1 self.new.0 self.new.1 }
        ensures listed { IfOk result (λ list. IsListed A.word self.new.0 list) }
    {
        self.empty();
        self.heap.extents(alloc)
    }
}

impl<A: Allocator + Drop> CachedHeap<A> {
    ghost use Rattle.std.specs.Prelude.{◌≡◌, [], filter};
    ghost use Rattle.dlmalloc.specs.Heap.{state_of};
    ghost use Rattle.dlmalloc.specs.GivenBack.{AreGivenBack};
    ghost use Rattle.dlmalloc.specs.Released.{is_own, taken_back};
    ghost use Rattle.sound_heap.specs.Heap.{fresh_heap};
    ghost use Rattle.heap_cache.specs.Emptied.{AreEmpty};

    /// Ends all blocks, gives all memory of the heap back, answers how many bytes the system took, and leaves a new heap over the
    /// system with empty stacks, with the granularity and the rate in force. Another system stands in its place meanwhile, is
    /// asked for nothing, and comes back.
    pub fn reset(&mut self, other: A) -> (u64, A)
        ensures ended { AreGivenBack A.regions A.word A.follows (taken_back (A.frees self.old.0.system) (filter is_own (state_of A.word self.old.0).segments)) self.old.0.system result.0 self.new.0.system }
        ensures other { AreGivenBack A.regions A.word A.follows [] other 0 result.1 }
        ensures state { state_of A.word self.new.0 ≡ fresh_heap self.old.0.granularity self.old.0.rate }
        ensures empty { AreEmpty self.new.1 }
    {
        self.stacks = Stacks::new();
        self.heap.reset(other)
    }
}
