// Blocks at multiples of an alignment.
use crate::cached::CachedHeap;
use heap_memory::Allocator;
use sound_heap::HeapError;

impl<A: Allocator> CachedHeap<A> {
    ghost use Rattle.std.specs.Prelude.{◌≡◌, ◌≤◌, ◌%◌, false, IfOk, IfErr};
    ghost use Rattle.dlmalloc.specs.Heap.{state_of};
    ghost use Rattle.dlmalloc.specs.Blocks.{IsBlock, usable};
    ghost use Rattle.sound_heap.specs.Heap.{IsBlockHandedOut, IsRequestRefused};
    ghost use Rattle.heap_cache.specs.Held.{IsHeld};
    ghost use Rattle.heap_cache.specs.Served.{IsServedAligned, IsRefusedEmptied};
    ghost use Rattle.heap_cache.specs.Live.{IsGained, StaysForCallers};

    /// Asks the heap for a block, whatever lies on stacks.
    fn ask(&mut self, size: u64, align: u64) -> Result<u64, HeapError>
        ensures ok { IfOk result (λ address. IsBlockHandedOut A.regions A.word A.zeros A.follows self.old.0 size align false address self.new.0) }
        ensures fresh { IfOk result (λ address. IsHeld self.new.1 address → ⊥) }
        ensures err { IfErr result (λ error. IsRequestRefused A.regions A.word A.follows A.refuses A.denies self.old.0 size align error self.new.0) }
        ensures rows { self.new.1 ≡ self.old.1 }
    {
        self.heap.malloc(size, align)
    }

    /// The address of a new block of `size` bytes, at a multiple of `align` and of 16: the heap is asked for it at once, and once more
    /// with nothing on stacks if it has no memory for it. An alignment that is no power of two is refused with nothing changed, and so
    /// is a size that is too large whatever is free. Up to alignment 16 `malloc` is faster.
    pub fn malloc_aligned(&mut self, size: u64, align: u64) -> Result<u64, HeapError>
        ensures ok { IfOk result (λ address. IsServedAligned A.regions A.word A.zeros A.follows A.refuses A.denies A.frees A.parts A.unit self.old.0 self.old.1 size align address self.new.0 self.new.1) }
        ensures gained { IfOk result (λ address. IsGained A.word self.old.0 self.old.1 address self.new.0 self.new.1) }
        ensures multiple { IfOk result (λ address. address % align ≡ 0) }
        ensures block { IfOk result (λ address. IsBlock (state_of A.word self.new.0) address size) }
        ensures enough { IfOk result (λ address. size ≤ usable (state_of A.word self.new.0) address) }
        ensures err { IfErr result (λ error. IsRefusedEmptied A.regions A.word A.follows A.refuses A.denies A.frees A.parts A.unit self.old.0 self.old.1 size align error self.new.0 self.new.1) }
        ensures stays { IfErr result (λ error. StaysForCallers A.word self.old.0 self.old.1 self.new.0 self.new.1) }
    {
        self.are_held();
        match self.ask(size, align) {
            Ok(address) => Ok(address),
            Err(error) => self.ask_again(size, align, error),
        }
    }
}
