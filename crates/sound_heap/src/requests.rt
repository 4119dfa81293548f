// Blocks that are asked for, get another size, and are given back.
use crate::calls;
use crate::heap::Heap;
use crate::heap_error::HeapError;
use dlmalloc::MallocError;
use heap_memory::Allocator;
use std::marker::Brand;
use std::sync::ledger::Blank;

impl<A: Allocator> Heap<A> {
    ghost use Rattle.std.specs.Prelude.{◌≡◌, ◌≤◌, true, false, Some, IfOk, IfErr};
    ghost use Rattle.std.specs.Int.{IsPowerOfTwo};
    ghost use Rattle.dlmalloc.specs.Heap.{state_of};
    ghost use Rattle.dlmalloc.specs.Blocks.{IsBlock};
    ghost use Rattle.dlmalloc.specs.Requested.{asked};
    ghost use Rattle.dlmalloc.specs.Served.{IsRefusedWith};
    ghost use Rattle.dlmalloc.specs.Outcome.{IsReallocated, IsReallocRefused};
    ghost use Rattle.dlmalloc.specs.AfterFree.{IsFreed};
    ghost use Rattle.sound_heap.specs.Heap.{AreBlocksApart, HasBlock, usable, IsBlockHandedOut, IsRequestRefused};

    /// The address of a block of `size` bytes, at a multiple of `align` and of 16.
    pub fn malloc(&mut self, size: u64, align: u64) -> Result<u64, HeapError>
        ensures ok { IfOk result (λ address. IsBlockHandedOut A.regions A.word A.zeros A.follows self.old size align false address self.new) }
        ensures err { IfErr result (λ error. IsRequestRefused A.regions A.word A.follows A.refuses A.denies self.old size align error self.new) }
        ensures apart { AreBlocksApart A.word self.new }
    {
        self.request(size, align, false)
    }

    /// As `malloc`; the bytes of the block are 0.
    pub fn calloc(&mut self, size: u64, align: u64) -> Result<u64, HeapError>
        ensures ok { IfOk result (λ address. IsBlockHandedOut A.regions A.word A.zeros A.follows self.old size align true address self.new) }
        ensures err { IfErr result (λ error. IsRequestRefused A.regions A.word A.follows A.refuses A.denies self.old size align error self.new) }
        ensures apart { AreBlocksApart A.word self.new }
    {
        self.request(size, align, true)
    }

    /// The address of a block, of value 0 if that is asked for, at any alignment.
    fn request(&mut self, size: u64, align: u64, cleared: bool) -> Result<u64, HeapError>
        ensures ok { IfOk result (λ address. IsBlockHandedOut A.regions A.word A.zeros A.follows self.old size align cleared address self.new) }
        ensures err { IfErr result (λ error. IsRequestRefused A.regions A.word A.follows A.refuses A.denies self.old size align error self.new) }
        ensures apart { AreBlocksApart A.word self.new }
    {
        if !calls::is_alignment(align) {
            self.law_blocks_apart();
            return Err(HeapError::BadAlign);
        }
        match self.hand_out(size, align, cleared) {
            Ok(address) => Ok(address),
            Err(error) => Err(HeapError::Refused(error)),
        }
    }

    /// The address of a block of `size` bytes, of value 0 if that is asked for, at a multiple of `align`, which is a power
    /// of two, and of 16.
    pub fn hand_out(&mut self, size: u64, align: u64, cleared: bool) -> Result<u64, MallocError>
        requires align { IsPowerOfTwo align }
        ensures ok { IfOk result (λ address. IsBlockHandedOut A.regions A.word A.zeros A.follows self.old size align cleared address self.new) }
        ensures err { IfErr result (λ error. IsRefusedWith A.regions A.word A.follows A.refuses A.denies self.old (asked size align) error self.new) }
        ensures apart { AreBlocksApart A.word self.new }
    {
        calls::hand_out::<A, Brand>(&mut self.heap, size, align, cleared, Blank::new(1))
    }

    /// Gives a block another size, and answers where it is then, at a multiple of 16. It keeps as many of its bytes as
    /// both sizes have.
    pub fn realloc(&mut self, address: u64, size: u64) -> Result<u64, MallocError>
        requires block { HasBlock (state_of A.word self.old) address }
        ensures ok { IfOk result (λ to. IsReallocated A.regions A.word A.zeros A.follows (A.frees self.old.system) (A.parts self.old.system) (A.unit self.old.system) self.old address (usable (state_of A.word self.old) address) 16 size to self.new) }
        ensures enough { IfOk result (λ to. size ≤ usable (state_of A.word self.new) to) }
        ensures err { IfErr result (λ error. IsReallocRefused A.regions A.word A.follows A.refuses A.denies self.old (Some address) 16 size error self.new) }
        ensures apart { AreBlocksApart A.word self.new }
    {
        calls::resize::<A, Brand>(&mut self.heap, address, size, Blank::new(1))
    }

    /// As `realloc`, for a block of `held` bytes that keeps its alignment, a power of two.
    pub fn realloc_aligned(
        &mut self,
        address: u64,
        held: u64,
        align: u64,
        size: u64,
    ) -> Result<u64, MallocError>
        requires align { IsPowerOfTwo align }
        requires block { IsBlock (state_of A.word self.old) address held }
        ensures ok { IfOk result (λ to. IsReallocated A.regions A.word A.zeros A.follows (A.frees self.old.system) (A.parts self.old.system) (A.unit self.old.system) self.old address held align size to self.new) }
        ensures enough { IfOk result (λ to. size ≤ usable (state_of A.word self.new) to) }
        ensures err { IfErr result (λ error. IsReallocRefused A.regions A.word A.follows A.refuses A.denies self.old (Some address) align size error self.new) }
        ensures apart { AreBlocksApart A.word self.new }
    {
        calls::resize_aligned::<A, Brand>(&mut self.heap, address, held, align, size, Blank::new(1))
    }

    /// Gives a block back.
    pub fn free(&mut self, address: u64)
        requires block { HasBlock (state_of A.word self.old) address }
        ensures freed { IsFreed A.regions A.word A.follows (A.frees self.old.system) (A.parts self.old.system) (A.unit self.old.system) self.old address self.new }
    {
        calls::free::<A, Brand>(&mut self.heap, address, Blank::new(1));
    }

    /// The bytes of the block at an address: those that were asked for, and at most 71 more.
    pub fn usable_size(&self, address: u64) -> u64
        requires block { HasBlock (state_of A.word self.now) address }
        ensures { result ≡ usable (state_of A.word self.now) address }
    {
        calls::usable_size::<A, Brand>(&self.heap, address, Blank::new(1))
    }
}
