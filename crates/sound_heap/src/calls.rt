// Calls of a heap, each with a counter of its own.
ghost use Rattle.std.specs.Prelude.{◌≡◌, ◌↔◌, Some, IfOk, IfErr, IsTrue, filter};
ghost use Rattle.std.specs.Int.{IsPowerOfTwo};
ghost use Rattle.dlmalloc.specs.Binned.{IsIntactBy};
ghost use Rattle.dlmalloc.specs.Blocks.{IsBlock, HasBlock, usable};
ghost use Rattle.dlmalloc.specs.Heap.{state_of, IsSound};
ghost use Rattle.dlmalloc.specs.Served.{IsRefusedWith};
ghost use Rattle.dlmalloc.specs.Listed.{IsListed};
ghost use Rattle.dlmalloc.specs.AfterFree.{IsFreed};
ghost use Rattle.dlmalloc.specs.Requested.{asked};
ghost use Rattle.dlmalloc.specs.Outcome.{IsReallocated, IsReallocRefused};
ghost use Rattle.dlmalloc.specs.Shortened.{IsTrimmed};
ghost use Rattle.dlmalloc.specs.GivenBack.{AreGivenBack};
ghost use Rattle.dlmalloc.specs.Released.{is_own, taken_back};
ghost use Rattle.sound_heap.specs.Blanks.{IsBlankOf};
ghost use Rattle.sound_heap.specs.Heap.{AreBlocksApart, IsBlockHandedOut};

use dlmalloc::{Dlmalloc, ExtentList, MallocError};
use dlmalloc_chunks::chunk;
use heap_memory::{Allocator, Steps};
use std::alloc::{AllocError, Global};
use std::sync::ledger::{Blank, Ledger};

/// Whether blocks may be asked for at multiples of a number.
pub(crate) fn is_alignment(align: u64) -> bool
    ensures { IsTrue result ↔ IsPowerOfTwo align }
{
    align.is_power_of_two()
}

/// Asks for a block of `size` bytes at a multiple of `align`, of value 0 if that is asked for.
pub(crate) fn hand_out<A: Allocator, L: Ledger>(
    heap: &mut Dlmalloc<A>,
    size: u64,
    align: u64,
    cleared: bool,
    blank: Blank,
) -> Result<u64, MallocError>
    requires blank { IsBlankOf L.name L.parts blank }
    requires intact { IsIntactBy A.Links heap.old }
    requires align { IsPowerOfTwo align }
    ensures ok { IfOk result (λ address. IsBlockHandedOut A.regions A.word A.zeros A.follows heap.old size align cleared address heap.new) }
    ensures err { IfErr result (λ error. IsRefusedWith A.regions A.word A.follows A.refuses A.denies heap.old (asked size align) error heap.new) }
    ensures intact { IsIntactBy A.Links heap.new }
    ensures apart { AreBlocksApart A.word heap.new }
{
    let mut steps = Steps::<L>::new(blank);
    let answer = if cleared {
        heap.calloc(size, align, &mut steps)
    } else {
        heap.malloc(size, align, &mut steps)
    };
    heap.law_blocks_apart();
    answer
}

/// Gives a block another size, at a multiple of 16.
pub(crate) fn resize<A: Allocator, L: Ledger>(
    heap: &mut Dlmalloc<A>,
    address: u64,
    size: u64,
    blank: Blank,
) -> Result<u64, MallocError>
    requires blank { IsBlankOf L.name L.parts blank }
    requires intact { IsIntactBy A.Links heap.old }
    requires block { HasBlock (state_of A.word heap.old) address }
    ensures ok { IfOk result (λ to. IsReallocated A.regions A.word A.zeros A.follows (A.frees heap.old.system) (A.parts heap.old.system) (A.unit heap.old.system) heap.old address (usable (state_of A.word heap.old) address) 16 size to heap.new) }
    ensures err { IfErr result (λ error. IsReallocRefused A.regions A.word A.follows A.refuses A.denies heap.old (Some address) 16 size error heap.new) }
    ensures intact { IsIntactBy A.Links heap.new }
    ensures apart { AreBlocksApart A.word heap.new }
{
    let answer = heap.c_realloc(Some(address), size, &mut Steps::<L>::new(blank));
    heap.law_blocks_apart();
    answer
}

/// Gives a block another size, at its own alignment.
pub(crate) fn resize_aligned<A: Allocator, L: Ledger>(
    heap: &mut Dlmalloc<A>,
    address: u64,
    held: u64,
    align: u64,
    size: u64,
    blank: Blank,
) -> Result<u64, MallocError>
    requires blank { IsBlankOf L.name L.parts blank }
    requires intact { IsIntactBy A.Links heap.old }
    requires align { IsPowerOfTwo align }
    requires block { IsBlock (state_of A.word heap.old) address held }
    ensures ok { IfOk result (λ to. IsReallocated A.regions A.word A.zeros A.follows (A.frees heap.old.system) (A.parts heap.old.system) (A.unit heap.old.system) heap.old address held align size to heap.new) }
    ensures err { IfErr result (λ error. IsReallocRefused A.regions A.word A.follows A.refuses A.denies heap.old (Some address) align size error heap.new) }
    ensures intact { IsIntactBy A.Links heap.new }
    ensures apart { AreBlocksApart A.word heap.new }
{
    let answer = heap.realloc(address, held, align, size, &mut Steps::<L>::new(blank));
    heap.law_blocks_apart();
    answer
}

/// Gives a block back.
pub(crate) fn free<A: Allocator, L: Ledger>(heap: &mut Dlmalloc<A>, address: u64, blank: Blank)
    requires blank { IsBlankOf L.name L.parts blank }
    requires intact { IsIntactBy A.Links heap.old }
    requires block { HasBlock (state_of A.word heap.old) address }
    ensures freed { IsFreed A.regions A.word A.follows (A.frees heap.old.system) (A.parts heap.old.system) (A.unit heap.old.system) heap.old address heap.new }
    ensures intact { IsIntactBy A.Links heap.new }
{
    heap.c_free(Some(address), &mut Steps::<L>::new(blank));
}

/// Gives memory back to the system that no block needs.
pub(crate) fn trim<A: Allocator, L: Ledger>(heap: &mut Dlmalloc<A>, pad: u64, blank: Blank) -> bool
    requires blank { IsBlankOf L.name L.parts blank }
    requires intact { IsIntactBy A.Links heap.old }
    ensures trimmed { IsTrimmed A.regions A.word A.follows (A.frees heap.old.system) (A.parts heap.old.system) (A.unit heap.old.system) heap.old pad result heap.new }
    ensures intact { IsIntactBy A.Links heap.new }
{
    heap.trim(pad, &mut Steps::<L>::new(blank))
}

/// The bytes of a block.
pub(crate) fn usable_size<A: Allocator, L: Ledger>(
    heap: &Dlmalloc<A>,
    address: u64,
    blank: Blank,
) -> u64
    requires blank { IsBlankOf L.name L.parts blank }
    requires sound { IsSound A.regions A.word heap.now }
    requires block { HasBlock (state_of A.word heap.now) address }
    ensures { result ≡ usable (state_of A.word heap.now) address }
{
    chunk::size(heap.allocator(), address - 16, &mut Steps::<L>::new(blank)) - 8
}

/// The extents of the heap, by ascending address.
pub(crate) fn extents<A: Allocator, L: Ledger>(
    heap: &Dlmalloc<A>,
    alloc: Global,
    blank: Blank,
) -> Result<ExtentList, AllocError>
    requires blank { IsBlankOf L.name L.parts blank }
    requires sound { IsSound A.regions A.word heap.now }
    ensures { IfOk result (λ list. IsListed A.word heap.now list) }
{
    heap.extents(alloc, &mut Steps::<L>::new(blank))
}

/// Hands the segments of a heap to its system, and answers how many bytes the system took, and the system.
pub(crate) fn destroy<A: Allocator, L: Ledger>(heap: Dlmalloc<A>, blank: Blank) -> (u64, A)
    requires blank { IsBlankOf L.name L.parts blank }
    requires sound { IsSound A.regions A.word heap }
    ensures { AreGivenBack A.regions A.word A.follows (taken_back (A.frees heap.system) (filter is_own (state_of A.word heap).segments)) heap.system result.0 result.1 }
{
    heap.destroy(&mut Steps::<L>::new(blank))
}
