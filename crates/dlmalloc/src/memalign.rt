// Blocks at alignments above 16.
ghost use Rattle.std.specs.Prelude.{◌≡◌, ◌≢◌, ℕ, ◌+◌, ◌-◌, ◌%◌, ◌^◌, ◌<◌, ◌≤◌, None, IfOk, IfErr};
ghost use Rattle.std.specs.Int.{IsPowerOfTwo};
ghost use Rattle.heap_memory.specs.Regions.{IsWordOf};
ghost use Rattle.dlmalloc_chunks.specs.Request.{enlarged, padded};
ghost use Rattle.dlmalloc.specs.Extents.{IsChunkSize};
ghost use Rattle.dlmalloc.specs.Blocks.{IsBlock};
ghost use Rattle.dlmalloc.specs.Boundaries.{IsOwn};
ghost use Rattle.dlmalloc.specs.Aligned.{aligned_place, lead_freed, tail_cut};
ghost use Rattle.dlmalloc.specs.Heap.{state_of};
ghost use Rattle.dlmalloc.specs.OneChunk.{IsUsedAt, IsAligned, LosesLead, CanLoseLead, CanLoseTail, ResizesOne};
ghost use Rattle.dlmalloc.specs.Served.{IsRefusedBy};
ghost use Rattle.dlmalloc.specs.Binned.{IsIntactBy};
ghost use Rattle.dlmalloc.specs.Requested.{IsServedAligned, IsMemberServed};
ghost use Rattle.dlmalloc.specs.Choice.{chosen};

use crate::heap::Dlmalloc;
use crate::layout::{BLOCK, LEAST_CHUNK};
use crate::malloc_error::MallocError;
use dlmalloc_chunks::{chunk, max_request, request2size};
use heap_memory::{Allocator, Steps};
use std::sync::ledger::Ledger;

/// What is asked for besides the chunk and the alignment, so that it has an aligned place with no short lead.
const ALIGNED_OVERHEAD: u64 = 24;

/// Where a chunk whose block is aligned begins, in a chunk at an address: there, if that one's block is aligned; else
/// before the first aligned place that leaves more than 32 bytes before it.
fn aligned_place(at: u64, align: u64) -> u64
    requires align { IsPowerOfTwo align × (16 < align) }
    requires small { at + align + 64 < 2 ^ 64 }
    requires whole { at % 16 ≡ 0 }
    ensures place { result ≡ aligned_place at align }
{
    let block = at + BLOCK;
    if block % align == 0 {
        return at;
    }
    let first = (block + (align - 1)) / align * align;
    if first <= block + LEAST_CHUNK {
        first + align - BLOCK
    } else {
        first - BLOCK
    }
}

impl<A: Allocator> Dlmalloc<A> {
    /// Asks for a block at a multiple of an alignment above 16 (dlmalloc: `memalign`): a greater one is found, and what
    /// is before the aligned place in it, and after the block there, is freed.
    #[inline(never)]
    pub(crate) fn memalign<L: Ledger>(
        &mut self,
        size: u64,
        align: u64,
        steps: &mut Steps<L>,
    ) -> Result<u64, MallocError>
        requires intact { IsIntactBy A.Links self.old }
        requires align { IsPowerOfTwo align × (16 < align) }
        ensures served { IfOk result (λ address. IsServedAligned A.regions A.word A.zeros A.follows self.old size align address self.new) }
        ensures refused { IfErr result (λ error. IsRefusedBy A.Links A.Allocator.own self.old (enlarged size align) error self.new) }
        ensures intact { IsIntactBy A.Links self.new }
        ensures member { IfOk result (λ address. IsMemberServed A.regions A.word self.old size align address) }
        ensures counted { chosen (state_of A.word self.old) (padded (enlarged size align)) ≢ None → steps.new ≤ steps.old + 8192 }
        ensures refused_counted { IfErr result (λ error. steps.new ≤ steps.old + 512) }
    {
        // The sum is not formed if it would wrap: the enlarged form is greater still.
        let limit = max_request(self.granularity);
        if size >= limit || align >= limit - size {
            return Err(MallocError::TooLarge);
        }
        let n = request2size(size);
        match self.c_malloc(n + align + ALIGNED_OVERHEAD, steps) {
            Ok(block) => Ok(self.align_block(block, align, n, steps) + BLOCK),
            Err(error) => Err(error),
        }
    }

    /// Frees what is before the aligned place in the chunk of a block, and what is after `n` bytes there, and answers
    /// where they begin.
    fn align_block<L: Ledger>(&mut self, ptr: u64, align: u64, n: u64, steps: &mut Steps<L>) -> u64
        requires intact { IsIntactBy A.Links self.old }
        requires align { IsPowerOfTwo align × (16 < align) }
        requires block { IsBlock (state_of A.word self.old) ptr (n + align + 24) }
        requires bytes { IsChunkSize n }
        ensures aligned { IsAligned A.regions A.word A.follows self.old ptr align n result self.new }
        ensures intact { IsIntactBy A.Links self.new }
        ensures counted { steps.new ≤ steps.old + 1069 }
    {
        let at = ptr - BLOCK;
        let size = chunk::size(&self.system, at, steps);
        let place = aligned_place(at, align);
        self.free_before(at, size, place, steps);
        self.free_behind(place, size - (place - at), n, steps);
        place
    }

    /// Frees what is before a place in a chunk in use.
    fn free_before<L: Ledger>(&mut self, at: u64, size: u64, place: u64, steps: &mut Steps<L>)
        requires intact { IsIntactBy A.Links self.old }
        requires can { CanLoseLead (state_of A.word self.old) at size place }
        ensures state { state_of A.word self.new ≡ lead_freed (state_of A.word self.old) at place }
        ensures chunk { IsUsedAt (state_of A.word self.new) place (size - (place - at)) }
        ensures lead { LosesLead A.Links self.old at place self.new }
        ensures words { (k : ℕ) → IsWordOf (A.regions self.old.system) k → (IsOwn (state_of A.word self.old) k → ⊥) → (IsOwn (state_of A.word self.new) k → ⊥) → A.word self.new.system k ≡ A.word self.old.system k }
        ensures counted { steps.new ≤ steps.old + 534 }
    {
        if place == at {
            return;
        }
        self.free_lead(at, size, place - at, steps);
    }

    /// Frees what is after the first `n` bytes of a chunk in use, if it is more than 32 bytes.
    fn free_behind<L: Ledger>(&mut self, at: u64, size: u64, n: u64, steps: &mut Steps<L>)
        requires intact { IsIntactBy A.Links self.old }
        requires can { CanLoseTail (state_of A.word self.old) at size n }
        ensures state { state_of A.word self.new ≡ tail_cut (state_of A.word self.old) at n }
        ensures held { (rest : ℕ) × IsUsedAt (state_of A.word self.new) at rest × (n ≤ rest) × (rest ≤ n + 32) }
        ensures resized { ResizesOne A.Links self.old at self.new }
        ensures counted { steps.new ≤ steps.old + 534 }
    {
        if size - n <= LEAST_CHUNK {
            return;
        }
        self.free_tail(at, size, n, steps);
    }
}
