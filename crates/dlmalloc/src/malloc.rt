// Requests for blocks.
ghost use Rattle.std.specs.Prelude.{◌≢◌, ◌+◌, ◌-◌, ◌^◌, ◌<◌, ◌≤◌, [], ◌∷◌, None, IfOk, IfErr};
ghost use Rattle.std.specs.Int.{IsPowerOfTwo};
ghost use Rattle.dlmalloc.specs.Extents.{IsChunkSize};
ghost use Rattle.dlmalloc.specs.Choice.{chosen};
ghost use Rattle.dlmalloc.specs.Heap.{state_of};
ghost use Rattle.dlmalloc.specs.Grown.{IsAsItWas};
ghost use Rattle.dlmalloc.specs.Outcome.{IsAllocatedBy};
ghost use Rattle.dlmalloc.specs.Requested.{asked};
ghost use Rattle.dlmalloc.specs.Order.{KeepsBinsInOrder, KeepsOrder};
ghost use Rattle.dlmalloc.specs.Binned.{IsIntactBy, IsMemberChosen};
ghost use Rattle.dlmalloc_chunks.specs.Request.{padded, round_up};
ghost use Rattle.heap_memory.specs.Events.{Refused};
ghost use Rattle.dlmalloc.specs.Served.{IsDenied, IsCutOut, IsServed, IsRefusedBy};

use crate::heap::Dlmalloc;
use crate::layout::{BLOCK, LEAST_ALIGN};
use crate::malloc_error::MallocError;
use crate::walk::Choice;
use bins::laws::law_index_stays;
use dlmalloc_chunks::{max_request, request2size};
use heap_memory::{Allocator, GrantFault, Steps};
use std::sync::ledger::Ledger;

impl<A: Allocator> Dlmalloc<A> {
    /// Asks for a block of `size` bytes at a multiple of `align`, and answers its address (dlmalloc:
    /// `Dlmalloc::malloc`). It writes only words at boundaries of extents and in free ones, and so no byte of another
    /// block. If an extent is chosen, at most 8192 words are loaded or stored, however many extents there are, and for
    /// a refusal at most 512. A request that is too large leaves the heap as it was.
    #[inline(always)]
    pub fn malloc<L: Ledger>(
        &mut self,
        size: u64,
        align: u64,
        steps: &mut Steps<L>,
    ) -> Result<u64, MallocError>
        requires intact { IsIntactBy A.Links self.old }
        requires align { IsPowerOfTwo align }
        ensures allocated { IfOk result (λ address. IsAllocatedBy A.Links A.Allocator.own self.old size align address self.new) }
        ensures refused { IfErr result (λ error. IsRefusedBy A.Links A.Allocator.own self.old (asked size align) error self.new) }
        ensures intact { IsIntactBy A.Links self.new }
        ensures counted { chosen (state_of A.word self.old) (padded (asked size align)) ≢ None → steps.new ≤ steps.old + 8192 }
        ensures refused_counted { IfErr result (λ error. steps.new ≤ steps.old + 512) }
    {
        if align <= LEAST_ALIGN {
            self.c_malloc(size, steps)
        } else {
            self.memalign(size, align, steps)
        }
    }

    /// As `malloc` (dlmalloc: `c_memalign`).
    pub fn c_memalign<L: Ledger>(
        &mut self,
        align: u64,
        size: u64,
        steps: &mut Steps<L>,
    ) -> Result<u64, MallocError>
        requires intact { IsIntactBy A.Links self.old }
        requires align { IsPowerOfTwo align }
        ensures allocated { IfOk result (λ address. IsAllocatedBy A.Links A.Allocator.own self.old size align address self.new) }
        ensures refused { IfErr result (λ error. IsRefusedBy A.Links A.Allocator.own self.old (asked size align) error self.new) }
        ensures intact { IsIntactBy A.Links self.new }
        ensures counted { chosen (state_of A.word self.old) (padded (asked size align)) ≢ None → steps.new ≤ steps.old + 8192 }
        ensures refused_counted { IfErr result (λ error. steps.new ≤ steps.old + 512) }
    {
        self.malloc(size, align, steps)
    }

    /// Asks for a block of `size` bytes at a multiple of 16, and answers its address (dlmalloc: `c_malloc`). It writes
    /// only words at boundaries of extents and in free ones. If an extent is chosen, at most 1024 words are loaded or
    /// stored, and for a refusal at most 512.
    pub fn c_malloc<L: Ledger>(
        &mut self,
        size: u64,
        steps: &mut Steps<L>,
    ) -> Result<u64, MallocError>
        requires intact { IsIntactBy A.Links self.old }
        ensures served { IfOk result (λ address. IsServed A.regions A.word A.zeros A.follows self.old size address self.new) }
        ensures refused { IfErr result (λ error. IsRefusedBy A.Links A.Allocator.own self.old size error self.new) }
        ensures intact { IsIntactBy A.Links self.new }
        ensures order { KeepsOrder A.regions A.word self.old self.new }
        ensures member { IfOk result (λ address. IsMemberChosen A.regions A.word self.old (padded size) (address - 16)) }
        ensures counted { chosen (state_of A.word self.old) (padded size) ≢ None → steps.new ≤ steps.old + 1024 }
        ensures refused_counted { IfErr result (λ error. steps.new ≤ steps.old + 512) }
    {
        if size >= max_request(self.granularity) {
            return Err(MallocError::TooLarge);
        }
        match self.cut(request2size(size), steps) {
            Ok(chunk) => Ok(chunk + BLOCK),
            Err(fault) => Err(MallocError::System(fault)),
        }
    }

    /// Cuts a chunk of `n` bytes from a free extent, or from a new region if none serves, and answers where it begins.
    fn cut<L: Ledger>(&mut self, n: u64, steps: &mut Steps<L>) -> Result<u64, GrantFault>
        requires intact { IsIntactBy A.Links self.old }
        requires bytes { IsChunkSize n }
        requires small { n + 96 + self.old.granularity ≤ 2 ^ 64 }
        ensures cut { IfOk result (λ at. IsCutOut A.regions A.word A.zeros A.follows self.old n at self.new) }
        ensures denied { IfErr result (λ fault. IsDenied A.denies self.old.system (state_of A.word self.old) n fault) }
        ensures err { IfErr result (λ fault. IsAsItWas A.regions A.word A.follows A.refuses (Refused (round_up (n + 96) self.old.granularity) fault ∷ []) self.old self.new) }
        ensures bins { KeepsBinsInOrder A.regions A.word self.old self.new }
        ensures member { IfOk result (λ at. IsMemberChosen A.regions A.word self.old n at) }
        ensures counted { chosen (state_of A.word self.old) n ≢ None → steps.new ≤ steps.old + 1024 }
        ensures refused_counted { IfErr result (λ fault. steps.new ≤ steps.old + 512) }
    {
        if self.size > 0 {
            match self.choose(n, steps) {
                Some(Choice::Chunk(place)) => {
                    self.take(place.at, place.size, n, steps);
                    return Ok(place.at);
                }
                Some(Choice::Top) => {
                    law_index_stays();
                    return Ok(self.take_top(n, steps));
                }
                None => {}
            }
        }
        self.cut_new(n, steps)
    }
}
