// Cutting a free chunk for a request.
ghost use Rattle.std.specs.Prelude.{◌≢◌, ◌+◌, ◌≤◌};
ghost use Rattle.dlmalloc.specs.Taken.{CanCut};
ghost use Rattle.dlmalloc.specs.Heap.{state_of, IsSoundBy};
ghost use Rattle.dlmalloc.specs.OneChunk.{IsChunkCut, IsChunkTaken};
ghost use Rattle.dlmalloc.specs.Binned.{IsIntactBy, IsMember};

use crate::heap::Dlmalloc;
use crate::layout::{LEAST_CHUNK, LEAST_LARGE};
use bins::laws::law_index_stays;
use dlmalloc_chunks::chunk;
use heap_memory::{Allocator, Steps};
use std::sync::ledger::Ledger;

impl<A: Allocator> Dlmalloc<A> {
    /// Cuts `n` bytes from a free chunk other than the top: the victim, or the one that a search of the bins names. A rest of
    /// less than 32 bytes stays with them. The rest of the victim is the victim. A binned chunk leaves its bin; for less than
    /// 256 bytes its rest is the victim, and the old one goes into its bin; else the rest goes into its own.
    pub(crate) fn take<L: Ledger>(&mut self, at: u64, size: u64, n: u64, steps: &mut Steps<L>)
        requires intact { IsIntactBy A.Links self.old }
        requires cut { CanCut (state_of A.word self.old) at size n }
        requires member { at ≢ self.old.victim → IsMember A.regions A.word self.old n at }
        ensures took { IsChunkTaken A.Links self.old at size n self.new }
        ensures counted { steps.new ≤ steps.old + 328 }
    {
        if at == self.victim {
            law_index_stays();
            self.cut_chunk(at, size, n, steps);
            return;
        }
        self.take_binned(at, size, n, steps);
    }

    /// Cuts `n` bytes from the binned chunk that a search for that many names.
    fn take_binned<L: Ledger>(&mut self, at: u64, size: u64, n: u64, steps: &mut Steps<L>)
        requires intact { IsIntactBy A.Links self.old }
        requires cut { CanCut (state_of A.word self.old) at size n }
        requires other { at ≢ self.old.victim }
        requires member { IsMember A.regions A.word self.old n at }
        ensures took { IsChunkTaken A.Links self.old at size n self.new }
        ensures counted { steps.new ≤ steps.old + 328 }
    {
        let victim = self.victim;
        let victim_size = self.victim_size;
        self.unbin_fit(at, size, steps);
        law_index_stays();
        self.cut_chunk(at, size, n, steps);
        let rest = size - n;
        if rest < LEAST_CHUNK {
            return;
        }
        if n < LEAST_LARGE {
            self.bin_some(victim, victim_size, steps);
            return;
        }
        self.bin(at + n, rest, steps);
    }

    /// Cuts `n` bytes from a free chunk other than the top that is in no bin.
    fn cut_chunk<L: Ledger>(&mut self, at: u64, size: u64, n: u64, steps: &mut Steps<L>)
        requires sound { IsSoundBy A.Links self.old }
        requires cut { CanCut (state_of A.word self.old) at size n }
        ensures cut { IsChunkCut A.regions A.word A.follows self.old at size n self.new }
        ensures counted { steps.new ≤ steps.old + 3 }
    {
        let rest = size - n;
        if rest < LEAST_CHUNK {
            chunk::set_inuse_and_pinuse(&mut self.system, at, size, steps);
            if at == self.victim {
                self.victim = 0;
                self.victim_size = 0;
            }
        } else {
            chunk::set_size_and_pinuse_of_inuse_chunk(&mut self.system, at, n, steps);
            chunk::set_size_and_pinuse_of_free_chunk(&mut self.system, at + n, rest, steps);
            if at == self.victim || n < LEAST_LARGE {
                self.victim = at + n;
                self.victim_size = rest;
            }
        }
    }
}
