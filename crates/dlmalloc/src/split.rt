// Splitting a chunk in use, and freeing a part of it.
ghost use Rattle.std.specs.Prelude.{◌≡◌, ◌≢◌, ℕ, ◌+◌, ◌-◌, ◌≤◌};
ghost use Rattle.heap_memory.specs.Regions.{IsWordOf};
ghost use Rattle.dlmalloc.specs.Boundaries.{IsInFree, IsOwn};
ghost use Rattle.dlmalloc.specs.Freed.{freed};
ghost use Rattle.dlmalloc.specs.Resized.{exchanged, halves, tail_freed, CanSplit};
ghost use Rattle.dlmalloc.specs.Heap.{state_of, IsSoundBy};
ghost use Rattle.dlmalloc.specs.OneChunk.{IsUsedAt, IsSplit, LosesLead, ResizesOne};
ghost use Rattle.dlmalloc.specs.Binned.{IsIntactBy};

use crate::heap::Dlmalloc;
use bins::laws::law_index_stays;
use dlmalloc_chunks::chunk;
use heap_memory::{Allocator, Steps};
use std::sync::ledger::Ledger;

impl<A: Allocator> Dlmalloc<A> {
    /// Makes two chunks in use of one: its first `n` bytes, and the rest.
    pub(crate) fn split<L: Ledger>(&mut self, at: u64, size: u64, n: u64, steps: &mut Steps<L>)
        requires sound { IsSoundBy A.Links self.old }
        requires split { CanSplit (state_of A.word self.old) at size n }
        ensures split { IsSplit A.regions A.word A.follows self.old at size n self.new }
        ensures counted { steps.new ≡ steps.old + 5 }
    {
        chunk::set_inuse(&mut self.system, at, n, steps);
        chunk::set_size_and_pinuse_of_inuse_chunk(&mut self.system, at + n, size - n, steps);
    }

    /// Frees what is after the first `n` bytes of a chunk in use.
    pub(crate) fn free_tail<L: Ledger>(&mut self, at: u64, size: u64, n: u64, steps: &mut Steps<L>)
        requires intact { IsIntactBy A.Links self.old }
        requires split { CanSplit (state_of A.word self.old) at size n }
        ensures state { state_of A.word self.new ≡ tail_freed (state_of A.word self.old) at n }
        ensures first { IsUsedAt (state_of A.word self.new) at n }
        ensures resized { ResizesOne A.Links self.old at self.new }
        ensures counted { steps.new ≤ steps.old + 534 }
    {
        law_index_stays();
        self.split(at, size, n, steps);
        self.dispose_chunk(at + n, size - n, steps);
    }

    /// Frees the first `n` bytes of a chunk in use, which are not those that stay in use.
    pub(crate) fn free_lead<L: Ledger>(&mut self, at: u64, size: u64, n: u64, steps: &mut Steps<L>)
        requires intact { IsIntactBy A.Links self.old }
        requires split { CanSplit (state_of A.word self.old) at size n }
        ensures state { state_of A.word self.new ≡ freed (exchanged (state_of A.word self.old) at (halves n)) at }
        ensures second { IsUsedAt (state_of A.word self.new) (at + n) (size - n) }
        ensures lead { LosesLead A.Links self.old at (at + n) self.new }
        ensures words { (k : ℕ) → IsWordOf (A.regions self.old.system) k → k ≢ at + 8 → (IsInFree (state_of A.word self.old) k → ⊥) → (IsOwn (state_of A.word self.new) k → ⊥) → A.word self.new.system k ≡ A.word self.old.system k }
        ensures counted { steps.new ≤ steps.old + 534 }
    {
        law_index_stays();
        self.split(at, size, n, steps);
        self.dispose_chunk(at, n, steps);
    }
}
