// What a free does beyond the merging of its chunk.
ghost use Rattle.std.specs.Prelude.{◌≡◌, ℕ, ◌+◌, ◌<◌, ◌≤◌, Bool};
ghost use Rattle.dlmalloc.specs.Blocks.{IsBlock};
ghost use Rattle.dlmalloc.specs.Binned.{IsBinnedBy, IsIntactBy};
ghost use Rattle.dlmalloc.specs.Released.{IsFreeAround};
ghost use Rattle.dlmalloc.specs.Shortened.{IsTrimmedBy};
ghost use Rattle.dlmalloc.specs.AfterFree.{IsSettled, IsFreedBy};
ghost use Rattle.dlmalloc.specs.Counts.{pass_steps};
ghost use Rattle.dlmalloc.specs.Heap.{state_of};

use crate::heap::Dlmalloc;
use heap_memory::{Allocator, Steps};
use std::sync::ledger::Ledger;

impl<A: Allocator> Dlmalloc<A> {
    /// Frees a block of some size, and does what a free does further.
    pub(crate) fn free_and_settle<L: Ledger>(&mut self, ptr: u64, steps: &mut Steps<L>)
        requires intact { IsIntactBy A.Links self.old }
        requires block { (size : ℕ) × IsBlock (state_of A.word self.old) ptr size }
        ensures freed { IsFreedBy A.Links A.Allocator.own self.old ptr self.new }
        ensures linked { IsBinnedBy A.Links self.new }
        ensures counted { steps.new ≤ steps.old + 532 + pass_steps (state_of A.word self.old) }
    {
        let chunk = self.free_block(ptr, steps);
        self.settle(chunk, steps);
    }

    /// What a free does further, given the address of the free chunk that the freed one became part of: a top above the
    /// trim check is trimmed, and any other chunk is counted (dlmalloc: `Dlmalloc::free`).
    fn settle<L: Ledger>(&mut self, chunk: u64, steps: &mut Steps<L>)
        requires intact { IsIntactBy A.Links self.old }
        requires free { (at : ℕ) × IsFreeAround (state_of A.word self.old) at chunk }
        ensures settled { (at : ℕ) → IsFreeAround (state_of A.word self.old) at chunk → IsSettled A.regions A.word A.follows (A.frees self.old.system) (A.parts self.old.system) (A.unit self.old.system) self.old at self.new }
        ensures linked { IsBinnedBy A.Links self.new }
        ensures counted { steps.new ≤ steps.old + 2 + pass_steps (state_of A.word self.old) }
    {
        if chunk == self.top {
            self.trim_above_check(steps);
            return;
        }
        self.count_free(chunk, steps);
    }

    /// Trims a top that is above the trim check.
    fn trim_above_check<L: Ledger>(&mut self, steps: &mut Steps<L>)
        requires intact { IsIntactBy A.Links self.old }
        ensures above { self.old.trim_check < self.old.top_size → (answer : Bool) × IsTrimmedBy A.Links A.Allocator.own self.old 0 answer self.new }
        ensures same { self.old.top_size ≤ self.old.trim_check → self.new ≡ self.old }
        ensures linked { IsBinnedBy A.Links self.new }
        ensures counted { steps.new ≤ steps.old + 2 + pass_steps (state_of A.word self.old) }
    {
        if self.top_size > self.trim_check {
            self.trim(0, steps);
        }
    }
}
