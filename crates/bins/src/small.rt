// The rings of small chunks.
ghost use Rattle.std.specs.Prelude.{ℕ, ◌+◌, ◌<◌, ◌≤◌, List, MatchOption};
ghost use Rattle.bins.specs.Index.{IsIn, IsNone, IsLeastFit};
ghost use Rattle.bins.specs.Linked.{IsLinked, IsFreshChunk};
ghost use Rattle.bins.specs.Changes.{IsInserted, IsUnlinked};
ghost use Rattle.bins.specs.Stores.{HasPushed, HasNewest, HasPulled, HasLess};
ghost use Rattle.bins.specs.Places.{CanPush, CanPull};
ghost use Rattle.bins.specs.Work.{TakesAtMost};

use crate::bins::Bins;
use crate::map;
use crate::words::{NEXT, PREV, SMALL_TAG};
use heap_memory::{Links, Steps};
use std::sync::ledger::Ledger;

/// Puts a chunk after the last of a ring, which is the ring's tag if it is empty.
fn push<M: Links, L: Ledger>(memory: &mut M, last: u64, tag: u64, chunk: u64, steps: &mut Steps<L>)
    requires { CanPush (M.regions memory.old) last tag chunk }
    ensures pushed { HasPushed (M.regions memory.old) (M.word memory.old) last tag chunk (M.word memory.new) }
    ensures work { TakesAtMost M.Links 3 memory.old steps.old memory.new steps.new }
{
    memory.store_counted(chunk + PREV, last, steps);
    memory.store_counted(chunk + NEXT, tag, steps);
    if last != tag {
        memory.store_counted(last + NEXT, chunk, steps);
    }
}

/// Joins the two chunks beside one that leaves a ring; each may be the ring's tag.
pub(crate) fn pull<M: Links, L: Ledger>(
    memory: &mut M,
    prev: u64,
    next: u64,
    tag: u64,
    steps: &mut Steps<L>,
)
    requires { CanPull (M.regions memory.old) prev next tag }
    ensures pulled { HasPulled (M.regions memory.old) (M.word memory.old) prev next tag (M.word memory.new) }
    ensures work { TakesAtMost M.Links 2 memory.old steps.old memory.new steps.new }
{
    if prev != tag {
        memory.store_counted(prev + NEXT, next, steps);
    }
    if next != tag {
        memory.store_counted(next + PREV, prev, steps);
    }
}

impl Bins {
    /// Puts a chunk of a size below 256 into its ring, as the newest.
    #[inline(always)]
    pub(crate) fn insert_small<M: Links, L: Ledger>(
        &mut self,
        memory: &mut M,
        chunk: u64,
        size: u64,
        steps: &mut Steps<L>,
    )
        requires small { size < 256 }
        requires linked { (index : ℕ → List ℕ) × IsLinked (M.regions memory.old) (M.word memory.old) self.old index × IsFreshChunk (M.regions memory.old) (M.word memory.old) index size chunk }
        ensures inserted { IsInserted M.Links size chunk self.old memory.old self.new memory.new }
        ensures counted { steps.new ≤ steps.old + 3 }
    {
        let bin = (size >> 3) as usize;
        let tag = SMALL_TAG + (size >> 3);
        let last = self.lasts[bin];
        push(memory, last, tag, chunk, steps);
        self.set_newest(bin, last, tag, chunk);
    }

    /// Names a chunk as the newest of a small bin.
    fn set_newest(&mut self, bin: usize, last: u64, tag: u64, chunk: u64)
        requires { bin < 32 }
        ensures { HasNewest self.old bin last tag chunk self.new }
    {
        if last == tag {
            self.firsts[bin] = chunk;
        }
        self.lasts[bin] = chunk;
        self.small_map = map::with_bit(self.small_map, bin);
    }

    /// Takes a chunk of a size below 256 out of its ring.
    #[inline(always)]
    pub(crate) fn unlink_small<M: Links, L: Ledger>(
        &mut self,
        memory: &mut M,
        chunk: u64,
        size: u64,
        steps: &mut Steps<L>,
    )
        requires small { size < 256 }
        requires linked { (index : ℕ → List ℕ) × IsLinked (M.regions memory.old) (M.word memory.old) self.old index × IsIn chunk (index size) }
        ensures unlinked { IsUnlinked M.Links size chunk self.old memory.old self.new memory.new }
        ensures counted { steps.new ≤ steps.old + 4 }
    {
        let bin = (size >> 3) as usize;
        let tag = SMALL_TAG + (size >> 3);
        let prev = memory.load_counted(chunk + PREV, steps);
        let next = memory.load_counted(chunk + NEXT, steps);
        pull(memory, prev, next, tag, steps);
        self.set_less(bin, prev, next, tag);
    }

    /// Names the first and the last of a small bin after the chunk between these two has left.
    fn set_less(&mut self, bin: usize, prev: u64, next: u64, tag: u64)
        requires { bin < 32 }
        ensures { HasLess self.old bin prev next tag self.new }
    {
        if prev == tag {
            self.firsts[bin] = next;
            if next == tag {
                self.small_map = map::without_bit(self.small_map, bin);
            }
        }
        if next == tag {
            self.lasts[bin] = prev;
        }
    }

    /// The newest chunk of the least size below 256 that is at least `size`. It loads nothing.
    pub(crate) fn least_small<M: Links>(&self, memory: &M, size: u64) -> Option<u64>
        requires { size < 256 }
        ensures { (index : ℕ → List ℕ) → IsLinked (M.regions memory.now) (M.word memory.now) self.now index →
            MatchOption result (IsNone index size 256) (λ chunk. IsLeastFit index size chunk) }
    {
        let from = ((size + 7) >> 3) as usize;
        if from == 32 {
            return None;
        }
        match map::lowest_from(self.small_map, from) {
            Some(bin) => Some(self.lasts[bin]),
            None => None,
        }
    }
}
