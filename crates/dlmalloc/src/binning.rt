// Free chunks in bins.
ghost use Rattle.std.specs.Prelude.{◌+◌, ◌≤◌};
ghost use Rattle.dlmalloc.specs.Binned.{CanJoinBin, CanJoinBinIfAny, CanLeaveBin, CanLeaveAsFit, CanLeaveBetween, HasJoined, HasLeft, JoinsBin, LeavesBin};
ghost use Rattle.dlmalloc.specs.Order.{IsLessened, IsAdded};

use crate::heap::Dlmalloc;
use heap_memory::{Allocator, Steps};
use std::sync::ledger::Ledger;

impl<A: Allocator> Dlmalloc<A> {
    /// Puts a free chunk that is neither the top nor the victim into its bin.
    #[inline(always)]
    pub(crate) fn bin<L: Ledger>(&mut self, at: u64, size: u64, steps: &mut Steps<L>)
        requires { CanJoinBin A.Links self.old at size }
        ensures bins { JoinsBin A.Links at (HasJoined size at) self.old self.new }
        ensures counted { steps.new ≤ steps.old + 129 }
    {
        self.bins.insert(&mut self.system, at, size, steps);
    }

    /// Takes a free chunk, not the top, out of its bin, if it is in one: the victim is in none.
    #[inline(always)]
    pub(crate) fn unbin<L: Ledger>(&mut self, at: u64, size: u64, steps: &mut Steps<L>)
        requires { CanLeaveBin A.Links self.old at size }
        ensures bins { LeavesBin A.Links at (HasLeft size at) self.old self.new }
        ensures counted { steps.new ≤ steps.old + 196 }
    {
        if at == self.victim {
            return;
        }
        self.bins.unlink(&mut self.system, at, size, steps);
    }

    /// Takes a chunk that a search of the bins named out of its bin.
    #[inline(always)]
    pub(crate) fn unbin_fit<L: Ledger>(&mut self, at: u64, size: u64, steps: &mut Steps<L>)
        requires { CanLeaveAsFit A.Links self.old at size }
        ensures bins { LeavesBin A.Links at (HasLeft size at) self.old self.new }
        ensures counted { steps.new ≤ steps.old + 196 }
    {
        self.bins.unlink_fit(&mut self.system, at, size, steps);
    }

    /// Takes the free chunk between two addresses out of its bin, if there is one.
    pub(crate) fn unbin_between<L: Ledger>(&mut self, from: u64, to: u64, steps: &mut Steps<L>)
        requires { CanLeaveBetween A.Links self.old from to }
        ensures bins { LeavesBin A.Links from IsLessened self.old self.new }
        ensures counted { steps.new ≤ steps.old + 196 }
    {
        if from < to {
            self.unbin(from, to - from, steps);
        }
    }

    /// Puts a free chunk into its bin, if it has bytes.
    pub(crate) fn bin_some<L: Ledger>(&mut self, at: u64, size: u64, steps: &mut Steps<L>)
        requires { CanJoinBinIfAny A.Links self.old at size }
        ensures bins { JoinsBin A.Links at (IsAdded size at) self.old self.new }
        ensures counted { steps.new ≤ steps.old + 129 }
    {
        if size > 0 {
            self.bin(at, size, steps);
        }
    }
}
