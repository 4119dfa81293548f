// Freeing a block.
ghost use Rattle.std.specs.Prelude.{◌≡◌, ◌≢◌, ℕ, ◌+◌, ◌-◌, ◌^◌, ◌<◌, ◌≤◌, ◌==◌, true, false, if◌then◌else◌, [], ◌∷◌, IfSome, IfNone};
ghost use Rattle.dlmalloc_chunks.specs.Chunk.{HasHead, StoresWords};
ghost use Rattle.dlmalloc_chunks.specs.Head.{size_of, pinuse_of, free_of, head_of, without_pinuse};
ghost use Rattle.dlmalloc.specs.OneChunk.{IsUsedAt, IsChunkFreed};
ghost use Rattle.dlmalloc.specs.Stored.{CanHoldFree, CanLookBack};
ghost use Rattle.dlmalloc.specs.Blocks.{IsBlock};
ghost use Rattle.dlmalloc.specs.Released.{IsFreeAround};
ghost use Rattle.dlmalloc.specs.Heap.{state_of, IsSoundBy};
ghost use Rattle.dlmalloc.specs.Turned.{MovesBesideBins};
ghost use Rattle.dlmalloc.specs.Disposed.{IsDisposed};
ghost use Rattle.dlmalloc.specs.Binned.{IsBinnedBy, IsIntactBy, IsBinnedBut, IsRebinned, IsJoint, IsVictimAfter};
ghost use Rattle.dlmalloc.specs.AfterFree.{IsFreedBy};
ghost use Rattle.dlmalloc.specs.Counts.{pass_steps};
ghost use Rattle.dlmalloc.specs.Order.{IsAdded, TurnsInOrder};

use crate::heap::Dlmalloc;
use crate::layout::{BLOCK, HEAD, PINUSE};
use bins::laws::law_index_stays;
use dlmalloc_chunks::chunk;
use heap_memory::{Allocator, Links, Steps};
use std::sync::ledger::Ledger;

impl<A: Allocator> Dlmalloc<A> {
    /// Frees the block at an address, of the bytes that were asked for (dlmalloc: `Dlmalloc::free`). Its chunk joins
    /// the free chunks beside it. If they are then the top, and above the trim check, the heap is trimmed; any other
    /// chunk is counted, and segments may go back to the system by that. The size and the alignment are not read: the
    /// chunk's head has its size. At most 1024 words are loaded or stored, and 512 more for each segment if a release
    /// pass is made.
    pub fn free<L: Ledger>(&mut self, ptr: u64, size: u64, align: u64, steps: &mut Steps<L>)
        requires intact { IsIntactBy A.Links self.old }
        requires block { IsBlock (state_of A.word self.old) ptr size }
        ensures freed { IsFreedBy A.Links A.Allocator.own self.old ptr self.new }
        ensures linked { IsBinnedBy A.Links self.new }
        ensures counted { steps.new ≤ steps.old + 1024 + pass_steps (state_of A.word self.old) }
    {
        self.free_and_settle(ptr, steps);
    }

    /// Frees a block whose size is not given; does nothing if there is none (dlmalloc: `c_free`).
    pub fn c_free<L: Ledger>(&mut self, ptr: Option<u64>, steps: &mut Steps<L>)
        requires intact { IsIntactBy A.Links self.old }
        requires block { IfSome ptr (λ address. (size : ℕ) × IsBlock (state_of A.word self.old) address size) }
        ensures freed { IfSome ptr (λ address. IsFreedBy A.Links A.Allocator.own self.old address self.new) }
        ensures none { IfNone ptr (self.new ≡ self.old) }
        ensures intact { IsIntactBy A.Links self.new }
        ensures counted { steps.new ≤ steps.old + 1024 + pass_steps (state_of A.word self.old) }
    {
        if let Some(address) = ptr {
            self.free_and_settle(address, steps);
        }
    }

    /// Frees the chunk of a block of some size, and answers where the free chunk that it is then part of begins.
    pub(crate) fn free_block<L: Ledger>(&mut self, ptr: u64, steps: &mut Steps<L>) -> u64
        requires intact { IsIntactBy A.Links self.old }
        requires block { (size : ℕ) × IsBlock (state_of A.word self.old) ptr size }
        ensures freed { IsDisposed A.regions A.word A.follows self.old ptr self.new }
        ensures around { IsFreeAround (state_of A.word self.new) (ptr - 16) result }
        ensures linked { IsBinnedBy A.Links self.new }
        ensures counted { steps.new ≤ steps.old + 530 }
    {
        let at = ptr - BLOCK;
        let size = chunk::size(&self.system, at, steps);
        self.dispose_chunk(at, size, steps)
    }

    /// Frees a chunk in use, with the free chunks beside it: they become the top if it follows, else one free chunk,
    /// which is the victim if one of them was, and else goes into its bin. Answers where that begins.
    #[inline(always)]
    pub(crate) fn dispose_chunk<L: Ledger>(
        &mut self,
        at: u64,
        size: u64,
        steps: &mut Steps<L>,
    ) -> u64
        requires intact { IsIntactBy A.Links self.old }
        requires chunk { IsUsedAt (state_of A.word self.old) at size }
        ensures freed { IsChunkFreed (state_of A.word self.old) at (state_of A.word self.new) }
        ensures around { IsFreeAround (state_of A.word self.new) at result }
        ensures turned { TurnsInOrder A.regions A.word A.follows self.old self.new }
        ensures counted { steps.new ≤ steps.old + 529 }
    {
        let from = self.free_begin(at, steps);
        let to = self.free_end(at + size, steps);
        self.unbin_between(from, at, steps);
        self.unbin_between(at + size, to, steps);
        law_index_stays();
        self.join_free(at, size, from, to, steps);
        self.bin_joined(from, to, steps);
        from
    }

    /// Makes one free chunk of a chunk in use and of the free ones beside it, which reach from an address up to
    /// another: the top if it follows; else one that is the victim if one of them was. None of them is in a bin.
    #[inline(always)]
    fn join_free<L: Ledger>(&mut self, at: u64, size: u64, from: u64, to: u64, steps: &mut Steps<L>)
        requires sound { IsSoundBy A.Links self.old }
        requires chunk { IsUsedAt (state_of A.word self.old) at size }
        requires from { from ≡ (if pinuse_of (A.word self.old.system (at + 8)) then at else at - A.word self.old.system at) }
        requires to { to ≡ (if at + size == self.old.top then at + size else
            if free_of (A.word self.old.system (at + size + 8)) then at + size + size_of (A.word self.old.system (at + size + 8)) else at + size) }
        ensures freed { IsChunkFreed (state_of A.word self.old) at (state_of A.word self.new) }
        ensures around { IsFreeAround (state_of A.word self.new) at from }
        ensures joined { IsJoint (state_of A.word self.new) self.new.top from (to - from) }
        ensures victim { IsVictimAfter from to self.old.victim self.new.victim }
        ensures moves { MovesBesideBins A.regions A.word A.follows self.old (from ∷ (at + size) ∷ []) (from ∷ []) self.new }
        ensures counted { steps.new ≤ steps.old + 4 }
    {
        if to == self.top {
            self.top_size += to - from;
            self.top = from;
            self.system
                .store_counted(from + HEAD, self.top_size + PINUSE, steps);
            if from <= self.victim && self.victim < to {
                self.victim = 0;
                self.victim_size = 0;
            }
        } else {
            make_free(&mut self.system, from, to - from, to != at + size, steps);
            if from <= self.victim && self.victim < to {
                self.victim = from;
                self.victim_size = to - from;
            }
        }
    }

    /// Puts what chunks were joined to, from an address up to another, into its bin, unless it is the top or the victim.
    fn bin_joined<L: Ledger>(&mut self, from: u64, to: u64, steps: &mut Steps<L>)
        requires sound { IsSoundBy A.Links self.old }
        requires ordered { from ≤ to }
        requires joined { IsJoint (state_of A.word self.old) self.old.top from (to - from) }
        requires loose { IsBinnedBut (from ∷ []) A.regions A.word self.old }
        ensures binned { (before : IsBinnedBut (from ∷ []) A.regions A.word self.old) → (after : IsBinnedBy A.Links self.new) × IsAdded (to - from) from before.index after.index }
        ensures same { IsRebinned A.regions A.word A.follows self.old self.new }
        ensures counted { steps.new ≤ steps.old + 129 }
    {
        if from == self.top {
            return;
        }
        if from == self.victim {
            return;
        }
        self.bin(from, to - from, steps);
    }

    /// Where the free chunk before a chunk begins; the chunk's own address if none stands there.
    fn free_begin<L: Ledger>(&self, at: u64, steps: &mut Steps<L>) -> u64
        requires { CanLookBack (A.regions self.now.system) (A.word self.now.system) at }
        ensures value { result ≡ (if pinuse_of (A.word self.now.system (at + 8)) then at else at - A.word self.now.system at) }
        ensures counted { steps.new ≤ steps.old + 2 }
    {
        if chunk::pinuse(&self.system, at, steps) {
            at
        } else {
            chunk::prev(&self.system, at, steps)
        }
    }

    /// Where the free chunk at an address ends; the address itself if none stands there, and at the top.
    fn free_end<L: Ledger>(&self, at: u64, steps: &mut Steps<L>) -> u64
        requires head { HasHead (A.regions self.now.system) at }
        requires fits { at ≢ self.now.top → free_of (A.word self.now.system (at + 8)) ≡ true → at + size_of (A.word self.now.system (at + 8)) < 2 ^ 64 }
        ensures value { result ≡ (if at == self.now.top then at else
            if free_of (A.word self.now.system (at + 8)) then at + size_of (A.word self.now.system (at + 8)) else at) }
        ensures counted { steps.new ≤ steps.old + 2 }
    {
        if at == self.top || chunk::inuse(&self.system, at, steps) {
            at
        } else {
            chunk::next(&self.system, at, steps)
        }
    }
}

/// Makes a free chunk; the chunk before it is in use. The head of the chunk after it is changed to say so, if it does
/// not already.
fn make_free<M: Links, L: Ledger>(
    memory: &mut M,
    chunk: u64,
    size: u64,
    is_told: bool,
    steps: &mut Steps<L>,
)
    requires { CanHoldFree (M.regions memory.old) (M.word memory.old) chunk size is_told }
    ensures freed { StoresWords M.Links
        ((chunk + size + 8, without_pinuse (M.word memory.old (chunk + size + 8))) ∷ (chunk + 8, head_of size true false) ∷ (chunk + size, size) ∷ []) memory.old memory.new }
    ensures counted { steps.new ≤ steps.old + 4 }
{
    if is_told {
        chunk::set_size_and_pinuse_of_free_chunk(memory, chunk, size, steps);
    } else {
        chunk::set_free_with_pinuse(memory, chunk, size, chunk + size, steps);
    }
}
