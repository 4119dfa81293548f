// Giving whole segments back to the system.
ghost use Rattle.std.specs.Prelude.{◌≡◌, ◌≢◌, ℕ, ◌+◌, ◌-◌, ◌%◌, ◌^◌, ◌<◌, ◌≤◌, true, false, ◌&&◌, ◌==◌, max, if◌then◌else◌, filter, [], ◌∷◌};
ghost use Rattle.heap_memory.specs.Regions.{IsWordOf};
ghost use Rattle.heap_memory.specs.Runs.{IsRun};
ghost use Rattle.dlmalloc_chunks.specs.Chunk.{HasHead};
ghost use Rattle.dlmalloc_chunks.specs.Head.{size_of, free_of};
ghost use Rattle.dlmalloc.specs.Heap.{state_of, segments_of, IsSoundBy};
ghost use Rattle.dlmalloc.specs.State.{countdown_from};
ghost use Rattle.dlmalloc.specs.Stored.{KeepsWords, HasPayload};
ghost use Rattle.dlmalloc.specs.Released.{is_own, may_leave, taken_back, IsFreeAround, is_counted};
ghost use Rattle.dlmalloc.specs.Chained.{IsChained, IsVisited};
ghost use Rattle.dlmalloc.specs.Binned.{IsBinnedBy, IsIntactBy, FreeMoves};
ghost use Rattle.dlmalloc.specs.Boundaries.{IsInRecord};
ghost use Rattle.dlmalloc.specs.Order.{after_visit, IsReindexed};
ghost use Rattle.dlmalloc.specs.GivenBack.{IsPassed, IsCounted, AreGivenBack, told_of};
ghost use Rattle.dlmalloc.specs.Counts.{pass_steps};

use crate::heap::{Dlmalloc, countdown_from};
use crate::layout::{FOOT, LEAST_LARGE};
use crate::record::SegmentRecord;
use bins::laws::law_index_stays;
use dlmalloc_chunks::chunk;
use heap_memory::{Allocator, Links, Steps};
use std::sync::ledger::Ledger;

/// The flags of a segment are below this number.
const FLAGS: u64 = 1 << 32;

/// What the record whose payload begins at an address says.
fn record_at<M: Links, L: Ledger>(memory: &M, payload: u64, steps: &mut Steps<L>) -> SegmentRecord
    requires { HasPayload (M.regions memory.now) payload }
    ensures told { result ≡ record { base = M.word memory.now payload; size = M.word memory.now (payload + 8); next = M.word memory.now (payload + 16); flags = M.word memory.now (payload + 24) % 2 ^ 32 } }
    ensures counted { steps.new ≡ steps.old + 4 }
{
    SegmentRecord {
        base: memory.load_counted(payload, steps),
        size: memory.load_counted(payload + 8, steps),
        next: memory.load_counted(payload + 16, steps),
        flags: (memory.load_counted(payload + 24, steps) % FLAGS) as u32,
    }
}

/// Hands a segment to the system, unless it is extern, and answers the bytes that it took.
fn give_back<A: Allocator>(system: &mut A, told: &SegmentRecord) -> u64
    requires run { IsRun (A.regions system.old) told.now.base (told.now.base + told.now.size) }
    ensures { AreGivenBack A.regions A.word A.follows (taken_back (A.frees system.old) (filter is_own (told_of told.now ∷ []))) system.old result system.new }
{
    if told.flags % 2 == 0 && system.free(told.base, told.size) {
        told.size
    } else {
        0
    }
}

impl<A: Allocator> Dlmalloc<A> {
    /// Hands all segments but extern ones to the system, and answers the bytes of those that it took, and the system (dlmalloc:
    /// `Dlmalloc::destroy`).
    pub fn destroy<L: Ledger>(self, steps: &mut Steps<L>) -> (u64, A)
        requires sound { IsSoundBy A.Links self }
        ensures { AreGivenBack A.regions A.word A.follows (taken_back (A.frees self.system) (filter is_own (segments_of A.word self))) self.system result.0 result.1 }
    {
        if self.size == 0 {
            return (0, self.system);
        }
        let head = self.head_record();
        let mut system = self.system;
        let mut released = give_back(&mut system, &head);
        let mut payload = head.next;
        while payload != 0 {
            let told = record_at(&system, payload, steps);
            released += give_back(&mut system, &told);
            payload = told.next;
        }
        (released, system)
    }

    /// Hands to the system each segment after the head that is free up to its record and is the heap's to give back. It
    /// answers the bytes of those that the system took (dlmalloc: `release_unused_segments`).
    pub(crate) fn release_unused_segments<L: Ledger>(&mut self, steps: &mut Steps<L>) -> u64
        requires intact { IsIntactBy A.Links self.old }
        requires there { 0 < self.old.size }
        ensures passed { IsPassed A.regions A.word A.follows (A.frees self.old.system) (A.parts self.old.system) self.old result self.new }
        ensures linked { IsBinnedBy A.Links self.new }
        ensures counted { steps.new ≤ steps.old + pass_steps (state_of A.word self.old) }
    {
        let mut released = 0;
        let mut visited = 0;
        let mut before = 0;
        let mut payload = self.next;
        while payload != 0 {
            let told = record_at(&self.system, payload, steps);
            if self.release_segment(before, &told, steps) {
                released += told.size;
            } else {
                before = payload;
            }
            visited += 1;
            payload = told.next;
        }
        self.begin_countdown(visited);
        released
    }

    /// Counts a freed chunk, given the address of the free chunk that it became part of: if that is large and in a bin,
    /// the countdown falls by one, and at 0 a release pass is made (dlmalloc: `Dlmalloc::free`).
    pub(crate) fn count_free<L: Ledger>(&mut self, chunk: u64, steps: &mut Steps<L>)
        requires intact { IsIntactBy A.Links self.old }
        requires free { (at : ℕ) × IsFreeAround (state_of A.word self.old) at chunk }
        ensures linked { IsBinnedBy A.Links self.new }
        ensures counted { (at : ℕ) → IsFreeAround (state_of A.word self.old) at chunk → IsCounted A.regions A.word A.follows (A.frees self.old.system) (A.parts self.old.system) self.old at self.new }
        ensures bounded { steps.new ≤ steps.old + 1 + pass_steps (state_of A.word self.old) }
    {
        if !self.is_counted(chunk, steps) {
            return;
        }
        if self.countdown > 1 {
            self.countdown -= 1;
            return;
        }
        self.release_unused_segments(steps);
    }

    /// Whether a free chunk is large and in a bin.
    fn is_counted<L: Ledger>(&self, chunk: u64, steps: &mut Steps<L>) -> bool
        requires sound { IsSoundBy A.Links self.now }
        requires free { (at : ℕ) × IsFreeAround (state_of A.word self.now) at chunk }
        ensures told { (at : ℕ) → IsFreeAround (state_of A.word self.now) at chunk → result ≡ is_counted (state_of A.word self.now) at }
        ensures counted { steps.new ≤ steps.old + 1 }
    {
        if chunk == self.top {
            return false;
        }
        if chunk == self.victim {
            return false;
        }
        chunk::size(&self.system, chunk, steps) >= LEAST_LARGE
    }

    /// Begins the countdown anew, once `visited` segments were visited.
    fn begin_countdown(&mut self, visited: u64)
        ensures { self.new ≡ record self.old { countdown = max visited (countdown_from self.old.rate) } }
    {
        self.countdown = visited.max(countdown_from(self.rate));
    }

    /// Hands the segment that a record describes to the system, if it may leave. True if it left. The record before it
    /// is that whose payload begins at `before`; with 0 there is none, and the head's field names it. The segment's
    /// first chunk leaves its bin for that, and if the system does not take the segment, goes back into it as the
    /// newest.
    fn release_segment<L: Ledger>(
        &mut self,
        before: u64,
        told: &SegmentRecord,
        steps: &mut Steps<L>,
    ) -> bool
        requires intact { IsIntactBy A.Links self.old }
        requires there { 0 < self.old.size }
        requires chained { IsChained A.word self.old before told.now }
        ensures answer { (c : IsChained A.word self.old before told.now) → result ≡ (A.frees self.old.system && may_leave (A.parts self.old.system) c.segment) }
        ensures visited { (c : IsChained A.word self.old before told.now) → IsVisited A.regions A.word A.follows (may_leave (A.parts self.old.system) c.segment) result self.old before told.now c self.new }
        ensures linked { IsBinnedBy A.Links self.new }
        ensures index { (c : IsChained A.word self.old before told.now) → IsReindexed A.regions A.word (after_visit (A.frees self.old.system) (A.parts self.old.system) c.segment) self.old self.new }
        ensures counted { steps.new ≤ steps.old + 328 }
    {
        if !self.may_leave(told, steps) {
            return false;
        }
        let size = told.size - FOOT;
        self.unbin(told.base, size, steps);
        law_index_stays();
        if self.hand_out(before, told, steps) {
            return true;
        }
        self.bin(told.base, size, steps);
        false
    }

    /// Hands the segment that a record describes to the system. It may leave, and its first chunk is in no bin. True if
    /// it left; if the victim was in it, that is forgotten in any case.
    fn hand_out<L: Ledger>(
        &mut self,
        before: u64,
        told: &SegmentRecord,
        steps: &mut Steps<L>,
    ) -> bool
        requires sound { IsSoundBy A.Links self.old }
        requires there { 0 < self.old.size }
        requires chained { IsChained A.word self.old before told.now }
        requires may { (c : IsChained A.word self.old before told.now) → may_leave (A.parts self.old.system) c.segment ≡ true }
        ensures answer { result ≡ A.frees self.old.system }
        ensures visited { (c : IsChained A.word self.old before told.now) → IsVisited A.regions A.word A.follows true result self.old before told.now c self.new }
        ensures free { FreeMoves (state_of A.word self.old) (state_of A.word self.new) (if result then told.now.base ∷ [] else []) [] }
        ensures words { (k : ℕ) → IsWordOf (A.regions self.new.system) k → (IsInRecord (state_of A.word self.old) k → ⊥) → A.word self.new.system k ≡ A.word self.old.system k }
        ensures bins { self.new.bins ≡ self.old.bins }
        ensures counted { steps.new ≤ steps.old + 1 }
    {
        self.forget(told.base);
        if !self.system.free(told.base, told.size) {
            return false;
        }
        self.set_next(before, told.next, steps);
        true
    }

    /// Whether a segment may be handed to the system: it is not extern, its first chunk is free, and that ends 80 bytes
    /// before the segment does.
    fn may_leave<L: Ledger>(&self, told: &SegmentRecord, steps: &mut Steps<L>) -> bool
        requires head { HasHead (A.regions self.now.system) told.now.base }
        requires long { 96 < told.now.size }
        ensures told { result ≡ (told.now.flags % 2 == 0 && (A.parts self.now.system
            && (free_of (A.word self.now.system (told.now.base + 8)) && size_of (A.word self.now.system (told.now.base + 8)) == told.now.size - 80))) }
        ensures counted { steps.new ≤ steps.old + 2 }
    {
        told.flags % 2 == 0
            && self.system.can_release_part(told.flags >> 1)
            && !chunk::inuse(&self.system, told.base, steps)
            && chunk::size(&self.system, told.base, steps) == told.size - FOOT
    }

    /// The victim is forgotten, if it begins at an address.
    fn forget(&mut self, at: u64)
        ensures { self.new ≡ record self.old { victim = if at == self.old.victim then 0 else self.old.victim; victim_size = if at == self.old.victim then 0 else self.old.victim_size } }
    {
        if at == self.victim {
            self.victim = 0;
            self.victim_size = 0;
        }
    }

    /// Names the next record: in the one whose payload begins at `before`, or with 0 in the head's field.
    fn set_next<L: Ledger>(&mut self, before: u64, next: u64, steps: &mut Steps<L>)
        requires high { before + 32 < 2 ^ 64 }
        requires word { before ≢ 0 → IsWordOf (A.regions self.old.system) (before + 16) }
        ensures fields { self.new ≡ record self.old { system = self.new.system; next = if before == 0 then next else self.old.next } }
        ensures here { before ≢ 0 → A.word self.new.system (before + 16) ≡ next }
        ensures rest { KeepsWords A.Links (λ k. before ≢ 0 → k ≢ before + 16) self.old.system self.new.system }
        ensures counted { steps.new ≤ steps.old + 1 }
    {
        if before == 0 {
            self.next = next;
        } else {
            self.system.store_counted(before + 16, next, steps);
        }
    }

    /// What the fields say of the head segment.
    fn head_record(&self) -> SegmentRecord
        ensures { result ≡ record { base = self.now.base; size = self.now.size; next = self.now.next; flags = self.now.flags } }
    {
        SegmentRecord {
            base: self.base,
            size: self.size,
            next: self.next,
            flags: self.flags,
        }
    }
}
