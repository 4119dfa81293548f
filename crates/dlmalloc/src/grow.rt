// Asking the system for a region, and what becomes of it.
ghost use Rattle.std.specs.Prelude.{◌≡◌, ◌+◌, ◌-◌, ◌%◌, ◌^◌, ◌<◌, ◌≤◌, true, false, ◌&&◌, ◌==◌, nat_le, nat_lt, if◌then◌else◌, [], ◌∷◌, None, Some, IfOk, IfErr};
ghost use Rattle.dlmalloc_chunks.specs.Request.{round_up};
ghost use Rattle.heap_memory.specs.Events.{Refused};
ghost use Rattle.dlmalloc_chunks.specs.Chunk.{HasFoot};
ghost use Rattle.dlmalloc.specs.State.{trim_threshold};
ghost use Rattle.dlmalloc.specs.Granted.{is_behind, is_put_before};
ghost use Rattle.dlmalloc.specs.Served.{IsCutOut, IsDenied};
ghost use Rattle.dlmalloc.specs.Heap.{state_of, segments_of, IsSoundBy, IsGranularity};
ghost use Rattle.dlmalloc.specs.Grown.{IsFreshGrant, IsNewSegment, MustGrow, IsGrantJoined, IsAsItWas, IsAdmittedBesideBins};
ghost use Rattle.dlmalloc.specs.Stored.{KeepsWords, HasRoomForTop, IsTopClosed};
ghost use Rattle.dlmalloc.specs.Order.{KeepsBinsInOrder};
ghost use Rattle.dlmalloc.specs.Binned.{IsFreeAt, IsIntactBy};

use crate::heap::{Dlmalloc, countdown_from};
use crate::layout::{BLOCK, FOOT, HEAD, LEAST_CHUNK, OVERHEAD, PINUSE, TRIM_THRESHOLD};
use crate::record::{SegmentRecord, put_record};
use bins::laws::law_index_stays;
use dlmalloc_chunks::chunk;
use heap_memory::{Allocator, Grant, GrantFault, Steps};
use std::sync::ledger::Ledger;

impl<A: Allocator> Dlmalloc<A> {
    /// How many bytes the system is asked for, so that a chunk of `n` bytes can be cut from the top that they make.
    #[tactic(auto, using(crate::proofs::Requests::Granularity::asked_whole))]
    fn asked(&self, n: u64) -> u64
        requires granularity { IsGranularity self.now.granularity }
        requires small { n + 96 + self.now.granularity ≤ 2 ^ 64 }
        ensures asked { result ≡ round_up (n + 96) self.now.granularity }
        ensures whole { result % 16 ≡ 0 }
        ensures enough { n + 96 ≤ result }
    {
        (n + OVERHEAD + (self.granularity - 1)) / self.granularity * self.granularity
    }

    /// Cuts a chunk of `n` bytes from a new region, since no free extent serves, and answers where it begins. If the
    /// region is put before a segment, the chunk is cut from its start; else the region becomes part of the top or the
    /// new head segment, and the chunk is cut from the top. An `Err` leaves the heap as it was.
    #[inline(never)]
    pub(crate) fn cut_new<L: Ledger>(
        &mut self,
        n: u64,
        steps: &mut Steps<L>,
    ) -> Result<u64, GrantFault>
        requires { MustGrow A.Links self.old n }
        ensures cut { IfOk result (λ at. IsCutOut A.regions A.word A.zeros A.follows self.old n at self.new) }
        ensures denied { IfErr result (λ fault. IsDenied A.denies self.old.system (state_of A.word self.old) n fault) }
        ensures err { IfErr result (λ fault. IsAsItWas A.regions A.word A.follows A.refuses (Refused (round_up (n + 96) self.old.granularity) fault ∷ []) self.old self.new) }
        ensures bins { KeepsBinsInOrder A.regions A.word self.old self.new }
        ensures refused_counted { IfErr result (λ fault. steps.new ≡ steps.old) }
    {
        let asked = self.asked(n);
        law_index_stays();
        let grant = self.system.alloc(asked)?;
        match self.segment_behind(&grant, steps) {
            Some(behind) => {
                self.put_before(&grant, n, behind, steps);
                Ok(grant.base)
            }
            None => {
                self.join(&grant, steps);
                law_index_stays();
                Ok(self.take_top(n, steps))
            }
        }
    }

    /// Makes a grant part of the heap. It is put before no segment.
    fn join<L: Ledger>(&mut self, grant: &Grant, steps: &mut Steps<L>)
        requires intact { IsIntactBy A.Links self.old }
        requires fresh { IsFreshGrant (A.regions self.old.system) (segments_of A.word self.old) grant.now }
        requires apart { is_put_before grant.now (segments_of A.word self.old) ≡ false }
        ensures joined { IsGrantJoined A.regions A.word A.follows self.old grant.now self.new }
        ensures bins { KeepsBinsInOrder A.regions A.word self.old self.new }
    {
        law_index_stays();
        if self.size == 0 {
            self.open(grant, steps);
        } else if self.is_behind(grant) {
            self.extend(grant, steps);
        } else {
            self.add_segment(grant, steps);
        }
    }

    /// Whether a grant begins at the end of the head segment, and may become part of it.
    pub(crate) fn is_behind(&self, grant: &Grant) -> bool
        requires { self.now.base + self.now.size < 2 ^ 64 }
        ensures { result ≡ is_behind grant.now (record { base = self.now.base; size = self.now.size; flags = self.now.flags; extents = [] }) }
    {
        grant.base == self.base + self.size
            && may_join(u64::from(grant.flags), u64::from(self.flags))
    }

    /// Makes a grant the head segment, if there is no segment.
    fn open<L: Ledger>(&mut self, grant: &Grant, steps: &mut Steps<L>)
        requires sound { IsSoundBy A.Links self.old }
        requires none { self.old.size ≡ 0 }
        requires fresh { IsFreshGrant (A.regions self.old.system) (segments_of A.word self.old) grant.now }
        ensures admitted { IsAdmittedBesideBins A.regions A.word A.follows self.old grant.now [] self.new }
    {
        self.next = 0;
        self.countdown = countdown_from(self.rate);
        self.make_head(grant, steps);
    }

    /// Makes the top longer by a grant at the end of the head segment.
    fn extend<L: Ledger>(&mut self, grant: &Grant, steps: &mut Steps<L>)
        requires sound { IsSoundBy A.Links self.old }
        requires there { 0 < self.old.size }
        requires fresh { IsFreshGrant (A.regions self.old.system) (segments_of A.word self.old) grant.now }
        requires behind { is_behind grant.now (record { base = self.old.base; size = self.old.size; flags = self.old.flags; extents = [] }) ≡ true }
        ensures admitted { IsAdmittedBesideBins A.regions A.word A.follows self.old grant.now [] self.new }
    {
        self.size += grant.size;
        self.trim_check = TRIM_THRESHOLD;
        self.close_top(steps);
    }

    /// Makes a grant the head segment. What was the top is freed, and goes into its bin, and a record after it
    /// describes the segment that it is in.
    fn add_segment<L: Ledger>(&mut self, grant: &Grant, steps: &mut Steps<L>)
        requires intact { IsIntactBy A.Links self.old }
        requires segment { IsNewSegment A.Links self.old grant.now }
        ensures joined { IsGrantJoined A.regions A.word A.follows self.old grant.now self.new }
        ensures bins { KeepsBinsInOrder A.regions A.word self.old self.new }
    {
        let top = self.top;
        let top_size = self.top_size;
        law_index_stays();
        self.change_head(grant, steps);
        if top_size < LEAST_CHUNK {
            return;
        }
        self.bin(top, top_size, steps);
    }

    /// Makes a grant the head segment. What was the top is freed, and a record after it describes the segment that it
    /// is in.
    fn change_head<L: Ledger>(&mut self, grant: &Grant, steps: &mut Steps<L>)
        requires sound { IsSoundBy A.Links self.old }
        requires segment { IsNewSegment A.Links self.old grant.now }
        ensures admitted { IsAdmittedBesideBins A.regions A.word A.follows self.old grant.now (if nat_le 32 self.old.top_size then self.old.top ∷ [] else []) self.new }
        ensures rest { 32 ≤ self.old.top_size → IsFreeAt (state_of A.word self.new) self.old.top self.old.top_size }
    {
        let record = self.leave_top(steps);
        let told = SegmentRecord {
            base: self.base,
            size: self.size,
            next: self.next,
            flags: self.flags,
        };
        let end = self.base + self.size;
        put_record(
            &mut self.system,
            record,
            end,
            record == self.top,
            &told,
            steps,
        );
        self.next = record + BLOCK;
        self.make_head(grant, steps);
    }

    /// Leaves the top as a free chunk, or to the record if it has only 16 bytes, and answers where the record begins.
    fn leave_top<L: Ledger>(&mut self, steps: &mut Steps<L>) -> u64
        requires foot { HasFoot (A.regions self.old.system) (self.old.top + self.old.top_size) }
        ensures place { result ≡ (if nat_lt self.old.top_size 32 then self.old.top else self.old.top + self.old.top_size) }
        ensures fields { self.new ≡ record self.old { system = self.new.system } }
        ensures foot { 32 ≤ self.old.top_size → A.word self.new.system (self.old.top + self.old.top_size) ≡ self.old.top_size }
        ensures rest { KeepsWords A.Links (λ k. k ≡ self.old.top + self.old.top_size → self.old.top_size < 32) self.old.system self.new.system }
    {
        if self.top_size < LEAST_CHUNK {
            self.top
        } else {
            chunk::set_foot(&mut self.system, self.top, self.top_size, steps);
            self.top + self.top_size
        }
    }

    /// Makes a grant the head segment, and all of it the top.
    fn make_head<L: Ledger>(&mut self, grant: &Grant, steps: &mut Steps<L>)
        requires { HasRoomForTop (A.regions self.old.system) grant.now.base grant.now.size grant.now.base }
        ensures fields { self.new ≡ record self.old { system = self.new.system; base = grant.now.base; size = grant.now.size; flags = grant.now.flags; top = grant.now.base; top_size = grant.now.base + grant.now.size - 80 - grant.now.base; trim_check = trim_threshold } }
        ensures closed { IsTopClosed A.Links grant.now.base (grant.now.base + grant.now.size) self.old.system self.new.system }
    {
        self.base = grant.base;
        self.size = grant.size;
        self.flags = grant.flags;
        self.top = grant.base;
        self.trim_check = TRIM_THRESHOLD;
        self.close_top(steps);
    }

    /// Writes the heads of the top and of its foot, if the top reaches up to the foot at the segment's end.
    pub(crate) fn close_top<L: Ledger>(&mut self, steps: &mut Steps<L>)
        requires { HasRoomForTop (A.regions self.old.system) self.old.base self.old.size self.old.top }
        ensures fields { self.new ≡ record self.old { system = self.new.system; top_size = self.old.base + self.old.size - 80 - self.old.top } }
        ensures closed { IsTopClosed A.Links self.old.top (self.old.base + self.old.size) self.old.system self.new.system }
        ensures counted { steps.new ≡ steps.old + 2 }
    {
        let foot = self.base + self.size - FOOT;
        self.top_size = foot - self.top;
        self.system
            .store_counted(self.top + HEAD, self.top_size + PINUSE, steps);
        self.system.store_counted(foot + HEAD, FOOT, steps);
    }
}

/// Whether a grant and a segment with these flags may become one: neither is extern, and the flags are equal.
pub(crate) fn may_join(grant: u64, segment: u64) -> bool
    ensures { result ≡ (grant % 2 == 0 && grant == segment) }
{
    grant % 2 == 0 && grant == segment
}
