// Giving the end of the top back to the system.
ghost use Rattle.std.specs.Prelude.{◌≡◌, ◌+◌, ◌-◌, ◌%◌, ◌^◌, ◌<◌, ◌≤◌, true, false, nat_lt, if◌then◌else◌, []};
ghost use Rattle.heap_memory.specs.Runs.{is_in_units};
ghost use Rattle.dlmalloc.specs.Trimmed.{cut_of, may_go, is_cut};
ghost use Rattle.dlmalloc.specs.Shortened.{IsShortened, IsCutBack, IsTrimmedBy};
ghost use Rattle.dlmalloc.specs.Order.{KeepsIndex};
ghost use Rattle.dlmalloc.specs.Binned.{IsBinnedBy, IsIntactBy};
ghost use Rattle.dlmalloc.specs.Counts.{pass_steps};
ghost use Rattle.dlmalloc.specs.Heap.{state_of, IsSoundBy};

use crate::heap::Dlmalloc;
use crate::layout::{FOOT, TRIM_THRESHOLD};
use bins::laws::law_index_stays;
use dlmalloc_chunks::max_request;
use heap_memory::{Allocator, Steps};
use std::sync::ledger::Ledger;

impl<A: Allocator> Dlmalloc<A> {
    /// Gives memory that no block needs back to the system (dlmalloc: `Dlmalloc::trim`). As many granularities are cut
    /// off the top as leave it more than `pad` bytes besides its foot, if the system takes them, and each other segment
    /// that is not in use goes back. A segment whose record has 96 bytes stays. True exactly if bytes went back. If
    /// `pad` is too large for a request, or there is no segment, nothing is done. At most 2 words are loaded or stored
    /// besides those of the release pass, 512 for each segment.
    pub fn trim<L: Ledger>(&mut self, pad: u64, steps: &mut Steps<L>) -> bool
        requires intact { IsIntactBy A.Links self.old }
        ensures trimmed { IsTrimmedBy A.Links A.Allocator.own self.old pad result self.new }
        ensures linked { IsBinnedBy A.Links self.new }
        ensures counted { steps.new ≤ steps.old + 2 + pass_steps (state_of A.word self.old) }
    {
        if pad >= max_request(self.granularity) || self.size == 0 {
            return false;
        }
        let is_cut = self.trim_top(pad, steps);
        let released = self.release_unused_segments(steps);
        if is_cut || released > 0 {
            return true;
        }
        self.give_up();
        false
    }

    /// Makes sure that a top above the trim check is not tried again until it is another, longer or cut.
    fn give_up(&mut self)
        ensures { self.new ≡ record self.old { trim_check = if nat_lt self.old.trim_check self.old.top_size then 2 ^ 64 - 1 else self.old.trim_check } }
    {
        if self.top_size > self.trim_check {
            self.trim_check = u64::MAX;
        }
    }

    /// Cuts the top as a trim does. True exactly if bytes went back.
    fn trim_top<L: Ledger>(&mut self, pad: u64, steps: &mut Steps<L>) -> bool
        requires intact { IsIntactBy A.Links self.old }
        requires there { 0 < self.old.size }
        requires small { pad + 81 < 2 ^ 64 }
        ensures answer { result ≡ is_cut (A.parts self.old.system) (A.unit self.old.system) pad (state_of A.word self.old) }
        ensures cut { IsCutBack A.regions A.word A.follows (A.parts self.old.system) (A.unit self.old.system) self.old pad self.new }
        ensures there { 0 < self.new.size }
        ensures linked { IsBinnedBy A.Links self.new }
        ensures index { KeepsIndex A.regions A.word self.old self.new }
        ensures counted { steps.new ≤ steps.old + 2 }
    {
        law_index_stays();
        let cut = self.spare(pad);
        self.may_cut(cut) && self.cut_top(cut, steps)
    }

    /// The whole granularities at the end of the top without which it has more than `pad` bytes besides its foot.
    fn spare(&self, pad: u64) -> u64
        requires sound { IsSoundBy A.Links self.now }
        requires there { 0 < self.now.size }
        requires small { pad + 81 < 2 ^ 64 }
        ensures is { result ≡ cut_of (state_of A.word self.now) pad }
        ensures whole { result % 16 ≡ 0 }
        ensures room { 0 < result → result + 80 < self.now.top_size }
    {
        self.top_size.saturating_sub(pad + FOOT + 1) / self.granularity * self.granularity
    }

    /// Whether the system may be asked for the last `cut` bytes of the head segment.
    fn may_cut(&self, cut: u64) -> bool
        ensures { result ≡ may_go (A.parts self.now.system) cut (record { base = self.now.base; size = self.now.size; flags = self.now.flags; extents = [] }) }
    {
        cut > 0 && self.flags % 2 == 0 && self.system.can_release_part(self.flags >> 1)
    }

    /// Gives the last `cut` bytes of the head segment back, of which the top keeps more than 80. True exactly if the
    /// system takes them; false changes nothing.
    fn cut_top<L: Ledger>(&mut self, cut: u64, steps: &mut Steps<L>) -> bool
        requires sound { IsSoundBy A.Links self.old }
        requires there { 0 < self.old.size }
        requires whole { cut % 16 ≡ 0 }
        requires room { cut + 80 < self.old.top_size }
        ensures answer { result ≡ is_in_units (A.unit self.old.system) (self.old.size - cut) }
        ensures cut { result ≡ true → IsShortened A.regions A.word A.follows self.old cut self.new }
        ensures there { 0 < self.new.size }
        ensures same { result ≡ false → self.new ≡ self.old }
        ensures counted { steps.new ≤ steps.old + 2 }
    {
        let size = self.size - cut;
        if !self.system.free_part(self.base, self.size, size) {
            return false;
        }
        self.size = size;
        self.trim_check = TRIM_THRESHOLD;
        self.close_top(steps);
        true
    }
}
