// A grant that is put before a segment.
ghost use Rattle.std.specs.Prelude.{◌≡◌, ◌≢◌, ◌+◌, ◌-◌, ◌%◌, ◌^◌, ◌<◌, true, false, ◌&&◌, ◌==◌, [], None, Some, IfSome};
ghost use Rattle.std.specs.List.{list_any};
ghost use Rattle.heap_memory.specs.Regions.{IsWordOf};
ghost use Rattle.dlmalloc_chunks.specs.Head.{head_of};
ghost use Rattle.dlmalloc.specs.Granted.{is_before, is_put_before};
ghost use Rattle.dlmalloc.specs.Heap.{segments_of, IsSoundBy};
ghost use Rattle.dlmalloc.specs.Grown.{IsPutBefore, IsPrependedBesideBins};
ghost use Rattle.dlmalloc.specs.Prepended.{IsBehindAt, CanPutBefore};
ghost use Rattle.dlmalloc.specs.Stored.{KeepsWords, CanHoldTwo};
ghost use Rattle.dlmalloc.specs.Order.{KeepsBinsInOrder};
ghost use Rattle.dlmalloc.specs.Binned.{IsIntactBy};
ghost use Rattle.dlmalloc.specs.declared.prepend.Behind.TheVariants.{Head, Told};

use crate::grow::may_join;
use crate::heap::Dlmalloc;
use bins::laws::law_index_stays;
use dlmalloc_chunks::chunk;
use heap_memory::{Allocator, Grant, Links, Steps};
use std::sync::ledger::Ledger;

/// A segment that a grant is put before.
#[derive(Clone, Copy)]
pub(crate) enum Behind {
    /// The head segment.
    Head,
    /// The one whose record has its payload at this address.
    Told(u64),
}

impl<A: Allocator> Dlmalloc<A> {
    /// The segment, if there is one, that a grant is put before; a grant that makes the head segment longer is put
    /// before none.
    pub(crate) fn segment_behind<L: Ledger>(
        &self,
        grant: &Grant,
        steps: &mut Steps<L>,
    ) -> Option<Behind>
        requires sound { IsSoundBy A.Links self.now }
        requires high { grant.now.base + grant.now.size < 2 ^ 64 }
        ensures none { result ≡ None → is_put_before grant.now (segments_of A.word self.now) ≡ false }
        ensures some { IfSome result (λ behind. is_put_before grant.now (segments_of A.word self.now) ≡ true) }
        ensures found { IfSome result (λ behind. IsBehindAt A.word self.now grant.now behind) }
    {
        if self.size == 0 {
            None
        } else if self.is_behind(grant) {
            None
        } else {
            self.find_behind(grant, steps)
        }
    }

    /// The segment, if there is one, that begins where a grant ends and that the grant may join.
    fn find_behind<L: Ledger>(&self, grant: &Grant, steps: &mut Steps<L>) -> Option<Behind>
        requires sound { IsSoundBy A.Links self.now }
        requires there { 0 < self.now.size }
        requires high { grant.now.base + grant.now.size < 2 ^ 64 }
        ensures none { result ≡ None → list_any (is_before grant.now) (segments_of A.word self.now) ≡ false }
        ensures found { IfSome result (λ behind. IsBehindAt A.word self.now grant.now behind) }
    {
        if self.is_before_head(grant) {
            return Some(Behind::Head);
        }
        let mut payload = self.next;
        while payload != 0 {
            if self.is_before_told(payload, grant, steps) {
                return Some(Behind::Told(payload));
            }
            payload = self.system.load_counted(payload + 16, steps);
        }
        None
    }

    /// Whether a grant ends where the head segment begins, and may join it.
    fn is_before_head(&self, grant: &Grant) -> bool
        requires { grant.now.base + grant.now.size < 2 ^ 64 }
        ensures { result ≡ is_before grant.now (record { base = self.now.base; size = self.now.size; flags = self.now.flags; extents = [] }) }
    {
        self.base == grant.base + grant.size
            && may_join(u64::from(grant.flags), u64::from(self.flags))
    }

    /// The same for the segment whose record has its payload at an address.
    fn is_before_told<L: Ledger>(&self, payload: u64, grant: &Grant, steps: &mut Steps<L>) -> bool
        requires end { grant.now.base + grant.now.size < 2 ^ 64 }
        requires high { payload + 32 < 2 ^ 64 }
        requires base { IsWordOf (A.regions self.now.system) payload }
        requires flags { IsWordOf (A.regions self.now.system) (payload + 24) }
        ensures { result ≡ (A.word self.now.system payload == grant.now.base + grant.now.size
            && (grant.now.flags % 2 == 0 && grant.now.flags == A.word self.now.system (payload + 24))) }
    {
        let base = self.system.load_counted(payload, steps);
        let flags = self.system.load_counted(payload + 24, steps);
        base == grant.base + grant.size && may_join(u64::from(grant.flags), flags)
    }

    /// Puts a grant before a segment, and cuts a chunk of `n` bytes from its start. What is left of it is freed.
    pub(crate) fn put_before<L: Ledger>(
        &mut self,
        grant: &Grant,
        n: u64,
        behind: Behind,
        steps: &mut Steps<L>,
    )
        requires intact { IsIntactBy A.Links self.old }
        requires before { CanPutBefore A.Links self.old grant.now n behind }
        ensures put { IsPutBefore A.regions A.word A.follows self.old grant.now n self.new }
        ensures bins { KeepsBinsInOrder A.regions A.word self.old self.new }
    {
        law_index_stays();
        self.prepend(grant, n, behind, steps);
        self.dispose_chunk(grant.base + n, grant.size - n, steps);
    }

    /// Puts a grant before a segment, in two chunks that are in use.
    fn prepend<L: Ledger>(&mut self, grant: &Grant, n: u64, behind: Behind, steps: &mut Steps<L>)
        requires sound { IsSoundBy A.Links self.old }
        requires before { CanPutBefore A.Links self.old grant.now n behind }
        ensures put { IsPrependedBesideBins A.regions A.word A.follows self.old grant.now n self.new }
    {
        match behind {
            Behind::Head => self.prepend_head(grant, n, steps),
            Behind::Told(payload) => self.prepend_told(payload, grant, n, steps),
        }
    }

    /// Puts a grant before the head segment, in two chunks that are in use.
    fn prepend_head<L: Ledger>(&mut self, grant: &Grant, n: u64, steps: &mut Steps<L>)
        requires sound { IsSoundBy A.Links self.old }
        requires before { CanPutBefore A.Links self.old grant.now n Head }
        ensures put { IsPrependedBesideBins A.regions A.word A.follows self.old grant.now n self.new }
    {
        self.base = grant.base;
        self.size += grant.size;
        put_two(&mut self.system, grant.base, n, grant.size - n, steps);
    }

    /// Puts a grant before the segment that a record describes, in two chunks that are in use.
    fn prepend_told<L: Ledger>(&mut self, payload: u64, grant: &Grant, n: u64, steps: &mut Steps<L>)
        requires sound { IsSoundBy A.Links self.old }
        requires before { CanPutBefore A.Links self.old grant.now n (Told payload) }
        ensures put { IsPrependedBesideBins A.regions A.word A.follows self.old grant.now n self.new }
    {
        let size = self.system.load_counted(payload + 8, steps);
        self.system.store_counted(payload, grant.base, steps);
        self.system
            .store_counted(payload + 8, grant.size + size, steps);
        put_two(&mut self.system, grant.base, n, grant.size - n, steps);
    }
}

/// Puts the heads of two chunks in use, one after the other, at the beginning of a segment.
fn put_two<M: Links, L: Ledger>(
    memory: &mut M,
    at: u64,
    first: u64,
    second: u64,
    steps: &mut Steps<L>,
)
    requires { CanHoldTwo (M.regions memory.old) at first second }
    ensures first { M.word memory.new (at + 8) ≡ head_of first true true }
    ensures second { M.word memory.new (at + first + 8) ≡ head_of second true true }
    ensures rest { KeepsWords M.Links (λ k. (k ≢ at + 8) × (k ≢ at + first + 8)) memory.old memory.new }
{
    chunk::set_size_and_pinuse_of_inuse_chunk(memory, at, first, steps);
    chunk::set_size_and_pinuse_of_inuse_chunk(memory, at + first, second, steps);
}
