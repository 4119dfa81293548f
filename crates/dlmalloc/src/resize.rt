// Resizing a chunk where it stands.
ghost use Rattle.std.specs.Prelude.{◌≡◌, ℕ, ◌+◌, ◌<◌, ◌≤◌, true, false, None, Some};
ghost use Rattle.dlmalloc_chunks.specs.declared.extent.Kind.TheVariants.{Used, Free};
ghost use Rattle.dlmalloc.specs.Resized.{grown_into, in_place, HasSameOthers, CanTakeFree};
ghost use Rattle.dlmalloc.specs.Heap.{state_of, IsSoundBy};
ghost use Rattle.dlmalloc.specs.OneChunk.{IsUsedAt, CanResize, IsPartJoined, CanTakeOfTop, TakesOfTop, ResizesOne};
ghost use Rattle.dlmalloc.specs.Order.{TurnsInOrder};
ghost use Rattle.dlmalloc.specs.Binned.{IsIntactBy};

use crate::heap::Dlmalloc;
use crate::layout::{HEAD, LEAST_CHUNK, PINUSE};
use bins::laws::law_index_stays;
use dlmalloc_chunks::chunk;
use heap_memory::{Allocator, Links, Steps};
use std::sync::ledger::Ledger;

impl<A: Allocator> Dlmalloc<A> {
    /// Gives a chunk in use a size of `n` bytes where it stands: it keeps them if it has them, and else takes in the
    /// free chunk after it, if both have room for them (dlmalloc: `try_realloc_chunk`). False if neither fits; then
    /// nothing is changed.
    pub(crate) fn resize_chunk<L: Ledger>(&mut self, at: u64, n: u64, steps: &mut Steps<L>) -> bool
        requires { CanResize A.Links self.old at n }
        ensures resized { result ≡ true → in_place (state_of A.word self.old) at n ≡ Some (state_of A.word self.new) }
        ensures held { result ≡ true → (size : ℕ) × IsUsedAt (state_of A.word self.new) at size × (n ≤ size) × (size < n + 32) }
        ensures others { HasSameOthers (state_of A.word self.old) (state_of A.word self.new) at at }
        ensures turned { TurnsInOrder A.regions A.word A.follows self.old self.new }
        ensures none { result ≡ false → in_place (state_of A.word self.old) at n ≡ None }
        ensures same { result ≡ false → self.new ≡ self.old }
        ensures counted { steps.new ≤ steps.old + 535 }
        ensures none_counted { result ≡ false → steps.new ≤ steps.old + 3 }
    {
        let size = chunk::size(&self.system, at, steps);
        if n <= size {
            if size - n >= LEAST_CHUNK {
                self.free_tail(at, size, n, steps);
            }
            return true;
        }
        let next = at + size;
        let more = n - size;
        if next == self.top {
            if more >= self.top_size {
                return false;
            }
            law_index_stays();
            self.grow_into_top(at, size, n, steps);
            return true;
        }
        if chunk::inuse(&self.system, next, steps) {
            return false;
        }
        let free = chunk::size(&self.system, next, steps);
        if free < more {
            return false;
        }
        self.grow_into_free(at, size, free, n, steps);
        true
    }

    /// Takes bytes of the top into the chunk before it. The top keeps a rest.
    fn grow_into_top<L: Ledger>(&mut self, at: u64, size: u64, n: u64, steps: &mut Steps<L>)
        requires sound { IsSoundBy A.Links self.old }
        requires take { CanTakeOfTop A.word self.old at size n }
        ensures grown { TakesOfTop A.Links self.old at size n self.new }
        ensures counted { steps.new ≡ steps.old + 5 }
    {
        self.top = at + n;
        self.top_size -= n - size;
        chunk::set_inuse(&mut self.system, at, n, steps);
        self.system
            .store_counted(self.top + HEAD, self.top_size + PINUSE, steps);
    }

    /// Takes bytes of a free chunk into the chunk before it. A rest of less than 32 bytes goes with them; any other
    /// stays free: it is the victim if the free chunk was, and else goes into its bin.
    fn grow_into_free<L: Ledger>(
        &mut self,
        at: u64,
        size: u64,
        free: u64,
        n: u64,
        steps: &mut Steps<L>,
    )
        requires intact { IsIntactBy A.Links self.old }
        requires take { CanTakeFree (state_of A.word self.old) at size free n }
        ensures state { state_of A.word self.new ≡ grown_into (state_of A.word self.old) (record { at = at; size = size; kind = Used }) (record { at = at + size; size = free; kind = Free }) n }
        ensures held { (whole : ℕ) × IsUsedAt (state_of A.word self.new) at whole × (n ≤ whole) × (whole < n + 32) }
        ensures grown { ResizesOne A.Links self.old at self.new }
        ensures counted { steps.new ≤ steps.old + 331 }
    {
        let was_victim = at + size == self.victim;
        let rest = size + free - n;
        self.unbin(at + size, free, steps);
        law_index_stays();
        self.join_part(at, size, free, n, steps);
        if was_victim {
            return;
        }
        if rest < LEAST_CHUNK {
            return;
        }
        self.bin(at + n, rest, steps);
    }

    /// Takes bytes of a free chunk that is in no bin into the chunk before it. A rest of less than 32 bytes goes with
    /// them; any other stays free, and is the victim if the free chunk was.
    fn join_part<L: Ledger>(&mut self, at: u64, size: u64, free: u64, n: u64, steps: &mut Steps<L>)
        requires sound { IsSoundBy A.Links self.old }
        requires take { CanTakeFree (state_of A.word self.old) at size free n }
        ensures joined { IsPartJoined A.regions A.word A.follows self.old at size free n self.new }
        ensures counted { steps.new ≤ steps.old + 6 }
    {
        let all = size + free;
        let rest = all - n;
        let was_victim = at + size == self.victim;
        if rest < LEAST_CHUNK {
            chunk::set_inuse(&mut self.system, at, all, steps);
            if was_victim {
                self.victim = 0;
                self.victim_size = 0;
            }
        } else {
            chunk::set_inuse(&mut self.system, at, n, steps);
            chunk::set_size_and_pinuse_of_free_chunk(&mut self.system, at + n, rest, steps);
            if was_victim {
                self.victim = at + n;
                self.victim_size = rest;
            }
        }
    }
}
