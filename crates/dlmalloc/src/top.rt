// Cutting a chunk from the top of the heap.
ghost use Rattle.std.specs.Prelude.{◌≡◌, ◌+◌};
ghost use Rattle.dlmalloc.specs.OneChunk.{CanCutTop, IsTopCut};

use crate::heap::Dlmalloc;
use crate::layout::{HEAD, PINUSE};
use dlmalloc_chunks::chunk;
use heap_memory::{Allocator, Steps};
use std::sync::ledger::Ledger;

impl<A: Allocator> Dlmalloc<A> {
    /// Cuts `n` bytes from the top, and answers where they begin.
    pub(crate) fn take_top<L: Ledger>(&mut self, n: u64, steps: &mut Steps<L>) -> u64
        requires { CanCutTop A.Links self.old n }
        ensures chunk { result ≡ self.old.top }
        ensures cut { IsTopCut A.Links self.old n self.new }
        ensures counted { steps.new ≡ steps.old + 2 }
    {
        let chunk = self.top;
        self.top += n;
        self.top_size -= n;
        chunk::set_size_and_pinuse_of_inuse_chunk(&mut self.system, chunk, n, steps);
        self.system
            .store_counted(self.top + HEAD, self.top_size + PINUSE, steps);
        chunk
    }
}
