// What a block holds when it is handed out.
ghost use Rattle.std.specs.Prelude.{◌≡◌, ◌≢◌, ◌+◌, ◌≤◌, None, IfOk, IfErr};
ghost use Rattle.std.specs.Int.{IsPowerOfTwo};
ghost use Rattle.dlmalloc.specs.Binned.{IsIntactBy};
ghost use Rattle.dlmalloc.specs.Choice.{chosen};
ghost use Rattle.dlmalloc.specs.Heap.{state_of};
ghost use Rattle.dlmalloc_chunks.specs.Request.{padded};
ghost use Rattle.dlmalloc.specs.Served.{IsRefusedBy};
ghost use Rattle.dlmalloc.specs.Outcome.{IsAllocatedCleared};
ghost use Rattle.dlmalloc.specs.Requested.{asked};
ghost use Rattle.dlmalloc.specs.Written.{words_in};

use crate::heap::Dlmalloc;
use crate::malloc_error::MallocError;
use bins::laws::law_index_stays;
use heap_memory::{Allocator, Steps};
use std::sync::ledger::Ledger;

/// The number of words that hold `n` bytes.
pub(crate) fn words_in(n: u64) -> u64
    ensures { result ≡ words_in n }
{
    n.div_ceil(8)
}

impl<A: Allocator> Dlmalloc<A> {
    /// Asks for a block of `size` bytes at a multiple of `align`, clears it, and answers its address (dlmalloc:
    /// `Dlmalloc::calloc`). The words that hold the bytes asked for are cleared, and no others. The clearing stores
    /// each once, and besides that the words loaded or stored are at most as many as for `malloc`.
    pub fn calloc<L: Ledger>(
        &mut self,
        size: u64,
        align: u64,
        steps: &mut Steps<L>,
    ) -> Result<u64, MallocError>
        requires intact { IsIntactBy A.Links self.old }
        requires align { IsPowerOfTwo align }
        ensures allocated { IfOk result (λ address. IsAllocatedCleared A.regions A.word A.zeros A.follows self.old size align address self.new) }
        ensures refused { IfErr result (λ error. IsRefusedBy A.Links A.Allocator.own self.old (asked size align) error self.new) }
        ensures intact { IsIntactBy A.Links self.new }
        ensures counted { chosen (state_of A.word self.old) (padded (asked size align)) ≢ None → steps.new ≤ steps.old + 8192 + words_in size }
        ensures refused_counted { IfErr result (λ error. steps.new ≤ steps.old + 512) }
    {
        match self.malloc(size, align, steps) {
            Ok(address) => {
                law_index_stays();
                self.system.fill_counted(address, words_in(size), 0, steps);
                Ok(address)
            }
            Err(error) => Err(error),
        }
    }
}
