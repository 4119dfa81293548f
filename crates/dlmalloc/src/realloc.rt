// Blocks that get another size.
ghost use Rattle.std.specs.Prelude.{◌≡◌, ◌≢◌, ◌+◌, ◌*◌, ◌-◌, ◌<◌, ◌≤◌, min, None, Some, IfOk, IfErr, IfSome, MatchOption};
ghost use Rattle.std.specs.Int.{IsPowerOfTwo};
ghost use Rattle.dlmalloc_chunks.specs.Request.{padded};
ghost use Rattle.dlmalloc.specs.OneChunk.{HoldsBytes};
ghost use Rattle.dlmalloc.specs.Blocks.{HasBlock, IsBlock, usable};
ghost use Rattle.dlmalloc.specs.Resized.{in_place};
ghost use Rattle.dlmalloc.specs.Binned.{IsIntactBy};
ghost use Rattle.dlmalloc.specs.Heap.{state_of};
ghost use Rattle.dlmalloc.specs.Served.{IsRefusedBy};
ghost use Rattle.dlmalloc.specs.Requested.{asked, IsMemberServed};
ghost use Rattle.dlmalloc.specs.Moved.{IsElsewhere, IsResized};
ghost use Rattle.dlmalloc.specs.Outcome.{IsAllocatedBy, IsReallocatedBy, IsReallocRefusedBy};
ghost use Rattle.dlmalloc.specs.Choice.{chosen};
ghost use Rattle.dlmalloc.specs.Written.{words_in};
ghost use Rattle.dlmalloc.specs.Counts.{pass_steps};

use crate::contents::words_in;
use crate::heap::Dlmalloc;
use crate::layout::{BLOCK, HEAD, LEAST_ALIGN};
use crate::malloc_error::MallocError;
use bins::laws::law_index_stays;
use dlmalloc_chunks::{chunk, max_request, request2size};
use heap_memory::{Allocator, Links, Steps};
use std::sync::ledger::Ledger;

impl<A: Allocator> Dlmalloc<A> {
    /// Gives a block another size, and answers where it is then. It keeps its alignment, and as many of its bytes as
    /// both sizes have. Up to alignment 16 it stays where it is, if that can be; else it is handed out anew as by
    /// `malloc`, its words are copied, and the old one is freed (dlmalloc: `Dlmalloc::realloc`). At most 1024 words are
    /// loaded or stored if it stays, and for a refusal; if it moves to an extent that is chosen, at most 10240, two for
    /// each word that is copied, and 512 for each segment, if the free makes a release pass.
    pub fn realloc<L: Ledger>(
        &mut self,
        ptr: u64,
        old_size: u64,
        old_align: u64,
        new_size: u64,
        steps: &mut Steps<L>,
    ) -> Result<u64, MallocError>
        requires intact { IsIntactBy A.Links self.old }
        requires align { IsPowerOfTwo old_align }
        requires block { IsBlock (state_of A.word self.old) ptr old_size }
        ensures reallocated { IfOk result (λ address. IsReallocatedBy A.Links A.Allocator.own self.old ptr old_size old_align new_size address self.new) }
        ensures refused { IfErr result (λ error. IsReallocRefusedBy A.Links A.Allocator.own self.old (Some ptr) old_align new_size error self.new) }
        ensures intact { IsIntactBy A.Links self.new }
        ensures counted { chosen (state_of A.word self.old) (padded (asked new_size old_align)) ≢ None → steps.new ≤ steps.old + 10240 + 2 * words_in (min old_size new_size) + pass_steps (state_of A.word self.old) }
        ensures in_place_counted { old_align ≤ 16 → in_place (state_of A.word self.old) (ptr - 16) (padded new_size) ≢ None → steps.new ≤ steps.old + 1024 }
        ensures refused_counted { IfErr result (λ error. steps.new ≤ steps.old + 1024) }
    {
        if old_align <= LEAST_ALIGN {
            self.resize_or_move(ptr, old_size, old_align, new_size, steps)
        } else {
            self.move_block(ptr, old_size, old_align, new_size, steps)
        }
    }

    /// Gives a block another size, whatever its alignment: where it is, if that can be; else at a multiple of 16, with
    /// as many of its bytes as its chunk holds and the new size has. Without a block it is `c_malloc` (dlmalloc:
    /// `c_realloc`). The words loaded or stored are bounded as for `realloc`.
    pub fn c_realloc<L: Ledger>(
        &mut self,
        ptr: Option<u64>,
        new_size: u64,
        steps: &mut Steps<L>,
    ) -> Result<u64, MallocError>
        requires intact { IsIntactBy A.Links self.old }
        requires block { IfSome ptr (HasBlock (state_of A.word self.old)) }
        ensures reallocated { IfOk result (λ address. MatchOption ptr
            (IsAllocatedBy A.Links A.Allocator.own self.old new_size 16 address self.new)
            (λ from. IsReallocatedBy A.Links A.Allocator.own self.old from (usable (state_of A.word self.old) from) 16 new_size address self.new)) }
        ensures refused { IfErr result (λ error. IsReallocRefusedBy A.Links A.Allocator.own self.old ptr 16 new_size error self.new) }
        ensures intact { IsIntactBy A.Links self.new }
        ensures counted { chosen (state_of A.word self.old) (padded new_size) ≢ None → MatchOption ptr (steps.new ≤ steps.old + 1024) (λ from.
            steps.new ≤ steps.old + 10240 + 2 * words_in (min (usable (state_of A.word self.old) from) new_size) + pass_steps (state_of A.word self.old)) }
        ensures in_place_counted { IfSome ptr (λ from. in_place (state_of A.word self.old) (from - 16) (padded new_size) ≢ None → steps.new ≤ steps.old + 1024) }
        ensures refused_counted { IfErr result (λ error. steps.new ≤ steps.old + 1024) }
    {
        match ptr {
            None => self.c_malloc(new_size, steps),
            Some(address) => {
                let size = chunk::size(&self.system, address - BLOCK, steps);
                self.resize_or_move(address, size - HEAD, LEAST_ALIGN, new_size, steps)
            }
        }
    }

    /// Gives a block another size where it stands, if that can be; else as `move_block`. The alignment is at most 16.
    fn resize_or_move<L: Ledger>(
        &mut self,
        ptr: u64,
        held: u64,
        align: u64,
        size: u64,
        steps: &mut Steps<L>,
    ) -> Result<u64, MallocError>
        requires holds { HoldsBytes A.Links self.old ptr held align }
        requires least { align ≤ 16 }
        ensures resized { IfOk result (λ address. IsResized A.regions A.word A.zeros A.follows (A.frees self.old.system) (A.parts self.old.system) (A.unit self.old.system) self.old ptr held align size address self.new) }
        ensures refused { IfErr result (λ error. IsRefusedBy A.Links A.Allocator.own self.old (asked size align) error self.new) }
        ensures tried { IfErr result (λ error. error ≢ MallocError.TooLarge → in_place (state_of A.word self.old) (ptr - 16) (padded size) ≡ None) }
        ensures intact { IsIntactBy A.Links self.new }
        ensures member { IfOk result (λ address. address ≢ ptr → IsMemberServed A.regions A.word self.old size align address) }
        ensures counted { chosen (state_of A.word self.old) (padded (asked size align)) ≢ None → steps.new ≤ steps.old + 9216 + 2 * words_in (min held size) + pass_steps (state_of A.word self.old) }
        ensures in_place_counted { in_place (state_of A.word self.old) (ptr - 16) (padded size) ≢ None → steps.new ≤ steps.old + 535 }
        ensures refused_counted { IfErr result (λ error. steps.new ≤ steps.old + 515) }
    {
        if size >= max_request(self.granularity) {
            return Err(MallocError::TooLarge);
        }
        if self.resize_chunk(ptr - BLOCK, request2size(size), steps) {
            return Ok(ptr);
        }
        self.move_block(ptr, held, align, size, steps)
    }

    /// Hands out a block anew, copies the words that hold the first `held` bytes of another or all of the new one's,
    /// whichever is less, and frees the other.
    fn move_block<L: Ledger>(
        &mut self,
        ptr: u64,
        held: u64,
        align: u64,
        size: u64,
        steps: &mut Steps<L>,
    ) -> Result<u64, MallocError>
        requires { HoldsBytes A.Links self.old ptr held align }
        ensures elsewhere { IfOk result (λ address. IsElsewhere A.regions A.word A.zeros A.follows (A.frees self.old.system) (A.parts self.old.system) (A.unit self.old.system) self.old ptr held align size address self.new) }
        ensures refused { IfErr result (λ error. IsRefusedBy A.Links A.Allocator.own self.old (asked size align) error self.new) }
        ensures intact { IsIntactBy A.Links self.new }
        ensures member { IfOk result (λ address. IsMemberServed A.regions A.word self.old size align address) }
        ensures counted { chosen (state_of A.word self.old) (padded (asked size align)) ≢ None → steps.new ≤ steps.old + 8724 + 2 * words_in (min held size) + pass_steps (state_of A.word self.old) }
        ensures refused_counted { IfErr result (λ error. steps.new ≤ steps.old + 512) }
    {
        match self.malloc(size, align, steps) {
            Ok(address) => {
                law_index_stays();
                self.system
                    .copy_counted(ptr, address, words_in(held.min(size)), steps);
                self.free_and_settle(ptr, steps);
                Ok(address)
            }
            Err(error) => Err(error),
        }
    }
}
