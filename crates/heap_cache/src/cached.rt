// A heap with stacks of freed blocks in front of it.
ghost use Rattle.std.specs.Prelude.{◌≡◌, ◌+◌, ◌/◌, ◌<◌, IfSome, IfNone, true, false};
ghost use Rattle.heap_cache.specs.Stacks.{IsPushed};
ghost use Rattle.heap_cache.specs.Held.{IsTakenFor, HasNoneFor, HasNoRoom};
ghost use Rattle.heap_cache.specs.Served.{is_of_request};

use crate::clearing::clear;
use crate::stacks::Stacks;
use dlmalloc::MallocError;
use dlmalloc_chunks::request2size;
use heap_memory::Allocator;
use sound_heap::{Heap, HeapError};
use std::marker::{Brand, Model};
use std::sync::ledger::Blank;

/// The requests below this number of bytes may be served by a stack.
const LEAST_OTHER: u64 = 1024;

/// The blocks of this number of bytes and more have no stack.
const LEAST_WIDE: u64 = 1048;

/// A heap whose freed blocks wait on stacks, each for a request of its size. That each block on a stack is one of the heap, of the
/// stack's size, and lies there once, is a condition of the type.
#[derive(Drop)]
pub struct CachedHeap<A: Allocator> {
    pub(crate) heap: Heap<A>,
    pub(crate) stacks: Stacks,
}

impl<A: Allocator> Model for CachedHeap<A> {
    ghost use Rattle.dlmalloc.specs.Heap.{state_of};
    ghost use Rattle.dlmalloc.specs.declared.heap.Dlmalloc.{Dlmalloc};
    ghost use Rattle.std.specs.Prelude.{ℕ, List};
    ghost use Rattle.heap_cache.specs.Held.{AreHeld};

    ghost Value = { Dlmalloc A × List ℕ };

    ghost view = { λ h. (h.heap, h.stacks.rows) };

    ghost invariant = { λ h. AreHeld (state_of A.word h.heap) h.stacks.rows };
}

/// Takes the highest block off the stack for a request. `None` if and only if no stack has one for it; then nothing changes.
fn take(stacks: &mut Stacks, size: u64) -> Option<u64>
    ensures some { IfSome result (λ address. IsTakenFor stacks.old.rows size address stacks.new.rows) }
    ensures none { IfNone result (stacks.new ≡ stacks.old) }
    ensures empty { IfNone result (HasNoneFor stacks.old.rows size) }
{
    if size >= LEAST_OTHER {
        return None;
    }
    stacks.pop(request2size(size) / 16)
}

/// Puts a block of some bytes onto the stack of its chunk's size. `false` if and only if there is none or it is full; then nothing
/// changes.
fn keep(stacks: &mut Stacks, usable: u64, address: u64) -> bool
    ensures kept { result ≡ true → ((usable + 8) / 16 < 66) × IsPushed stacks.old.rows ((usable + 8) / 16) address stacks.new.rows }
    ensures same { result ≡ false → stacks.new ≡ stacks.old }
    ensures full { result ≡ false → HasNoRoom stacks.old.rows usable }
{
    if usable >= LEAST_WIDE {
        return false;
    }
    stacks.push((usable + 8) / 16, address)
}

/// Whether a request is refused for itself, whatever is free.
fn is_of_request(error: HeapError) -> bool
    ensures { result ≡ is_of_request error }
{
    match error {
        HeapError::Refused(MallocError::System(_)) => false,
        _ => true,
    }
}

impl<A: Allocator> CachedHeap<A> {
    ghost use Rattle.std.specs.Prelude.{◌≡◌, ℕ, ◌<◌, ◌≤◌, IfOk, IfErr, true, false};
    ghost use Rattle.dlmalloc.specs.AfterFree.{IsFreed};
    ghost use Rattle.dlmalloc.specs.Blocks.{IsBlock, HasBlock, ArePlaced, BlocksAreApart, usable};
    ghost use Rattle.dlmalloc.specs.Heap.{state_of};
    ghost use Rattle.sound_heap.specs.Heap.{IsRequestRefused};
    ghost use Rattle.heap_cache.specs.Stacks.{height, AreWithin, IsPopped};
    ghost use Rattle.heap_cache.specs.Held.{AreHeld, IsLive, HasNoneFor, IsGiven, IsGivenBack};
    ghost use Rattle.heap_cache.specs.Emptied.{HasLetGo, AreEmpty, KeepsLive};
    ghost use Rattle.heap_cache.specs.Served.{IsAskedEmptied, IsAskedAgain, IsServed, IsRefused};
    ghost use Rattle.heap_cache.specs.Cleared.{IsServedCleared};
    ghost use Rattle.heap_cache.specs.Live.{IsGained, IsGivenUp, StaysForCallers};

    /// Puts empty stacks in front of a heap.
    pub fn new(heap: Heap<A>) -> CachedHeap<A>
        ensures heap { result.0 ≡ heap }
        ensures empty { AreEmpty result.1 }
    {
        CachedHeap {
            heap,
            stacks: Stacks::new(),
        }
    }

    /// What lies on a stack is a block of its size, and lies there once. No stack has more than it has places for.
    pub fn are_held(&self)
        ensures within { AreWithin self.now.1 }
        ensures held { AreHeld (state_of A.word self.now.0) self.now.1 }
    {
        let _ = &self.stacks;
    }

    /// Two blocks have no byte in common, whether callers have them or they lie on stacks; with one byte for a block that has none.
    pub fn law_blocks_apart(&self)
        ensures { BlocksAreApart (state_of A.word self.now.0) }
    {
        self.heap.law_blocks_apart();
    }

    /// Each block is at a multiple of 16, and its bytes are granted; if it has none, one is.
    pub fn law_blocks_placed(&self)
        ensures { ArePlaced (A.regions self.now.0.system) (state_of A.word self.now.0) }
    {
        self.heap.law_blocks_placed();
    }

    /// The bytes of a block that a caller has: those that were asked for, and at most 71 more.
    pub fn usable_size(&self, address: u64) -> u64
        requires { IsLive (state_of A.word self.now.0) self.now.1 address }
        ensures { result ≡ usable (state_of A.word self.now.0) address }
    {
        self.heap.usable_size(address)
    }

    /// The address of a block of `size` bytes, at a multiple of 16: one that lies on the stack of its size, or else a new one.
    fn give(&mut self, size: u64) -> Result<u64, HeapError>
        ensures ok { IfOk result (λ address. IsGiven A.regions A.word A.zeros A.follows self.old.0 self.old.1 size address self.new.0 self.new.1) }
        ensures err { IfErr result (λ error. IsRequestRefused A.regions A.word A.follows A.refuses A.denies self.old.0 size 16 error self.new.0) }
        ensures same { IfErr result (λ error. self.new.1 ≡ self.old.1) }
        ensures none { IfErr result (λ error. HasNoneFor self.old.1 size) }
    {
        match take(&mut self.stacks, size) {
            Some(address) => Ok(address),
            None => self.heap.malloc(size, 16),
        }
    }

    /// Has the heap free each block that lies on a stack, and asks it for a block.
    fn ask_emptied(&mut self, size: u64, align: u64) -> Result<u64, HeapError>
        ensures { IsAskedEmptied A.regions A.word A.zeros A.follows A.refuses A.denies A.frees A.parts A.unit self.old.0 self.old.1 size align result self.new.0 self.new.1 }
    {
        self.empty();
        self.heap.malloc(size, align)
    }

    /// Asks the heap again after an error, with nothing on stacks; but answers with the error if free memory cannot help.
    pub(crate) fn ask_again(
        &mut self,
        size: u64,
        align: u64,
        error: HeapError,
    ) -> Result<u64, HeapError>
        ensures { IsAskedAgain A.regions A.word A.zeros A.follows A.refuses A.denies A.frees A.parts A.unit self.old.0 self.old.1 size align error result self.new.0 self.new.1 }
    {
        if is_of_request(error) {
            return Err(error);
        }
        self.ask_emptied(size, align)
    }

    /// The address of a block of `size` bytes, at a multiple of 16: one that lies on the stack of its size, or else a new one of the
    /// heap. If the heap has no memory for it, it frees all that lies on stacks and is asked once more. So a request is refused only
    /// if the heap refuses it with nothing on stacks; or, with nothing changed, if it is too large whatever is free.
    pub fn malloc(&mut self, size: u64) -> Result<u64, HeapError>
        ensures ok { IfOk result (λ address. IsServed A.regions A.word A.zeros A.follows A.refuses A.denies A.frees A.parts A.unit self.old.0 self.old.1 size address self.new.0 self.new.1) }
        ensures gained { IfOk result (λ address. IsGained A.word self.old.0 self.old.1 address self.new.0 self.new.1) }
        ensures block { IfOk result (λ address. IsBlock (state_of A.word self.new.0) address size) }
        ensures enough { IfOk result (λ address. size ≤ usable (state_of A.word self.new.0) address) }
        ensures err { IfErr result (λ error. IsRefused A.regions A.word A.follows A.refuses A.denies A.frees A.parts A.unit self.old.0 self.old.1 size error self.new.0 self.new.1) }
        ensures stays { IfErr result (λ error. StaysForCallers A.word self.old.0 self.old.1 self.new.0 self.new.1) }
    {
        self.are_held();
        match self.give(size) {
            Ok(address) => Ok(address),
            Err(error) => self.ask_again(size, 16, error),
        }
    }

    /// As `malloc`; the bytes of the block are 0.
    pub fn calloc(&mut self, size: u64) -> Result<u64, HeapError>
        ensures ok { IfOk result (λ address. IsServedCleared A.regions A.word A.zeros A.follows A.refuses A.denies A.frees A.parts A.unit self.old.0 self.old.1 size address self.new.0 self.new.1) }
        ensures gained { IfOk result (λ address. IsGained A.word self.old.0 self.old.1 address self.new.0 self.new.1) }
        ensures block { IfOk result (λ address. IsBlock (state_of A.word self.new.0) address size) }
        ensures enough { IfOk result (λ address. size ≤ usable (state_of A.word self.new.0) address) }
        ensures err { IfErr result (λ error. IsRefused A.regions A.word A.follows A.refuses A.denies A.frees A.parts A.unit self.old.0 self.old.1 size error self.new.0 self.new.1) }
        ensures stays { IfErr result (λ error. StaysForCallers A.word self.old.0 self.old.1 self.new.0 self.new.1) }
    {
        match self.malloc(size) {
            Ok(address) => {
                clear::<A, Brand>(&mut self.heap, address, size, Blank::new(1));
                Ok(address)
            }
            Err(error) => Err(error),
        }
    }

    /// Gives a block back that a caller has: onto the stack of its chunk's size, or to the heap if there is none or it is full.
    pub fn free(&mut self, address: u64)
        requires { IsLive (state_of A.word self.old.0) self.old.1 address }
        ensures freed { IsGivenBack A.regions A.word A.follows (A.frees self.old.0.system) (A.parts self.old.0.system) (A.unit self.old.0.system) self.old.0 self.old.1 address self.new.0 self.new.1 }
        ensures given_up { IsGivenUp A.word self.old.0 self.old.1 address self.new.0 self.new.1 }
    {
        self.are_held();
        self.give_back(address);
        self.are_held();
    }

    /// Gives a block back that a caller has.
    fn give_back(&mut self, address: u64)
        requires { IsLive (state_of A.word self.old.0) self.old.1 address }
        ensures { IsGivenBack A.regions A.word A.follows (A.frees self.old.0.system) (A.parts self.old.0.system) (A.unit self.old.0.system) self.old.0 self.old.1 address self.new.0 self.new.1 }
    {
        if keep(&mut self.stacks, self.heap.usable_size(address), address) {
            return;
        }
        self.heap.free(address);
    }

    /// Has the heap free each block that lies on a stack.
    pub fn empty(&mut self)
        ensures gone { HasLetGo A.regions A.word A.follows A.frees A.parts A.unit self.old.0 self.old.1 self.new.0 self.new.1 }
        ensures empty { AreEmpty self.new.1 }
        ensures stays { StaysForCallers A.word self.old.0 self.old.1 self.new.0 self.new.1 }
    {
        let _ = &self.stacks;
        for turn in 0..1056 {
            self.let_go(turn / 16);
        }
    }

    /// Has the heap free the highest block of a stack. `false` if and only if none lies there; then nothing changes.
    pub fn let_go(&mut self, class: u64) -> bool
        requires { class < 66 }
        ensures freed { result ≡ true → (address : ℕ) × HasBlock (state_of A.word self.old.0) address × IsPopped self.old.1 class address self.new.1 × IsFreed A.regions A.word A.follows (A.frees self.old.0.system) (A.parts self.old.0.system) (A.unit self.old.0.system) self.old.0 address self.new.0 }
        ensures stays { StaysForCallers A.word self.old.0 self.old.1 self.new.0 self.new.1 }
        ensures none { result ≡ false → height self.old.1 class ≡ 0 }
        ensures same { result ≡ false → self.new ≡ self.old }
    {
        match self.stacks.pop(class) {
            Some(address) => {
                self.heap.free(address);
                true
            }
            None => false,
        }
    }
}
