// The type of a heap, its settings, and its laws.
use crate::calls;
use dlmalloc::{Dlmalloc, ExtentList};
use heap_memory::Allocator;
use std::alloc::{AllocError, Global};
use std::marker::{Brand, Model};
use std::sync::ledger::Blank;

/// A heap over a system. That it is sound, and that its bins hold its free extents, is a condition of the type.
#[derive(Drop)]
pub struct Heap<A: Allocator> {
    /// The heap of chunks, for calls that only some system has. It is sound when such a call begins, and when it ends.
    pub heap: Dlmalloc<A>,
}

impl<A: Allocator> Model for Heap<A> {
    ghost use Rattle.dlmalloc.specs.declared.heap.Dlmalloc.{Dlmalloc};
    ghost use Rattle.sound_heap.specs.Heap.{IsIntact};

    ghost Value = { Dlmalloc A };

    ghost view = { λ h. h.heap };

    ghost invariant = { λ h. IsIntact A.regions A.word h.heap };
}

impl<A: Allocator> Heap<A> {
    ghost use Rattle.std.specs.Prelude.{◌≡◌, ◌↔◌, if◌then◌else◌, IfOk, IsTrue, filter};
    ghost use Rattle.dlmalloc.specs.State.{new_heap, countdown_from};
    ghost use Rattle.dlmalloc.specs.Heap.{state_of, IsGranularity};
    ghost use Rattle.dlmalloc.specs.Blocks.{ArePlaced, BlocksAreApart};
    ghost use Rattle.dlmalloc.specs.GivenBack.{AreGivenBack};
    ghost use Rattle.dlmalloc.specs.Order.{KeepsIndex};
    ghost use Rattle.dlmalloc.specs.Released.{is_own, taken_back};
    ghost use Rattle.dlmalloc.specs.Listed.{IsListed};
    ghost use Rattle.dlmalloc.specs.Shortened.{IsTrimmed};
    ghost use Rattle.sound_heap.specs.Heap.{IsIntact, fresh_heap};

    /// An empty heap over a system.
    pub fn new(system: A) -> Heap<A>
        ensures state { state_of A.word result ≡ new_heap }
        ensures system { result.system ≡ system }
    {
        Heap {
            heap: Dlmalloc::new_with_allocator(system),
        }
    }

    /// An empty heap over a system, with a granularity and a release rate.
    pub fn with_settings(system: A, granularity: u64, rate: u64) -> Heap<A>
        requires granularity { IsGranularity granularity }
        ensures state { state_of A.word result ≡ fresh_heap granularity rate }
        ensures system { result.system ≡ system }
    {
        let mut heap = Heap::new(system);
        heap.set_granularity(granularity);
        heap.set_release_rate(rate);
        heap
    }

    /// Sets the granularity: the system is asked for multiples of it. True exactly for a power of two of at least 16;
    /// any other number changes nothing.
    pub fn set_granularity(&mut self, granularity: u64) -> bool
        ensures answer { IsTrue result ↔ IsGranularity granularity }
        ensures state { state_of A.word self.new ≡ record (state_of A.word self.old) { granularity = if result then granularity else self.old.granularity } }
        ensures system { self.new.system ≡ self.old.system }
        ensures index { KeepsIndex A.regions A.word self.old self.new }
    {
        self.heap.set_granularity(granularity)
    }

    /// Sets how many large chunks are freed between two release passes, and begins to count them anew. 0 stands for the
    /// greatest number, 2^64 - 1.
    pub fn set_release_rate(&mut self, rate: u64)
        ensures state { state_of A.word self.new ≡ record (state_of A.word self.old) { rate = rate; countdown = countdown_from rate } }
        ensures system { self.new.system ≡ self.old.system }
        ensures index { KeepsIndex A.regions A.word self.old self.new }
    {
        self.heap.set_max_release_check_rate(rate);
    }

    /// The granularity, in bytes.
    pub fn granularity(&self) -> u64
        ensures { result ≡ (state_of A.word self.now).granularity }
    {
        self.heap.granularity()
    }

    /// How many large chunks are freed between two release passes; 0 stands for 2^64 - 1.
    pub fn release_rate(&self) -> u64
        ensures { result ≡ (state_of A.word self.now).rate }
    {
        self.heap.max_release_check_rate()
    }

    /// Gives memory back to the system that no block needs: the top keeps more than `pad` bytes. True exactly if bytes
    /// went back.
    pub fn trim(&mut self, pad: u64) -> bool
        ensures trimmed { IsTrimmed A.regions A.word A.follows (A.frees self.old.system) (A.parts self.old.system) (A.unit self.old.system) self.old pad result self.new }
    {
        calls::trim::<A, Brand>(&mut self.heap, pad, Blank::new(1))
    }

    /// Gives all memory of the heap back, and answers how many bytes the system took, and the system.
    pub fn destroy(self) -> (u64, A)
        ensures { AreGivenBack A.regions A.word A.follows (taken_back (A.frees self.system) (filter is_own (state_of A.word self).segments)) self.system result.0 result.1 }
    {
        calls::destroy::<A, Brand>(self.heap, Blank::new(1))
    }

    /// The extents of the heap, by ascending address.
    pub fn extents(&self, alloc: Global) -> Result<ExtentList, AllocError>
        ensures { IfOk result (λ list. IsListed A.word self.now list) }
    {
        calls::extents::<A, Brand>(&self.heap, alloc, Blank::new(1))
    }

    /// The system.
    pub fn system(&self) -> &A
        ensures { result.now ≡ self.now.system }
    {
        self.heap.allocator()
    }

    /// The heap is sound, and its bins hold its free extents.
    pub fn law_intact(&self)
        ensures { IsIntact A.regions A.word self.now }
    {
        let _ = &self.heap;
    }

    /// Each block is at a multiple of 16, and its bytes are granted; if it has none, one is.
    pub fn law_blocks_placed(&self)
        ensures { ArePlaced (A.regions self.now.system) (state_of A.word self.now) }
    {
        self.heap.law_blocks_placed();
    }

    /// Two blocks have no byte in common, with one byte for a block that has none.
    pub fn law_blocks_apart(&self)
        ensures { BlocksAreApart (state_of A.word self.now) }
    {
        self.heap.law_blocks_apart();
    }
}

impl<A: Allocator + Drop> Heap<A> {
    ghost use Rattle.std.specs.Prelude.{◌≡◌, [], filter};
    ghost use Rattle.dlmalloc.specs.Heap.{state_of};
    ghost use Rattle.dlmalloc.specs.GivenBack.{AreGivenBack};
    ghost use Rattle.dlmalloc.specs.Released.{is_own, taken_back};
    ghost use Rattle.sound_heap.specs.Heap.{fresh_heap};

    /// Gives all memory of the heap back, answers how many bytes the system took, and leaves a new heap over the system,
    /// with the granularity and the rate in force. Another system stands in its place meanwhile, is asked for nothing, and comes
    /// back.
    pub fn reset(&mut self, other: A) -> (u64, A)
        ensures ended { AreGivenBack A.regions A.word A.follows (taken_back (A.frees self.old.system) (filter is_own (state_of A.word self.old).segments)) self.old.system result.0 self.new.system }
        ensures other { AreGivenBack A.regions A.word A.follows [] other 0 result.1 }
        ensures state { state_of A.word self.new ≡ fresh_heap self.old.granularity self.old.rate }
    {
        let granularity = self.granularity();
        let rate = self.release_rate();
        let gone = std::mem::replace(self, Heap::new(other));
        let (released, system) = gone.destroy();
        let spare = std::mem::replace(self, Heap::with_settings(system, granularity, rate));
        let (_, other) = spare.destroy();
        (released, other)
    }
}
