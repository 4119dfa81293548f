// Blocks that get another size.
ghost use Rattle.std.specs.Prelude.{◌≡◌, ◌≢◌, ◌≤◌, min, true, false};
ghost use Rattle.dlmalloc.specs.Heap.{state_of};
ghost use Rattle.dlmalloc.specs.Blocks.{HasBlock, usable};
ghost use Rattle.sound_heap.specs.Blanks.{IsBlankOf};
ghost use Rattle.heap_cache.specs.Resized.{IsCopied, StaysInPlace};
ghost use Rattle.heap_cache.specs.Live.{IsOtherBlock, KeepBytes};

use crate::cached::CachedHeap;
use crate::clearing::words_in;
use heap_memory::{Allocator, Steps};
use sound_heap::{Heap, HeapError};
use std::marker::Brand;
use std::sync::ledger::{Blank, Ledger};

/// Whether a block of some bytes stays where it is for a size.
fn stays_in_place(bytes: u64, size: u64) -> bool
    ensures yes { result ≡ true → StaysInPlace bytes size }
    ensures no { result ≡ false → StaysInPlace bytes size → ⊥ }
{
    size <= bytes && bytes / 2 <= size
}

/// How many bytes a block has under both of two sizes.
fn common(bytes: u64, size: u64) -> u64
    ensures { result ≡ min bytes size }
{
    bytes.min(size)
}

/// Copies the words that hold the first bytes of a block into another block, and changes nothing else.
pub(crate) fn copy<A: Allocator, L: Ledger>(
    heap: &mut Heap<A>,
    from: u64,
    to: u64,
    count: u64,
    blank: Blank,
)
    requires blank { IsBlankOf L.name L.parts blank }
    requires from { HasBlock (state_of A.word heap.old) from }
    requires to { HasBlock (state_of A.word heap.old) to }
    requires apart { to ≢ from }
    requires within { count ≤ usable (state_of A.word heap.old) from }
    requires room { count ≤ usable (state_of A.word heap.old) to }
    ensures copied { IsCopied A.regions A.word A.follows heap.old from to count heap.new }
    ensures others { KeepBytes A.word heap.old heap.new (IsOtherBlock (state_of A.word heap.old) to) }
{
    heap.heap.law_rests_outside();
    heap.heap.law_order_rests_outside();
    heap.heap
        .allocator_mut()
        .copy_counted(from, to, words_in(count), &mut Steps::<L>::new(blank));
}

impl<A: Allocator> CachedHeap<A> {
    ghost use Rattle.std.specs.Prelude.{◌≡◌, ◌≢◌, ◌≤◌, IfOk, IfErr};
    ghost use Rattle.dlmalloc.specs.Heap.{state_of};
    ghost use Rattle.dlmalloc.specs.Blocks.{usable};
    ghost use Rattle.heap_cache.specs.Held.{IsLive};
    ghost use Rattle.heap_cache.specs.Served.{IsRefused};
    ghost use Rattle.heap_cache.specs.Resized.{StaysInPlace, HasMovedOut, IsResized, IsResizedForCallers};
    ghost use Rattle.heap_cache.specs.Live.{StaysForCallers};

    /// Copies the first bytes of a block into another, and gives the first one back. Callers have both.
    fn move_out(&mut self, from: u64, to: u64, count: u64)
        requires from { IsLive (state_of A.word self.old.0) self.old.1 from }
        requires to { IsLive (state_of A.word self.old.0) self.old.1 to }
        requires apart { to ≢ from }
        requires within { count ≤ usable (state_of A.word self.old.0) from }
        requires room { count ≤ usable (state_of A.word self.old.0) to }
        ensures { HasMovedOut A.regions A.word A.follows A.frees A.parts A.unit self.old.0 self.old.1 from to count self.new.0 self.new.1 }
    {
        copy::<A, Brand>(&mut self.heap, from, to, count, Blank::new(1));
        self.free(from);
    }

    /// Gives a block that a caller has another size, and answers where it is then. It stays where it is if it has room for that many
    /// bytes and they are at least half of it, and else is moved: a new block is asked for, as by `malloc`, takes as many bytes as
    /// both sizes have, and the old one is given back, as by `free`. After a refusal the block is as it was.
    pub fn realloc(&mut self, address: u64, size: u64) -> Result<u64, HeapError>
        requires { IsLive (state_of A.word self.old.0) self.old.1 address }
        ensures ok { IfOk result (λ to. IsResized A.regions A.word A.zeros A.follows A.refuses A.denies A.frees A.parts A.unit self.old.0 self.old.1 address size to self.new.0 self.new.1) }
        ensures resized { IfOk result (λ to. IsResizedForCallers A.word self.old.0 self.old.1 address size to self.new.0 self.new.1) }
        ensures err { IfErr result (λ error. IsRefused A.regions A.word A.follows A.refuses A.denies A.frees A.parts A.unit self.old.0 self.old.1 size error self.new.0 self.new.1) }
        ensures moves { IfErr result (λ error. StaysInPlace (usable (state_of A.word self.old.0) address) size → ⊥) }
        ensures stays { IfErr result (λ error. StaysForCallers A.word self.old.0 self.old.1 self.new.0 self.new.1) }
    {
        let held = self.usable_size(address);
        if stays_in_place(held, size) {
            return Ok(address);
        }
        match self.malloc(size) {
            Ok(to) => {
                self.law_blocks_placed();
                self.move_out(address, to, common(held, size));
                Ok(to)
            }
            Err(error) => Err(error),
        }
    }
}
