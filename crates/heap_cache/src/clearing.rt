// Clearing a block.
ghost use Rattle.std.specs.Prelude.{◌≡◌};
ghost use Rattle.sound_heap.specs.Blanks.{IsBlankOf};
ghost use Rattle.dlmalloc.specs.Heap.{state_of};
ghost use Rattle.dlmalloc.specs.Blocks.{IsBlock};
ghost use Rattle.dlmalloc.specs.Written.{words_in};
ghost use Rattle.heap_cache.specs.Cleared.{IsCleared};
ghost use Rattle.heap_cache.specs.Live.{IsOtherBlock, KeepBytes};

use heap_memory::{Allocator, Steps};
use sound_heap::Heap;
use std::sync::ledger::{Blank, Ledger};

/// How many words hold some bytes.
pub(crate) fn words_in(n: u64) -> u64
    ensures { result ≡ words_in n }
{
    n.div_ceil(8)
}

/// Clears the words that hold the bytes of a block, and changes nothing else.
pub(crate) fn clear<A: Allocator, L: Ledger>(
    heap: &mut Heap<A>,
    address: u64,
    size: u64,
    blank: Blank,
)
    requires blank { IsBlankOf L.name L.parts blank }
    requires block { IsBlock (state_of A.word heap.old) address size }
    ensures cleared { IsCleared A.regions A.word A.follows heap.old size address heap.new }
    ensures others { KeepBytes A.word heap.old heap.new (IsOtherBlock (state_of A.word heap.old) address) }
{
    heap.heap.law_rests_outside();
    heap.heap.law_order_rests_outside();
    heap.heap
        .allocator_mut()
        .fill_counted(address, words_in(size), 0, &mut Steps::<L>::new(blank));
}
