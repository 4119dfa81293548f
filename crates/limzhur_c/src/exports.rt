// What a C program calls of a heap that it began.
ghost use Rattle.std.specs.Prelude.{◌≡◌, ◌↔◌, true, false, if◌then◌else◌, IsTrue};
ghost use Rattle.dlmalloc.specs.State.{countdown_from};
ghost use Rattle.dlmalloc.specs.Heap.{IsGranularity};
ghost use Rattle.dlmalloc.specs.Blocks.{ArePlaced};
ghost use Rattle.dlmalloc.specs.AfterFree.{IsFreed};
ghost use Rattle.dlmalloc.specs.Shortened.{IsTrimmed};
ghost use Rattle.heap_arena.specs.Arena.{regions_of, word_of};
ghost use Rattle.checked_heap.specs.Answers.{IsOnlySet};
ghost use Rattle.sound_heap.specs.Heap.{HasBlock, usable, IsIntact};
ghost use Rattle.checked_heap.specs.Checked.{arena_follows, arena_heap_state, KeepsWordsOutside};
ghost use Rattle.limzhur_c.specs.HeapAnswers.{IsRequestTold, IsResizeTold};
ghost use Rattle.limzhur_c.specs.HeapStats.{HoldsStats};

use crate::handle::Handle;

/// The address of a block of `size` bytes at a multiple of `align`; 0 if it is refused.
#[unsafe(no_mangle)]
pub extern "C" fn limzhur_malloc(handle: &mut Handle, size: u64, align: u64) -> u64
    ensures answered { IsRequestTold handle.old.heap size align false result handle.new.heap }
    ensures room { handle.new.room ≡ handle.old.room }
{
    match handle.open().malloc(size, align) {
        Ok(address) => address,
        Err(_) => 0,
    }
}

/// The address of a block of `size` bytes of value 0 at a multiple of `align`; 0 if it is refused.
#[unsafe(no_mangle)]
pub extern "C" fn limzhur_calloc(handle: &mut Handle, size: u64, align: u64) -> u64
    ensures answered { IsRequestTold handle.old.heap size align true result handle.new.heap }
    ensures room { handle.new.room ≡ handle.old.room }
{
    match handle.open().calloc(size, align) {
        Ok(address) => address,
        Err(_) => 0,
    }
}

/// The address of the block that the block at an address becomes, of another size, at a multiple of 16. 0 if no block
/// begins at the address, or the size is refused; nothing then changes.
#[unsafe(no_mangle)]
pub extern "C" fn limzhur_realloc(handle: &mut Handle, address: u64, size: u64) -> u64
    ensures answered { IsResizeTold handle.old.heap address size result handle.new.heap }
    ensures room { handle.new.room ≡ handle.old.room }
{
    match handle.open().realloc(address, size) {
        Ok(to) => to,
        Err(_) => 0,
    }
}

/// Gives a block back. False if none begins at the address; nothing then changes.
#[unsafe(no_mangle)]
pub extern "C" fn limzhur_free(handle: &mut Handle, address: u64) -> bool
    ensures answer { IsTrue result ↔ HasBlock (arena_heap_state handle.old.heap) address }
    ensures freed { result ≡ true → IsFreed regions_of word_of arena_follows true true 1 handle.old.heap address handle.new.heap }
    ensures same { result ≡ false → handle.new.heap ≡ handle.old.heap }
    ensures outside { KeepsWordsOutside (regions_of handle.old.heap.system) handle.old.heap.system handle.new.heap.system }
    ensures room { handle.new.room ≡ handle.old.room }
{
    handle.open().free(address)
}

/// Gives memory that no block needs back to the arena: the top keeps more than `pad` bytes. True exactly if bytes went
/// back.
#[unsafe(no_mangle)]
pub extern "C" fn limzhur_trim(handle: &mut Handle, pad: u64) -> bool
    ensures trimmed { IsTrimmed regions_of word_of arena_follows true true 1 handle.old.heap pad result handle.new.heap }
    ensures outside { KeepsWordsOutside (regions_of handle.old.heap.system) handle.old.heap.system handle.new.heap.system }
    ensures room { handle.new.room ≡ handle.old.room }
{
    handle.open().trim(pad)
}

/// Sets the granularity of a heap. False if the number is no granularity; nothing then changes.
#[unsafe(no_mangle)]
pub extern "C" fn limzhur_set_granularity(handle: &mut Handle, bytes: u64) -> bool
    ensures answer { IsTrue result ↔ IsGranularity bytes }
    ensures set { IsOnlySet (record (arena_heap_state handle.old.heap) { granularity = if result then bytes else handle.old.heap.granularity }) handle.old.heap handle.new.heap }
    ensures room { handle.new.room ≡ handle.old.room }
{
    handle.open().set_granularity(bytes)
}

/// Sets how many large chunks are freed between two release passes, and begins to count them anew. 0 stands for the
/// greatest number.
#[unsafe(no_mangle)]
pub extern "C" fn limzhur_set_release_rate(handle: &mut Handle, rate: u64)
    ensures set { IsOnlySet (record (arena_heap_state handle.old.heap) { rate = rate; countdown = countdown_from rate }) handle.old.heap handle.new.heap }
    ensures room { handle.new.room ≡ handle.old.room }
{
    handle.open().set_release_rate(rate);
}

/// The bytes of the block at an address; 0 if none begins there.
#[unsafe(no_mangle)]
pub extern "C" fn limzhur_usable_size(handle: &mut Handle, address: u64) -> u64
    ensures some { HasBlock (arena_heap_state handle.old.heap) address → result ≡ usable (arena_heap_state handle.old.heap) address }
    ensures none { (HasBlock (arena_heap_state handle.old.heap) address → ⊥) → result ≡ 0 }
    ensures same { handle.new.heap ≡ handle.old.heap }
    ensures room { handle.new.room ≡ handle.old.room }
{
    match handle.open().usable_size(address) {
        Some(size) => size,
        None => 0,
    }
}

/// What a heap holds.
#[repr(C)]
#[derive(Drop)]
pub struct Stats {
    /// The bytes from the first word on that are in use: each granted byte is among them.
    pub used: u64,
    /// How many blocks there are.
    pub blocks: u64,
}

/// Says what a heap holds. The heap of any handle is intact, and its blocks are placed.
#[unsafe(no_mangle)]
pub extern "C" fn limzhur_stats(handle: &mut Handle, stats: &mut Stats)
    ensures holds { HoldsStats handle.old.heap stats.new }
    ensures intact { IsIntact regions_of word_of handle.old.heap }
    ensures placed { ArePlaced (regions_of handle.old.heap.system) (arena_heap_state handle.old.heap) }
    ensures same { handle.new.heap ≡ handle.old.heap }
    ensures room { handle.new.room ≡ handle.old.room }
{
    let heap = handle.open();
    heap.law_intact();
    heap.law_blocks_placed();
    *stats = Stats {
        used: 8 * heap.used() as u64,
        blocks: heap.blocks(),
    };
}
