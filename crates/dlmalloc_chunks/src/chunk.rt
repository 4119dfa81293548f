//! The calls on one chunk (dlmalloc: the methods of `Chunk`). Each load and store of a word is counted as one step.
//!
//! A chunk's address, and a size or next chunk that is handed in, are multiples of 8, and the words that a call names
//! are granted. No call changes a granted region, or a word that it does not name.
ghost use Rattle.std.specs.Prelude.{◌≡◌, ℕ, ◌+◌, ◌-◌, ◌%◌, ◌^◌, ◌<◌, ◌≤◌, ◌==◌, true, false, not, if◌then◌else◌, [], ◌∷◌};
ghost use Rattle.heap_memory.specs.Regions.{IsWordOf};
ghost use Rattle.heap_memory.specs.Asks.{StoresWord};
ghost use Rattle.dlmalloc_chunks.specs.Head.{size_of, pinuse_of, cinuse_of, free_of, head_of, with_pinuse, without_pinuse};
ghost use Rattle.dlmalloc_chunks.specs.Chunk.{HasHead, HasFoot, HasHeads, HasHeadAndFoot, StoresWords};

use crate::head;
use heap_memory::{Links, Steps};
use std::sync::ledger::Ledger;

/// The place of the head in a chunk.
const HEAD: u64 = 8;

/// The size of the chunk.
pub fn size<M: Links, L: Ledger>(memory: &M, chunk: u64, steps: &mut Steps<L>) -> u64
    requires { HasHead (M.regions memory.now) chunk }
    ensures value { result ≡ size_of (M.word memory.now (chunk + 8)) }
    ensures counted { steps.new ≡ steps.old + 1 }
{
    head::size_of(memory.load_counted(chunk + HEAD, steps))
}

/// The chunk after it.
pub fn next<M: Links, L: Ledger>(memory: &M, chunk: u64, steps: &mut Steps<L>) -> u64
    requires head { HasHead (M.regions memory.now) chunk }
    requires fits { chunk + size_of (M.word memory.now (chunk + 8)) < 2 ^ 64 }
    ensures value { result ≡ chunk + size_of (M.word memory.now (chunk + 8)) }
    ensures counted { steps.new ≡ steps.old + 1 }
{
    chunk + size(memory, chunk, steps)
}

/// The chunk before it, if that is free: its size stands in the prev_foot.
pub fn prev<M: Links, L: Ledger>(memory: &M, chunk: u64, steps: &mut Steps<L>) -> u64
    requires foot { HasFoot (M.regions memory.now) chunk }
    requires fits { M.word memory.now chunk ≤ chunk }
    ensures value { result ≡ chunk - M.word memory.now chunk }
    ensures counted { steps.new ≡ steps.old + 1 }
{
    chunk - memory.load_counted(chunk, steps)
}

/// Whether the chunk is in use, by bit 1 of its head.
pub fn cinuse<M: Links, L: Ledger>(memory: &M, chunk: u64, steps: &mut Steps<L>) -> bool
    requires { HasHead (M.regions memory.now) chunk }
    ensures value { result ≡ cinuse_of (M.word memory.now (chunk + 8)) }
    ensures counted { steps.new ≡ steps.old + 1 }
{
    head::cinuse_of(memory.load_counted(chunk + HEAD, steps))
}

/// Whether the chunk before it is in use, by bit 0 of its head.
pub fn pinuse<M: Links, L: Ledger>(memory: &M, chunk: u64, steps: &mut Steps<L>) -> bool
    requires { HasHead (M.regions memory.now) chunk }
    ensures value { result ≡ pinuse_of (M.word memory.now (chunk + 8)) }
    ensures counted { steps.new ≡ steps.old + 1 }
{
    head::pinuse_of(memory.load_counted(chunk + HEAD, steps))
}

/// Whether the chunk is not free: it is free exactly if bit 0 of its head is set and bit 1 is clear.
pub fn inuse<M: Links, L: Ledger>(memory: &M, chunk: u64, steps: &mut Steps<L>) -> bool
    requires { HasHead (M.regions memory.now) chunk }
    ensures value { result ≡ not (free_of (M.word memory.now (chunk + 8))) }
    ensures counted { steps.new ≡ steps.old + 1 }
{
    let head = memory.load_counted(chunk + HEAD, steps);
    !head::pinuse_of(head) || head::cinuse_of(head)
}

/// Clears bit 0 of the head.
pub fn clear_pinuse<M: Links, L: Ledger>(memory: &mut M, chunk: u64, steps: &mut Steps<L>)
    requires { HasHead (M.regions memory.old) chunk }
    ensures stores { StoresWord M.Links (chunk + 8) (without_pinuse (M.word memory.old (chunk + 8))) memory.old memory.new }
    ensures counted { steps.new ≡ steps.old + 2 }
{
    let head = memory.load_counted(chunk + HEAD, steps);
    memory.store_counted(chunk + HEAD, head::without_pinuse(head), steps);
}

/// Sets bit 0 of the head.
fn set_pinuse<M: Links, L: Ledger>(memory: &mut M, chunk: u64, steps: &mut Steps<L>)
    requires { HasHead (M.regions memory.old) chunk }
    ensures stores { StoresWord M.Links (chunk + 8) (with_pinuse (M.word memory.old (chunk + 8))) memory.old memory.new }
    ensures counted { steps.new ≡ steps.old + 2 }
{
    let head = memory.load_counted(chunk + HEAD, steps);
    memory.store_counted(chunk + HEAD, head::with_pinuse(head), steps);
}

/// Makes a chunk of this size that is in use, as the chunk after it then says; bit 0 of its head stays. (With size 0
/// the chunk itself is the one after it.)
pub fn set_inuse<M: Links, L: Ledger>(memory: &mut M, chunk: u64, size: u64, steps: &mut Steps<L>)
    requires { HasHeads (M.regions memory.old) chunk size }
    ensures stores { StoresWords M.Links
        ((chunk + 8, head_of size (pinuse_of (M.word memory.old (chunk + 8))) true)
        ∷ (chunk + size + 8, with_pinuse (if size == 0 then head_of size (pinuse_of (M.word memory.old (chunk + 8))) true else M.word memory.old (chunk + size + 8)))
        ∷ []) memory.old memory.new }
    ensures counted { steps.new ≡ steps.old + 4 }
{
    let pinuse = pinuse(memory, chunk, steps);
    memory.store_counted(chunk + HEAD, head::used_head(size, pinuse), steps);
    set_pinuse(memory, chunk + size, steps);
}

/// Makes a chunk of this size that is in use, as is the chunk before it, and as the chunk after it then says. (With size
/// 0 the chunk itself is the one after it.)
pub fn set_inuse_and_pinuse<M: Links, L: Ledger>(
    memory: &mut M,
    chunk: u64,
    size: u64,
    steps: &mut Steps<L>,
)
    requires { HasHeads (M.regions memory.old) chunk size }
    ensures stores { StoresWords M.Links
        ((chunk + 8, head_of size true true)
        ∷ (chunk + size + 8, with_pinuse (if size == 0 then head_of size true true else M.word memory.old (chunk + size + 8)))
        ∷ []) memory.old memory.new }
    ensures counted { steps.new ≡ steps.old + 3 }
{
    set_size_and_pinuse_of_inuse_chunk(memory, chunk, size, steps);
    set_pinuse(memory, chunk + size, steps);
}

/// Makes the head that of a chunk of this size that is in use, as is the chunk before it.
pub fn set_size_and_pinuse_of_inuse_chunk<M: Links, L: Ledger>(
    memory: &mut M,
    chunk: u64,
    size: u64,
    steps: &mut Steps<L>,
)
    requires size { size % 8 ≡ 0 }
    requires head { HasHead (M.regions memory.old) chunk }
    ensures stores { StoresWord M.Links (chunk + 8) (head_of size true true) memory.old memory.new }
    ensures counted { steps.new ≡ steps.old + 1 }
{
    memory.store_counted(chunk + HEAD, head::used_head(size, true), steps);
}

/// Puts the size of a free chunk into the prev_foot of the chunk after it.
pub fn set_foot<M: Links, L: Ledger>(memory: &mut M, chunk: u64, size: u64, steps: &mut Steps<L>)
    requires { HasFoot (M.regions memory.old) (chunk + size) }
    ensures stores { StoresWord M.Links (chunk + size) size memory.old memory.new }
    ensures counted { steps.new ≡ steps.old + 1 }
{
    memory.store_counted(chunk + size, size, steps);
}

/// Makes a free chunk of this size; the chunk before it is in use.
pub fn set_size_and_pinuse_of_free_chunk<M: Links, L: Ledger>(
    memory: &mut M,
    chunk: u64,
    size: u64,
    steps: &mut Steps<L>,
)
    requires { HasHeadAndFoot (M.regions memory.old) chunk size }
    ensures stores { StoresWords M.Links
        ((chunk + 8, head_of size true false) ∷ (chunk + size, size) ∷ []) memory.old memory.new }
    ensures counted { steps.new ≡ steps.old + 2 }
{
    memory.store_counted(chunk + HEAD, head::free_head(size), steps);
    set_foot(memory, chunk, size, steps);
}

/// Makes a free chunk of this size, as the chunk `next` after it then says; the chunk before it is in use.
pub fn set_free_with_pinuse<M: Links, L: Ledger>(
    memory: &mut M,
    chunk: u64,
    size: u64,
    next: u64,
    steps: &mut Steps<L>,
)
    requires own { HasHeadAndFoot (M.regions memory.old) chunk size }
    requires next { HasHead (M.regions memory.old) next }
    ensures stores { StoresWords M.Links
        ((next + 8, without_pinuse (M.word memory.old (next + 8))) ∷ (chunk + 8, head_of size true false) ∷ (chunk + size, size) ∷ []) memory.old memory.new }
    ensures counted { steps.new ≡ steps.old + 4 }
{
    clear_pinuse(memory, next, steps);
    set_size_and_pinuse_of_free_chunk(memory, chunk, size, steps);
}
