// The tries of large chunks.
ghost use Rattle.std.specs.Prelude.{◌≡◌, ℕ, ◌+◌, ◌-◌, ◌*◌, ◌%◌, ◌^◌, ◌<◌, ◌≤◌, List};
ghost use Rattle.bins.specs.Tries.{width, slot, low_at, IsInRange, IsScaled, IsAligned};
ghost use Rattle.bins.specs.Linked.{IsFreshChunk};
ghost use Rattle.bins.specs.Stores.{HasJoined, HasLinks, HasNode, HasLeaf};
ghost use Rattle.bins.specs.Places.{HasRoom, CanJoin, CanBeLeaf};
ghost use Rattle.bins.specs.Work.{TakesSteps, TakesAtMost};
ghost use Rattle.bins.specs.Below.{IsHeld, HasGained};

use crate::words::{CHILD0, CHILD1, INDEX, NEXT, PARENT, PREV};
use dlmalloc_chunks::chunk;
use heap_memory::{Links, Steps};
use std::sync::ledger::Ledger;

/// Half the bytes of the range of a trie with `levels` levels.
pub(crate) fn half_width(levels: u32) -> u64
    requires some { 0 < levels }
    requires few { levels ≤ 61 }
    ensures { result ≡ width (levels - 1) }
{
    8 << (levels - 1)
}

/// Where a size lies in the range of a trie, scaled so that the whole range is that of 64-bit words. The top bit then
/// says in which half it lies (dlmalloc: `leftshift_for_tree_index`). The range begins at a multiple of its length, and
/// the shift drops the bits of that.
pub(crate) fn path_bits(low: u64, levels: u32, size: u64) -> u64
    requires few { levels ≤ 61 }
    requires above { low ≤ size }
    requires below { size < low + width levels }
    requires whole { IsAligned low levels }
    ensures { IsScaled low levels size result }
{
    size << (61 - levels)
}

/// The same for the half in which it lies, as the range of a child.
pub(crate) fn next_bits(bits: u64) -> u64
    ensures { result ≡ 2 * bits % 2 ^ 64 }
{
    bits << 1
}

/// Whether a size is in the upper half of a range, by the top bit of the scaled size.
pub(crate) fn is_in_upper(low: u64, half: u64, size: u64, bits: u64) -> bool
    requires above { low ≤ size }
    requires below { size < low + 2 * half }
    requires bits { (scale : ℕ) × ((half * scale ≡ 2 ^ 63) × (bits ≡ (size - low) * scale)) }
    ensures above { low_at result low half ≤ size }
    ensures below { size < low_at result low half + half }
{
    bits >= 1 << 63
}

/// The place of a child's word.
pub(crate) fn slot_of(at: u64, is_upper: bool) -> u64
    requires { at + 40 < 2 ^ 64 }
    ensures { result ≡ at + slot is_upper }
{
    at + if is_upper { CHILD1 } else { CHILD0 }
}

/// Where the range of a child begins.
pub(crate) fn low_of(low: u64, half: u64, is_upper: bool) -> u64
    requires { low + half < 2 ^ 64 }
    ensures { result ≡ low_at is_upper low half }
{
    if is_upper { low + half } else { low }
}

/// Puts a chunk after the last of a node's ring.
fn join_ring<M: Links, L: Ledger>(memory: &mut M, at: u64, chunk: u64, steps: &mut Steps<L>)
    requires { CanJoin (M.regions memory.old) (M.word memory.old) at chunk }
    ensures joined { HasJoined (M.regions memory.old) (M.word memory.old) at chunk (M.word memory.new) }
    ensures work { TakesSteps M.Links 5 memory.old steps.old memory.new steps.new }
{
    let last = memory.load_counted(at + PREV, steps);
    memory.store_counted(chunk + PREV, last, steps);
    memory.store_counted(chunk + NEXT, at, steps);
    memory.store_counted(last + NEXT, chunk, steps);
    memory.store_counted(at + PREV, chunk, steps);
}

/// Stores both links of a chunk.
fn set_links<M: Links, L: Ledger>(
    memory: &mut M,
    chunk: u64,
    prev: u64,
    next: u64,
    steps: &mut Steps<L>,
)
    requires { HasRoom (M.regions memory.old) chunk }
    ensures links { HasLinks (M.regions memory.old) (M.word memory.old) chunk prev next (M.word memory.new) }
    ensures work { TakesSteps M.Links 2 memory.old steps.old memory.new steps.new }
{
    memory.store_counted(chunk + PREV, prev, steps);
    memory.store_counted(chunk + NEXT, next, steps);
}

/// Stores the four words of a node.
pub(crate) fn set_node<M: Links, L: Ledger>(
    memory: &mut M,
    chunk: u64,
    child0: u64,
    child1: u64,
    parent: u64,
    bin: u64,
    steps: &mut Steps<L>,
)
    requires { HasRoom (M.regions memory.old) chunk }
    ensures node { HasNode (M.regions memory.old) (M.word memory.old) chunk child0 child1 parent bin (M.word memory.new) }
    ensures work { TakesSteps M.Links 4 memory.old steps.old memory.new steps.new }
{
    memory.store_counted(chunk + CHILD0, child0, steps);
    memory.store_counted(chunk + CHILD1, child1, steps);
    memory.store_counted(chunk + PARENT, parent, steps);
    memory.store_counted(chunk + INDEX, bin, steps);
}

/// Makes a chunk a leaf, named by a word.
fn make_leaf<M: Links, L: Ledger>(
    memory: &mut M,
    place: u64,
    parent: u64,
    bin: u64,
    chunk: u64,
    steps: &mut Steps<L>,
)
    requires { CanBeLeaf (M.regions memory.old) place chunk }
    ensures leaf { HasLeaf (M.regions memory.old) (M.word memory.old) place parent bin chunk (M.word memory.new) }
    ensures work { TakesSteps M.Links 7 memory.old steps.old memory.new steps.new }
{
    set_links(memory, chunk, chunk, chunk, steps);
    set_node(memory, chunk, 0, 0, parent, bin, steps);
    memory.store_counted(place, chunk, steps);
}

/// Puts a chunk into the trie at a node.
pub(crate) fn insert_below<M: Links, L: Ledger>(
    memory: &mut M,
    at: u64,
    low: u64,
    levels: u32,
    bin: u64,
    chunk: u64,
    size: u64,
    bits: u64,
    steps: &mut Steps<L>,
)
    requires some { 0 < at }
    requires range { IsInRange low levels size }
    requires bits { IsScaled low levels size bits }
    requires large { 256 ≤ size }
    requires held { (index : ℕ → List ℕ) × ((parent : ℕ) × (IsHeld (M.regions memory.old) (M.word memory.old) index bin parent low levels at × IsFreshChunk (M.regions memory.old) (M.word memory.old) index size chunk)) }
    ensures gained { (index : ℕ → List ℕ) (parent : ℕ) → IsHeld (M.regions memory.old) (M.word memory.old) index bin parent low levels at → IsFreshChunk (M.regions memory.old) (M.word memory.old) index size chunk →
        HasGained (M.regions memory.old) (M.word memory.old) (M.word memory.new) index bin parent low levels size chunk at }
    ensures work { TakesAtMost M.Links (2 * levels + 7) memory.old steps.old memory.new steps.new }
{
    let here = chunk::size(memory, at, steps);
    if here == size {
        join_ring(memory, at, chunk, steps);
        return;
    }
    let half = half_width(levels);
    let is_upper = is_in_upper(low, half, size, bits);
    let place = slot_of(at, is_upper);
    let child = memory.load_counted(place, steps);
    if child == 0 {
        make_leaf(memory, place, at, bin, chunk, steps);
    } else {
        insert_below(
            memory,
            child,
            low_of(low, half, is_upper),
            levels - 1,
            bin,
            chunk,
            size,
            next_bits(bits),
            steps,
        );
    }
}

/// Puts a chunk into a trie. Answers the root.
pub(crate) fn plant<M: Links, L: Ledger>(
    memory: &mut M,
    root: u64,
    low: u64,
    levels: u32,
    parent: u64,
    bin: u64,
    chunk: u64,
    size: u64,
    steps: &mut Steps<L>,
) -> u64
    requires deep { 0 < levels }
    requires range { IsInRange low levels size }
    requires whole { IsAligned low levels }
    requires large { 256 ≤ size }
    requires held { (index : ℕ → List ℕ) × (IsHeld (M.regions memory.old) (M.word memory.old) index bin parent low levels root × IsFreshChunk (M.regions memory.old) (M.word memory.old) index size chunk) }
    ensures gained { (index : ℕ → List ℕ) → IsHeld (M.regions memory.old) (M.word memory.old) index bin parent low levels root → IsFreshChunk (M.regions memory.old) (M.word memory.old) index size chunk →
        HasGained (M.regions memory.old) (M.word memory.old) (M.word memory.new) index bin parent low levels size chunk result }
    ensures work { TakesAtMost M.Links (2 * levels + 7) memory.old steps.old memory.new steps.new }
{
    if root == 0 {
        set_links(memory, chunk, chunk, chunk, steps);
        set_node(memory, chunk, 0, 0, parent, bin, steps);
        return chunk;
    }
    let bits = path_bits(low, levels, size);
    insert_below(memory, root, low, levels, bin, chunk, size, bits, steps);
    root
}
