// The least fit in a trie.
ghost use Rattle.std.specs.Prelude.{◌≡◌, ℕ, ◌+◌, ◌-◌, ◌*◌, ◌<◌, ◌≤◌, ◌⊎◌, List, true, false};
ghost use Rattle.bins.specs.Index.{IsNone};
ghost use Rattle.bins.specs.Tries.{width, IsInRange, IsScaled};
ghost use Rattle.bins.specs.Fits.{IsReadable, IsLesser, IsSearched};

use crate::fit::Fit;
use crate::leaf::first_child;
use crate::trie::{half_width, is_in_upper, low_of, next_bits, slot_of};
use crate::words::CHILD1;
use dlmalloc_chunks::chunk;
use heap_memory::{Links, Steps};
use std::sync::ledger::Ledger;

/// The lesser of a known chunk and the least chunk of a trie: down its leftmost path.
///
/// What is known goes down with the search, so the search is a loop.
pub(crate) fn least_of<M: Links, L: Ledger>(
    memory: &M,
    at: u64,
    levels: u32,
    known_size: u64,
    known: u64,
    steps: &mut Steps<L>,
) -> u64
    requires readable { (index : ℕ → List ℕ) × ((low : ℕ) × IsReadable (M.regions memory.now) (M.word memory.now) index low levels at) }
    ensures fit { (index : ℕ → List ℕ) → (low : ℕ) → IsReadable (M.regions memory.now) (M.word memory.now) index low levels at →
        IsSearched index low (low + width levels) known_size known result }
    ensures counted { steps.new ≤ steps.old + 3 * levels }
{
    if at == 0 {
        return known;
    }
    let own = Fit {
        size: chunk::size(memory, at, steps),
        chunk: at,
    };
    let child = first_child(memory, at, steps);
    let lesser = Fit {
        size: known_size,
        chunk: known,
    }
    .or_less(own, 0);
    least_of(
        memory,
        child.at,
        levels - 1,
        lesser.size,
        lesser.chunk,
        steps,
    )
}

/// A trie, by its root and the number of its levels.
#[derive(Clone, Copy)]
pub(crate) struct Subtrie {
    at: u64,
    levels: u32,
}

/// The trie after a path that goes on to a side of a node: the node's right child if the path leaves that aside, or
/// else the trie after the path so far.
fn behind(is_upper: bool, right: Subtrie, so_far: Subtrie) -> Subtrie
    ensures right { is_upper ≡ false → 0 < right.at → result ≡ right }
    ensures so_far { (is_upper ≡ true) ⊎ (right.at ≡ 0) → result ≡ so_far }
{
    if !is_upper && right.at != 0 {
        right
    } else {
        so_far
    }
}

/// The lesser of a known chunk and the least chunk of at least a size in a trie: down the path of the size, then the
/// leftmost path of the last trie that the path left aside on its right. That is `beside` if the path leaves none.
pub(crate) fn fit_below<M: Links, L: Ledger>(
    memory: &M,
    at: u64,
    low: u64,
    levels: u32,
    size: u64,
    bits: u64,
    known_size: u64,
    known: u64,
    beside: u64,
    beside_levels: u32,
    steps: &mut Steps<L>,
) -> u64
    requires range { IsInRange low levels size }
    requires bits { IsScaled low levels size bits }
    requires known { size ≤ known_size }
    requires deep { levels ≤ beside_levels }
    requires readable { (index : ℕ → List ℕ) × IsReadable (M.regions memory.now) (M.word memory.now) index low levels at }
    requires beside { (index : ℕ → List ℕ) × ((beside_low : ℕ) × IsReadable (M.regions memory.now) (M.word memory.now) index beside_low beside_levels beside) }
    ensures fit { (index : ℕ → List ℕ) → IsReadable (M.regions memory.now) (M.word memory.now) index low levels at →
        (other : ℕ → List ℕ) → (beside_low : ℕ) → IsReadable (M.regions memory.now) (M.word memory.now) other beside_low beside_levels beside → low + width levels ≤ beside_low →
        (IsNone index size (low + width levels) × IsSearched other beside_low (beside_low + width beside_levels) known_size known result) ⊎ IsLesser index size (low + width levels) known_size known result }
    ensures counted { steps.new ≤ steps.old + 3 * levels + 3 * beside_levels }
{
    if at == 0 {
        return least_of(memory, beside, beside_levels, known_size, known, steps);
    }
    let own = Fit {
        size: chunk::size(memory, at, steps),
        chunk: at,
    };
    if own.size == size {
        return at;
    }
    let half = half_width(levels);
    let is_upper = is_in_upper(low, half, size, bits);
    let child = memory.load_counted(slot_of(at, is_upper), steps);
    let right = Subtrie {
        at: memory.load_counted(at + CHILD1, steps),
        levels: levels - 1,
    };
    let so_far = Subtrie {
        at: beside,
        levels: beside_levels,
    };
    let next = behind(is_upper, right, so_far);
    let lesser = Fit {
        size: known_size,
        chunk: known,
    }
    .or_less(own, size);
    fit_below(
        memory,
        child,
        low_of(low, half, is_upper),
        levels - 1,
        size,
        next_bits(bits),
        lesser.size,
        lesser.chunk,
        next.at,
        next.levels,
        steps,
    )
}
