// A chunk leaves a trie.
ghost use Rattle.std.specs.Prelude.{◌≡◌, ◌≢◌, ℕ, ◌+◌, ◌-◌, ◌*◌, ◌<◌, ◌≤◌, Bool, not, List};
ghost use Rattle.heap_memory.specs.Words.{IsStored};
ghost use Rattle.dlmalloc_chunks.specs.Head.{size_of};
ghost use Rattle.bins.specs.Index.{IsIn};
ghost use Rattle.bins.specs.Tries.{both, slot, IsInRange, IsScaled, IsAligned};
ghost use Rattle.bins.specs.Below.{IsHeld, HasLeft, HasGivenWay};
ghost use Rattle.bins.specs.Stores.{IsWordPlace, HasPulled, HasHeirLinks, HasPlaced};
ghost use Rattle.bins.specs.Places.{HasRoom, CanLeaveRing, CanTurn, CanBeNode};
ghost use Rattle.bins.specs.Work.{TakesSteps, TakesAtMost};
ghost use Rattle.bins.specs.Children.{IsChildOf};

use crate::leaf::{first_child, place_node, take_leaf};
use crate::small::pull;
use crate::trie::{half_width, is_in_upper, low_of, next_bits, path_bits, slot_of};
use crate::words::{CHILD0, CHILD1, NEXT, PREV};
use dlmalloc_chunks::chunk;
use heap_memory::{Links, Steps};
use std::sync::ledger::Ledger;

/// Takes a chunk that is not the oldest out of the ring of a node.
fn leave_ring<M: Links, L: Ledger>(memory: &mut M, chunk: u64, steps: &mut Steps<L>)
    requires { CanLeaveRing (M.regions memory.old) (M.word memory.old) chunk }
    ensures pulled { HasPulled (M.regions memory.old) (M.word memory.old) (M.word memory.old (chunk + 16)) (M.word memory.old (chunk + 24)) 0 (M.word memory.new) }
    ensures work { TakesAtMost M.Links 4 memory.old steps.old memory.new steps.new }
{
    let prev = memory.load_counted(chunk + PREV, steps);
    let next = memory.load_counted(chunk + NEXT, steps);
    pull(memory, prev, next, 0, steps);
}

/// Gives the heir of a node the ring's last, and the last the heir.
fn turn_heir<M: Links, L: Ledger>(memory: &mut M, heir: u64, last: u64, steps: &mut Steps<L>)
    requires { CanTurn (M.regions memory.old) heir last }
    ensures turned { HasHeirLinks (M.regions memory.old) (M.word memory.old) heir last (M.word memory.new) }
    ensures work { TakesSteps M.Links 2 memory.old steps.old memory.new steps.new }
{
    memory.store_counted(heir + PREV, last, steps);
    memory.store_counted(last + NEXT, heir, steps);
}

/// Puts the heir of a node in its place.
fn give_to_heir<M: Links, L: Ledger>(
    memory: &mut M,
    at: u64,
    heir: u64,
    parent: u64,
    bin: u64,
    steps: &mut Steps<L>,
)
    requires here { HasRoom (M.regions memory.old) at }
    requires turn { CanTurn (M.regions memory.old) heir (M.word memory.old (at + 16)) }
    requires node { CanBeNode (M.regions memory.old) heir (both (M.word memory.old (at + 32)) (M.word memory.old (at + 40))) }
    ensures given { (mid : ℕ → ℕ) × (HasHeirLinks (M.regions memory.old) (M.word memory.old) heir (M.word memory.old (at + 16)) mid
        × HasPlaced (M.regions memory.old) mid heir (both (M.word memory.old (at + 32)) (M.word memory.old (at + 40))) parent bin (M.word memory.new)) }
    ensures work { TakesAtMost M.Links 11 memory.old steps.old memory.new steps.new }
{
    let last = memory.load_counted(at + PREV, steps);
    let child0 = memory.load_counted(at + CHILD0, steps);
    let child1 = memory.load_counted(at + CHILD1, steps);
    turn_heir(memory, heir, last, steps);
    place_node(memory, heir, child0, child1, parent, bin, steps);
}

/// One of two numbers, by a side.
fn pick(is_upper: bool, lower: u64, upper: u64) -> u64
    ensures { result ≡ both lower upper is_upper }
{
    if is_upper { upper } else { lower }
}

/// What is left at a child's word after a leaf has left.
fn rest_of(leaf: u64, child: u64) -> u64
    ensures none { leaf ≡ child → result ≡ 0 }
    ensures same { leaf ≢ child → result ≡ child }
{
    if leaf == child { 0 } else { child }
}

/// Puts a leaf from below in the place of a node that is alone in its ring and has this first child. The trie has at
/// most `levels` levels.
#[inline(never)]
fn raise_leaf<M: Links, L: Ledger>(
    memory: &mut M,
    at: u64,
    is_upper: bool,
    child: u64,
    levels: u32,
    parent: u64,
    bin: u64,
    steps: &mut Steps<L>,
) -> u64
    requires child { IsChildOf (M.word memory.old) at is_upper child }
    requires held { (index : ℕ → List ℕ) × ((low : ℕ) × ((deep : ℕ) × ((deep ≤ levels) × IsHeld (M.regions memory.old) (M.word memory.old) index bin parent low deep at))) }
    ensures given { (index : ℕ → List ℕ) (low deep : ℕ) → deep ≤ levels → IsHeld (M.regions memory.old) (M.word memory.old) index bin parent low deep at →
        HasGivenWay (M.regions memory.old) (M.word memory.old) (M.word memory.new) index bin parent low deep at result }
    ensures work { TakesAtMost M.Links (3 * levels + 4) memory.old steps.old memory.new steps.new }
{
    let other = memory.load_counted(slot_of(at, !is_upper), steps);
    let leaf = take_leaf(memory, child, levels - 1, steps);
    let rest = rest_of(leaf, child);
    let child0 = pick(is_upper, rest, other);
    let child1 = pick(is_upper, other, rest);
    place_node(memory, leaf, child0, child1, parent, bin, steps);
    leaf
}

/// Puts a leaf from below in the place of a node that is alone in its ring. Answers 0 if nothing is below. The trie has
/// at most `levels` levels.
#[inline(always)]
fn give_to_leaf<M: Links, L: Ledger>(
    memory: &mut M,
    at: u64,
    levels: u32,
    parent: u64,
    bin: u64,
    steps: &mut Steps<L>,
) -> u64
    requires some { 0 < at }
    requires held { (index : ℕ → List ℕ) × ((low : ℕ) × ((deep : ℕ) × ((deep ≤ levels) × IsHeld (M.regions memory.old) (M.word memory.old) index bin parent low deep at))) }
    ensures given { (index : ℕ → List ℕ) (low deep : ℕ) → deep ≤ levels → IsHeld (M.regions memory.old) (M.word memory.old) index bin parent low deep at →
        HasGivenWay (M.regions memory.old) (M.word memory.old) (M.word memory.new) index bin parent low deep at result }
    ensures work { TakesAtMost M.Links (3 * levels + 6) memory.old steps.old memory.new steps.new }
{
    let child = first_child(memory, at, steps);
    if child.at == 0 {
        return 0;
    }
    raise_leaf(
        memory,
        at,
        child.is_upper,
        child.at,
        levels,
        parent,
        bin,
        steps,
    )
}

/// Takes a node out of a trie of at most `levels` levels, and puts its heir in its place: the next of its ring, or else
/// a leaf from below. Answers the heir, or 0 if there is none.
#[inline(always)]
pub(crate) fn replace_node<M: Links, L: Ledger>(
    memory: &mut M,
    at: u64,
    levels: u32,
    parent: u64,
    bin: u64,
    steps: &mut Steps<L>,
) -> u64
    requires some { 0 < at }
    requires held { (index : ℕ → List ℕ) × ((low : ℕ) × ((deep : ℕ) × ((size : ℕ) × ((deep ≤ levels) × (IsHeld (M.regions memory.old) (M.word memory.old) index bin parent low deep at × IsIn at (index size)))))) }
    ensures left { (index : ℕ → List ℕ) (low deep size : ℕ) → deep ≤ levels → IsHeld (M.regions memory.old) (M.word memory.old) index bin parent low deep at → IsIn at (index size) →
        HasLeft (M.regions memory.old) (M.word memory.old) (M.word memory.new) index bin parent low deep size at result }
    ensures work { TakesAtMost M.Links (3 * levels + 9) memory.old steps.old memory.new steps.new }
{
    let heir = memory.load_counted(at + NEXT, steps);
    if heir == at {
        return give_to_leaf(memory, at, levels, parent, bin, steps);
    }
    give_to_heir(memory, at, heir, parent, bin, steps);
    heir
}

/// Names a node, or 0, as a child of another, in the place of one that was its child.
pub(crate) fn swap_child<M: Links, L: Ledger>(
    memory: &mut M,
    parent: u64,
    was: u64,
    child: u64,
    steps: &mut Steps<L>,
)
    requires places { (side : Bool) → IsWordPlace (M.regions memory.old) (parent + slot side) }
    requires was { (side : Bool) × ((M.word memory.old (parent + slot side) ≡ was) × (M.word memory.old (parent + slot (not side)) ≢ was)) }
    ensures stored { (side : Bool) → M.word memory.old (parent + slot side) ≡ was → M.word memory.old (parent + slot (not side)) ≢ was →
        IsStored (M.regions memory.old) (M.word memory.old) (parent + slot side) child (M.word memory.new) }
    ensures work { TakesSteps M.Links 2 memory.old steps.old memory.new steps.new }
{
    let lower = memory.load_counted(parent + CHILD0, steps);
    memory.store_counted(slot_of(parent, lower != was), child, steps);
}

/// Takes a chunk out of the ring of a node of its size. Answers the node that stands there then.
#[inline(always)]
fn unlink_here<M: Links, L: Ledger>(
    memory: &mut M,
    at: u64,
    levels: u32,
    parent: u64,
    bin: u64,
    chunk: u64,
    steps: &mut Steps<L>,
) -> u64
    requires some { 0 < at }
    requires held { (index : ℕ → List ℕ) × ((low : ℕ) × ((size : ℕ) × (IsHeld (M.regions memory.old) (M.word memory.old) index bin parent low levels at × (IsIn at (index size) × IsIn chunk (index size))))) }
    ensures left { (index : ℕ → List ℕ) (low size : ℕ) → IsHeld (M.regions memory.old) (M.word memory.old) index bin parent low levels at → IsIn at (index size) → IsIn chunk (index size) →
        HasLeft (M.regions memory.old) (M.word memory.old) (M.word memory.new) index bin parent low levels size chunk result }
    ensures work { TakesAtMost M.Links (3 * levels + 12) memory.old steps.old memory.new steps.new }
{
    if chunk != at {
        leave_ring(memory, chunk, steps);
        return at;
    }
    replace_node(memory, at, levels, parent, bin, steps)
}

/// Takes a chunk out of the trie under a node of another size, which stays.
///
/// Nothing is done on the way back, so the walk is a loop.
fn unlink_under<M: Links, L: Ledger>(
    memory: &mut M,
    at: u64,
    low: u64,
    levels: u32,
    bin: u64,
    chunk: u64,
    size: u64,
    bits: u64,
    steps: &mut Steps<L>,
)
    requires some { 0 < at }
    requires range { IsInRange low levels size }
    requires bits { IsScaled low levels size bits }
    requires other { size_of (M.word memory.old (at + 8)) ≢ size }
    requires held { (index : ℕ → List ℕ) × ((parent : ℕ) × (IsHeld (M.regions memory.old) (M.word memory.old) index bin parent low levels at × IsIn chunk (index size))) }
    ensures left { (index : ℕ → List ℕ) (parent : ℕ) → IsHeld (M.regions memory.old) (M.word memory.old) index bin parent low levels at → IsIn chunk (index size) →
        HasLeft (M.regions memory.old) (M.word memory.old) (M.word memory.new) index bin parent low levels size chunk at }
    ensures work { TakesAtMost M.Links (3 * levels + 12) memory.old steps.old memory.new steps.new }
{
    let half = half_width(levels);
    let is_upper = is_in_upper(low, half, size, bits);
    let place = slot_of(at, is_upper);
    let child = memory.load_counted(place, steps);
    let child_low = low_of(low, half, is_upper);
    let below = chunk::size(memory, child, steps);
    if below != size {
        unlink_under(
            memory,
            child,
            child_low,
            levels - 1,
            bin,
            chunk,
            size,
            next_bits(bits),
            steps,
        );
    } else {
        let left = unlink_here(memory, child, levels - 1, at, bin, chunk, steps);
        memory.store_counted(place, left, steps);
    }
}

/// Takes a chunk out of the trie at a node. Answers the node that stands there then, or 0.
pub(crate) fn unlink_below<M: Links, L: Ledger>(
    memory: &mut M,
    at: u64,
    low: u64,
    levels: u32,
    parent: u64,
    bin: u64,
    chunk: u64,
    size: u64,
    steps: &mut Steps<L>,
) -> u64
    requires some { 0 < at }
    requires range { IsInRange low levels size }
    requires whole { IsAligned low levels }
    requires held { (index : ℕ → List ℕ) × (IsHeld (M.regions memory.old) (M.word memory.old) index bin parent low levels at × IsIn chunk (index size)) }
    ensures left { (index : ℕ → List ℕ) → IsHeld (M.regions memory.old) (M.word memory.old) index bin parent low levels at → IsIn chunk (index size) →
        HasLeft (M.regions memory.old) (M.word memory.old) (M.word memory.new) index bin parent low levels size chunk result }
    ensures work { TakesAtMost M.Links (3 * levels + 13) memory.old steps.old memory.new steps.new }
{
    let here = chunk::size(memory, at, steps);
    if here == size {
        return unlink_here(memory, at, levels, parent, bin, chunk, steps);
    }
    let bits = path_bits(low, levels, size);
    unlink_under(memory, at, low, levels, bin, chunk, size, bits, steps);
    at
}
