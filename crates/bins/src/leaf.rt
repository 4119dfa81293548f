// Leaves of a trie.
ghost use Rattle.std.specs.Prelude.{ℕ, ◌+◌, ◌*◌, ◌<◌, ◌≤◌, ◌≢◌, List, false, true};
ghost use Rattle.heap_memory.specs.Asks.{AsksNothing};
ghost use Rattle.bins.specs.Tries.{both};
ghost use Rattle.bins.specs.Stores.{IsWordPlace, HasAdopted, HasPlaced};
ghost use Rattle.bins.specs.Places.{HasChildPlaces, CanBeNode};
ghost use Rattle.bins.specs.Work.{TakesAtMost};
ghost use Rattle.bins.specs.Children.{IsChildOf, IsFirstChild};
ghost use Rattle.bins.specs.Below.{IsHeld};
ghost use Rattle.bins.specs.Fits.{IsTakenOut};

use crate::trie::{set_node, slot_of};
use crate::words::{CHILD0, CHILD1, PARENT};
use heap_memory::{Links, Steps};
use std::sync::ledger::Ledger;

/// A child of a node.
#[derive(Clone, Copy)]
pub(crate) struct Child {
    pub(crate) at: u64,
    pub(crate) is_upper: bool,
}

/// The left child of a node, or its right child if it has no left one.
pub(crate) fn first_child<M: Links, L: Ledger>(memory: &M, at: u64, steps: &mut Steps<L>) -> Child
    requires { HasChildPlaces (M.regions memory.now) at }
    ensures first { IsFirstChild (M.word memory.now) at result }
    ensures counted { steps.new ≤ steps.old + 2 }
{
    let left = memory.load_counted(at + CHILD0, steps);
    if left != 0 {
        return Child {
            at: left,
            is_upper: false,
        };
    }
    Child {
        at: memory.load_counted(at + CHILD1, steps),
        is_upper: true,
    }
}

/// Names a chunk as the parent of a child, if there is one.
fn adopt<M: Links, L: Ledger>(memory: &mut M, child: u64, chunk: u64, steps: &mut Steps<L>)
    requires { 0 < child → IsWordPlace (M.regions memory.old) (child + 48) }
    ensures adopted { HasAdopted (M.regions memory.old) (M.word memory.old) child chunk (M.word memory.new) }
    ensures work { TakesAtMost M.Links 1 memory.old steps.old memory.new steps.new }
{
    if child != 0 {
        memory.store_counted(child + PARENT, chunk, steps);
    }
}

/// Makes a chunk a node with these children.
pub(crate) fn place_node<M: Links, L: Ledger>(
    memory: &mut M,
    chunk: u64,
    child0: u64,
    child1: u64,
    parent: u64,
    bin: u64,
    steps: &mut Steps<L>,
)
    requires { CanBeNode (M.regions memory.old) chunk (both child0 child1) }
    ensures placed { HasPlaced (M.regions memory.old) (M.word memory.old) chunk (both child0 child1) parent bin (M.word memory.new) }
    ensures work { TakesAtMost M.Links 6 memory.old steps.old memory.new steps.new }
{
    set_node(memory, chunk, child0, child1, parent, bin, steps);
    adopt(memory, child0, chunk, steps);
    adopt(memory, child1, chunk, steps);
}

/// Takes a leaf out from below a node, on the way that begins with this child of it. The trie has at most `levels`
/// levels.
///
/// Nothing is done on the way back, so the walk is a loop.
fn take_under<M: Links, L: Ledger>(
    memory: &mut M,
    at: u64,
    is_upper: bool,
    child: u64,
    levels: u32,
    steps: &mut Steps<L>,
) -> u64
    requires child { IsChildOf (M.word memory.old) at is_upper child }
    requires held { (index : ℕ → List ℕ) × ((bin : ℕ) × ((parent : ℕ) × ((low : ℕ) × ((deep : ℕ) × ((deep ≤ levels) × IsHeld (M.regions memory.old) (M.word memory.old) index bin parent low deep at))))) }
    ensures taken { (index : ℕ → List ℕ) (bin parent low deep : ℕ) → deep ≤ levels → IsHeld (M.regions memory.old) (M.word memory.old) index bin parent low deep at →
        IsTakenOut (M.regions memory.old) (M.word memory.old) (M.word memory.new) index bin parent low deep at result }
    ensures other { result ≢ at }
    ensures asks { AsksNothing M.Links memory.old memory.new }
    ensures counted { steps.new + 2 ≤ steps.old + 3 * levels }
{
    let next = first_child(memory, child, steps);
    if next.at == 0 {
        memory.store_counted(slot_of(at, is_upper), 0, steps);
        return child;
    }
    take_under(memory, child, next.is_upper, next.at, levels - 1, steps)
}

/// Takes a leaf out of a trie that is not empty, of at most `levels` levels.
pub(crate) fn take_leaf<M: Links, L: Ledger>(
    memory: &mut M,
    at: u64,
    levels: u32,
    steps: &mut Steps<L>,
) -> u64
    requires some { 0 < at }
    requires held { (index : ℕ → List ℕ) × ((bin : ℕ) × ((parent : ℕ) × ((low : ℕ) × ((deep : ℕ) × ((deep ≤ levels) × IsHeld (M.regions memory.old) (M.word memory.old) index bin parent low deep at))))) }
    ensures taken { (index : ℕ → List ℕ) (bin parent low deep : ℕ) → deep ≤ levels → IsHeld (M.regions memory.old) (M.word memory.old) index bin parent low deep at →
        IsTakenOut (M.regions memory.old) (M.word memory.old) (M.word memory.new) index bin parent low deep at result }
    ensures work { TakesAtMost M.Links (3 * levels) memory.old steps.old memory.new steps.new }
{
    let child = first_child(memory, at, steps);
    if child.at == 0 {
        return at;
    }
    take_under(memory, at, child.is_upper, child.at, levels, steps)
}
