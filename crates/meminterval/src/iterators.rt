//! The pairs that overlap an interval.
ghost use Rattle.std.specs.Prelude.{◌≡◌, ◌+◌, ◌<◌, ◌≤◌, [], ◌∷◌, ◌++◌, if◌then◌else◌, length, IfOk, MatchOption, vec_capacity, vec_len};
ghost use Rattle.std.specs.Iterator.{YieldsFirstBy, item_count};
ghost use Rattle.std.specs.List.{filter};
ghost use Rattle.meminterval.specs.Entries.{IsOrdered};
ghost use Rattle.meminterval.specs.Entry.{pair_of};
ghost use Rattle.meminterval.specs.Interval.{by_ends, overlaps};
ghost use Rattle.meminterval.specs.Query.{overlapping, to_visit, IsSoundNode, IsWalkOf};
ghost use Rattle.meminterval.specs.Subtree.{tree_of, tree_of_node, IsRecorded};
ghost use Rattle.meminterval.specs.Tree.{entries, levels, visited};

use crate::entry::Entry;
use crate::interval::Interval;
use crate::node::{Node, Subtree};
use std::alloc::{AllocError, Global};
use std::marker::Model;

/// The pairs of a tree that overlap an interval, each once, in the order node, right subtree, left
/// subtree. It is seen as the list of those that are left.
#[derive(Drop)]
pub struct IntervalTreeIterator<'a, T: Ord + Clone, V> {
    // The nodes whose trees are still to be looked at, the next one last.
    nodes: Vec<&'a Node<T, V>>,
    interval: Interval<T>,
}

impl<'a, T: Ord + Clone, V> Model for IntervalTreeIterator<'a, T, V> {
    ghost use Rattle.std.specs.Prelude.{List};
    ghost use Rattle.std.specs.List.{filter};
    ghost use Rattle.meminterval.specs.Interval.{overlaps};
    ghost use Rattle.meminterval.specs.declared.interval.Interval.{Interval};

    ghost Value = { List (Interval T × V) };

    ghost use Rattle.meminterval.specs.Query.{to_visit, IsWalkOf};

    ghost view = { λ it. filter (λ e. overlaps T.cmp e.0 it.interval) (to_visit it.nodes.items) };

    ghost invariant = { λ it. IsWalkOf T.cmp it.nodes };
}

impl<'a, T: Ord + Clone, V> IntervalTreeIterator<'a, T, V> {
    /// The pairs below `root` that overlap `interval`. As many places are reserved as the tree has
    /// levels, so no later call needs memory.
    pub(crate) fn new(
        alloc: Global,
        root: &'a Subtree<T, V>,
        interval: Interval<T>,
    ) -> Result<Self, AllocError>
        requires recorded { IsRecorded T.cmp root.now }
        requires ordered { IsOrdered (by_ends T.cmp) (entries (tree_of root.now)) }
        ensures { IfOk result (λ pairs. pairs ≡ overlapping T.cmp interval (tree_of root.now)) }
    {
        let mut nodes = Vec::with_capacity(alloc, root.levels() as usize)?;
        put(&mut nodes, root);
        Ok(IntervalTreeIterator { nodes, interval })
    }
}

impl<'a, T: Ord + Clone, V> Iterator for IntervalTreeIterator<'a, T, V> {
    type Item = Entry<'a, T, V>;

    ghost next_gives = { YieldsFirstBy pair_of (λ rest. rest) };

    ghost remaining = { item_count (λ rest. rest) };

    fn next(&mut self) -> Option<Entry<'a, T, V>> {
        let node = next_node(&mut self.nodes, &self.interval)?;
        Some(Entry {
            value: &node.value,
            interval: &node.interval,
        })
    }
}

// The next node whose pair overlaps `interval`.
fn next_node<'a, T: Ord, V>(
    nodes: &mut Vec<&'a Node<T, V>>,
    interval: &Interval<T>,
) -> Option<&'a Node<T, V>>
    requires { IsWalkOf T.cmp nodes.old }
    ensures walk { IsWalkOf T.cmp nodes.new }
    ensures pairs { MatchOption result
        ((filter (λ e. overlaps T.cmp e.0 interval.now) (to_visit nodes.old.items) ≡ []) × (filter (λ e. overlaps T.cmp e.0 interval.now) (to_visit nodes.new.items) ≡ []))
        (λ n. filter (λ e. overlaps T.cmp e.0 interval.now) (to_visit nodes.old.items) ≡ (n.now.interval, n.now.value) ∷ filter (λ e. overlaps T.cmp e.0 interval.now) (to_visit nodes.new.items)) }
{
    while let Some(node) = nodes.pop() {
        if look_at(nodes, node, interval) {
            return Some(node);
        }
    }
    None
}

// Whether the node's own pair overlaps `interval`. Leaves the subtrees that may have a pair which
// does: neither if nothing below the node ends above the start, and not the right one if the node
// starts at the end or above.
fn look_at<'a, T: Ord, V>(
    nodes: &mut Vec<&'a Node<T, V>>,
    node: &'a Node<T, V>,
    interval: &Interval<T>,
) -> bool
    requires sound { IsSoundNode T.cmp node.now }
    requires walk { IsWalkOf T.cmp nodes.old }
    requires room { levels (tree_of_node node.now) + vec_len nodes.old ≤ vec_capacity nodes.old }
    ensures pairs { filter (λ e. overlaps T.cmp e.0 interval.now) (visited (tree_of_node node.now) ++ to_visit nodes.old.items)
        ≡ (if result then (node.now.interval, node.now.value) ∷ filter (λ e. overlaps T.cmp e.0 interval.now) (to_visit nodes.new.items) else filter (λ e. overlaps T.cmp e.0 interval.now) (to_visit nodes.new.items)) }
    ensures walk { IsWalkOf T.cmp nodes.new }
    ensures fewer { length (to_visit nodes.new.items) < length (visited (tree_of_node node.now)) + length (to_visit nodes.old.items) }
{
    if node.ends_up_to(&interval.start) {
        return false;
    }
    put(nodes, &node.left);
    if !node.interval.starts_below(&interval.end) {
        return false;
    }
    put(nodes, &node.right);
    node.interval.overlaps(interval)
}

// Leaves a tree to be looked at next. There is a place for it.
fn put<'a, T: Ord, V>(nodes: &mut Vec<&'a Node<T, V>>, tree: &'a Subtree<T, V>)
    requires recorded { IsRecorded T.cmp tree.now }
    requires ordered { IsOrdered (by_ends T.cmp) (entries (tree_of tree.now)) }
    requires walk { IsWalkOf T.cmp nodes.old }
    requires room { levels (tree_of tree.now) + vec_len nodes.old ≤ vec_capacity nodes.old }
    ensures pairs { to_visit nodes.new.items ≡ visited (tree_of tree.now) ++ to_visit nodes.old.items }
    ensures walk { IsWalkOf T.cmp nodes.new }
    ensures capacity { vec_capacity nodes.old ≤ vec_capacity nodes.new }
    ensures len { vec_len nodes.new ≤ vec_len nodes.old + 1 }
{
    if let Subtree::Fork(node) = tree {
        match nodes.push(node) {
            Ok(()) => {}
            Err(_) => unreachable!(),
        }
    }
}
