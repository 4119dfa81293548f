//! The nodes of the tree, and the rotations that keep it balanced.
ghost use Rattle.std.specs.Prelude.{◌≡◌, ◌+◌, ◌<◌, ◌^◌, length, not, IfOk};
ghost use Rattle.std.specs.Ordering.{is_lt};
ghost use Rattle.meminterval.specs.Interval.{ClonesEqual, ClonesItself};
ghost use Rattle.meminterval.specs.Tree.{Fork, Leaf, entries, levels, IsBalanced};
ghost use Rattle.meminterval.specs.Subtree.{tree_of, raised, greatest_end, single, IsRecorded, IsSplit};

use crate::interval::{Interval, copied};
use std::alloc::{AllocError, Global};
use std::mem;

/// A tree, or a part of one.
#[cycle(subtree)]
#[derive(Drop)]
pub(crate) enum Subtree<T: Ord, V> {
    Empty,
    Fork(Box<Node<T, V>>),
}

/// A pair with its two subtrees, and what is recorded of the whole.
#[cycle(subtree)]
#[derive(Drop)]
pub(crate) struct Node<T: Ord, V> {
    pub(crate) left: Subtree<T, V>,
    pub(crate) interval: Interval<T>,
    pub(crate) value: V,
    // The greatest end of the pairs.
    pub(crate) greatest: T,
    // One more than the height.
    pub(crate) levels: u64,
    // How many pairs.
    pub(crate) size: usize,
    pub(crate) right: Subtree<T, V>,
}

impl<T: Ord, V> Subtree<T, V> {
    /// One more than the height, and 0 for the empty tree.
    pub(crate) fn levels(&self) -> u64
        requires { IsRecorded T.cmp self.now }
        ensures { result ≡ levels (tree_of self.now) }
    {
        match self {
            Subtree::Empty => 0,
            Subtree::Fork(node) => node.levels,
        }
    }

    /// How many pairs there are.
    pub(crate) fn size(&self) -> usize
        requires { IsRecorded T.cmp self.now }
        ensures { result ≡ length (entries (tree_of self.now)) }
    {
        match self {
            Subtree::Empty => 0,
            Subtree::Fork(node) => node.size,
        }
    }

    // The greater of an end and the greatest end of the pairs.
    fn raise<'a>(&'a self, end: &'a T) -> &'a T
        requires { IsRecorded T.cmp self.now }
        ensures { result.now ≡ raised T.cmp end.now (greatest_end T.cmp (tree_of self.now)) }
    {
        match self {
            Subtree::Empty => end,
            Subtree::Fork(node) => {
                if node.greatest < *end {
                    end
                } else {
                    &node.greatest
                }
            }
        }
    }
}

impl<T: Ord + Clone, V> Node<T, V> {
    /// A pair with no subtrees.
    pub(crate) fn new(interval: Interval<T>, value: V) -> Self
        requires { ClonesItself T.Clone }
        ensures { result ≡ single interval value }
    {
        let greatest = copied(&interval.end);
        Node {
            left: Subtree::Empty,
            interval,
            value,
            greatest,
            levels: 1,
            size: 1,
            right: Subtree::Empty,
        }
    }
}

impl<T: Ord, V> Node<T, V> {
    /// Whether no pair below the node ends above `key`.
    pub(crate) fn ends_up_to(&self, key: &T) -> bool
        ensures { result ≡ not (is_lt (T.cmp key.now self.now.greatest)) }
    {
        !(*key < self.greatest)
    }
}

/// Takes a node's two subtrees off.
pub(crate) fn split<T: Ord, V>(
    mut node: Box<Node<T, V>>,
) -> (Subtree<T, V>, Box<Node<T, V>>, Subtree<T, V>)
    ensures { IsSplit node.value result }
{
    let left = mem::replace(&mut node.left, Subtree::Empty);
    let right = mem::replace(&mut node.right, Subtree::Empty);
    (left, node, right)
}

#[tactic(auto, using(crate::proofs::Trees::levels_within))]
/// Puts a node over two subtrees, in place of those that it has.
pub(crate) fn fork<T: Ord + Clone, V: Drop>(
    left: Subtree<T, V>,
    mut node: Box<Node<T, V>>,
    right: Subtree<T, V>,
) -> Subtree<T, V>
    requires clones { ClonesItself T.Clone }
    requires left { IsRecorded T.cmp left }
    requires right { IsRecorded T.cmp right }
    requires room { length (entries (tree_of left)) + length (entries (tree_of right)) < 2 ^ 63 }
    ensures tree { tree_of result ≡ Fork (tree_of left) (node.value.interval, node.value.value) (tree_of right) }
    ensures recorded { IsRecorded T.cmp result }
{
    node.greatest = copied(right.raise(left.raise(&node.interval.end)));
    node.levels = left.levels().max(right.levels()) + 1;
    node.size = left.size() + right.size() + 1;
    node.left = left;
    node.right = right;
    Subtree::Fork(node)
}

/// Clones a tree node for node.
pub(crate) fn clone_below<T: Ord + Clone, V: Clone>(
    alloc: Global,
    tree: &Subtree<T, V>,
) -> Result<Subtree<T, V>, AllocError>
    requires keys { ClonesItself T.Clone }
    requires values { ClonesEqual V.is_clone }
    requires recorded { IsRecorded T.cmp tree.now }
    ensures tree { IfOk result (λ copy. tree_of copy ≡ tree_of tree.now) }
    ensures recorded { IfOk result (λ copy. IsRecorded T.cmp copy) }
{
    match tree {
        Subtree::Empty => Ok(Subtree::Empty),
        Subtree::Fork(node) => {
            let left = clone_below(alloc, &node.left)?;
            let right = clone_below(alloc, &node.right)?;
            let copy = Node {
                left,
                interval: Interval::new(copied(&node.interval.start), copied(&node.interval.end)),
                value: node.value.clone()?,
                greatest: copied(&node.greatest),
                levels: node.levels,
                size: node.size,
                right,
            };
            Ok(Subtree::Fork(Box::new(alloc, copy)?))
        }
    }
}
