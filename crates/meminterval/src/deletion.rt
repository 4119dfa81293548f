//! Pairs that leave. No call here needs memory: if a node has two subtrees, the least node of the
//! right one takes its place.
ghost use Rattle.std.specs.Prelude.{◌≡◌, ◌+◌, max, [], ◌∷◌, ◌++◌};
ghost use Rattle.meminterval.specs.Balance.{AreSides, HasLostAtMostALevel, IsSoundBelow};
ghost use Rattle.meminterval.specs.Entries.{without_key};
ghost use Rattle.meminterval.specs.Interval.{ClonesItself, by_ends};
ghost use Rattle.meminterval.specs.Tree.{entries, levels, DifferByAtMost};
ghost use Rattle.meminterval.specs.Subtree.{tree_of, tree_of_node, IsSound};

use crate::interval::Interval;
use crate::node::{Node, Subtree, split};
use crate::rotation::balance;
use std::cmp::Ordering;

/// Takes the pair at `interval` out, if it is there, and restores the balance from there up.
pub(crate) fn delete_below<T: Ord + Clone, V: Drop>(
    tree: Subtree<T, V>,
    interval: &Interval<T>,
) -> Subtree<T, V>
    requires clones { ClonesItself T.Clone }
    requires sound { IsSound T.cmp tree }
    ensures pairs { entries (tree_of result) ≡ without_key (by_ends T.cmp) interval.now (entries (tree_of tree)) }
    ensures rest { HasLostAtMostALevel T.cmp (levels (tree_of tree)) result }
{
    match tree {
        Subtree::Empty => Subtree::Empty,
        Subtree::Fork(node) => {
            let order = interval.cmp(&node.interval);
            let (left, node, right) = split(node);
            match order {
                Ordering::Less => balance(delete_below(left, interval), node, right),
                Ordering::Equal => join(left, right),
                Ordering::Greater => balance(left, node, delete_below(right, interval)),
            }
        }
    }
}

/// One tree of the two subtrees of a node.
fn join<T: Ord + Clone, V: Drop>(left: Subtree<T, V>, right: Subtree<T, V>) -> Subtree<T, V>
    requires clones { ClonesItself T.Clone }
    requires sides { AreSides T.cmp left right }
    requires near { DifferByAtMost 1 (levels (tree_of left)) (levels (tree_of right)) }
    ensures pairs { entries (tree_of result) ≡ entries (tree_of left) ++ entries (tree_of right) }
    ensures rest { HasLostAtMostALevel T.cmp (max (levels (tree_of left)) (levels (tree_of right)) + 1) result }
{
    match right {
        Subtree::Empty => left,
        Subtree::Fork(node) => {
            let (least, rest) = take_least(node);
            balance(left, least, rest)
        }
    }
}

/// Takes the least node out of the tree below `node`.
pub(crate) fn take_least<T: Ord + Clone, V: Drop>(
    node: Box<Node<T, V>>,
) -> (Box<Node<T, V>>, Subtree<T, V>)
    requires clones { ClonesItself T.Clone }
    requires sound { IsSoundBelow T.cmp node.value }
    ensures pairs { (result.0.value.interval, result.0.value.value) ∷ entries (tree_of result.1) ≡ entries (tree_of_node node.value) }
    ensures rest { HasLostAtMostALevel T.cmp (levels (tree_of_node node.value)) result.1 }
{
    let (left, node, right) = split(node);
    match left {
        Subtree::Empty => (node, right),
        Subtree::Fork(below) => {
            let (least, rest) = take_least(below);
            (least, balance(rest, node, right))
        }
    }
}

/// Takes the greatest node out of the tree below `node`.
pub(crate) fn take_greatest<T: Ord + Clone, V: Drop>(
    node: Box<Node<T, V>>,
) -> (Subtree<T, V>, Box<Node<T, V>>)
    requires clones { ClonesItself T.Clone }
    requires sound { IsSoundBelow T.cmp node.value }
    ensures pairs { entries (tree_of result.0) ++ (result.1.value.interval, result.1.value.value) ∷ [] ≡ entries (tree_of_node node.value) }
    ensures rest { HasLostAtMostALevel T.cmp (levels (tree_of_node node.value)) result.0 }
{
    let (left, node, right) = split(node);
    match right {
        Subtree::Empty => (left, node),
        Subtree::Fork(below) => {
            let (rest, greatest) = take_greatest(below);
            (balance(left, node, rest), greatest)
        }
    }
}
