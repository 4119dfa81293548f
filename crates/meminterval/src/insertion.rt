//! A new pair below the nodes that are there.
ghost use Rattle.std.specs.Prelude.{◌<◌, ◌^◌, length};
ghost use Rattle.meminterval.specs.Insertion.{IsInsertion};
ghost use Rattle.meminterval.specs.Interval.{ClonesItself};
ghost use Rattle.meminterval.specs.Tree.{entries};
ghost use Rattle.meminterval.specs.Subtree.{tree_of, IsSound};

use crate::interval::Interval;
use crate::node::{Node, Subtree, split};
use crate::rotation::balance;
use std::alloc::Global;
use std::cmp::Ordering;
use std::mem;

/// A tree into which a pair was to be put.
#[derive(Drop)]
pub(crate) enum Insertion<T: Ord, V> {
    /// With the pair.
    Added(Subtree<T, V>),
    /// As it was, since its interval is there.
    Present(Subtree<T, V>),
    /// As it was, since there was no memory.
    NoMemory(Subtree<T, V>),
}

/// Puts a pair where the order leads, unless its interval is there, and restores the balance from
/// there up. The node is made at the empty place, so no memory is asked for if there is no such
/// place.
pub(crate) fn insert_below<T: Ord + Clone, V: Drop>(
    alloc: Global,
    tree: Subtree<T, V>,
    interval: Interval<T>,
    value: V,
) -> Insertion<T, V>
    requires clones { ClonesItself T.Clone }
    requires sound { IsSound T.cmp tree }
    requires room { length (entries (tree_of tree)) < 2 ^ 63 }
    ensures { IsInsertion T.cmp (interval, value) tree result }
{
    let Subtree::Fork(mut node) = tree else {
        return match Box::new(alloc, Node::new(interval, value)) {
            Ok(node) => Insertion::Added(Subtree::Fork(node)),
            Err(_) => Insertion::NoMemory(Subtree::Empty),
        };
    };
    match interval.cmp(&node.interval) {
        Ordering::Less => {
            let left = mem::replace(&mut node.left, Subtree::Empty);
            match insert_below(alloc, left, interval, value) {
                Insertion::Added(left) => {
                    let (_, node, right) = split(node);
                    Insertion::Added(balance(left, node, right))
                }
                Insertion::Present(left) => {
                    node.left = left;
                    Insertion::Present(Subtree::Fork(node))
                }
                Insertion::NoMemory(left) => {
                    node.left = left;
                    Insertion::NoMemory(Subtree::Fork(node))
                }
            }
        }
        Ordering::Equal => Insertion::Present(Subtree::Fork(node)),
        Ordering::Greater => {
            let right = mem::replace(&mut node.right, Subtree::Empty);
            match insert_below(alloc, right, interval, value) {
                Insertion::Added(right) => {
                    let (left, node, _) = split(node);
                    Insertion::Added(balance(left, node, right))
                }
                Insertion::Present(right) => {
                    node.right = right;
                    Insertion::Present(Subtree::Fork(node))
                }
                Insertion::NoMemory(right) => {
                    node.right = right;
                    Insertion::NoMemory(Subtree::Fork(node))
                }
            }
        }
    }
}
