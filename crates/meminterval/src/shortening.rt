//! A pair that gets another end.
ghost use Rattle.std.specs.Prelude.{◌≡◌};
ghost use Rattle.meminterval.specs.Interval.{ClonesItself, with_end};
ghost use Rattle.meminterval.specs.Tree.{map_pairs};
ghost use Rattle.meminterval.specs.Subtree.{tree_of, IsRecorded, IsSearchable};

use crate::interval::Interval;
use crate::node::{Subtree, fork, split};
use std::cmp::Ordering;

/// Gives the pair at `interval` the end `end`, and records the greatest ends anew from there up.
pub(crate) fn shorten_below<T: Ord + Clone, V: Drop>(
    tree: Subtree<T, V>,
    interval: &Interval<T>,
    end: T,
) -> Subtree<T, V>
    requires clones { ClonesItself T.Clone }
    requires searchable { IsSearchable T.cmp tree }
    ensures tree { tree_of result ≡ map_pairs (with_end T.cmp interval.now end) (tree_of tree) }
    ensures recorded { IsRecorded T.cmp result }
{
    match tree {
        Subtree::Empty => Subtree::Empty,
        Subtree::Fork(node) => {
            let order = interval.cmp(&node.interval);
            let (left, mut node, right) = split(node);
            match order {
                Ordering::Less => fork(shorten_below(left, interval, end), node, right),
                Ordering::Equal => {
                    node.interval.end = end;
                    fork(left, node, right)
                }
                Ordering::Greater => fork(left, node, shorten_below(right, interval, end)),
            }
        }
    }
}
