//! The single and double rotations that restore the balance of a tree.
ghost use Rattle.std.specs.Prelude.{◌≡◌, ◌+◌};
ghost use Rattle.meminterval.specs.Balance.{AreSides, IsRestored};
ghost use Rattle.meminterval.specs.Interval.{ClonesItself};
ghost use Rattle.meminterval.specs.Tree.{levels, DifferByAtMost};
ghost use Rattle.meminterval.specs.Subtree.{tree_of};

use crate::node::{Node, Subtree, fork, split};

#[tactic(auto, using(crate::proofs::Trees::levels_within))]
/// Puts a node over two balanced subtrees whose heights differ by at most two, and rotates if they
/// differ by two.
pub(crate) fn balance<T: Ord + Clone, V: Drop>(
    left: Subtree<T, V>,
    node: Box<Node<T, V>>,
    right: Subtree<T, V>,
) -> Subtree<T, V>
    requires clones { ClonesItself T.Clone }
    requires sides { AreSides T.cmp left right }
    requires near { DifferByAtMost 2 (levels (tree_of left)) (levels (tree_of right)) }
    ensures { IsRestored T.cmp left (node.value.interval, node.value.value) right result }
{
    let (left_levels, right_levels) = (left.levels(), right.levels());
    if left_levels > right_levels + 1 {
        rotate_right(left, node, right)
    } else if right_levels > left_levels + 1 {
        rotate_left(left, node, right)
    } else {
        fork(left, node, right)
    }
}

/// Lifts the left subtree, which is two levels higher, or its right subtree, to the top.
fn rotate_right<T: Ord + Clone, V: Drop>(
    left: Subtree<T, V>,
    node: Box<Node<T, V>>,
    right: Subtree<T, V>,
) -> Subtree<T, V>
    requires clones { ClonesItself T.Clone }
    requires sides { AreSides T.cmp left right }
    requires two_higher { levels (tree_of left) ≡ levels (tree_of right) + 2 }
    ensures { IsRestored T.cmp left (node.value.interval, node.value.value) right result }
{
    let Subtree::Fork(top) = left else {
        unreachable!()
    };
    let (outer, top, inner) = split(top);
    if outer.levels() >= inner.levels() {
        return fork(outer, top, fork(inner, node, right));
    }
    let Subtree::Fork(middle) = inner else {
        unreachable!()
    };
    let (before, middle, after) = split(middle);
    fork(fork(outer, top, before), middle, fork(after, node, right))
}

/// Lifts the right subtree, which is two levels higher, or its left subtree, to the top.
fn rotate_left<T: Ord + Clone, V: Drop>(
    left: Subtree<T, V>,
    node: Box<Node<T, V>>,
    right: Subtree<T, V>,
) -> Subtree<T, V>
    requires clones { ClonesItself T.Clone }
    requires sides { AreSides T.cmp left right }
    requires two_higher { levels (tree_of right) ≡ levels (tree_of left) + 2 }
    ensures { IsRestored T.cmp left (node.value.interval, node.value.value) right result }
{
    let Subtree::Fork(top) = right else {
        unreachable!()
    };
    let (inner, top, outer) = split(top);
    if outer.levels() >= inner.levels() {
        return fork(fork(left, node, inner), top, outer);
    }
    let Subtree::Fork(middle) = inner else {
        unreachable!()
    };
    let (before, middle, after) = split(middle);
    fork(fork(left, node, before), middle, fork(after, top, outer))
}
