//! The way down to a place, at whose end a value is lent.
//!
//! The prover says what a tree ends as after a `&mut` that a chain of calls lent, each of a function of its
//! own, and says nothing of one that a loop or a recursion lent. So a way down is a type, and its length
//! is fixed: [`Twice`] a way of 63 turns, with a turn between, is one of 127, and so on down to [`Here`], the
//! way of no turn. A tree of at most 2^63 pairs has at most 128 levels, so [`Longest`] reaches each pair. The
//! place that is left at a joint is found by a look ahead along the way, so each turn is looked at up to
//! seven times.
ghost use Rattle.std.specs.Prelude.{◌≡◌, ◌≤◌, ◌+◌, ℕ, suc};
ghost use Rattle.std.specs.List.{slice_get};
ghost use Rattle.std.specs.Option.{option_map};
ghost use Rattle.std.specs.Borrow.{sem};
ghost use Rattle.meminterval.specs.Descent.{left_after, reached, rest, turn};
ghost use Rattle.meminterval.specs.DescentLending.{LendsLastValue, LendsReached, LendsTurn, LendsValue};
ghost use Rattle.meminterval.specs.QueryMut.{last_of};
ghost use Rattle.meminterval.specs.Subtree.{tree_of, IsRecorded};
ghost use Rattle.meminterval.specs.Tree.{levels, visited};

use crate::node::{Node, Subtree};

/// The value at the last of the first `passed` places, if there is such a place.
pub(crate) fn last_value_below<T: Ord, V>(tree: &mut Subtree<T, V>, passed: usize) -> Option<&mut V>
    requires recorded { IsRecorded T.cmp tree.old }
    requires low { levels (tree_of tree.old) ≤ 128 }
    ensures* lends { sem 𝓛 (LendsLastValue T.row V.row tree.entry passed result) }
    ensures value { option_map (λ v. v.now) result ≡ option_map (λ e. e.1) (last_of (visited (tree_of tree.old)) passed) }
{
    if passed == 0 {
        return None;
    }
    value_below(tree, passed - 1)
}

// The value at a place, if there is such a place.
fn value_below<T: Ord, V>(tree: &mut Subtree<T, V>, place: usize) -> Option<&mut V>
    requires recorded { IsRecorded T.cmp tree.old }
    requires low { levels (tree_of tree.old) ≤ 128 }
    ensures* lends { sem 𝓛 (LendsValue T.row V.row tree.entry place result) }
    ensures value { option_map (λ v. v.now) result ≡ option_map (λ e. e.1) (slice_get (visited (tree_of tree.old)) place) }
{
    if place >= tree.size() {
        return None;
    }
    let node = Longest::node_within(tree, place, 127)?;
    Some(&mut node.value)
}

/// A way down with a fixed number of turns.
trait Way {
    ghost turns: { ℕ };

    /// The node at a place, or the one on the way to it after all the turns; `length` is their number.
    fn node_within<T: Ord, V>(
        tree: &mut Subtree<T, V>,
        place: usize,
        length: u64,
    ) -> Option<&mut Node<T, V>>
        requires length { length ≡ turns }
        requires recorded { IsRecorded T.cmp tree.old }
        ensures* lends { sem 𝓛 (LendsReached T.row V.row tree.entry length place result) }
        ensures value { option_map (λ n. n.now) result ≡ reached length tree.old place };
}

/// The way of no turn: to the node at the top.
struct Here;

impl Way for Here {
    ghost turns = { 0 };

    fn node_within<T: Ord, V>(
        tree: &mut Subtree<T, V>,
        _place: usize,
        _length: u64,
    ) -> Option<&mut Node<T, V>> {
        match tree {
            Subtree::Empty => None,
            Subtree::Fork(node) => Some(&mut **node),
        }
    }
}

/// A way, a turn, and the way again.
struct Twice<W> {
    way: W,
}

impl<W: Way> Way for Twice<W> {
    ghost turns = { suc (W.turns + W.turns) };

    fn node_within<T: Ord, V>(
        tree: &mut Subtree<T, V>,
        place: usize,
        length: u64,
    ) -> Option<&mut Node<T, V>> {
        let half = length / 2;
        let left = left_after(tree, place, half);
        let node = W::node_within(tree, place, half)?;
        if left == 0 {
            return Some(node);
        }
        let rest = rest(node, left - 1);
        W::node_within(turn(node, left - 1), rest, half)
    }
}

/// The way of 127 turns: of 63, of 31, of 15, of 7, of 3 and of one, each twice with a turn between.
type Longest = Twice<Twice<Twice<Twice<Twice<Twice<Twice<Here>>>>>>>;

// The place that is left below the node that a way of this many turns reaches.
fn left_after<T: Ord, V>(tree: &Subtree<T, V>, place: usize, turns: u64) -> usize
    requires { IsRecorded T.cmp tree.now }
    ensures { result ≡ left_after turns tree.now place }
{
    let Subtree::Fork(node) = tree else {
        return place;
    };
    if place == 0 || turns == 0 {
        return place;
    }
    let right_size = node.right.size();
    if place <= right_size {
        left_after(&node.right, place - 1, turns - 1)
    } else {
        left_after(&node.left, place - 1 - right_size, turns - 1)
    }
}

// The subtree in which a pair lies, of those after the node's own.
fn turn<T: Ord, V>(node: &mut Node<T, V>, place: usize) -> &mut Subtree<T, V>
    requires { IsRecorded T.cmp node.old.right }
    ensures* lends { sem 𝓛 (LendsTurn T.row V.row node.entry place result) }
    ensures value { result.now ≡ turn node.old place }
{
    if place < node.right.size() {
        &mut node.right
    } else {
        &mut node.left
    }
}

// Its place there.
fn rest<T: Ord, V>(node: &Node<T, V>, place: usize) -> usize
    requires { IsRecorded T.cmp node.now.right }
    ensures { result ≡ rest node.now place }
{
    let right_size = node.right.size();
    if place < right_size {
        place
    } else {
        place - right_size
    }
}
