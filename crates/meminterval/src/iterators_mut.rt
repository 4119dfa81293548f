//! The pairs that overlap an interval, one after the other, with values that may be changed.
ghost use Rattle.std.specs.Prelude.{◌≡◌, ◌≤◌, ◌^◌, ◌==◌, ◌&&◌, ◌∷◌, length, false, None, [], ◌+◌, ◌<◌, IfSome, IsSome, IsTrue, MatchOption, Some, ◌↔◌};
ghost use Rattle.std.specs.Option.{option_map};
ghost use Rattle.std.specs.Borrow.{sem};
ghost use Rattle.meminterval.specs.Entry.{pair_of};
ghost use Rattle.meminterval.specs.Interval.{overlaps};
ghost use Rattle.meminterval.specs.Lending.{LendsLast, ends_moved};
ghost use Rattle.meminterval.specs.Place.{place_from};
ghost use Rattle.meminterval.specs.Query.{IsSoundNode};
ghost use Rattle.meminterval.specs.QueryMut.{last_passed, left_of, moved, with_value_there, IsBefore};
ghost use Rattle.meminterval.specs.Subtree.{tree_of, tree_of_node, IsSearchable};
ghost use Rattle.meminterval.specs.Tree.{visited};

use crate::entry::Entry;
use crate::interval::Interval;
use crate::node::{Node, Subtree};
use crate::tree::IntervalTree;

/// A cursor over the pairs of a tree that overlap an interval, each once, in the order node, right
/// subtree, left subtree. The value of the pair that it answered last can be replaced.
///
/// The tree is whole at every moment, so a cursor may be dropped or forgotten anywhere. No call
/// needs memory.
///
/// ```text
/// let mut pairs = tree.query_mut(interval);
/// while let Some(pair) = pairs.next() {
///     let next = *pair.value ^ 1;
///     pairs.replace(next);
/// }
/// ```
#[derive(Drop)]
pub struct IntervalTreeIteratorMut<'a, T: Ord + Clone, V> {
    tree: &'a mut IntervalTree<T, V>,
    interval: Interval<T>,
    // How many places were passed. The pair that was answered last stands at the last of them.
    passed: usize,
}

impl<'a, T: Ord + Clone, V> IntervalTreeIteratorMut<'a, T, V> {
    /// A cursor before the first pair.
    pub(crate) fn new(tree: &'a mut IntervalTree<T, V>, interval: Interval<T>) -> Self
        ensures { IsBefore tree.entry interval result }
    {
        IntervalTreeIteratorMut {
            tree,
            interval,
            passed: 0,
        }
    }

    /// The next pair, and None if all were answered.
    pub fn next(&mut self) -> Option<Entry<'_, T, V>>
        ensures* cursor { sem 𝓛 (ends_moved T.row V.row (record { eq = T.eq; partial_cmp = T.partial_cmp; cmp = T.cmp; is_clone = T.is_clone; is_infallible = T.is_infallible }) self.entry) }
        ensures pairs { MatchOption result (left_of T.cmp self.old ≡ []) (λ e. left_of T.cmp self.old ≡ pair_of e ∷ left_of T.cmp (moved T.cmp self.old)) }
        ensures last { IfSome result (λ e. last_passed (moved T.cmp self.old) ≡ Some (pair_of e)) }
    {
        if self.advance() { self.pair() } else { None }
    }

    // Goes to the next pair that overlaps, if there is one.
    fn advance(&mut self) -> bool
        ensures cursor { self.new ≡ moved T.cmp self.old }
        ensures moved { IsTrue result ↔ IsSome (place_from (λ e. overlaps T.cmp e.0 self.old.interval) self.old.passed (visited self.old.tree.now)) }
    {
        match self.tree.place_from(self.passed, &self.interval) {
            Some(place) => {
                self.passed = place + 1;
                true
            }
            None => false,
        }
    }

    /// The pair that was answered last, as it is now, and None before the first one.
    pub fn pair(&self) -> Option<Entry<'_, T, V>>
        ensures { option_map pair_of result ≡ last_passed self.now }
    {
        match self.passed.checked_sub(1) {
            Some(place) => self.tree.pair_at(place),
            None => None,
        }
    }

    /// The value of the pair that was answered last, to be changed in its place, and None before the
    /// first pair. The same pairs are left whatever it becomes.
    pub fn value_mut(&mut self) -> Option<&mut V>
        ensures* lends { sem 𝓛 (LendsLast T.row V.row (record { eq = T.eq; partial_cmp = T.partial_cmp; cmp = T.cmp; is_clone = T.is_clone; is_infallible = T.is_infallible }) self.entry result) }
        ensures value { option_map (λ v. v.now) result ≡ option_map (λ e. e.1) (last_passed self.old) }
    {
        let passed = self.passed;
        let tree = &mut *self.tree;
        tree.last_value_mut(passed)
    }

    /// Puts `value` in place of the one of the pair that was answered last, and answers that one.
    /// All else of the tree stays, and the same pairs are left. None before the first pair: then
    /// `value` is dropped.
    pub fn replace(&mut self, value: V) -> Option<V>
    where
        V: Drop,
        ensures value { result ≡ option_map (λ e. e.1) (last_passed self.old) }
        ensures cursor { self.new ≡ with_value_there self.old value }
        ensures left { left_of T.cmp self.new ≡ left_of T.cmp self.old }
    {
        match self.passed.checked_sub(1) {
            Some(place) => self.tree.replace_at(place, value),
            None => None,
        }
    }
}

/// The least place from `passed` on at which a pair overlaps `interval`.
pub(crate) fn place_below<T: Ord, V>(
    tree: &Subtree<T, V>,
    passed: usize,
    interval: &Interval<T>,
) -> Option<usize>
    requires { IsSearchable T.cmp tree.now }
    ensures { result ≡ place_from (λ e. overlaps T.cmp e.0 interval.now) passed (visited (tree_of tree.now)) }
{
    let Subtree::Fork(node) = tree else {
        return None;
    };
    if !may_have_place(node, passed, interval) {
        return None;
    }
    if is_place(node, passed, interval) {
        return Some(0);
    }
    let passed = passed.saturating_sub(1);
    let from = passed_on_the_right(node, passed, interval);
    if let Some(place) = place_below(&node.right, from, interval) {
        return Some(place + 1);
    }
    let right_size = node.right.size();
    let place = place_below(&node.left, passed.saturating_sub(right_size), interval);
    moved_by(place, right_size + 1)
}

// A place further on by this number.
fn moved_by(place: Option<usize>, by: usize) -> Option<usize>
    requires { IfSome place (λ n. n + by < 2 ^ 64) }
    ensures { result ≡ option_map (λ n. n + by) place }
{
    Some(place? + by)
}

// Whether the tree below a node is not passed, and does not end at the start or before it.
fn may_have_place<T: Ord, V>(node: &Node<T, V>, passed: usize, interval: &Interval<T>) -> bool
    requires { IsSoundNode T.cmp node.now }
    ensures { result ≡ false → place_from (λ e. overlaps T.cmp e.0 interval.now) passed (visited (tree_of_node node.now)) ≡ None }
{
    if node.size <= passed {
        return false;
    }
    !node.ends_up_to(&interval.start)
}

// Whether the node's own pair overlaps `interval` and is not passed.
fn is_place<T: Ord, V>(node: &Node<T, V>, passed: usize, interval: &Interval<T>) -> bool
    ensures { result ≡ ((passed == 0) && overlaps T.cmp node.now.interval interval.now) }
{
    passed == 0 && node.interval.overlaps(interval)
}

// How many places of the right subtree need no look, if `passed` are passed: all of them if the node starts at the end
// or above.
fn passed_on_the_right<T: Ord, V>(node: &Node<T, V>, passed: usize, interval: &Interval<T>) -> usize
    requires { IsSoundNode T.cmp node.now }
    ensures { place_from (λ e. overlaps T.cmp e.0 interval.now) result (visited (tree_of node.now.right)) ≡ place_from (λ e. overlaps T.cmp e.0 interval.now) passed (visited (tree_of node.now.right)) }
{
    if node.interval.starts_below(&interval.end) {
        passed
    } else {
        node.right.size()
    }
}
