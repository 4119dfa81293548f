//! The tree of intervals.
ghost use Rattle.std.specs.Prelude.{◌≡◌, ◌+◌, ◌-◌, ◌^◌, ◌<◌, ◌≤◌, [], drop, length, map, take, IfOk, IfSome, IsOk, IsSome, IsTrue, OnErr, OnOk, Some, ◌↔◌};
ghost use Rattle.std.specs.List.{slice_get};
ghost use Rattle.std.specs.Option.{option_map, option_copied};
ghost use Rattle.meminterval.specs.Entries.{AllItems, IsOrdered, first, last, value_at, with_entries, with_entry, without_key};
ghost use Rattle.meminterval.specs.Entry.{pair_of};
ghost use Rattle.meminterval.specs.Interval.{ClonesEqual, ClonesItself, HasOwnStart, by_ends, overlaps, starts_below, starts_from, with_end};
ghost use Rattle.meminterval.specs.Place.{map_at, place_from, with_value};
ghost use Rattle.meminterval.specs.Query.{overlapping};
ghost use Rattle.meminterval.specs.Tree.{Leaf, entries, fibonacci, height, levels, map_pairs, visited, IsBalanced};

use crate::deletion::{delete_below, take_greatest, take_least};
use crate::descent::last_value_below;
use crate::entry::Entry;
use crate::insertion::{Insertion, insert_below};
use crate::interval::Interval;
use crate::iterators::IntervalTreeIterator;
use crate::iterators_mut::{IntervalTreeIteratorMut, place_below};
use crate::node::{Subtree, clone_below};
use crate::replacing::replace_below;
use crate::shortening::shorten_below;
use std::alloc::{AllocError, Global};
use std::cmp::Ordering;
use std::marker::Model;
use std::mem;

/// A finite map from intervals to values, kept as a balanced tree.
///
/// Two intervals whose ends compare as equal are one key. Contracts see the tree as a plain binary
/// tree of pairs, whose pairs from left to right stand in the order of their intervals.
#[derive(Drop)]
pub struct IntervalTree<T: Ord + Clone, V> {
    root: Subtree<T, V>,
}

impl<T: Ord + Clone, V> Model for IntervalTree<T, V> {
    ghost use Rattle.std.specs.Coded.{coded×};
    ghost use Rattle.meminterval.specs.Interval.{interval_code};
    ghost use Rattle.meminterval.specs.Tree.{Tree, tree_code};
    ghost use Rattle.meminterval.specs.declared.interval.Interval.{Interval};

    ghost Value = { Tree (Interval T × V) };

    ghost coded = { tree_code (coded× (interval_code T.code) V.code) };

    ghost use Rattle.meminterval.specs.Subtree.{tree_of, IsSound};

    ghost view = { λ t. tree_of t.root };

    ghost invariant = { λ t. IsSound T.cmp t.root };
}

impl<T: Ord + Clone, V> IntervalTree<T, V> {
    ghost use Rattle.std.specs.Borrow.{sem};
    ghost use Rattle.meminterval.specs.Lending.{LendsLastOf};
    ghost use Rattle.meminterval.specs.QueryMut.{last_of, left_of};

    /// Makes the empty tree.
    pub fn new() -> Self
        ensures { result ≡ Leaf }
    {
        IntervalTree {
            root: Subtree::Empty,
        }
    }

    /// Whether the tree has no pair.
    pub fn is_empty(&self) -> bool
        ensures { IsTrue result ↔ (self.now ≡ Leaf) }
    {
        match self.root {
            Subtree::Empty => true,
            Subtree::Fork(_) => false,
        }
    }

    /// How many pairs the tree has.
    pub fn size(&self) -> usize
        ensures count { result ≡ length (entries self.now) }

        // Each interval is below all that stand to the right of it.
        ensures ordered { IsOrdered (by_ends T.cmp) (entries self.now) }
    {
        self.root.size()
    }

    /// The number of edges on the longest path down from the root: -1 if the tree is empty, and 0 for one node.
    pub fn height(&self) -> i64
        ensures value { result ≡ height self.now }

        // The heights of the two subtrees of each node differ by at most one, so a tree of height h
        // has at least F(h + 3) - 1 pairs.
        ensures balanced { IsBalanced self.now }
        ensures bound { fibonacci (levels self.now + 2) ≤ length (entries self.now) + 1 }
    {
        match &self.root {
            Subtree::Empty => -1,
            Subtree::Fork(node) => (node.levels - 1) as i64,
        }
    }

    /// The value at an interval.
    pub fn find(&self, interval: &Interval<T>) -> Option<&V>
        ensures { option_copied result ≡ value_at (by_ends T.cmp) interval.now (entries self.now) }
    {
        let mut at = &self.root;
        while let Subtree::Fork(node) = at {
            at = match interval.cmp(&node.interval) {
                Ordering::Less => &node.left,
                Ordering::Equal => return Some(&node.value),
                Ordering::Greater => &node.right,
            };
        }
        None
    }

    /// The least pair whose interval starts at `key` or above.
    pub fn first_from(&self, key: &T) -> Option<Entry<'_, T, V>>
        ensures { option_map pair_of result ≡ first (starts_from T.cmp key.now) (entries self.now) }
    {
        let mut least = None;
        let mut at = &self.root;
        while let Subtree::Fork(node) = at {
            if node.interval.starts_below(key) {
                at = &node.right;
            } else {
                least = Some(Entry {
                    value: &node.value,
                    interval: &node.interval,
                });
                at = &node.left;
            }
        }
        least
    }

    /// The greatest pair whose interval starts below `key`.
    pub fn last_before(&self, key: &T) -> Option<Entry<'_, T, V>>
        ensures { option_map pair_of result ≡ last (starts_below T.cmp key.now) (entries self.now) }
    {
        let mut greatest = None;
        let mut at = &self.root;
        while let Subtree::Fork(pair) = at {
            if pair.interval.starts_below(key) {
                greatest = Some(Entry {
                    value: &pair.value,
                    interval: &pair.interval,
                });
                at = &pair.right;
            } else {
                at = &pair.left;
            }
        }
        greatest
    }

    /// The pairs whose intervals overlap `interval`, each once, in the order node, right subtree,
    /// left subtree.
    pub fn query(
        &self,
        alloc: Global,
        interval: Interval<T>,
    ) -> Result<IntervalTreeIterator<'_, T, V>, AllocError>
        ensures { IfOk result (λ pairs. pairs ≡ overlapping T.cmp interval self.now) }
    {
        IntervalTreeIterator::new(alloc, &self.root, interval)
    }

    /// A cursor over the pairs whose intervals overlap `interval`, in the same order, which answers
    /// them and replaces their values. It needs no memory.
    pub fn query_mut(&mut self, interval: Interval<T>) -> IntervalTreeIteratorMut<'_, T, V>
        ensures same { result.tree.ghost_name ≡ self.entry.ghost_name }
        ensures tree { result.tree.now ≡ self.old }
        ensures pairs { left_of T.cmp result ≡ overlapping T.cmp interval self.old }
    {
        IntervalTreeIteratorMut::new(self, interval)
    }

    /// The least place from `passed` on, in the order of a query, at which a pair overlaps
    /// `interval`.
    pub(crate) fn place_from(&self, passed: usize, interval: &Interval<T>) -> Option<usize>
        ensures place { result ≡ place_from (λ e. overlaps T.cmp e.0 interval.now) passed (visited self.now) }
        ensures within { IfSome result (λ k. k < length (visited self.now)) }
        ensures few { length (visited self.now) ≤ 2 ^ 63 }
    {
        place_below(&self.root, passed, interval)
    }

    /// The pair at a place, in the order of a query, if there is one.
    pub(crate) fn pair_at(&self, place: usize) -> Option<Entry<'_, T, V>>
        ensures { option_map pair_of result ≡ slice_get (visited self.now) place }
    {
        let mut at = &self.root;
        let mut place = place;
        while let Subtree::Fork(node) = at {
            if place == 0 {
                return Some(Entry {
                    value: &node.value,
                    interval: &node.interval,
                });
            }
            let right_size = node.right.size();
            if place <= right_size {
                at = &node.right;
                place -= 1;
            } else {
                at = &node.left;
                place -= right_size + 1;
            }
        }
        None
    }

    /// The value of the last of the first `passed` pairs, in the order of a query, if there is such a
    /// pair.
    pub(crate) fn last_value_mut(&mut self, passed: usize) -> Option<&mut V>
        ensures* lends { sem 𝓛 (LendsLastOf T.row V.row (record { eq = T.eq; partial_cmp = T.partial_cmp; cmp = T.cmp; is_clone = T.is_clone; is_infallible = T.is_infallible }) self.entry passed result) }
        ensures value { option_map (λ v. v.now) result ≡ option_map (λ e. e.1) (last_of (visited self.old) passed) }
    {
        last_value_below(&mut self.root, passed)
    }

    /// Puts `value` in place of the one at a place, in the order of a query, and answers that one. None if there is no
    /// such place: then `value` is dropped.
    pub(crate) fn replace_at(&mut self, place: usize, value: V) -> Option<V>
    where
        V: Drop,
        ensures value { result ≡ option_map (λ e. e.1) (slice_get (visited self.old) place) }
        ensures tree { self.new ≡ map_at (with_value value) self.old place }
    {
        replace_below(&mut self.root, place, value)
    }

    /// Puts a pair in. If its interval is there already, the old value stays, the new one is dropped, and no memory is
    /// needed. An `Err` leaves the tree as it was, and drops the pair.
    pub fn insert(
        &mut self,
        alloc: Global,
        interval: Interval<T>,
        value: V,
    ) -> Result<(), AllocError>
    where
        V: Drop,
        requires clones { ClonesItself T.Clone }
        requires room { length (entries self.old) < 2 ^ 63 }
        ensures ok { OnOk result (entries self.new ≡ with_entry (by_ends T.cmp) (interval, value) (entries self.old)) }
        ensures err { OnErr result (self.new ≡ self.old) }
        ensures there { IsSome (value_at (by_ends T.cmp) interval (entries self.old)) → IsOk result × (self.new ≡ self.old) }
    {
        let root = mem::replace(&mut self.root, Subtree::Empty);
        match insert_below(alloc, root, interval, value) {
            Insertion::Added(root) => {
                self.root = root;
                Ok(())
            }
            Insertion::Present(root) => {
                self.root = root;
                Ok(())
            }
            Insertion::NoMemory(root) => {
                self.root = root;
                Err(AllocError)
            }
        }
    }

    /// Takes the pair at an interval out, if it is there.
    pub fn delete(&mut self, interval: &Interval<T>)
    where
        V: Drop,
        requires { ClonesItself T.Clone }
        ensures { entries self.new ≡ without_key (by_ends T.cmp) interval.now (entries self.old) }
    {
        let root = mem::replace(&mut self.root, Subtree::Empty);
        self.root = delete_below(root, interval);
    }

    /// Takes the least pair out, if there is one.
    pub fn delete_min(&mut self)
    where
        V: Drop,
        requires { ClonesItself T.Clone }
        ensures { entries self.new ≡ drop 1 (entries self.old) }
    {
        if let Subtree::Fork(node) = mem::replace(&mut self.root, Subtree::Empty) {
            let (_least, rest) = take_least(node);
            self.root = rest;
        }
    }

    /// Takes the greatest pair out, if there is one.
    pub fn delete_max(&mut self)
    where
        V: Drop,
        requires { ClonesItself T.Clone }
        ensures { entries self.new ≡ take (length (entries self.old) - 1) (entries self.old) }
    {
        if let Subtree::Fork(node) = mem::replace(&mut self.root, Subtree::Empty) {
            let (rest, _greatest) = take_greatest(node);
            self.root = rest;
        }
    }

    /// Takes all pairs out.
    pub fn clear(&mut self)
    where
        V: Drop,
        ensures { self.new ≡ Leaf }
    {
        self.root = Subtree::Empty;
    }

    /// Gives the pair at `interval` the end `end`, in its place. No other pair may have its start.
    pub fn shorten(&mut self, interval: &Interval<T>, end: T)
    where
        V: Drop,
        requires clones { ClonesItself T.Clone }
        requires alone { AllItems (HasOwnStart T.cmp interval.now) (entries self.old) }
        ensures pairs { entries self.new ≡ map (with_end T.cmp interval.now end) (entries self.old) }
        ensures tree { self.new ≡ map_pairs (with_end T.cmp interval.now end) self.old }
    {
        let root = mem::replace(&mut self.root, Subtree::Empty);
        self.root = shorten_below(root, interval, end);
    }

    /// Makes the tree of these pairs, put in one after the other. Of two pairs at one interval the
    /// first stays.
    pub fn from_pairs(alloc: Global, pairs: Vec<(Interval<T>, V)>) -> Result<Self, AllocError>
    where
        V: Drop,
        requires clones { ClonesItself T.Clone }
        requires room { length pairs.items ≤ 2 ^ 63 }
        ensures { IfOk result (λ tree. entries tree ≡ with_entries (by_ends T.cmp) pairs.items []) }
    {
        let mut tree = IntervalTree::new();
        for (interval, value) in pairs {
            tree.insert(alloc, interval, value)?;
        }
        Ok(tree)
    }

    /// Makes another tree of the same pairs, node for node.
    pub fn clone(&self, alloc: Global) -> Result<Self, AllocError>
    where
        V: Clone,
        requires keys { ClonesItself T.Clone }
        requires values { ClonesEqual V.is_clone }
        ensures { IfOk result (λ tree. tree ≡ self.now) }
    {
        Ok(IntervalTree {
            root: clone_below(alloc, &self.root)?,
        })
    }
}
