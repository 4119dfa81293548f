// The bins of large chunks.
ghost use Rattle.std.specs.Prelude.{◌≡◌, ℕ, ◌+◌, ◌^◌, ◌<◌, ◌≤◌, List, MatchOption, slice_index};
ghost use Rattle.std.specs.Int.{bit_at};
ghost use Rattle.dlmalloc_chunks.specs.Bins.{least_size};
ghost use Rattle.bins.specs.Index.{IsIn, IsNone, IsLeastFit, first_or};
ghost use Rattle.bins.specs.Linked.{IsLinked, IsFreshChunk, low_of, levels_of};
ghost use Rattle.bins.specs.Changes.{IsInserted, IsUnlinked, IsNodeUnlinked};
ghost use Rattle.bins.specs.Stores.{HasRoot};

use crate::bins::Bins;
use crate::leave::{replace_node, swap_child, unlink_below};
use crate::map;
use crate::search::{fit_below, least_of};
use crate::trie::{path_bits, plant};
use crate::words::{INDEX, LEAST_ADDRESS, PARENT, TREE_TAG};
use dlmalloc_chunks::compute_tree_index;
use heap_memory::{Links, Steps};
use std::sync::ledger::Ledger;

/// Where the range of the sizes of a tree bin begins.
pub(crate) fn bin_low(bin: usize) -> u64
    requires { bin < 32 }
    ensures { result ≡ low_of bin }
{
    if bin == 31 {
        return 0;
    }
    (2 + bin as u64 % 2) << (bin / 2 + 7)
}

/// The levels of the last tree bin, which has the most.
const MOST_LEVELS: u32 = 61;

/// The levels of a tree bin.
pub(crate) fn bin_levels(bin: usize) -> u32
    requires { bin < 32 }
    ensures { result ≡ levels_of bin }
{
    if bin == 31 {
        return MOST_LEVELS;
    }
    bin as u32 / 2 + 4
}

impl Bins {
    /// Names the root of a tree bin, or 0 if it is empty. Nothing is written if it is the one before.
    fn set_root(&mut self, bin: usize, before: u64, root: u64)
        requires within { bin < 32 }
        requires before { before ≡ slice_index self.old.roots bin }
        requires marked { 0 < before → bit_at self.old.tree_map bin ≡ 1 }
        requires clear { before ≡ 0 → bit_at self.old.tree_map bin ≡ 0 }
        ensures { HasRoot self.old bin root self.new }
    {
        if root == before {
            return;
        }
        self.roots[bin] = root;
        if root == 0 {
            self.tree_map = map::without_bit(self.tree_map, bin);
        } else {
            self.tree_map = map::with_bit(self.tree_map, bin);
        }
    }

    /// Names another root of a tree bin that has one, or 0. Its bit is set, and stays if there is a root.
    fn swap_root(&mut self, bin: usize, root: u64)
        requires within { bin < 32 }
        requires marked { bit_at self.old.tree_map bin ≡ 1 }
        ensures { HasRoot self.old bin root self.new }
    {
        self.roots[bin] = root;
        if root == 0 {
            self.tree_map = map::without_bit(self.tree_map, bin);
        }
    }

    /// Takes a chunk of a size of at least 256 out of its trie.
    #[inline(never)]
    pub(crate) fn unlink_large<M: Links, L: Ledger>(
        &mut self,
        memory: &mut M,
        chunk: u64,
        size: u64,
        steps: &mut Steps<L>,
    )
        requires large { 256 ≤ size }
        requires linked { (index : ℕ → List ℕ) × IsLinked (M.regions memory.old) (M.word memory.old) self.old index × IsIn chunk (index size) }
        ensures unlinked { IsUnlinked M.Links size chunk self.old memory.old self.new memory.new }
        ensures counted { steps.new ≤ steps.old + 196 }
    {
        let bin = compute_tree_index(size) as usize;
        let root = self.roots[bin];
        let low = bin_low(bin);
        let levels = bin_levels(bin);
        let left = unlink_below(
            memory,
            root,
            low,
            levels,
            TREE_TAG + bin as u64,
            bin as u64,
            chunk,
            size,
            steps,
        );
        self.set_root(bin, root, left);
    }

    /// Takes a node out of the trie of its bin: the oldest chunk of a size of at least 256. Its words name its parent
    /// and the bin, so nothing is searched.
    #[inline(always)]
    pub(crate) fn unlink_node<M: Links, L: Ledger>(
        &mut self,
        memory: &mut M,
        chunk: u64,
        steps: &mut Steps<L>,
    )
        requires linked { (index : ℕ → List ℕ) × ((size : ℕ) × ((256 ≤ size) × (IsLinked (M.regions memory.old) (M.word memory.old) self.old index × (IsIn chunk (index size) × (chunk ≡ first_or 0 (index size)))))) }
        ensures unlinked { IsNodeUnlinked M.Links chunk self.old memory.old self.new memory.new }
        ensures counted { steps.new ≤ steps.old + 196 }
    {
        let parent = memory.load_counted(chunk + PARENT, steps);
        let bin = memory.load_counted(chunk + INDEX, steps);
        let left = replace_node(memory, chunk, MOST_LEVELS, parent, bin, steps);
        if parent < LEAST_ADDRESS {
            self.swap_root(bin as usize, left);
        } else {
            swap_child(memory, parent, chunk, left, steps);
        }
    }

    /// Puts a chunk of a size of at least 256 into its trie, as the newest of its size.
    #[inline(never)]
    pub(crate) fn insert_large<M: Links, L: Ledger>(
        &mut self,
        memory: &mut M,
        chunk: u64,
        size: u64,
        steps: &mut Steps<L>,
    )
        requires large { 256 ≤ size }
        requires linked { (index : ℕ → List ℕ) × IsLinked (M.regions memory.old) (M.word memory.old) self.old index × IsFreshChunk (M.regions memory.old) (M.word memory.old) index size chunk }
        ensures inserted { IsInserted M.Links size chunk self.old memory.old self.new memory.new }
        ensures counted { steps.new ≤ steps.old + 129 }
    {
        let bin = compute_tree_index(size) as usize;
        let root = self.roots[bin];
        let low = bin_low(bin);
        let levels = bin_levels(bin);
        let planted = plant(
            memory,
            root,
            low,
            levels,
            TREE_TAG + bin as u64,
            bin as u64,
            chunk,
            size,
            steps,
        );
        self.set_root(bin, root, planted);
    }

    /// The oldest chunk of the least size in the tree bins after one.
    fn least_behind<M: Links, L: Ledger>(
        &self,
        memory: &M,
        bin: usize,
        steps: &mut Steps<L>,
    ) -> Option<u64>
        requires within { bin < 31 }
        requires linked { (index : ℕ → List ℕ) × IsLinked (M.regions memory.now) (M.word memory.now) self.now index }
        ensures fit { (index : ℕ → List ℕ) → IsLinked (M.regions memory.now) (M.word memory.now) self.now index →
            MatchOption result (IsNone index (least_size (bin + 1)) (2 ^ 64)) (λ chunk. IsLeastFit index (least_size (bin + 1)) chunk) }
        ensures counted { steps.new ≤ steps.old + 183 }
    {
        match map::lowest_from(self.tree_map, bin + 1) {
            None => None,
            Some(next) => {
                let root = self.roots[next];
                let levels = bin_levels(next);
                Some(least_of(memory, root, levels, u64::MAX, 0, steps))
            }
        }
    }

    /// The oldest chunk of the least size that is at least `size`, which is 256 or more.
    #[inline(always)]
    pub(crate) fn least_large<M: Links, L: Ledger>(
        &self,
        memory: &M,
        size: u64,
        steps: &mut Steps<L>,
    ) -> Option<u64>
        requires large { 256 ≤ size }
        requires linked { (index : ℕ → List ℕ) × IsLinked (M.regions memory.now) (M.word memory.now) self.now index }
        ensures fit { (index : ℕ → List ℕ) → IsLinked (M.regions memory.now) (M.word memory.now) self.now index →
            MatchOption result (IsNone index size (2 ^ 64)) (λ chunk. IsLeastFit index size chunk) }
        ensures counted { steps.new ≤ steps.old + 366 }
    {
        let bin = compute_tree_index(size) as usize;
        let root = self.roots[bin];
        let low = bin_low(bin);
        let levels = bin_levels(bin);
        let bits = path_bits(low, levels, size);
        let fit = fit_below(
            memory,
            root,
            low,
            levels,
            size,
            bits,
            u64::MAX,
            0,
            0,
            levels,
            steps,
        );
        if fit != 0 {
            return Some(fit);
        }
        if bin == 31 {
            return None;
        }
        self.least_behind(memory, bin, steps)
    }
}
