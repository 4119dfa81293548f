// The bins, and the calls on chunks of all sizes.
ghost use Rattle.std.specs.Prelude.{◌≡◌, ℕ, ◌+◌, ◌^◌, ◌≤◌, List, [], MatchOption};
ghost use Rattle.bins.specs.Index.{IsIn, IsNone, IsLeastFit, first_or};

use crate::words::{LEAST_LARGE, SMALL_TAG};
use heap_memory::{Links, Steps};
use std::sync::ledger::Ledger;

/// The bins of free chunks by size.
///
/// Each call takes a memory and a counter, in which each load and store of a word counts one. An index says what stands
/// in the memory: it is a function from a size to the list of its chunks, the oldest first. The contracts hold for the
/// index that is linked at entry, so no call takes it.
#[derive(Drop)]
pub struct Bins {
    /// The oldest chunk of each small bin, or its tag if it is empty.
    pub(crate) firsts: [u64; 32],
    /// The newest chunk of each small bin, or its tag if it is empty.
    pub(crate) lasts: [u64; 32],
    /// A bit for each small bin that has a chunk.
    pub(crate) small_map: u32,
    /// The root of the trie of each tree bin, or 0 if it is empty.
    pub(crate) roots: [u64; 32],
    /// A bit for each tree bin that has a chunk.
    pub(crate) tree_map: u32,
}

impl Bins {
    ghost use Rattle.heap_memory.specs.declared.grant.Grant.{Grant};
    ghost use Rattle.bins.specs.Linked.{IsLinked, IsFreshChunk};
    ghost use Rattle.bins.specs.Changes.{IsInserted, IsUnlinked};

    /// Bins without a chunk, for any memory.
    pub fn new() -> Bins
        ensures { (regions : List Grant) (words : ℕ → ℕ) → IsLinked regions words result (λ n. []) }
    {
        let mut tags: [u64; 32] = [0; 32];
        for i in 0..32 {
            tags[i] = SMALL_TAG + i as u64;
        }
        Bins {
            firsts: tags,
            lasts: tags,
            small_map: 0,
            roots: [0; 32],
            tree_map: 0,
        }
    }

    /// Puts a chunk into the index, as the newest of its size. Its head has the size, and it shares no byte with a
    /// chunk of the index.
    ///
    /// Of the granted words only link words change: those of the chunk and of the chunks of the index. At most 129 words
    /// are loaded or stored.
    #[inline(always)]
    pub fn insert<M: Links, L: Ledger>(
        &mut self,
        memory: &mut M,
        chunk: u64,
        size: u64,
        steps: &mut Steps<L>,
    )
        requires linked { (index : ℕ → List ℕ) × IsLinked (M.regions memory.old) (M.word memory.old) self.old index × IsFreshChunk (M.regions memory.old) (M.word memory.old) index size chunk }
        ensures inserted { IsInserted M.Links size chunk self.old memory.old self.new memory.new }
        ensures counted { steps.new ≤ steps.old + 129 }
    {
        if size < LEAST_LARGE {
            self.insert_small(memory, chunk, size, steps);
        } else {
            self.insert_large(memory, chunk, size, steps);
        }
    }

    /// Takes a chunk out of the index, and no other. It is binned with this size.
    ///
    /// Of the granted words only link words of the chunks of the index change. At most 196 words are loaded or stored.
    #[inline(always)]
    pub fn unlink<M: Links, L: Ledger>(
        &mut self,
        memory: &mut M,
        chunk: u64,
        size: u64,
        steps: &mut Steps<L>,
    )
        requires linked { (index : ℕ → List ℕ) × IsLinked (M.regions memory.old) (M.word memory.old) self.old index × IsIn chunk (index size) }
        ensures unlinked { IsUnlinked M.Links size chunk self.old memory.old self.new memory.new }
        ensures counted { steps.new ≤ steps.old + 196 }
    {
        if size < LEAST_LARGE {
            self.unlink_small(memory, chunk, size, steps);
        } else {
            self.unlink_large(memory, chunk, size, steps);
        }
    }

    /// Takes out a chunk that `least_fit` names, which from 256 on is the oldest of its size. It is binned with this size.
    ///
    /// The same changes as in `unlink`, with no walk down a trie from its root: such a chunk's own words say where it
    /// is.
    #[inline(always)]
    pub fn unlink_fit<M: Links, L: Ledger>(
        &mut self,
        memory: &mut M,
        chunk: u64,
        size: u64,
        steps: &mut Steps<L>,
    )
        requires linked { (index : ℕ → List ℕ) × IsLinked (M.regions memory.old) (M.word memory.old) self.old index × IsIn chunk (index size) × (256 ≤ size → chunk ≡ first_or 0 (index size)) }
        ensures unlinked { IsUnlinked M.Links size chunk self.old memory.old self.new memory.new }
        ensures counted { steps.new ≤ steps.old + 196 }
    {
        if size < LEAST_LARGE {
            self.unlink_small(memory, chunk, size, steps);
        } else {
            self.unlink_node(memory, chunk, steps);
        }
    }

    /// The chunk of the least size that is at least `size`: the newest of its size below 256, and the oldest from 256
    /// on. None exactly if no chunk is large enough.
    ///
    /// At most 366 words are loaded: a search goes down one path, and then down the leftmost path of one subtree.
    pub fn least_fit<M: Links, L: Ledger>(
        &self,
        memory: &M,
        size: u64,
        steps: &mut Steps<L>,
    ) -> Option<u64>
        requires { (index : ℕ → List ℕ) × IsLinked (M.regions memory.now) (M.word memory.now) self.now index }
        ensures fit { (index : ℕ → List ℕ) → IsLinked (M.regions memory.now) (M.word memory.now) self.now index →
            MatchOption result (IsNone index size (2 ^ 64)) (λ chunk. IsLeastFit index size chunk) }
        ensures counted { steps.new ≤ steps.old + 366 }
    {
        if size >= LEAST_LARGE {
            return self.least_large(memory, size, steps);
        }
        match self.least_small(memory, size) {
            Some(chunk) => Some(chunk),
            None => self.least_large(memory, LEAST_LARGE, steps),
        }
    }
}
