// The words of a flat system.
ghost use Rattle.std.specs.Prelude.{◌≡◌, ◌≢◌, ℕ, ◌+◌, ◌*◌, ◌%◌, ◌^◌, ◌<◌, ◌≤◌, IsTrue, IfOk, vec_len};
ghost use Rattle.heap_memory.specs.FlatWords.{is_in, is_held, word_count, place_of, word_in, are_aligned};

use std::alloc::{AllocError, Global};

/// A run of words.
#[derive(Clone, Copy, Debug)]
pub(crate) struct Stretch {
    /// The address of its first word, a multiple of 8.
    pub base: u64,
    /// The number of its words.
    pub count: u64,
}

impl Stretch {
    /// Whether the byte at an address lies in it.
    fn contains(&self, at: u64) -> bool
        ensures { result ≡ is_in at self.now }
    {
        at >= self.base && (at - self.base) / 8 < self.count
    }
}

/// The words of some stretches, one stretch after the other.
#[derive(Drop)]
pub(crate) struct FlatWords {
    stretches: Vec<Stretch>,
    words: Vec<u64>,
    ghost fits: { vec_len words ≡ word_count stretches.items },
    ghost aligned: { IsTrue (are_aligned stretches.items) },
}

impl FlatWords {
    /// Words that are all zero.
    pub fn new(alloc: Global, stretches: Vec<Stretch>) -> Result<FlatWords, AllocError>
        requires { IsTrue (are_aligned stretches.items) }
        ensures held { IfOk result (λ flat. flat.stretches.items ≡ stretches.items) }
        ensures zero { IfOk result (λ flat. (at : ℕ) → word_in flat.stretches.items flat.words.items at ≡ 0) }
    {
        let mut words = Vec::new(alloc);
        for stretch in &stretches {
            let len = words.len();
            words.resize(
                len.checked_add(stretch.count as usize).ok_or(AllocError)?,
                0,
            )?;
        }
        Ok(FlatWords { stretches, words })
    }

    /// The place of an address among the words: one stretch after the other is looked at, since most systems have few.
    fn place(&self, at: u64) -> usize
        requires held { IsTrue (is_held self.now.stretches.items at) }
        ensures place { result ≡ place_of self.now.stretches.items at }
        ensures within { result < vec_len self.now.words }
    {
        let mut place = 0;
        for stretch in &self.stretches {
            if stretch.contains(at) {
                return place + ((at - stretch.base) / 8) as usize;
            }
            place += stretch.count as usize;
        }
        unreachable!()
    }

    /// The word at an address.
    pub fn word(&self, at: u64) -> u64
        requires { IsTrue (is_held self.now.stretches.items at) }
        ensures { result ≡ word_in self.now.stretches.items self.now.words.items at }
    {
        self.words[self.place(at)]
    }

    /// Puts a word at an address, and changes no other.
    #[tactic(auto, using(crate::proofs::FlatWordsLemmas::stored_elsewhere))]
    pub fn set_word(&mut self, at: u64, value: u64)
        requires held { IsTrue (is_held self.old.stretches.items at) }
        requires aligned { at % 8 ≡ 0 }
        ensures here { word_in self.new.stretches.items self.new.words.items at ≡ value }
        ensures elsewhere { (other : ℕ) → IsTrue (is_held self.old.stretches.items other) → other % 8 ≡ 0 → other ≢ at →
            word_in self.new.stretches.items self.new.words.items other ≡ word_in self.old.stretches.items self.old.words.items other }
        ensures stretches { self.new.stretches.items ≡ self.old.stretches.items }
    {
        let place = self.place(at);
        self.words[place] = value;
    }
}
