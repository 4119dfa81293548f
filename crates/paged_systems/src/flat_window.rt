// Words from an address on, one after the other.
ghost use Rattle.std.specs.Prelude.{◌≡◌, ◌≢◌, ℕ, ◌+◌, ◌-◌, ◌*◌, ◌%◌, ◌<◌, ◌≤◌, ◌⊎◌, IfSome, IfNone, OnOk};

use std::alloc::{AllocError, Global};

/// Words from a multiple of 8 on. The word of an address is found without a search.
#[derive(Drop)]
pub(crate) struct FlatWindow {
    base: u64,
    words: Vec<u64>,
    ghost aligned: { base % 8 ≡ 0 },
}

impl FlatWindow {
    ghost use Rattle.paged_systems.specs.FlatWindow.{IsCovered, AreCovered, flat_word, IsLonger, ArePutAt};

    /// No words yet.
    pub fn new(alloc: Global, base: u64) -> FlatWindow
        requires { base % 8 ≡ 0 }
        ensures { result.base ≡ base }
    {
        FlatWindow {
            base,
            words: Vec::new(alloc),
        }
    }

    /// The word at an address.
    pub fn word(&self, at: u64) -> u64
        requires { IsCovered self.now at }
        ensures { result ≡ flat_word self.now at }
    {
        self.words[((at - self.base) / 8) as usize]
    }

    /// The word at an address, if there is one.
    pub fn get(&self, at: u64) -> Option<u64>
        ensures word { IfSome result (λ word. word ≡ flat_word self.now at) }
        ensures covered { IfSome result (λ word. IsCovered self.now at) }
        ensures none { IfNone result (IsCovered self.now at → ⊥) }
    {
        let offset = at.checked_sub(self.base)?;
        self.words.get((offset / 8) as usize).copied()
    }

    /// Puts a word at an address, and changes no other.
    pub fn set_word(&mut self, at: u64, value: u64)
        requires covered { IsCovered self.old at }
        requires aligned { at % 8 ≡ 0 }
        ensures longer { IsLonger self.old self.new }
        ensures here { flat_word self.new at ≡ value }
        ensures elsewhere { (k : ℕ) → k % 8 ≡ 0 → IsCovered self.old k → k ≢ at → flat_word self.new k ≡ flat_word self.old k }
    {
        self.words[((at - self.base) / 8) as usize] = value;
    }

    /// Makes words up to an address, if there are fewer, and changes none.
    pub fn cover(&mut self, end: u64) -> Result<(), AllocError>
        requires { end % 8 ≡ 0 }
        ensures longer { IsLonger self.old self.new }
        ensures words { (k : ℕ) → IsCovered self.old k → flat_word self.new k ≡ flat_word self.old k }
        ensures reached { OnOk result ((k : ℕ) → self.old.base ≤ k → k < end → IsCovered self.new k) }
    {
        let count = (end.saturating_sub(self.base) / 8) as usize;
        if count > self.words.len() {
            self.words.resize(count, 0)?;
        }
        Ok(())
    }

    /// Puts the same word at each of `count` places, from an address on, and changes no other.
    pub fn fill(&mut self, at: u64, count: u64, value: u64)
        requires { AreCovered self.old at count }
        ensures { ArePutAt self.old self.new at count (λ k. value) }
    {
        for i in 0..count {
            self.set_word(at + 8 * i, value);
        }
    }

    /// Copies `count` words from one place to another, apart from it, and changes no other.
    pub fn copy(&mut self, from: u64, to: u64, count: u64)
        requires from { AreCovered self.old from count }
        requires to { AreCovered self.old to count }
        requires apart { (from + 8 * count ≤ to) ⊎ (to + 8 * count ≤ from) }
        ensures { ArePutAt self.old self.new to count (λ k. flat_word self.old (from + (k - to))) }
    {
        for i in 0..count {
            let word = self.word(from + 8 * i);
            self.set_word(to + 8 * i, word);
        }
    }
}
