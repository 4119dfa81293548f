//! Flags as the bits of words.

ghost use Rattle.std.specs.Prelude.{◌≡◌, ℕ, ◌+◌, ◌/◌, ◌<◌, true, false, get_or, set, replicate, IfOk, IfNone, IfSome};
ghost use Rattle.std.specs.Bool.{OnTrue, OnFalse};
ghost use Rattle.number_set.specs.Bitmap.{IsBitmap, IsFullTo};

use std::alloc::{AllocError, Global};

/// A flag for each number below `bound`; the bits from there on are 0.
#[derive(Drop)]
pub struct Bitmap {
    words: Vec<u64>,
    pub bound: u32,
    pub ghost bitmap: { IsBitmap words.items bound },
}

impl Bitmap {
    ghost use Rattle.number_set.specs.BitmapFlags.{flags, summary};

    /// `bound` flags that all have this value.
    pub fn filled(alloc: Global, bound: u32, value: bool) -> Result<Bitmap, AllocError>
        ensures bound { IfOk result (λ b. b.bound ≡ bound) }
        ensures flags { IfOk result (λ b. flags b ≡ replicate bound value) }
        ensures summary { IfOk result (λ b. summary b ≡ replicate ((bound + 63) / 64) value) }
    {
        if value {
            Bitmap::full(alloc, bound)
        } else {
            Bitmap::empty(alloc, bound)
        }
    }

    /// `bound` flags that are all false.
    fn empty(alloc: Global, bound: u32) -> Result<Bitmap, AllocError>
        ensures bound { IfOk result (λ b. b.bound ≡ bound) }
        ensures flags { IfOk result (λ b. flags b ≡ replicate bound false) }
        ensures summary { IfOk result (λ b. summary b ≡ replicate ((bound + 63) / 64) false) }
    {
        let words = vec![in alloc; 0; bound.div_ceil(64) as usize]?;
        Ok(Bitmap { words, bound })
    }

    /// `bound` flags that are all true.
    fn full(alloc: Global, bound: u32) -> Result<Bitmap, AllocError>
        ensures bound { IfOk result (λ b. b.bound ≡ bound) }
        ensures flags { IfOk result (λ b. flags b ≡ replicate bound true) }
        ensures summary { IfOk result (λ b. summary b ≡ replicate ((bound + 63) / 64) true) }
    {
        let words = full_words(alloc, bound)?;
        Ok(Bitmap { words, bound })
    }

    pub fn contains(&self, number: u32) -> bool
        requires { number < self.now.bound }
        ensures { result ≡ get_or (flags self.now) number false }
    {
        let word = self.words[number as usize / 64];
        word >> (number % 64) & 1 == 1
    }

    /// Sets the number's flag, and says whether its word had none before.
    pub fn insert(&mut self, number: u32) -> bool
        requires { number < self.old.bound }
        ensures bound { self.new.bound ≡ self.old.bound }
        ensures flags { flags self.new ≡ set (flags self.old) number true }
        ensures first { OnTrue result (summary self.new ≡ set (summary self.old) (number / 64) true) }
        ensures more { OnFalse result (summary self.new ≡ summary self.old) }
    {
        let index = number as usize / 64;
        let word = self.words[index];
        self.words[index] = word | 1 << (number % 64);
        word == 0
    }

    /// Clears the number's flag, and says whether its word now has none.
    pub fn remove(&mut self, number: u32) -> bool
        requires { number < self.old.bound }
        ensures bound { self.new.bound ≡ self.old.bound }
        ensures flags { flags self.new ≡ set (flags self.old) number false }
        ensures last { OnTrue result (summary self.new ≡ set (summary self.old) (number / 64) false) }
        ensures more { OnFalse result (summary self.new ≡ summary self.old) }
    {
        let index = number as usize / 64;
        let word = self.words[index] & !(1 << (number % 64));
        self.words[index] = word;
        word == 0
    }

    /// The lowest number of a word whose flag is set.
    pub fn lowest_of_word(&self, index: u32) -> Option<u32>
        ensures none { IfNone result (get_or (summary self.now) index false ≡ false) }
        ensures word { IfSome result (λ n. n / 64 ≡ index) }
        ensures set { IfSome result (λ n. get_or (flags self.now) n false ≡ true) }
        ensures lowest { IfSome result (λ n.
            (k : ℕ) → k < n → k / 64 ≡ index → get_or (flags self.now) k false ≡ false) }
    {
        let word = *self.words.get(index as usize)?;
        if word == 0 {
            return None;
        }
        Some(64 * index + word.trailing_zeros())
    }
}

/// Words whose bits below `bound` are all set.
fn full_words(alloc: Global, bound: u32) -> Result<Vec<u64>, AllocError>
    ensures { IfOk result (λ words. IsFullTo words.items bound) }
{
    let mut words = vec![in alloc; u64::MAX; bound.div_ceil(64) as usize]?;
    if bound % 64 != 0 {
        words[bound as usize / 64] = (1 << (bound % 64)) - 1;
    }
    Ok(words)
}
