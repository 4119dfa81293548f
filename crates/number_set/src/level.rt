//! A bitmap with the levels above it, each 64 times smaller than the one below.

ghost use Rattle.std.specs.Prelude.{◌≡◌, ◌<◌, true, false, length, get_or, set, replicate, IfOk, MatchOption};
ghost use Rattle.number_set.specs.Numbers.{HasNoNumber, IsLowest};

use crate::bitmap::Bitmap;
use std::alloc::{AllocError, Global};
use std::marker::Model;

/// Flags as the bits of words. If they need more than one word, the level above has a flag for each
/// word that says whether the word has a bit.
#[derive(Drop)]
pub struct Level {
    bits: Bitmap,
    above: Option<Box<Level>>,
}

impl Model for Level {
    ghost use Rattle.std.specs.Prelude.{◌≡◌, ◌<◌, ◌≤◌, Bool, List, length, Some};
    ghost use Rattle.std.specs.Option.{ForSome, ForNone};
    ghost use Rattle.std.proofs.Common.{arith, ap};
    ghost use Rattle.number_set.specs.Bitmap.{length-flags_of, length-summary_of};
    ghost use Rattle.number_set.specs.BitmapFlags.{flags, summary};
    ghost use Rattle.number_set.specs.LevelFalls.{depth_le-above};

    ghost Value = { List Bool };

    ghost view = { λ l. flags l.bits };

    ghost invariant = { λ l.
        ForSome l.above (λ above. (64 < l.bits.bound) × (above.value ≡ summary l.bits))
        × ForNone l.above (l.bits.bound ≤ 64) };

    ghost size = { length };

    ghost size_decreases = { λ l h.
        depth_le-above l.above (length (flags l.bits)) (λ above is.
        omega (
          arith,
          l.bits.bitmap.count,
          (h.0 above is).0,
          ap length (h.0 above is).1,
          length-summary_of l.bits.words.items,
          length-flags_of l.bits.words.items l.bits.bound,
        )) };
}

impl Level {
    /// A level of `bound` flags that all have this value.
    pub fn filled(alloc: Global, bound: u32, value: bool) -> Result<Level, AllocError>
        ensures { IfOk result (λ l. l ≡ replicate bound value) }
    {
        let bits = Bitmap::filled(alloc, bound, value)?;
        let above = if bound > 64 {
            let summary = Level::filled(alloc, bound.div_ceil(64), value)?;
            Some(Box::new(alloc, summary)?)
        } else {
            None
        };
        Ok(Level { bits, above })
    }

    pub fn bound(&self) -> u32
        ensures { result ≡ length self.now }
    {
        self.bits.bound
    }

    pub fn contains(&self, number: u32) -> bool
        requires { number < length self.now }
        ensures { result ≡ get_or self.now number false }
    {
        self.bits.contains(number)
    }

    pub fn insert(&mut self, number: u32)
        requires { number < length self.old }
        ensures { self.new ≡ set self.old number true }
    {
        if self.bits.insert(number) {
            if let Some(above) = &mut self.above {
                above.insert(number / 64);
            }
        }
    }

    pub fn remove(&mut self, number: u32)
        requires { number < length self.old }
        ensures { self.new ≡ set self.old number false }
    {
        if self.bits.remove(number) {
            if let Some(above) = &mut self.above {
                above.remove(number / 64);
            }
        }
    }

    pub fn lowest(&self) -> Option<u32>
        ensures { MatchOption result (HasNoNumber self.now) (IsLowest self.now) }
    {
        let index = match &self.above {
            Some(above) => above.lowest()?,
            None => 0,
        };
        self.bits.lowest_of_word(index)
    }
}
