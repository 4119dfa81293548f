//! A set of the numbers below a bound, whose lowest number is found without a scan.
#![tactic(auto)]

ghost use Rattle.std.specs.Prelude.{◌≡◌, ◌<◌, true, false, length, get_or, set, replicate, count_by, IfOk, IfSome, MatchOption, IsTrue, ◌↔◌};
ghost use Rattle.number_set.specs.Numbers.{HasNoNumber, IsLowest};

mod bitmap;
mod level;

use crate::level::Level;
use std::alloc::{AllocError, Global};
use std::marker::Model;

/// A set of the numbers below a bound. A contract sees it as a flag for each of them, in order.
#[derive(Drop)]
pub struct NumberSet {
    numbers: Level,
    len: u32,
}

impl Model for NumberSet {
    ghost use Rattle.std.specs.Prelude.{◌≡◌, ◌<◌, ◌^◌, Bool, List, length, count_by};

    ghost Value = { List Bool };

    ghost view = { λ s. s.numbers };

    ghost invariant = { λ s. (s.len ≡ count_by (λ flag. flag) s.numbers) × (length s.numbers < 2 ^ 32) };
}

impl NumberSet {
    /// The set of none of the numbers below `bound`.
    pub fn new(alloc: Global, bound: u32) -> Result<NumberSet, AllocError>
        ensures { IfOk result (λ s. s ≡ replicate bound false) }
    {
        let numbers = Level::filled(alloc, bound, false)?;
        Ok(NumberSet { numbers, len: 0 })
    }

    /// The set of all numbers below `bound`.
    pub fn full(alloc: Global, bound: u32) -> Result<NumberSet, AllocError>
        ensures { IfOk result (λ s. s ≡ replicate bound true) }
    {
        let numbers = Level::filled(alloc, bound, true)?;
        Ok(NumberSet {
            numbers,
            len: bound,
        })
    }

    /// The numbers that can be in the set are those below it.
    pub fn bound(&self) -> u32
        ensures { result ≡ length self.now }
    {
        self.numbers.bound()
    }

    /// How many numbers are in the set.
    pub fn len(&self) -> u32
        ensures { result ≡ count_by (λ flag. flag) self.now }
    {
        self.len
    }

    pub fn is_empty(&self) -> bool
        ensures { IsTrue result ↔ HasNoNumber self.now }
    {
        self.lowest().is_none()
    }

    /// Whether the number is in the set.
    pub fn contains(&self, number: u32) -> bool
        requires { number < length self.now }
        ensures { result ≡ get_or self.now number false }
    {
        self.numbers.contains(number)
    }

    /// Puts the number into the set, if it is not there.
    pub fn insert(&mut self, number: u32)
        requires { number < length self.old }
        ensures { self.new ≡ set self.old number true }
    {
        if !self.numbers.contains(number) {
            self.numbers.insert(number);
            self.len += 1;
        }
    }

    /// Takes the number out of the set, if it is there.
    pub fn remove(&mut self, number: u32)
        requires { number < length self.old }
        ensures { self.new ≡ set self.old number false }
    {
        if self.numbers.contains(number) {
            self.numbers.remove(number);
            self.len -= 1;
        }
    }

    /// The lowest number of the set, by one word of each level.
    pub fn lowest(&self) -> Option<u32>
        ensures within { IfSome result (λ number. number < length self.now) }
        ensures lowest { MatchOption result (HasNoNumber self.now) (IsLowest self.now) }
    {
        self.numbers.lowest()
    }
}
