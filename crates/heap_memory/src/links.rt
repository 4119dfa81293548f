ghost use Rattle.std.specs.Prelude.{◌≡◌, ℕ, ◌+◌, ◌*◌, ◌≤◌, ◌⊎◌, List, [], ◌++◌};
ghost use Rattle.heap_memory.specs.declared.grant.Grant.{Grant};
ghost use Rattle.heap_memory.specs.Events.{Event};
ghost use Rattle.heap_memory.specs.Regions.{IsWordOf};
ghost use Rattle.heap_memory.specs.Words.{IsStored, AreWordsOf, AreFilled, AreCopied};

use crate::steps::Steps;
use std::sync::ledger::Ledger;

/// Words at the multiples of 8 of the granted regions. Each load and store of them is counted.
pub trait Links {
    ghost use Rattle.heap_memory.specs.Regions.{are_whole};
    ghost use Rattle.std.specs.Prelude.{IsTrue};

    /// The granted regions, by ascending base.
    ghost regions: { Self → List Grant };

    /// The word at each granted multiple of 8.
    ghost word: { Self → ℕ → ℕ };

    /// What the system says of two moments between which these events happened.
    ghost follows: { Self → List Event → Self → Type 0 };

    /// Each region is made of units of 16 bytes, from 4096 on and below 2^64: if the place of a word is granted, so is
    /// the word.
    ghost whole: { (x : Self) → IsTrue (are_whole (regions x)) };

    /// A system follows itself with no event.
    ghost follows_none: { (x : Self) → follows x [] x };

    /// Over two times, the second right after the first, the events are those of the first and then those of the
    /// second.
    ghost follows_on: { (x y z : Self) (a b c : List Event) → follows x a y → follows y b z → a ++ b ≡ c → follows x c z };

    /// The word at an address. It is one step.
    fn load_counted<L: Ledger>(&self, at: u64, steps: &mut Steps<L>) -> u64
        requires { IsWordOf (regions self.now) at }
        ensures value { result ≡ word self.now at }
        ensures counted { steps.new ≡ steps.old + 1 };

    /// Puts a word at an address, and changes nothing else. It is one step.
    fn store_counted<L: Ledger>(&mut self, at: u64, value: u64, steps: &mut Steps<L>)
        requires { IsWordOf (regions self.old) at }
        ensures stored { IsStored (regions self.old) (word self.old) at value (word self.new) }
        ensures regions { regions self.new ≡ regions self.old }
        ensures follows { follows self.old [] self.new }
        ensures counted { steps.new ≡ steps.old + 1 };

    /// Puts the same word at each of `count` places, from an address on, and changes nothing else. Each is one step.
    #[tactic(auto, using(crate::proofs::WordRuns::word_of_run, crate::proofs::WordRuns::filled_none, crate::proofs::WordRuns::filled_more))]
    fn fill_counted<L: Ledger>(&mut self, at: u64, count: u64, value: u64, steps: &mut Steps<L>)
        requires { AreWordsOf (regions self.old) at count }
        ensures filled { AreFilled (regions self.old) (word self.old) at count value (word self.new) }
        ensures regions { regions self.new ≡ regions self.old }
        ensures follows { follows self.old [] self.new }
        ensures counted { steps.new ≡ steps.old + count }
    {
        for i in 0..count {
            self.store_counted(at + 8 * i, value, steps);
        }
    }

    /// Copies `count` words from one place to another, apart from it, and changes nothing else. Each is two steps.
    #[tactic(auto, using(crate::proofs::WordRuns::word_of_run, crate::proofs::WordRuns::copied_none, crate::proofs::WordRuns::copied_more))]
    fn copy_counted<L: Ledger>(&mut self, from: u64, to: u64, count: u64, steps: &mut Steps<L>)
        requires from { AreWordsOf (regions self.old) from count }
        requires to { AreWordsOf (regions self.old) to count }
        requires apart { (from + 8 * count ≤ to) ⊎ (to + 8 * count ≤ from) }
        ensures copied { AreCopied (regions self.old) (word self.old) from to count (word self.new) }
        ensures regions { regions self.new ≡ regions self.old }
        ensures follows { follows self.old [] self.new }
        ensures counted { steps.new ≡ steps.old + 2 * count }
    {
        for i in 0..count {
            let word = self.load_counted(from + 8 * i, steps);
            self.store_counted(to + 8 * i, word, steps);
        }
    }
}
