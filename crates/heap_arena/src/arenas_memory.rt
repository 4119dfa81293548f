// The words of several arenas.
ghost use Rattle.std.specs.Prelude.{◌≡◌, ◌+◌, ◌-◌, ◌*◌, ◌%◌, ◌≤◌, ◌⊎◌};

use crate::among::{load_among, store_among};
use crate::arenas::Arenas;
use crate::words::with_byte;
use heap_memory::{Links, Memory, Steps};
use std::sync::ledger::Ledger;

impl<'a, const N: usize> Links for Arenas<'a, N> {
    ghost use Rattle.heap_memory.specs.Regions.{IsWordOf};
    ghost use Rattle.heap_memory.specs.Words.{AreWordsOf, AreFilled, AreCopied};
    ghost use Rattle.heap_arena.specs.Arenas.{regions_of_all, word_among, AreAfter, AreWrittenAt, IsWordPutAmong};
    ghost use Rattle.heap_arena.specs.ArenasLaws.{all_whole, all_after_none, all_after_on};

    ghost regions = { λ a. regions_of_all a.arenas.items };

    ghost word = { λ a at. word_among a.arenas.items at };

    ghost whole = { λ a. all_whole a.arenas.items };

    ghost follows = { λ old events new. AreAfter old.arenas.items events new.arenas.items };

    ghost follows_none = { λ x. all_after_none x.arenas.items };

    ghost follows_on = { λ x y z a b c first second is. all_after_on x.arenas.items y.arenas.items z.arenas.items a b c first second is };

    fn load_counted<L: Ledger>(&self, at: u64, steps: &mut Steps<L>) -> u64 {
        steps.tick();
        self.load(at)
    }

    /// Puts a word at an address, and changes no other, granted or not.
    fn store_counted<L: Ledger>(&mut self, at: u64, value: u64, steps: &mut Steps<L>)
        requires { IsWordOf (regions_of_all self.old.arenas.items) at }
        ensures put { IsWordPutAmong at value self.old.arenas.items self.new.arenas.items }
        ensures counted { steps.new ≡ steps.old + 1 }
    {
        self.store(at, value);
        steps.tick()
    }

    /// Puts the same word at each of `count` places, from an address on, and changes no other, granted or not.
    #[tactic(auto, using(heap_memory::proofs::WordRuns::word_of_run))]
    fn fill_counted<L: Ledger>(&mut self, at: u64, count: u64, value: u64, steps: &mut Steps<L>)
        requires { AreWordsOf (regions_of_all self.old.arenas.items) at count }
        ensures filled { AreFilled (regions_of_all self.old.arenas.items) (word_among self.old.arenas.items) at count value (word_among self.new.arenas.items) }
        ensures written { AreWrittenAt at count self.old.arenas.items self.new.arenas.items }
        ensures counted { steps.new ≡ steps.old + count }
    {
        for i in 0..count {
            self.store_counted(at + 8 * i, value, steps);
        }
    }

    /// Copies `count` words from one place to another, apart from it, and changes no other, granted or not.
    #[tactic(auto, using(heap_memory::proofs::WordRuns::word_of_run))]
    fn copy_counted<L: Ledger>(&mut self, from: u64, to: u64, count: u64, steps: &mut Steps<L>)
        requires from { AreWordsOf (regions_of_all self.old.arenas.items) from count }
        requires to { AreWordsOf (regions_of_all self.old.arenas.items) to count }
        requires apart { (from + 8 * count ≤ to) ⊎ (to + 8 * count ≤ from) }
        ensures copied { AreCopied (regions_of_all self.old.arenas.items) (word_among self.old.arenas.items) from to count (word_among self.new.arenas.items) }
        ensures written { AreWrittenAt to count self.old.arenas.items self.new.arenas.items }
        ensures counted { steps.new ≡ steps.old + 2 * count }
    {
        for i in 0..count {
            let word = self.load_counted(from + 8 * i, steps);
            self.store_counted(to + 8 * i, word, steps);
        }
    }
}

impl<'a, const N: usize> Memory for Arenas<'a, N> {
    ghost use Rattle.heap_memory.specs.Regions.{IsWordOf};
    ghost use Rattle.heap_memory.specs.Words.{with_byte};
    ghost use Rattle.heap_arena.specs.Arenas.{regions_of_all, word_among, IsWordPutAmong};

    fn load(&self, at: u64) -> u64 {
        load_among(self.arenas.as_slice(), at)
    }

    /// Puts a word at an address, and changes no other, granted or not.
    fn store(&mut self, at: u64, value: u64)
        requires { IsWordOf (regions_of_all self.old.arenas.items) at }
        ensures { IsWordPutAmong at value self.old.arenas.items self.new.arenas.items }
    {
        store_among(self.arenas.as_mut_slice(), at, value)
    }

    /// Puts a byte at an address, and changes no word but its own, granted or not.
    fn store_byte(&mut self, at: u64, byte: u8)
        requires { IsWordOf (regions_of_all self.old.arenas.items) (at - at % 8) }
        ensures { IsWordPutAmong (at - at % 8) (with_byte (word_among self.old.arenas.items (at - at % 8)) (at % 8) byte)
            self.old.arenas.items self.new.arenas.items }
    {
        let word = with_byte(self.load(at - at % 8), at % 8, byte);
        self.store(at - at % 8, word);
    }
}
