// A system over words that the caller gives.
ghost use Rattle.std.specs.Prelude.{◌≡◌, ◌≢◌, ◌+◌, ◌-◌, ◌*◌, ◌/◌, ◌%◌, ◌^◌, ◌<◌, ◌≤◌, ◌⊎◌, ◌==◌, true, false, [], IsTrue, length};
ghost use Rattle.heap_memory.specs.Regions.{are_whole, are_ordered};
ghost use Rattle.heap_arena.specs.Grants.{grants, are_between};

use crate::table::Table;
use crate::words::{put_word, with_byte, word_at};
use heap_memory::{Links, Memory, Steps};
use std::sync::ledger::Ledger;

/// Words that the caller gives, at addresses from `base` on.
///
/// Each request is granted as many bytes as it asks for, after all grants. Each grant is noted in a table, in two words
/// that the caller gives too. If the words end before a grant would, or the table is full, it is denied as `NoSpace`.
/// All that is given back is taken; what ends where the last grant does is granted anew.
#[derive(Drop)]
pub struct Arena<'a> {
    pub(crate) words: &'a mut [u64],
    pub(crate) table: Table<'a>,
    pub(crate) base: u64,
    /// The address after the last grant, where the next one begins.
    pub(crate) top: u64,
    /// The highest address that the top ever was: the words from there on were never touched.
    pub(crate) peak: u64,
    ghost aligned: { base % 16 ≡ 0 },
    ghost low: { 4096 ≤ base },
    ghost begins: { base ≤ top },
    ghost top_aligned: { top % 16 ≡ 0 },
    ghost peak_aligned: { peak % 16 ≡ 0 },
    ghost risen: { top ≤ peak },
    ghost ends: { peak ≤ base + 8 * length words.now },
    ghost high: { base + 8 * length words.now < 2 ^ 64 },
    ghost whole: { IsTrue (are_whole (grants table.words.now table.count)) },
    ghost ordered: { IsTrue (are_ordered (grants table.words.now table.count)) },
    ghost between: { IsTrue (are_between base top (grants table.words.now table.count)) },
}

impl<'a> Arena<'a> {
    ghost use Rattle.heap_arena.specs.Arena.{regions_of, end_of, has_room, IsAbove, AreInside, IsTakenBack};

    /// A system over these words, the first of them at the address `base`, of which none is granted yet. The table has a
    /// place for each two of its words.
    pub fn new(words: &'a mut [u64], table: &'a mut [u64], base: u64) -> Arena<'a>
        requires aligned { base % 16 ≡ 0 }
        requires low { 4096 ≤ base }
        requires high { base + 8 * length words.now < 2 ^ 64 }
        ensures regions { regions_of result ≡ [] }
        ensures words { result.words.now ≡ words.entry.now }
        ensures table { result.table.words.now ≡ table.entry.now }
        ensures base { result.base ≡ base }
        ensures top { result.top ≡ base }
        ensures peak { result.peak ≡ base }
    {
        Arena {
            words,
            table: Table::new(table),
            base,
            top: base,
            peak: base,
        }
    }

    /// How many words from the front are in use: each granted byte is in them, and the next grant begins after them.
    #[tactic(auto, using(crate::proofs::GrantLemmas::granted_between))]
    pub fn used(&self) -> usize
        ensures top { self.now.base + 8 * result ≡ self.now.top }
        ensures above { IsAbove self.now (self.now.base + 8 * result) }
    {
        ((self.top - self.base) / 8) as usize
    }

    /// How many words from the front were ever in use: those after them are as they were when the arena began.
    pub fn touched(&self) -> usize
        ensures { self.now.base + 8 * result ≡ self.now.peak }
    {
        ((self.peak - self.base) / 8) as usize
    }

    /// The address of the first word.
    pub fn base(&self) -> u64
        ensures { result ≡ self.now.base }
    {
        self.base
    }

    /// Each granted byte is in the words, and the first word is at a multiple of 16.
    #[tactic(auto, using(crate::proofs::GrantLemmas::granted_between))]
    pub fn law_grants_inside(&self)
        ensures inside { AreInside self.now }
        ensures aligned { self.now.base % 16 ≡ 0 }
    {}

    /// The address after the last word.
    pub fn end(&self) -> u64
        ensures { result ≡ end_of self.now }
    {
        self.base + 8 * self.words.len() as u64
    }

    /// The bytes after all grants.
    pub(crate) fn rest(&self) -> u64
        ensures { self.now.top + result ≡ end_of self.now }
    {
        self.end() - self.top
    }

    /// Whether any bytes are granted.
    pub fn has_grants(&self) -> bool
        ensures none { result ≡ false → regions_of self.now ≡ [] }
        ensures some { result ≡ true → regions_of self.now ≢ [] }
    {
        self.table.count > 0
    }

    /// Whether a request for `size` bytes is granted.
    pub(crate) fn has_room(&self, size: u64) -> bool
        ensures { result ≡ has_room self.now size }
    {
        size <= self.rest() && self.table.has_room()
    }

    /// Takes the bytes from `low` on and below `high`, the end of a run, back: those that are its own. They are granted
    /// anew if they reach the top.
    pub(crate) fn take_back(&mut self, low: u64, high: u64)
        requires { low % 16 ≡ 0 }
        ensures { IsTakenBack low high self.old self.new }
    {
        let reaches_top = low < self.top && self.top <= high;
        self.table.give_back(low, high);
        if reaches_top {
            self.top = low.max(self.base);
        }
    }
}

/// An arena of no words, which grants nothing.
impl<'a> Default for Arena<'a> {
    ghost use Rattle.heap_arena.specs.Arena.{regions_of};

    ghost is_default = { λ arena. (arena.words.now ≡ []) × (regions_of arena ≡ []) };

    fn default() -> Arena<'a> {
        Arena::new(&mut [], &mut [], 4096)
    }
}

impl<'a> Links for Arena<'a> {
    ghost use Rattle.heap_memory.specs.Regions.{IsWordOf};
    ghost use Rattle.heap_memory.specs.Words.{AreCopied, AreFilled, AreWordsOf};
    ghost use Rattle.heap_arena.specs.Arena.{regions_of, word_of, IsArenaAfter, IsWrittenAt, IsWordPut};
    ghost use Rattle.heap_arena.specs.ArenaLaws.{after_none, after_on};

    ghost regions = { λ arena. regions_of arena };

    ghost word = { λ arena at. word_of arena at };

    ghost whole = { λ arena. arena.whole };

    ghost follows = { λ old events new. IsArenaAfter old events new };

    ghost follows_none = { λ x. after_none x };

    ghost follows_on = { λ x y z a b c first second is. after_on x y z a b c first second is };

    fn load_counted<L: Ledger>(&self, at: u64, steps: &mut Steps<L>) -> u64 {
        steps.tick();
        self.load(at)
    }

    /// Puts a word at an address, and changes no other, granted or not.
    fn store_counted<L: Ledger>(&mut self, at: u64, value: u64, steps: &mut Steps<L>)
        requires { IsWordOf (regions_of self.old) at }
        ensures put { IsWordPut at value self.old self.new }
        ensures counted { steps.new ≡ steps.old + 1 }
    {
        self.store(at, value);
        steps.tick()
    }

    /// Puts the same word at each of `count` places, from an address on, and changes no other, granted or not.
    fn fill_counted<L: Ledger>(&mut self, at: u64, count: u64, value: u64, steps: &mut Steps<L>)
        requires { AreWordsOf (regions_of self.old) at count }
        ensures filled { AreFilled (regions_of self.old) (word_of self.old) at count value (word_of self.new) }
        ensures written { IsWrittenAt at count self.old self.new }
        ensures counted { steps.new ≡ steps.old + count }
    {
        if count == 0 {
            return;
        }
        let place = ((at - self.base) / 8) as usize;
        self.words[place..place + count as usize].fill(value);
        steps.tick_each(count)
    }

    /// Copies `count` words from one place to another, apart from it, and changes no other, granted or not.
    fn copy_counted<L: Ledger>(&mut self, from: u64, to: u64, count: u64, steps: &mut Steps<L>)
        requires from { AreWordsOf (regions_of self.old) from count }
        requires to { AreWordsOf (regions_of self.old) to count }
        requires apart { (from + 8 * count ≤ to) ⊎ (to + 8 * count ≤ from) }
        ensures copied { AreCopied (regions_of self.old) (word_of self.old) from to count (word_of self.new) }
        ensures written { IsWrittenAt to count self.old self.new }
        ensures counted { steps.new ≡ steps.old + 2 * count }
    {
        if count == 0 {
            return;
        }
        let place = ((from - self.base) / 8) as usize;
        self.words.copy_within(
            place..place + count as usize,
            ((to - self.base) / 8) as usize,
        );
        steps.tick_each(2 * count)
    }
}

impl<'a> Memory for Arena<'a> {
    ghost use Rattle.heap_memory.specs.Regions.{IsWordOf};
    ghost use Rattle.heap_memory.specs.Words.{with_byte};
    ghost use Rattle.heap_arena.specs.Arena.{regions_of, word_of, IsWordPut};

    #[tactic(auto, using(crate::proofs::GrantLemmas::granted_between))]
    fn load(&self, at: u64) -> u64 {
        word_at(self.words, (at - self.base) as usize)
    }

    /// Puts a word at an address, and changes no other, granted or not.
    #[tactic(auto, using(crate::proofs::GrantLemmas::granted_between))]
    fn store(&mut self, at: u64, value: u64)
        requires { IsWordOf (regions_of self.old) at }
        ensures { IsWordPut at value self.old self.new }
    {
        put_word(self.words, (at - self.base) as usize, value);
    }

    /// Puts a byte at an address, and changes no word but its own, granted or not.
    fn store_byte(&mut self, at: u64, byte: u8)
        requires { IsWordOf (regions_of self.old) (at - at % 8) }
        ensures { IsWordPut (at - at % 8) (with_byte (word_of self.old (at - at % 8)) (at % 8) byte) self.old self.new }
    {
        let word = with_byte(self.load(at - at % 8), at % 8, byte);
        self.store(at - at % 8, word);
    }
}
