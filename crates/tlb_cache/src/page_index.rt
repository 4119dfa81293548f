//! Which entry of a ring has a page, by chains of entries whose pages have one hash.
//!
//! A chain leads from the newest entry to older ones. Entries leave only from the old end, so what leaves is at the end
//! of its chain, and no link has to be taken out: one that leads to a place whose entry left, or to a newer one that
//! took the place, is known by the age there.
ghost use Rattle.std.specs.Prelude.{◌≡◌, ℕ, ◌+◌, ◌*◌, ◌^◌, ◌<◌, List, [], ◌∷◌, ◌++◌, length, slice_index, IfOk};
ghost use Rattle.tlb_cache.specs.Chains.{hash_of, place_at, next_place, count_up_to, Leads};

use std::alloc::{AllocError, Global};

/// 2^64 over the golden ratio: products with it spread pages that follow one another, or that are a power of two apart.
const SPREAD: u64 = 0x9e37_79b9_7f4a_7c15;

/// The hash of a page, below `hashes`.
#[tactic(auto, unfolding(crate::specs::Chains::hash_of))]
fn hash_of(page: u64, hashes: u32) -> u32
    requires { 0 < hashes }
    ensures hash { result ≡ hash_of hashes page }
    ensures below { result < hashes }
{
    let high = page.wrapping_mul(SPREAD) >> 32;
    (high * u64::from(hashes) >> 32) as u32
}

/// The chains of a ring's entries. It has no entry itself.
#[derive(Drop)]
pub(crate) struct PageIndex {
    /// For each hash the place of the newest entry that has it, or any place if none has.
    newest: Vec<u32>,
    /// For the entry at each place the place of the next older one with its hash, or of one that is no older.
    older: Vec<u32>,
    /// The place of the oldest entry.
    oldest: u32,
    ghost has_hashes: { 0 < length newest.items },
    ghost few_hashes: { length newest.items < 2 ^ 32 },
    ghost few_places: { length older.items < 2 ^ 31 },
    ghost starts_within: { oldest < length older.items },
    ghost newest_are_places: { (hash : ℕ) → slice_index newest.items hash < length older.items },
    ghost older_are_places: { (place : ℕ) → slice_index older.items place < length older.items },
}

impl PageIndex {
    ghost use Rattle.tlb_cache.specs.PageIndex.{Indexes, hash_at};

    /// An index for a ring of `places` places, with no entries.
    pub(crate) fn new(alloc: Global, places: u32) -> Result<Self, AllocError>
        requires some { 0 < places }
        requires few { places < 2 ^ 31 }
        ensures none { IfOk result (λ index. Indexes index []) }
        ensures places { IfOk result (λ index. length index.older.items ≡ places) }
    {
        Ok(PageIndex {
            newest: vec![in alloc; 0; 2 * places as usize]?,
            older: vec![in alloc; 0; places as usize]?,
            oldest: 0,
        })
    }

    /// How many places the ring has.
    fn places(&self) -> u32
        ensures { result ≡ length self.now.older.items }
    {
        self.older.len() as u32
    }

    /// The hash of a page.
    fn hash(&self, page: u64) -> u32
        ensures hash { result ≡ hash_of (length self.now.newest.items) page }
        ensures below { result < length self.now.newest.items }
    {
        hash_of(page, self.newest.len() as u32)
    }

    /// The place of the entry with an age.
    #[tactic(auto, unfolding(crate::specs::Chains::place_at))]
    fn place(&self, age: u32) -> u32
        requires { age < length self.now.older.items }
        ensures place { result ≡ place_at (length self.now.older.items) self.now.oldest age }
        ensures within { result < length self.now.older.items }
    {
        let place = self.oldest + age;
        if place < self.places() {
            place
        } else {
            place - self.places()
        }
    }

    /// How many entries are no newer than the one at a place, if that is one of the oldest `limit`, and else 0.
    #[tactic(auto, unfolding(crate::specs::Chains::count_up_to, crate::specs::Chains::age_at))]
    fn up_to(&self, place: u32, limit: u32) -> u32
        requires place { place < length self.now.older.items }
        ensures { result ≡ count_up_to (length self.now.older.items) self.now.oldest place limit }
    {
        let age = if self.oldest <= place {
            place - self.oldest
        } else {
            place + self.places() - self.oldest
        };
        if age < limit { age + 1 } else { 0 }
    }

    /// How many of `len` entries are no newer than the newest with the hash of a page: 0 if none has it.
    pub(crate) fn newest(&self, page: u64, len: u32) -> u32
        ensures { (pages : List ℕ) → Indexes self.now pages → length pages ≡ len → Leads (hash_at self.now pages) (hash_of (length self.now.newest.items) page) len result }
    {
        let place = self.newest[self.hash(page) as usize];
        self.up_to(place, len)
    }

    /// How many entries are no newer than the next one older than that with an age, of those with its hash.
    pub(crate) fn older(&self, age: u32) -> u32
        requires { age < length self.now.older.items }
        ensures { (pages : List ℕ) → Indexes self.now pages → age < length pages → Leads (hash_at self.now pages) (hash_at self.now pages age) age result }
    {
        let place = self.older[self.place(age) as usize];
        self.up_to(place, age)
    }

    /// Takes note of an entry that joined at the new end of `len` others.
    pub(crate) fn push(&mut self, page: u64, len: u32)
        requires { len < length self.old.older.items }
        ensures indexes { (pages : List ℕ) → Indexes self.old pages → length pages ≡ len → Indexes self.new (pages ++ page ∷ []) }
        ensures places { length self.new.older.items ≡ length self.old.older.items }
    {
        let hash = self.hash(page) as usize;
        let place = self.place(len);
        self.older[place as usize] = self.newest[hash];
        self.newest[hash] = place;
    }

    /// The place after that of the oldest entry.
    #[tactic(auto, unfolding(crate::specs::Chains::next_place))]
    fn next(&self) -> u32
        ensures place { result ≡ next_place (length self.now.older.items) self.now.oldest }
        ensures within { result < length self.now.older.items }
    {
        let next = self.oldest + 1;
        if next < self.places() { next } else { 0 }
    }

    /// Takes note that the oldest entry left.
    pub(crate) fn pop(&mut self)
        ensures indexes { (page : ℕ) (pages : List ℕ) → Indexes self.old (page ∷ pages) → Indexes self.new pages }
        ensures places { length self.new.older.items ≡ length self.old.older.items }
    {
        self.oldest = self.next();
    }
}
