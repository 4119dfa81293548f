// The grants of an arena, in words that the caller gives.
ghost use Rattle.std.specs.Prelude.{◌≡◌, ◌≢◌, ℕ, ◌+◌, ◌-◌, ◌*◌, ◌<◌, ◌≤◌, nat_lt, true, false, [], ◌∷◌, ◌++◌, length, IsTrue};
ghost use Rattle.heap_memory.specs.Regions.{are_ordered};
ghost use Rattle.heap_memory.specs.Runs.{begins_in, up_to};
ghost use Rattle.heap_arena.specs.Grants.{lies_before};

use heap_memory::Grant;

/// Grants in the order in which they were made. Each takes two words: its base, and its size.
#[derive(Drop)]
pub(crate) struct Table<'a> {
    pub(crate) words: &'a mut [u64],
    pub(crate) count: usize,
    ghost room: { 2 * count ≤ length words.now },
}

impl<'a> Table<'a> {
    ghost use Rattle.heap_memory.specs.Runs.{without_run};
    ghost use Rattle.heap_arena.specs.Grants.{grant_at, grants};

    /// A table of no grants.
    #[tactic(auto, using(crate::proofs::GrantLemmas::grants_none))]
    pub fn new(words: &'a mut [u64]) -> Table<'a>
        ensures words { result.words.now ≡ words.entry.now }
        ensures count { result.count ≡ 0 }
        ensures grants { grants result.words.now result.count ≡ [] }
    {
        Table { words, count: 0 }
    }

    /// Whether there is a place for a further grant.
    pub fn has_room(&self) -> bool
        ensures { result ≡ nat_lt (2 * self.now.count + 1) (length self.now.words.now) }
    {
        self.words.len() > 2 * self.count + 1
    }

    /// The grant at a place.
    fn get(&self, place: usize) -> Grant
        requires { place < self.now.count }
        ensures { result ≡ grant_at self.now.words.now place }
    {
        Grant {
            base: self.words[2 * place],
            size: self.words[2 * place + 1],
            flags: 0,
        }
    }

    /// Puts a grant at a place.
    fn set(&mut self, place: usize, grant: Grant)
        requires place { 2 * place + 1 < length self.old.words.now }
        requires flags { grant.flags ≡ 0 }
        ensures here { grant_at self.new.words.now place ≡ grant }
        ensures others { (k : ℕ) → k ≢ place → grant_at self.new.words.now k ≡ grant_at self.old.words.now k }
        ensures len { length self.new.words.now ≡ length self.old.words.now }
        ensures count { self.new.count ≡ self.old.count }
    {
        self.words[2 * place] = grant.base;
        self.words[2 * place + 1] = grant.size;
    }

    /// Puts a grant after the others.
    pub fn push(&mut self, grant: Grant)
        requires room { 2 * self.old.count + 1 < length self.old.words.now }
        requires flags { grant.flags ≡ 0 }
        ensures grants { grants self.new.words.now self.new.count ≡ grants self.old.words.now self.old.count ++ grant ∷ [] }
        ensures len { length self.new.words.now ≡ length self.old.words.now }
    {
        self.set(self.count, grant);
        self.count += 1;
    }

    // How many grants stand before the first that reaches beyond a place. It looks from the last grant on, at no more
    // than one that does not reach there.
    fn before(&self, place: u64) -> usize
        ensures few { result ≤ self.now.count }
        ensures ends { 0 < result → lies_before place (grant_at self.now.words.now (result - 1)) ≡ true }
        ensures others { (k : ℕ) → result ≤ k → k < self.now.count → lies_before place (grant_at self.now.words.now k) ≡ false }
    {
        for passed in 0..self.count {
            let last = self.count - 1 - passed;
            if lies_before(self.get(last), place) {
                return last + 1;
            }
        }
        0
    }

    /// Takes the bytes from `low` on and below `high`, the end of a run, out of the grants, which stand in ascending
    /// order. It looks at the grants that reach beyond `low` and at one before them.
    pub fn give_back(&mut self, low: u64, high: u64)
        requires { IsTrue (are_ordered (grants self.old.words.now self.old.count)) }
        ensures grants { grants self.new.words.now self.new.count ≡ without_run low high (grants self.old.words.now self.old.count) }
        ensures len { length self.new.words.now ≡ length self.old.words.now }
    {
        let first = self.before(low);
        let mut kept = first;
        for i in first..self.count {
            let grant = self.get(i);
            if !begins_in(grant, low, high) {
                self.set(kept, up_to(grant, low));
                kept += 1;
            }
        }
        self.count = kept;
    }
}

/// Whether a grant begins before a place and ends there or before it.
fn lies_before(grant: Grant, place: u64) -> bool
    ensures { result ≡ lies_before place grant }
{
    grant.base < place && grant.size <= place - grant.base
}

/// Whether a grant begins among the bytes from `low` on and below `high`.
fn begins_in(grant: Grant, low: u64, high: u64) -> bool
    ensures { result ≡ begins_in low high grant }
{
    low <= grant.base && grant.base < high
}

/// A grant, or the part in front of a place that is in it.
fn up_to(grant: Grant, place: u64) -> Grant
    ensures { result ≡ up_to place grant }
{
    if grant.base < place && place - grant.base < grant.size {
        Grant {
            size: place - grant.base,
            ..grant
        }
    } else {
        grant
    }
}
