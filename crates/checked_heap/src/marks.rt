// Marks at addresses.
ghost use Rattle.std.specs.Prelude.{◌≡◌, ℕ, ◌<◌, true, false, length, replicate};

/// A bit for each 16 bytes from an address on.
#[derive(Drop)]
pub(crate) struct Marks<'a> {
    words: &'a mut [u64],
    base: u64,
    /// How many addresses are marked.
    count: u64,
}

impl<'a> Marks<'a> {
    ghost use Rattle.checked_heap.specs.Marks.{is_marked, HasBitPlace};
    ghost use Rattle.checked_heap.specs.Marking.{AreCounted, AreUnset, IsMarkSet};

    /// Marks from the address `base` on, of which none is set.
    pub fn new(words: &'a mut [u64], base: u64) -> Marks<'a>
        ensures unset { AreUnset base result }
        ensures len { length result.words.now ≡ length words.entry.now }
    {
        words.fill(0);
        Marks::over_zeros(words, base)
    }

    /// As `new`, if the words are 0 already.
    pub fn over_zeros(words: &'a mut [u64], base: u64) -> Marks<'a>
        requires zeros { words.now ≡ replicate (length words.now) 0 }
        ensures unset { AreUnset base result }
        ensures len { length result.words.now ≡ length words.entry.now }
    {
        let marks = Marks {
            words,
            base,
            count: 0,
        };
        marks.law_none_counted();
        marks
    }

    /// The words.
    pub fn len(&self) -> usize
        ensures { result ≡ length self.now.words.now }
    {
        self.words.len()
    }

    /// Where no address is marked, there are 0.
    fn law_none_counted(&self)
        requires none { (address : ℕ) → is_marked self.now.base self.now.words.now address ≡ false }
        requires zero { self.now.count ≡ 0 }
        ensures { AreCounted self.now }
    {}

    /// Whether an address is marked. It may be any.
    pub fn has(&self, address: u64) -> bool
        ensures { result ≡ is_marked self.now.base self.now.words.now address }
    {
        if address < self.base || (address - self.base) % 16 != 0 {
            return false;
        }
        let place = (address - self.base) / 16;
        match self.words.get((place / 64) as usize) {
            Some(word) => *word >> (place % 64) & 1 == 1,
            None => false,
        }
    }

    /// How many addresses are marked.
    pub fn count(&self) -> u64
        ensures { result ≡ self.now.count }
    {
        self.count
    }

    /// Marks an address that is not marked, and no other.
    pub fn set(&mut self, address: u64)
        requires some { 0 < self.old.base }
        requires place { HasBitPlace self.old.base self.old.words.now address }
        requires unmarked { is_marked self.old.base self.old.words.now address ≡ false }
        requires counted { AreCounted self.old }
        ensures { IsMarkSet self.old address true self.new }
    {
        let place = (address - self.base) / 16;
        let word = self.words[(place / 64) as usize];
        self.words[(place / 64) as usize] = word | 1 << (place % 64);
        self.count += 1;
    }

    /// Takes the mark off an address, and off no other.
    pub fn clear(&mut self, address: u64)
        requires place { HasBitPlace self.old.base self.old.words.now address }
        requires marked { is_marked self.old.base self.old.words.now address ≡ true }
        requires counted { AreCounted self.old }
        ensures { IsMarkSet self.old address false self.new }
    {
        let place = (address - self.base) / 16;
        let word = self.words[(place / 64) as usize];
        self.words[(place / 64) as usize] = word & !(1 << (place % 64));
        self.count -= 1;
    }
}
