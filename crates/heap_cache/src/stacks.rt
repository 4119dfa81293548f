// Stacks of addresses, by numbers.
ghost use Rattle.std.specs.Prelude.{◌≡◌, ◌<◌, length};
ghost use Rattle.heap_cache.specs.Stacks.{AreWithin};

/// How many addresses a stack holds.
const DEPTH: u64 = 15;

/// A stack of up to 15 addresses for each number below 66. In a row of 16 words the first says how many there are, and they follow.
#[derive(Drop)]
pub struct Stacks {
    pub(crate) rows: [u64; 1056],
    ghost len: { length rows ≡ 1056 },
    ghost within: { AreWithin rows },
}

impl Stacks {
    ghost use Rattle.std.specs.Prelude.{◌≡◌, ℕ, ◌<◌, IfSome, IfNone, true, false};
    ghost use Rattle.heap_cache.specs.Stacks.{height, IsPushed, IsPopped};

    /// Empty stacks.
    pub fn new() -> Stacks
        ensures { (class : ℕ) → class < 66 → height result.rows class ≡ 0 }
    {
        let rows: [u64; 1056] = [0; 1056];
        Stacks { rows }
    }

    /// Takes the highest address off a stack. `None` if and only if there is none; then nothing changes.
    pub fn pop(&mut self, class: u64) -> Option<u64>
        requires { class < 66 }
        ensures some { IfSome result (λ address. IsPopped self.old.rows class address self.new.rows) }
        ensures none { IfNone result (height self.old.rows class ≡ 0) }
        ensures same { IfNone result (self.new ≡ self.old) }
    {
        let row = (class * 16) as usize;
        let count = self.rows[row];
        if count == 0 {
            return None;
        }
        let address = self.rows[row + count as usize];
        self.rows[row] = count - 1;
        Some(address)
    }

    /// Puts an address onto a stack. `false` if and only if it is full; then nothing changes.
    pub fn push(&mut self, class: u64, address: u64) -> bool
        requires { class < 66 }
        ensures pushed { result ≡ true → IsPushed self.old.rows class address self.new.rows }
        ensures full { result ≡ false → height self.old.rows class ≡ 15 }
        ensures same { result ≡ false → self.new ≡ self.old }
    {
        let row = (class * 16) as usize;
        let count = self.rows[row];
        if count == DEPTH {
            return false;
        }
        self.rows[row + count as usize + 1] = address;
        self.rows[row] = count + 1;
        true
    }
}
