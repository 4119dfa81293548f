// The sizes of blocks by number, and their sum, which is kept.
ghost use Rattle.std.specs.Prelude.{◌≡◌, ◌≤◌, map, length};
ghost use Rattle.run_figures.specs.Totals.{AreZeroBefore};

use std::alloc::{AllocError, Global};
use std::marker::Model;

// All sizes become 0. Those before a number are 0.
fn end_from(sizes: &mut Vec<u64>, first: usize)
    requires within { first ≤ length sizes.old.items }
    requires zero { AreZeroBefore first sizes.old.items }
    ensures { sizes.new.items ≡ map (λ size. 0) sizes.old.items }
{
    for number in first..sizes.len() {
        sizes[number] = 0;
    }
}

/// The sizes of blocks by number, 0 for one that has ended. The sum is kept as they change, and never made anew.
#[derive(Drop)]
pub struct BlockSizes {
    sizes: Vec<u64>,
    total: u128,
    // All sizes before this number are 0.
    first: usize,
}

impl Model for BlockSizes {
    ghost use Rattle.std.specs.Prelude.{List, ℕ};
    ghost use Rattle.run_figures.specs.Totals.{AreTotalled};

    ghost Value = { List ℕ };

    ghost view = { λ all. all.sizes.items };

    ghost invariant = { λ all. AreTotalled all.sizes.items all.total all.first };
}

impl BlockSizes {
    ghost use Rattle.std.specs.Prelude.{◌≡◌, ◌++◌, ◌∷◌, [], OnOk, map, slice_set, sum};

    /// No blocks.
    pub fn new(alloc: Global) -> BlockSizes
        ensures { result ≡ [] }
    {
        BlockSizes {
            sizes: Vec::new(alloc),
            total: 0,
            first: 0,
        }
    }

    /// A block more, with the next number.
    pub fn push(&mut self, size: u64) -> Result<(), AllocError>
        ensures { OnOk result (self.new ≡ self.old ++ size ∷ []) }
    {
        // How many there are fits 64 bits, so the sum fits 128.
        let _number = self.sizes.len();
        self.sizes.push(size)?;
        self.total += u128::from(size);
        Ok(())
    }

    /// Another size for the block of this number, if there is one.
    pub fn set(&mut self, number: u64, size: u64)
        ensures { self.new ≡ slice_set self.old number size }
    {
        let number = number as usize;
        if number < self.sizes.len() {
            self.total = self.total - u128::from(self.sizes[number]) + u128::from(size);
            self.sizes[number] = size;
            self.first = self.first.min(number);
        }
    }

    /// All blocks end. Their numbers stay. It takes as long as there are blocks since the last time, unless an earlier
    /// one was set meanwhile.
    pub fn clear(&mut self)
        ensures { self.new ≡ map (λ size. 0) self.old }
    {
        end_from(&mut self.sizes, self.first);
        self.total = 0;
        self.first = self.sizes.len();
    }

    /// The sum of the sizes.
    pub fn sum(&self) -> u128
        ensures { result ≡ sum self.now }
    {
        self.total
    }
}
