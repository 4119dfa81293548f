// A system that counts the words that are loaded and stored in it.
ghost use Rattle.std.specs.Prelude.{◌≡◌};

use heap_memory::{Allocator, Grant, GrantFault, Links, Steps};
use std::cell::Cell;
use std::sync::ledger::Ledger;

/// Another system, and how many of its words were loaded and stored. What is loaded is counted in a cell, since a load
/// changes nothing else.
#[derive(Drop)]
pub(crate) struct Counted<A: Allocator> {
    system: A,
    words: Cell<u64>,
}

impl<A: Allocator> Counted<A> {
    pub(crate) fn new(system: A) -> Self
        ensures { result.system ≡ system }
    {
        Counted {
            system,
            words: Cell::new(0),
        }
    }

    /// How many words were loaded and stored so far.
    pub(crate) fn words(&self) -> u64 {
        self.words.get()
    }

    fn count(&self) {
        self.words.set(self.words.get().saturating_add(1));
    }
}

impl<A: Allocator> Links for Counted<A> {
    ghost regions = { λ counted. A.regions counted.system };

    ghost word = { λ counted at. A.word counted.system at };

    ghost whole = { λ counted. A.whole counted.system };

    ghost follows = { λ old events new. A.follows old.system events new.system };

    ghost follows_none = { λ x. A.follows_none x.system };

    ghost follows_on = { λ x y z a b c first second is. A.follows_on x.system y.system z.system a b c first second is };

    fn load_counted<L: Ledger>(&self, at: u64, steps: &mut Steps<L>) -> u64 {
        self.count();
        self.system.load_counted(at, steps)
    }

    fn store_counted<L: Ledger>(&mut self, at: u64, value: u64, steps: &mut Steps<L>) {
        self.count();
        self.system.store_counted(at, value, steps);
    }
}

impl<A: Allocator> Allocator for Counted<A> {
    ghost denies = { λ counted size fault. A.denies counted.system size fault };

    ghost zeros = { λ counted. A.zeros counted.system };

    ghost frees = { λ counted. A.frees counted.system };

    ghost unit = { λ counted. A.unit counted.system };

    ghost parts = { λ counted. A.parts counted.system };

    ghost refuses = { λ old new. A.refuses old.system new.system };

    ghost refuses_none = { λ x. A.refuses_none x.system };

    ghost ordered = { λ x. A.ordered x.system };

    ghost fixed = { λ x y events follows. let same = A.fixed x.system y.system events follows in record { zeros_same = same.zeros_same; frees_same = same.frees_same; parts_same = same.parts_same; unit_same = same.unit_same } };

    fn alloc(&mut self, size: u64) -> Result<Grant, GrantFault> {
        self.system.alloc(size)
    }

    fn free_part(&mut self, at: u64, old_size: u64, new_size: u64) -> bool {
        self.system.free_part(at, old_size, new_size)
    }

    fn free(&mut self, at: u64, size: u64) -> bool {
        self.system.free(at, size)
    }

    fn can_release_part(&self, flags: u32) -> bool {
        self.system.can_release_part(flags)
    }

    fn allocates_zeros(&self) -> bool {
        self.system.allocates_zeros()
    }

    fn page_size(&self) -> u64 {
        self.system.page_size()
    }
}
