// The paged system as a memory: each load and store walks the raw tables.
ghost use Rattle.std.specs.Prelude.{◌*◌};
ghost use Rattle.paged_systems.specs.System.{paged};

use crate::paged_system::PagedSystem;
use heap_memory::{Links, Memory, Steps};
use std::sync::ledger::Ledger;

impl Links for PagedSystem {
    ghost use Rattle.paged_systems.specs.Follows.{Follows, still_none, follows_on as paged_follows_on};
    ghost use Rattle.paged_systems.specs.Ordered.{regions_whole};
    ghost use Rattle.paged_systems.specs.Words.{grants_of};
    ghost use Rattle.mapped_regions.specs.Mapped.{word_reached};

    ghost regions = { λ system. grants_of (paged system) };

    ghost word = { λ system at. word_reached (paged system) at };

    ghost whole = { λ system. regions_whole (paged system) system.kept };

    ghost follows = { λ old events new. Follows (paged old) events (paged new) };

    ghost follows_none = { λ system. still_none (paged system) };

    ghost follows_on = { λ x y z a b c first second is. paged_follows_on (paged x) (paged y) (paged z) a b c first second is };

    fn load_counted<L: Ledger>(&self, at: u64, steps: &mut Steps<L>) -> u64 {
        steps.tick();
        self.word(at)
    }

    fn store_counted<L: Ledger>(&mut self, at: u64, value: u64, steps: &mut Steps<L>) {
        self.set_word(at, value);
        steps.tick()
    }

    fn fill_counted<L: Ledger>(&mut self, at: u64, count: u64, value: u64, steps: &mut Steps<L>) {
        self.fill_words(at, count, value);
        steps.tick_each(count)
    }

    fn copy_counted<L: Ledger>(&mut self, from: u64, to: u64, count: u64, steps: &mut Steps<L>) {
        self.copy_words(from, to, count);
        steps.tick_each(2 * count)
    }
}

impl Memory for PagedSystem {
    fn load(&self, at: u64) -> u64 {
        self.word(at)
    }

    fn store(&mut self, at: u64, value: u64) {
        self.set_word(at, value);
    }
}
