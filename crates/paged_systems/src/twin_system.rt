// A paged system with flat words beside it.
ghost use Rattle.std.specs.Prelude.{◌≡◌, ℕ, ◌+◌, ◌*◌, ◌%◌, ◌<◌, true, refl, IsTrue, IfSome, IfNone, IfOk, IfErr, OnErr};
ghost use Rattle.std.specs.Int.{is_power_of_two};
ghost use Rattle.paged_systems.specs.Window.{IsHeapWindow};
ghost use Rattle.paged_systems.specs.System.{paged};
ghost use Rattle.paged_systems.specs.Twin.{IsTwin, IsTwin-prop};

use crate::flat_window::FlatWindow;
use crate::paged_system::{PagedSystem, pages_in};
use heap_memory::{Allocator, Grant, GrantFault, Links, Memory, Steps};
use paging_core::{PageSize, Size4KiB};
use std::alloc::{AllocError, Global};
use std::sync::ledger::Ledger;

/// A paged system, and flat words that are those of its granted regions: every store writes both, and a load is the word
/// of both.
///
/// The flat words begin with the window and reach to the end of the highest grant that there was, so never past the
/// window. The word of an address is found by its distance from there.
#[derive(Drop)]
pub struct TwinSystem {
    mapped: PagedSystem,
    flat: FlatWindow,
    ghost twin: { IsTwin (paged mapped) flat } by { IsTwin-prop (paged mapped) flat },
}

impl TwinSystem {
    ghost use Rattle.heap_memory.specs.Regions.{IsWordOf};
    ghost use Rattle.mapped_regions.specs.Mapped.{word_reached};
    ghost use Rattle.paged_systems.specs.Layout.{IsNew, IsGrantedFor, MayDeny};
    ghost use Rattle.paged_systems.specs.FlatWindow.{IsCovered, flat_word};
    ghost use Rattle.paged_systems.specs.TwinSystem.{paged_of, IsFlatCleared, IsWordIn, AreWordsIn, AreCopyableIn, IsWordOfBoth, IsStoredInBoth, AreFilledInBoth, AreCopiedInBoth};
    ghost use Rattle.paged_systems.specs.Words.{grants_of};

    /// A system with a window of `pages` pages from the address `base` on, and with `frames` frames, of which one
    /// holds the root table. Nothing is granted.
    pub fn new(alloc: Global, base: u64, pages: u64, frames: u32) -> Result<Self, AllocError>
        requires window { IsHeapWindow base pages }
        requires frames { 0 < frames }
        ensures { IfOk result (λ system. IsNew (paged_of system) base pages frames) }
    {
        let mapped = PagedSystem::new(alloc, base, pages, frames)?;
        let flat = FlatWindow::new(alloc, base);
        Ok(TwinSystem { mapped, flat })
    }

    /// The paged system in it.
    pub fn paged(&self) -> &PagedSystem
        ensures { result.now ≡ self.now.mapped }
    {
        &self.mapped
    }

    /// At every granted place the flat word is the word that the walk reaches. It does nothing: its clause is what a
    /// caller has by calling it.
    pub fn law_words_agree(&self)
        ensures { (at : ℕ) → IsWordOf (grants_of (paged_of self.now)) at → flat_word self.now.flat at ≡ word_reached (paged_of self.now) at }
    {}

    /// The flat word at an address, if there is one.
    pub fn flat_word(&self, at: u64) -> Option<u64>
        ensures word { IfSome result (λ word. word ≡ flat_word self.now.flat at) }
        ensures covered { IfSome result (λ word. IsCovered self.now.flat at) }
        ensures none { IfNone result (IsCovered self.now.flat at → ⊥) }
    {
        self.flat.get(at)
    }

    /// The word at a multiple of 8 in the regions: that of the flat words, and that which the walk reaches.
    fn word(&self, at: u64) -> u64
        requires { IsWordIn self.now at }
        ensures { IsWordOfBoth self.now at result }
    {
        let word = self.mapped.word(at);
        if word != self.flat.word(at) {
            unreachable!();
        }
        word
    }

    /// Puts a word at a multiple of 8 in the regions, into both, and changes nothing else.
    fn set_word(&mut self, at: u64, value: u64)
        requires { IsWordIn self.old at }
        ensures { IsStoredInBoth self.old self.new at value }
    {
        self.mapped.set_word(at, value);
        self.flat.set_word(at, value);
    }

    /// Puts the same word at each of `count` places, from an address on, into both, and changes nothing else.
    fn fill_words(&mut self, at: u64, count: u64, value: u64)
        requires { AreWordsIn self.old at count }
        ensures { AreFilledInBoth self.old self.new at count value }
    {
        self.mapped.fill_words(at, count, value);
        self.flat.fill(at, count, value);
    }

    /// Copies `count` words from one place to another, apart from it, in both, and changes nothing else.
    fn copy_words(&mut self, from: u64, to: u64, count: u64)
        requires { AreCopyableIn self.old from to count }
        ensures { AreCopiedInBoth self.old self.new from to count }
    {
        self.mapped.copy_words(from, to, count);
        self.flat.copy(from, to, count);
    }

    /// Grants the pages that hold this number of bytes, which are cleared in both. The flat words of the grant are made
    /// before anything is changed. An `Err` changes no region and no word of one.
    fn grant_bytes(&mut self, size: u64) -> Result<Grant, GrantFault>
        requires some { 0 < size }
        ensures ok { IfOk result (λ grant. IsGrantedFor (paged_of self.old) (paged_of self.new) size grant) }
        ensures flat { IfOk result (λ grant. IsFlatCleared self.new grant) }
        ensures err { OnErr result (paged_of self.new ≡ paged_of self.old) }
        ensures lacks { IfErr result (λ fault. MayDeny (paged_of self.old) size fault) }
    {
        let pages = pages_in(size);
        let place = self.mapped.plan(pages)?;
        match self.flat.cover(place + pages * Size4KiB::SIZE) {
            Ok(()) => (),
            Err(_) => return Err(GrantFault::OutOfMemory),
        }
        let grant = self.mapped.grant_bytes(size)?;
        self.flat.fill(grant.base, grant.size / 8, 0);
        Ok(grant)
    }
}

impl Links for TwinSystem {
    ghost use Rattle.paged_systems.specs.Follows.{Follows, still_none, follows_on as paged_follows_on};
    ghost use Rattle.paged_systems.specs.Ordered.{regions_whole};
    ghost use Rattle.paged_systems.specs.TwinSystem.{paged_of, IsWordIn, AreWordsIn, AreCopyableIn, IsWordOfBoth, IsStoredInBoth, AreFilledInBoth, AreCopiedInBoth};
    ghost use Rattle.paged_systems.specs.Words.{grants_of};
    ghost use Rattle.mapped_regions.specs.Mapped.{word_reached};

    ghost regions = { λ system. grants_of (paged_of system) };

    ghost word = { λ system at. word_reached (paged_of system) at };

    ghost whole = { λ system. regions_whole (paged_of system) system.mapped.kept };

    ghost follows = { λ old events new. Follows (paged_of old) events (paged_of new) };

    ghost follows_none = { λ system. still_none (paged_of system) };

    ghost follows_on = { λ x y z a b c first second is. paged_follows_on (paged_of x) (paged_of y) (paged_of z) a b c first second is };

    /// The word at an address, which both have. It is one step.
    fn load_counted<L: Ledger>(&self, at: u64, steps: &mut Steps<L>) -> u64
        requires { IsWordIn self.now at }
        ensures both { IsWordOfBoth self.now at result }
        ensures counted { steps.new ≡ steps.old + 1 }
    {
        steps.tick();
        self.word(at)
    }

    /// Puts a word at an address, into both, and changes nothing else. It is one step.
    fn store_counted<L: Ledger>(&mut self, at: u64, value: u64, steps: &mut Steps<L>)
        requires { IsWordIn self.old at }
        ensures both { IsStoredInBoth self.old self.new at value }
        ensures counted { steps.new ≡ steps.old + 1 }
    {
        self.set_word(at, value);
        steps.tick()
    }

    /// Puts the same word at each of `count` places, into both, and changes nothing else. Each is one step.
    fn fill_counted<L: Ledger>(&mut self, at: u64, count: u64, value: u64, steps: &mut Steps<L>)
        requires { AreWordsIn self.old at count }
        ensures both { AreFilledInBoth self.old self.new at count value }
        ensures counted { steps.new ≡ steps.old + count }
    {
        self.fill_words(at, count, value);
        steps.tick_each(count)
    }

    /// Copies `count` words from one place to another, apart from it, in both, and changes nothing else. Each is two
    /// steps.
    fn copy_counted<L: Ledger>(&mut self, from: u64, to: u64, count: u64, steps: &mut Steps<L>)
        requires { AreCopyableIn self.old from to count }
        ensures both { AreCopiedInBoth self.old self.new from to count }
        ensures counted { steps.new ≡ steps.old + 2 * count }
    {
        self.copy_words(from, to, count);
        steps.tick_each(2 * count)
    }
}

impl Memory for TwinSystem {
    ghost use Rattle.paged_systems.specs.FlatWindow.{flat_word};
    ghost use Rattle.paged_systems.specs.TwinSystem.{paged_of, IsWordIn, IsStoredInBoth};
    ghost use Rattle.mapped_regions.specs.Mapped.{word_reached};

    /// The word at an address, which both have.
    fn load(&self, at: u64) -> u64
        requires { IsWordIn self.now at }
        ensures reached { result ≡ word_reached (paged_of self.now) at }
        ensures flat { result ≡ flat_word self.now.flat at }
    {
        self.word(at)
    }

    /// Puts a word at an address, into both, and changes nothing else.
    fn store(&mut self, at: u64, value: u64)
        requires { IsWordIn self.old at }
        ensures both { IsStoredInBoth self.old self.new at value }
    {
        self.set_word(at, value);
    }
}

impl Allocator for TwinSystem {
    ghost use Rattle.heap_memory.specs.Regions.{IsWordOf};
    ghost use Rattle.paged_systems.specs.Grants.{IsGrantSeen, IsDenialSeen};
    ghost use Rattle.paged_systems.specs.Words.{grants_of};
    ghost use Rattle.mapped_regions.specs.Mapped.{word_reached};
    ghost use Rattle.paged_systems.specs.Layout.{MayDeny};
    ghost use Rattle.paged_systems.specs.Ordered.{regions_ordered};
    ghost use Rattle.paged_systems.specs.TwinSystem.{paged_of, IsFlatCleared};

    ghost denies = { λ system size fault. MayDeny (paged_of system) size fault };

    ghost zeros = { λ system. true };

    ghost frees = { λ system. true };

    ghost unit = { λ system. 4096 };

    ghost parts = { λ system. true };

    ghost refuses = { λ old new. paged_of new ≡ paged_of old };

    ghost refuses_none = { λ system. refl };

    ghost ordered = { λ system. regions_ordered (paged_of system) system.mapped.kept };

    ghost fixed = { λ x y events follows. record { zeros_same = refl; frees_same = refl; parts_same = refl; unit_same = refl } };

    /// Grants what the paged system does, cleared in both. An `Err` changes no region and no word of one.
    fn alloc(&mut self, size: u64) -> Result<Grant, GrantFault>
        requires some { 0 < size }
        requires whole { size % 16 ≡ 0 }
        ensures granted { IfOk result (λ grant. IsGrantSeen (paged_of self.old) (paged_of self.new) size grant) }
        ensures flat { IfOk result (λ grant. IsFlatCleared self.new grant) }
        ensures words { (at : ℕ) → IsWordOf (grants_of (paged_of self.old)) at → word_reached (paged_of self.new) at ≡ word_reached (paged_of self.old) at }
        ensures err { OnErr result (paged_of self.new ≡ paged_of self.old) }
        ensures refused { IfErr result (λ fault. IsDenialSeen (paged_of self.old) (paged_of self.new) size fault) }
    {
        self.grant_bytes(size)
    }

    fn free_part(&mut self, at: u64, old_size: u64, new_size: u64) -> bool {
        if new_size % Size4KiB::SIZE != 0 {
            return false;
        }
        self.mapped.free_part(at, old_size, new_size)
    }

    fn free(&mut self, at: u64, size: u64) -> bool {
        self.mapped.free(at, size)
    }

    fn can_release_part(&self, flags: u32) -> bool {
        self.mapped.can_release_part(flags)
    }

    fn allocates_zeros(&self) -> bool {
        self.mapped.allocates_zeros()
    }

    fn page_size(&self) -> u64
        ensures page { result ≡ 4096 }
        ensures power { IsTrue (is_power_of_two result) }
    {
        self.mapped.page_size()
    }
}
