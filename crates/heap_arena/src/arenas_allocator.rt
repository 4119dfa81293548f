// What several arenas grant and take back.
ghost use Rattle.std.specs.Prelude.{◌≡◌, ℕ, ◌+◌, ◌%◌, ◌<◌, ◌≤◌, true, false, [], ◌∷◌, IfOk, IfErr, OnErr, IsTrue, refl};
ghost use Rattle.std.specs.Int.{is_power_of_two};
ghost use Rattle.heap_memory.specs.Events.{Refused, Released};
ghost use Rattle.heap_memory.specs.Regions.{IsWordOf};
ghost use Rattle.heap_memory.specs.Runs.{IsRun};

use crate::among::{alloc_among, take_back_among};
use crate::arenas::Arenas;
use heap_memory::{Allocator, Grant, GrantFault};

impl<'a, const N: usize> Allocator for Arenas<'a, N> {
    ghost use Rattle.heap_arena.specs.Arenas.{regions_of_all, word_among, AreAfter, AreTakenBack, AreUnwritten, IsGrantedAmong, IsDeniedByAll};
    ghost use Rattle.heap_arena.specs.ArenasLaws.{all_ordered};

    ghost denies = { λ a size fault. IsDeniedByAll a.arenas.items size fault };

    ghost zeros = { λ a. false };

    ghost frees = { λ a. true };

    ghost unit = { λ a. 1 };

    ghost parts = { λ a. true };

    ghost refuses = { λ old new. new.arenas.items ≡ old.arenas.items };

    ghost refuses_none = { λ a. refl };

    ghost ordered = { λ a. all_ordered a.arenas.items a.in_order };

    ghost fixed = { λ x y events follows. record { zeros_same = refl; frees_same = refl; parts_same = refl; unit_same = refl } };

    /// As many bytes as are asked for, after the grants of the first arena that has room for them. A denial changes
    /// nothing.
    fn alloc(&mut self, size: u64) -> Result<Grant, GrantFault>
        requires some { 0 < size }
        requires whole { size % 16 ≡ 0 }
        ensures ok { IfOk result (λ grant. IsGrantedAmong size self.old.arenas.items grant self.new.arenas.items) }
        ensures unwritten { AreUnwritten self.old.arenas.items self.new.arenas.items }
        ensures words { (at : ℕ) → IsWordOf (regions_of_all self.old.arenas.items) at → word_among self.new.arenas.items at ≡ word_among self.old.arenas.items at }
        ensures same { OnErr result (self.new.arenas.items ≡ self.old.arenas.items) }
        ensures err_follows { IfErr result (λ fault. AreAfter self.old.arenas.items (Refused size fault ∷ []) self.new.arenas.items) }
        ensures denied { IfErr result (λ fault. IsDeniedByAll self.old.arenas.items size fault) }
    {
        alloc_among(self.arenas.as_mut_slice(), size)
    }

    /// Takes the end of a run back, whatever its size: each arena the bytes that are its own.
    fn free_part(&mut self, at: u64, old_size: u64, new_size: u64) -> bool
        requires run { IsRun (regions_of_all self.old.arenas.items) at (at + old_size) }
        requires some { 0 < new_size }
        requires within { new_size ≤ old_size }
        requires whole { new_size % 16 ≡ 0 }
        ensures answer { result ≡ true }
        ensures words { (k : ℕ) → IsWordOf (regions_of_all self.new.arenas.items) k → word_among self.new.arenas.items k ≡ word_among self.old.arenas.items k }
        ensures taken { AreTakenBack (at + new_size) (at + old_size) self.old.arenas.items self.new.arenas.items }
        ensures follows { AreAfter self.old.arenas.items (Released at old_size new_size ∷ []) self.new.arenas.items }
    {
        take_back_among(self.arenas.as_mut_slice(), at + new_size, at + old_size);
        true
    }

    /// Takes a run back: each arena the bytes that are its own.
    fn free(&mut self, at: u64, size: u64) -> bool
        requires { IsRun (regions_of_all self.old.arenas.items) at (at + size) }
        ensures answer { result ≡ true }
        ensures words { (k : ℕ) → IsWordOf (regions_of_all self.new.arenas.items) k → word_among self.new.arenas.items k ≡ word_among self.old.arenas.items k }
        ensures taken { AreTakenBack at (at + size) self.old.arenas.items self.new.arenas.items }
        ensures follows { AreAfter self.old.arenas.items (Released at size 0 ∷ []) self.new.arenas.items }
    {
        take_back_among(self.arenas.as_mut_slice(), at, at + size);
        true
    }

    fn can_release_part(&self, flags: u32) -> bool {
        true
    }

    fn allocates_zeros(&self) -> bool {
        false
    }

    /// No page has a size of its own: what is asked for determines what is granted.
    fn page_size(&self) -> u64
        ensures page { result ≡ 4096 }
        ensures power { IsTrue (is_power_of_two result) }
    {
        4096
    }
}
