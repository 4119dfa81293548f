// What an arena grants and takes back.
ghost use Rattle.std.specs.Prelude.{◌≡◌, ◌+◌, ◌%◌, ◌<◌, ◌≤◌, ◌==◌, true, false, if◌then◌else◌, [], ◌∷◌, IfOk, IfErr, OnErr, IsTrue, refl};
ghost use Rattle.std.specs.Int.{is_power_of_two};
ghost use Rattle.heap_memory.specs.Events.{Granted, Refused, Released};
ghost use Rattle.heap_memory.specs.Runs.{IsRun};

use crate::arena::Arena;
use heap_memory::{Allocator, Grant, GrantFault};

impl<'a> Allocator for Arena<'a> {
    ghost use Rattle.heap_arena.specs.Arena.{regions_of, IsArenaAfter, IsDenied, IsGrantedAtTop, IsTakenBack, IsUnwritten, same_fixed};

    ghost denies = { λ arena size fault. IsDenied arena size fault };

    ghost zeros = { λ arena. false };

    ghost frees = { λ arena. true };

    ghost unit = { λ arena. 1 };

    ghost parts = { λ arena. true };

    ghost refuses = { λ old new. new ≡ old };

    ghost refuses_none = { λ arena. refl };

    ghost ordered = { λ arena. arena.ordered };

    ghost fixed = { λ x y events follows. same_fixed x y };

    /// The bytes after all grants, as many as are asked for. A denial changes nothing.
    #[tactic(auto, using(crate::proofs::GrantLemmas::with_last, crate::proofs::GrantLemmas::apart_between))]
    fn alloc(&mut self, size: u64) -> Result<Grant, GrantFault>
        requires some { 0 < size }
        requires whole { size % 16 ≡ 0 }
        ensures ok { IfOk result (λ grant. IsGrantedAtTop size self.old grant self.new) }
        ensures follows { IfOk result (λ grant. IsArenaAfter self.old (Granted size grant ∷ []) self.new) }
        ensures unwritten { IsUnwritten self.old self.new }
        ensures same { OnErr result (self.new ≡ self.old) }
        ensures err_follows { IfErr result (λ fault. IsArenaAfter self.old (Refused size fault ∷ []) self.new) }
        ensures denied { IfErr result (λ fault. IsDenied self.old size fault) }
    {
        if !self.has_room(size) {
            return Err(GrantFault::NoSpace);
        }
        let grant = Grant {
            base: self.top,
            size,
            flags: 0,
        };
        self.table.push(grant);
        self.top += size;
        self.peak = self.peak.max(self.top);
        Ok(grant)
    }

    /// Takes the end of a run back, whatever its size. If the run ends at the top, the top is then the end of what
    /// stays.
    fn free_part(&mut self, at: u64, old_size: u64, new_size: u64) -> bool
        requires run { IsRun (regions_of self.old) at (at + old_size) }
        requires some { 0 < new_size }
        requires within { new_size ≤ old_size }
        requires whole { new_size % 16 ≡ 0 }
        ensures answer { result ≡ true }
        ensures taken { IsTakenBack (at + new_size) (at + old_size) self.old self.new }
        ensures follows { IsArenaAfter self.old (Released at old_size new_size ∷ []) self.new }
        ensures top { self.new.top ≡ (if at + old_size == self.old.top then at + new_size else self.old.top) }
    {
        self.take_back(at + new_size, at + old_size);
        true
    }

    /// Takes a run back. If it ends at the top, the top is then where it began.
    fn free(&mut self, at: u64, size: u64) -> bool
        requires { IsRun (regions_of self.old) at (at + size) }
        ensures answer { result ≡ true }
        ensures taken { IsTakenBack at (at + size) self.old self.new }
        ensures follows { IsArenaAfter self.old (Released at size 0 ∷ []) self.new }
        ensures top { self.new.top ≡ (if at + size == self.old.top then at else self.old.top) }
    {
        self.take_back(at, at + size);
        true
    }

    fn can_release_part(&self, flags: u32) -> bool {
        true
    }

    fn allocates_zeros(&self) -> bool {
        false
    }

    /// No page has a size of its own: what is asked for determines what is granted.
    fn page_size(&self) -> u64
        ensures page { result ≡ 4096 }
        ensures power { IsTrue (is_power_of_two result) }
    {
        4096
    }
}
