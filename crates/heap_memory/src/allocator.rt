ghost use Rattle.std.specs.Prelude.{◌≡◌, ℕ, ◌+◌, ◌%◌, ◌<◌, ◌≤◌, Bool, true, false, List, [], ◌∷◌, IsTrue, IfOk, IfErr, OnErr};
ghost use Rattle.std.specs.List.{AllByRecursion};
ghost use Rattle.std.specs.Int.{is_power_of_two};
ghost use Rattle.heap_memory.specs.Events.{Granted, Refused, Released};
ghost use Rattle.heap_memory.specs.Regions.{IsWordOf, IsApart, IsGoodGrant, with_grant};
ghost use Rattle.heap_memory.specs.Runs.{IsRun, without_run, is_in_units};
ghost use Rattle.heap_memory.specs.Allocator.{IsFixed};

use crate::{Grant, GrantFault, Links};

/// A system that grants regions (dlmalloc: `Allocator`).
pub trait Allocator: Links {
    ghost use Rattle.heap_memory.specs.declared.grant.GrantFault.{GrantFault};
    ghost use Rattle.heap_memory.specs.Events.{Event};
    ghost use Rattle.heap_memory.specs.Regions.{are_ordered};

    /// Whether the system, as it stands, may deny a request for this many bytes with a fault. It need not: one that
    /// needs memory of its host may deny with `OutOfMemory` whenever it is asked, and may as well grant.
    ghost denies: { Self → ℕ → GrantFault → Type 0 };

    /// Whether the words of a new grant are zero.
    ghost zeros: { Self → Bool };

    /// Whether the system takes runs of whole regions back.
    ghost frees: { Self → Bool };

    /// The bytes of a unit in which it takes the end of a run back; 0 if it takes none back.
    ghost unit: { Self → ℕ };

    /// Whether a part of a grant may be given back, whatever its flags.
    ghost parts: { Self → Bool };

    /// What the system says of two moments between which it did nothing but refuse a request.
    ghost refuses: { Self → Self → Type 0 };

    /// Grants a region of at least `size` bytes, apart from all others, with any flags. An `Err` changes no granted
    /// region and no word in one; what the system denies next may change.
    fn alloc(&mut self, size: u64) -> Result<Grant, GrantFault>
        requires some { 0 < size }
        requires whole { size % 16 ≡ 0 }
        ensures good { IfOk result (λ grant. IsGoodGrant size grant) }
        ensures apart { IfOk result (λ grant. AllByRecursion (IsApart grant.base (grant.base + grant.size)) (Self.regions self.old)) }
        ensures regions { IfOk result (λ grant. Self.regions self.new ≡ with_grant grant (Self.regions self.old)) }
        ensures zeros { IfOk result (λ grant. zeros self.old ≡ true →
            (at : ℕ) → grant.base ≤ at → at < grant.base + grant.size → at % 8 ≡ 0 → Self.word self.new at ≡ 0) }
        ensures follows { IfOk result (λ grant. Self.follows self.old (Granted size grant ∷ []) self.new) }
        ensures words { (at : ℕ) → IsWordOf (Self.regions self.old) at → Self.word self.new at ≡ Self.word self.old at }
        ensures err { OnErr result (Self.regions self.new ≡ Self.regions self.old) }
        ensures err_follows { IfErr result (λ fault. Self.follows self.old (Refused size fault ∷ []) self.new) }
        ensures err_refuses { OnErr result (refuses self.old self.new) }
        ensures denied { IfErr result (λ fault. denies self.old size fault) };

    /// Would give a run of whole regions another size, at another place if it may move. No system does, so the answer
    /// is None and nothing changes (dlmalloc: `remap`).
    fn remap(&mut self, at: u64, old_size: u64, new_size: u64, can_move: bool) -> Option<u64>
        ensures none { result ≡ None }
        ensures same { self.new ≡ self.old }
    {
        None
    }

    /// Gives back what is after the first `new_size` bytes of a run of whole regions, if the system takes parts of that
    /// size. What is kept is not empty, and a multiple of 16 bytes as each region is, so what stays are whole regions.
    /// False changes nothing.
    fn free_part(&mut self, at: u64, old_size: u64, new_size: u64) -> bool
        requires run { IsRun (Self.regions self.old) at (at + old_size) }
        requires some { 0 < new_size }
        requires within { new_size ≤ old_size }
        requires whole { new_size % 16 ≡ 0 }
        ensures answer { result ≡ is_in_units (unit self.old) new_size }
        ensures regions { result ≡ true → Self.regions self.new ≡ without_run (at + new_size) (at + old_size) (Self.regions self.old) }
        ensures words { (k : ℕ) → IsWordOf (Self.regions self.new) k → Self.word self.new k ≡ Self.word self.old k }
        ensures follows { result ≡ true → Self.follows self.old (Released at old_size new_size ∷ []) self.new }
        ensures same { result ≡ false → self.new ≡ self.old };

    /// Gives a run of whole regions back, if the system takes them. False changes nothing.
    fn free(&mut self, at: u64, size: u64) -> bool
        requires { IsRun (Self.regions self.old) at (at + size) }
        ensures answer { result ≡ frees self.old }
        ensures regions { result ≡ true → Self.regions self.new ≡ without_run at (at + size) (Self.regions self.old) }
        ensures words { (k : ℕ) → IsWordOf (Self.regions self.new) k → Self.word self.new k ≡ Self.word self.old k }
        ensures follows { result ≡ true → Self.follows self.old (Released at size 0 ∷ []) self.new }
        ensures same { result ≡ false → self.new ≡ self.old };

    /// Whether a part of a grant with these flags, shifted right by one, may be given back.
    fn can_release_part(&self, flags: u32) -> bool
        ensures { result ≡ parts self.now };

    /// Whether the words of each new grant are zero.
    fn allocates_zeros(&self) -> bool
        ensures { result ≡ zeros self.now };

    /// The size of the system's pages in bytes, a power of two.
    fn page_size(&self) -> u64
        ensures { IsTrue (is_power_of_two result) };

    /// A system that did nothing is as one that refused.
    ghost refuses_none: { (x : Self) → refuses x x };

    /// Each region ends before every later one begins.
    ghost ordered: { (x : Self) → IsTrue (are_ordered (Self.regions x)) };

    /// No call changes whether new grants are zero, nor what the system takes back.
    ghost fixed: { (x y : Self) (events : List Event) → Self.follows x events y → IsFixed zeros frees parts unit x y };
}
