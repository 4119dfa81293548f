// The paged system as a system that grants regions.
ghost use Rattle.std.specs.Prelude.{◌≡◌, ℕ, ◌+◌, ◌%◌, ◌<◌, ◌≤◌, [], ◌∷◌, true, false, refl, IsTrue, IfOk, IfErr, OnErr};
ghost use Rattle.std.specs.List.{AllByRecursion};
ghost use Rattle.std.specs.Int.{is_power_of_two};
ghost use Rattle.paged_systems.specs.System.{paged};

use crate::paged_system::PagedSystem;
use heap_memory::{Allocator, Grant, GrantFault};
use paging_core::{PageSize, Size4KiB};

impl Allocator for PagedSystem {
    ghost use Rattle.heap_memory.specs.Events.{Granted, Refused};
    ghost use Rattle.heap_memory.specs.Regions.{IsWordOf, IsApart, IsGoodGrant, with_grant};
    ghost use Rattle.mapped_regions.specs.Mapped.{word_reached};
    ghost use Rattle.paged_systems.specs.Follows.{Follows};
    ghost use Rattle.paged_systems.specs.Layout.{MayDeny};
    ghost use Rattle.paged_systems.specs.Ordered.{regions_ordered};
    ghost use Rattle.paged_systems.specs.Words.{grants_of};

    ghost denies = { λ system size fault. MayDeny (paged system) size fault };

    ghost zeros = { λ system. true };

    ghost frees = { λ system. true };

    ghost unit = { λ system. 4096 };

    ghost parts = { λ system. true };

    ghost refuses = { λ old new. paged new ≡ paged old };

    ghost refuses_none = { λ system. refl };

    ghost ordered = { λ system. regions_ordered (paged system) system.kept };

    ghost fixed = { λ x y events follows. record { zeros_same = refl; frees_same = refl; parts_same = refl; unit_same = refl } };

    /// Grants the pages that hold this number of bytes, at the lowest place in the window, each with a cleared frame.
    /// No flag of a grant is set.
    fn alloc(&mut self, size: u64) -> Result<Grant, GrantFault>
        requires some { 0 < size }
        requires whole { size % 16 ≡ 0 }
        ensures good { IfOk result (λ grant. IsGoodGrant size grant) }
        ensures apart { IfOk result (λ grant. AllByRecursion (IsApart grant.base (grant.base + grant.size)) (grants_of (paged self.old))) }
        ensures flags { IfOk result (λ grant. grant.flags ≡ 0) }
        ensures regions { IfOk result (λ grant. grants_of (paged self.new) ≡ with_grant grant (grants_of (paged self.old))) }
        ensures zeros { IfOk result (λ grant.
            (at : ℕ) → grant.base ≤ at → at < grant.base + grant.size → at % 8 ≡ 0 → word_reached (paged self.new) at ≡ 0) }
        ensures follows { IfOk result (λ grant. Follows (paged self.old) (Granted size grant ∷ []) (paged self.new)) }
        ensures err_follows { IfErr result (λ fault. Follows (paged self.old) (Refused size fault ∷ []) (paged self.new)) }
        ensures words { (at : ℕ) → IsWordOf (grants_of (paged self.old)) at → word_reached (paged self.new) at ≡ word_reached (paged self.old) at }
        ensures err { OnErr result (paged self.new ≡ paged self.old) }
        ensures denied { IfErr result (λ fault. MayDeny (paged self.old) size fault) }
    {
        self.grant_bytes(size)
    }

    /// Gives the pages after the first `new_size` bytes of a run back, if these are whole pages. It takes no memory.
    fn free_part(&mut self, at: u64, old_size: u64, new_size: u64) -> bool {
        if new_size % Size4KiB::SIZE != 0 {
            return false;
        }
        self.release(at, old_size, new_size);
        true
    }

    /// Gives the pages of a run back, and takes no memory for it.
    fn free(&mut self, at: u64, size: u64) -> bool {
        self.release(at, size, 0);
        true
    }

    fn can_release_part(&self, flags: u32) -> bool {
        true
    }

    fn allocates_zeros(&self) -> bool {
        true
    }

    fn page_size(&self) -> u64
        ensures page { result ≡ 4096 }
        ensures power { IsTrue (is_power_of_two result) }
    {
        Size4KiB::SIZE
    }
}
