// The slots of a region that are large pages.
ghost use Rattle.std.specs.Prelude.{◌≡◌, ◌≤◌, ◌%◌, ◌<◌, ◌^◌, ◌↔◌, IsSome, IfSome, IsTrue, is_some};
ghost use Rattle.paging_core.specs.Address.{is_canonical};
ghost use Rattle.paging_core.specs.Walk.{large_of};
ghost use Rattle.machine_model.specs.State.{State};
ghost use Rattle.machine_model.specs.Slots.{slot_number, has_slot};
ghost use Rattle.paged_systems.specs.System.{paged};
ghost use Rattle.heap_program.specs.Progress.{IsAt};
ghost use Rattle.heap_picture.specs.Large.{larges_from, larges_in};

use kernel_heap::{Machine, PagedSystem, Region};
use paging_core::{Page, Size2MiB, VirtAddr, large_page};

/// The last number that is an address.
const LAST_ADDRESS: u128 = 0xffff_ffff_ffff_ffff;

/// The bytes of a slot, which one entry maps as a large page.
const SLOT_BYTES: u128 = 2_097_152;

// Whether the slot of an address is a large page.
fn is_mapped_large(system: &PagedSystem, address: VirtAddr) -> bool
    ensures { result ≡ is_some (large_of (paged system.now).words (paged system.now).root (slot_number address)) }
{
    let page = Page::<Size2MiB>::containing_address(address);
    large_page(system.frames(), system.root(), page).is_some()
}

// The address with this number, if it is canonical.
fn canonical(number: u128) -> Option<VirtAddr>
    ensures canonical { IsSome result ↔ IsTrue (is_canonical number) }
    ensures few { IsSome result → number < 2 ^ 64 }
    ensures value { IfSome result (λ address. address ≡ number) }
{
    if number > LAST_ADDRESS {
        return None;
    }
    match VirtAddr::try_new(number as u64) {
        Ok(address) => Some(address),
        Err(_) => None,
    }
}

// Whether the slot that begins at an address is a large page.
fn is_large(machine: &Machine, slot: u128) -> bool
    requires { slot % 2097152 ≡ 0 }
    ensures { (s : State) → IsAt machine.now s → result ≡ has_slot s.large slot }
{
    match canonical(slot) {
        Some(address) => is_mapped_large(machine.system(), address),
        None => false,
    }
}

// How many of the slots from an address on are large pages.
fn larges_from(machine: &Machine, start: u128, slots: u128) -> u128
    requires start { start < 2 ^ 100 }
    requires slots { slots < 2 ^ 100 }
    requires aligned { start % 2097152 ≡ 0 }
    ensures value { (s : State) → IsAt machine.now s → result ≡ larges_from s.large start slots }
    ensures few { result ≤ slots }
{
    let mut number = 0;
    for place in 0..slots {
        if is_large(machine, start + SLOT_BYTES * place) {
            number += 1;
        }
    }
    number
}

/// How many slots of a region are large pages.
#[tactic(auto, unfolding(crate::specs::Large::larges_in))]
pub fn larges_in(machine: &Machine, region: Region) -> u128
    ensures value { (s : State) → IsAt machine.now s → result ≡ larges_in s.large region }
    ensures few { result < 2 ^ 100 }
{
    let start = u128::from(region.start);
    let end = start + 4096 * u128::from(region.pages);
    let first = (start + (SLOT_BYTES - 1)) / SLOT_BYTES * SLOT_BYTES;
    larges_from(machine, first, end.saturating_sub(first) / SLOT_BYTES)
}
