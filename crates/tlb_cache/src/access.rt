//! An access to one byte, by what is kept of its page, or else by the walk.
ghost use Rattle.std.specs.Prelude.{◌≡◌, ◌*◌, ◌/◌, ◌%◌, ◌<◌, Some, IsTrue, IfSome, option_map};
ghost use Rattle.paging_core.specs.Address.{is_canonical};
ghost use Rattle.paging_core.specs.Memory.{frame_count, word_at, byte_of};
ghost use Rattle.paging_core.specs.Walk.{walk_of, mapped_place};
ghost use Rattle.machine_model.specs.Machine.{rights_of};
ghost use Rattle.paged_systems.specs.System.{paged};
ghost use Rattle.tlb_cache.specs.Cache.{AgreesWithTables, IsLookedUp};
ghost use Rattle.tlb_cache.specs.Cached.{IsProbed};

use crate::probed::Probed;
use crate::tlb::Tlb;
use kernel_heap::{Access, PagedSystem, Rights, fault_code, is_granted};
use paging_core::{Frames, Mapped, Page, PageSize, PhysFrame, Size4KiB, VirtAddr};

/// What an access to the byte at an address gives. Each entry of the cache is what the walk finds.
pub(crate) fn probe(
    system: &PagedSystem,
    tlb: &mut Tlb,
    address: VirtAddr,
    access: Access,
    user: bool,
) -> Probed
    requires { AgreesWithTables (paged system.now).words (paged system.now).root tlb.old.entries }
    ensures probed { IsProbed (paged system.now) address access user result }
    ensures looked_up { IsLookedUp (paged system.now).words (paged system.now).root (address / 4096) tlb.old tlb.new }
    ensures agrees { AgreesWithTables (paged system.now).words (paged system.now).root tlb.new.entries }
{
    let page = Page::containing_address(address);
    let translated = tlb.translate(system.frames(), system.root(), page);
    let found = translated.mapped;
    answer(system, &found, address.as_u64(), access, user)
}

/// What an access to the byte at an address gives, if this is what the walk finds of its page.
#[tactic(auto, using(crate::proofs::Reached::probed_byte, crate::proofs::Reached::probed_fault))]
pub(crate) fn answer(
    system: &PagedSystem,
    found: &Option<Mapped>,
    at: u64,
    access: Access,
    user: bool,
) -> Probed
    requires canonical { IsTrue (is_canonical at) }
    requires walked { option_map mapped_place found.now ≡ walk_of (paged system.now).words (paged system.now).root (at / 4096) }
    requires below { IfSome found.now (λ mapped. mapped.frame < frame_count (paged system.now).words) }
    ensures { IsProbed (paged system.now) at access user result }
{
    match found {
        Some(mapped) => {
            if is_granted(Some(rights(mapped)), access, user) {
                Probed::Byte(byte_at(system.frames(), mapped.frame, at))
            } else {
                Probed::Fault(fault_code(true, access, user))
            }
        }
        None => Probed::Fault(fault_code(false, access, user)),
    }
}

/// The rights of a page.
fn rights(mapped: &Mapped) -> Rights
    ensures { result ≡ rights_of (mapped_place mapped.now) }
{
    Rights {
        write: mapped.write,
        user: mapped.user,
        fetch: mapped.fetch,
    }
}

/// The byte at an address whose page is in a frame.
fn byte_at(frames: &Frames, frame: PhysFrame, address: u64) -> u8
    requires { frame < frame_count frames.now }
    ensures { result ≡ byte_of (word_at frames.now frame (address % 4096 / 8)) (address % 8) }
{
    let word = frames.word(frame, (address % Size4KiB::SIZE / 8) as u16);
    (word >> 8 * (address % 8) & 0xff) as u8
}
