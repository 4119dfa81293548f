// An access to a byte, as a processor checks it after its walk.
ghost use Rattle.std.specs.Prelude.{◌≡◌, IfOk, IfErr, Ok, Err};
ghost use Rattle.paging_core.specs.Walk.{mapped_place};
ghost use Rattle.paging_core.specs.ProcessorAccess.{permits, kind_bit, fault_code, access_of};
ghost use Rattle.x86_flags.specs.PageFaultErrorCode.{page_fault_bits};

use crate::addr::{PhysAddr, VirtAddr};
use crate::memory::Frames;
use crate::page_walk::Mapped;
use crate::pages::Page;
use crate::phys_frames::PhysFrame;
use crate::processor_walk::{Translated, translate};
use bitflags::Flags;
use x86_flags::PageFaultErrorCode;

/// What an access does with a byte.
#[derive(Clone, Copy, PartialEq, Eq, Debug)]
pub enum AccessKind {
    /// It reads the byte, which every page grants.
    Read,
    /// It writes to the byte.
    Write,
    /// It fetches an instruction there.
    Fetch,
}

/// Whether the rights of the page grant the access.
fn permits(mapped: Mapped, kind: AccessKind, user: bool) -> bool
    ensures { result ≡ permits (mapped_place mapped) kind user }
{
    let granted = match kind {
        AccessKind::Read => true,
        AccessKind::Write => mapped.write,
        AccessKind::Fetch => mapped.fetch,
    };
    granted && (!user || mapped.user)
}

/// What the code of a page fault says of the kind of access.
fn kind_bit(kind: AccessKind) -> u64
    ensures { result ≡ kind_bit kind }
{
    match kind {
        AccessKind::Read => 0,
        AccessKind::Write => 2,
        AccessKind::Fetch => 16,
    }
}

/// The code of the access's page fault.
fn fault_code(present: bool, reserved: bool, kind: AccessKind, user: bool) -> PageFaultErrorCode
    ensures { page_fault_bits result ≡ fault_code present reserved kind user }
{
    let there = if present { 1 } else { 0 };
    let from_user = if user { 4 } else { 0 };
    let malformed = if reserved { 8 } else { 0 };
    PageFaultErrorCode::from_bits_retain(there + kind_bit(kind) + from_user + malformed)
}

/// The physical address of the byte at the address, as a processor finds it for an access of the kind, by the user or by
/// the supervisor.
///
/// `width` is how many bits a physical address has, as in `translate`; the byte need not be in the memory. CR0.WP and
/// EFER.NXE are on: a read-only page denies the supervisor's writes too, and no-execute denies fetches. SMEP and SMAP are
/// off, and there are no protection keys.
///
/// An error has the code of the page fault: bit 0 is clear if an entry is not present, and set if a right or a reserved
/// bit denies the access; bit 1 means a write, bit 2 the user, bit 3 a reserved bit, bit 4 a fetch.
///
/// Source: AMD64 manual, volume 2, sections 5.6 and 8.4.2.
pub fn access_byte(
    frames: &Frames,
    root: PhysFrame,
    address: VirtAddr,
    width: u8,
    kind: AccessKind,
    user: bool,
) -> Result<PhysAddr, PageFaultErrorCode>
    ensures granted { IfOk result (λ byte. access_of width frames.now root address kind user ≡ Ok byte) }
    ensures denied { IfErr result (λ code. access_of width frames.now root address kind user ≡ Err (page_fault_bits code)) }
{
    match translate(frames, root, Page::containing_address(address), width) {
        Translated::NotPresent(_) => Err(fault_code(false, false, kind, user)),
        Translated::Reserved(_) => Err(fault_code(true, true, kind, user)),
        Translated::Page(mapped) if permits(mapped, kind, user) => {
            let base = mapped.frame.start_address().as_u64();
            Ok(PhysAddr::new(base + address.as_u64() % 4096))
        }
        Translated::Page(_) => Err(fault_code(true, false, kind, user)),
    }
}
