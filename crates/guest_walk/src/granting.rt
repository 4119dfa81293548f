//! What an access gives at the end of a walk.

ghost use Rattle.std.specs.Prelude.{◌≡◌, ◌<◌, ◌≤◌, IfSome};
ghost use Rattle.std.specs.Option.{option_map};
ghost use Rattle.paging_core.specs.Walk.{mapped_place};
ghost use Rattle.paging_core.specs.ProcessorAccess.{kind_bit};
ghost use Rattle.guest_walk.specs.GuestWalk.{ending_of};
ghost use Rattle.guest_walk.specs.GuestAccess.{smap_denies, grants_supervisor, permits_in, kind_told, guest_fault_code, fault_in};
ghost use Rattle.x86_flags.specs.PageFaultErrorCode.{page_fault_bits};

use crate::mode::Mode;
use crate::walking::End;
use bitflags::Flags;
use paging_core::{AccessKind, Mapped};
use x86_flags::PageFaultErrorCode;

/// Whether SMAP denies the supervisor's reads and writes of the page.
fn smap_denies(mode: Mode, mapped: &Mapped) -> bool
    ensures { result ≡ smap_denies mode (mapped_place mapped.now) }
{
    mode.smap && (!mode.alignment_check && mapped.user)
}

/// Whether the supervisor's access is granted.
fn grants_supervisor(mode: Mode, mapped: &Mapped, kind: AccessKind) -> bool
    ensures { result ≡ grants_supervisor mode (mapped_place mapped.now) kind }
{
    match kind {
        AccessKind::Read => !smap_denies(mode, mapped),
        AccessKind::Write => { (!mode.write_protect || mapped.write) && !smap_denies(mode, mapped) }
        AccessKind::Fetch => mapped.fetch && !(mode.smep && mapped.user),
    }
}

/// Whether the rights of the page grant the access, by the user or by the supervisor.
///
/// Source: AMD64 manual, volume 2, section 5.6.
pub fn permits(mode: Mode, mapped: &Mapped, kind: AccessKind, user: bool) -> bool
    ensures { result ≡ permits_in mode (mapped_place mapped.now) kind user }
{
    if !user {
        return grants_supervisor(mode, mapped, kind);
    }
    let granted = match kind {
        AccessKind::Read => true,
        AccessKind::Write => mapped.write,
        AccessKind::Fetch => mapped.fetch,
    };
    mapped.user && granted
}

/// What the code of a page fault tells of the kind of access.
fn kind_bit(mode: Mode, kind: AccessKind) -> u64
    ensures value { result ≡ kind_bit (kind_told mode kind) }
    ensures few { result ≤ 16 }
{
    match kind {
        AccessKind::Read => 0,
        AccessKind::Write => 2,
        AccessKind::Fetch if mode.no_execute || mode.smep => 16,
        AccessKind::Fetch => 0,
    }
}

/// The code of the access's page fault.
fn fault_code(
    mode: Mode,
    present: bool,
    reserved: bool,
    kind: AccessKind,
    user: bool,
) -> PageFaultErrorCode
    ensures value { page_fault_bits result ≡ guest_fault_code mode present reserved kind user }
    ensures few { page_fault_bits result < 32 }
{
    let there = if present { 1 } else { 0 };
    let from_user = if user { 4 } else { 0 };
    let malformed = if reserved { 8 } else { 0 };
    PageFaultErrorCode::from_bits_retain(there + kind_bit(mode, kind) + from_user + malformed)
}

/// The code of the page fault that an access of the kind has, by the user or by the supervisor, if the walk ended like this. None if
/// the access is granted.
///
/// In the code bit 0 is clear if an entry is not present, and set if a right or a reserved bit denies the access; bit 1 means a
/// write, bit 2 the user, bit 3 a reserved bit, bit 4 a fetch. A fetch is told only if no-execute or SMEP is on.
///
/// Source: AMD64 manual, volume 2, sections 5.6 and 8.4.2.
pub fn page_fault(mode: Mode, end: &End, kind: AccessKind, user: bool) -> Option<PageFaultErrorCode>
    ensures fault { option_map page_fault_bits result ≡ fault_in mode (ending_of end.now) kind user }
    ensures few { IfSome result (λ code. page_fault_bits code < 32) }
{
    match end {
        End::NotPresent(_) => Some(fault_code(mode, false, false, kind, user)),
        End::Reserved(_) => Some(fault_code(mode, true, true, kind, user)),
        End::Page(_, found) => {
            if permits(mode, &found.mapped, kind, user) {
                None
            } else {
                Some(fault_code(mode, true, false, kind, user))
            }
        }
    }
}
