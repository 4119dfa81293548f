// The accesses to a byte.
ghost use Rattle.std.specs.Prelude.{◌≡◌, ◌++◌, OnOk, string_bytes};
ghost use Rattle.paging_core.specs.ProcessorAccess.{access_of};
ghost use Rattle.paging_core.specs.declared.processor_access.AccessKind.{AccessKind};
ghost use Rattle.walk_image.specs.Walked.{answer_text, accesses_text, walk_line};

use bitflags::Flags;
use paging_core::{AccessKind, Frames, PhysFrame, VirtAddr, access_byte};
use std::alloc::AllocError;

// The outcome of an access.
fn push_access(
    out: &mut String,
    frames: &Frames,
    root: PhysFrame,
    width: u8,
    address: VirtAddr,
    kind: AccessKind,
    user: bool,
) -> Result<(), AllocError>
    ensures { OnOk result (string_bytes out.new ≡ string_bytes out.old ++ answer_text (access_of width frames.now root address kind user)) }
{
    match access_byte(frames, root, address, width, kind, user) {
        Ok(place) => {
            let place = place.as_u64();
            write!(out, " 0x{place:x}")
        }
        Err(code) => {
            let bits = code.bits();
            write!(out, " fault:0x{bits:x}")
        }
    }
}

// The outcome of a read, a write and a fetch.
fn push_accesses(
    out: &mut String,
    frames: &Frames,
    root: PhysFrame,
    width: u8,
    address: VirtAddr,
    user: bool,
) -> Result<(), AllocError>
    ensures { OnOk result (string_bytes out.new ≡ string_bytes out.old ++ accesses_text frames.now root width address user) }
{
    push_access(out, frames, root, width, address, AccessKind::Read, user)?;
    push_access(out, frames, root, width, address, AccessKind::Write, user)?;
    push_access(out, frames, root, width, address, AccessKind::Fetch, user)
}

/// Puts the line of an address at the end.
pub fn push_walk(
    out: &mut String,
    frames: &Frames,
    root: PhysFrame,
    width: u8,
    address: u64,
) -> Result<(), AllocError>
    ensures { OnOk result (string_bytes out.new ≡ string_bytes out.old ++ walk_line frames.now root width address) }
{
    match VirtAddr::try_new(address) {
        Ok(address) => {
            let number = address.as_u64();
            write!(out, "0x{number:x}")?;
            push_accesses(out, frames, root, width, address, false)?;
            push_accesses(out, frames, root, width, address, true)?;
            out.push_str("\n")
        }
        Err(_) => out.push_str("none\n"),
    }
}
