//! A processor's walks over odd entries, and the accesses by them. The rows are those of the AMD64 manual. QEMU's
//! processor was seen to answer like this if an entry has PAT, bit 7 in the first two steps, an address bit beyond its
//! width or below the size of its page, and if a frame is not in the memory. It leaves bit 0 out of the code of a
//! reserved bit, and ignores bit 8 of the root's entries.

ghost use Rattle.std.specs.Prelude.{◌≡◌, ◌^◌, ◌<◌};
ghost use Rattle.paging_core.specs.Memory.{frame_count};

use crate::checks::same;
use crate::large_pages::write;
use bitflags::Flags;
use paging_core::*;
use std::process::Abort;
use std::test::Fail;
use x86_flags::PageFaultErrorCode;

/// The width of a physical address, in bits.
const WIDTH: u8 = 40;

/// The byte 0x123 of page 0.
const BYTE: u64 = 0x123;

/// Writes the first entry of each of the tables in the frames 0 to 3.
fn write_entries(frames: &mut Frames, entries: [u64; 4])
    requires { 3 < frame_count frames.old }
    ensures { frame_count frames.new ≡ frame_count frames.old }
{
    let [first, second, third, fourth] = entries;
    write(frames, 0, 0, first);
    write(frames, 1, 0, second);
    write(frames, 2, 0, third);
    write(frames, 3, 0, fourth);
}

/// The frame with the number, with all rights, of type 0, and not global.
fn page(frame: u64) -> Mapped
    requires { frame < 2 ^ 40 }
{
    Mapped::full(PhysFrame::containing_address(PhysAddr::new(frame << 12)))
}

fn at(frame: u64) -> Translated
    requires { frame < 2 ^ 40 }
{
    Translated::Page(page(frame))
}

/// The entries of the four tables, and how the walk of page 0 ends.
fn walks(rt: &impl Abort, frames: &mut Frames)
    requires { 3 < frame_count frames.old }
{
    let root = PhysFrame::containing_address(PhysAddr::new(0));
    let rows = [
        ([0x1027, 0x2027, 0x3027, 0x4067], at(4)),
        // Bit 12 of a page of 2 MiB is PAT, and bit 7 of one of 4 KiB.
        (
            [0x1007, 0x2007, 0x60_13c7, 0],
            Translated::Page(Mapped {
                global: true,
                ..page(0x600)
            }),
        ),
        ([0x1007, 0x2007, 0x3007, 0x40e7], at(4)),
        // Bits 3 and 4 are of a page's type in its own entry, and in the others of how the next table is read.
        ([0x101f, 0x200f, 0x3017, 0x4067], at(4)),
        (
            [0x1007, 0x2007, 0x3007, 0x406f],
            Translated::Page(Mapped {
                through: true,
                ..page(4)
            }),
        ),
        (
            [0x1007, 0x2007, 0x60_0097, 0],
            Translated::Page(Mapped {
                uncached: true,
                ..page(0x600)
            }),
        ),
        // A page of 1 GiB, and one that begins at no multiple of its size.
        ([0x1007, 0x4000_0087, 0, 0], at(0x4_0000)),
        ([0x1007, 0x2087, 0x3007, 0x4067], Translated::Reserved(1)),
        ([0x1007, 0x2007, 0x60_2087, 0], Translated::Reserved(2)),
        // Bits 7 and 8 in the root; bit 8 is ignored in the next two steps, and means a global page in the last.
        ([0x1087, 0x2007, 0x3007, 0x4067], Translated::Reserved(0)),
        ([0x1107, 0x2007, 0x3007, 0x4067], Translated::Reserved(0)),
        ([0x1007, 0x2107, 0x3107, 0x4067], at(4)),
        (
            [0x1007, 0x2107, 0x3107, 0x4167],
            Translated::Page(Mapped {
                global: true,
                ..page(4)
            }),
        ),
        // The address bits 40 and 51, and the greatest frame of 40 bits, which is not in the memory.
        (
            [0x1007, 0x100_0000_2007, 0x3007, 0x4067],
            Translated::Reserved(1),
        ),
        (
            [0x1007, 0x2007, 0x3007, 0x8_0000_0000_4067],
            Translated::Reserved(3),
        ),
        ([0x1007, 0x2007, 0x3007, 0xff_ffff_f067], at(0xfff_ffff)),
        // A table that is not in the memory.
        (
            [0x1007, 0x9_0000_2007, 0x3007, 0x4067],
            Translated::NotPresent(2),
        ),
        // Entries that are not present, whatever their other bits.
        ([0x1086, 0x2007, 0x3007, 0x4067], Translated::NotPresent(0)),
        ([0x1007, 0x2007, 0x60_2086, 0], Translated::NotPresent(2)),
        ([0x1007, 0x2007, 0x3007, 0], Translated::NotPresent(3)),
    ];
    for (entries, wanted) in rows {
        write_entries(frames, entries);
        let page = Page::containing_address(VirtAddr::zero());
        same(rt, translate(frames, root, page, WIDTH), wanted);
    }
}

#[test]
fn walks_over_odd_entries(rt: HostRuntime) -> Result<(), Fail> {
    let mut frames = Frames::new(rt.alloc(), 4)?;
    walks(&rt, &mut frames);
    Ok(())
}

/// The physical address, or the bits of the code.
fn numbers(found: Result<PhysAddr, PageFaultErrorCode>) -> Result<u64, u64> {
    match found {
        Ok(byte) => Ok(byte.as_u64()),
        Err(code) => Err(code.bits()),
    }
}

const READ: AccessKind = AccessKind::Read;

const WRITE: AccessKind = AccessKind::Write;

const FETCH: AccessKind = AccessKind::Fetch;

/// The entries of the four tables, an access, whether it is by the user, and the answer.
fn accesses(rt: &impl Abort, frames: &mut Frames)
    requires { 3 < frame_count frames.old }
{
    let root = PhysFrame::containing_address(PhysAddr::new(0));
    let no_execute = 1 << 63;
    let rows = [
        ([0x1007, 0x2007, 0x3007, 0x4067], WRITE, true, Ok(0x4123)),
        ([0x1007, 0x2007, 0x3007, 0x4067], FETCH, true, Ok(0x4123)),
        // The right to write and that of the user are granted by each entry or by none: for the supervisor too.
        ([0x1007, 0x2005, 0x3007, 0x4067], WRITE, false, Err(0x3)),
        ([0x1007, 0x2005, 0x3007, 0x4067], READ, true, Ok(0x4123)),
        ([0x1003, 0x2007, 0x3007, 0x4067], READ, true, Err(0x5)),
        ([0x1003, 0x2007, 0x3007, 0x4067], WRITE, true, Err(0x7)),
        ([0x1003, 0x2007, 0x3007, 0x4067], FETCH, false, Ok(0x4123)),
        // No entry is there.
        ([0x1007, 0x2007, 0x3007, 0], READ, false, Err(0x0)),
        ([0x1007, 0x2007, 0x3007, 0], WRITE, true, Err(0x6)),
        ([0x1007, 0x2007, 0x3007, 0], FETCH, true, Err(0x14)),
        // Large pages, one of them with PAT, whose root denies fetches.
        ([0x1007, 0x2007, 0x60_13c7, 0], READ, true, Ok(0x60_0123)),
        (
            [no_execute + 0x1007, 0x2007, 0x60_13c7, 0],
            FETCH,
            true,
            Err(0x15),
        ),
        ([0x1007, 0x4000_0087, 0, 0], WRITE, true, Ok(0x4000_0123)),
        // Reserved bits.
        ([0x1007, 0x2087, 0, 0], FETCH, true, Err(0x1d)),
        ([0x1087, 0x2007, 0x3007, 0x4067], FETCH, true, Err(0x1d)),
        ([0x1007, 0x2007, 0x60_2087, 0], FETCH, false, Err(0x19)),
        (
            [0x1007, 0x2007, 0x3007, 0x8_0000_0000_4067],
            WRITE,
            false,
            Err(0xb),
        ),
        // A page whose frame is not in the memory.
        (
            [no_execute + 0x1007, 0x2007, 0x3007, 0xb0_c237],
            FETCH,
            false,
            Err(0x11),
        ),
        (
            [no_execute + 0x1007, 0x2007, 0x3007, 0xb0_c237],
            READ,
            false,
            Ok(0xb0_c123),
        ),
    ];
    for (entries, kind, user, wanted) in rows {
        write_entries(frames, entries);
        let address = VirtAddr::new(BYTE);
        let found = access_byte(frames, root, address, WIDTH, kind, user);
        same(rt, numbers(found), wanted);
    }
}

#[test]
fn accesses_over_odd_entries(rt: HostRuntime) -> Result<(), Fail> {
    let mut frames = Frames::new(rt.alloc(), 4)?;
    accesses(&rt, &mut frames);
    Ok(())
}
