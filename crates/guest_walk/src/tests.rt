//! Walks and accesses in several modes. The rows are those of the AMD64 manual, volume 2, sections 5.3 to 5.6 and 8.4.2.
ghost use Rattle.std.specs.Prelude.{◌≡◌, ◌≤◌, length};

use super::*;
use bitflags::Flags;
use paging_core::{AccessKind, Page, PhysAddr, PhysFrame, VirtAddr};
use std::process::Abort;
use std::test::Fail;

/// The width of a physical address, in bits.
const WIDTH: u8 = 40;

const READ: AccessKind = AccessKind::Read;

const WRITE: AccessKind = AccessKind::Write;

const FETCH: AccessKind = AccessKind::Fetch;

/// CR0.WP and EFER.NXE.
const USUAL: Mode = Mode {
    write_protect: true,
    no_execute: true,
    smep: false,
    smap: false,
    alignment_check: false,
    ignores_bit_8: false,
};

const NO_WP: Mode = Mode {
    write_protect: false,
    ..USUAL
};

const NO_NXE: Mode = Mode {
    no_execute: false,
    ..USUAL
};

const SMEP: Mode = Mode {
    smep: true,
    ..USUAL
};

const SMEP_ALONE: Mode = Mode {
    no_execute: false,
    ..SMEP
};

const SMAP: Mode = Mode {
    smap: true,
    ..USUAL
};

const SMAP_AC: Mode = Mode {
    alignment_check: true,
    ..SMAP
};

const SMAP_NO_WP: Mode = Mode {
    write_protect: false,
    ..SMAP
};

const SMAP_AC_NO_WP: Mode = Mode {
    write_protect: false,
    ..SMAP_AC
};

const INTEL: Mode = Mode {
    ignores_bit_8: true,
    ..USUAL
};

/// Writes the first entry of each of the tables in the frames 0 to 3.
fn write_entries(words: &mut [u64], entries: [u64; 4])
    requires { 2048 ≤ length words.old }
    ensures { length words.new ≡ length words.old }
{
    let [first, second, third, fourth] = entries;
    words[0] = first;
    words[512] = second;
    words[1024] = third;
    words[1536] = fourth;
}

/// How the walk of page 0 ends.
fn end(words: &[u64], mode: Mode) -> End {
    let root = PhysFrame::containing_address(PhysAddr::new(0));
    walk(
        mode,
        words,
        root,
        Page::containing_address(VirtAddr::new(0)),
        WIDTH,
    )
}

/// The frame of the page, or the bits of the code.
fn found(words: &[u64], mode: Mode, kind: AccessKind, user: bool) -> Result<u64, u64> {
    let end = end(words, mode);
    match (page_fault(mode, &end, kind, user), end) {
        (None, End::Page(_, found)) => Ok(found.mapped.frame.number()),
        (None, _) => Err(0),
        (Some(code), _) => Err(code.bits()),
    }
}

/// A mode, the last entry of a walk whose other entries grant all, an access, whether it is by the user, and the answer.
fn rights(rt: &impl Abort, words: &mut [u64])
    requires { 2048 ≤ length words.old }
{
    let no_execute = 1 << 63;
    let rows = [
        // Read-only pages of the supervisor and of the user.
        (USUAL, 0x4061, READ, false, Ok(4)),
        (USUAL, 0x4061, WRITE, false, Err(0x3)),
        (USUAL, 0x4061, READ, true, Err(0x5)),
        (USUAL, 0x4065, WRITE, false, Err(0x3)),
        (USUAL, 0x4065, WRITE, true, Err(0x7)),
        (NO_WP, 0x4061, WRITE, false, Ok(4)),
        (NO_WP, 0x4065, WRITE, false, Ok(4)),
        (NO_WP, 0x4065, WRITE, true, Err(0x7)),
        (NO_WP, 0x4063, WRITE, true, Err(0x7)),
        // No-execute.
        (USUAL, 0x4067, FETCH, true, Ok(4)),
        (USUAL, no_execute + 0x4067, FETCH, true, Err(0x15)),
        (USUAL, no_execute + 0x4067, FETCH, false, Err(0x11)),
        (USUAL, no_execute + 0x4067, READ, true, Ok(4)),
        (NO_NXE, no_execute + 0x4067, READ, true, Err(0xd)),
        (NO_NXE, no_execute + 0x4067, FETCH, false, Err(0x9)),
        (NO_NXE, no_execute + 0x4066, READ, false, Err(0x0)),
        (NO_NXE, 0x4063, FETCH, true, Err(0x5)),
        // SMEP, and what of a fetch is told.
        (USUAL, 0x4067, FETCH, false, Ok(4)),
        (SMEP, 0x4067, FETCH, false, Err(0x11)),
        (SMEP, 0x4063, FETCH, false, Ok(4)),
        (SMEP, 0x4067, FETCH, true, Ok(4)),
        (SMEP, 0x4067, READ, false, Ok(4)),
        (SMEP_ALONE, 0x4067, FETCH, false, Err(0x11)),
        (SMEP_ALONE, 0, FETCH, true, Err(0x14)),
        (NO_NXE, 0, FETCH, true, Err(0x4)),
        (USUAL, 0, FETCH, true, Err(0x14)),
        // SMAP: reads and writes of the supervisor.
        (SMAP, 0x4067, READ, false, Err(0x1)),
        (SMAP, 0x4067, WRITE, false, Err(0x3)),
        (SMAP, 0x4067, FETCH, false, Ok(4)),
        (SMAP, 0x4063, WRITE, false, Ok(4)),
        (SMAP, 0x4067, WRITE, true, Ok(4)),
        (SMAP_AC, 0x4067, WRITE, false, Ok(4)),
        (SMAP_AC, 0x4065, WRITE, false, Err(0x3)),
        (SMAP_NO_WP, 0x4065, WRITE, false, Err(0x3)),
        (SMAP_AC_NO_WP, 0x4065, WRITE, false, Ok(4)),
    ];
    for (mode, last, kind, user, wanted) in rows {
        write_entries(words, [0x1007, 0x2007, 0x3007, last]);
        assert_eq!(rt; found(words, mode, kind, user), wanted);
    }
}

#[test]
fn rights_in_each_mode(rt: HostRuntime) -> Result<(), Fail> {
    let mut words = vec![in rt.alloc(); 0u64; 2048]?;
    rights(&rt, &mut words);
    Ok(())
}

/// The step of the page's entry, its frame, and whether all entries are accessed and the last one is dirty.
fn shown(end: End) -> Option<(u8, u64, bool, bool)> {
    match end {
        End::Page(step, found) => Some((
            step,
            found.mapped.frame.number(),
            found.accessed,
            found.dirty,
        )),
        End::NotPresent(_) | End::Reserved(_) => None,
    }
}

/// A mode, the entries of the four tables, and how the walk of page 0 ends.
fn ends(rt: &impl Abort, words: &mut [u64])
    requires { 2048 ≤ length words.old }
{
    let rows = [
        (
            USUAL,
            [0x1027, 0x2027, 0x3027, 0x4067],
            Some((3, 4, true, true)),
        ),
        (
            USUAL,
            [0x1027, 0x2027, 0x3027, 0x4027],
            Some((3, 4, true, false)),
        ),
        (
            USUAL,
            [0x1027, 0x2007, 0x3027, 0x4067],
            Some((3, 4, false, true)),
        ),
        (
            USUAL,
            [0x1027, 0x2027, 0x60_00a7, 0],
            Some((2, 0x600, true, false)),
        ),
        (
            USUAL,
            [0x1027, 0x4000_00e7, 0, 0],
            Some((1, 0x4_0000, true, true)),
        ),
        // Bit 8 of the root's entry; a page may have it.
        (USUAL, [0x1127, 0x2027, 0x3027, 0x4067], None),
        (
            INTEL,
            [0x1127, 0x2127, 0x3127, 0x4167],
            Some((3, 4, true, true)),
        ),
        // Bit 7 is reserved there all the same.
        (INTEL, [0x11a7, 0x2027, 0x3027, 0x4067], None),
    ];
    for (mode, entries, wanted) in rows {
        write_entries(words, entries);
        assert_eq!(rt; shown(end(words, mode)), wanted);
    }
}

#[test]
fn ends_of_walks(rt: HostRuntime) -> Result<(), Fail> {
    let mut words = vec![in rt.alloc(); 0u64; 2048]?;
    ends(&rt, &mut words);
    Ok(())
}

#[test]
fn steps_read_and_mark_entries(rt: HostRuntime) -> Result<(), Fail> {
    // the page of 0xffff80c040201000
    let page = 0xf_fff8_0c04_0201;
    assert_eq!(rt; index_of(0, page), 0x101);
    assert_eq!(rt; index_of(1, page), 0x101);
    assert_eq!(rt; index_of(2, page), 1);
    assert_eq!(rt; index_of(3, page), 1);
    assert_eq!(rt; marked(false, 3, 0x4007), 0x4027);
    assert_eq!(rt; marked(true, 3, 0x4007), 0x4067);
    assert_eq!(rt; marked(true, 3, 0x4067), 0x4067);
    assert_eq!(rt; marked(true, 2, 0x4007), 0x4027);
    assert_eq!(rt; marked(true, 2, 0x60_0087), 0x60_00e7);
    assert_eq!(rt; marked(true, 1, 0x4000_0087), 0x4000_00e7);
    assert_eq!(rt; maps_page(2, 0x4007), false);
    Ok(())
}
