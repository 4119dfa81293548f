//! Bytes in and out of a space.
use crate::checks::same;
use crate::pages::{DATA, READ};
use address_space::{Space, SpaceFault};
use bitflags::Flags;
use paging_core::Rights;
use std::process::Abort;
use std::test::Fail;
use x86_flags::PageFaultErrorCode;

const SHARED: Rights = Rights {
    write: false,
    user: true,
    fetch: false,
};

/// The refusal of an access.
pub(crate) fn denied(at: u64, code: u64) -> SpaceFault {
    SpaceFault::Denied {
        at,
        code: PageFaultErrorCode::from_bits_retain(code),
    }
}

/// Checks that the supervisor reads these bytes.
pub(crate) fn expect_bytes<R: Abort>(rt: &R, space: &Space, at: u64, expected: &[u8]) {
    match space.load(at, expected.len() as u64, false) {
        Ok(bytes) => same(rt, bytes.as_slice(), expected),
        Err(fault) => panic!(rt; "{fault}"),
    }
}

/// Checks that a byte is not read.
pub(crate) fn expect_no_byte<R: Abort>(
    rt: &R,
    space: &Space,
    at: u64,
    user: bool,
    expected: SpaceFault,
) {
    match space.load(at, 1, user) {
        Ok(_) => panic!(rt; "the byte at {at} is read"),
        Err(fault) => same(rt, fault, expected),
    }
}

// 16 frames: one is the root, and the pages miss three tables.
#[test]
fn bytes_are_kept(rt: HostRuntime) -> Result<(), Fail> {
    let mut space = Space::new(rt.alloc(), 16)?;
    same(&rt, space.map_at(0x1000, 2, DATA), Ok(()));
    same(&rt, space.store(0x1ffe, &[1, 2, 3, 4], false), Ok(()));
    same(&rt, space.protect(0x2000, 1, READ), Ok(()));
    let fault = Err(denied(0x2000, 3));
    same(&rt, space.store(0x1fff, &[9, 9], false), fault);
    expect_bytes(&rt, &space, 0x1ffe, &[1, 2, 3, 4]);
    same(&rt, space.free_frames(), 10);
    same(&rt, space.unmap(0x2000, 3), Ok(1));
    expect_no_byte(&rt, &space, 0x2000, false, denied(0x2000, 0));
    same(&rt, space.free_frames(), 11);
    Ok(())
}

// The codes: 1 if the page is mapped, 2 for a write, 4 for the user.
#[test]
fn stores_are_refused(rt: HostRuntime) -> Result<(), Fail> {
    let mut space = Space::new(rt.alloc(), 8)?;
    same(&rt, space.map_at(0x1000, 2, DATA), Ok(()));
    same(&rt, space.protect(0x1000, 1, SHARED), Ok(()));
    let bad = SpaceFault::BadRange;
    for (at, user, fault) in [
        (0x1fff, true, denied(0x1fff, 7)),
        (0x1fff, false, denied(0x1fff, 3)),
        (0x2fff, true, denied(0x2fff, 7)),
        (0x2fff, false, denied(0x3000, 2)),
        (0x3000, true, denied(0x3000, 6)),
        (1 << 47, false, bad),
        (0x7fff_ffff_ffff, false, bad),
        (0xffff_ffff_ffff_ffff, false, bad),
    ] {
        same(&rt, space.store(at, &[1, 2], user), Err(fault));
    }
    same(&rt, space.store(1 << 47, &[], false), Ok(()));
    same(&rt, space.free_frames(), 2);
    Ok(())
}

#[test]
fn loads_are_refused(rt: HostRuntime) -> Result<(), Fail> {
    let mut space = Space::new(rt.alloc(), 8)?;
    same(&rt, space.map_at(0x1000, 1, DATA), Ok(()));
    for (at, user, fault) in [
        (0x1fff, true, denied(0x1fff, 5)),
        (0x2000, true, denied(0x2000, 4)),
        (0x2000, false, denied(0x2000, 0)),
        (1 << 47, false, SpaceFault::BadRange),
    ] {
        expect_no_byte(&rt, &space, at, user, fault);
    }
    expect_bytes(&rt, &space, 1 << 47, &[]);
    expect_bytes(&rt, &space, 0x1fff, &[0]);
    Ok(())
}
