//! Pages of both canonical halves.
use crate::bytes::{denied, expect_bytes, expect_no_byte};
use crate::checks::same;
use crate::pages::{DATA, READ, area, expect_areas};
use address_space::{Space, SpaceFault};
use std::test::Fail;

/// The last page of the low half, the first of the high one, and the last of all.
const LOW: u64 = 0x7fff_ffff_f000;

const HIGH: u64 = 0xffff_8000_0000_0000;

const LAST: u64 = 0xffff_ffff_ffff_f000;

#[test]
fn ranges_stay_in_a_half(rt: HostRuntime) -> Result<(), Fail> {
    let mut space = Space::new(rt.alloc(), 8)?;
    let bad = SpaceFault::BadRange;
    for (start, pages) in [
        (0xffff_7fff_ffff_f000, 1),
        (LOW, 2),
        (LAST, 2),
        (HIGH, 1 << 36),
    ] {
        same(&rt, space.map_at(start, pages, DATA), Err(bad));
        same(&rt, space.protect(start, pages, DATA), Err(bad));
        same(&rt, space.unmap(start, pages), Err(bad));
        same(&rt, space.duplicate(start, pages, 0x1000), Err(bad));
        same(&rt, space.duplicate(0x1000, pages, start), Err(bad));
    }
    same(&rt, space.place(LOW, HIGH, 1, DATA), Err(bad));
    same(&rt, space.store(LOW + 4095, &[1, 2], false), Err(bad));
    same(&rt, space.store(LAST + 4095, &[1, 2], false), Err(bad));
    same(&rt, space.free_frames(), 7);
    Ok(())
}

// Of 32 frames one is the root. The pages of `LOW`, `HIGH`, `LAST` and 0x1000 miss three tables each.
#[test]
fn pages_lie_in_both_halves(rt: HostRuntime) -> Result<(), Fail> {
    let alloc = rt.alloc();
    let mut space = Space::new(alloc, 32)?;
    for (start, pages, rights, free) in [
        (LOW, 1, DATA, 27),
        (HIGH, 2, DATA, 22),
        (LAST, 1, READ, 18),
    ] {
        same(&rt, space.map_at(start, pages, rights), Ok(()));
        same(&rt, space.free_frames(), free);
    }
    same(&rt, space.store(HIGH + 0xffe, &[1, 2, 3, 4], false), Ok(()));
    expect_bytes(&rt, &space, HIGH + 0xffd, &[0, 1, 2, 3, 4, 0]);
    let fault = Err(denied(LAST + 4095, 3));
    same(&rt, space.store(LAST + 4095, &[9], false), fault);
    expect_bytes(&rt, &space, LAST + 4095, &[0]);
    expect_no_byte(&rt, &space, LAST - 1, false, denied(LAST - 1, 0));
    let below = LAST - 0x2000;
    same(&rt, space.place(below, LAST, 2, DATA), Ok(below));
    same(
        &rt,
        space.place(below, LAST, 1, DATA),
        Err(SpaceFault::NoRoom),
    );
    same(&rt, space.duplicate(HIGH, 2, 0x1000), Ok(()));
    expect_bytes(&rt, &space, 0x1ffd, &[0, 1, 2, 3, 4, 0]);
    same(&rt, space.protect(HIGH, 1, READ), Ok(()));
    same(&rt, space.unmap(LAST - 0x1000, 2), Ok(2));
    let parts = [
        area(0x1000, 2, DATA),
        area(LOW, 1, DATA),
        area(HIGH, 1, READ),
        area(HIGH + 0x1000, 1, DATA),
        area(below, 1, DATA),
    ];
    same(&rt, space.free_frames(), 13);
    expect_areas(&rt, alloc, &space, &parts)
}
