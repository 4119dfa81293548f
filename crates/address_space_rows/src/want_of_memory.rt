//! Want of memory. A run in which one allocation fails shows that the call changes nothing, and that it is served when
//! it is made again; in a run with ample memory each call is served at once.
use crate::bytes::expect_bytes;
use crate::checks::same;
use crate::pages::{DATA, READ, area};
use address_space::{Space, SpaceFault};
use std::process::Abort;
use std::test::Fail;

/// Whether the call lacked memory; if so it took no frame and gave none back. Any other answer is `Ok`.
fn wants_memory<R: Abort>(
    rt: &R,
    answer: Result<u64, SpaceFault>,
    before: u64,
    after: u64,
) -> bool {
    if answer == Err(SpaceFault::OutOfMemory) {
        same(rt, after, before);
        return true;
    }
    assert!(rt; answer.is_ok());
    false
}

/// Makes one of the calls that may lack memory.
fn call(space: &mut Space, number: u32) -> Result<u64, SpaceFault> {
    match number {
        0 => space.map_at(0x1000, 6, DATA).map(|()| 0),
        1 => space.protect(0x2000, 3, READ).map(|()| 0),
        2 => space.place(0x1000, 0x20000, 2, READ),
        3 => space.duplicate(0x1000, 2, 0x10000).map(|()| 0),
        _ => space.unmap(0x5000, 1),
    }
}

// Of 32 frames one is the root, and the pages miss three tables.
#[test]
fn a_call_that_wants_memory_is_made_again(rt: HostRuntime) -> Result<(), Fail> {
    let alloc = rt.alloc();
    let mut space = Space::new(alloc, 32)?;
    for number in 0..5 {
        let before = space.free_frames();
        let answer = call(&mut space, number);
        if wants_memory(&rt, answer, before, space.free_frames()) {
            assert!(rt; call(&mut space, number).is_ok());
        }
    }
    expect_bytes(&rt, &space, 0x10fff, &[0, 0]);
    let parts = [
        area(0x1000, 1, DATA),
        area(0x2000, 3, READ),
        area(0x6000, 1, DATA),
        area(0x7000, 2, READ),
        area(0x10000, 1, DATA),
        area(0x11000, 1, READ),
    ];
    let areas = match space.areas(alloc) {
        Ok(areas) => areas,
        Err(_) => space.areas(alloc)?,
    };
    same(&rt, areas.as_slice(), parts.as_slice());
    same(&rt, space.free_frames(), 19);
    Ok(())
}
