// Requests that the system denies: the heap is as it was, and is served when it asks again.
ghost use Rattle.std.specs.Prelude.{◌≡◌, ◌<◌};
ghost use Rattle.dlmalloc.specs.Binned.{IsBinned};
ghost use Rattle.dlmalloc.specs.Heap.{IsSound};

use crate::calls::{Call, Run, apply, expect_extents};
use crate::checks::same;
use crate::scripted::{Give, script_of, scripted_heap};
use dlmalloc::{Dlmalloc, Kind, MallocError};
use heap_memory::{FlatStep, FlatSystem, GrantFault, Links, Steps};
use std::alloc::Global;
use std::marker::Brand;
use std::process::Abort;
use std::sync::ledger::{Blank, Ledger};
use std::test::Fail;

/// A call that is granted a region, the extents after it, and the countdown.
#[derive(Clone, Copy)]
struct Growth {
    call: Call,
    extents: &'static [Run],
    countdown: u64,
}

/// A region for each of the growths. The second makes the head segment longer, the fourth is put before one that is not the
/// head, and each other is a new head segment.
const GIVES: &[Give] = &[
    (0x2_0000, 4096, 0),
    (0x2_1000, 4096, 0),
    (0x4_0000, 8192, 0),
    (0x1_e000, 8192, 0),
    (0x4_2000, 12288, 2),
    (0x5_0000, 16384, 1),
];

const GROWTHS: &[Growth] = &[
    Growth {
        call: Call::Malloc(100, Ok(0x2_0010)),
        extents: &[
            (Kind::Used, 0x2_0000, 112),
            (Kind::Top, 0x2_0070, 3904),
            (Kind::Foot, 0x2_0fb0, 80),
        ],
        countdown: 4095,
    },
    Growth {
        call: Call::Calloc(3912, 16, Ok(0x2_0080)),
        extents: &[
            (Kind::Used, 0x2_0000, 112),
            (Kind::Used, 0x2_0070, 3920),
            (Kind::Top, 0x2_0fc0, 4080),
            (Kind::Foot, 0x2_1fb0, 80),
        ],
        countdown: 4095,
    },
    Growth {
        call: Call::Realloc(0x2_0010, 100, 16, 5000, Ok(0x4_0010)),
        extents: &[
            (Kind::Free, 0x2_0000, 112),
            (Kind::Used, 0x2_0070, 3920),
            (Kind::Free, 0x2_0fc0, 4080),
            (Kind::Record, 0x2_1fb0, 80),
            (Kind::Used, 0x4_0000, 5008),
            (Kind::Top, 0x4_1390, 3104),
            (Kind::Foot, 0x4_1fb0, 80),
        ],
        countdown: 4095,
    },
    Growth {
        call: Call::Memalign(64, 4200, Ok(0x1_e040)),
        extents: &[
            (Kind::Free, 0x1_e000, 48),
            (Kind::Used, 0x1_e030, 4208),
            (Kind::Free, 0x1_f0a0, 4048),
            (Kind::Used, 0x2_0070, 3920),
            (Kind::Free, 0x2_0fc0, 4080),
            (Kind::Record, 0x2_1fb0, 80),
            (Kind::Used, 0x4_0000, 5008),
            (Kind::Top, 0x4_1390, 3104),
            (Kind::Foot, 0x4_1fb0, 80),
        ],
        countdown: 4095,
    },
    Growth {
        call: Call::CRealloc(0x2_0080, 9000, Ok(0x4_2010)),
        extents: &[
            (Kind::Free, 0x1_e000, 48),
            (Kind::Used, 0x1_e030, 4208),
            (Kind::Free, 0x1_f0a0, 12048),
            (Kind::Record, 0x2_1fb0, 80),
            (Kind::Used, 0x4_0000, 5008),
            (Kind::Free, 0x4_1390, 3104),
            (Kind::Record, 0x4_1fb0, 80),
            (Kind::Used, 0x4_2000, 9008),
            (Kind::Top, 0x4_4330, 3200),
            (Kind::Foot, 0x4_4fb0, 80),
        ],
        countdown: 4094,
    },
    Growth {
        call: Call::Aligned(13000, 64, Ok(0x5_0040)),
        extents: &[
            (Kind::Free, 0x1_e000, 48),
            (Kind::Used, 0x1_e030, 4208),
            (Kind::Free, 0x1_f0a0, 12048),
            (Kind::Record, 0x2_1fb0, 80),
            (Kind::Used, 0x4_0000, 5008),
            (Kind::Free, 0x4_1390, 3104),
            (Kind::Record, 0x4_1fb0, 80),
            (Kind::Used, 0x4_2000, 9008),
            (Kind::Free, 0x4_4330, 3200),
            (Kind::Record, 0x4_4fb0, 80),
            (Kind::Free, 0x5_0000, 48),
            (Kind::Used, 0x5_0030, 13008),
            (Kind::Top, 0x5_3300, 3248),
            (Kind::Foot, 0x5_3fb0, 80),
        ],
        countdown: 4094,
    },
];

/// The same call, if the system denies its request.
fn denied(call: Call, fault: GrantFault) -> Call {
    let answer = Err(MallocError::System(fault));
    match call {
        Call::Malloc(size, _) => Call::Malloc(size, answer),
        Call::Aligned(size, align, _) => Call::Aligned(size, align, answer),
        Call::Memalign(align, size, _) => Call::Memalign(align, size, answer),
        Call::Calloc(size, align, _) => Call::Calloc(size, align, answer),
        Call::Realloc(address, old_size, align, size, _) => {
            Call::Realloc(address, old_size, align, size, answer)
        }
        Call::CRealloc(address, size, _) => Call::CRealloc(address, size, answer),
        other => other,
    }
}

/// Makes a call, if there is one, whose request the system denies, and checks that nothing changes.
fn expect_refusal<L: Ledger, R: Abort>(
    rt: &R,
    alloc: Global,
    heap: &mut Dlmalloc<FlatSystem>,
    call: Option<Call>,
    extents: &[Run],
    countdown: u64,
    steps: &mut Steps<L>,
) -> Result<(), Fail>
    requires sound { IsSound ⟦<FlatSystem as Links>⟧.regions ⟦<FlatSystem as Links>⟧.word heap.old }
    requires linked { IsBinned ⟦<FlatSystem as Links>⟧.regions ⟦<FlatSystem as Links>⟧.word heap.old }
    ensures sound { IsSound ⟦<FlatSystem as Links>⟧.regions ⟦<FlatSystem as Links>⟧.word heap.new }
    ensures linked { IsBinned ⟦<FlatSystem as Links>⟧.regions ⟦<FlatSystem as Links>⟧.word heap.new }
{
    let Some(call) = call else {
        return Ok(());
    };
    apply(rt, alloc, heap, call, steps)?;
    expect_extents(rt, alloc, heap, "denied", extents, steps)?;
    same(rt, heap.release_checks(), countdown);
    Ok(())
}

/// Makes the growths of a heap whose system denies the one at a place with a fault before it grants it: nothing changes then.
fn grow_denied<L: Ledger, R: Abort>(
    rt: &R,
    alloc: Global,
    heap: &mut Dlmalloc<FlatSystem>,
    place: usize,
    fault: GrantFault,
    steps: &mut Steps<L>,
) -> Result<(), Fail>
    requires sound { IsSound ⟦<FlatSystem as Links>⟧.regions ⟦<FlatSystem as Links>⟧.word heap.old }
    requires linked { IsBinned ⟦<FlatSystem as Links>⟧.regions ⟦<FlatSystem as Links>⟧.word heap.old }
{
    let mut extents: &[Run] = &[];
    let mut countdown = 0;
    for (i, growth) in GROWTHS.iter().enumerate() {
        let refused = (i == place).then_some(denied(growth.call, fault));
        expect_refusal(rt, alloc, heap, refused, extents, countdown, steps)?;
        apply(rt, alloc, heap, growth.call, steps)?;
        expect_extents(rt, alloc, heap, "granted", growth.extents, steps)?;
        same(rt, heap.release_checks(), growth.countdown);
        extents = growth.extents;
        countdown = growth.countdown;
    }
    Ok(())
}

/// Makes a heap over a system that denies, and its growths.
fn serve_denied<L: Ledger, R: Abort>(
    rt: &R,
    alloc: Global,
    place: usize,
    step: FlatStep,
    fault: GrantFault,
    blank: Blank,
) -> Result<(), Fail>
    requires name { blank.name ≡ L.name }
    requires parts { blank.parts ≡ L.parts }
    requires some { 0 < blank.parts }
{
    let mut steps = Steps::<L>::new(blank);
    let script = script_of(alloc, GIVES, Some((place, step)))?;
    let mut heap = scripted_heap(alloc, 4096, script, true, true)?;
    grow_denied(rt, alloc, &mut heap, place, fault, &mut steps)
}

#[test]
fn each_grant_is_denied_in_turn(rt: HostRuntime) -> Result<(), Fail> {
    let give = |base: u64, size: u64| FlatStep::Give {
        base,
        size,
        flags: 0,
    };
    let denials = [
        (
            FlatStep::Refuse {
                fault: GrantFault::NoSpace,
            },
            GrantFault::NoSpace,
        ),
        (
            FlatStep::Refuse {
                fault: GrantFault::NoFrames,
            },
            GrantFault::NoFrames,
        ),
        (
            FlatStep::Refuse {
                fault: GrantFault::OutOfMemory,
            },
            GrantFault::OutOfMemory,
        ),
        (give(0x8_0000, 16), GrantFault::NoSpace),
        (give(0x8_0008, 16384), GrantFault::NoSpace),
        (give(0, 16384), GrantFault::NoSpace),
    ];
    for place in 0..GROWTHS.len() {
        for &(step, fault) in &denials {
            serve_denied::<Brand, HostRuntime>(&rt, rt.alloc(), place, step, fault, Blank::new(1))?;
        }
    }
    Ok(())
}
