ghost use Rattle.std.specs.Prelude.{◌≡◌, ◌<◌, IfOk};
ghost use Rattle.dlmalloc.specs.Binned.{IsBinned};
ghost use Rattle.dlmalloc.specs.Heap.{IsSound};

use crate::calls::{
    Call, FOOT, NEW, NO_SPACE, Row, Run, TOO_LARGE, apply, expect_extents, flat_heap, serve,
};
use crate::checks::same;
use dlmalloc::{Dlmalloc, Kind, MallocError};
use heap_memory::{FlatStep, FlatSystem, GrantFault, Links, Steps};
use std::alloc::{AllocError, Global};
use std::marker::Brand;
use std::process::Abort;
use std::sync::ledger::{Blank, Ledger};
use std::test::Fail;

/// Calls of a new heap that leave a victim of 976 bytes, and chunks of 208, 512 and 976 bytes in bins.
const BINS: &[Call] = &[
    Call::Malloc(1000, Ok(0x40_0010)),
    Call::Malloc(8, Ok(0x40_0400)),
    Call::Malloc(200, Ok(0x40_0420)),
    Call::Malloc(8, Ok(0x40_04f0)),
    Call::Malloc(500, Ok(0x40_0510)),
    Call::Malloc(8, Ok(0x40_0710)),
    Call::Malloc(968, Ok(0x40_0730)),
    Call::Malloc(8, Ok(0x40_0b00)),
    Call::Free(0x40_0010),
    Call::Malloc(24, Ok(0x40_0010)),
    Call::Free(0x40_0420),
    Call::Free(0x40_0510),
    Call::Free(0x40_0730),
];

#[test]
fn calls_leave_these_extents(rt: HostRuntime) -> Result<(), Fail> {
    let rows = [
        Row {
            rule: "a block is cut from the top",
            before: NEW,
            calls: &[Call::Malloc(24, Ok(0x40_0010))],
            extents: &[
                (Kind::Used, 0x40_0000, 32),
                (Kind::Top, 0x40_0020, 65424),
                FOOT,
            ],
        },
        Row {
            rule: "and goes back",
            before: NEW,
            calls: &[Call::Malloc(24, Ok(0x40_0010)), Call::Free(0x40_0010)],
            extents: &[(Kind::Top, 0x40_0000, 65456), FOOT],
        },
        Row {
            rule: "the top keeps 16 bytes",
            before: NEW,
            calls: &[Call::Malloc(65432, Ok(0x40_0010))],
            extents: &[
                (Kind::Used, 0x40_0000, 65440),
                (Kind::Top, 0x40_ffa0, 16),
                FOOT,
            ],
        },
        Row {
            rule: "and is never used up",
            before: NEW,
            calls: &[
                Call::Malloc(24, Ok(0x40_0010)),
                Call::Malloc(65416, NO_SPACE),
            ],
            extents: &[
                (Kind::Used, 0x40_0000, 32),
                (Kind::Top, 0x40_0020, 65424),
                FOOT,
            ],
        },
        Row {
            rule: "one byte more asks for two granularities, which the region does not have",
            before: NEW,
            calls: &[Call::Malloc(65433, NO_SPACE)],
            extents: &[],
        },
        Row {
            rule: "the greatest size that is not too large",
            before: NEW,
            calls: &[Call::Malloc(0xffff_ffff_fffe_ff98, NO_SPACE)],
            extents: &[],
        },
        Row {
            rule: "the least that is",
            before: NEW,
            calls: &[Call::Malloc(0xffff_ffff_fffe_ff99, TOO_LARGE)],
            extents: &[],
        },
        Row {
            rule: "an older block is freed, and its chunk is cut twice",
            before: NEW,
            calls: &[
                Call::Malloc(1000, Ok(0x40_0010)),
                Call::Malloc(8, Ok(0x40_0400)),
                Call::Free(0x40_0010),
                Call::Malloc(24, Ok(0x40_0010)),
                Call::Malloc(24, Ok(0x40_0030)),
            ],
            extents: &[
                (Kind::Used, 0x40_0000, 32),
                (Kind::Used, 0x40_0020, 32),
                (Kind::Victim, 0x40_0040, 944),
                (Kind::Used, 0x40_03f0, 32),
                (Kind::Top, 0x40_0410, 64416),
                FOOT,
            ],
        },
        Row {
            rule: "a freed chunk joins the free ones on both sides",
            before: NEW,
            calls: &[
                Call::Malloc(24, Ok(0x40_0010)),
                Call::Malloc(24, Ok(0x40_0030)),
                Call::Malloc(24, Ok(0x40_0050)),
                Call::Malloc(24, Ok(0x40_0070)),
                Call::Free(0x40_0010),
                Call::Free(0x40_0050),
                Call::Free(0x40_0030),
            ],
            extents: &[
                (Kind::Free, 0x40_0000, 96),
                (Kind::Used, 0x40_0060, 32),
                (Kind::Top, 0x40_0080, 65328),
                FOOT,
            ],
        },
        Row {
            rule: "a rest of 16 bytes stays with the block",
            before: NEW,
            calls: &[
                Call::Malloc(200, Ok(0x40_0010)),
                Call::Malloc(8, Ok(0x40_00e0)),
                Call::Free(0x40_0010),
                Call::Malloc(184, Ok(0x40_0010)),
            ],
            extents: &[
                (Kind::Used, 0x40_0000, 208),
                (Kind::Used, 0x40_00d0, 32),
                (Kind::Top, 0x40_00f0, 65216),
                FOOT,
            ],
        },
        Row {
            rule: "one of 32 is split off",
            before: NEW,
            calls: &[
                Call::Malloc(200, Ok(0x40_0010)),
                Call::Malloc(8, Ok(0x40_00e0)),
                Call::Free(0x40_0010),
                Call::Malloc(168, Ok(0x40_0010)),
            ],
            extents: &[
                (Kind::Used, 0x40_0000, 176),
                (Kind::Victim, 0x40_00b0, 32),
                (Kind::Used, 0x40_00d0, 32),
                (Kind::Top, 0x40_00f0, 65216),
                FOOT,
            ],
        },
        Row {
            rule: "below 256 the victim goes before a bin",
            before: BINS,
            calls: &[Call::Malloc(40, Ok(0x40_0030))],
            extents: &[
                (Kind::Used, 0x40_0000, 32),
                (Kind::Used, 0x40_0020, 48),
                (Kind::Victim, 0x40_0050, 928),
                (Kind::Used, 0x40_03f0, 32),
                (Kind::Free, 0x40_0410, 208),
                (Kind::Used, 0x40_04e0, 32),
                (Kind::Free, 0x40_0500, 512),
                (Kind::Used, 0x40_0700, 32),
                (Kind::Free, 0x40_0720, 976),
                (Kind::Used, 0x40_0af0, 32),
                (Kind::Top, 0x40_0b10, 62624),
                FOOT,
            ],
        },
        Row {
            rule: "and an exact fit before the victim",
            before: BINS,
            calls: &[Call::Malloc(200, Ok(0x40_0420))],
            extents: &[
                (Kind::Used, 0x40_0000, 32),
                (Kind::Victim, 0x40_0020, 976),
                (Kind::Used, 0x40_03f0, 32),
                (Kind::Used, 0x40_0410, 208),
                (Kind::Used, 0x40_04e0, 32),
                (Kind::Free, 0x40_0500, 512),
                (Kind::Used, 0x40_0700, 32),
                (Kind::Free, 0x40_0720, 976),
                (Kind::Used, 0x40_0af0, 32),
                (Kind::Top, 0x40_0b10, 62624),
                FOOT,
            ],
        },
        Row {
            rule: "from 256 on a smaller bin goes before the victim, and its rest is in a bin",
            before: BINS,
            calls: &[Call::Malloc(300, Ok(0x40_0510))],
            extents: &[
                (Kind::Used, 0x40_0000, 32),
                (Kind::Victim, 0x40_0020, 976),
                (Kind::Used, 0x40_03f0, 32),
                (Kind::Free, 0x40_0410, 208),
                (Kind::Used, 0x40_04e0, 32),
                (Kind::Used, 0x40_0500, 320),
                (Kind::Free, 0x40_0640, 192),
                (Kind::Used, 0x40_0700, 32),
                (Kind::Free, 0x40_0720, 976),
                (Kind::Used, 0x40_0af0, 32),
                (Kind::Top, 0x40_0b10, 62624),
                FOOT,
            ],
        },
        Row {
            rule: "and the victim before a bin of its size, or of a greater one",
            before: BINS,
            calls: &[
                Call::Malloc(600, Ok(0x40_0030)),
                Call::Malloc(260, Ok(0x40_0290)),
            ],
            extents: &[
                (Kind::Used, 0x40_0000, 32),
                (Kind::Used, 0x40_0020, 608),
                (Kind::Used, 0x40_0280, 272),
                (Kind::Victim, 0x40_0390, 96),
                (Kind::Used, 0x40_03f0, 32),
                (Kind::Free, 0x40_0410, 208),
                (Kind::Used, 0x40_04e0, 32),
                (Kind::Free, 0x40_0500, 512),
                (Kind::Used, 0x40_0700, 32),
                (Kind::Free, 0x40_0720, 976),
                (Kind::Used, 0x40_0af0, 32),
                (Kind::Top, 0x40_0b10, 62624),
                FOOT,
            ],
        },
        Row {
            rule: "an aligned block, and one in what is freed before it",
            before: NEW,
            calls: &[
                Call::Aligned(100, 4096, Ok(0x40_1000)),
                Call::Malloc(4072, Ok(0x40_0010)),
            ],
            extents: &[
                (Kind::Used, 0x40_0000, 4080),
                (Kind::Used, 0x40_0ff0, 112),
                (Kind::Top, 0x40_1060, 61264),
                FOOT,
            ],
        },
        Row {
            rule: "the same by c_memalign",
            before: NEW,
            calls: &[
                Call::Memalign(4096, 100, Ok(0x40_1000)),
                Call::Memalign(16, 4072, Ok(0x40_0010)),
            ],
            extents: &[
                (Kind::Used, 0x40_0000, 4080),
                (Kind::Used, 0x40_0ff0, 112),
                (Kind::Top, 0x40_1060, 61264),
                FOOT,
            ],
        },
        Row {
            rule: "an aligned block that is cleared, and one at an alignment below 16",
            before: NEW,
            calls: &[
                Call::Calloc(100, 4096, Ok(0x40_1000)),
                Call::Calloc(8, 8, Ok(0x40_0010)),
            ],
            extents: &[
                (Kind::Used, 0x40_0000, 32),
                (Kind::Victim, 0x40_0020, 4048),
                (Kind::Used, 0x40_0ff0, 112),
                (Kind::Top, 0x40_1060, 61264),
                FOOT,
            ],
        },
        Row {
            rule: "the greatest alignment is not too large for a byte",
            before: NEW,
            calls: &[
                Call::Aligned(1, 0x8000_0000_0000_0000, NO_SPACE),
                Call::Aligned(0x7fff_ffff_ffff_ffff, 0x8000_0000_0000_0000, TOO_LARGE),
                Call::Calloc(0x7fff_ffff_ffff_ffff, 0x8000_0000_0000_0000, TOO_LARGE),
                Call::Calloc(0xffff_ffff_fffe_ff99, 8, TOO_LARGE),
            ],
            extents: &[],
        },
        Row {
            rule: "but where regions are asked for in multiples of as many bytes",
            before: NEW,
            calls: &[
                Call::Granularity(0x8000_0000_0000_0000),
                Call::Aligned(1, 0x8000_0000_0000_0000, TOO_LARGE),
            ],
            extents: &[],
        },
    ];
    for row in &rows {
        serve::<Brand, HostRuntime>(&rt, rt.alloc(), row, Blank::new(1))?;
    }
    Ok(())
}

/// Sets granularities, of which the last is one.
fn set_granularities<R: Abort>(rt: &R, heap: &mut Dlmalloc<FlatSystem>) {
    same(rt, heap.granularity(), 65536);
    assert!(rt;
        !heap.set_granularity(3072) && !heap.set_granularity(0) && !heap.set_granularity(8)
    );
    same(rt, heap.granularity(), 65536);
    assert!(rt; heap.set_granularity(16));
    same(rt, heap.granularity(), 16);
}

#[test]
fn settings_are_kept(rt: HostRuntime) -> Result<(), Fail> {
    let mut heap = flat_heap(rt.alloc())?;
    set_granularities(&rt, &mut heap);
    Ok(())
}

/// A heap whose system gives two regions, one after the other, and then refuses: for want of frames, and of memory.
fn wide_heap(alloc: Global) -> Result<Dlmalloc<FlatSystem>, AllocError>
    ensures sound { IfOk result (λ heap. IsSound ⟦<FlatSystem as Links>⟧.regions ⟦<FlatSystem as Links>⟧.word heap) }
    ensures linked { IfOk result (λ heap. IsBinned ⟦<FlatSystem as Links>⟧.regions ⟦<FlatSystem as Links>⟧.word heap) }
{
    let mut script = Vec::new(alloc);
    for base in [0x40_0000, 0x41_0000] {
        script.push(FlatStep::Give {
            base,
            size: 65536,
            flags: 0,
        })?;
    }
    for fault in [GrantFault::NoFrames, GrantFault::OutOfMemory] {
        script.push(FlatStep::Refuse { fault })?;
    }
    let system = FlatSystem::new(alloc, script, true, true, 4096)?;
    Ok(Dlmalloc::new_with_allocator(system))
}

/// Makes the top longer, and is refused twice.
fn serve_wide<L: Ledger, R: Abort>(
    rt: &R,
    alloc: Global,
    heap: &mut Dlmalloc<FlatSystem>,
    steps: &mut Steps<L>,
) -> Result<(), Fail>
    requires sound { IsSound ⟦<FlatSystem as Links>⟧.regions ⟦<FlatSystem as Links>⟧.word heap.old }
    requires linked { IsBinned ⟦<FlatSystem as Links>⟧.regions ⟦<FlatSystem as Links>⟧.word heap.old }
{
    const FOOT: Run = (Kind::Foot, 0x41_ffb0, 80);
    same(rt, heap.c_realloc(None, 24, steps), Ok(0x40_0010));
    same(rt, heap.c_malloc(65416, steps), Ok(0x40_0030));
    let grown = [
        (Kind::Used, 0x40_0000, 32),
        (Kind::Used, 0x40_0020, 65424),
        (Kind::Top, 0x40_ffb0, 65536),
        FOOT,
    ];
    expect_extents(rt, alloc, heap, "the top grows", &grown, steps)?;
    for fault in [GrantFault::NoFrames, GrantFault::OutOfMemory] {
        same(
            rt,
            heap.c_malloc(65536, steps),
            Err(MallocError::System(fault)),
        );
        expect_extents(rt, alloc, heap, "a refusal changes nothing", &grown, steps)?;
    }
    heap.c_free(None, steps);
    expect_extents(rt, alloc, heap, "so does freeing no block", &grown, steps)?;
    apply(rt, alloc, heap, Call::Free(0x40_0030), steps)?;
    let freed = [
        (Kind::Used, 0x40_0000, 32),
        (Kind::Top, 0x40_0020, 130_960),
        FOOT,
    ];
    expect_extents(
        rt,
        alloc,
        heap,
        "the freed chunk joins the top",
        &freed,
        steps,
    )
}

/// Makes a heap whose top is to grow, and serves it.
fn begin_wide<L: Ledger, R: Abort>(rt: &R, alloc: Global, blank: Blank) -> Result<(), Fail>
    requires name { blank.name ≡ L.name }
    requires parts { blank.parts ≡ L.parts }
    requires some { 0 < blank.parts }
{
    let mut steps = Steps::<L>::new(blank);
    let mut heap = wide_heap(alloc)?;
    serve_wide(rt, alloc, &mut heap, &mut steps)
}

#[test]
fn the_top_grows_and_refusals_change_nothing(rt: HostRuntime) -> Result<(), Fail> {
    begin_wide::<Brand, HostRuntime>(&rt, rt.alloc(), Blank::new(1))
}
