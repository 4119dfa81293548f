// In what order chunks of one size are taken: below 256 bytes the newest first, and from there on the oldest.
ghost use Rattle.std.specs.Prelude.{◌≡◌, ◌<◌, ◌^◌};
ghost use Rattle.dlmalloc.specs.Binned.{IsBinned};
ghost use Rattle.dlmalloc.specs.Heap.{IsSound};

use crate::calls::{Call, apply, flat_heap};
use crate::checks::same;
use dlmalloc::Dlmalloc;
use heap_memory::{FlatSystem, Links, Steps};
use std::alloc::Global;
use std::marker::Brand;
use std::process::Abort;
use std::sync::ledger::{Blank, Ledger};
use std::test::Fail;

/// What is done at places. They are 1024 bytes apart, from the start of a region on. Each begins with a block of the
/// row's size; one of 24 bytes follows, and one of all the rest.
#[derive(Clone, Copy)]
enum Step {
    /// The block is freed.
    Free,
    /// The block of 24 bytes is, so that the chunk before it has 32 bytes more.
    Join,
    /// A block of the row's size is asked for, and is the one here.
    Take,
    /// One of 32 bytes more is.
    Long,
}

use Step::{Free, Join, Long, Take};

/// What is done with six places, and with which one after the other.
#[derive(Drop)]
struct Order {
    size: u16,
    steps: &'static [(Step, &'static [u8])],
}

/// Where the block of a place is.
fn block_at(place: u8) -> u64
    ensures { result < 2 ^ 32 }
{
    0x40_0010 + 1024 * u64::from(place)
}

/// The call that a step is.
fn call_of(size: u16, step: Step, place: u8) -> Call {
    let block = block_at(place);
    let size = u64::from(size);
    match step {
        Free => Call::Free(block),
        Join => Call::Free(block + size + 8),
        Take => Call::Malloc(size, Ok(block)),
        Long => Call::Malloc(size + 32, Ok(block)),
    }
}

/// Takes the blocks of the six places, and all the rest of each.
fn take_places<L: Ledger, R: Abort>(
    rt: &R,
    heap: &mut Dlmalloc<FlatSystem>,
    size: u64,
    steps: &mut Steps<L>,
)
    requires sound { IsSound ⟦<FlatSystem as Links>⟧.regions ⟦<FlatSystem as Links>⟧.word heap.old }
    requires linked { IsBinned ⟦<FlatSystem as Links>⟧.regions ⟦<FlatSystem as Links>⟧.word heap.old }
    ensures sound { IsSound ⟦<FlatSystem as Links>⟧.regions ⟦<FlatSystem as Links>⟧.word heap.new }
    ensures linked { IsBinned ⟦<FlatSystem as Links>⟧.regions ⟦<FlatSystem as Links>⟧.word heap.new }
{
    for place in 0u8..6 {
        let block = block_at(place);
        same(rt, heap.c_malloc(size, steps), Ok(block));
        assert!(rt; heap.c_malloc(24, steps).is_ok());
        let rest = 976u64.saturating_sub(size);
        assert!(rt; heap.c_malloc(rest, steps).is_ok());
    }
}

/// Makes the calls of a row.
fn serve_steps<L: Ledger, R: Abort>(
    rt: &R,
    alloc: Global,
    heap: &mut Dlmalloc<FlatSystem>,
    row: &Order,
    steps: &mut Steps<L>,
) -> Result<(), Fail>
    requires sound { IsSound ⟦<FlatSystem as Links>⟧.regions ⟦<FlatSystem as Links>⟧.word heap.old }
    requires linked { IsBinned ⟦<FlatSystem as Links>⟧.regions ⟦<FlatSystem as Links>⟧.word heap.old }
{
    take_places(rt, heap, u64::from(row.size), steps);
    for &(step, places) in row.steps {
        for &place in places {
            apply(rt, alloc, heap, call_of(row.size, step, place), steps)?;
        }
    }
    Ok(())
}

/// Makes the calls of a row with a new heap.
fn serve_order<L: Ledger, R: Abort>(
    rt: &R,
    alloc: Global,
    row: &Order,
    blank: Blank,
) -> Result<(), Fail>
    requires name { blank.name ≡ L.name }
    requires parts { blank.parts ≡ L.parts }
    requires some { 0 < blank.parts }
{
    let mut steps = Steps::<L>::new(blank);
    let mut heap = flat_heap(alloc)?;
    serve_steps(rt, alloc, &mut heap, row, &mut steps)
}

#[test]
fn equal_sizes_are_taken_in_order(rt: HostRuntime) -> Result<(), Fail> {
    let rows = [
        // Of the least size the newest goes first.
        Order {
            size: 24,
            steps: &[(Free, &[3, 0, 1]), (Take, &[1, 0, 3, 6])],
        },
        // Of the greatest below 256 too.
        Order {
            size: 232,
            steps: &[(Free, &[1, 0, 2, 3]), (Take, &[3, 2, 0, 1])],
        },
        // Of 256 bytes the oldest goes first.
        Order {
            size: 248,
            steps: &[(Free, &[1, 2, 0]), (Take, &[1, 2, 0, 6])],
        },
        // Of 512 too.
        Order {
            size: 504,
            steps: &[(Free, &[2, 0, 3, 1]), (Take, &[2, 0, 3, 1])],
        },
        // What is freed again is the newest, of small ones.
        Order {
            size: 200,
            steps: &[
                (Free, &[0, 1, 2]),
                (Take, &[2, 1]),
                (Free, &[2, 1]),
                (Take, &[1, 2, 0]),
            ],
        },
        // And of large ones.
        Order {
            size: 504,
            steps: &[
                (Free, &[0, 1, 2]),
                (Take, &[0]),
                (Free, &[0]),
                (Take, &[1, 2, 0]),
            ],
        },
        // One in the middle is merged, and the others stay in order, of small ones.
        Order {
            size: 200,
            steps: &[(Free, &[0, 2, 4]), (Join, &[2]), (Take, &[4, 0])],
        },
        // And of large ones.
        Order {
            size: 504,
            steps: &[(Free, &[0, 2, 4]), (Join, &[2]), (Take, &[0, 4])],
        },
        // The order is that of the merges, of small ones.
        Order {
            size: 200,
            steps: &[(Free, &[0, 1, 2]), (Join, &[1, 2, 0]), (Long, &[0, 2, 1])],
        },
        // And of those that became large by it.
        Order {
            size: 232,
            steps: &[(Free, &[0, 1, 2]), (Join, &[1, 2, 0]), (Long, &[1, 2, 0])],
        },
    ];
    for row in &rows {
        serve_order::<Brand, HostRuntime>(&rt, rt.alloc(), row, Blank::new(1))?;
    }
    Ok(())
}
