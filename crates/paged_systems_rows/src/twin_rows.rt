//! A heap over pages with flat words beside them: it makes the calls of worked runs, and after each of them the words of
//! both memories are compared.
ghost use Rattle.std.specs.Prelude.{◌≡◌, ◌-◌, ◌<◌, ◌≤◌, Some, IfOk, option_map};
ghost use Rattle.std.specs.Int.{IsPowerOfTwo};
ghost use Rattle.dlmalloc_chunks.specs.declared.extent.Kind.TheVariants.{Used};
ghost use Rattle.dlmalloc.specs.Extents.{extent_at};
ghost use Rattle.dlmalloc.specs.State.{extents_in};
ghost use Rattle.dlmalloc.specs.Heap.{state_of};

use crate::checks::same;
use dlmalloc::{Extent, Kind};
use heap_memory::Links;
use kernel_heap::{Region, TwinSystem};
use paging_core::{Frames, Page, PhysFrame, VirtAddr, walk};
use sound_heap::Heap;
use std::alloc::Global;
use std::process::Abort;
use std::test::Fail;

/// A call of a heap, and the answer that it gets.
#[derive(Clone, Copy)]
enum Call {
    /// Asks for multiples of another number of bytes from now on.
    Granularity(u64),
    /// Asks for a block of a size at an alignment, and is given its address.
    Malloc(u64, u64, Option<u64>),
    /// Asks for a cleared one.
    Calloc(u64, u64, Option<u64>),
    /// Gives the block at an address, of a size and an alignment, another size, and is given its address.
    Realloc(u64, u64, u64, u64, Option<u64>),
    /// Gives the block at an address another size, whatever its alignment, and is given its address.
    CRealloc(u64, u64, Option<u64>),
    /// Frees the block at an address.
    Free(u64),
    /// Trims the top down to some bytes, and is given this answer.
    Trim(u64, bool),
    /// Puts the first word of the block at an address.
    Store(u64, u64),
    /// Checks that the first word of the block at an address has this value in the bits of a mask.
    Load(u64, u64, u64),
}

/// Calls of a new heap over a window of 1024 pages from 0x400000 on and 1024 frames, and the free frames and the tables
/// at the end.
struct Row {
    rule: &'static str,
    calls: &'static [Call],
    end: (u64, u64),
}

const ROWS: &[Row] = &[
    Row {
        rule: "three blocks of one grant",
        calls: &[
            Call::Malloc(0, 16, Some(0x40_0010)),
            Call::Malloc(24, 16, Some(0x40_0030)),
            Call::Malloc(25, 16, Some(0x40_0050)),
        ],
        end: (1004, 4),
    },
    Row {
        rule: "a block across two grants",
        calls: &[
            Call::Malloc(65432, 16, Some(0x40_0010)),
            Call::Malloc(8, 16, Some(0x40_ffb0)),
            Call::Malloc(100, 16, Some(0x40_ffd0)),
            Call::Store(0x40_ffd0, 0x1122_3344_5566_7788),
            Call::Load(0x40_ffd0, u64::MAX, 0x1122_3344_5566_7788),
        ],
        end: (988, 4),
    },
    Row {
        rule: "an aligned block moves, with its bytes",
        calls: &[
            Call::Malloc(100, 4096, Some(0x40_1000)),
            Call::Store(0x40_1000, 77),
            Call::Realloc(0x40_1000, 100, 4096, 50, Some(0x40_2000)),
            Call::Load(0x40_2000, u64::MAX, 77),
            Call::CRealloc(0x40_2000, 40, Some(0x40_2000)),
            Call::Load(0x40_2000, u64::MAX, 77),
        ],
        end: (1004, 4),
    },
    Row {
        rule: "a trim gives the end of a grant back",
        calls: &[
            Call::Granularity(4096),
            Call::Malloc(20000, 16, Some(0x40_0010)),
            Call::Free(0x40_0010),
            Call::Trim(0, true),
        ],
        end: (1019, 4),
    },
    Row {
        rule: "what went back is granted again, cleared",
        calls: &[
            Call::Malloc(70000, 16, Some(0x40_0010)),
            Call::Malloc(100, 16, Some(0x41_1190)),
            Call::Store(0x41_1190, 77),
            Call::Free(0x41_1190),
            Call::Free(0x40_0010),
            Call::Trim(0, true),
            Call::Malloc(70000, 16, Some(0x40_0010)),
            Call::Malloc(100, 16, Some(0x41_1190)),
            Call::Load(0x41_1190, u64::MAX, 0),
        ],
        end: (972, 4),
    },
    Row {
        rule: "a free gives the end of a large page back",
        calls: &[
            Call::Malloc(3_000_000, 16, Some(0x40_0010)),
            Call::Store(0x40_0010, 5),
            Call::Free(0x40_0010),
            Call::Malloc(65400, 16, Some(0x40_0010)),
            Call::Malloc(100, 16, Some(0x40_ff90)),
            Call::Store(0x40_ff90, 6),
        ],
        end: (987, 5),
    },
    Row {
        rule: "bytes are cleared, kept in place and copied",
        calls: &[
            Call::Calloc(8, 16, Some(0x40_0010)),
            Call::Load(0x40_0010, u64::MAX, 0),
            Call::Store(0x40_0010, 0x0807_0605_0403_0201),
            Call::Realloc(0x40_0010, 8, 16, 4, Some(0x40_0010)),
            Call::Realloc(0x40_0010, 4, 16, 100, Some(0x40_0010)),
            Call::Load(0x40_0010, 0xffff_ffff, 0x0403_0201),
            Call::Malloc(8, 16, Some(0x40_0080)),
            Call::Realloc(0x40_0010, 100, 16, 200, Some(0x40_00a0)),
            Call::Load(0x40_00a0, 0xffff_ffff, 0x0403_0201),
            Call::Malloc(100, 16, Some(0x40_0010)),
        ],
        end: (1004, 4),
    },
    Row {
        rule: "a chunk is freed and cut twice",
        calls: &[
            Call::Malloc(1000, 16, Some(0x40_0010)),
            Call::Malloc(8, 16, Some(0x40_0400)),
            Call::Free(0x40_0010),
            Call::Malloc(24, 16, Some(0x40_0010)),
            Call::Malloc(24, 16, Some(0x40_0030)),
        ],
        end: (1004, 4),
    },
];

/// The word at an address of a mapped page, at which a walk over the raw tables arrives.
fn raw_word<R: Abort>(rt: &R, frames: &Frames, root: PhysFrame, at: u64) -> u64 {
    let address = match VirtAddr::try_new(at) {
        Ok(address) => address,
        Err(_) => panic!(rt; "not canonical: {at:#x}"),
    };
    assert!(rt; root.number() < u64::from(frames.count()));
    match walk(frames, root, Page::containing_address(address)) {
        Some(mapped) => frames.word(mapped.frame, (at % 4096 / 8) as u16),
        None => panic!(rt; "not mapped: {at:#x}"),
    }
}

/// The word at an address, which both memories have to have.
pub(crate) fn word_of_both<R: Abort>(rt: &R, system: &TwinSystem, at: u64, rule: &str) -> u64 {
    let word = raw_word(rt, system.paged().frames(), system.paged().root(), at);
    assert_eq!(rt; system.flat_word(at), Some(word), "{rule}: {at:#x}");
    word
}

/// Checks that both memories have the same word at each place of a region.
fn expect_same<R: Abort>(rt: &R, system: &TwinSystem, region: &Region, rule: &str) {
    assert!(rt; region.pages < 1 << 40);
    for index in 0..512 * region.pages {
        assert!(rt; region.start < 1 << 48 && index < 1 << 49);
        word_of_both(rt, system, region.start + 8 * index, rule);
    }
}

/// Checks that both memories have the same word at each granted place.
fn expect_twins<R: Abort>(
    rt: &R,
    alloc: Global,
    system: &TwinSystem,
    rule: &str,
) -> Result<(), Fail> {
    let regions = system.paged().regions(alloc)?;
    for region in regions.as_slice() {
        expect_same(rt, system, region, rule);
    }
    Ok(())
}

/// The kind and the size of the extent that begins at an address, if one does.
fn chunk_at(extents: &[Extent], at: u64) -> Option<(Kind, u64)>
    ensures { result ≡ option_map (λ extent. (extent.kind, extent.size)) (extent_at at extents.now) }
{
    extents
        .iter()
        .find(|extent| extent.at == at)
        .map(|extent| (extent.kind, extent.size))
}

/// The size of the chunk of the block at an address, which has to be there.
fn chunk_of<R: Abort>(
    rt: &R,
    alloc: Global,
    heap: &Heap<TwinSystem>,
    address: u64,
) -> Result<u64, Fail>
    ensures { IfOk result (λ size. (16 ≤ address) × (32 ≤ size)
        × (extent_at (address - 16) (extents_in (state_of ⟦<TwinSystem as Links>⟧.word heap.now)) ≡ Some (record { at = address - 16; size = size; kind = Used }))) }
{
    heap.law_intact();
    let extents = heap.extents(alloc)?;
    assert!(rt; address >= 16);
    match chunk_at(extents.as_slice(), address - 16) {
        Some((Kind::Used, size)) => Ok(size),
        _ => panic!(rt; "no block at {address:#x}"),
    }
}

/// An alignment of a row, which has to be a power of two.
fn power<R: Abort>(rt: &R, align: u64) -> u64
    ensures { IsPowerOfTwo result }
{
    if align.is_power_of_two() {
        return align;
    }
    panic!(rt; "no power of two: {align}")
}

/// Makes a call.
fn apply<R: Abort>(
    rt: &R,
    alloc: Global,
    heap: &mut Heap<TwinSystem>,
    call: Call,
) -> Result<(), Fail> {
    match call {
        Call::Granularity(granularity) => assert!(rt; heap.set_granularity(granularity)),
        Call::Malloc(size, align, address) => same(rt, heap.malloc(size, align).ok(), address),
        Call::Calloc(size, align, address) => same(rt, heap.calloc(size, align).ok(), address),
        Call::Realloc(address, old_size, align, size, to) => {
            let chunk = chunk_of(rt, alloc, heap, address)?;
            assert!(rt; chunk >= old_size && chunk - old_size >= 8 && chunk - old_size < 80);
            same(
                rt,
                heap.realloc_aligned(address, old_size, power(rt, align), size)
                    .ok(),
                to,
            );
        }
        Call::CRealloc(address, size, to) => {
            chunk_of(rt, alloc, heap, address)?;
            same(rt, heap.realloc(address, size).ok(), to);
        }
        Call::Free(address) => {
            chunk_of(rt, alloc, heap, address)?;
            heap.free(address);
        }
        Call::Trim(pad, answer) => same(rt, heap.trim(pad), answer),
        Call::Store(address, value) => {
            chunk_of(rt, alloc, heap, address)?;
            heap.store(address, 0, value);
        }
        Call::Load(address, mask, value) => {
            chunk_of(rt, alloc, heap, address)?;
            same(rt, heap.load(address, 0) & mask, value);
        }
    }
    Ok(())
}

/// Makes the calls of a row over a new heap. After each of them both memories are equal.
fn serve<R: Abort>(rt: &R, alloc: Global, row: &Row) -> Result<(), Fail> {
    let mut heap = Heap::new(TwinSystem::new(alloc, 0x40_0000, 1024, 1024)?);
    for &call in row.calls {
        apply(rt, alloc, &mut heap, call)?;
        expect_twins(rt, alloc, heap.system(), row.rule)?;
    }
    let system = heap.system().paged();
    assert_eq!(rt;
        (system.free_frames(), system.tables()),
        row.end,
        "{}",
        row.rule
    );
    Ok(())
}

#[test]
fn rows_leave_both_memories_equal(rt: HostRuntime) -> Result<(), Fail> {
    for row in ROWS {
        serve(&rt, rt.alloc(), row)?;
    }
    Ok(())
}
