ghost use Rattle.std.specs.Prelude.{◌≡◌, ◌-◌, ◌<◌, ◌≤◌, Some, IfOk, option_map};
ghost use Rattle.std.specs.Int.{IsPowerOfTwo};
ghost use Rattle.dlmalloc_chunks.specs.declared.extent.Kind.TheVariants.{Used};
ghost use Rattle.dlmalloc.specs.Extents.{extent_at};
ghost use Rattle.dlmalloc.specs.State.{extents_in};
ghost use Rattle.dlmalloc.specs.Binned.{IsBinned};
ghost use Rattle.dlmalloc.specs.Heap.{state_of, IsSound};

use crate::checks::same;
use dlmalloc::{Dlmalloc, Extent, ExtentList, Kind, MallocError};
use heap_memory::{FlatStep, FlatSystem, GrantFault, Links, Steps};
use std::alloc::{AllocError, Global};
use std::process::Abort;
use std::sync::ledger::{Blank, Ledger};
use std::test::Fail;

/// A heap whose system gives one region, of 65536 bytes at 0x400000.
pub(crate) fn flat_heap(alloc: Global) -> Result<Dlmalloc<FlatSystem>, AllocError>
    ensures sound { IfOk result (λ heap. IsSound ⟦<FlatSystem as Links>⟧.regions ⟦<FlatSystem as Links>⟧.word heap) }
    ensures linked { IfOk result (λ heap. IsBinned ⟦<FlatSystem as Links>⟧.regions ⟦<FlatSystem as Links>⟧.word heap) }
{
    let mut script = Vec::new(alloc);
    script.push(FlatStep::Give {
        base: 0x40_0000,
        size: 65536,
        flags: 0,
    })?;
    let system = FlatSystem::new(alloc, script, true, true, 4096)?;
    Ok(Dlmalloc::new_with_allocator(system))
}

/// A call of a heap.
#[derive(Clone, Copy)]
pub(crate) enum Call {
    /// Asks for a block of a size, and is given this answer.
    Malloc(u64, Result<u64, MallocError>),
    /// Asks for a block of a size at an alignment, and is given this answer.
    Aligned(u64, u64, Result<u64, MallocError>),
    /// The same by `c_memalign`, which takes the alignment first.
    Memalign(u64, u64, Result<u64, MallocError>),
    /// Asks for a cleared block of a size at an alignment, and is given this answer.
    Calloc(u64, u64, Result<u64, MallocError>),
    /// Gives the block at an address, of a size and an alignment, another size, and is given this answer.
    Realloc(u64, u64, u64, u64, Result<u64, MallocError>),
    /// The same by `c_realloc`, which takes only the new size.
    CRealloc(u64, u64, Result<u64, MallocError>),
    /// Frees the block at an address.
    Free(u64),
    /// Asks for multiples of another number of bytes from now on.
    Granularity(u64),
    /// Trims the top down to some bytes, and is given this answer.
    Trim(u64, bool),
    /// Makes a release pass, by a trim that cuts no top: this many bytes go back. There is a segment.
    Pass(u64),
    /// Makes such a pass each time this many large chunks are freed, from now on.
    Rate(u64),
    /// Checks that this many are to be freed before the next pass.
    Countdown(u64),
    /// Checks that the trim check is this.
    TrimCheck(u64),
}

/// The kind and the size of the extent that begins at an address, if one does.
fn chunk_at(extents: &[Extent], at: u64) -> Option<(Kind, u64)>
    ensures { result ≡ option_map (λ extent. (extent.kind, extent.size)) (extent_at at extents.now) }
{
    extents
        .iter()
        .find(|extent| extent.at == at)
        .map(|extent| (extent.kind, extent.size))
}

/// The size of the chunk of the block at an address, which has to be there.
fn chunk_of<L: Ledger, R: Abort>(
    rt: &R,
    alloc: Global,
    heap: &Dlmalloc<FlatSystem>,
    address: u64,
    steps: &mut Steps<L>,
) -> Result<u64, Fail>
    requires { IsSound ⟦<FlatSystem as Links>⟧.regions ⟦<FlatSystem as Links>⟧.word heap.now }
    ensures { IfOk result (λ size. (16 ≤ address) × (32 ≤ size)
        × (extent_at (address - 16) (extents_in (state_of ⟦<FlatSystem as Links>⟧.word heap.now)) ≡ Some (record { at = address - 16; size = size; kind = Used }))) }
{
    let extents = heap.extents(alloc, steps)?;
    assert!(rt; address >= 16);
    match chunk_at(extents.as_slice(), address - 16) {
        Some((Kind::Used, size)) => Ok(size),
        _ => panic!(rt; "no block at {address:#x}"),
    }
}

/// More bytes than a top of these rows has.
const LONG: u64 = 1 << 32;

/// The bytes of some extents.
fn bytes_of(extents: &[Extent]) -> u64 {
    extents
        .iter()
        .fold(0u64, |bytes, extent| bytes.saturating_add(extent.size))
}

/// An alignment of a row, which has to be a power of two.
fn power<R: Abort>(rt: &R, align: u64) -> u64
    ensures { IsPowerOfTwo result }
{
    if align.is_power_of_two() {
        return align;
    }
    panic!(rt; "no power of two: {align}")
}

/// Makes a call.
pub(crate) fn apply<L: Ledger, R: Abort>(
    rt: &R,
    alloc: Global,
    heap: &mut Dlmalloc<FlatSystem>,
    call: Call,
    steps: &mut Steps<L>,
) -> Result<(), Fail>
    requires sound { IsSound ⟦<FlatSystem as Links>⟧.regions ⟦<FlatSystem as Links>⟧.word heap.old }
    requires linked { IsBinned ⟦<FlatSystem as Links>⟧.regions ⟦<FlatSystem as Links>⟧.word heap.old }
    ensures sound { IsSound ⟦<FlatSystem as Links>⟧.regions ⟦<FlatSystem as Links>⟧.word heap.new }
    ensures linked { IsBinned ⟦<FlatSystem as Links>⟧.regions ⟦<FlatSystem as Links>⟧.word heap.new }
{
    match call {
        Call::Malloc(size, answer) => {
            same(rt, heap.malloc(size, 16, steps), answer);
        }
        Call::Aligned(size, align, answer) => {
            same(rt, heap.malloc(size, power(rt, align), steps), answer);
        }
        Call::Memalign(align, size, answer) => {
            same(rt, heap.c_memalign(power(rt, align), size, steps), answer);
        }
        Call::Calloc(size, align, answer) => {
            same(rt, heap.calloc(size, power(rt, align), steps), answer);
        }
        Call::Granularity(granularity) => assert!(rt; heap.set_granularity(granularity)),
        Call::Trim(pad, answer) => same(rt, heap.trim(pad, steps), answer),
        Call::Pass(released) => {
            let before = bytes_of(heap.extents(alloc, steps)?.as_slice());
            assert!(rt; before > 0);
            same(rt, heap.trim(LONG, steps), released > 0);
            let after = bytes_of(heap.extents(alloc, steps)?.as_slice());
            same(rt, before.saturating_sub(after), released);
        }
        Call::Rate(rate) => heap.set_max_release_check_rate(rate),
        Call::Countdown(checks) => same(rt, heap.release_checks(), checks),
        Call::TrimCheck(check) => same(rt, heap.trim_check(), check),
        Call::Realloc(address, old_size, align, size, answer) => {
            let chunk = chunk_of(rt, alloc, heap, address, steps)?;
            assert!(rt; chunk >= old_size && chunk - old_size >= 8 && chunk - old_size < 80);
            same(
                rt,
                heap.realloc(address, old_size, power(rt, align), size, steps),
                answer,
            );
        }
        Call::CRealloc(address, size, answer) => {
            chunk_of(rt, alloc, heap, address, steps)?;
            same(rt, heap.c_realloc(Some(address), size, steps), answer);
        }
        Call::Free(address) => {
            chunk_of(rt, alloc, heap, address, steps)?;
            heap.c_free(Some(address), steps);
        }
    }
    Ok(())
}

/// Makes calls, one after the other.
pub(crate) fn apply_all<L: Ledger, R: Abort>(
    rt: &R,
    alloc: Global,
    heap: &mut Dlmalloc<FlatSystem>,
    calls: &[Call],
    steps: &mut Steps<L>,
) -> Result<(), Fail>
    requires sound { IsSound ⟦<FlatSystem as Links>⟧.regions ⟦<FlatSystem as Links>⟧.word heap.old }
    requires linked { IsBinned ⟦<FlatSystem as Links>⟧.regions ⟦<FlatSystem as Links>⟧.word heap.old }
    ensures sound { IsSound ⟦<FlatSystem as Links>⟧.regions ⟦<FlatSystem as Links>⟧.word heap.new }
    ensures linked { IsBinned ⟦<FlatSystem as Links>⟧.regions ⟦<FlatSystem as Links>⟧.word heap.new }
{
    for &call in calls {
        apply(rt, alloc, heap, call, steps)?;
    }
    Ok(())
}

/// An extent, by its kind, its address and its size.
pub(crate) type Run = (Kind, u64, u64);

/// The foot at the end of the region.
pub(crate) const FOOT: Run = (Kind::Foot, 0x40_ffb0, 80);

/// The trim check of a heap whose top is new.
pub(crate) const TRIM_THRESHOLD: u64 = 2_097_152;

pub(crate) const NO_SPACE: Result<u64, MallocError> = Err(MallocError::System(GrantFault::NoSpace));

pub(crate) const TOO_LARGE: Result<u64, MallocError> = Err(MallocError::TooLarge);

/// The calls of a new heap.
pub(crate) const NEW: &[Call] = &[];

/// Calls of a heap, after those that were made before, and its extents after them.
#[derive(Drop)]
pub(crate) struct Row {
    pub(crate) rule: &'static str,
    pub(crate) before: &'static [Call],
    pub(crate) calls: &'static [Call],
    pub(crate) extents: &'static [Run],
}

/// Makes the calls of a row.
fn serve_row<L: Ledger, R: Abort>(
    rt: &R,
    alloc: Global,
    heap: &mut Dlmalloc<FlatSystem>,
    row: &Row,
    steps: &mut Steps<L>,
) -> Result<(), Fail>
    requires sound { IsSound ⟦<FlatSystem as Links>⟧.regions ⟦<FlatSystem as Links>⟧.word heap.old }
    requires linked { IsBinned ⟦<FlatSystem as Links>⟧.regions ⟦<FlatSystem as Links>⟧.word heap.old }
{
    apply_all(rt, alloc, heap, row.before, steps)?;
    apply_all(rt, alloc, heap, row.calls, steps)?;
    expect_extents(rt, alloc, heap, row.rule, row.extents, steps)
}

/// Makes the calls of a row with a new heap.
pub(crate) fn serve<L: Ledger, R: Abort>(
    rt: &R,
    alloc: Global,
    row: &Row,
    blank: Blank,
) -> Result<(), Fail>
    requires name { blank.name ≡ L.name }
    requires parts { blank.parts ≡ L.parts }
    requires some { 0 < blank.parts }
{
    let mut steps = Steps::<L>::new(blank);
    let mut heap = flat_heap(alloc)?;
    serve_row(rt, alloc, &mut heap, row, &mut steps)
}

/// The extents of a heap are these, by a rule.
pub(crate) fn expect_extents<L: Ledger, R: Abort>(
    rt: &R,
    alloc: Global,
    heap: &Dlmalloc<FlatSystem>,
    rule: &str,
    runs: &[Run],
    steps: &mut Steps<L>,
) -> Result<(), Fail>
    requires { IsSound ⟦<FlatSystem as Links>⟧.regions ⟦<FlatSystem as Links>⟧.word heap.now }
{
    let mut expected = ExtentList::new(alloc);
    for &(kind, at, size) in runs {
        expected.push(Extent { at, size, kind })?;
    }
    let extents = heap.extents(alloc, steps)?;
    assert_eq!(rt; extents.as_slice(), expected.as_slice(), "{rule}");
    Ok(())
}
