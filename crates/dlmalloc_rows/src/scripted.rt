// Heaps over systems that grant by a script, and tables of their calls.
ghost use Rattle.std.specs.Prelude.{◌≡◌, ◌<◌, IfOk};
ghost use Rattle.dlmalloc.specs.Binned.{IsBinned};
ghost use Rattle.dlmalloc.specs.Heap.{IsSound};

use crate::calls::{Call, Run, apply_all, expect_extents};
use dlmalloc::Dlmalloc;
use heap_memory::{FlatStep, FlatSystem, Links, Steps};
use std::alloc::{AllocError, Global};
use std::process::Abort;
use std::sync::ledger::{Blank, Ledger};
use std::test::Fail;

/// What a system gives: where it begins, how many bytes, and its flags.
pub(crate) type Give = (u64, u64, u32);

/// Calls of a new heap of a granularity over a system that gives regions, and takes them back, or parts of them, or
/// does not; the extents after them, and the bytes that the heap gives back in the end.
#[derive(Drop)]
pub(crate) struct Given {
    pub(crate) rule: &'static str,
    pub(crate) granularity: u64,
    pub(crate) gives: &'static [Give],
    pub(crate) frees: bool,
    pub(crate) parts: bool,
    pub(crate) calls: &'static [Call],
    pub(crate) extents: &'static [Run],
    pub(crate) destroyed: u64,
}

/// The script that gives regions, and takes a further step before the one at a place.
pub(crate) fn script_of(
    alloc: Global,
    gives: &[Give],
    further: Option<(usize, FlatStep)>,
) -> Result<Vec<FlatStep>, AllocError> {
    let mut script = Vec::new(alloc);
    for (i, &(base, size, flags)) in gives.iter().enumerate() {
        match further {
            Some((place, step)) if place == i => script.push(step)?,
            _ => (),
        }
        script.push(FlatStep::Give { base, size, flags })?;
    }
    Ok(script)
}

/// A heap of a granularity over a system with a script.
pub(crate) fn scripted_heap(
    alloc: Global,
    granularity: u64,
    script: Vec<FlatStep>,
    frees: bool,
    parts: bool,
) -> Result<Dlmalloc<FlatSystem>, AllocError>
    ensures sound { IfOk result (λ heap. IsSound ⟦<FlatSystem as Links>⟧.regions ⟦<FlatSystem as Links>⟧.word heap) }
    ensures linked { IfOk result (λ heap. IsBinned ⟦<FlatSystem as Links>⟧.regions ⟦<FlatSystem as Links>⟧.word heap) }
{
    let mut heap = Dlmalloc::new_with_allocator(FlatSystem::new(
        alloc, script, frees, parts, 4096,
    )?);
    heap.set_granularity(granularity);
    Ok(heap)
}

/// Makes the calls of a row.
fn serve_calls<L: Ledger, R: Abort>(
    rt: &R,
    alloc: Global,
    heap: &mut Dlmalloc<FlatSystem>,
    row: &Given,
    steps: &mut Steps<L>,
) -> Result<(), Fail>
    requires sound { IsSound ⟦<FlatSystem as Links>⟧.regions ⟦<FlatSystem as Links>⟧.word heap.old }
    requires linked { IsBinned ⟦<FlatSystem as Links>⟧.regions ⟦<FlatSystem as Links>⟧.word heap.old }
    ensures sound { IsSound ⟦<FlatSystem as Links>⟧.regions ⟦<FlatSystem as Links>⟧.word heap.new }
{
    apply_all(rt, alloc, heap, row.calls, steps)?;
    expect_extents(rt, alloc, heap, row.rule, row.extents, steps)
}

/// Makes the calls of a row with a new heap, and ends it.
pub(crate) fn serve_given<L: Ledger, R: Abort>(
    rt: &R,
    alloc: Global,
    row: &Given,
    blank: Blank,
) -> Result<(), Fail>
    requires name { blank.name ≡ L.name }
    requires parts { blank.parts ≡ L.parts }
    requires some { 0 < blank.parts }
{
    let mut steps = Steps::<L>::new(blank);
    let script = script_of(alloc, row.gives, None)?;
    let mut heap = scripted_heap(alloc, row.granularity, script, row.frees, row.parts)?;
    serve_calls(rt, alloc, &mut heap, row, &mut steps)?;
    let (destroyed, _) = heap.destroy(&mut steps);
    assert_eq!(rt; destroyed, row.destroyed, "{}", row.rule);
    Ok(())
}
