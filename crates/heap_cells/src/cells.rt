// A heap over a run of many calls, as cells.
ghost use Rattle.std.specs.Prelude.{◌≡◌, ◌<◌, ◌≤◌, ◌+◌, ◌++◌, length, nat_le, OnOk, IfOk, string_bytes};
ghost use Rattle.heap_cells.specs.Cells.{heap_bars, block_bars, coarse_text, spans_text, cells_text};

use crate::bars::Bar;
use crate::paths::push_paths;
use crate::rows::all_bars;
use crate::scale::Scale;
use crate::spans::{Span, held_spans, stay_spans};
use heap_history::{Band, Held, Stay};
use std::alloc::{AllocError, Global};

/// The bars of a drawing at most, if its cells can be greater.
const MOST: u128 = 16_000;

// The bars of the heap's regions, in cells of this side.
#[tactic(auto, unfolding(crate::specs::Cells::heap_bars))]
fn heap_bars(
    alloc: Global,
    side: u64,
    calls: u64,
    bands: &[Band],
    heap: &[Span],
) -> Result<Vec<Bar>, AllocError>
    requires calls { 0 < calls }
    requires side { (2 ≤ side) × (side ≤ 8) }
    ensures { IfOk result (λ bars. bars.items ≡ heap_bars side calls bands.now heap.now) }
{
    all_bars(alloc, Scale { calls, side }, 1, heap, bands)
}

// The bars of the blocks.
#[tactic(auto, unfolding(crate::specs::Cells::block_bars))]
fn block_bars(
    alloc: Global,
    side: u64,
    calls: u64,
    bands: &[Band],
    blocks: &[Span],
) -> Result<Vec<Bar>, AllocError>
    requires calls { 0 < calls }
    requires side { (2 ≤ side) × (side ≤ 8) }
    ensures { IfOk result (λ bars. bars.items ≡ block_bars side calls bands.now blocks.now) }
{
    all_bars(alloc, Scale { calls, side }, 4, blocks, bands)
}

// Whether there are few bars.
fn are_few(heap: &[Bar], blocks: &[Bar]) -> bool
    ensures { result ≡ nat_le (length heap.now + length blocks.now) 16000 }
{
    heap.len() as u128 + blocks.len() as u128 <= MOST
}

// Puts cells of 4 pixels at the end if they are few bars, and else of 8.
#[tactic(auto, unfolding(crate::specs::Cells::coarse_text))]
fn push_coarse(
    alloc: Global,
    out: &mut String,
    calls: u64,
    bands: &[Band],
    heap: &[Span],
    blocks: &[Span],
) -> Result<(), AllocError>
    requires { 0 < calls }
    ensures { OnOk result (string_bytes out.new ≡ string_bytes out.old ++ coarse_text calls bands.now heap.now blocks.now) }
{
    let below = heap_bars(alloc, 4, calls, bands, heap)?;
    let above = block_bars(alloc, 4, calls, bands, blocks)?;
    if are_few(&below, &above) {
        return push_paths(out, 4, &below, &above);
    }
    let wide_below = heap_bars(alloc, 8, calls, bands, heap)?;
    let wide_above = block_bars(alloc, 8, calls, bands, blocks)?;
    push_paths(out, 8, &wide_below, &wide_above)
}

// Puts the cells of a run that has calls at the end.
#[tactic(auto, unfolding(crate::specs::Cells::spans_text))]
fn push_spans(
    alloc: Global,
    out: &mut String,
    calls: u64,
    bands: &[Band],
    heap: &[Span],
    blocks: &[Span],
) -> Result<(), AllocError>
    requires { 0 < calls }
    ensures { OnOk result (string_bytes out.new ≡ string_bytes out.old ++ spans_text calls bands.now heap.now blocks.now) }
{
    let below = heap_bars(alloc, 2, calls, bands, heap)?;
    let above = block_bars(alloc, 2, calls, bands, blocks)?;
    if are_few(&below, &above) {
        return push_paths(out, 2, &below, &above);
    }
    push_coarse(alloc, out, calls, bands, heap, blocks)
}

/// Puts the heap over a run of `calls` calls at the end: in each band the heap's regions, and over them the stays of
/// blocks.
#[tactic(auto, unfolding(crate::specs::Cells::cells_text))]
pub fn push_cells(
    alloc: Global,
    out: &mut String,
    calls: u64,
    bands: &[Band],
    stays: &[Stay],
    heap: &[Held],
) -> Result<(), AllocError>
    ensures { OnOk result (string_bytes out.new ≡ string_bytes out.old ++ cells_text calls bands.now stays.now heap.now) }
{
    if calls == 0 {
        return Ok(());
    }
    let below = held_spans(alloc, heap)?;
    let above = stay_spans(alloc, stays)?;
    push_spans(alloc, out, calls, bands, &below, &above)
}
