// Bytes that are there for a part of a run.
ghost use Rattle.std.specs.Prelude.{◌≡◌, ◌<◌, ◌^◌, IfOk};
ghost use Rattle.heap_cells.specs.Spans.{stay_span, stay_spans, held_span, held_spans, overlap, spans_in};

use heap_history::{Held, Stay};
use std::alloc::{AllocError, Global};

/// Bytes from an address on, which are there from the call `born` on to the last call before `end`.
#[derive(Clone, Copy, PartialEq, Eq, Debug)]
pub struct Span {
    pub start: u64,
    pub bytes: u64,
    pub born: u64,
    pub end: u64,
}

// What a block covers while it stays.
fn stay_span(stay: Stay) -> Span
    ensures { result ≡ stay_span stay }
{
    Span {
        start: stay.address,
        bytes: stay.size.max(1),
        born: stay.born,
        end: stay.end,
    }
}

/// What blocks cover while they stay.
pub fn stay_spans(alloc: Global, stays: &[Stay]) -> Result<Vec<Span>, AllocError>
    ensures { IfOk result (λ spans. spans.items ≡ stay_spans stays.now) }
{
    stays.iter().map(|stay| stay_span(*stay)).collect(alloc)
}

/// The bytes of a region at most.
const MOST: u128 = 0xffff_ffff_ffff_ffff;

// The bytes of pages while the heap has them.
fn held_span(held: Held) -> Span
    ensures { result ≡ held_span held }
{
    Span {
        start: held.start,
        bytes: (4096 * u128::from(held.pages)).min(MOST) as u64,
        born: held.born,
        end: held.end,
    }
}

/// The bytes of regions while the heap has them.
pub fn held_spans(alloc: Global, heap: &[Held]) -> Result<Vec<Span>, AllocError>
    ensures { IfOk result (λ spans. spans.items ≡ held_spans heap.now) }
{
    heap.iter().map(|held| held_span(*held)).collect(alloc)
}

/// The bytes from one address to another that a span has.
pub fn overlap(span: Span, low: u128, high: u128) -> u128
    ensures value { result ≡ overlap low high span }
    ensures few { result < 2 ^ 64 }
{
    let start = u128::from(span.start);
    let end = start + u128::from(span.bytes);
    end.min(high).saturating_sub(start.max(low))
}

/// The spans that have a byte from one address to another.
pub fn spans_in(
    alloc: Global,
    spans: &[Span],
    low: u128,
    high: u128,
) -> Result<Vec<Span>, AllocError>
    ensures { IfOk result (λ near. near.items ≡ spans_in low high spans.now) }
{
    spans
        .iter()
        .filter(|span| overlap(**span, low, high) > 0)
        .copied()
        .collect(alloc)
}
