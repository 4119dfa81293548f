// Ranges between neighbouring edges, and which of them are folded.
ghost use Rattle.std.specs.Prelude.{◌≡◌, ◌<◌, IfOk, if◌then◌else◌};
ghost use Rattle.heap_time.specs.Axis.{ranges_of, range_size, is_folded, greater, greatest_range, scaled_bytes, is_too_great, folds_of};

use std::alloc::{AllocError, Global};

/// Addresses between neighbouring edges.
#[derive(Clone, Copy, PartialEq, Eq, Debug)]
pub struct Range {
    /// The first address.
    pub low: u64,
    /// The first address above.
    pub high: u64,
}

/// Which ranges are folded: those that are greater than the last one that was folded, or as great and not above it.
#[derive(Clone, Copy, PartialEq, Eq, Debug)]
pub struct Folds {
    /// The bytes of that one.
    pub size: u128,
    /// Its first address.
    pub start: u64,
}

/// The ranges between neighbouring edges.
#[tactic(auto, using(crate::proofs::Steps::ranges_none, crate::proofs::Steps::ranges_begin))]
pub fn ranges_of(alloc: Global, edges: &[u64]) -> Result<Vec<Range>, AllocError>
    ensures { IfOk result (λ ranges. ranges.items ≡ ranges_of edges.now) }
{
    let mut ranges = Vec::new(alloc);
    if edges.len() == 0 {
        return Ok(ranges);
    }
    for next in 1..edges.len() {
        ranges.push(Range {
            low: edges[next - 1],
            high: edges[next],
        })?;
    }
    Ok(ranges)
}

/// How many bytes a range has.
pub fn size_of(range: Range) -> u64
    ensures { result ≡ range_size range }
{
    range.high.saturating_sub(range.low)
}

/// Whether a range is folded.
pub fn is_folded(folds: Folds, range: Range) -> bool
    ensures { result ≡ is_folded folds range }
{
    let size = u128::from(size_of(range));
    folds.size < size || folds.size == size && range.low <= folds.start
}

// Of two ranges that are not folded the greater, and of equals the first.
fn greater(folds: Folds, best: Range, range: Range) -> Range
    ensures { result ≡ greater folds best range }
{
    if is_folded(folds, range) {
        best
    } else if size_of(best) < size_of(range) {
        range
    } else {
        best
    }
}

// The greatest range that is not folded, and of equals the lowest.
#[tactic(auto, unfolding(crate::specs::Axis::greatest_range), using(std::proofs::lemmas::List::Sums::fold_more))]
fn greatest(folds: Folds, ranges: &[Range]) -> Range
    ensures { result ≡ greatest_range folds ranges.now }
{
    let mut best = Range { low: 0, high: 0 };
    for range in ranges {
        best = greater(folds, best, *range);
    }
    best
}

// The bytes of a range, if it is not folded.
fn scaled_size(folds: Folds, range: Range) -> u64
    ensures { result ≡ (if is_folded folds range then 0 else range_size range) }
{
    if is_folded(folds, range) {
        0
    } else {
        size_of(range)
    }
}

/// The bytes of all ranges that are not folded.
pub fn scaled_bytes(folds: Folds, ranges: &[Range]) -> u128
    ensures { result ≡ scaled_bytes folds ranges.now }
{
    let mut bytes = 0;
    for range in ranges {
        bytes += u128::from(scaled_size(folds, *range));
    }
    bytes
}

// Whether a range of this size is too great to stay to scale, if `left` bytes are to scale.
fn is_too_great(left: u128, size: u64) -> bool
    ensures { result ≡ is_too_great left size }
{
    1344 < left && left < 5 * u128::from(size)
}

/// Which ranges are folded.
#[tactic(auto, using(crate::proofs::Steps::folds_step, crate::proofs::Steps::folds_last))]
pub fn folds_of(ranges: &[Range]) -> Folds
    ensures { result ≡ folds_of ranges.now }
{
    let mut folds = Folds {
        size: 18_446_744_073_709_551_616,
        start: 0,
    };
    for _times in 0..10usize {
        let next = greatest(folds, ranges);
        if !is_too_great(scaled_bytes(folds, ranges), size_of(next)) {
            return folds;
        }
        folds = Folds {
            size: u128::from(size_of(next)),
            start: next.low,
        };
    }
    folds
}
