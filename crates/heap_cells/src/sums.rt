// In which column how many bytes of a row come, and in which how many go.
ghost use Rattle.std.specs.Prelude.{◌≡◌, ◌<◌, ◌≤◌, ◌+◌, ◌^◌, ℕ, nat_eq, if◌then◌else◌, IfOk, slice_index, vec_len};
ghost use Rattle.std.specs.List.{sum_by};
ghost use Rattle.heap_cells.specs.Spans.{overlap};
ghost use Rattle.heap_cells.specs.Shades.{IsCellScale, cell_columns};
ghost use Rattle.heap_cells.specs.Changes.{first_column, change_call, changed_bytes};

use crate::scale::{Row, Scale, columns_of};
use crate::spans::{Span, overlap};
use std::alloc::{AllocError, Global};

/// What happens to a span.
#[derive(Clone, Copy, PartialEq, Eq, Debug)]
pub enum Change {
    Comes,
    Goes,
}

// The call with which it happens.
fn call_of(change: Change, span: Span) -> u64
    ensures { result ≡ change_call change span }
{
    match change {
        Change::Comes => span.born,
        Change::Goes => span.born.max(span.end),
    }
}

// The first column that shows the heap after a call.
fn first_column(scale: Scale, call: u64) -> u128
    requires scale { IsCellScale scale }
    ensures { result ≡ first_column scale call }
{
    let columns = u128::from(columns_of(scale));
    ((u128::from(call) + 1) * columns - 1) / u128::from(scale.calls)
}

// Adds the bytes of a span in its column.
fn count(sums: &mut Vec<u128>, scale: Scale, change: Change, row: Row, span: Span)
    requires scale { IsCellScale scale }
    requires small { (k : ℕ) → k < vec_len sums.old → slice_index sums.old.items k ≤ 2 ^ 127 }
    ensures each { (k : ℕ) → k < vec_len sums.old → slice_index sums.new.items k ≡ slice_index sums.old.items k + (if nat_eq k (first_column scale (change_call change span)) then overlap row.low row.high span else 0) }
    ensures length { vec_len sums.new ≡ vec_len sums.old }
    ensures few { overlap row.low row.high span < 2 ^ 64 }
{
    let bytes = overlap(span, row.low, row.high);
    if bytes == 0 {
        return;
    }
    let column = first_column(scale, call_of(change, span));
    if column < sums.len() as u128 {
        sums[column as usize] += bytes;
    }
}

/// For each column the bytes of a row that come with it, or that go.
pub fn changes(
    alloc: Global,
    scale: Scale,
    change: Change,
    row: Row,
    spans: &[Span],
) -> Result<Vec<u128>, AllocError>
    requires scale { IsCellScale scale }
    ensures each { IfOk result (λ sums. (k : ℕ) → k < cell_columns scale → slice_index sums.items k ≡ changed_bytes scale change row spans.now k) }
    ensures length { IfOk result (λ sums. vec_len sums ≡ cell_columns scale) }
    ensures few { IfOk result (λ sums. sum_by (overlap row.low row.high) spans.now < 2 ^ 127) }
{
    let mut sums = vec![in alloc; 0u128; columns_of(scale) as usize]?;
    for span in spans {
        count(&mut sums, scale, change, row, *span);
    }
    Ok(sums)
}
