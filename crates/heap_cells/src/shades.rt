// The shades of a row of cells.
ghost use Rattle.std.specs.Prelude.{◌≡◌, ◌<◌, ◌≤◌, ◌^◌, IfOk};
ghost use Rattle.heap_cells.specs.Shades.{IsCellScale, shade_of, row_shades};

use crate::scale::{Row, Scale, columns_of};
use crate::spans::Span;
use crate::sums::{Change, changes};
use std::alloc::{AllocError, Global};

// The shade of a cell with `used` used bytes, of `shades`.
fn shade_of(shades: u128, used: u128, bytes: u128) -> u128
    requires shades { shades ≤ 4 }
    requires bytes { (1 ≤ bytes) × (bytes < 2 ^ 100) }
    ensures { result ≡ shade_of shades used bytes }
{
    (shades * used.min(bytes) + (bytes - 1)) / bytes
}

/// The shades of all cells of a row.
pub fn row_shades(
    alloc: Global,
    scale: Scale,
    shades: u128,
    row: Row,
    spans: &[Span],
) -> Result<Vec<u128>, AllocError>
    requires scale { IsCellScale scale }
    requires shades { shades ≤ 4 }
    requires row { (row.low < row.high) × (row.high < 2 ^ 100) }
    ensures { IfOk result (λ all. all.items ≡ row_shades scale shades row spans.now) }
{
    let came = changes(alloc, scale, Change::Comes, row, spans)?;
    let went = changes(alloc, scale, Change::Goes, row, spans)?;
    let (mut since, mut until) = (0, 0);
    let mut all = Vec::new(alloc);
    for column in 0..columns_of(scale) as usize {
        since += came[column];
        until += went[column];
        all.push(shade_of(shades, since - until, row.high - row.low))?;
    }
    Ok(all)
}
