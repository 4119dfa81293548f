// The rows of cells of bands.
ghost use Rattle.std.specs.Prelude.{◌≡◌, ◌<◌, ◌≤◌, ◌+◌, ◌^◌, ◌++◌, OnOk, IfOk};
ghost use Rattle.heap_cells.specs.Shades.{IsCellScale};
ghost use Rattle.heap_cells.specs.Rows.{IsDrawn, drawn_band, rows_of, row_start, row_at, row_bars, rows_from, band_bars, all_bars};

use crate::bars::{Bar, push_bars};
use crate::scale::{Row, Scale};
use crate::shades::row_shades;
use crate::spans::{Span, spans_in};
use heap_history::Band;
use std::alloc::{AllocError, Global};

/// An address that is above all others.
const HIGHEST: u128 = 1 << 80;

/// More pixels than a picture has.
const TALLEST: u128 = 1 << 40;

// A band as it is drawn.
fn drawn_band(band: Band) -> Band
    ensures { result ≡ drawn_band band }
{
    Band {
        low: band.low.min(HIGHEST),
        high: band.high.min(HIGHEST),
        folded: band.folded,
        y: band.y.min(TALLEST),
        height: band.height.min(TALLEST),
    }
}

// The number of rows of a band.
#[tactic(auto, using(crate::proofs::Numbers::quotient_least))]
fn rows_of(scale: Scale, band: Band) -> u128
    requires scale { IsCellScale scale }
    requires height { band.height ≤ 2 ^ 40 }
    ensures value { result ≡ rows_of scale band }
    ensures few { result ≤ 2 ^ 40 }
{
    band.height / u128::from(scale.side)
}

// The address at which a row begins.
fn row_start(scale: Scale, band: Band, row: u128) -> u128
    requires scale { IsCellScale scale }
    requires band { IsDrawn band }
    requires row { row ≤ rows_of scale band }
    requires some { 1 ≤ rows_of scale band }
    ensures value { result ≡ row_start scale band row }
    ensures few { result ≤ 2 ^ 81 }
{
    let rows = rows_of(scale, band);
    let bytes = band.high.saturating_sub(band.low);
    band.low + row * bytes / rows
}

// A row of a band.
#[tactic(auto, using(crate::proofs::Numbers::row_within))]
fn row_at(scale: Scale, band: Band, row: u128) -> Row
    requires scale { IsCellScale scale }
    requires band { IsDrawn band }
    requires row { row < rows_of scale band }
    ensures value { result ≡ row_at scale band row }
    ensures some { (result.low < result.high) × (result.high < 2 ^ 100) }
{
    let low = row_start(scale, band, row);
    let side = u128::from(scale.side);
    Row {
        low,
        high: row_start(scale, band, row + 1).max(low + 1),
        y: band.y + band.height - side * row - side / 2,
    }
}

// Puts the bars of a row at the end.
fn push_row(
    alloc: Global,
    bars: &mut Vec<Bar>,
    scale: Scale,
    shades: u128,
    row: Row,
    spans: &[Span],
) -> Result<(), AllocError>
    requires scale { IsCellScale scale }
    requires shades { shades ≤ 4 }
    requires row { (row.low < row.high) × (row.high < 2 ^ 100) }
    ensures { OnOk result (bars.new.items ≡ bars.old.items ++ row_bars scale shades row spans.now) }
{
    let all = row_shades(alloc, scale, shades, row, spans)?;
    push_bars(bars, scale.side, row.y, &all)
}

// Puts the bars of a number of rows at the end, from one on upwards. Each half of the rows is left only the spans that
// it meets, so a span costs a step for each time that the rows can be halved, and for each row that it meets.
fn push_rows(
    alloc: Global,
    bars: &mut Vec<Bar>,
    scale: Scale,
    shades: u128,
    spans: &[Span],
    band: Band,
    first: u128,
    number: u128,
) -> Result<(), AllocError>
    requires scale { IsCellScale scale }
    requires shades { shades ≤ 4 }
    requires band { IsDrawn band }
    requires rows { first + number ≤ rows_of scale band }
    ensures { OnOk result (bars.new.items ≡ bars.old.items ++ rows_from scale shades spans.now band first number) }
{
    if number == 0 {
        return Ok(());
    }
    let lowest = row_at(scale, band, first);
    let highest = row_at(scale, band, first + (number - 1));
    let met = spans_in(alloc, spans, lowest.low, highest.high)?;
    let near = met.as_slice();
    if number == 1 {
        return push_row(alloc, bars, scale, shades, lowest, near);
    }
    let half = number / 2;
    push_rows(alloc, bars, scale, shades, near, band, first, half)?;
    let next = first + half;
    push_rows(alloc, bars, scale, shades, near, band, next, number - half)
}

// Puts the bars of a band at the end.
#[tactic(auto, unfolding(crate::specs::Rows::band_bars))]
fn push_band(
    alloc: Global,
    bars: &mut Vec<Bar>,
    scale: Scale,
    shades: u128,
    spans: &[Span],
    whole: Band,
) -> Result<(), AllocError>
    requires scale { IsCellScale scale }
    requires shades { shades ≤ 4 }
    ensures { OnOk result (bars.new.items ≡ bars.old.items ++ band_bars scale shades spans.now whole) }
{
    let band = drawn_band(whole);
    let rows = rows_of(scale, band);
    push_rows(alloc, bars, scale, shades, spans, band, 0, rows)
}

/// The bars of all bands.
pub fn all_bars(
    alloc: Global,
    scale: Scale,
    shades: u128,
    spans: &[Span],
    bands: &[Band],
) -> Result<Vec<Bar>, AllocError>
    requires scale { IsCellScale scale }
    requires shades { shades ≤ 4 }
    ensures { IfOk result (λ bars. bars.items ≡ all_bars scale shades spans.now bands.now) }
{
    let mut bars = Vec::new(alloc);
    for band in bands {
        push_band(alloc, &mut bars, scale, shades, spans, *band)?;
    }
    Ok(bars)
}
