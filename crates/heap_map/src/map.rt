// The map of a heap.
ghost use Rattle.std.specs.Prelude.{◌≡◌, ◌<◌, ◌≤◌, ◌^◌, ◌++◌, IfOk, OnOk, string_bytes};
ghost use Rattle.dlmalloc_chunks.specs.Tiling.{AreInSegments};
ghost use Rattle.heap_map.specs.Blocks.{named_at};
ghost use Rattle.heap_map.specs.Map.{thin_words, row_words, quarter_words, quarter_text, quarters_text, ruler_text, rows_scale_text, below_lines, lines_number, map_words, front_text, rows_map, parts_text, map_text};

use crate::blocks::NamedBlock;
use crate::composition::push_composition;
use crate::histogram::push_histogram;
use crate::pieces::{map_lines, row_bytes};
use crate::rows::push_rows;
use crate::shapes::{Area, push_rect, push_text};
use crate::tiles::push_tiles;
use crate::words::push_exactly;
use dlmalloc_chunks::Extent;
use std::alloc::{AllocError, Global};
use std::collections::BTreeMap;

// What the rows and the thin lines are.
#[tactic(auto, unfolding(crate::specs::Map::thin_words))]
fn thin_words() -> &'static str
    ensures { result.now ≡ thin_words }
{
    " of addresses in each row. Thin lines are rows that lie wholly in one extent."
}

#[tactic(auto, unfolding(crate::specs::Map::row_words))]
fn push_row_words(out: &mut String, row: u128) -> Result<(), AllocError>
    ensures { OnOk result (string_bytes out.new ≡ string_bytes out.old ++ row_words row) }
{
    push_exactly(out, row)?;
    out.push_str(thin_words())
}

#[tactic(auto, unfolding(crate::specs::Map::quarter_text))]
fn push_quarter(out: &mut String, x: u128, words: &str) -> Result<(), AllocError>
    requires { x < 2000 }
    ensures { OnOk result (string_bytes out.new ≡ string_bytes out.old ++ quarter_text x words.now) }
{
    let mark = Area {
        x,
        y: 154,
        width: 1,
        height: 6,
    };
    push_rect(out, "line", mark)?;
    push_text(out, "m faint", x + 5, 158, words)
}

#[tactic(auto, unfolding(crate::specs::Map::quarter_words))]
fn push_bytes(alloc: Global, out: &mut String, x: u128, bytes: u128) -> Result<(), AllocError>
    requires { x < 2000 }
    ensures { OnOk result (string_bytes out.new ≡ string_bytes out.old ++ quarter_text x (quarter_words bytes)) }
{
    let mut words = String::new(alloc);
    words.push_str("+")?;
    push_exactly(&mut words, bytes)?;
    push_quarter(out, x, words.as_str())
}

#[tactic(auto, unfolding(crate::specs::Map::quarters_text))]
fn push_quarters(alloc: Global, out: &mut String, row: u128) -> Result<(), AllocError>
    requires { row < 2 ^ 100 }
    ensures { OnOk result (string_bytes out.new ≡ string_bytes out.old ++ quarters_text row) }
{
    push_quarter(out, 144, "+0")?;
    push_bytes(alloc, out, 400, row / 4)?;
    push_bytes(alloc, out, 656, row / 4 * 2)?;
    push_bytes(alloc, out, 912, row / 4 * 3)
}

#[tactic(auto, unfolding(crate::specs::Map::ruler_text), using(crate::proofs::Numbers::quotient_least))]
fn push_ruler(alloc: Global, out: &mut String, row: u128) -> Result<(), AllocError>
    requires { row < 2 ^ 100 }
    ensures { OnOk result (string_bytes out.new ≡ string_bytes out.old ++ ruler_text row) }
{
    push_quarters(alloc, out, row)?;
    push_text(out, "e faint", 134, 158, "address")?;
    push_text(out, "e faint", 1280, 158, "in blocks")
}

#[tactic(auto, unfolding(crate::specs::Map::rows_scale_text))]
fn push_scale(alloc: Global, out: &mut String, row: u128) -> Result<(), AllocError>
    requires { row < 2 ^ 100 }
    ensures { OnOk result (string_bytes out.new ≡ string_bytes out.old ++ rows_scale_text row) }
{
    let mut words = String::new(alloc);
    push_row_words(&mut words, row)?;
    push_text(out, "faint", 24, 136, words.as_str())?;
    push_ruler(alloc, out, row)
}

// What the map is of.
#[tactic(auto, unfolding(crate::specs::Map::map_words))]
fn map_words() -> &'static str
    ensures { result.now ≡ map_words }
{
    "The heap after a run"
}

#[tactic(auto, unfolding(crate::specs::Map::front_text))]
fn push_front(
    alloc: Global,
    out: &mut String,
    live: u128,
    peak: u128,
    extents: &[Extent],
) -> Result<(), AllocError>
    requires { AreInSegments extents.now }
    ensures { OnOk result (string_bytes out.new ≡ string_bytes out.old ++ front_text live peak extents.now) }
{
    push_text(out, "h", 24, 40, map_words())?;
    push_tiles(alloc, out, live, peak, extents)
}

#[tactic(auto, unfolding(crate::specs::Map::rows_map))]
fn push_rows_map(
    alloc: Global,
    out: &mut String,
    blocks: &BTreeMap<u128, NamedBlock>,
    row: u128,
    live: u128,
    peak: u128,
    extents: &[Extent],
) -> Result<(), AllocError>
    requires segments { AreInSegments extents.now }
    requires row { (512 ≤ row) × (row ≤ 2 ^ 53) }
    ensures { OnOk result (string_bytes out.new ≡ string_bytes out.old ++ rows_map (named_at blocks.now) row live peak extents.now) }
{
    push_front(alloc, out, live, peak, extents)?;
    push_scale(alloc, out, row)?;
    push_rows(alloc, out, blocks, row, extents)
}

#[tactic(auto, unfolding(crate::specs::Map::parts_text))]
fn push_parts(
    alloc: Global,
    out: &mut String,
    y: u128,
    live: u128,
    extents: &[Extent],
) -> Result<(), AllocError>
    requires segments { AreInSegments extents.now }
    requires y { y < 2 ^ 90 }
    ensures { OnOk result (string_bytes out.new ≡ string_bytes out.old ++ parts_text y live extents.now) }
{
    push_composition(alloc, out, y, live, extents)?;
    push_histogram(alloc, out, y, extents)
}

/// How many lines the map of these extents has.
#[tactic(auto, unfolding(crate::specs::Map::lines_number))]
pub fn lines_number(alloc: Global, extents: &[Extent]) -> Result<u64, AllocError>
    ensures { IfOk result (λ lines. lines ≡ lines_number extents.now) }
{
    let row = row_bytes(alloc, extents)?;
    map_lines(alloc, row, extents)
}

/// Puts the map of a heap at the end, of its live blocks by their addresses, of the bytes that are live and were at most, and of
/// its extents: its figures, its rows, what it consists of, and its free chunks by size. It is 1304 pixels wide, and below
/// it is free from `394 + 23 * lines_number` on.
#[tactic(auto, unfolding(crate::specs::Map::map_text))]
pub fn push_map(
    alloc: Global,
    out: &mut String,
    blocks: &BTreeMap<u128, NamedBlock>,
    live: u128,
    peak: u128,
    extents: &[Extent],
) -> Result<(), AllocError>
    requires { AreInSegments extents.now }
    ensures { OnOk result (string_bytes out.new ≡ string_bytes out.old ++ map_text (named_at blocks.now) live peak extents.now) }
{
    let row = row_bytes(alloc, extents)?;
    let lines = u128::from(lines_number(alloc, extents)?);
    push_rows_map(alloc, out, blocks, row, live, peak, extents)?;
    push_parts(alloc, out, 194 + 23 * lines, live, extents)
}
