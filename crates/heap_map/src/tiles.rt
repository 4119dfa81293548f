// The figures of a heap, as tiles in a row.
ghost use Rattle.std.specs.Prelude.{◌≡◌, ◌<◌, ◌≤◌, ◌^◌, ◌++◌, OnOk, string_bytes};
ghost use Rattle.dlmalloc_chunks.specs.Tiling.{AreInSegments};
ghost use Rattle.heap_map.specs.Totals.{total_of};
ghost use Rattle.heap_map.specs.Tiles.{tile_text, live_tiles, heap_words, heap_tile, used_tile, free_tiles, tiles_text};

use crate::shapes::{Area, push_rect, push_text};
use crate::words::{push_about, push_commas, push_counted, push_percent};
use dlmalloc_chunks::Extent;
use run_figures::{Part, count_part, greatest_free};
use std::alloc::{AllocError, Global};

/// The bytes of all extents.
pub fn total_of(extents: &[Extent]) -> u128
    requires { AreInSegments extents.now }
    ensures value { result ≡ total_of extents.now }
    ensures few { result < 2 ^ 67 }
{
    let used = count_part(extents, Part::Used).bytes;
    let free = count_part(extents, Part::Free).bytes;
    let overhead = count_part(extents, Part::Overhead).bytes;
    used + (free + overhead)
}

// Puts a number over words at the end, after `before` other tiles.
#[tactic(auto, unfolding(crate::specs::Tiles::tile_text))]
fn push_tile(out: &mut String, before: u128, number: &str, words: &str) -> Result<(), AllocError>
    requires { before ≤ 5 }
    ensures { OnOk result (string_bytes out.new ≡ string_bytes out.old ++ tile_text before number.now words.now) }
{
    let area = Area {
        x: 24 + 210 * before,
        y: 56,
        width: 206,
        height: 54,
    };
    push_rect(out, "panel", area)?;
    push_text(out, "n", 36 + 210 * before, 81, number)?;
    push_text(out, "faint", 36 + 210 * before, 99, words)
}

#[tactic(auto, unfolding(crate::specs::Tiles::live_tiles))]
fn push_live(alloc: Global, out: &mut String, live: u128, peak: u128) -> Result<(), AllocError>
    ensures { OnOk result (string_bytes out.new ≡ string_bytes out.old ++ live_tiles live peak) }
{
    let mut number = String::new(alloc);
    push_commas(&mut number, live)?;
    push_tile(out, 0, number.as_str(), "bytes live")?;
    let mut most = String::new(alloc);
    push_commas(&mut most, peak)?;
    push_tile(out, 1, most.as_str(), "bytes live at the peak")
}

#[tactic(auto, unfolding(crate::specs::Tiles::heap_words))]
fn push_heap_words(out: &mut String, total: u128) -> Result<(), AllocError>
    ensures { OnOk result (string_bytes out.new ≡ string_bytes out.old ++ heap_words total) }
{
    out.push_str("heap: ")?;
    push_counted(out, "page", total / 4096)
}

#[tactic(auto, unfolding(crate::specs::Tiles::heap_tile))]
fn push_heap(alloc: Global, out: &mut String, total: u128) -> Result<(), AllocError>
    requires { total < 2 ^ 100 }
    ensures { OnOk result (string_bytes out.new ≡ string_bytes out.old ++ heap_tile total) }
{
    let mut bytes = String::new(alloc);
    push_about(&mut bytes, total)?;
    let mut words = String::new(alloc);
    push_heap_words(&mut words, total)?;
    push_tile(out, 2, bytes.as_str(), words.as_str())
}

#[tactic(auto, unfolding(crate::specs::Tiles::used_tile))]
fn push_used(alloc: Global, out: &mut String, used: u128, total: u128) -> Result<(), AllocError>
    requires { used < 2 ^ 100 }
    ensures { OnOk result (string_bytes out.new ≡ string_bytes out.old ++ used_tile used total) }
{
    let mut share = String::new(alloc);
    push_percent(&mut share, used, total)?;
    push_tile(out, 3, share.as_str(), "of it in blocks")
}

#[tactic(auto, unfolding(crate::specs::Tiles::free_tiles))]
fn push_free(alloc: Global, out: &mut String, extents: &[Extent]) -> Result<(), AllocError>
    requires { AreInSegments extents.now }
    ensures { OnOk result (string_bytes out.new ≡ string_bytes out.old ++ free_tiles extents.now) }
{
    let free = count_part(extents, Part::Free).bytes;
    let greatest = u128::from(greatest_free(extents));
    let mut share = String::new(alloc);
    push_percent(&mut share, free.saturating_sub(greatest), free)?;
    push_tile(out, 4, share.as_str(), "fragmentation")?;
    let mut bytes = String::new(alloc);
    push_about(&mut bytes, greatest)?;
    push_tile(out, 5, bytes.as_str(), "the greatest free chunk")
}

/// Puts the tiles at the end: the bytes that are live and were at most, the bytes of the heap and how many of them are in
/// blocks, how far its free bytes are scattered, and its greatest free chunk.
#[tactic(auto, unfolding(crate::specs::Tiles::tiles_text))]
pub fn push_tiles(
    alloc: Global,
    out: &mut String,
    live: u128,
    peak: u128,
    extents: &[Extent],
) -> Result<(), AllocError>
    requires { AreInSegments extents.now }
    ensures { OnOk result (string_bytes out.new ≡ string_bytes out.old ++ tiles_text live peak extents.now) }
{
    let total = total_of(extents);
    let used = count_part(extents, Part::Used);
    push_live(alloc, out, live, peak)?;
    push_heap(alloc, out, total)?;
    push_used(alloc, out, used.bytes, total)?;
    push_free(alloc, out, extents)
}
