// The large pages of the heap.
ghost use Rattle.std.specs.Prelude.{◌≡◌, ◌++◌, OnOk, string_bytes};
ghost use Rattle.std.specs.List.{All};
ghost use Rattle.heap_time.specs.Bands.{IsBand};
ghost use Rattle.heap_time.specs.Large.{large_title, large_bar_text, large_mark_text, large_marks_text, large_text};

use crate::bands::place_of;
use crate::covers::{Cover, bottom_in, large_cover, meets, top_in};
use heap_history::{Band, LargePage, x_of};
use heap_map::{Area, push_address, push_commas, push_titled};
use std::alloc::{AllocError, Global};

// Puts what is said of a large page at the end.
#[tactic(auto, unfolding(crate::specs::Large::large_title))]
fn push_title(out: &mut String, large: LargePage) -> Result<(), AllocError>
    ensures { OnOk result (string_bytes out.new ≡ string_bytes out.old ++ large_title large) }
{
    out.push_str("large page ")?;
    push_address(out, large.slot)?;
    out.push_str(", from call ")?;
    push_commas(out, u128::from(large.born) + 1)
}

// Puts a bar at the end, as high as what a band has of a cover.
#[tactic(auto, unfolding(crate::specs::Large::large_bar_text))]
fn push_bar(
    out: &mut String,
    calls: u64,
    band: Band,
    cover: Cover,
    title: &str,
) -> Result<(), AllocError>
    requires { IsBand band }
    ensures { OnOk result (string_bytes out.new ≡ string_bytes out.old ++ large_bar_text calls band cover title.now) }
{
    let top = place_of(band, top_in(band, cover));
    let ground = place_of(band, bottom_in(band, cover));
    let area = Area {
        x: x_of(cover.born, calls),
        y: top,
        width: 4,
        height: ground.saturating_sub(top).saturating_sub(1).max(1),
    };
    push_titled(out, "l", area, title)
}

// Puts the bar of a large page at the end, if a band has an address of it.
#[tactic(auto, unfolding(crate::specs::Large::large_mark_text))]
fn push_mark(
    alloc: Global,
    out: &mut String,
    calls: u64,
    large: LargePage,
    band: Band,
) -> Result<(), AllocError>
    requires { IsBand band }
    ensures { OnOk result (string_bytes out.new ≡ string_bytes out.old ++ large_mark_text calls large band) }
{
    let cover = large_cover(calls, large);
    if !meets(band, cover) {
        return Ok(());
    }
    let mut title = String::new(alloc);
    push_title(&mut title, large)?;
    push_bar(out, calls, band, cover, title.as_str())
}

#[tactic(auto, unfolding(crate::specs::Large::large_marks_text))]
fn push_marks(
    alloc: Global,
    out: &mut String,
    calls: u64,
    bands: &[Band],
    large: LargePage,
) -> Result<(), AllocError>
    requires { All IsBand bands.now }
    ensures { OnOk result (string_bytes out.new ≡ string_bytes out.old ++ large_marks_text calls bands.now large) }
{
    for band in bands {
        push_mark(alloc, out, calls, large, *band)?;
    }
    Ok(())
}

/// Puts a bar at the end for each large page, in each band that has an address of it.
#[tactic(auto, unfolding(crate::specs::Large::large_text))]
pub fn push_large(
    alloc: Global,
    out: &mut String,
    calls: u64,
    bands: &[Band],
    large: &[LargePage],
) -> Result<(), AllocError>
    requires { All IsBand bands.now }
    ensures { OnOk result (string_bytes out.new ≡ string_bytes out.old ++ large_text calls bands.now large.now) }
{
    for one in large {
        push_marks(alloc, out, calls, bands, *one)?;
    }
    Ok(())
}
