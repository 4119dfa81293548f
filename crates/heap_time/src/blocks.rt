// The blocks of a run one by one, over the regions of the heap.
ghost use Rattle.std.specs.Prelude.{◌≡◌, ◌++◌, OnOk, string_bytes};
ghost use Rattle.std.specs.List.{All, flat_map};
ghost use Rattle.heap_time.specs.Bands.{IsBand};
ghost use Rattle.heap_time.specs.Blocks.{stay_class, ending_words, end_words, until_words, block_words, calls_words, stay_title, held_region_words, held_title, cover_text, stay_text, held_text, band_text, blocks_text};

use crate::bands::{cover_height, cover_left, cover_top, cover_width};
use crate::covers::{Cover, held_cover, meets, stay_cover};
use crate::shapes::{push_view, region_words};
use heap_history::{Band, Ending, Held, Stay};
use heap_map::{Area, push_address, push_commas, push_counted, push_titled};
use std::alloc::{AllocError, Global};

// The colour of a stay.
fn stay_class(ending: Ending) -> &'static str
    ensures { result.now ≡ stay_class ending }
{
    match ending {
        Ending::Live => "u",
        Ending::Freed => "gone",
        Ending::Reset => "gone",
        Ending::Moved => "gone",
        Ending::Resized => "gone",
    }
}

// How a stay ended.
fn ending_words(ending: Ending) -> &'static str
    ensures { result.now ≡ ending_words ending }
{
    match ending {
        Ending::Live => "live",
        Ending::Freed => "freed",
        Ending::Reset => "reset",
        Ending::Moved => "moved",
        Ending::Resized => "resized",
    }
}

#[tactic(auto, unfolding(crate::specs::Blocks::end_words))]
fn push_end(out: &mut String, end: u64, ending: Ending) -> Result<(), AllocError>
    ensures { OnOk result (string_bytes out.new ≡ string_bytes out.old ++ end_words end ending) }
{
    push_commas(out, u128::from(end) + 1)?;
    out.push_str(" (")?;
    out.push_str(ending_words(ending))?;
    out.push_str(")")
}

fn push_until(out: &mut String, end: u64, ending: Ending) -> Result<(), AllocError>
    ensures { OnOk result (string_bytes out.new ≡ string_bytes out.old ++ until_words end ending) }
{
    match ending {
        Ending::Live => out.push_str("the end"),
        Ending::Freed => push_end(out, end, Ending::Freed),
        Ending::Reset => push_end(out, end, Ending::Reset),
        Ending::Moved => push_end(out, end, Ending::Moved),
        Ending::Resized => push_end(out, end, Ending::Resized),
    }
}

#[tactic(auto, unfolding(crate::specs::Blocks::block_words))]
fn push_block(out: &mut String, stay: Stay) -> Result<(), AllocError>
    ensures { OnOk result (string_bytes out.new ≡ string_bytes out.old ++ block_words stay) }
{
    let block = stay.block;
    write!(out, "block {block}: ")?;
    push_counted(out, "byte", u128::from(stay.size))?;
    out.push_str(" at ")
}

#[tactic(auto, unfolding(crate::specs::Blocks::calls_words))]
fn push_calls(out: &mut String, stay: Stay) -> Result<(), AllocError>
    ensures { OnOk result (string_bytes out.new ≡ string_bytes out.old ++ calls_words stay) }
{
    push_address(out, stay.address)?;
    out.push_str(", call ")?;
    push_commas(out, u128::from(stay.born) + 1)?;
    out.push_str(" to ")?;
    push_until(out, stay.end, stay.ending)
}

// Puts what is said of a stay at the end.
#[tactic(auto, unfolding(crate::specs::Blocks::stay_title))]
fn push_stay_title(out: &mut String, stay: Stay) -> Result<(), AllocError>
    ensures { OnOk result (string_bytes out.new ≡ string_bytes out.old ++ stay_title stay) }
{
    push_block(out, stay)?;
    push_calls(out, stay)
}

#[tactic(auto, unfolding(crate::specs::Blocks::held_region_words))]
fn push_pages(out: &mut String, held: Held) -> Result<(), AllocError>
    ensures { OnOk result (string_bytes out.new ≡ string_bytes out.old ++ held_region_words held) }
{
    push_address(out, held.start)?;
    out.push_str(" + ")?;
    push_counted(out, "page", u128::from(held.pages))
}

// Puts what is said of a region of the heap at the end.
#[tactic(auto, unfolding(crate::specs::Blocks::held_title))]
fn push_held_title(out: &mut String, held: Held) -> Result<(), AllocError>
    ensures { OnOk result (string_bytes out.new ≡ string_bytes out.old ++ held_title held) }
{
    out.push_str(region_words())?;
    out.push_str(" ")?;
    push_pages(out, held)
}

// Puts what a band has of a cover at the end.
#[tactic(auto, unfolding(crate::specs::Blocks::cover_text))]
fn push_cover(
    out: &mut String,
    calls: u64,
    band: Band,
    cover: Cover,
    class: &str,
    title: &str,
) -> Result<(), AllocError>
    requires { IsBand band }
    ensures { OnOk result (string_bytes out.new ≡ string_bytes out.old ++ cover_text calls band cover class.now title.now) }
{
    let area = Area {
        x: cover_left(calls, cover),
        y: cover_top(band, cover),
        width: cover_width(calls, cover),
        height: cover_height(band, cover),
    };
    push_titled(out, class, area, title)
}

// Puts a stay at the end, if a band has an address of it.
#[tactic(auto, unfolding(crate::specs::Blocks::stay_text))]
fn push_stay(
    alloc: Global,
    out: &mut String,
    calls: u64,
    band: Band,
    stay: Stay,
) -> Result<(), AllocError>
    requires { IsBand band }
    ensures { OnOk result (string_bytes out.new ≡ string_bytes out.old ++ stay_text calls band stay) }
{
    let cover = stay_cover(stay);
    if !meets(band, cover) {
        return Ok(());
    }
    let mut title = String::new(alloc);
    push_stay_title(&mut title, stay)?;
    push_cover(
        out,
        calls,
        band,
        cover,
        stay_class(stay.ending),
        title.as_str(),
    )
}

// Puts a region at the end, if a band has an address of it.
#[tactic(auto, unfolding(crate::specs::Blocks::held_text))]
fn push_held(
    alloc: Global,
    out: &mut String,
    calls: u64,
    band: Band,
    held: Held,
) -> Result<(), AllocError>
    requires { IsBand band }
    ensures { OnOk result (string_bytes out.new ≡ string_bytes out.old ++ held_text calls band held) }
{
    let cover = held_cover(held);
    if !meets(band, cover) {
        return Ok(());
    }
    let mut title = String::new(alloc);
    push_held_title(&mut title, held)?;
    push_cover(out, calls, band, cover, "heap", title.as_str())
}

fn push_regions(
    alloc: Global,
    out: &mut String,
    calls: u64,
    band: Band,
    heap: &[Held],
) -> Result<(), AllocError>
    requires { IsBand band }
    ensures { OnOk result (string_bytes out.new ≡ string_bytes out.old ++ flat_map (held_text calls band) heap.now) }
{
    for held in heap {
        push_held(alloc, out, calls, band, *held)?;
    }
    Ok(())
}

fn push_stays(
    alloc: Global,
    out: &mut String,
    calls: u64,
    band: Band,
    stays: &[Stay],
) -> Result<(), AllocError>
    requires { IsBand band }
    ensures { OnOk result (string_bytes out.new ≡ string_bytes out.old ++ flat_map (stay_text calls band) stays.now) }
{
    for stay in stays {
        push_stay(alloc, out, calls, band, *stay)?;
    }
    Ok(())
}

// Puts a band at the end.
#[tactic(auto, unfolding(crate::specs::Blocks::band_text))]
fn push_band(
    alloc: Global,
    out: &mut String,
    calls: u64,
    band: Band,
    stays: &[Stay],
    heap: &[Held],
) -> Result<(), AllocError>
    requires { IsBand band }
    ensures { OnOk result (string_bytes out.new ≡ string_bytes out.old ++ band_text calls stays.now heap.now band) }
{
    push_view(out, band)?;
    push_regions(alloc, out, calls, band, heap)?;
    push_stays(alloc, out, calls, band, stays)?;
    out.push_str("</svg>\n")
}

/// Puts each stay and each region of the heap at the end, in each band that has an address of it.
#[tactic(auto, unfolding(crate::specs::Blocks::blocks_text))]
pub fn push_blocks(
    alloc: Global,
    out: &mut String,
    calls: u64,
    bands: &[Band],
    stays: &[Stay],
    heap: &[Held],
) -> Result<(), AllocError>
    requires { All IsBand bands.now }
    ensures { OnOk result (string_bytes out.new ≡ string_bytes out.old ++ blocks_text calls bands.now stays.now heap.now) }
{
    for band in bands {
        push_band(alloc, out, calls, *band, stays, heap)?;
    }
    Ok(())
}
