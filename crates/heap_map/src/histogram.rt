// The free chunks in bins by size.
ghost use Rattle.std.specs.Prelude.{◌≡◌, ◌<◌, ◌≤◌, ◌^◌, ◌++◌, OnOk, string_bytes};
ghost use Rattle.heap_map.specs.Histogram.{is_between, next_low, chunk_count_from, most_of_all, bar_height, bars_words, bar_title, bar_text, bars_text, axis_front, axis_back, axis_text, histogram_heading, histogram_text};

use crate::classes::{Class, is_in};
use crate::shapes::{Area, push_rect, push_text, push_titled};
use crate::words::{push_commas, push_exactly};
use dlmalloc_chunks::Extent;
use std::alloc::{AllocError, Global};

/// From this many bytes on there is one bar.
const LAST: u64 = 1_048_576;

// Whether an extent is a chunk in a bin with `low` bytes or more, and fewer than twice as many.
fn is_between(low: u64, extent: Extent) -> bool
    requires { low < 2 ^ 40 }
    ensures { result ≡ is_between low extent }
{
    is_in(Class::Binned, extent.kind)
        && (low <= extent.size && (LAST <= low || extent.size < 2 * low))
}

// How many there are.
fn chunks_from(low: u64, extents: &[Extent]) -> u64
    requires { low < 2 ^ 40 }
    ensures { result ≡ chunk_count_from low extents.now }
{
    let mut number = 0;
    for extent in extents {
        if is_between(low, *extent) {
            number += 1;
        }
    }
    number
}

// The next power of two, up to 1 MiB.
fn next_low(low: u64) -> u64
    requires { low < 2 ^ 21 }
    ensures value { result ≡ next_low low }
    ensures few { result < 2 ^ 21 }
{
    if low < LAST { 2 * low } else { low }
}

// The most that there are of one power of two.
#[tactic(auto, using(crate::proofs::Heights::most_step, crate::proofs::Heights::most_last, crate::proofs::Heights::most_begin))]
fn most_of_all(extents: &[Extent]) -> u64
    ensures { result ≡ most_of_all extents.now }
{
    let (mut low, mut most) = (32, 0);
    for bar in 0u64..16 {
        most = chunks_from(low, extents).max(most);
        low = next_low(low);
    }
    most
}

// The height of a bar.
fn bar_height(number: u64, most: u64) -> u128
    ensures value { result ≡ bar_height number most }
    ensures few { result ≤ 84 }
{
    (84 * u128::from(number) / u128::from(most).max(1))
        .max(2)
        .min(84)
}

#[tactic(auto, unfolding(crate::specs::Histogram::bar_title))]
fn push_bar_title(out: &mut String, low: u128, number: u128) -> Result<(), AllocError>
    ensures { OnOk result (string_bytes out.new ≡ string_bytes out.old ++ bar_title low number) }
{
    push_commas(out, number)?;
    out.push_str(" from ")?;
    push_exactly(out, low)
}

// Puts a bar over its floor at the end, if there are such chunks.
#[tactic(auto, unfolding(crate::specs::Histogram::bar_text))]
fn push_bar(
    alloc: Global,
    out: &mut String,
    x: u128,
    floor: u128,
    low: u64,
    number: u64,
    most: u64,
) -> Result<(), AllocError>
    requires x { x < 2 ^ 90 }
    requires floor { (100 ≤ floor) × (floor < 2 ^ 100) }
    ensures { OnOk result (string_bytes out.new ≡ string_bytes out.old ++ bar_text x floor low number most) }
{
    if number == 0 {
        return Ok(());
    }
    let height = bar_height(number, most);
    let area = Area {
        x: x + 2,
        y: floor - height,
        width: 19,
        height,
    };
    let mut title = String::new(alloc);
    push_bar_title(&mut title, u128::from(low), u128::from(number))?;
    push_titled(out, "f", area, title.as_str())?;
    let mut words = String::new(alloc);
    push_commas(&mut words, u128::from(number))?;
    push_text(out, "m c", x + 11, floor - height - 4, words.as_str())
}

// Puts the bars at the end.
#[tactic(auto, using(crate::proofs::Heights::bars_step, crate::proofs::Heights::bars_last, crate::proofs::Heights::bars_begin, std::proofs::lemmas::Grind::common_steps))]
fn push_bars(
    alloc: Global,
    out: &mut String,
    floor: u128,
    most: u64,
    extents: &[Extent],
) -> Result<(), AllocError>
    requires floor { (100 ≤ floor) × (floor < 2 ^ 100) }
    ensures { OnOk result (string_bytes out.new ≡ string_bytes out.old ++ bars_text floor most extents.now) }
{
    let (mut x, mut low) = (472, 32);
    for bar in 0u64..16 {
        push_bar(alloc, out, x, floor, low, chunks_from(low, extents), most)?;
        x += 23;
        low = next_low(low);
    }
    Ok(())
}

// Puts the sizes below the first bars at the end.
#[tactic(auto, unfolding(crate::specs::Histogram::axis_front))]
fn push_axis_front(out: &mut String, y: u128) -> Result<(), AllocError>
    ensures { OnOk result (string_bytes out.new ≡ string_bytes out.old ++ axis_front y) }
{
    push_text(out, "m faint", 474, y, "32")?;
    push_text(out, "m faint", 520, y, "128")?;
    push_text(out, "m faint", 566, y, "512")?;
    push_text(out, "m faint", 612, y, "2 K")
}

// Puts the sizes below the other bars at the end.
#[tactic(auto, unfolding(crate::specs::Histogram::axis_back))]
fn push_axis_back(out: &mut String, y: u128) -> Result<(), AllocError>
    ensures { OnOk result (string_bytes out.new ≡ string_bytes out.old ++ axis_back y) }
{
    push_text(out, "m faint", 658, y, "8 K")?;
    push_text(out, "m faint", 704, y, "32 K")?;
    push_text(out, "m faint", 750, y, "128 K")?;
    push_text(out, "m faint", 796, y, "512 K")
}

// Puts what stands below the bars at the end.
#[tactic(auto, unfolding(crate::specs::Histogram::axis_text))]
fn push_axis(out: &mut String, y: u128) -> Result<(), AllocError>
    requires { y < 2 ^ 100 }
    ensures { OnOk result (string_bytes out.new ≡ string_bytes out.old ++ axis_text y) }
{
    push_axis_front(out, y + 144)?;
    push_axis_back(out, y + 144)?;
    push_text(
        out,
        "e faint",
        840,
        y + 162,
        "size in bytes, by powers of two",
    )
}

// What the bars are.
#[tactic(auto, unfolding(crate::specs::Histogram::bars_words))]
fn bars_words() -> &'static str
    ensures { result.now ≡ bars_words }
{
    "Free chunks by size"
}

// Puts the heading of the bars and their floor at the end.
#[tactic(auto, unfolding(crate::specs::Histogram::histogram_heading))]
fn push_heading(out: &mut String, y: u128) -> Result<(), AllocError>
    requires { y < 2 ^ 100 }
    ensures { OnOk result (string_bytes out.new ≡ string_bytes out.old ++ histogram_heading y) }
{
    push_text(out, "q", 472, y, bars_words())?;
    let floor = Area {
        x: 472,
        y: y + 128,
        width: 368,
        height: 1,
    };
    push_rect(out, "line", floor)
}

/// Puts the bars of 16 powers of two at the end, from a base line on.
#[tactic(auto, unfolding(crate::specs::Histogram::histogram_text))]
pub fn push_histogram(
    alloc: Global,
    out: &mut String,
    y: u128,
    extents: &[Extent],
) -> Result<(), AllocError>
    requires { y < 2 ^ 90 }
    ensures { OnOk result (string_bytes out.new ≡ string_bytes out.old ++ histogram_text y extents.now) }
{
    let most = most_of_all(extents);
    push_heading(out, y)?;
    push_bars(alloc, out, y + 128, most, extents)?;
    push_axis(out, y)
}
