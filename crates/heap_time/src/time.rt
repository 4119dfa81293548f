// The drawing of a heap over a run.
ghost use Rattle.std.specs.Prelude.{◌≡◌, ◌<◌, ◌+◌, ◌^◌, ◌++◌, OnOk, string_bytes};
ghost use Rattle.std.specs.List.{All};
ghost use Rattle.heap_time.specs.Axis.{bands_of};
ghost use Rattle.heap_time.specs.Bands.{IsBand};
ghost use Rattle.heap_time.specs.Time.{call_count, over_words, call_word, calls_title_words, title_text, is_single, single_text, many_text, stays_text, lanes_top, curves_top, refused_top, calls_top, ground_text, over_text, below_text, drawing_text, time_text, time_height};

use crate::addresses::push_addresses;
use crate::axis::below_bands;
use crate::blocks::push_blocks;
use crate::columns::push_columns;
use crate::covers::parts_number;
use crate::labels::push_labels;
use crate::large::push_large;
use crate::legend::push_legend;
use crate::moves::push_moves;
use heap_cells::push_cells;
use heap_curves::{
    calls_height, curves_height, lanes_height, push_calls, push_curves, push_lanes, push_refused,
    refused_height,
};
use heap_history::{Band, History};
use heap_map::{push_commas, push_text};
use std::alloc::{AllocError, Global};

// How many calls a run had.
fn calls_of(history: &History) -> u64
    ensures { result ≡ call_count history.now }
{
    history.moments.len()
}

#[tactic(auto, unfolding(crate::specs::Time::over_words))]
fn over_words() -> &'static str
    ensures { result.now ≡ over_words }
{
    "The heap over "
}

fn call_word(calls: u64) -> &'static str
    ensures { result.now ≡ call_word calls }
{
    if calls == 1 { " call" } else { " calls" }
}

#[tactic(auto, unfolding(crate::specs::Time::calls_title_words))]
fn push_title_words(out: &mut String, calls: u64) -> Result<(), AllocError>
    ensures { OnOk result (string_bytes out.new ≡ string_bytes out.old ++ calls_title_words calls) }
{
    out.push_str(over_words())?;
    push_commas(out, u128::from(calls))?;
    out.push_str(call_word(calls))
}

#[tactic(auto, unfolding(crate::specs::Time::title_text))]
fn push_title(alloc: Global, out: &mut String, calls: u64) -> Result<(), AllocError>
    ensures { OnOk result (string_bytes out.new ≡ string_bytes out.old ++ title_text calls) }
{
    let mut words = String::new(alloc);
    push_title_words(&mut words, calls)?;
    push_text(out, "h", 24, 40, words.as_str())
}

// Whether stays are drawn one by one.
fn is_single(bands: &[Band], history: &History) -> bool
    ensures { result ≡ is_single bands.now history.now }
{
    parts_number(bands, history.stays.as_slice(), history.heap.as_slice()) <= 1600
}

#[tactic(auto, unfolding(crate::specs::Time::single_text))]
fn push_single(
    alloc: Global,
    out: &mut String,
    bands: &[Band],
    history: &History,
) -> Result<(), AllocError>
    requires { All IsBand bands.now }
    ensures { OnOk result (string_bytes out.new ≡ string_bytes out.old ++ single_text bands.now history.now) }
{
    let calls = calls_of(history);
    let stays = history.stays.as_slice();
    push_blocks(alloc, out, calls, bands, stays, history.heap.as_slice())?;
    push_labels(alloc, out, calls, bands, stays)?;
    push_moves(out, calls, bands, stays)
}

#[tactic(auto, unfolding(crate::specs::Time::many_text))]
fn push_many(
    alloc: Global,
    out: &mut String,
    bands: &[Band],
    history: &History,
) -> Result<(), AllocError>
    requires { All IsBand bands.now }
    ensures { OnOk result (string_bytes out.new ≡ string_bytes out.old ++ many_text bands.now history.now) }
{
    let stays = history.stays.as_slice();
    push_cells(
        alloc,
        out,
        calls_of(history),
        bands,
        stays,
        history.heap.as_slice(),
    )?;
    push_columns(alloc, out, below_bands(bands), history.moments.as_slice())
}

fn push_stays(
    alloc: Global,
    out: &mut String,
    bands: &[Band],
    history: &History,
) -> Result<(), AllocError>
    requires { All IsBand bands.now }
    ensures { OnOk result (string_bytes out.new ≡ string_bytes out.old ++ stays_text bands.now history.now) }
{
    if is_single(bands, history) {
        push_single(alloc, out, bands, history)
    } else {
        push_many(alloc, out, bands, history)
    }
}

fn lanes_top(bands: &[Band]) -> u128
    requires { All IsBand bands.now }
    ensures value { result ≡ lanes_top bands.now }
    ensures few { result < 2 ^ 82 }
{
    below_bands(bands) + 6
}

fn curves_top(bands: &[Band], history: &History) -> u128
    requires { All IsBand bands.now }
    ensures value { result ≡ curves_top bands.now history.now }
    ensures few { result < 2 ^ 83 }
{
    lanes_top(bands) + lanes_height(history.users.as_slice()) + 8
}

fn refused_top(bands: &[Band], history: &History) -> u128
    requires { All IsBand bands.now }
    ensures value { result ≡ refused_top bands.now history.now }
    ensures few { result < 2 ^ 84 }
{
    curves_top(bands, history) + curves_height(history.moments.as_slice())
}

fn calls_top(bands: &[Band], history: &History) -> u128
    requires { All IsBand bands.now }
    ensures value { result ≡ calls_top bands.now history.now }
    ensures few { result < 2 ^ 85 }
{
    refused_top(bands, history) + refused_height() - 12
}

// Puts what stands above the bands at the end, and the axis of calls.
#[tactic(auto, unfolding(crate::specs::Time::ground_text))]
fn push_ground(
    alloc: Global,
    out: &mut String,
    bands: &[Band],
    history: &History,
) -> Result<(), AllocError>
    requires { All IsBand bands.now }
    ensures { OnOk result (string_bytes out.new ≡ string_bytes out.old ++ ground_text bands.now history.now) }
{
    let calls = calls_of(history);
    push_title(alloc, out, calls)?;
    push_legend(
        out,
        is_single(bands, history),
        history.users.len() != 0,
        history.large.len() != 0,
        bands,
    )?;
    let top = calls_top(bands, history);
    push_calls(alloc, out, 84, top, calls, history.lines.as_slice())
}

// Puts the bands at the end, and what stands beside them.
#[tactic(auto, unfolding(crate::specs::Time::over_text))]
fn push_over(
    alloc: Global,
    out: &mut String,
    bands: &[Band],
    history: &History,
) -> Result<(), AllocError>
    requires { All IsBand bands.now }
    ensures { OnOk result (string_bytes out.new ≡ string_bytes out.old ++ over_text bands.now history.now) }
{
    push_stays(alloc, out, bands, history)?;
    push_large(
        alloc,
        out,
        calls_of(history),
        bands,
        history.large.as_slice(),
    )?;
    push_addresses(alloc, out, bands)
}

// Puts what stands below the bands at the end.
#[tactic(auto, unfolding(crate::specs::Time::below_text))]
fn push_below(
    alloc: Global,
    out: &mut String,
    bands: &[Band],
    history: &History,
) -> Result<(), AllocError>
    requires { All IsBand bands.now }
    ensures { OnOk result (string_bytes out.new ≡ string_bytes out.old ++ below_text bands.now history.now) }
{
    let calls = calls_of(history);
    let (lanes, curves) = (lanes_top(bands), curves_top(bands, history));
    push_lanes(alloc, out, lanes, calls, history.users.as_slice())?;
    push_curves(alloc, out, curves, history.moments.as_slice())?;
    push_refused(
        alloc,
        out,
        refused_top(bands, history),
        calls,
        history.refused.as_slice(),
    )
}

#[tactic(auto, unfolding(crate::specs::Time::drawing_text))]
fn push_drawing(
    alloc: Global,
    out: &mut String,
    bands: &[Band],
    history: &History,
) -> Result<(), AllocError>
    requires { All IsBand bands.now }
    ensures { OnOk result (string_bytes out.new ≡ string_bytes out.old ++ drawing_text bands.now history.now) }
{
    push_ground(alloc, out, bands, history)?;
    push_over(alloc, out, bands, history)?;
    push_below(alloc, out, bands, history)
}

/// Puts the drawing of a heap over a run at the end: its blocks and regions at their addresses, from call to call, and below
/// them the user's regions, the bytes that were live, the refused calls and the axis of calls. It is 1304 pixels wide. The
/// bands are those of the run ([`crate::bands_of`]).
#[tactic(auto, unfolding(crate::specs::Time::time_text))]
pub fn push_time(
    alloc: Global,
    out: &mut String,
    bands: &[Band],
    history: &History,
) -> Result<(), AllocError>
    requires its { bands.now ≡ bands_of history.now.stays history.now.heap }
    requires drawn { All IsBand bands.now }
    ensures { OnOk result (string_bytes out.new ≡ string_bytes out.old ++ time_text history.now) }
{
    if calls_of(history) == 0 {
        return push_title(alloc, out, 0);
    }
    push_drawing(alloc, out, bands, history)
}

/// The height of that drawing, in pixels.
#[tactic(auto, unfolding(crate::specs::Time::time_height))]
pub fn time_height(bands: &[Band], history: &History) -> u128
    requires its { bands.now ≡ bands_of history.now.stays history.now.heap }
    requires drawn { All IsBand bands.now }
    ensures { result ≡ time_height history.now }
{
    let calls = calls_of(history);
    if calls == 0 {
        return 64;
    }
    calls_top(bands, history) + calls_height(calls, history.lines.as_slice()) + 12
}
