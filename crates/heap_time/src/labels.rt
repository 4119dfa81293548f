// What is written on stays.
ghost use Rattle.std.specs.Prelude.{◌≡◌, ◌++◌, OnOk, string_bytes};
ghost use Rattle.std.specs.List.{All};
ghost use Rattle.heap_time.specs.Bands.{IsBand};
ghost use Rattle.heap_time.specs.Labels.{stay_letters, short_label, long_label, label_at, label_in, has_label_room, stay_label_text, labels_text};

use crate::bands::{place_of, tallness};
use crate::covers::{bottom_in, meets, stay_cover, top_in};
use heap_history::{Band, Ending, Stay, x_of};
use heap_map::{push_commas, push_text};
use std::alloc::{AllocError, Global};

// The letters on a stay.
fn letters(ending: Ending) -> &'static str
    ensures { result.now ≡ stay_letters ending }
{
    match ending {
        Ending::Live => "m in",
        Ending::Freed => "m",
        Ending::Reset => "m",
        Ending::Moved => "m",
        Ending::Resized => "m",
    }
}

#[tactic(auto, unfolding(crate::specs::Labels::short_label))]
fn push_short(out: &mut String, stay: Stay) -> Result<(), AllocError>
    ensures { OnOk result (string_bytes out.new ≡ string_bytes out.old ++ short_label stay) }
{
    let block = stay.block;
    write!(out, "{block}: ")?;
    push_commas(out, u128::from(stay.size))?;
    out.push_str(" B")
}

#[tactic(auto, unfolding(crate::specs::Labels::long_label))]
fn push_long(out: &mut String, stay: Stay) -> Result<(), AllocError>
    ensures { OnOk result (string_bytes out.new ≡ string_bytes out.old ++ long_label stay) }
{
    out.push_str("block ")?;
    push_short(out, stay)
}

// Puts the label of a stay at the end that fits this width, if one does.
#[tactic(auto, unfolding(crate::specs::Labels::label_at))]
fn push_label(
    alloc: Global,
    out: &mut String,
    x: u128,
    y: u128,
    width: u128,
    stay: Stay,
) -> Result<(), AllocError>
    ensures { OnOk result (string_bytes out.new ≡ string_bytes out.old ++ label_at x y width stay) }
{
    let mut long = String::new(alloc);
    push_long(&mut long, stay)?;
    if 8 * long.len() as u128 + 8 <= width {
        return push_text(out, letters(stay.ending), x, y, long.as_str());
    }
    let mut short = String::new(alloc);
    push_short(&mut short, stay)?;
    if 8 * short.len() as u128 + 8 <= width {
        return push_text(out, letters(stay.ending), x, y, short.as_str());
    }
    let mut least = String::new(alloc);
    let block = stay.block;
    write!(&mut least, "{block}")?;
    if 8 * least.len() as u128 + 8 <= width {
        return push_text(out, letters(stay.ending), x, y, least.as_str());
    }
    Ok(())
}

// Puts the label of a stay in a band at the end.
#[tactic(auto, unfolding(crate::specs::Labels::label_in))]
fn push_label_in(
    alloc: Global,
    out: &mut String,
    calls: u64,
    stay: Stay,
    band: Band,
) -> Result<(), AllocError>
    requires { IsBand band }
    ensures { OnOk result (string_bytes out.new ≡ string_bytes out.old ++ label_in calls stay band) }
{
    let cover = stay_cover(stay);
    let middle = (bottom_in(band, cover) + top_in(band, cover)) / 2;
    let x = x_of(stay.born, calls);
    let width = x_of(stay.end, calls).saturating_sub(x);
    push_label(alloc, out, x + 5, place_of(band, middle) + 4, width, stay)
}

// Whether there is room for the label of a stay in a band.
#[tactic(auto, unfolding(crate::specs::Labels::has_label_room))]
fn has_room(band: Band, stay: Stay) -> bool
    requires { IsBand band }
    ensures { result ≡ has_label_room stay band }
{
    let cover = stay_cover(stay);
    meets(band, cover) && 12 <= tallness(band, cover)
}

// Puts the label of a stay at the end, in the highest band with room for it.
#[tactic(auto, using(crate::proofs::Steps::label_step, crate::proofs::Steps::label_last, std::proofs::lemmas::Grind::common_steps))]
fn push_label_of(
    alloc: Global,
    out: &mut String,
    calls: u64,
    bands: &[Band],
    stay: Stay,
) -> Result<(), AllocError>
    requires { All IsBand bands.now }
    ensures { OnOk result (string_bytes out.new ≡ string_bytes out.old ++ stay_label_text calls bands.now stay) }
{
    for band in bands {
        if has_room(*band, stay) {
            return push_label_in(alloc, out, calls, stay, *band);
        }
    }
    Ok(())
}

/// Puts the labels of stays at the end.
#[tactic(auto, unfolding(crate::specs::Labels::labels_text))]
pub fn push_labels(
    alloc: Global,
    out: &mut String,
    calls: u64,
    bands: &[Band],
    stays: &[Stay],
) -> Result<(), AllocError>
    requires { All IsBand bands.now }
    ensures { OnOk result (string_bytes out.new ≡ string_bytes out.old ++ labels_text calls bands.now stays.now) }
{
    for stay in stays {
        push_label_of(alloc, out, calls, bands, *stay)?;
    }
    Ok(())
}
