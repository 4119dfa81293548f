// Arrows from the place that a block left to the one that it was moved to.
ghost use Rattle.std.specs.Prelude.{◌≡◌, ◌<◌, ◌^◌, ◌++◌, OnOk, string_bytes};
ghost use Rattle.std.specs.Bool.{OnTrue};
ghost use Rattle.std.specs.List.{All, flat_map};
ghost use Rattle.heap_time.specs.Bands.{IsBand};
ghost use Rattle.heap_time.specs.Moves.{is_moved, is_next, middle_of, is_in_band, height_at, head_words, arrow_line, arrow_text, arrow_to, move_text, moves_text};

use crate::bands::place_of;
use heap_history::{Band, Ending, Stay, x_of};
use std::alloc::AllocError;

// Whether a stay ended since its block was moved.
fn is_moved(ending: Ending) -> bool
    ensures { result ≡ is_moved ending }
{
    match ending {
        Ending::Live => false,
        Ending::Freed => false,
        Ending::Reset => false,
        Ending::Moved => true,
        Ending::Resized => false,
    }
}

// Whether a stay is the next one of a block that was moved.
#[tactic(auto, unfolding(crate::specs::Moves::is_next))]
fn is_next(stay: Stay, next: Stay) -> bool
    ensures { result ≡ is_next stay next }
{
    is_moved(stay.ending) && next.block == stay.block && next.born == stay.end
}

// The address in the middle of a stay.
fn middle_of(stay: Stay) -> u128
    ensures { result ≡ middle_of stay }
{
    u128::from(stay.address) + u128::from(stay.size / 2)
}

// Whether an address is in a band, or at its end.
#[tactic(auto, unfolding(crate::specs::Moves::is_in_band))]
fn is_within(address: u128, band: Band) -> bool
    requires { IsBand band }
    ensures value { result ≡ is_in_band address band }
    ensures few { OnTrue result (address < 2 ^ 64) }
{
    band.low <= address && address <= band.high
}

// Where an address is, in the highest band that has it.
#[tactic(auto, using(crate::proofs::Steps::height_step, crate::proofs::Steps::height_last, std::proofs::lemmas::Grind::common_steps))]
fn height_at(address: u128, bands: &[Band]) -> u128
    requires { All IsBand bands.now }
    ensures { result ≡ height_at address bands.now }
{
    for band in bands {
        if is_within(address, *band) {
            return place_of(*band, address);
        }
    }
    84
}

// The head of an arrow upwards, or downwards.
#[tactic(auto, unfolding(crate::specs::Moves::head_words))]
fn head_words(y: u128, to: u128) -> &'static str
    ensures { result.now ≡ head_words y to }
{
    if to < y {
        "m-4 5l4 -5l4 5"
    } else {
        "m-4 -5l4 5l4 -5"
    }
}

#[tactic(auto, unfolding(crate::specs::Moves::arrow_line))]
fn push_line(out: &mut String, x: u128, y: u128, to: u128) -> Result<(), AllocError>
    ensures { OnOk result (string_bytes out.new ≡ string_bytes out.old ++ arrow_line x y to) }
{
    write!(out, "<path class=\"mark\" d=\"M{x} {y}V{to}")
}

#[tactic(auto, unfolding(crate::specs::Moves::arrow_text))]
fn push_arrow(out: &mut String, x: u128, y: u128, to: u128) -> Result<(), AllocError>
    ensures { OnOk result (string_bytes out.new ≡ string_bytes out.old ++ arrow_text x y to) }
{
    push_line(out, x, y, to)?;
    out.push_str(head_words(y, to))?;
    out.push_str("\" stroke-width=\"1.5\"/>\n")
}

// Puts an arrow from a stay to the next one of its block at the end, if it is that.
#[tactic(auto, unfolding(crate::specs::Moves::arrow_to))]
fn push_arrow_to(
    out: &mut String,
    calls: u64,
    bands: &[Band],
    stay: Stay,
    next: Stay,
) -> Result<(), AllocError>
    requires { All IsBand bands.now }
    ensures { OnOk result (string_bytes out.new ≡ string_bytes out.old ++ arrow_to calls bands.now stay next) }
{
    if !is_next(stay, next) {
        return Ok(());
    }
    let from = height_at(middle_of(stay), bands);
    let to = height_at(middle_of(next), bands);
    push_arrow(out, x_of(stay.end, calls), from, to)
}

#[tactic(auto, unfolding(crate::specs::Moves::move_text))]
fn push_moves_of(
    out: &mut String,
    calls: u64,
    bands: &[Band],
    stays: &[Stay],
    stay: Stay,
) -> Result<(), AllocError>
    requires { All IsBand bands.now }
    ensures { OnOk result (string_bytes out.new ≡ string_bytes out.old ++ move_text calls bands.now stays.now stay) }
{
    for next in stays {
        push_arrow_to(out, calls, bands, stay, *next)?;
    }
    Ok(())
}

fn push_all(out: &mut String, calls: u64, bands: &[Band], stays: &[Stay]) -> Result<(), AllocError>
    requires { All IsBand bands.now }
    ensures { OnOk result (string_bytes out.new ≡ string_bytes out.old ++ flat_map (move_text calls bands.now stays.now) stays.now) }
{
    for stay in stays {
        push_moves_of(out, calls, bands, stays, *stay)?;
    }
    Ok(())
}

/// Puts an arrow at the end for each stay whose block was moved, from its middle to that of the next one, if there are at most
/// 64 calls.
#[tactic(auto, unfolding(crate::specs::Moves::moves_text))]
pub fn push_moves(
    out: &mut String,
    calls: u64,
    bands: &[Band],
    stays: &[Stay],
) -> Result<(), AllocError>
    requires { All IsBand bands.now }
    ensures { OnOk result (string_bytes out.new ≡ string_bytes out.old ++ moves_text calls bands.now stays.now) }
{
    if calls <= 64 {
        return push_all(out, calls, bands, stays);
    }
    Ok(())
}
