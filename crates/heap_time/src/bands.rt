// Where addresses are in a band.
ghost use Rattle.std.specs.Prelude.{◌≡◌, ◌<◌, ◌≤◌, ◌^◌};
ghost use Rattle.heap_time.specs.Bands.{IsBand, pixels_of, address_height, tallness, band_units, along, start_along, length_along, cover_left, cover_width, cover_top, cover_height};

use crate::covers::{Cover, bottom_in, top_in};
use heap_history::Band;

/// The height of some bytes of a band, in pixels.
#[tactic(auto, unfolding(crate::specs::Bands::pixels_of))]
pub fn pixels_of(band: Band, bytes: u128) -> u128
    requires band { IsBand band }
    requires bytes { bytes ≤ 2 ^ 64 }
    ensures value { result ≡ pixels_of band bytes }
{
    bytes * band.height / band.high.saturating_sub(band.low).max(1)
}

/// Where an address of a band is.
#[tactic(auto, unfolding(crate::specs::Bands::address_height))]
pub fn place_of(band: Band, address: u128) -> u128
    requires band { IsBand band }
    requires address { address ≤ 2 ^ 64 }
    ensures value { result ≡ address_height band address }
    ensures few { result < 2 ^ 81 }
{
    (band.y + band.height).saturating_sub(pixels_of(band, address.saturating_sub(band.low)))
}

/// How high what is covered of a band is.
pub fn tallness(band: Band, cover: Cover) -> u128
    requires { IsBand band }
    ensures { result ≡ tallness band cover }
{
    pixels_of(
        band,
        top_in(band, cover).saturating_sub(bottom_in(band, cover)),
    )
}

/// The height of a band, in 64ths of a pixel.
pub fn band_units(band: Band) -> u128
    requires { IsBand band }
    ensures value { result ≡ band_units band }
    ensures few { result ≤ 2 ^ 16 }
{
    64 * band.height
}

// Where a part of a whole ends, along an edge of this many units.
#[tactic(auto, unfolding(crate::specs::Bands::along))]
fn along(units: u128, whole: u128, part: u128) -> u128
    requires units { units ≤ 2 ^ 16 }
    requires part { part ≤ 2 ^ 64 }
    ensures { result ≡ along units whole part }
{
    (part * units / whole.max(1)).min(units)
}

// Where what begins with a part of a whole begins.
fn start_along(units: u128, whole: u128, part: u128) -> u128
    requires units { units ≤ 2 ^ 16 }
    requires part { part ≤ 2 ^ 64 }
    ensures { result ≡ start_along units whole part }
{
    along(units, whole, part).min(units.saturating_sub(64))
}

// How long what goes from one part of a whole to another is: a pixel at least.
fn length_along(units: u128, whole: u128, part: u128, end: u128) -> u128
    requires units { units ≤ 2 ^ 16 }
    requires part { part ≤ 2 ^ 64 }
    requires end { end ≤ 2 ^ 64 }
    ensures { result ≡ length_along units whole part end }
{
    along(units, whole, end)
        .saturating_sub(along(units, whole, part))
        .max(64)
}

/// Where the calls of a cover begin, over the width of a band.
pub fn cover_left(calls: u64, cover: Cover) -> u128
    ensures { result ≡ cover_left calls cover }
{
    start_along(65_536, u128::from(calls), u128::from(cover.born))
}

/// How wide they are.
pub fn cover_width(calls: u64, cover: Cover) -> u128
    ensures { result ≡ cover_width calls cover }
{
    let (born, end) = (u128::from(cover.born), u128::from(cover.end));
    length_along(65_536, u128::from(calls), born, end)
}

/// Where what a band has of a cover begins, downwards.
pub fn cover_top(band: Band, cover: Cover) -> u128
    requires { IsBand band }
    ensures { result ≡ cover_top band cover }
{
    let bytes = band.high.saturating_sub(band.low);
    let top = band.high.saturating_sub(top_in(band, cover));
    start_along(band_units(band), bytes, top)
}

/// How high it is.
pub fn cover_height(band: Band, cover: Cover) -> u128
    requires { IsBand band }
    ensures { result ≡ cover_height band cover }
{
    let bytes = band.high.saturating_sub(band.low);
    let top = band.high.saturating_sub(top_in(band, cover));
    let bottom = band.high.saturating_sub(bottom_in(band, cover));
    length_along(band_units(band), bytes, top, bottom)
}
