// The addresses beside the bands.
ghost use Rattle.std.specs.Prelude.{◌≡◌, ◌<◌, ◌≤◌, ◌^◌, ◌+◌, ◌*◌, ◌/◌, ◌++◌, nat_le, if◌then◌else◌, OnOk, string_bytes};
ghost use Rattle.std.specs.List.{All};
ghost use Rattle.heap_map.specs.Words.{hexadecimal};
ghost use Rattle.heap_time.specs.Bands.{IsBand};
ghost use Rattle.heap_time.specs.Addresses.{beside_text, folded_words, step_of, tick_text, ticks_text, top_text, band_ticks_text, band_scale_text, address_text, addresses_text};

use crate::bands::place_of;
use heap_history::Band;
use heap_map::{Area, push_about, push_address as push_hexadecimal, push_rect, push_text};
use std::alloc::{AllocError, Global};

#[tactic(auto, unfolding(crate::specs::Addresses::beside_text))]
fn push_beside(out: &mut String, y: u128, words: &str) -> Result<(), AllocError>
    ensures { OnOk result (string_bytes out.new ≡ string_bytes out.old ++ beside_text y words.now) }
{
    push_text(out, "m e faint", 134, y, words)
}

// Puts an address beside a band at the end.
fn push_address(alloc: Global, out: &mut String, y: u128, address: u128) -> Result<(), AllocError>
    requires { address < 2 ^ 64 }
    ensures { OnOk result (string_bytes out.new ≡ string_bytes out.old ++ beside_text y (hexadecimal address)) }
{
    let mut words = String::new(alloc);
    push_hexadecimal(&mut words, address as u64)?;
    push_beside(out, y, words.as_str())
}

#[tactic(auto, unfolding(crate::specs::Addresses::folded_words))]
fn push_folded_words(out: &mut String, band: Band) -> Result<(), AllocError>
    requires { IsBand band }
    ensures { OnOk result (string_bytes out.new ≡ string_bytes out.old ++ folded_words band) }
{
    out.push_str("(")?;
    push_about(out, band.high.saturating_sub(band.low))?;
    out.push_str(")")
}

// The bytes from one tick to the next.
#[tactic(auto, using(crate::proofs::Steps::grown_step, crate::proofs::Steps::grown_last, std::proofs::lemmas::Grind::common_steps))]
fn step_of(bytes: u128) -> u128
    requires { bytes < 2 ^ 64 }
    ensures value { result ≡ step_of bytes }
    ensures some { 1 ≤ result }
    ensures few { result ≤ 2 ^ 65 }
{
    let mut step = 1;
    for _times in 0..62usize {
        step = doubled(step, bytes);
    }
    step
}

// Twice as many bytes, if there are more than six times as many.
fn doubled(step: u128, bytes: u128) -> u128
    requires bytes { bytes < 2 ^ 64 }
    requires step { (1 ≤ step) × (step ≤ 2 ^ 65) }
    ensures value { result ≡ (if nat_le (7 * step) bytes then 2 * step else step) }
    ensures some { 1 ≤ result }
    ensures few { result ≤ 2 ^ 65 }
{
    if 7 * step <= bytes { 2 * step } else { step }
}

// Puts a tick at the end, if there is room for it.
#[tactic(auto, unfolding(crate::specs::Addresses::tick_text))]
fn push_tick(alloc: Global, out: &mut String, band: Band, address: u128) -> Result<(), AllocError>
    requires band { IsBand band }
    ensures { OnOk result (string_bytes out.new ≡ string_bytes out.old ++ tick_text band address) }
{
    if address >= band.high {
        return Ok(());
    }
    let place = place_of(band, address);
    if band.y + 22 <= place && place + 16 <= band.y + band.height {
        let mark = Area {
            x: 138,
            y: place,
            width: 6,
            height: 1,
        };
        push_rect(out, "line", mark)?;
        return push_address(alloc, out, place + 4, address);
    }
    Ok(())
}

// The address of a tick.
#[tactic(auto, using(crate::proofs::Numbers::multiple_fits, crate::proofs::Numbers::tick_fits))]
fn tick_address(low: u128, step: u128, tick: u128) -> u128
    requires low { low < 2 ^ 64 }
    requires step { (1 ≤ step) × (step ≤ 2 ^ 65) }
    requires tick { tick < 8 }
    ensures { result ≡ (low / step + tick) * step }
{
    (low / step + tick) * step
}

// Puts the ticks at the end.
fn push_ticks(alloc: Global, out: &mut String, band: Band, step: u128) -> Result<(), AllocError>
    requires band { IsBand band }
    requires step { (1 ≤ step) × (step ≤ 2 ^ 65) }
    ensures { OnOk result (string_bytes out.new ≡ string_bytes out.old ++ ticks_text band step 8) }
{
    for tick in 0..8usize {
        push_tick(alloc, out, band, tick_address(band.low, step, tick as u128))?;
    }
    Ok(())
}

// Puts the address of the top of a band at the end, if it is high enough.
#[tactic(auto, unfolding(crate::specs::Addresses::top_text))]
fn push_top(alloc: Global, out: &mut String, band: Band) -> Result<(), AllocError>
    requires { IsBand band }
    ensures { OnOk result (string_bytes out.new ≡ string_bytes out.old ++ top_text band) }
{
    if band.height >= 26 {
        return push_address(alloc, out, band.y + 9, band.high);
    }
    Ok(())
}

// Puts the ticks of a band at the end, if it is high enough.
#[tactic(auto, unfolding(crate::specs::Addresses::band_ticks_text))]
fn push_steps(alloc: Global, out: &mut String, band: Band) -> Result<(), AllocError>
    requires { IsBand band }
    ensures { OnOk result (string_bytes out.new ≡ string_bytes out.old ++ band_ticks_text band) }
{
    if band.height >= 120 {
        let bytes = band.high.saturating_sub(band.low);
        return push_ticks(alloc, out, band, step_of(bytes));
    }
    Ok(())
}

// Puts the addresses of a band that is to scale at the end.
#[tactic(auto, unfolding(crate::specs::Addresses::band_scale_text))]
fn push_scale(alloc: Global, out: &mut String, band: Band) -> Result<(), AllocError>
    requires { IsBand band }
    ensures { OnOk result (string_bytes out.new ≡ string_bytes out.old ++ band_scale_text band) }
{
    push_address(alloc, out, band.y + band.height, band.low)?;
    push_top(alloc, out, band)?;
    push_steps(alloc, out, band)
}

// Puts what stands beside a band at the end.
#[tactic(auto, unfolding(crate::specs::Addresses::address_text))]
fn push_one(alloc: Global, out: &mut String, band: Band) -> Result<(), AllocError>
    requires { IsBand band }
    ensures { OnOk result (string_bytes out.new ≡ string_bytes out.old ++ address_text band) }
{
    if !band.folded {
        return push_scale(alloc, out, band);
    }
    let mut words = String::new(alloc);
    push_folded_words(&mut words, band)?;
    push_beside(out, band.y + 12, words.as_str())
}

/// Puts the addresses beside the bands at the end.
#[tactic(auto, unfolding(crate::specs::Addresses::addresses_text))]
pub fn push_addresses(alloc: Global, out: &mut String, bands: &[Band]) -> Result<(), AllocError>
    requires { All IsBand bands.now }
    ensures { OnOk result (string_bytes out.new ≡ string_bytes out.old ++ addresses_text bands.now) }
{
    for band in bands {
        push_one(alloc, out, *band)?;
    }
    Ok(())
}
