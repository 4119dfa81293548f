// What a stay, a region or a large page covers.
ghost use Rattle.std.specs.Prelude.{◌≡◌, ◌+◌, ◌<◌, ◌≤◌, ◌^◌, length};
ghost use Rattle.std.specs.List.{count_by};
ghost use Rattle.heap_time.specs.Covers.{as_address, stay_cover, held_cover, large_cover, bottom_in, top_in, band_meets, parts_in, parts_number};

use heap_history::{Band, Held, LargePage, Stay};

/// Addresses, over calls.
#[derive(Clone, Copy, PartialEq, Eq, Debug)]
pub struct Cover {
    /// The first address.
    pub low: u64,
    /// The first address above.
    pub high: u64,
    /// The first call.
    pub born: u64,
    /// The first call after.
    pub end: u64,
}

// An address, of which the last is `u64::MAX`.
fn as_address(number: u128) -> u64
    ensures { result ≡ as_address number }
{
    number.min(18_446_744_073_709_551_615) as u64
}

/// What a stay covers.
pub fn stay_cover(stay: Stay) -> Cover
    ensures { result ≡ stay_cover stay }
{
    Cover {
        low: stay.address,
        high: as_address(u128::from(stay.address) + u128::from(stay.size.max(1))),
        born: stay.born,
        end: stay.end,
    }
}

/// What pages of the heap cover.
pub fn held_cover(held: Held) -> Cover
    ensures { result ≡ held_cover held }
{
    Cover {
        low: held.start,
        high: as_address(u128::from(held.start) + 4096 * u128::from(held.pages)),
        born: held.born,
        end: held.end,
    }
}

/// What a large page covers, in a run of `calls` calls.
pub fn large_cover(calls: u64, large: LargePage) -> Cover
    ensures { result ≡ large_cover calls large }
{
    Cover {
        low: large.slot,
        high: as_address(u128::from(large.slot) + 2_097_152),
        born: large.born,
        end: calls,
    }
}

/// The lowest address of a band that is covered.
pub fn bottom_in(band: Band, cover: Cover) -> u128
    ensures { result ≡ bottom_in band cover }
{
    band.low.max(u128::from(cover.low))
}

/// The first address above those of a band that are covered.
pub fn top_in(band: Band, cover: Cover) -> u128
    ensures value { result ≡ top_in band cover }
    ensures few { result < 2 ^ 64 }
{
    band.high.min(u128::from(cover.high))
}

/// Whether an address of the band is covered, at some call.
pub fn meets(band: Band, cover: Cover) -> bool
    ensures { result ≡ band_meets band cover }
{
    bottom_in(band, cover) < top_in(band, cover) && cover.born < cover.end
}

fn stays_in(band: Band, stays: &[Stay]) -> u128
    ensures value { result ≡ count_by (λ stay. band_meets band (stay_cover stay)) stays.now }
    ensures few { result ≤ length stays.now }
{
    let mut number = 0;
    for stay in stays {
        if meets(band, stay_cover(*stay)) {
            number += 1;
        }
    }
    number
}

fn held_in(band: Band, heap: &[Held]) -> u128
    ensures value { result ≡ count_by (λ held. band_meets band (held_cover held)) heap.now }
    ensures few { result ≤ length heap.now }
{
    let mut number = 0;
    for held in heap {
        if meets(band, held_cover(*held)) {
            number += 1;
        }
    }
    number
}

// How many stays and regions of the heap a band has.
#[tactic(auto, unfolding(crate::specs::Covers::parts_in))]
fn parts_in(band: Band, stays: &[Stay], heap: &[Held]) -> u128
    ensures value { result ≡ parts_in stays.now heap.now band }
    ensures few { result ≤ 2 ^ 65 }
{
    stays_in(band, stays) + held_in(band, heap)
}

/// How many stays and regions of the heap all bands have.
pub fn parts_number(bands: &[Band], stays: &[Stay], heap: &[Held]) -> u128
    ensures { result ≡ parts_number bands.now stays.now heap.now }
{
    let mut number = 0;
    for band in bands {
        number += parts_in(*band, stays, heap);
    }
    number
}
