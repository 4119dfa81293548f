// How many extents there are, and how many bytes they have.
ghost use Rattle.std.specs.Prelude.{◌≡◌, ◌+◌, ◌^◌, ◌<◌, ◌≤◌, if◌then◌else◌};
ghost use Rattle.dlmalloc_chunks.specs.Tiling.{AreInSegments};
ghost use Rattle.run_figures.specs.Figures.{is_part, part_count, part_bytes, greatest_of, permille_of};

use dlmalloc_chunks::{Extent, Kind};

/// A part of a heap's memory.
#[derive(Clone, Copy, PartialEq, Eq, Debug)]
pub enum Part {
    /// The blocks in use, with their heads.
    Used,
    /// The free chunks, the victim and the top among them.
    Free,
    /// The records of segments, and the foot of the top.
    Overhead,
}

/// How many extents there are, and how many bytes they have together.
#[derive(Clone, Copy, PartialEq, Eq, Debug)]
pub struct Tally {
    pub number: u64,
    pub bytes: u128,
}

// Whether extents of the kind are in the part.
fn is_part(part: Part, kind: Kind) -> bool
    ensures { result ≡ is_part part kind }
{
    match kind {
        Kind::Used => part == Part::Used,
        Kind::Free | Kind::Victim | Kind::Top => part == Part::Free,
        Kind::Record | Kind::Foot => part == Part::Overhead,
    }
}

// How many extents an extent adds to the part: itself, or none.
fn part_number(part: Part, extent: Extent) -> u64
    ensures { result ≡ (if is_part part extent.kind then 1 else 0) }
{
    if is_part(part, extent.kind) { 1 } else { 0 }
}

// The bytes that an extent adds to the part.
fn part_size(part: Part, extent: Extent) -> u64
    ensures size { result ≡ (if is_part part extent.kind then extent.size else 0) }
    ensures place { extent.at < 2 ^ 64 }
{
    if is_part(part, extent.kind) {
        extent.size
    } else {
        0
    }
}

/// The extents of a part, counted.
pub fn count_part(extents: &[Extent], part: Part) -> Tally
    requires { AreInSegments extents.now }
    ensures number { result.number ≡ part_count part extents.now }
    ensures bytes { result.bytes ≡ part_bytes part extents.now }
    // The extents lie one behind the other, so they have no more bytes than the end of the last says.
    ensures few { result.bytes < 2 ^ 65 }
{
    let mut number = 0;
    let mut bytes = 0;
    for extent in extents {
        let extent = *extent;
        number += part_number(part, extent);
        bytes += u128::from(part_size(part, extent));
    }
    Tally { number, bytes }
}

/// The size of the greatest free extent, or 0 if there is none.
pub fn greatest_free(extents: &[Extent]) -> u64
    ensures { result ≡ greatest_of extents.now }
{
    let mut greatest = 0u64;
    for extent in extents {
        greatest = greatest.max(part_size(Part::Free, *extent));
    }
    greatest
}

/// How far free bytes are scattered: of 1000 of them, how many are not in the greatest free extent. That is rounded down,
/// and 0 if there are none.
pub fn permille(free: u128, greatest: u64) -> u64
    requires within { greatest ≤ free }
    requires few { free < 2 ^ 65 }
    ensures { result ≡ permille_of free greatest }
{
    if free == 0 {
        return 0;
    }
    ((free - u128::from(greatest)) * 1000 / free) as u64
}
