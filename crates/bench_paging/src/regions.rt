// Regions of the user that are mapped and unmapped beside others.
ghost use Rattle.std.specs.Prelude.{◌^◌, ◌≤◌};

use crate::DATA;
use mapped_regions::MappedRegions;
use measuring::Watch;
use std::io;

/// The address of a region of one page, with a page between each two.
fn place_of(number: u64) -> u64
    requires { number ≤ 2 ^ 20 }
{
    0x1000_0000 + 8192 * number
}

/// Maps `count` regions, in an order in which neighbours come far apart, and answers how many were mapped.
fn map_all(memory: &mut MappedRegions, count: u32) -> u32
    requires { count ≤ 2 ^ 20 }
{
    let mut mapped = 0u32;
    for turn in 0..count {
        let number = u64::from(turn) * 7919 % u64::from(count);
        if memory.map(place_of(number), 1, DATA).is_ok() {
            mapped = mapped.saturating_add(1);
        }
    }
    mapped
}

/// Maps and unmaps a region of `pages` pages, and answers how often both were served.
pub(crate) fn map_and_unmap(
    memory: &mut MappedRegions,
    start: u64,
    pages: u64,
    rounds: u32,
) -> u32 {
    let mut served = 0u32;
    for _ in 0..rounds {
        if memory.map(start, pages, DATA).is_ok() && memory.unmap(start, pages).is_ok() {
            served = served.saturating_add(1);
        }
    }
    served
}

/// Measures beside `count` regions, behind all of them.
pub(crate) fn measure(rt: &HostRuntime, count: u32) -> io::Result<()>
    requires { count ≤ 2 ^ 20 }
{
    let rounds = 20_000;
    let frames = count + count / 128 + 1_000;
    let mut memory = MappedRegions::new(rt.alloc(), 0x40_0000, 16, frames)?;
    let mapped = map_all(&mut memory, count);
    let start = place_of(u64::from(count));
    map_and_unmap(&mut memory, start, 1, 1);
    let watch = Watch::start(rt)?;
    let served = map_and_unmap(&mut memory, start, 1, rounds);
    let both = watch.mean(rt, rounds)?;
    println!(rt; "{count} regions: {mapped} mapped, {served} pairs of map and unmap served")?;
    eprintln!(rt; "{count} regions: map and unmap of a page {both:?}")
}
