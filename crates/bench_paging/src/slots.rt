// Regions with large pages, and the same regions over slots that have tables, so that each page has an entry of its own.
ghost use Rattle.std.specs.Prelude.{◌≡◌, ◌%◌, ◌^◌, ◌<◌, ◌≤◌, IsTrue};
ghost use Rattle.paging_core.specs.Address.{is_canonical};

use crate::DATA;
use crate::regions::map_and_unmap;
use mapped_regions::MappedRegions;
use measuring::Watch;
use paging_core::{PageSize, Size2MiB};
use std::io;

/// The address of the first page.
const FIRST: u64 = 0x4000_0000;

/// How often the pages are mapped and unmapped.
const ROUNDS: u32 = 20;

/// How many words are put into this number of pages: a million, but for few pages.
fn words_for(pages: u32) -> u32
    requires few { pages ≤ 2 ^ 20 }
{
    (2_000 * pages).min(1_000_000)
}

/// Maps and unmaps the first page of each of these slots: each has a table from then on, and is no large page any more.
fn make_tables(memory: &mut MappedRegions, slots: u64)
    requires { slots ≤ 2 ^ 20 }
{
    for slot in 0..slots {
        map_and_unmap(memory, FIRST + Size2MiB::SIZE * slot, 1, 1);
    }
}

/// The place of a word in this number of pages: each is a page and a word behind the one before.
fn place_of(number: u32, pages: u32) -> u64
    requires some { 0 < pages }
    requires few { pages ≤ 2 ^ 20 }
    ensures aligned { result % 8 ≡ 0 }
    ensures canonical { IsTrue (is_canonical result) }
{
    FIRST + 8 * (513 * u64::from(number) % (512 * u64::from(pages)))
}

/// At how many of the places a walk finds a page.
fn walk_to_all(memory: &MappedRegions, pages: u32) -> u32
    requires some { 0 < pages }
    requires few { pages ≤ 2 ^ 20 }
{
    let mut met = 0u32;
    for number in 0..words_for(pages) {
        if memory.rights_at(place_of(number, pages)).is_some() {
            met = met.saturating_add(1);
        }
    }
    met
}

/// Puts a word at each of the places at which a walk finds a page, and answers how many these are.
fn put_all(memory: &mut MappedRegions, pages: u32) -> u32
    requires some { 0 < pages }
    requires few { pages ≤ 2 ^ 20 }
{
    let mut put = 0u32;
    for number in 0..words_for(pages) {
        let place = place_of(number, pages);
        if memory.rights_at(place).is_some() {
            memory.set_word(place, u64::from(number));
            put = put.saturating_add(1);
        }
    }
    put
}

fn measure_region(rt: &HostRuntime, memory: &mut MappedRegions, pages: u32) -> io::Result<()>
    requires some { 0 < pages }
    requires few { pages ≤ 2 ^ 20 }
{
    map_and_unmap(memory, FIRST, u64::from(pages), 1);
    let watch = Watch::start(rt)?;
    let served = map_and_unmap(memory, FIRST, u64::from(pages), ROUNDS);
    let both = watch.mean(rt, ROUNDS)?;
    memory
        .map(FIRST, u64::from(pages), DATA)
        .map_err(|_| io::Error::from(io::ErrorKind::OutOfMemory))?;
    let large = memory.take_slots().map_or(0, |slots| slots.len());
    let watch = Watch::start(rt)?;
    let met = walk_to_all(memory, pages);
    let walk = watch.mean(rt, words_for(pages))?;
    let watch = Watch::start(rt)?;
    let put = put_all(memory, pages);
    let word = watch.mean(rt, words_for(pages))?;
    println!(rt;
        "{pages} pages, {large} slots by one entry: {served} pairs of map and unmap served, {met} walks met, {put} words put"
    )?;
    eprintln!(rt;
        "{pages} pages, {large} slots by one entry: map and unmap {both:?}, a walk {walk:?}, a walk and a word {word:?}"
    )
}

/// Measures a region of this number of pages with large pages, and then without.
pub(crate) fn measure(rt: &HostRuntime, pages: u32) -> io::Result<()>
    requires some { 0 < pages }
    requires few { pages ≤ 2 ^ 20 }
{
    let frames = pages + pages / 512 + 1_100;
    let mut memory = MappedRegions::new(rt.alloc(), 0x40_0000, 16, frames)?;
    measure_region(rt, &mut memory, pages)?;
    let mut memory = MappedRegions::new(rt.alloc(), 0x40_0000, 16, frames)?;
    make_tables(&mut memory, u64::from(pages.div_ceil(512)));
    measure_region(rt, &mut memory, pages)
}
