// Address spaces: calls on pages and on bytes beside areas of one page each.
ghost use Rattle.std.specs.Prelude.{◌^◌, ◌≤◌};

use crate::{CODE, DATA};
use address_space::{Space, SpaceFault};
use measuring::Watch;
use std::io;

/// Where the pages are, where their copies are, and where the areas beside them begin.
const HERE: u64 = 0x1000_0000;

const COPY: u64 = 0x2000_0000;

const AREAS: u64 = 0x4000_0000;

/// What the program says where a call is refused, which none should be.
fn refused(_fault: SpaceFault) -> io::Error {
    io::Error::from(io::ErrorKind::Unsupported)
}

/// Maps this number of areas of one page, with a page between each two.
fn map_areas(space: &mut Space, areas: u32) -> Result<(), SpaceFault> {
    for area in 0..areas {
        space.map_at(AREAS + 8192 * u64::from(area), 1, DATA)?;
    }
    Ok(())
}

fn map_and_unmap(space: &mut Space, pages: u64, rounds: u32) -> Result<(), SpaceFault> {
    for _ in 0..rounds {
        space.map_at(HERE, pages, DATA)?;
        space.unmap(HERE, pages)?;
    }
    Ok(())
}

fn protect(space: &mut Space, pages: u64, rounds: u32) -> Result<(), SpaceFault> {
    for round in 0..rounds {
        let rights = if round % 2 == 0 { CODE } else { DATA };
        space.protect(HERE, pages, rights)?;
    }
    Ok(())
}

fn duplicate_and_unmap(space: &mut Space, pages: u64, rounds: u32) -> Result<(), SpaceFault> {
    for _ in 0..rounds {
        space.duplicate(HERE, pages, COPY)?;
        space.unmap(COPY, pages)?;
    }
    Ok(())
}

fn store(space: &mut Space, at: u64, bytes: &[u8], rounds: u32) -> Result<(), SpaceFault> {
    for _ in 0..rounds {
        space.store(at, bytes, false)?;
    }
    Ok(())
}

fn load(space: &Space, at: u64, length: u64, rounds: u32) -> Result<(), SpaceFault> {
    for _ in 0..rounds {
        space.load(at, length, false)?;
    }
    Ok(())
}

/// Calls on `pages` pages, behind one round that is not counted.
fn measure_pages(rt: &HostRuntime, space: &mut Space, pages: u64, rounds: u32) -> io::Result<()> {
    map_and_unmap(space, pages, 1).map_err(refused)?;
    let watch = Watch::start(rt)?;
    map_and_unmap(space, pages, rounds).map_err(refused)?;
    let map = watch.mean(rt, rounds)?;
    space.map_at(HERE, pages, DATA).map_err(refused)?;
    let watch = Watch::start(rt)?;
    protect(space, pages, rounds).map_err(refused)?;
    let protect = watch.mean(rt, rounds)?;
    duplicate_and_unmap(space, pages, 1).map_err(refused)?;
    let watch = Watch::start(rt)?;
    duplicate_and_unmap(space, pages, rounds).map_err(refused)?;
    let duplicate = watch.mean(rt, rounds)?;
    space.unmap(HERE, pages).map_err(refused)?;
    eprintln!(rt;
        "  {pages} pages: map_at and unmap {map:?}, protect {protect:?}, duplicate and unmap {duplicate:?}"
    )
}

/// 4096 bytes from an address on, in one or two pages.
fn measure_bytes(rt: &HostRuntime, space: &mut Space, at: u64, rounds: u32) -> io::Result<()> {
    let bytes = vec![in rt.alloc(); 0xab; 4096]?;
    space.map_at(HERE, 2, DATA).map_err(refused)?;
    let watch = Watch::start(rt)?;
    store(space, at, &bytes, rounds).map_err(refused)?;
    let store = watch.mean(rt, rounds)?;
    let watch = Watch::start(rt)?;
    load(space, at, 4096, rounds).map_err(refused)?;
    let load = watch.mean(rt, rounds)?;
    space.unmap(HERE, 2).map_err(refused)?;
    eprintln!(rt; "  4096 bytes from {at:#x} on: store {store:?}, load {load:?}")
}

/// Measures a space with this number of areas.
pub(crate) fn measure(rt: &HostRuntime, areas: u32) -> io::Result<()>
    requires { areas ≤ 2 ^ 20 }
{
    let mut space = Space::new(rt.alloc(), areas + areas / 128 + 4_000)?;
    map_areas(&mut space, areas).map_err(refused)?;
    eprintln!(rt; "{areas} areas:")?;
    measure_pages(rt, &mut space, 1, 1_000)?;
    measure_pages(rt, &mut space, 1_000, 20)?;
    measure_bytes(rt, &mut space, HERE, 1_000)?;
    measure_bytes(rt, &mut space, HERE + 2048, 1_000)?;
    let left = space.areas(rt.alloc())?.len();
    println!(rt; "{areas} areas: {left} left")
}
