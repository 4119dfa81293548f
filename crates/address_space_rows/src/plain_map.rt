//! A space beside a plain map of pages, over many calls.
ghost use Rattle.std.specs.Prelude.{◌<◌};

use crate::checks::same;
use address_space::{Area, Space, SpaceFault};
use bitflags::Flags;
use paging_core::Rights;
use std::alloc::{AllocError, Global};
use std::process::Abort;
use std::test::Fail;
use x86_flags::PageFaultErrorCode;

/// How many pages the plain map has: more than the calls name. They share their tables.
const PAGES: u64 = 24;

/// How many frames are free if no page is mapped: of 64, one is the root, and three are tables.
const FREE: u64 = 60;

/// The rights of each page that is mapped, and the bytes of all.
#[derive(Drop)]
struct Plain {
    rights: Vec<Option<Rights>>,
    bytes: Vec<u8>,
}

impl Plain {
    fn new(alloc: Global) -> Result<Self, AllocError> {
        Ok(Plain {
            rights: vec![in alloc; None; PAGES as usize]?,
            bytes: vec![in alloc; 0; PAGES as usize * 4096]?,
        })
    }

    fn rights_of(&self, page: u64) -> Option<Rights> {
        match self.rights.get(page as usize) {
            Some(rights) => *rights,
            None => None,
        }
    }

    fn byte(&self, at: u64) -> u8 {
        match self.bytes.get(at as usize) {
            Some(byte) => *byte,
            None => 0,
        }
    }

    fn set_rights(&mut self, page: u64, rights: Option<Rights>) {
        if let Some(place) = self.rights.get_mut(page as usize) {
            *place = rights;
        }
    }

    fn set_byte(&mut self, at: u64, byte: u8) {
        if let Some(place) = self.bytes.get_mut(at as usize) {
            *place = byte;
        }
    }

    fn copy(&mut self, source: u64, target: u64) {
        for offset in 0..4096 {
            let byte = self.byte(source.wrapping_mul(4096).wrapping_add(offset));
            self.set_byte(target.wrapping_mul(4096).wrapping_add(offset), byte);
        }
    }

    fn clear(&mut self, page: u64) {
        for offset in 0..4096 {
            self.set_byte(page.wrapping_mul(4096).wrapping_add(offset), 0);
        }
    }
}

/// Pages one after the other.
#[derive(Clone, Copy)]
struct Pages {
    first: u64,
    count: u64,
}

impl Pages {
    fn start(self) -> u64 {
        self.first.wrapping_mul(4096)
    }

    fn page(self, step: u64) -> u64 {
        self.first.wrapping_add(step)
    }
}

/// How many of the pages are mapped.
fn mapped(plain: &Plain, pages: Pages) -> u64 {
    let mut count = 0u64;
    for step in 0..pages.count {
        if plain.rights_of(pages.page(step)).is_some() {
            count = count.wrapping_add(1);
        }
    }
    count
}

/// The first of the pages that is not mapped.
fn hole(plain: &Plain, pages: Pages) -> Option<SpaceFault> {
    for step in 0..pages.count {
        let page = pages.page(step);
        if plain.rights_of(page).is_none() {
            return Some(SpaceFault::Hole {
                at: page.wrapping_mul(4096),
            });
        }
    }
    None
}

fn map_both<R: Abort>(rt: &R, space: &mut Space, plain: &mut Plain, pages: Pages, rights: Rights) {
    let answer = space.map_at(pages.start(), pages.count, rights);
    if mapped(plain, pages) > 0 {
        same(rt, answer, Err(SpaceFault::Overlap));
        return;
    }
    same(rt, answer, Ok(()));
    for step in 0..pages.count {
        plain.set_rights(pages.page(step), Some(rights));
        plain.clear(pages.page(step));
    }
}

fn unmap_both<R: Abort>(rt: &R, space: &mut Space, plain: &mut Plain, pages: Pages) {
    let answer = space.unmap(pages.start(), pages.count);
    same(rt, answer, Ok(mapped(plain, pages)));
    for step in 0..pages.count {
        plain.set_rights(pages.page(step), None);
    }
}

fn protect_both<R: Abort>(
    rt: &R,
    space: &mut Space,
    plain: &mut Plain,
    pages: Pages,
    rights: Rights,
) {
    let answer = space.protect(pages.start(), pages.count, rights);
    if let Some(fault) = hole(plain, pages) {
        same(rt, answer, Err(fault));
        return;
    }
    same(rt, answer, Ok(()));
    for step in 0..pages.count {
        plain.set_rights(pages.page(step), Some(rights));
    }
}

/// The lowest place for as many pages, from the first of them on.
fn lowest_place(plain: &Plain, pages: Pages) -> Option<Pages> {
    for first in pages.first..PAGES {
        let place = Pages {
            first,
            count: pages.count,
        };
        if place.page(place.count) <= PAGES && mapped(plain, place) == 0 {
            return Some(place);
        }
    }
    None
}

fn place_both<R: Abort>(
    rt: &R,
    space: &mut Space,
    plain: &mut Plain,
    pages: Pages,
    rights: Rights,
) {
    let answer = space.place(pages.start(), PAGES * 4096, pages.count, rights);
    let Some(place) = lowest_place(plain, pages) else {
        same(rt, answer, Err(SpaceFault::NoRoom));
        return;
    };
    same(rt, answer, Ok(place.start()));
    for step in 0..place.count {
        plain.set_rights(place.page(step), Some(rights));
        plain.clear(place.page(step));
    }
}

fn duplicate_both<R: Abort>(
    rt: &R,
    space: &mut Space,
    plain: &mut Plain,
    source: Pages,
    target: Pages,
) {
    let answer = space.duplicate(source.start(), source.count, target.start());
    if let Some(fault) = hole(plain, source) {
        same(rt, answer, Err(fault));
        return;
    }
    if mapped(plain, target) > 0 {
        same(rt, answer, Err(SpaceFault::Overlap));
        return;
    }
    same(rt, answer, Ok(()));
    for step in 0..source.count {
        plain.set_rights(target.page(step), plain.rights_of(source.page(step)));
        plain.copy(source.page(step), target.page(step));
    }
}

/// The longest runs of the plain map's pages.
fn plain_areas(plain: &Plain, alloc: Global) -> Result<Vec<Area>, AllocError> {
    let mut areas = Vec::new(alloc);
    let mut open: Option<Area> = None;
    for page in 0..=PAGES {
        open = match (open, plain.rights_of(page)) {
            (Some(area), Some(rights)) if area.rights == rights => Some(Area {
                start: area.start,
                pages: area.pages.wrapping_add(1),
                rights,
            }),
            (ended, rights) => {
                if let Some(area) = ended {
                    areas.push(area)?;
                }
                rights.map(|rights| Area {
                    start: page * 4096,
                    pages: 1,
                    rights,
                })
            }
        };
    }
    Ok(areas)
}

/// The bytes that an access names.
#[derive(Clone, Copy)]
struct Access {
    at: u64,
    count: u64,
    write: bool,
    user: bool,
}

/// The code of the refusal of an access to a page with the rights.
fn code_of(access: Access, rights: Option<Rights>) -> Option<u64> {
    let write = if access.write { 2 } else { 0 };
    let user = if access.user { 4 } else { 0 };
    match rights {
        None => Some(write + user),
        Some(rights) => {
            if access.write && !rights.write || access.user && !rights.user {
                Some(write + user + 1)
            } else {
                None
            }
        }
    }
}

/// The refusal of an access, byte by byte.
fn refusal(plain: &Plain, access: Access) -> Option<SpaceFault> {
    for step in 0..access.count {
        let at = access.at.wrapping_add(step);
        if let Some(code) = code_of(access, plain.rights_of(at / 4096)) {
            return Some(SpaceFault::Denied {
                at,
                code: PageFaultErrorCode::from_bits_retain(code),
            });
        }
    }
    None
}

fn store_both<R: Abort>(
    rt: &R,
    space: &mut Space,
    plain: &mut Plain,
    access: Access,
    bytes: &[u8],
) {
    let answer = space.store(access.at, bytes, access.user);
    if let Some(fault) = refusal(plain, access) {
        same(rt, answer, Err(fault));
        return;
    }
    same(rt, answer, Ok(()));
    for (step, byte) in bytes.iter().enumerate() {
        plain.set_byte(access.at.wrapping_add(step as u64), *byte);
    }
}

fn load_both<R: Abort>(rt: &R, space: &Space, plain: &Plain, access: Access) {
    match space.load(access.at, access.count, access.user) {
        Ok(bytes) => {
            same(rt, refusal(plain, access), None);
            same(rt, bytes.len(), access.count);
            for (step, byte) in bytes.as_slice().iter().enumerate() {
                same(rt, plain.byte(access.at.wrapping_add(step as u64)), *byte);
            }
        }
        Err(fault) => same(rt, refusal(plain, access), Some(fault)),
    }
}

/// A draw below a bound.
fn draw(state: &mut u64, bound: u64) -> u64
    requires { 0 < bound }
    ensures { result < bound }
{
    *state = state
        .wrapping_mul(6364136223846793005)
        .wrapping_add(1442695040888963407);
    (*state >> 33) % bound
}

fn drawn_pages(state: &mut u64) -> Pages {
    Pages {
        first: draw(state, 16),
        count: draw(state, 5).max(1),
    }
}

fn drawn_rights(state: &mut u64) -> Rights {
    Rights {
        write: draw(state, 4) != 0,
        user: draw(state, 2) == 0,
        fetch: draw(state, 2) == 0,
    }
}

fn drawn_access(state: &mut u64, write: bool) -> Access {
    Access {
        at: draw(state, 0x1_0000),
        count: draw(state, 6000).max(1),
        write,
        user: draw(state, 4) == 0,
    }
}

/// Makes a call on both.
fn turn<R: Abort>(
    rt: &R,
    alloc: Global,
    space: &mut Space,
    plain: &mut Plain,
    state: &mut u64,
) -> Result<(), Fail> {
    let pages = drawn_pages(state);
    let rights = drawn_rights(state);
    match draw(state, 7) {
        0 => map_both(rt, space, plain, pages, rights),
        1 => unmap_both(rt, space, plain, pages),
        2 => protect_both(rt, space, plain, pages, rights),
        3 => place_both(rt, space, plain, pages, rights),
        4 => {
            let target = Pages {
                first: draw(state, 16),
                count: pages.count,
            };
            duplicate_both(rt, space, plain, pages, target);
        }
        5 => {
            let access = drawn_access(state, true);
            let byte = draw(state, 256) as u8;
            let bytes = vec![in alloc; byte; access.count as usize]?;
            store_both(rt, space, plain, access, &bytes);
        }
        _ => load_both(rt, space, plain, drawn_access(state, false)),
    }
    Ok(())
}

/// Checks that both have the same areas, and that all frames are counted.
fn compare(rt: &impl Abort, alloc: Global, space: &Space, plain: &Plain) -> Result<(), Fail> {
    let all = Pages {
        first: 0,
        count: PAGES,
    };
    same(
        rt,
        space.free_frames().wrapping_add(mapped(plain, all)),
        FREE,
    );
    let areas = space.areas(alloc)?;
    let wanted = plain_areas(plain, alloc)?;
    same(rt, areas.as_slice(), wanted.as_slice());
    Ok(())
}

/// Makes many calls on both, and compares them after each.
fn turns(rt: &impl Abort, alloc: Global, space: &mut Space, plain: &mut Plain) -> Result<(), Fail> {
    same(rt, space.map_at(0, 1, drawn_rights(&mut 1)), Ok(()));
    same(rt, space.unmap(0, 1), Ok(1));
    let mut state = 7;
    for _ in 0..3000 {
        turn(rt, alloc, space, plain, &mut state)?;
        compare(rt, alloc, space, plain)?;
    }
    Ok(())
}

#[test]
fn calls_do_what_a_plain_map_does(rt: HostRuntime) -> Result<(), Fail> {
    let mut space = Space::new(rt.alloc(), 64)?;
    let mut plain = Plain::new(rt.alloc())?;
    turns(&rt, rt.alloc(), &mut space, &mut plain)
}
