//! Tables beside a plain map of pages, over many calls.
ghost use Rattle.std.specs.Prelude.{◌<◌, ◌^◌};

use crate::checks::same;
use crate::plain::{Frames, Given, Lead, PAGES, Pages, Plain, Slot, page_at};
use kernel_tables::{EntryFault, MapFault, RangeFault, Tables};
use paging_core::{Page, PageBits, PhysAddr, PhysFrame, Rights, Size2MiB};
use std::alloc::Global;
use std::process::Abort;
use std::test::Fail;

/// A draw below a bound.
fn draw(state: &mut u64, bound: u64) -> u64
    requires { 0 < bound }
    ensures { result < bound }
{
    *state = state
        .wrapping_mul(6364136223846793005)
        .wrapping_add(1442695040888963407);
    (*state >> 33) % bound
}

fn drawn_rights(state: &mut u64) -> Rights {
    Rights {
        write: draw(state, 2) == 0,
        user: draw(state, 2) == 0,
        fetch: draw(state, 2) == 0,
    }
}

/// Half of the time all bits of an entry, else rights.
fn drawn_given(state: &mut u64) -> Given {
    let rights = drawn_rights(state);
    match draw(state, 2) {
        0 => Given::Only(rights),
        _ => Given::All(PageBits {
            through: draw(state, 2) == 0,
            uncached: draw(state, 2) == 0,
            global: draw(state, 2) == 0,
            ..rights.bits()
        }),
    }
}

/// The bits of a new page.
fn new_bits(given: Given) -> PageBits {
    match given {
        Given::All(bits) => bits,
        Given::Only(rights) => rights.bits(),
    }
}

/// A range of the window: mostly a few pages, now and then some slots.
fn drawn_pages(state: &mut u64) -> Pages {
    let count = match draw(state, 8) {
        0 => draw(state, 1600),
        1 => 512,
        _ => draw(state, 40),
    };
    let first = match draw(state, 3) {
        0 => draw(state, 4).wrapping_mul(512),
        _ => draw(state, PAGES),
    };
    Pages {
        first,
        count: count.min(PAGES.wrapping_sub(first)),
    }
}

/// A frame near the area, half of the time at the same place in a row of 512 as the page.
fn drawn_frame(state: &mut u64, frames: Frames, place: u64) -> u64 {
    let base = frames.first.saturating_sub(2048) / 512 * 512;
    let row = draw(state, 8).wrapping_mul(512);
    let within = match draw(state, 2) {
        0 => place % 512,
        _ => draw(state, 512),
    };
    base.wrapping_add(row).wrapping_add(within)
}

fn frame(number: u64) -> PhysFrame {
    PhysFrame::containing_address(PhysAddr::new_truncate(number.wrapping_mul(4096)))
}

fn large(slot: u64) -> Page<Size2MiB> {
    Page::containing_address(page_at(slot.wrapping_mul(512)).start_address())
}

fn map(
    tables: &mut Tables<'_>,
    page: Page,
    frame: PhysFrame,
    given: Given,
) -> Result<(), MapFault> {
    match given {
        Given::All(bits) => tables.map_with(page, frame, bits),
        Given::Only(rights) => tables.map(page, frame, rights),
    }
}

fn protect(tables: &mut Tables<'_>, page: Page, given: Given) -> Result<(), EntryFault> {
    match given {
        Given::All(bits) => tables.protect_with(page, bits),
        Given::Only(rights) => tables.protect(page, rights),
    }
}

fn map_range(
    tables: &mut Tables<'_>,
    pages: Pages,
    frame: PhysFrame,
    given: Given,
) -> Result<(), RangeFault> {
    let first = page_at(pages.first);
    match given {
        Given::All(bits) => tables.map_range_with(first, pages.count, frame, bits),
        Given::Only(rights) => tables.map_range(first, pages.count, frame, rights),
    }
}

fn protect_range(tables: &mut Tables<'_>, pages: Pages, given: Given) -> Result<(), RangeFault> {
    let first = page_at(pages.first);
    match given {
        Given::All(bits) => tables.protect_range_with(first, pages.count, bits),
        Given::Only(rights) => tables.protect_range(first, pages.count, rights),
    }
}

/// Makes a call on both.
fn turn<R: Abort>(
    rt: &R,
    tables: &mut Tables<'_>,
    plain: &mut Plain,
    frames: Frames,
    state: &mut u64,
) {
    let pages = drawn_pages(state);
    let given = drawn_given(state);
    let lead = Lead {
        frame: drawn_frame(state, frames, pages.first),
        bits: new_bits(given),
    };
    let first = page_at(pages.first);
    match draw(state, 8) {
        0 => same(
            rt,
            map(tables, first, frame(lead.frame), given),
            plain.map(pages.first, lead),
        ),
        1 => same(
            rt,
            tables.unmap(first).map(|frame| frame.number()),
            plain.unmap(pages.first),
        ),
        2 => same(
            rt,
            protect(tables, first, given),
            plain.protect(pages.first, given),
        ),
        3 => map_large_both(rt, tables, plain, pages.first / 512, lead, given),
        4 => same(
            rt,
            tables
                .unmap_large(large(pages.first / 512))
                .map(|frame| frame.number()),
            plain.unmap_large(pages.first / 512),
        ),
        5 => same(
            rt,
            tables.unmap_range(first, pages.count),
            plain.unmap_range(pages),
        ),
        6 => same(
            rt,
            protect_range(tables, pages, given),
            plain.protect_range(pages, given),
        ),
        _ => same(
            rt,
            map_range(tables, pages, frame(lead.frame), given),
            plain.map_range(pages, lead),
        ),
    }
}

fn map_large_both<R: Abort>(
    rt: &R,
    tables: &mut Tables<'_>,
    plain: &mut Plain,
    slot: u64,
    lead: Lead,
    given: Given,
) {
    let run: PhysFrame<Size2MiB> = PhysFrame::containing_address(frame(lead.frame).start_address());
    let first = Lead {
        frame: run.number().wrapping_mul(512),
        bits: lead.bits,
    };
    let found = match given {
        Given::All(bits) => tables.map_large_with(large(slot), run, bits),
        Given::Only(rights) => tables.map_large(large(slot), run, rights),
    };
    same(rt, found, plain.map_large(slot, first));
}

/// Checks that a page leads to the same place in both.
fn compare_page<R: Abort>(rt: &R, tables: &Tables<'_>, plain: &Plain, place: u64) {
    let found = tables.walk(page_at(place)).map(|mapped| Lead {
        frame: mapped.frame.number(),
        bits: PageBits {
            write: mapped.write,
            user: mapped.user,
            fetch: mapped.fetch,
            through: mapped.through,
            uncached: mapped.uncached,
            global: mapped.global,
        },
    });
    same(rt, found, plain.lead(place));
}

/// Checks that both have the same large pages and free frames.
fn compare<R: Abort>(rt: &R, tables: &Tables<'_>, plain: &Plain) {
    same(rt, tables.free_frames(), plain.free);
    for slot in 0..4 {
        same(
            rt,
            tables.large_page(large(slot)).is_some(),
            plain.slot(slot) == Slot::Large,
        );
    }
}

/// Makes fifty calls on both, with a look at some pages after each and at all at the end.
fn turns<R: Abort>(
    rt: &R,
    tables: &mut Tables<'_>,
    plain: &mut Plain,
    frames: Frames,
    state: &mut u64,
) {
    for _ in 0..50 {
        turn(rt, tables, plain, frames, state);
        compare(rt, tables, plain);
        for _ in 0..20 {
            compare_page(rt, tables, plain, draw(state, PAGES));
        }
    }
    for place in 0..PAGES {
        compare_page(rt, tables, plain, place);
    }
}

/// Tables in areas of three to nine frames, from this one on, with fifty calls each. Their words are no zeros at first.
fn rounds<R: Abort>(rt: &R, alloc: Global, base: u64) -> Result<(), Fail>
    requires { base < 2 ^ 30 }
{
    let mut state = base.wrapping_add(7);
    for _ in 0..200 {
        let count = draw(&mut state, 7).wrapping_add(3);
        let frames = Frames {
            first: base,
            end: base.wrapping_add(count),
            limit: base.wrapping_add(1700),
        };
        let mut words = vec![in alloc; u64::MAX; count.wrapping_mul(512) as usize]?;
        let mut plain = Plain::new(alloc, frames)?;
        let Some(mut tables) = Tables::new(&mut words, frames.first, frames.limit) else {
            return Err(Fail::from("no tables"));
        };
        // in half of the areas the kernel asks for pages of its own that lead there
        if draw(&mut state, 2) == 0 {
            tables.share_area();
            plain.share_area();
        }
        turns(rt, &mut tables, &mut plain, frames, &mut state);
    }
    Ok(())
}

#[test]
fn calls_beside_low_tables(rt: HostRuntime) -> Result<(), Fail> {
    rounds(&rt, rt.alloc(), 0)
}

#[test]
fn calls_beside_high_tables(rt: HostRuntime) -> Result<(), Fail> {
    rounds(&rt, rt.alloc(), 1 << 20)
}
