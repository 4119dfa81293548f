//! Ranges of pages, with answers that were counted by hand.
use crate::checks::same;
use kernel_tables::{RangeFault, Tables};
use paging_core::{Page, PhysAddr, PhysFrame, Rights, Size2MiB, VirtAddr};
use std::process::Abort;
use std::test::Fail;

const ALL: Rights = Rights {
    write: true,
    user: true,
    fetch: true,
};

const FEW: Rights = Rights {
    write: false,
    user: true,
    fetch: false,
};

fn page(number: u64) -> Page {
    Page::containing_address(VirtAddr::new_truncate(number.wrapping_mul(4096)))
}

fn frame(number: u64) -> PhysFrame {
    PhysFrame::containing_address(PhysAddr::new_truncate(number.wrapping_mul(4096)))
}

/// Where the page leads, and whether it may be written.
fn seen(tables: &Tables<'_>, number: u64) -> Option<(u64, bool)> {
    tables
        .walk(page(number))
        .map(|mapped| (mapped.frame.number(), mapped.write))
}

/// Whether the slot of the page is mapped by one entry.
fn is_large(tables: &Tables<'_>, number: u64) -> bool {
    let slot: Page<Size2MiB> = Page::containing_address(page(number).start_address());
    tables.large_page(slot).is_some()
}

/// A range of 1536 pages from 500 on, to frames from 2548 on: the first 12 pages, two whole slots, and 500 pages more.
fn map_three_slots<R: Abort>(rt: &R, tables: &mut Tables<'_>) {
    same(
        rt,
        tables.map_range(page(500), 1536, frame(2548), ALL),
        Ok(()),
    );
    same(rt, seen(tables, 499), None);
    same(rt, seen(tables, 500), Some((2548, true)));
    same(rt, seen(tables, 511), Some((2559, true)));
    same(rt, seen(tables, 512), Some((2560, true)));
    same(rt, seen(tables, 2035), Some((4083, true)));
    same(rt, seen(tables, 2036), None);
    same(rt, is_large(tables, 500), false);
    same(rt, is_large(tables, 512), true);
    same(rt, is_large(tables, 1535), true);
    same(rt, is_large(tables, 1536), false);
}

/// A page of one large page leaves, and pages of both get other rights.
fn change_three_slots<R: Abort>(rt: &R, tables: &mut Tables<'_>) {
    same(rt, tables.protect_range(page(1000), 536, FEW), Ok(()));
    same(rt, tables.free_frames(), 2);
    same(rt, seen(tables, 999), Some((3047, true)));
    same(rt, seen(tables, 1000), Some((3048, false)));
    same(rt, seen(tables, 1535), Some((3583, false)));
    same(rt, seen(tables, 1536), Some((3584, true)));
    same(rt, is_large(tables, 512), false);
    same(rt, is_large(tables, 1024), true);
    same(rt, tables.unmap_range(page(600), 1), Ok(()));
    same(rt, seen(tables, 600), None);
    same(rt, seen(tables, 601), Some((2649, true)));
    same(
        rt,
        tables.unmap_range(page(600), 100),
        Err(RangeFault::NotMapped(page(600))),
    );
    same(rt, tables.unmap_range(page(1024), 512), Ok(()));
    same(rt, tables.free_frames(), 2);
    same(rt, seen(tables, 1024), None);
    same(rt, seen(tables, 1023), Some((3071, false)));
    same(rt, seen(tables, 1536), Some((3584, true)));
}

#[test]
fn whole_slots_take_one_entry(rt: HostRuntime) -> Result<(), Fail> {
    // eight frames from 16 on, of 8192: the root, two tables above the slots, and two of the four slots' own
    let mut words = vec![in rt.alloc(); 0u64; 4096]?;
    let Some(mut tables) = Tables::new(&mut words, 16, 8192) else {
        return Err(Fail::from("no tables"));
    };
    map_three_slots(&rt, &mut tables);
    same(&rt, tables.free_frames(), 3);
    change_three_slots(&rt, &mut tables);
    Ok(())
}

/// What is refused, by its first cause.
fn refuse<R: Abort>(rt: &R, tables: &mut Tables<'_>) {
    let last = page((1 << 35) - 1);
    same(
        rt,
        tables.map_range(last, 2, frame(9000), ALL),
        Err(RangeFault::NotCanonical),
    );
    same(
        rt,
        tables.map_range(page(0), u64::MAX, frame(9000), ALL),
        Err(RangeFault::NotCanonical),
    );
    same(rt, tables.map(page(700), frame(100), ALL), Ok(()));
    same(rt, tables.map(page(5), frame(100), ALL), Ok(()));
    same(
        rt,
        tables.map_range(page(6), 800, frame(9000), ALL),
        Err(RangeFault::IsMapped(page(700))),
    );
    same(
        rt,
        tables.map_range(page(6), 600, frame(7593), ALL),
        Err(RangeFault::PastLimit),
    );
    same(
        rt,
        tables.map_range(page(6), 17, frame(0), ALL),
        Err(RangeFault::InArea),
    );
    same(rt, tables.map_range(page(6), 16, frame(0), ALL), Ok(()));
    same(
        rt,
        tables.unmap_range(page(5), 18),
        Err(RangeFault::NotMapped(page(22))),
    );
    same(
        rt,
        tables.protect_range(last, 2, ALL),
        Err(RangeFault::NotCanonical),
    );
}

/// Two frames of the area are free. A slot of single pages needs one, and one after the first 2^27 pages needs three.
fn run_out<R: Abort>(rt: &R, tables: &mut Tables<'_>) {
    same(rt, tables.free_frames(), 2);
    same(
        rt,
        tables.map_range(page((1 << 27) - 1), 2, frame(0), ALL),
        Err(RangeFault::NoFrames { wanting: 3 }),
    );
    same(
        rt,
        tables.map_range(page(1 << 27), 1, frame(0), ALL),
        Err(RangeFault::NoFrames { wanting: 1 }),
    );
    same(
        rt,
        tables.map_range(page(1 << 27), 512, frame(512), ALL),
        Ok(()),
    );
    same(rt, tables.free_frames(), 0);
    same(
        rt,
        tables.unmap_range(page((1 << 27) + 1), 511),
        Err(RangeFault::NoFrames { wanting: 1 }),
    );
    same(rt, seen(tables, (1 << 27) + 1), Some((513, true)));
    same(rt, tables.unmap_range(page(1 << 27), 512), Ok(()));
    same(rt, tables.map_range(page(6), 0, frame(0), ALL), Ok(()));
}

#[test]
fn ranges_are_refused_as_wholes(rt: HostRuntime) -> Result<(), Fail> {
    // seven frames from 16 on, of 8192: the root, two tables above the slots, and two of slots
    let mut words = vec![in rt.alloc(); 0u64; 3584]?;
    let Some(mut tables) = Tables::new(&mut words, 16, 8192) else {
        return Err(Fail::from("no tables"));
    };
    refuse(&rt, &mut tables);
    run_out(&rt, &mut tables);
    Ok(())
}
