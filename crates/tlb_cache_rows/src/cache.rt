ghost use Rattle.std.specs.Prelude.{◌<◌};

use crate::checks::same;
use bitflags::Flags;
use kernel_heap::{Access, PageFaultErrorCode, PagedSystem, Rights, UnmapFault};
use paging_core::{Page, VirtAddr};
use std::alloc::{AllocError, Global};
use std::process::Abort;
use std::test::Fail;
use tlb_cache::{CachedFault, CachedSystem, Probed, Tlb};
use x86_instructions::tlb::FlushCommand;

const READ: Rights = Rights {
    write: false,
    user: false,
    fetch: false,
};

/// The page of an address.
fn page(address: u64) -> Page {
    Page::containing_address(VirtAddr::new_truncate(address))
}

/// A system with `frames` frames, whose window is at 0x400000.
fn system(alloc: Global, frames: u32) -> Result<PagedSystem, AllocError>
    requires { 0 < frames }
{
    PagedSystem::new(alloc, 0x40_0000, 16, frames)
}

/// A system with a cache of `capacity` translations, and `INVLPGB` of at most 7 pages.
fn cached(alloc: Global, frames: u32, capacity: u64) -> Result<CachedSystem, AllocError>
    requires frames { 0 < frames }
    requires capacity { 0 < capacity }
{
    CachedSystem::new(alloc, 0x40_0000, 16, frames, capacity, 7)
}

/// Looks a page up, and answers whether it had an entry.
fn look(tlb: &mut Tlb, system: &PagedSystem, address: u64) -> bool {
    let translated = tlb.translate(system.frames(), system.root(), page(address));
    translated.hit
}

/// Checks that these pages have entries, and no others.
fn expect_pages<R: Abort>(rt: &R, tlb: &Tlb, pages: &[u64]) {
    same(rt, tlb.len(), pages.len() as u64);
    for address in pages {
        assert!(rt; tlb.contains(page(*address)), "{:x}", *address);
    }
}

#[test]
fn the_oldest_leaves_first(rt: HostRuntime) -> Result<(), Fail> {
    let mut cached = cached(rt.alloc(), 64, 2)?;
    same(&rt, cached.map(0x1_0000, 3, READ), Ok(()));
    for address in [0x1_0000, 0x1_1000, 0x1_2000] {
        same(
            &rt,
            cached.probe(address, Access::Read, false),
            Probed::Byte(0),
        );
    }
    expect_pages(&rt, cached.tlb(), &[0x1_1000, 0x1_2000]);
    // A hit leaves the order, so its entry is the next to leave.
    same(
        &rt,
        cached.probe(0x1_1000, Access::Read, false),
        Probed::Byte(0),
    );
    same(
        &rt,
        cached.probe(0x1_0000, Access::Read, false),
        Probed::Byte(0),
    );
    expect_pages(&rt, cached.tlb(), &[0x1_2000, 0x1_0000]);
    match cached.unmap(0x1_0000, 3) {
        Ok(list) => {
            let flush = FlushCommand::Invlpgb {
                rax: 0x1_0001,
                ecx: 3,
                edx: 0,
            };
            same(&rt, list.as_slice(), [flush].as_slice());
        }
        Err(_) => panic!(&rt; "the region is there"),
    }
    same(&rt, cached.tlb().len(), 0);
    let fault = Probed::Fault(PageFaultErrorCode::from_bits_retain(0));
    same(&rt, cached.probe(0x1_1000, Access::Read, false), fault);
    same(&rt, cached.tlb().len(), 0);
    Ok(())
}

#[test]
fn commands_cover_their_pages(rt: HostRuntime) -> Result<(), Fail> {
    let mut system = system(rt.alloc(), 64)?;
    same(&rt, system.map(0x5000, 3, READ), Ok(()));
    let mut tlb = Tlb::new(rt.alloc(), 8)?;
    for address in [0x5000, 0x6000, 0x7000] {
        assert!(rt; !look(&mut tlb, &system, address));
    }
    expect_pages(&rt, &tlb, &[0x5000, 0x6000, 0x7000]);
    tlb.apply(&FlushCommand::Invlpg(VirtAddr::new_truncate(0x6000)));
    expect_pages(&rt, &tlb, &[0x5000, 0x7000]);
    tlb.apply(&FlushCommand::Invlpgb {
        rax: 0x5001,
        ecx: 0,
        edx: 0,
    });
    expect_pages(&rt, &tlb, &[0x7000]);
    tlb.apply(&FlushCommand::ReloadCr3);
    expect_pages(&rt, &tlb, &[]);
    Ok(())
}

/// A command, and the pages of 0x5000, 0x6000 and 0x7000 that it leaves.
#[derive(Drop)]
struct Row<'a> {
    command: FlushCommand,
    left: &'a [u64],
}

/// `INVLPGB` of pages from an address on, and of 2 MiB if bit 31 of ECX is set.
fn invlpgb(rax: u64, ecx: u32) -> FlushCommand {
    FlushCommand::Invlpgb { rax, ecx, edx: 0 }
}

/// `INVPCID` of a type.
fn invpcid(kind: u64, address: u64) -> FlushCommand {
    FlushCommand::Invpcid {
        kind,
        pcid: 5,
        address,
    }
}

/// Checks what each command leaves of three entries.
fn expect_left<R: Abort>(rt: &R, system: &PagedSystem, tlb: &mut Tlb, rows: &[Row]) {
    for row in rows {
        for address in [0x5000, 0x6000, 0x7000] {
            look(tlb, system, address);
        }
        tlb.apply(&row.command);
        expect_pages(rt, tlb, row.left);
    }
}

#[test]
fn each_kind_of_command(rt: HostRuntime) -> Result<(), Fail> {
    let mut system = system(rt.alloc(), 64)?;
    same(&rt, system.map(0x5000, 3, READ), Ok(()));
    let mut tlb = Tlb::new(rt.alloc(), 8)?;
    let all = [0x5000, 0x6000, 0x7000];
    let rows = [
        Row {
            command: FlushCommand::Invlpg(VirtAddr::new_truncate(0x6fff)),
            left: &[0x5000, 0x7000],
        },
        Row {
            command: FlushCommand::Invlpg(VirtAddr::new_truncate(0x8000)),
            left: &all,
        },
        Row {
            command: invpcid(0, 0x5123),
            left: &[0x6000, 0x7000],
        },
        Row {
            command: invpcid(0, 0x4fff),
            left: &all,
        },
        Row {
            command: invpcid(1, 0x9000),
            left: &[],
        },
        Row {
            command: invpcid(2, 0),
            left: &[],
        },
        Row {
            command: invpcid(3, 0),
            left: &[],
        },
        Row {
            command: FlushCommand::ReloadCr3,
            left: &[],
        },
        // Two pages; one, by a count of 0; none of them; and all, as no address is given.
        Row {
            command: invlpgb(0x6001, 2),
            left: &[0x5000],
        },
        Row {
            command: invlpgb(0x6001, 0),
            left: &[0x5000, 0x7000],
        },
        Row {
            command: invlpgb(0x8001, 9),
            left: &all,
        },
        Row {
            command: invlpgb(0x8000, 1),
            left: &[],
        },
        // A page of 2 MiB has the 512 pages of 4 KiB at its addresses.
        Row {
            command: invlpgb(0x1f_f001, 0x8000_0000),
            left: &[],
        },
        Row {
            command: invlpgb(0x20_0001, 0x8000_0003),
            left: &all,
        },
    ];
    expect_left(&rt, &system, &mut tlb, &rows);
    Ok(())
}

#[test]
fn pages_of_a_large_page_have_entries_of_their_own(rt: HostRuntime) -> Result<(), Fail> {
    let mut cached = cached(rt.alloc(), 1200, 4)?;
    same(&rt, cached.map(0x20_0000, 512, READ), Ok(()));
    for address in [0x20_0000, 0x20_1000, 0x3f_f000] {
        same(
            &rt,
            cached.probe(address, Access::Read, false),
            Probed::Byte(0),
        );
    }
    expect_pages(&rt, cached.tlb(), &[0x20_0000, 0x20_1000, 0x3f_f000]);
    Ok(())
}

#[test]
fn the_last_page_is_flushed_with_all_others(rt: HostRuntime) -> Result<(), Fail> {
    let mut cached = cached(rt.alloc(), 64, 4)?;
    let last = 0xffff_ffff_ffff_f000;
    same(&rt, cached.map(last, 1, READ), Ok(()));
    same(&rt, cached.map(0x1000, 1, READ), Ok(()));
    same(
        &rt,
        cached.probe(last, Access::Read, false),
        Probed::Byte(0),
    );
    same(
        &rt,
        cached.probe(0x1000, Access::Read, false),
        Probed::Byte(0),
    );
    match cached.unmap(last, 1) {
        Ok(list) => same(&rt, list.as_slice(), [invlpgb(0, 0)].as_slice()),
        Err(_) => panic!(&rt; "the region is there"),
    }
    same(&rt, cached.tlb().len(), 0);
    Ok(())
}

#[test]
fn refusals_leave_the_entries(rt: HostRuntime) -> Result<(), Fail> {
    let mut cached = cached(rt.alloc(), 64, 4)?;
    same(&rt, cached.map(0x1000, 2, READ), Ok(()));
    same(
        &rt,
        cached.probe(0x1000, Access::Read, false),
        Probed::Byte(0),
    );
    for (start, pages, fault) in [
        (0x1000, 1, UnmapFault::UnknownRegion),
        (0x1000, 1 << 40, UnmapFault::BadRange),
        (0x1000, 1 << 30, UnmapFault::UnknownRegion),
        (0x1001, 2, UnmapFault::BadRange),
        (0x8000_0000_0000, 2, UnmapFault::BadRange),
        (0x7fff_ffff_f000, 2, UnmapFault::BadRange),
    ] {
        same(
            &rt,
            cached.unmap(start, pages).err(),
            Some(CachedFault::Unmap(fault)),
        );
    }
    same(
        &rt,
        cached.probe(0x8000_0000_0000, Access::Read, false),
        Probed::NotCanonical,
    );
    let write = Probed::Fault(PageFaultErrorCode::from_bits_retain(3));
    same(&rt, cached.probe(0x1000, Access::Write, false), write);
    expect_pages(&rt, cached.tlb(), &[0x1000]);
    Ok(())
}
