use super::*;
use paging_core::{Mapped, Page, PageBits, PhysAddr, PhysFrame, Rights, Size2MiB, VirtAddr};
use std::test::Fail;

const ALL: Rights = Rights {
    write: true,
    user: false,
    fetch: false,
};

const USERS: Rights = Rights {
    write: false,
    user: true,
    fetch: false,
};

const FEW: Rights = Rights {
    write: false,
    user: false,
    fetch: false,
};

/// The frame and whether it may be written.
fn seen(found: Option<Mapped>) -> Option<(u64, bool)> {
    found.map(|mapped| (mapped.frame.number(), mapped.write))
}

fn number(frame: Result<PhysFrame, EntryFault>) -> Result<u64, EntryFault> {
    frame.map(|frame| frame.number())
}

#[test]
fn pages_lead_out_of_the_area(rt: HostRuntime) -> Result<(), Fail> {
    // eight frames from 16 on, of 2^20
    let mut words = vec![in rt.alloc(); 0u64; 4096]?;
    let Some(mut tables) = Tables::new(&mut words, 16, 1 << 20) else {
        return Err(Fail::from("no tables"));
    };
    assert_eq!(rt; (tables.root().number(), tables.free_frames()), (16, 7));
    let first = Page::containing_address(VirtAddr::new(0x400000));
    let second = Page::containing_address(VirtAddr::new(0x401000));
    let third = Page::containing_address(VirtAddr::new(0x402000));
    let memory = PhysFrame::containing_address(PhysAddr::new(0x64000));
    let device = PhysFrame::containing_address(PhysAddr::new(0xfffff000));
    let own = PhysFrame::containing_address(PhysAddr::new(0x17000));
    let past = PhysFrame::containing_address(PhysAddr::new(0x100000000));
    assert_eq!(rt; tables.map(first, memory, ALL), Ok(()));
    assert_eq!(rt; tables.map(first, device, ALL), Err(MapFault::IsMapped));
    assert_eq!(rt; tables.map(second, memory, ALL), Ok(()));
    assert_eq!(rt; tables.map(third, own, ALL), Err(MapFault::InArea));
    tables.share_area();
    assert_eq!(rt; tables.map(third, own, USERS), Err(MapFault::InArea));
    assert_eq!(rt; tables.map(third, own, ALL), Ok(()));
    assert_eq!(rt; tables.protect(third, USERS), Err(EntryFault::InArea));
    assert_eq!(rt; number(tables.unmap(third)), Ok(0x17));
    assert_eq!(rt; tables.map(third, past, ALL), Err(MapFault::PastLimit));
    assert_eq!(rt; tables.map(third, device, ALL), Ok(()));
    assert_eq!(rt; tables.free_frames(), 4);
    assert_eq!(rt; seen(tables.walk(second)), Some((0x64, true)));
    assert_eq!(rt; seen(tables.walk(third)), Some((0xfffff, true)));
    assert_eq!(rt; number(tables.unmap(first)), Ok(0x64));
    assert_eq!(rt; number(tables.unmap(first)), Err(EntryFault::NotMapped));
    assert_eq!(rt; tables.protect(second, FEW), Ok(()));
    assert_eq!(rt; seen(tables.walk(second)), Some((0x64, false)));
    assert_eq!(rt; seen(tables.walk(first)), None);
    Ok(())
}

#[test]
fn large_pages_take_one_entry(rt: HostRuntime) -> Result<(), Fail> {
    // four frames from 16 on, of 1024
    let mut words = vec![in rt.alloc(); 0u64; 2048]?;
    let Some(mut tables) = Tables::new(&mut words, 16, 1024) else {
        return Err(Fail::from("no tables"));
    };
    let page: Page<Size2MiB> = Page::containing_address(VirtAddr::new(0x400000));
    let low: PhysFrame<Size2MiB> = PhysFrame::containing_address(PhysAddr::new(0));
    let high: PhysFrame<Size2MiB> = PhysFrame::containing_address(PhysAddr::new(0x200000));
    let past: PhysFrame<Size2MiB> = PhysFrame::containing_address(PhysAddr::new(0x400000));
    let inside = Page::containing_address(VirtAddr::new(0x405000));
    assert_eq!(rt; tables.map_large(page, low, USERS), Err(MapFault::InArea));
    assert_eq!(rt; tables.map_large(page, past, ALL), Err(MapFault::PastLimit));
    assert_eq!(rt; tables.map_large(page, high, ALL), Ok(()));
    assert_eq!(rt; tables.free_frames(), 1);
    assert_eq!(rt; tables.map_large(page, high, ALL), Err(MapFault::IsMapped));
    assert_eq!(rt; seen(tables.walk(inside)), Some((0x205, true)));
    assert_eq!(rt;
        tables.unmap_large(page).map(|frame| frame.number()),
        Some(1)
    );
    assert_eq!(rt; tables.unmap_large(page).is_none(), true);
    let memory = PhysFrame::containing_address(PhysAddr::new(0x64000));
    assert_eq!(rt; tables.map(inside, memory, ALL), Ok(()));
    assert_eq!(rt; tables.map_large(page, high, ALL), Err(MapFault::HasTable));
    let far = Page::containing_address(VirtAddr::new(0x8000000000));
    assert_eq!(rt;
        tables.map(far, memory, ALL),
        Err(MapFault::NoFrames { wanting: 3 })
    );
    Ok(())
}

/// The bits of the page's place.
fn bits(found: Option<Mapped>) -> Option<PageBits> {
    found.map(|mapped| PageBits {
        write: mapped.write,
        user: mapped.user,
        fetch: mapped.fetch,
        through: mapped.through,
        uncached: mapped.uncached,
        global: mapped.global,
    })
}

#[test]
fn pages_keep_their_type(rt: HostRuntime) -> Result<(), Fail> {
    let mut words = vec![in rt.alloc(); 0u64; 4096]?;
    let Some(mut tables) = Tables::new(&mut words, 16, 1 << 20) else {
        return Err(Fail::from("no tables"));
    };
    let slot: Page<Size2MiB> = Page::containing_address(VirtAddr::new(0x400000));
    let high: PhysFrame<Size2MiB> = PhysFrame::containing_address(PhysAddr::new(0x200000));
    let inside = Page::containing_address(VirtAddr::new(0x405000));
    let beside = Page::containing_address(VirtAddr::new(0x406000));
    let device = PageBits {
        uncached: true,
        global: true,
        ..ALL.bits()
    };
    let read_only = PageBits {
        write: false,
        ..device
    };
    assert_eq!(rt; tables.map_large_with(slot, high, device), Ok(()));
    assert_eq!(rt; bits(tables.walk(inside)), Some(device));
    // a part of the large page is protected, and all of it keeps its type
    assert_eq!(rt; tables.protect(inside, FEW), Ok(()));
    assert_eq!(rt; bits(tables.walk(inside)), Some(read_only));
    assert_eq!(rt; bits(tables.walk(beside)), Some(device));
    assert_eq!(rt; tables.protect_with(inside, ALL.bits()), Ok(()));
    assert_eq!(rt; bits(tables.walk(inside)), Some(ALL.bits()));
    Ok(())
}

#[test]
fn words_stay_where_no_tables_begin(rt: HostRuntime) -> Result<(), Fail> {
    let mut words = vec![in rt.alloc(); 7u64; 1024]?;
    let mut part = vec![in rt.alloc(); 7u64; 700]?;
    let before = vec![in rt.alloc(); 7u64; 1024]?;
    // the area ends past the limit, or has a part of a frame, or none
    assert!(rt; Tables::new(&mut words, 16, 17).is_none());
    assert!(rt; Tables::new(&mut part, 16, 1024).is_none());
    assert!(rt; Tables::new(&mut words[..0], 16, 1024).is_none());
    assert_eq!(rt; words.as_slice(), before.as_slice());
    assert!(rt; part.iter().all(|word| *word == 7));
    // where they begin, only the first frame is written
    assert!(rt; Tables::new(&mut words, 16, 1024).is_some());
    assert_eq!(rt; (words[0], words[511]), (0, 0));
    assert!(rt; words[512..].iter().all(|word| *word == 7));
    Ok(())
}
