//! Ends of runs that a paged system takes back: rows whose answers are known.
ghost use Rattle.std.specs.Prelude.{◌≡◌, IfOk, []};
ghost use Rattle.paged_systems.specs.System.{paged};
ghost use Rattle.paged_systems.specs.Words.{grants_of};

use heap_memory::Allocator;
use kernel_heap::{PagedSystem, Rights};
use std::alloc::{AllocError, Global};
use std::process::Abort;
use std::test::Fail;

// A window of 64 pages from 0x400000 on, in which the user has 0x40c000.
fn beside_a_page_of_the_user(alloc: Global) -> Result<PagedSystem, AllocError>
    ensures { IfOk result (λ system. grants_of (paged system) ≡ []) }
{
    let mut system = PagedSystem::new(alloc, 0x40_0000, 64, 1024)?;
    let rights = Rights {
        write: true,
        user: true,
        fetch: false,
    };
    let _ = system.map(0x40_c000, 1, rights);
    Ok(system)
}

// Grants 4 pages and 8 after them, and gives all back but `left` times 16 bytes. Answers whether they were taken.
fn given_back(system: &mut PagedSystem, left: u16) -> Option<bool>
    requires { grants_of (paged system.old) ≡ [] }
{
    let Ok(first) = system.alloc(4 * 4096) else {
        return None;
    };
    let Ok(second) = system.alloc(8 * 4096) else {
        return None;
    };
    if second.base != first.base + first.size {
        return None;
    }
    let size = first.size + second.size;
    if left == 0 {
        return Some(system.free(first.base, size));
    }
    let left = u64::from(left) * 16;
    if left > size {
        return None;
    }
    Some(system.free_part(first.base, size, left))
}

// The first page of a region and its pages, and zeros if there is none.
fn pages_at(system: &PagedSystem, alloc: Global, index: u64) -> Result<(u64, u64), AllocError> {
    let list = system.regions(alloc)?;
    Ok(
        list.get(index)
            .map_or((0, 0), |region| (region.start / 4096, region.pages)),
    )
}

/// How many times 16 bytes are left, whether the others are taken back, and then the free frames, the regions, and where
/// three pages are granted.
struct Row {
    left: u16,
    taken: bool,
    free: u64,
    regions: [(u64, u64); 3],
    place: u64,
}

const ROWS: [Row; 7] = [
    Row {
        left: 0,
        taken: true,
        free: 1019,
        regions: [(0x40c, 1), (0, 0), (0, 0)],
        place: 0x40_0000,
    },
    Row {
        left: 1,
        taken: false,
        free: 1007,
        regions: [(0x400, 4), (0x404, 8), (0x40c, 1)],
        place: 0x40_d000,
    },
    Row {
        left: 256,
        taken: true,
        free: 1018,
        regions: [(0x400, 1), (0x40c, 1), (0, 0)],
        place: 0x40_1000,
    },
    Row {
        left: 1024,
        taken: true,
        free: 1015,
        regions: [(0x400, 4), (0x40c, 1), (0, 0)],
        place: 0x40_4000,
    },
    Row {
        left: 1025,
        taken: false,
        free: 1007,
        regions: [(0x400, 4), (0x404, 8), (0x40c, 1)],
        place: 0x40_d000,
    },
    Row {
        left: 1280,
        taken: true,
        free: 1014,
        regions: [(0x400, 4), (0x404, 1), (0x40c, 1)],
        place: 0x40_5000,
    },
    Row {
        left: 3072,
        taken: true,
        free: 1007,
        regions: [(0x400, 4), (0x404, 8), (0x40c, 1)],
        place: 0x40_d000,
    },
];

/// Checks that a row holds, over a system that has granted nothing.
fn expect_row(
    rt: &impl Abort,
    alloc: Global,
    system: &mut PagedSystem,
    row: &Row,
) -> Result<(), Fail>
    requires { grants_of (paged system.old) ≡ [] }
{
    let left = row.left;
    assert_eq!(rt; given_back(system, left), Some(row.taken), "{left}");
    assert_eq!(rt;
        (system.free_frames(), system.tables()),
        (row.free, 4),
        "{left}"
    );
    for (index, region) in row.regions.into_iter().enumerate() {
        assert_eq!(rt; pages_at(system, alloc, index as u64)?, region, "{left}");
    }
    let next = match system.alloc(3 * 4096) {
        Ok(grant) => grant.base,
        Err(_) => 0,
    };
    assert_eq!(rt; next, row.place, "{left}");
    Ok(())
}

#[test]
fn ends_of_runs_are_given_back(rt: HostRuntime) -> Result<(), Fail> {
    let alloc = rt.alloc();
    for row in &ROWS {
        let mut system = beside_a_page_of_the_user(alloc)?;
        expect_row(&rt, alloc, &mut system, row)?;
    }
    Ok(())
}
