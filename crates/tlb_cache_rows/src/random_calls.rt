ghost use Rattle.std.specs.Prelude.{◌-◌, ◌^◌, ◌<◌};

use crate::checks::same;
use kernel_heap::{Access, PagedSystem, Rights, fault_code, is_granted};
use paging_core::{Page, VirtAddr, walk};
use std::process::Abort;
use std::test::Fail;
use tlb_cache::{CachedFault, CachedSystem, Probed};

/// Numbers that follow from one another.
#[derive(Drop)]
struct Numbers {
    state: u64,
}

impl Numbers {
    /// The next number, below a bound.
    fn below(&mut self, bound: u64) -> u64
        requires { 0 < bound }
        ensures { result < bound }
    {
        self.state = self
            .state
            .wrapping_mul(6_364_136_223_846_793_005)
            .wrapping_add(1_442_695_040_888_963_407);
        (self.state >> 33) % bound
    }

    /// An address of a page: at the ends of the halves, off them, and about the bounds of slots of 2 MiB.
    fn address(&mut self) -> u64
        ensures { result < 2 ^ 64 - 4096 }
    {
        let page = self.below(20) * 0x1000;
        match self.below(5) {
            0 => 0x7fff_ffff_0000 + page,
            1 => 0xffff_ffff_fffe_0000 + page,
            2 => 0x3f_8000 + page,
            _ => 0x1_0000 + page,
        }
    }

    /// How many pages from an address on: mostly as many as the last time, so that regions are found again.
    fn pages(&mut self, start: u64) -> u64 {
        match self.below(8) {
            0 => 500 + self.below(700),
            1 => 1 + self.below(6),
            _ => 1 + start / 0x1000 % 4,
        }
    }

    fn rights(&mut self) -> Rights {
        Rights {
            write: self.below(2) == 0,
            user: self.below(2) == 0,
            fetch: self.below(2) == 0,
        }
    }

    fn access(&mut self) -> Access {
        match self.below(3) {
            0 => Access::Read,
            1 => Access::Write,
            _ => Access::Fetch,
        }
    }
}

/// What an access gives without a cache.
fn plain_probe(system: &PagedSystem, at: u64, access: Access, user: bool) -> Probed {
    let Ok(address) = VirtAddr::try_new(at) else {
        return Probed::NotCanonical;
    };
    let page = Page::containing_address(address);
    let Some(mapped) = walk(system.frames(), system.root(), page) else {
        return Probed::Fault(fault_code(false, access, user));
    };
    let rights = Rights {
        write: mapped.write,
        user: mapped.user,
        fetch: mapped.fetch,
    };
    if !is_granted(Some(rights), access, user) {
        return Probed::Fault(fault_code(true, access, user));
    }
    let word = system.frames().word(mapped.frame, (at % 4096 / 8) as u16);
    Probed::Byte((word >> 8 * (at % 8) & 0xff) as u8)
}

/// Checks that a map, an unmap or a probe answers alike with a cache and without.
fn expect_alike<R: Abort>(
    rt: &R,
    numbers: &mut Numbers,
    plain: &mut PagedSystem,
    cached: &mut CachedSystem,
) {
    let start = numbers.address();
    let pages = numbers.pages(start);
    match numbers.below(10) {
        0 | 1 => {
            let rights = numbers.rights();
            same(
                rt,
                cached.map(start, pages, rights),
                plain.map(start, pages, rights),
            );
        }
        2 => {
            let answer = plain.unmap(start, pages).map_err(CachedFault::Unmap).err();
            same(rt, cached.unmap(start, pages).err(), answer);
        }
        _ => {
            let at = start + numbers.below(0x1000);
            let (access, user) = (numbers.access(), numbers.below(2) == 0);
            let answer = plain_probe(plain, at, access, user);
            same(rt, cached.probe(at, access, user), answer);
        }
    }
}

#[test]
fn answers_are_those_without_a_cache(rt: HostRuntime) -> Result<(), Fail> {
    let mut numbers = Numbers { state: 7 };
    for capacity in [1, 5, 64] {
        let mut plain = PagedSystem::new(rt.alloc(), 0x40_0000, 16, 3000)?;
        let mut cached = CachedSystem::new(rt.alloc(), 0x40_0000, 16, 3000, capacity, 7)?;
        for _ in 0..1000 {
            expect_alike(&rt, &mut numbers, &mut plain, &mut cached);
        }
    }
    Ok(())
}
