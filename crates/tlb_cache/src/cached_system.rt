ghost use Rattle.std.specs.Prelude.{◌≡◌, ◌+◌, ◌/◌, ◌%◌, ◌^◌, ◌<◌, ◌≤◌, ◌++◌, true, [], IsTrue, IsFalse, IfOk, IfErr, OnOk, OnErr};
ghost use Rattle.paging_core.specs.Address.{is_canonical};
ghost use Rattle.mapped_regions.specs.Mapped.{IsPageRange};
ghost use Rattle.mapped_regions.specs.UserRegions.{IsMapRefused, CanUnmap};
ghost use Rattle.paging_core.specs.Memory.{frame_count};
ghost use Rattle.paged_systems.specs.Window.{IsHeapWindow};
ghost use Rattle.paged_systems.specs.Layout.{IsNew};
ghost use Rattle.paged_systems.specs.System.{paged};
ghost use Rattle.paged_systems.specs.Beside.{KeepsHeapWords};
ghost use Rattle.tlb_cache.specs.Cache.{AgreesWithTables, AgreesWithTables-prop, IsLookedUp, left_by_all};
ghost use Rattle.tlb_cache.specs.Cached.{IsProbed, IsCachedRefused, Flushes, flush_of};

use crate::access;
use crate::cached_fault::CachedFault;
use crate::probed::Probed;
use crate::tlb::Tlb;
use kernel_heap::{Access, MapFault, PagedSystem, Rights};
use paging_core::{Page, PageSize, Size4KiB, VirtAddr};
use std::alloc::{AllocError, Global};
use x86_instructions::tlb::{FlushList, Invlpgb};
use x86_registers::Cpu;

/// Has a cache obey each command.
fn apply_each(tlb: &mut Tlb, list: &FlushList)
    ensures { tlb.new ≡ record tlb.old { entries = left_by_all list.now tlb.old.entries } }
{
    for command in list.as_slice() {
        tlb.apply(command);
    }
}

/// The pages of a canonical half.
const HALF_PAGES: u64 = 1 << 35;

/// A paged system with a cache of its translations. Whatever is mapped and unmapped, each entry is what the walk finds, so
/// a probe answers as it would without the cache.
#[derive(Drop)]
pub struct CachedSystem {
    system: PagedSystem,
    tlb: Tlb,
    cpu: Cpu,
    alloc: Global,
    ghost agrees: { AgreesWithTables (paged system).words (paged system).root tlb.entries } by { AgreesWithTables-prop (paged system).words (paged system).root tlb.entries },
    ghost has_invlpgb: { cpu.invlpgb ≡ true },
    ghost privileged: { cpu.cs % 4 ≡ 0 },
}

impl CachedSystem {
    ghost use Rattle.x86_registers.specs.Cpu.{new_cpu};
    ghost use Rattle.tlb_cache.specs.Calls.{IsRegionMapped, IsRegionFlushed, IsStillCached};
    ghost use Rattle.tlb_cache.specs.Cached.{cached_cpu};

    /// A system with a window of `pages` pages from the address `base` on, and with `frames` frames, of which one holds
    /// the root table; a cache with room for `capacity` translations; and a processor whose `INVLPGB` takes at most
    /// `count_max` pages. Nothing is mapped, and nothing kept (own). From 2^31 translations on it always answers want of
    /// memory; below it may too, if the host has too little.
    pub fn new(
        alloc: Global,
        base: u64,
        pages: u64,
        frames: u32,
        capacity: u64,
        count_max: u16,
    ) -> Result<CachedSystem, AllocError>
        requires window { IsHeapWindow base pages }
        requires frames { 0 < frames }
        requires capacity { 0 < capacity }
        ensures system { IfOk result (λ cached. IsNew (paged cached.system) base pages frames) }
        ensures tlb { IfOk result (λ cached. cached.tlb ≡ record { entries = []; capacity = capacity }) }
        ensures few { OnOk result (capacity < 2 ^ 31) }
        ensures cpu { IfOk result (λ cached. cached.cpu ≡ cached_cpu new_cpu count_max) }
        ensures agrees { IfOk result (λ cached. AgreesWithTables (paged cached.system).words (paged cached.system).root cached.tlb.entries) }
    {
        let mut cpu = Cpu::new();
        cpu.invlpgb = true;
        cpu.invlpgb_count_max = count_max;
        Ok(CachedSystem {
            system: PagedSystem::new(alloc, base, pages, frames)?,
            tlb: Tlb::new(alloc, capacity)?,
            cpu,
            alloc,
        })
    }

    /// The cache.
    pub fn tlb(&self) -> &Tlb
        ensures { result.now ≡ self.now.tlb }
    {
        &self.tlb
    }

    /// The system.
    pub fn system(&self) -> &PagedSystem
        ensures { result.now ≡ self.now.system }
    {
        &self.system
    }

    /// The registers of the processor.
    pub fn cpu(&self) -> &Cpu
        ensures { result.now ≡ self.now.cpu }
    {
        &self.cpu
    }

    /// As `PagedSystem::map`. The entries stay, as every page that was mapped does.
    pub fn map(&mut self, start: u64, pages: u64, rights: Rights) -> Result<(), MapFault>
        ensures mapped { OnOk result (IsRegionMapped self.old self.new start pages rights) }
        ensures err { OnErr result (paged self.new.system ≡ paged self.old.system) }
        ensures refused { IfErr result (λ fault. IsMapRefused (paged self.old.system) start pages fault) }
        ensures beside { KeepsHeapWords (paged self.old.system) (paged self.new.system) }
        ensures tlb { self.new.tlb ≡ self.old.tlb }
        ensures still { IsStillCached self.old self.new }
    {
        self.system.map(start, pages, rights)
    }

    /// As `PagedSystem::unmap`, and flushes the pages: it hands out the commands, each of which the cache has obeyed. A
    /// refused call changes nothing, and gives no command.
    pub fn unmap(&mut self, start: u64, pages: u64) -> Result<FlushList, CachedFault>
        ensures unmapped { IfOk result (λ list. IsRegionFlushed self.old self.new start pages list) }
        ensures same { OnErr result ((paged self.new.system ≡ paged self.old.system) × (self.new.tlb ≡ self.old.tlb)) }
        ensures refused { IfErr result (λ fault. IsCachedRefused (paged self.old.system) start pages fault) }
        ensures beside { KeepsHeapWords (paged self.old.system) (paged self.new.system) }
        ensures still { IsStillCached self.old self.new }
    {
        let Ok(list) = self.commands(start, pages) else {
            return Err(CachedFault::OutOfMemory);
        };
        match self.system.unmap(start, pages) {
            Ok(()) => {
                apply_each(&mut self.tlb, &list);
                Ok(list)
            }
            Err(fault) => Err(CachedFault::Unmap(fault)),
        }
    }

    /// What an access to the byte at an address gives, by what is kept of its page, or else by the walk. It takes no
    /// memory.
    pub fn probe(&mut self, at: u64, access: Access, user: bool) -> Probed
        ensures probed { IsProbed (paged self.old.system) at access user result }
        ensures system { paged self.new.system ≡ paged self.old.system }
        ensures canonical { IsTrue (is_canonical at) → IsLookedUp (paged self.old.system).words (paged self.old.system).root (at / 4096) self.old.tlb self.new.tlb }
        ensures kept { IsFalse (is_canonical at) → self.new.tlb ≡ self.old.tlb }
        ensures still { IsStillCached self.old self.new }
    {
        let Ok(address) = VirtAddr::try_new(at) else {
            return Probed::NotCanonical;
        };
        access::probe(&self.system, &mut self.tlb, address, access, user)
    }

    /// Whether `pages` pages from an address on may be a region: they are whole pages of one canonical half, at least
    /// one, and no more than there are frames. So no list is made for a range that no region has.
    #[tactic(auto, using(crate::proofs::Ranges::page_range, crate::proofs::Ranges::range_canonical))]
    fn may_be_region(&self, start: u64, pages: u64) -> bool
        ensures range { IsTrue result → IsPageRange start pages }
        ensures few { IsTrue result → pages ≤ frame_count (paged self.now.system).words }
        ensures there { CanUnmap (paged self.now.system) start pages → IsTrue result }
    {
        let first = start / Size4KiB::SIZE;
        if pages == 0 || pages > u64::from(self.system.frames().count()) {
            return false;
        }
        start % Size4KiB::SIZE == 0
            && VirtAddr::try_new(start).is_ok()
            && (first + pages - 1) / HALF_PAGES == first / HALF_PAGES
    }

    /// The commands that flush `pages` pages from an address on, if these may be a region, and else none.
    fn commands(&self, start: u64, pages: u64) -> Result<FlushList, AllocError>
        ensures list { IfOk result (λ list. CanUnmap (paged self.now.system) start pages → list ≡ flush_of self.now.cpu start pages) }
        ensures covered { OnOk result (CanUnmap (paged self.now.system) start pages → Flushes (flush_of self.now.cpu start pages) start pages) }
        ensures range { OnErr result (IsPageRange start pages) }
        ensures few { OnErr result (pages ≤ frame_count (paged self.now.system).words) }
    {
        let mut list = FlushList::new(self.alloc);
        if !self.may_be_region(start, pages) {
            return Ok(list);
        }
        self.append_commands(start, pages, &mut list)?;
        Ok(list)
    }

    /// Appends the commands that flush `pages` pages from an address on.
    #[tactic(auto, using(crate::proofs::Flushed::ranged, crate::proofs::Flushed::unranged, crate::proofs::Flushed::flush_is, crate::proofs::Flushed::flushes_all))]
    fn append_commands(
        &self,
        start: u64,
        pages: u64,
        list: &mut FlushList,
    ) -> Result<(), AllocError>
        requires { IsPageRange start pages }
        ensures appended { OnOk result (list.new ≡ list.old ++ flush_of self.now.cpu start pages) }
        ensures covered { OnOk result (Flushes (flush_of self.now.cpu start pages) start pages) }
    {
        let Some(invlpgb) = Invlpgb::new(&self.cpu) else {
            unreachable!()
        };
        let first: Page = Page::containing_address(VirtAddr::new(start));
        let flush = invlpgb.build();
        match Page::forward_checked(first, pages as usize) {
            Some(end) => flush.pages(Page::range(first, end)).flush(list),
            // There is no page after the last one, so no range can end there.
            None => flush.flush(list),
        }
    }
}
