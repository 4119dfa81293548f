// Calls of page tables by the numbers that C has: addresses and frames.
ghost use Rattle.std.specs.Prelude.{◌≡◌, ◌/◌, ◌^◌, Some};
ghost use Rattle.kernel_tables.specs.Changes.{IsPageMapped, IsPageGranted, IsLargeMapped, IsMappedInARow, IsRangeGranted};
ghost use Rattle.kernel_tables.specs.Flush.{page_alone, pages_of_slot};
ghost use Rattle.kernel_tables.specs.Grants.{given_by, user_of};
ghost use Rattle.limzhur_c.specs.TablesAnswers.{IsChangeTold, IsRangeTold};
ghost use Rattle.limzhur_c.specs.TablesCodes.{map_code, entry_code, range_code, fault_detail, map_answer, map_large_answer, grant_answer, map_range_cause, grant_range_cause};

use crate::tables_handle::TablesHandle;
use kernel_tables::{EntryFault, Grant, MapFault, RangeFault};
use paging_core::{Page, PageBits, PhysAddr, PhysFrame, Size2MiB, VirtAddr};

/// The number of a refusal to map.
fn map_code(fault: MapFault) -> u32
    ensures { result ≡ map_code (Some fault) }
{
    match fault {
        MapFault::IsMapped => 2,
        MapFault::PastLimit => 3,
        MapFault::InArea => 4,
        MapFault::NoFrames { .. } => 5,
        MapFault::HasTable => 7,
    }
}

/// The number of a refusal to change an entry.
pub(crate) fn entry_code(fault: EntryFault) -> u32
    ensures { result ≡ entry_code (Some fault) }
{
    match fault {
        EntryFault::NotMapped => 6,
        EntryFault::InArea => 4,
        EntryFault::NoFrames => 5,
    }
}

/// The number of a refusal of a range, and in `told` its page or how many frames are wanting, if it has either.
pub(crate) fn refuse(fault: RangeFault, told: &mut u64) -> u32
    ensures code { result ≡ range_code (Some fault) }
    ensures told { told.new ≡ fault_detail (Some fault) told.old }
{
    match fault {
        RangeFault::NotCanonical => 1,
        RangeFault::IsMapped(page) => {
            *told = page.start_address().as_u64();
            2
        }
        RangeFault::PastLimit => 3,
        RangeFault::InArea => 4,
        RangeFault::LeadsIntoArea(page) => {
            *told = page.start_address().as_u64();
            4
        }
        RangeFault::NoFrames { wanting } => {
            *told = wanting;
            5
        }
        RangeFault::NotMapped(page) => {
            *told = page.start_address().as_u64();
            6
        }
    }
}

/// Maps the page of an address to a frame with the bits.
pub(crate) fn map_page(handle: &mut TablesHandle, address: u64, frame: u64, bits: PageBits) -> u32
    ensures change { IsChangeTold (page_alone (address / 4096)) (map_answer handle.old.tables address frame bits.user) handle.old.tables result handle.new.tables }
    ensures mapped { result ≡ 0 → IsPageMapped handle.old.tables handle.new.tables (address / 4096) frame bits }
{
    let Ok(address) = VirtAddr::try_new(address) else {
        return 1;
    };
    if frame >= 1 << 40 {
        return 3;
    }
    let frame = PhysFrame::containing_address(PhysAddr::new(frame << 12));
    match handle
        .open()
        .map_with(Page::containing_address(address), frame, bits)
    {
        Ok(()) => 0,
        Err(fault) => map_code(fault),
    }
}

/// Maps the 2 MiB from an address on to the 512 frames from `frame` on, by one entry, with the bits.
pub(crate) fn map_slot(handle: &mut TablesHandle, address: u64, frame: u64, bits: PageBits) -> u32
    ensures change { IsChangeTold (pages_of_slot (address / 2 ^ 21)) (map_large_answer handle.old.tables address frame bits.user) handle.old.tables result handle.new.tables }
    ensures mapped { result ≡ 0 → IsLargeMapped handle.old.tables handle.new.tables (address / 2 ^ 21) (frame / 512) bits }
{
    let Ok(address) = VirtAddr::try_new(address) else {
        return 1;
    };
    let page: Result<Page<Size2MiB>, _> = Page::from_start_address(address);
    let Ok(page) = page else {
        return 8;
    };
    if frame % 512 != 0 {
        return 8;
    }
    if frame >= 1 << 40 {
        return 3;
    }
    let run = PhysFrame::containing_address(PhysAddr::new(frame << 12));
    match handle.open().map_large_with(page, run, bits) {
        Ok(()) => 0,
        Err(fault) => map_code(fault),
    }
}

/// Maps `pages` pages, from that of an address on, to the frames from `frame` on with the bits.
pub(crate) fn map_pages(
    handle: &mut TablesHandle,
    address: u64,
    pages: u64,
    frame: u64,
    bits: PageBits,
    told: &mut u64,
) -> u32
    ensures change { IsRangeTold address pages (map_range_cause handle.old.tables address pages frame bits.user) handle.old.tables told.old result told.new handle.new.tables }
    ensures mapped { result ≡ 0 → IsMappedInARow handle.old.tables handle.new.tables (address / 4096) pages frame bits }
{
    let Ok(address) = VirtAddr::try_new(address) else {
        return 1;
    };
    if frame >= 1 << 40 {
        return 3;
    }
    let frame = PhysFrame::containing_address(PhysAddr::new(frame << 12));
    match handle
        .open()
        .map_range_with(Page::containing_address(address), pages, frame, bits)
    {
        Ok(()) => 0,
        Err(fault) => refuse(fault, told),
    }
}

/// Gives the entry of the page of an address rights, or all its bits. A large page of which it is part is split first.
pub(crate) fn grant_page(handle: &mut TablesHandle, address: u64, grant: Grant) -> u32
    ensures change { IsChangeTold (page_alone (address / 4096)) (grant_answer handle.old.tables address (user_of grant)) handle.old.tables result handle.new.tables }
    ensures granted { result ≡ 0 → IsPageGranted handle.old.tables handle.new.tables (address / 4096) (given_by grant) }
{
    let Ok(address) = VirtAddr::try_new(address) else {
        return 1;
    };
    match handle
        .open()
        .grant(Page::containing_address(address), grant)
    {
        Ok(()) => 0,
        Err(fault) => entry_code(fault),
    }
}

/// Gives the entries of `pages` pages, from that of an address on, rights, or all their bits. A large page that lies in part among
/// them is split first.
pub(crate) fn grant_pages(
    handle: &mut TablesHandle,
    address: u64,
    pages: u64,
    grant: Grant,
    told: &mut u64,
) -> u32
    ensures change { IsRangeTold address pages (grant_range_cause handle.old.tables address pages (user_of grant)) handle.old.tables told.old result told.new handle.new.tables }
    ensures granted { result ≡ 0 → IsRangeGranted handle.old.tables handle.new.tables (address / 4096) pages (given_by grant) }
{
    let Ok(address) = VirtAddr::try_new(address) else {
        return 1;
    };
    match handle
        .open()
        .grant_range(Page::containing_address(address), pages, grant)
    {
        Ok(()) => 0,
        Err(fault) => refuse(fault, told),
    }
}
