// What a C program or kernel calls of ranges of pages.
ghost use Rattle.std.specs.Prelude.{◌≡◌, ◌/◌};
ghost use Rattle.kernel_tables.specs.Changes.{IsMappedInARow, IsRangeUnmapped, IsRangeGranted};
ghost use Rattle.kernel_tables.specs.Grants.{with_rights};
ghost use Rattle.paging_core.specs.PageBits.{bits_of};
ghost use Rattle.limzhur_c.specs.TablesAnswers.{IsRangeTold};
ghost use Rattle.limzhur_c.specs.TablesCodes.{map_range_cause, change_range_cause, grant_range_cause};

use crate::tables_calls::{grant_pages, map_pages, refuse};
use crate::tables_handle::TablesHandle;
use kernel_tables::Grant;
use paging_core::{Page, Rights, VirtAddr};

/// Maps `pages` pages, from that of an address on, to the frames from `frame` on with the rights, with type 0 and not global. 0 if it
/// did, and else why it did not: then nothing is changed.
#[unsafe(no_mangle)]
pub extern "C" fn limzhur_map_range(
    handle: &mut TablesHandle,
    address: u64,
    pages: u64,
    frame: u64,
    write: bool,
    user: bool,
    fetch: bool,
    told: &mut u64,
) -> u32
    ensures change { IsRangeTold address pages (map_range_cause handle.old.tables address pages frame user) handle.old.tables told.old result told.new handle.new.tables }
    ensures mapped { result ≡ 0 → IsMappedInARow handle.old.tables handle.new.tables (address / 4096) pages frame (bits_of (record { write = write; user = user; fetch = fetch })) }
{
    map_pages(
        handle,
        address,
        pages,
        frame,
        Rights { write, user, fetch }.bits(),
        told,
    )
}

/// Ends the mapping of `pages` pages, from that of an address on. A large page that lies in part among them is split
/// first. 0 if it did, and else why it did not: then nothing is changed.
#[unsafe(no_mangle)]
pub extern "C" fn limzhur_unmap_range(
    handle: &mut TablesHandle,
    address: u64,
    pages: u64,
    told: &mut u64,
) -> u32
    ensures change { IsRangeTold address pages (change_range_cause handle.old.tables address pages) handle.old.tables told.old result told.new handle.new.tables }
    ensures unmapped { result ≡ 0 → IsRangeUnmapped handle.old.tables handle.new.tables (address / 4096) pages }
{
    let Ok(address) = VirtAddr::try_new(address) else {
        return 1;
    };
    match handle
        .open()
        .unmap_range(Page::containing_address(address), pages)
    {
        Ok(()) => 0,
        Err(fault) => refuse(fault, told),
    }
}

/// Gives these rights to `pages` pages, from that of an address on. Each keeps its type, and stays global or not. A large page that
/// lies in part among them is split first. 0 if it did, and else why it did not: then nothing is changed.
#[unsafe(no_mangle)]
pub extern "C" fn limzhur_protect_range(
    handle: &mut TablesHandle,
    address: u64,
    pages: u64,
    write: bool,
    user: bool,
    fetch: bool,
    told: &mut u64,
) -> u32
    ensures change { IsRangeTold address pages (grant_range_cause handle.old.tables address pages user) handle.old.tables told.old result told.new handle.new.tables }
    ensures granted { result ≡ 0 → IsRangeGranted handle.old.tables handle.new.tables (address / 4096) pages (with_rights (record { write = write; user = user; fetch = fetch })) }
{
    grant_pages(
        handle,
        address,
        pages,
        Grant::Only(Rights { write, user, fetch }),
        told,
    )
}
