// What a C program or kernel calls of page tables that it began.
ghost use Rattle.std.specs.Prelude.{◌≡◌, ◌≢◌, ◌⊎◌, ◌/◌, ◌^◌, true, false, Some, None};
ghost use Rattle.std.specs.Option.{option_map};
ghost use Rattle.paging_core.specs.Address.{is_canonical};
ghost use Rattle.paging_core.specs.Pool.{free_count};
ghost use Rattle.kernel_tables.specs.Changes.{IsPageMapped, IsPageUnmapped, IsPageGranted, IsLargeMapped, IsLargeUnmapped};
ghost use Rattle.kernel_tables.specs.Flush.{page_alone, pages_of_slot};
ghost use Rattle.kernel_tables.specs.Grants.{with_rights};
ghost use Rattle.paging_core.specs.PageBits.{bits_of};
ghost use Rattle.kernel_tables.specs.TableState.{leads, IsWalkedAlike};
ghost use Rattle.limzhur_c.specs.TablesAnswers.{IsChangeTold};
ghost use Rattle.limzhur_c.specs.TablesCodes.{map_answer, map_large_answer, unmap_large_answer, entry_answer, grant_answer, told_of};

use crate::tables_calls::{entry_code, grant_page, map_page, map_slot};
use crate::tables_handle::TablesHandle;
use kernel_tables::Grant;
use paging_core::{Page, Rights, VirtAddr};

/// The frame of the root table, by its number: CR3 has 4096 times it.
#[unsafe(no_mangle)]
pub extern "C" fn limzhur_tables_root(handle: &mut TablesHandle) -> u64
    ensures value { result ≡ handle.old.tables.root }
    ensures processor { IsWalkedAlike handle.old.tables }
    ensures same { handle.new.tables ≡ handle.old.tables }
{
    handle.open().root().number()
}

/// How many frames are left for tables.
#[unsafe(no_mangle)]
pub extern "C" fn limzhur_tables_left(handle: &mut TablesHandle) -> u64
    ensures value { result ≡ free_count handle.old.tables.free }
    ensures same { handle.new.tables ≡ handle.old.tables }
{
    handle.open().free_frames()
}

/// Lets pages that users do not reach lead into the area, from now on and for good.
#[unsafe(no_mangle)]
pub extern "C" fn limzhur_share_area(handle: &mut TablesHandle)
    ensures { handle.new.tables ≡ record handle.old.tables { shared = true } }
{
    handle.open().share_area();
}

/// Where a page leads: its frame by its number, and what all entries on the way grant.
#[repr(C)]
#[derive(Drop)]
pub struct PlaceOfPage {
    /// The number of the frame.
    pub frame: u64,
    /// Writes are granted.
    pub write: bool,
    /// Accesses at user level are granted.
    pub user: bool,
    /// Instruction fetches are granted.
    pub fetch: bool,
}

/// Puts into `place` where the page of an address leads. False if it is not mapped, or the address is not canonical;
/// then `place` stays.
#[unsafe(no_mangle)]
pub extern "C" fn limzhur_lookup(
    handle: &mut TablesHandle,
    address: u64,
    place: &mut PlaceOfPage,
) -> bool
    ensures found { result ≡ true → (is_canonical address ≡ true) × (option_map told_of (leads handle.old.tables (address / 4096)) ≡ Some place.new) }
    ensures none { result ≡ false → ((is_canonical address ≡ false) ⊎ (leads handle.old.tables (address / 4096) ≡ None)) × (place.new ≡ place.old) }
    ensures same { handle.new.tables ≡ handle.old.tables }
{
    let Ok(address) = VirtAddr::try_new(address) else {
        return false;
    };
    match handle.open().walk(Page::containing_address(address)) {
        None => false,
        Some(mapped) => {
            *place = PlaceOfPage {
                frame: mapped.frame.number(),
                write: mapped.write,
                user: mapped.user,
                fetch: mapped.fetch,
            };
            true
        }
    }
}

/// Maps the page of an address to a frame with the rights, with type 0 and not global. 0 if it did, and else why it did not: then
/// nothing is changed.
#[unsafe(no_mangle)]
pub extern "C" fn limzhur_map(
    handle: &mut TablesHandle,
    address: u64,
    frame: u64,
    write: bool,
    user: bool,
    fetch: bool,
) -> u32
    ensures change { IsChangeTold (page_alone (address / 4096)) (map_answer handle.old.tables address frame user) handle.old.tables result handle.new.tables }
    ensures mapped { result ≡ 0 → IsPageMapped handle.old.tables handle.new.tables (address / 4096) frame (bits_of (record { write = write; user = user; fetch = fetch })) }
{
    map_page(handle, address, frame, Rights { write, user, fetch }.bits())
}

/// Ends the mapping of the page of an address, and puts its frame into `frame`. A large page of which it is part is
/// split first. 0 if it did, and else why it did not: then nothing is changed.
#[unsafe(no_mangle)]
pub extern "C" fn limzhur_unmap(handle: &mut TablesHandle, address: u64, frame: &mut u64) -> u32
    ensures change { IsChangeTold (page_alone (address / 4096)) (entry_answer handle.old.tables address) handle.old.tables result handle.new.tables }
    ensures unmapped { result ≡ 0 → IsPageUnmapped handle.old.tables handle.new.tables (address / 4096) frame.new }
    ensures put { result ≢ 0 → frame.new ≡ frame.old }
{
    let Ok(address) = VirtAddr::try_new(address) else {
        return 1;
    };
    match handle.open().unmap(Page::containing_address(address)) {
        Ok(gone) => {
            *frame = gone.number();
            0
        }
        Err(fault) => entry_code(fault),
    }
}

/// Gives the page of an address these rights. It keeps its type, and stays global or not. A large page of which it is part is split
/// first. 0 if it did, and else why it did not: then nothing is changed.
#[unsafe(no_mangle)]
pub extern "C" fn limzhur_protect(
    handle: &mut TablesHandle,
    address: u64,
    write: bool,
    user: bool,
    fetch: bool,
) -> u32
    ensures change { IsChangeTold (page_alone (address / 4096)) (grant_answer handle.old.tables address user) handle.old.tables result handle.new.tables }
    ensures granted { result ≡ 0 → IsPageGranted handle.old.tables handle.new.tables (address / 4096) (with_rights (record { write = write; user = user; fetch = fetch })) }
{
    grant_page(handle, address, Grant::Only(Rights { write, user, fetch }))
}

/// Maps the 2 MiB from an address on to the 512 frames from `frame` on, by one entry, with the rights, with type 0 and not global. 0
/// if it did, and else why it did not: then nothing is changed.
#[unsafe(no_mangle)]
pub extern "C" fn limzhur_map_large(
    handle: &mut TablesHandle,
    address: u64,
    frame: u64,
    write: bool,
    user: bool,
    fetch: bool,
) -> u32
    ensures change { IsChangeTold (pages_of_slot (address / 2 ^ 21)) (map_large_answer handle.old.tables address frame user) handle.old.tables result handle.new.tables }
    ensures mapped { result ≡ 0 → IsLargeMapped handle.old.tables handle.new.tables (address / 2 ^ 21) (frame / 512) (bits_of (record { write = write; user = user; fetch = fetch })) }
{
    map_slot(handle, address, frame, Rights { write, user, fetch }.bits())
}

/// Ends the mapping of the 2 MiB from an address on, which one entry maps, and puts the first of their frames into
/// `frame`. 0 if it did, and else why it did not: then nothing is changed.
#[unsafe(no_mangle)]
pub extern "C" fn limzhur_unmap_large(
    handle: &mut TablesHandle,
    address: u64,
    frame: &mut u64,
) -> u32
    ensures change { IsChangeTold (pages_of_slot (address / 2 ^ 21)) (unmap_large_answer handle.old.tables address) handle.old.tables result handle.new.tables }
    ensures unmapped { result ≡ 0 → IsLargeUnmapped handle.old.tables handle.new.tables (address / 2 ^ 21) frame.new }
    ensures free { handle.new.tables.free ≡ handle.old.tables.free }
    ensures put { result ≢ 0 → frame.new ≡ frame.old }
{
    let Ok(address) = VirtAddr::try_new(address) else {
        return 1;
    };
    let Ok(page) = Page::from_start_address(address) else {
        return 8;
    };
    match handle.open().unmap_large(page) {
        Some(run) => {
            *frame = 512 * run.number();
            0
        }
        None => 6,
    }
}
