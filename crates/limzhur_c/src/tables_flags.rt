// What a C program or kernel calls with all bits of entries, which a word of flags names.
ghost use Rattle.std.specs.Prelude.{◌≡◌, ◌⊎◌, ◌/◌, ◌^◌, ◌<◌, nat_lt, true, false, if◌then◌else◌, Some, None};
ghost use Rattle.paging_core.specs.Address.{is_canonical};
ghost use Rattle.paging_core.specs.Walk.{mapped_place, place_with};
ghost use Rattle.kernel_tables.specs.Changes.{IsPageMapped, IsPageGranted, IsLargeMapped, IsMappedInARow, IsRangeGranted};
ghost use Rattle.kernel_tables.specs.Flush.{page_alone, pages_of_slot};
ghost use Rattle.kernel_tables.specs.Grants.{all_bits};
ghost use Rattle.kernel_tables.specs.TableState.{leads};
ghost use Rattle.limzhur_c.specs.TablesAnswers.{IsChangeTold, IsFlaggedPlaceTold, IsFlaggedRangeTold};
ghost use Rattle.limzhur_c.specs.TablesCodes.{flag_bits, flagged, map_answer, map_large_answer, grant_answer, map_range_cause, grant_range_cause};

use crate::tables_calls::{grant_page, grant_pages, map_page, map_pages, map_slot};
use crate::tables_handle::TablesHandle;
use kernel_tables::Grant;
use paging_core::{Mapped, Page, PageBits, VirtAddr};

/// The flags are below this number: any other bit is unknown.
const FLAGS: u32 = 64;

/// The answer to a word with an unknown bit.
const BAD_FLAGS: u32 = 9;

/// The bits that the flags name. None if one of them is unknown.
fn named_bits(flags: u32) -> Option<PageBits>
    ensures { result ≡ (if nat_lt flags 64 then Some (flag_bits flags) else None) }
{
    if flags >= FLAGS {
        return None;
    }
    Some(PageBits {
        write: flags % 2 == 1,
        user: flags / 2 % 2 == 1,
        fetch: flags / 4 % 2 == 1,
        through: flags / 8 % 2 == 1,
        uncached: flags / 16 % 2 == 1,
        global: flags / 32 % 2 == 1,
    })
}

/// The word of flags that names the bits.
fn flags_of(bits: PageBits) -> u32
    ensures few { result < 64 }
    ensures bits { flag_bits result ≡ bits }
{
    let rights = u32::from(bits.write) + 2 * u32::from(bits.user) + 4 * u32::from(bits.fetch);
    let kind = 8 * u32::from(bits.through) + 16 * u32::from(bits.uncached);
    rights + kind + 32 * u32::from(bits.global)
}

/// The bits of a place.
fn bits_of_place(mapped: Mapped) -> PageBits
    ensures { mapped_place mapped ≡ place_with mapped.frame result }
{
    PageBits {
        write: mapped.write,
        user: mapped.user,
        fetch: mapped.fetch,
        through: mapped.through,
        uncached: mapped.uncached,
        global: mapped.global,
    }
}

/// Where a page leads: its frame by its number, and the flags of its entry with what all entries on the way grant.
#[repr(C)]
#[derive(Drop)]
pub struct FlaggedPlace {
    /// The number of the frame.
    pub frame: u64,
    /// The word that names its bits.
    pub flags: u32,
}

/// Puts into `place` where the page of an address leads, with all its bits. False if it is not mapped, or the address is not
/// canonical; then `place` stays.
#[unsafe(no_mangle)]
pub extern "C" fn limzhur_lookup_flags(
    handle: &mut TablesHandle,
    address: u64,
    place: &mut FlaggedPlace,
) -> bool
    ensures found { result ≡ true → (is_canonical address ≡ true) × IsFlaggedPlaceTold (leads handle.old.tables (address / 4096)) place.new }
    ensures none { result ≡ false → ((is_canonical address ≡ false) ⊎ (leads handle.old.tables (address / 4096) ≡ None)) × (place.new ≡ place.old) }
    ensures same { handle.new.tables ≡ handle.old.tables }
{
    let Ok(address) = VirtAddr::try_new(address) else {
        return false;
    };
    match handle.open().walk(Page::containing_address(address)) {
        None => false,
        Some(mapped) => {
            *place = FlaggedPlace {
                frame: mapped.frame.number(),
                flags: flags_of(bits_of_place(mapped)),
            };
            true
        }
    }
}

/// Maps the page of an address to a frame with the bits that the flags name. 0 if it did, and else why it did not: then nothing is
/// changed.
#[unsafe(no_mangle)]
pub extern "C" fn limzhur_map_flags(
    handle: &mut TablesHandle,
    address: u64,
    frame: u64,
    flags: u32,
) -> u32
    ensures change { IsChangeTold (page_alone (address / 4096)) (flagged flags (map_answer handle.old.tables address frame (flag_bits flags).user)) handle.old.tables result handle.new.tables }
    ensures mapped { result ≡ 0 → IsPageMapped handle.old.tables handle.new.tables (address / 4096) frame (flag_bits flags) }
{
    match named_bits(flags) {
        Some(bits) => map_page(handle, address, frame, bits),
        None => BAD_FLAGS,
    }
}

/// Maps the 2 MiB from an address on to the 512 frames from `frame` on, by one entry, with the bits that the flags name. 0 if it did,
/// and else why it did not: then nothing is changed.
#[unsafe(no_mangle)]
pub extern "C" fn limzhur_map_large_flags(
    handle: &mut TablesHandle,
    address: u64,
    frame: u64,
    flags: u32,
) -> u32
    ensures change { IsChangeTold (pages_of_slot (address / 2 ^ 21)) (flagged flags (map_large_answer handle.old.tables address frame (flag_bits flags).user)) handle.old.tables result handle.new.tables }
    ensures mapped { result ≡ 0 → IsLargeMapped handle.old.tables handle.new.tables (address / 2 ^ 21) (frame / 512) (flag_bits flags) }
{
    match named_bits(flags) {
        Some(bits) => map_slot(handle, address, frame, bits),
        None => BAD_FLAGS,
    }
}

/// Gives the page of an address the bits that the flags name, and no others. A large page of which it is part is split first. 0 if it
/// did, and else why it did not: then nothing is changed.
#[unsafe(no_mangle)]
pub extern "C" fn limzhur_protect_flags(handle: &mut TablesHandle, address: u64, flags: u32) -> u32
    ensures change { IsChangeTold (page_alone (address / 4096)) (flagged flags (grant_answer handle.old.tables address (flag_bits flags).user)) handle.old.tables result handle.new.tables }
    ensures granted { result ≡ 0 → IsPageGranted handle.old.tables handle.new.tables (address / 4096) (all_bits (flag_bits flags)) }
{
    match named_bits(flags) {
        Some(bits) => grant_page(handle, address, Grant::All(bits)),
        None => BAD_FLAGS,
    }
}

/// Maps `pages` pages, from that of an address on, to the frames from `frame` on with the bits that the flags name. 0 if it did, and
/// else why it did not: then nothing is changed.
#[unsafe(no_mangle)]
pub extern "C" fn limzhur_map_range_flags(
    handle: &mut TablesHandle,
    address: u64,
    pages: u64,
    frame: u64,
    flags: u32,
    told: &mut u64,
) -> u32
    ensures change { IsFlaggedRangeTold flags address pages (map_range_cause handle.old.tables address pages frame (flag_bits flags).user) handle.old.tables told.old result told.new handle.new.tables }
    ensures mapped { result ≡ 0 → IsMappedInARow handle.old.tables handle.new.tables (address / 4096) pages frame (flag_bits flags) }
{
    match named_bits(flags) {
        Some(bits) => map_pages(handle, address, pages, frame, bits, told),
        None => BAD_FLAGS,
    }
}

/// Gives `pages` pages, from that of an address on, the bits that the flags name, and no others. A large page that lies in part among
/// them is split first. 0 if it did, and else why it did not: then nothing is changed.
#[unsafe(no_mangle)]
pub extern "C" fn limzhur_protect_range_flags(
    handle: &mut TablesHandle,
    address: u64,
    pages: u64,
    flags: u32,
    told: &mut u64,
) -> u32
    ensures change { IsFlaggedRangeTold flags address pages (grant_range_cause handle.old.tables address pages (flag_bits flags).user) handle.old.tables told.old result told.new handle.new.tables }
    ensures granted { result ≡ 0 → IsRangeGranted handle.old.tables handle.new.tables (address / 4096) pages (all_bits (flag_bits flags)) }
{
    match named_bits(flags) {
        Some(bits) => grant_pages(handle, address, pages, Grant::All(bits), told),
        None => BAD_FLAGS,
    }
}
