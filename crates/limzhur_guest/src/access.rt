// What an access gives, for C.
ghost use Rattle.std.specs.Prelude.{◌≡◌, ◌≢◌, ◌+◌, ◌*◌, ◌/◌, ◌%◌, ◌^◌, ◌<◌, ◌==◌, ◌&&◌, not, true, false, if◌then◌else◌};
ghost use Rattle.paging_core.specs.Address.{is_canonical};
ghost use Rattle.guest_walk.specs.GuestWalk.{finding_of, ending_of, page_bytes};
ghost use Rattle.limzhur_guest.specs.Told.{access_told, place_of, place_told, ending_at, translate_told};

use crate::words::{by_user, kind_of, mode_of, root_of, writes};
use bitflags::Flags;
use guest_walk::{End, Found, page_fault, walk};
use paging_core::{Page, VirtAddr};

/// Bit 31: the page fault's code is below it.
const FAULT: u32 = 1 << 31;

/// The answer to an access to an address that is not canonical.
pub(crate) const NOT_CANONICAL: u32 = 1 << 30;

/// Where a page leads, and what an access to it sets.
#[repr(C)]
#[derive(Drop)]
pub struct GuestPlace {
    /// The physical address of the byte.
    pub physical: u64,
    /// How many bytes the page has.
    pub size: u64,
    /// All entries on the way grant writes,
    pub write: bool,
    /// accesses at user level,
    pub user: bool,
    /// and fetches.
    pub fetch: bool,
    /// Of the entry that maps the page: bit 3, PWT,
    pub through: bool,
    /// bit 4, PCD,
    pub uncached: bool,
    /// and bit 8, global.
    pub global: bool,
    /// The access sets the accessed bit of an entry on the way.
    pub sets_accessed: bool,
    /// The access sets the dirty bit of the page's entry.
    pub sets_dirty: bool,
}

/// How many bytes a page has that an entry of this step maps.
fn page_bytes(step: u8) -> u64
    ensures { result ≡ page_bytes step }
{
    match step {
        1 => 1 << 30,
        2 => 1 << 21,
        _ => 1 << 12,
    }
}

/// The place of the byte at an address, whose page an entry of this step maps.
fn place_of(step: u8, found: &Found, address: u64, access: u32) -> GuestPlace
    ensures { result ≡ place_of step (finding_of found.now) address access }
{
    GuestPlace {
        physical: found.mapped.frame.start_address().as_u64() + address % 4096,
        size: page_bytes(step),
        write: found.mapped.write,
        user: found.mapped.user,
        fetch: found.mapped.fetch,
        through: found.mapped.through,
        uncached: found.mapped.uncached,
        global: found.mapped.global,
        sets_accessed: !found.accessed,
        sets_dirty: writes(access) && !found.dirty,
    }
}

/// Puts into `place` where the page leads, if the walk ended at one.
fn tell(end: &End, address: u64, access: u32, place: &mut GuestPlace)
    ensures { place.new ≡ place_told (ending_of end.now) address access place.old }
{
    if let End::Page(step, found) = end {
        *place = place_of(*step, found, address, access);
    }
}

/// The answer to an access if the walk ended like this.
fn answer(end: &End, flags: u32, wanted: u32) -> u32
    ensures { result ≡ access_told (ending_of end.now) flags wanted }
{
    match page_fault(mode_of(flags), end, kind_of(wanted), by_user(wanted)) {
        None => 0,
        Some(code) => FAULT + code.bits() as u32,
    }
}

/// What an access gives if the walk ended like this.
pub(crate) fn told(end: &End, address: u64, flags: u32, wanted: u32, place: &mut GuestPlace) -> u32
    ensures answer { result ≡ access_told (ending_of end.now) flags wanted }
    ensures place { place.new ≡ (if result == 0 then place_told (ending_of end.now) address wanted place.old else place.old) }
{
    let given = answer(end, flags, wanted);
    if given == 0 {
        tell(end, address, wanted, place);
    }
    given
}

/// What an access to the byte at an address gives, over a guest's memory that begins at physical address 0. 0: it is granted, and
/// `place` tells where the byte is, and what the walk found. Bit 31 and the code of the page fault if it is denied, and bit 30 if
/// the address is not canonical; `place` then stays.
#[unsafe(no_mangle)]
pub extern "C" fn limzhur_translate(
    words: &[u64],
    cr3: u64,
    address: u64,
    width: u8,
    mode: u32,
    access: u32,
    place: &mut GuestPlace,
) -> u32
    ensures answer { result ≡ translate_told words.now cr3 address width mode access }
    ensures place { place.new ≡ (if result == 0 then place_told (ending_at words.now cr3 address width mode) address access place.old else place.old) }
{
    match VirtAddr::try_new(address) {
        Err(_) => NOT_CANONICAL,
        Ok(at) => {
            let end = walk(
                mode_of(mode),
                words,
                root_of(cr3),
                Page::containing_address(at),
                width,
            );
            told(&end, address, mode, access, place)
        }
    }
}
