// A walk for C that reads the entries itself, one after the other.
ghost use Rattle.std.specs.Prelude.{◌≡◌, ◌≢◌, ℕ, ◌+◌, ◌*◌, ◌/◌, ◌%◌, ◌^◌, ◌<◌, ◌==◌, true, false, IsTrue, if◌then◌else◌, List};
ghost use Rattle.paging_core.specs.Address.{is_canonical};
ghost use Rattle.paging_core.specs.Plain.{marked};
ghost use Rattle.paging_core.specs.ProcessorWalk.{index_of};
ghost use Rattle.guest_walk.specs.GuestWalk.{finding_of, ending_of};
ghost use Rattle.limzhur_guest.specs.Told.{place_told, ending_at};
ghost use Rattle.limzhur_guest.specs.Walks.{IsWalk, found_so_far, onward_from, onward, ended, walk_access_told};

use crate::access::{GuestPlace, NOT_CANONICAL, told};
use crate::words::{mode_of, root_of};
use guest_walk::{End, Found, Next, index_of, marked, past_entry};
use paging_core::{Mapped, Page, PhysAddr, PhysFrame, VirtAddr};

/// The answer to an access while the walk goes on.
const NOT_ENDED: u32 = 1 << 29;

/// A walk that is to read an entry, or that ended.
#[repr(C)]
#[derive(Drop)]
pub struct GuestWalk {
    /// The address that is walked for.
    pub address: u64,
    /// The frame of the table; at the end that of the page.
    pub frame: u64,
    /// How the processor is set.
    pub mode: u32,
    /// How many bits a physical address has.
    pub width: u8,
    /// The step of the entry that is to be read, or of the last one.
    pub step: u8,
    /// 0: the walk goes on. 1: it is at the page. 2: the entry is not present. 3: it has a bit that is reserved. 4: the address is
    /// not canonical.
    pub told: u8,
    /// All entries so far grant writes,
    pub write: bool,
    /// accesses at user level,
    pub user: bool,
    /// and fetches.
    pub fetch: bool,
    /// Of the last entry: bit 3, PWT,
    pub through: bool,
    /// bit 4, PCD,
    pub uncached: bool,
    /// and bit 8, global.
    pub global: bool,
    /// Each entry so far has its accessed bit.
    pub accessed: bool,
    /// The last entry has its dirty bit.
    pub dirty: bool,
}

/// The frame with this number.
fn frame(number: u64) -> PhysFrame
    requires { number < 2 ^ 40 }
    ensures { result ≡ number }
{
    PhysFrame::containing_address(PhysAddr::new(number * 4096))
}

/// The table of the walk, or its page, with what the entries so far grant.
fn so_far(walk: &GuestWalk) -> Found
    requires { walk.now.frame < 2 ^ 40 }
    ensures { finding_of result ≡ found_so_far walk.now }
{
    Found {
        mapped: Mapped {
            frame: frame(walk.frame),
            write: walk.write,
            user: walk.user,
            fetch: walk.fetch,
            through: walk.through,
            uncached: walk.uncached,
            global: walk.global,
        },
        accessed: walk.accessed,
        dirty: walk.dirty,
    }
}

/// Puts down what was found, at the entry of a step.
fn put(walk: &mut GuestWalk, step: u8, found: Found)
    ensures same { (walk.new.address ≡ walk.old.address) × ((walk.new.mode ≡ walk.old.mode) × (walk.new.width ≡ walk.old.width)) }
    ensures told { walk.new.told ≡ walk.old.told }
    ensures step { walk.new.step ≡ step }
    ensures found { found_so_far walk.new ≡ finding_of found }
    ensures frame { walk.new.frame < 2 ^ 40 }
{
    walk.step = step;
    walk.frame = found.mapped.frame.number();
    walk.write = found.mapped.write;
    walk.user = found.mapped.user;
    walk.fetch = found.mapped.fetch;
    walk.through = found.mapped.through;
    walk.uncached = found.mapped.uncached;
    walk.global = found.mapped.global;
    walk.accessed = found.accessed;
    walk.dirty = found.dirty;
}

/// The page of an address, which is canonical.
fn page_of(address: u64) -> Page
    requires { IsTrue (is_canonical address) }
    ensures { result ≡ address / 4096 }
{
    Page::containing_address(VirtAddr::new(address))
}

/// How a walk stands that begins: it goes on if the address is canonical.
fn told_first(canonical: bool) -> u8
    ensures { result ≡ (if canonical then 0 else 4) }
{
    if canonical { 0 } else { 4 }
}

/// A walk of an address that is to read the root's entry, if it is to read any.
fn begun(cr3: u64, address: u64, width: u8, mode: u32, told: u8) -> GuestWalk
    ensures fields { (result.address ≡ address) × ((result.mode ≡ mode) × ((result.width ≡ width) × ((result.step ≡ 0) × (result.told ≡ told)))) }
    ensures walk { (words : List ℕ) → told ≡ 0 → onward words result ≡ ending_at words cr3 address width mode }
    ensures frame { result.frame < 2 ^ 40 }
{
    GuestWalk {
        address,
        frame: root_of(cr3).number(),
        mode,
        width,
        step: 0,
        told,
        write: true,
        user: true,
        fetch: true,
        through: false,
        uncached: false,
        global: false,
        accessed: true,
        dirty: true,
    }
}

/// Whether the address is canonical.
fn is_canonical(address: u64) -> bool
    ensures { result ≡ is_canonical address }
{
    VirtAddr::try_new(address).is_ok()
}

/// Begins the walk for an address. False if it is not canonical: then no entry is to be read.
#[unsafe(no_mangle)]
pub extern "C" fn limzhur_walk_begin(
    walk: &mut GuestWalk,
    cr3: u64,
    address: u64,
    width: u8,
    mode: u32,
) -> bool
    ensures answer { result ≡ is_canonical address }
    ensures begun { (walk.new.address ≡ address) × ((walk.new.mode ≡ mode) × ((walk.new.width ≡ width) × ((walk.new.step ≡ 0) × (walk.new.told ≡ (if result then 0 else 4))))) }
    ensures walk { (words : List ℕ) → result ≡ true → onward words walk.new ≡ ending_at words cr3 address width mode }
    ensures kept { IsWalk walk.new }
{
    let canonical = is_canonical(address);
    *walk = begun(cr3, address, width, mode, told_first(canonical));
    canonical
}

/// The physical address of the entry that is to be read.
#[unsafe(no_mangle)]
pub extern "C" fn limzhur_walk_entry(walk: &GuestWalk) -> u64
    requires kept { IsWalk walk.now }
    ensures { result ≡ 8 * (512 * walk.now.frame + index_of walk.now.step (walk.now.address / 4096)) }
{
    8 * (512 * walk.frame + index_of(walk.step, walk.address / 4096))
}

/// Takes the entry of a walk that goes on.
fn take(walk: &mut GuestWalk, entry: u64)
    requires kept { IsWalk walk.old }
    requires goes_on { walk.old.told ≡ 0 }
    ensures same { (walk.new.address ≡ walk.old.address) × ((walk.new.mode ≡ walk.old.mode) × (walk.new.width ≡ walk.old.width)) }
    ensures onward { (words : List ℕ) → onward_from words walk.old entry ≡ onward words walk.new }
    ensures step { walk.new.told ≡ 0 → (walk.old.step < 3) × (walk.new.step ≡ walk.old.step + 1) }
    ensures few { walk.new.told < 4 }
    ensures kept { IsWalk walk.new }
{
    let from = so_far(walk);
    let page = page_of(walk.address);
    match past_entry(mode_of(walk.mode), walk.width, page, walk.step, from, entry) {
        Next::Table(to) => put(walk, walk.step + 1, to),
        Next::End(End::Page(step, found)) => {
            put(walk, step, found);
            walk.told = 1;
        }
        Next::End(End::NotPresent(step)) => {
            walk.step = step;
            walk.told = 2;
        }
        Next::End(End::Reserved(step)) => {
            walk.step = step;
            walk.told = 3;
        }
    }
}

/// Takes the entry that was read, and tells how the walk stands: 0: it goes on; 1: it is at the page; 2: the entry is not present;
/// 3: it has a bit that is reserved; 4: it did not begin. A walk that has ended stays as it is.
#[unsafe(no_mangle)]
pub extern "C" fn limzhur_walk_next(walk: &mut GuestWalk, entry: u64) -> u32
    requires kept { IsWalk walk.old }
    ensures answer { result ≡ walk.new.told }
    ensures same { (walk.new.address ≡ walk.old.address) × ((walk.new.mode ≡ walk.old.mode) × (walk.new.width ≡ walk.old.width)) }
    ensures onward { (words : List ℕ) → walk.old.told ≡ 0 → onward_from words walk.old entry ≡ onward words walk.new }
    ensures step { walk.new.told ≡ 0 → (walk.old.step < 3) × (walk.new.step ≡ walk.old.step + 1) }
    ensures began { walk.old.told ≡ 0 → result < 4 }
    ensures ended { walk.old.told ≢ 0 → walk.new ≡ walk.old }
    ensures kept { IsWalk walk.new }
{
    if walk.told == 0 {
        take(walk, entry);
    }
    u32::from(walk.told)
}

/// How the walk ended.
fn end_of(walk: &GuestWalk) -> End
    requires { walk.now.frame < 2 ^ 40 }
    ensures { ending_of result ≡ ended walk.now }
{
    match walk.told {
        1 => End::Page(walk.step, so_far(walk)),
        2 => End::NotPresent(walk.step),
        _ => End::Reserved(walk.step),
    }
}

/// What an access gives at the end of the walk, as `limzhur_translate` tells it. Bit 29: the walk has not ended.
#[unsafe(no_mangle)]
pub extern "C" fn limzhur_walk_access(walk: &GuestWalk, access: u32, place: &mut GuestPlace) -> u32
    requires kept { IsWalk walk.now }
    ensures answer { result ≡ walk_access_told walk.now access }
    ensures place { place.new ≡ (if result == 0 then place_told (ended walk.now) walk.now.address access place.old else place.old) }
{
    match walk.told {
        0 => NOT_ENDED,
        4 => NOT_CANONICAL,
        _ => told(&end_of(walk), walk.address, walk.mode, access, place),
    }
}

/// What the processor writes back to an entry of this step, after an access by it that is granted: the entry with its accessed
/// bit, and with its dirty bit if the access writes and the entry maps the page.
#[unsafe(no_mangle)]
pub extern "C" fn limzhur_walk_marked(entry: u64, step: u8, write: bool) -> u64
    ensures { result ≡ marked write step entry }
{
    marked(write, step, entry)
}
