//! A step of the walk.

ghost use Rattle.std.specs.Prelude.{◌≡◌, ℕ, ◌+◌, ◌-◌, ◌*◌, ◌/◌, ◌%◌, ◌^◌, ◌<◌, ◌⊎◌, ◌==◌, ◌&&◌, ◌||◌, not, IfSome, IfNone, List};
ghost use Rattle.paging_core.specs.Entry.{has_bit, frame_of};
ghost use Rattle.paging_core.specs.Walk.{named, mapped_place};
ghost use Rattle.paging_core.specs.ProcessorWalk.{is_malformed, within, index_of};
ghost use Rattle.guest_walk.specs.Mode.{entry_seen, has_reserved_in};
ghost use Rattle.guest_walk.specs.GuestWalk.{Ending, past_in, led, found_within, found_root, finding_of, ending_of, by_first, by_second, by_third, by_fourth, by_entry, from_next, IsInTime};

use crate::marking::{has_bit, maps_page};
use crate::mode::Mode;
use paging_core::{Mapped, Page, PageTableEntry, PhysAddr, PhysFrame};

/// What a walk has found: a table, or at its end a page.
#[derive(Clone, Copy, PartialEq, Eq, Debug)]
pub struct Found {
    /// Its frame, and the rights that all entries on the way grant.
    pub mapped: Mapped,
    /// Each entry on the way has its accessed bit.
    pub accessed: bool,
    /// The last entry has its dirty bit.
    pub dirty: bool,
}

impl Found {
    /// What a walk begins with: the root table.
    pub fn root(frame: PhysFrame) -> Self
        ensures { finding_of result ≡ found_root frame }
    {
        Found {
            mapped: Mapped::full(frame),
            accessed: true,
            dirty: true,
        }
    }
}

/// How a walk ends. The steps count from 0, the root's.
#[derive(Clone, Copy, PartialEq, Eq, Debug)]
pub enum End {
    /// The entry of this step maps the page: 1 GiB in the second step, 2 MiB in the third, 4 KiB in the last. The frame is the
    /// page's own 4 KiB.
    Page(u8, Found),
    /// The entry of this step is not present.
    NotPresent(u8),
    /// The entry of this step is present, and has a bit that is reserved.
    Reserved(u8),
}

/// What follows an entry of a walk.
#[derive(Clone, Copy, PartialEq, Eq, Debug)]
pub enum Next {
    /// The table that it names.
    Table(Found),
    /// The end of the walk.
    End(End),
}

/// The entry as a processor in this mode sees it.
fn entry_seen(mode: Mode, step: u8, entry: u64) -> u64
    ensures { result ≡ entry_seen mode step entry }
{
    if mode.ignores_bit_8 && (!maps_page(step, entry) && has_bit(entry, 8)) {
        entry - 256
    } else {
        entry
    }
}

/// What the entry leads to, from what was found before.
fn led(from: Found, entry: u64) -> Found
    ensures { finding_of result ≡ led (finding_of from) entry }
{
    Found {
        mapped: Mapped {
            frame: PageTableEntry::from_bits(entry).frame(),
            write: from.mapped.write & has_bit(entry, 1),
            user: from.mapped.user & has_bit(entry, 2),
            fetch: from.mapped.fetch & !has_bit(entry, 63),
            through: has_bit(entry, 3),
            uncached: has_bit(entry, 4),
            global: has_bit(entry, 8),
        },
        accessed: from.accessed & has_bit(entry, 5),
        dirty: has_bit(entry, 6),
    }
}

/// Whether the frame's address has bits from the width on.
fn is_beyond(width: u8, frame: PhysFrame) -> bool
    ensures { result ≡ not (frame * 2 ^ 12 / 2 ^ width == 0) }
{
    width < 52 && frame.start_address().as_u64() >> width != 0
}

/// Whether the entry has a bit that is reserved in the step in any mode, besides those of its address.
fn is_malformed(step: u8, entry: u64) -> bool
    ensures { result ≡ is_malformed step entry }
{
    match step {
        0 => has_bit(entry, 7) | has_bit(entry, 8),
        1 => has_bit(entry, 7) & (entry % (1 << 30) / (1 << 13) != 0),
        2 => has_bit(entry, 7) & (entry % (1 << 21) / (1 << 13) != 0),
        _ => false,
    }
}

/// Whether the entry has a bit that is reserved.
fn has_reserved(mode: Mode, width: u8, step: u8, entry: u64) -> bool
    ensures { result ≡ has_reserved_in mode width step entry }
{
    !mode.no_execute && has_bit(entry, 63)
        || (is_beyond(width, PageTableEntry::from_bits(entry).frame()) || is_malformed(step, entry))
}

/// How the walk ends at the entry. None if it goes on.
fn ending(mode: Mode, width: u8, step: u8, entry: u64) -> Option<End>
    ensures ends { IfSome result (λ end. (onward : Ending) → past_in mode width step entry onward ≡ ending_of end) }
    ensures goes_on { IfNone result ((onward : Ending) → past_in mode width step entry onward ≡ onward) }
{
    if !has_bit(entry, 0) {
        Some(End::NotPresent(step))
    } else if has_reserved(mode, width, step, entry) {
        Some(End::Reserved(step))
    } else {
        None
    }
}

/// The page's place in `count` pages that are mapped as one, which begin at a multiple of their count.
fn within(count: u64, page: Page, found: Found) -> Found
    requires { (count ≡ 2 ^ 18) ⊎ (count ≡ 2 ^ 9) }
    ensures { finding_of result ≡ found_within count page (finding_of found) }
{
    let number = found.mapped.frame.number();
    let first = PhysFrame::containing_address(PhysAddr::new(number / count * count * 4096));
    Found {
        mapped: Mapped {
            frame: first.after(page.number() % count),
            ..found.mapped
        },
        ..found
    }
}

/// What follows an entry of the root table.
fn past_first(mode: Mode, width: u8, page: Page, from: Found, entry: u64) -> Next
    ensures { (words : List ℕ) → by_first mode width words page (finding_of from) entry ≡ from_next mode width words page 0 result }
{
    match ending(mode, width, 0, entry) {
        Some(end) => Next::End(end),
        None => Next::Table(led(from, entry)),
    }
}

/// What follows an entry of the second step's table.
fn past_second(mode: Mode, width: u8, page: Page, from: Found, entry: u64) -> Next
    ensures { (words : List ℕ) → by_second mode width words page (finding_of from) entry ≡ from_next mode width words page 1 result }
{
    match ending(mode, width, 1, entry) {
        Some(end) => Next::End(end),
        None => {
            let to = led(from, entry);
            if has_bit(entry, 7) {
                Next::End(End::Page(1, within(1 << 18, page, to)))
            } else {
                Next::Table(to)
            }
        }
    }
}

/// What follows an entry of the third step's table.
fn past_third(mode: Mode, width: u8, page: Page, from: Found, entry: u64) -> Next
    ensures { (words : List ℕ) → by_third mode width words page (finding_of from) entry ≡ from_next mode width words page 2 result }
{
    match ending(mode, width, 2, entry) {
        Some(end) => Next::End(end),
        None => {
            let to = led(from, entry);
            if has_bit(entry, 7) {
                Next::End(End::Page(2, within(1 << 9, page, to)))
            } else {
                Next::Table(to)
            }
        }
    }
}

/// How the walk ends at an entry of the last table.
fn past_fourth(mode: Mode, width: u8, from: Found, entry: u64) -> End
    ensures { by_fourth mode width (finding_of from) entry ≡ ending_of result }
{
    match ending(mode, width, 3, entry) {
        Some(end) => end,
        None => End::Page(3, led(from, entry)),
    }
}

/// What follows the entry that was read in the table of this step, by a processor's walk of the page. The step is 0 in the root
/// table, and 3 in the last. `from` is what named the table: `Found::root` of the root.
///
/// A physical address has `width` bits. The caller reads the entries: so they may lie anywhere, and others may write to them
/// meanwhile.
///
/// Source: AMD64 manual, volume 2, sections 5.3 and 5.4: four levels, pages of 4 KiB, 2 MiB and 1 GiB.
#[tactic(auto, using(crate::proofs::GuestSteps::in_time))]
pub fn past_entry(mode: Mode, width: u8, page: Page, step: u8, from: Found, entry: u64) -> Next
    ensures in_time { IsInTime step result }
    ensures walk { (words : List ℕ) → by_entry mode width words page step (finding_of from) (entry_seen mode step entry) ≡ from_next mode width words page step result }
{
    let seen = entry_seen(mode, step, entry);
    match step {
        0 => past_first(mode, width, page, from, seen),
        1 => past_second(mode, width, page, from, seen),
        2 => past_third(mode, width, page, from, seen),
        _ => Next::End(past_fourth(mode, width, from, seen)),
    }
}

/// The index of the entry that the walk of the page with this number reads in the table of this step: the number's next nine bits.
pub fn index_of(step: u8, page: u64) -> u64
    ensures value { result ≡ index_of step page }
    ensures below { result < 512 }
{
    match step {
        0 => page / (1 << 27) % 512,
        1 => page / (1 << 18) % 512,
        2 => page / (1 << 9) % 512,
        _ => page % 512,
    }
}
