// The walk of a processor, over any words.
ghost use Rattle.std.specs.Prelude.{◌≡◌, ℕ, ◌*◌, ◌/◌, ◌^◌, ◌<◌, ◌⊎◌, ◌==◌, not, IfSome, IfNone, List};
ghost use Rattle.paging_core.specs.Memory.{word_at};
ghost use Rattle.paging_core.specs.Walk.{mapped_place};
ghost use Rattle.paging_core.specs.ProcessorWalk.{Outcome, is_malformed, past, within, by_first, by_second, by_third, by_fourth, by_entry, processor_walk, from_next, outcome_of, IsInTime};

use crate::addr::PhysAddr;
use crate::bit_field::get_bits;
use crate::memory::Frames;
use crate::page_table::PageTableEntry;
use crate::page_walk::{Mapped, led};
use crate::pages::{Page, index_after};
use crate::phys_frames::PhysFrame;

/// How a processor's walk of a page ends. The steps count from 0, the root's.
#[derive(Clone, Copy, PartialEq, Eq, Debug)]
pub enum Translated {
    /// At the frame of the page, which need not exist, with the rights that all entries on the way grant.
    Page(Mapped),
    /// The entry of this step is not present.
    NotPresent(u8),
    /// The entry of this step is present, and has a bit that is reserved.
    Reserved(u8),
}

/// What follows an entry of a walk.
#[derive(Clone, Copy, PartialEq, Eq, Debug)]
pub enum Next {
    /// The table that it names, with what the entries so far grant.
    Table(Mapped),
    /// The end of the walk.
    End(Translated),
}

/// The entry of a table. It is 0 if the memory has no such frame.
fn entry_at(frames: &Frames, table: PhysFrame, index: u16) -> PageTableEntry
    requires { index < 512 }
    ensures { result ≡ word_at frames.now table index }
{
    if table.number() < u64::from(frames.count()) {
        PageTableEntry::from_bits(frames.word(table, index))
    } else {
        PageTableEntry::from_bits(0)
    }
}

/// Whether the frame's address has bits from the width on.
fn is_beyond(width: u8, frame: PhysFrame) -> bool
    ensures { result ≡ not (frame * 2 ^ 12 / 2 ^ width == 0) }
{
    width < 52 && frame.start_address().as_u64() >> width != 0
}

/// Whether the entry has a bit that is reserved in the step, besides those of its address.
fn is_malformed(step: u8, entry: PageTableEntry) -> bool
    ensures { result ≡ is_malformed step entry }
{
    match step {
        0 => entry.is_huge() | entry.is_global(),
        1 => entry.is_huge() & (get_bits(entry.bits(), 13, 30) != 0),
        2 => entry.is_huge() & (get_bits(entry.bits(), 13, 21) != 0),
        _ => false,
    }
}

/// How the walk ends at the entry. None if it goes on.
fn ending(width: u8, step: u8, entry: PageTableEntry) -> Option<Translated>
    ensures ends { IfSome result (λ end. (onward : Outcome) → past width step entry onward ≡ outcome_of end) }
    ensures goes_on { IfNone result ((onward : Outcome) → past width step entry onward ≡ onward) }
{
    if !entry.is_present() {
        Some(Translated::NotPresent(step))
    } else if is_beyond(width, entry.frame()) || is_malformed(step, entry) {
        Some(Translated::Reserved(step))
    } else {
        None
    }
}

/// The page's place in `count` pages that are mapped as one, which begin at a multiple of their count.
fn within(count: u64, page: Page, mapped: Mapped) -> Mapped
    requires { (count ≡ 2 ^ 18) ⊎ (count ≡ 2 ^ 9) }
    ensures { mapped_place result ≡ within count page (mapped_place mapped) }
{
    let number = mapped.frame.number();
    let first = PhysFrame::containing_address(PhysAddr::new(number / count * count * 4096));
    Mapped {
        frame: first.after(page.number() % count),
        ..mapped
    }
}

/// What follows an entry of the root table.
fn past_first(width: u8, page: Page, from: Mapped, entry: PageTableEntry) -> Next
    ensures { (words : List ℕ) → by_first width words page (mapped_place from) entry ≡ from_next width words page 0 result }
{
    match ending(width, 0, entry) {
        Some(end) => Next::End(end),
        None => Next::Table(led(from, entry)),
    }
}

/// What follows an entry of the second step's table.
fn past_second(width: u8, page: Page, from: Mapped, entry: PageTableEntry) -> Next
    ensures { (words : List ℕ) → by_second width words page (mapped_place from) entry ≡ from_next width words page 1 result }
{
    match ending(width, 1, entry) {
        Some(end) => Next::End(end),
        None => {
            let to = led(from, entry);
            if entry.is_huge() {
                Next::End(Translated::Page(within(1 << 18, page, to)))
            } else {
                Next::Table(to)
            }
        }
    }
}

/// What follows an entry of the third step's table.
fn past_third(width: u8, page: Page, from: Mapped, entry: PageTableEntry) -> Next
    ensures { (words : List ℕ) → by_third width words page (mapped_place from) entry ≡ from_next width words page 2 result }
{
    match ending(width, 2, entry) {
        Some(end) => Next::End(end),
        None => {
            let to = led(from, entry);
            if entry.is_huge() {
                Next::End(Translated::Page(within(1 << 9, page, to)))
            } else {
                Next::Table(to)
            }
        }
    }
}

/// How the walk ends at an entry of the last table.
fn past_fourth(width: u8, from: Mapped, entry: PageTableEntry) -> Translated
    ensures { by_fourth width (mapped_place from) entry ≡ outcome_of result }
{
    match ending(width, 3, entry) {
        Some(end) => end,
        None => Translated::Page(led(from, entry)),
    }
}

/// What follows the entry that was read in the table of this step, by a processor's walk of the page. The step is 0 in the root
/// table, and 3 in the last. `from` is what named the table: `Mapped::full` of the root.
///
/// A physical address has `width` bits. The caller reads the entries: so they may lie anywhere, and others may write to them
/// meanwhile.
#[tactic(auto, using(crate::proofs::ProcessorSteps::in_time))]
pub fn past_entry(width: u8, page: Page, step: u8, from: Mapped, entry: PageTableEntry) -> Next
    ensures in_time { IsInTime step result }
    ensures walk { (words : List ℕ) → by_entry width words page step (mapped_place from) entry ≡ from_next width words page step result }
{
    match step {
        0 => past_first(width, page, from, entry),
        1 => past_second(width, page, from, entry),
        2 => past_third(width, page, from, entry),
        _ => Next::End(past_fourth(width, from, entry)),
    }
}

/// Where a processor's walk of the page ends. Any words will do: the entries may have any bits, and need not be a tree.
///
/// A physical address has `width` bits. The walk reads at most four words; what is past the memory reads as 0.
///
/// Source: AMD64 manual, volume 2, "Long-Mode Page Translation": four levels, pages of 4 KiB, 2 MiB and 1 GiB, and
/// no-execute on.
pub fn translate(frames: &Frames, root: PhysFrame, page: Page, width: u8) -> Translated
    ensures { outcome_of result ≡ processor_walk width frames.now root page }
{
    let mut from = Mapped::full(root);
    for step in 0..4u8 {
        let entry = entry_at(frames, from.frame, index_after(page, u32::from(step)));
        match past_entry(width, page, step, from, entry) {
            Next::Table(to) => from = to,
            Next::End(end) => return end,
        }
    }
    unreachable!()
}
