// Walks that begin where an earlier one ended: at the page's frame, or at the table or the large page of its slot.
ghost use Rattle.std.specs.Prelude.{◌≡◌, ℕ, ◌/◌, ◌%◌, ◌^◌, ◌<◌, List};
ghost use Rattle.paging_core.specs.Memory.{frame_count, word_at};
ghost use Rattle.paging_core.specs.Prefix.{prefix_of};
ghost use Rattle.mapped_regions.specs.MetSlots.{HasPage, IsTable, IsLargePage, IsMapOf, LeadsTo, AreTablesMet, KeepsNone, IsKept, KeepsToo};

use paging_core::{Frames, Page, PageTableEntry, PageTableIndex, PhysFrame, walk};

/// A number that no page and no slot has.
const NO_NUMBER: u64 = 1 << 52;

/// How many are kept at most of each kind.
const PLACES: usize = 64;

/// The number that a page's first three indices make: pages that agree in them are of one slot.
fn slot_number(page: Page) -> u64
    ensures number { result ≡ prefix_of page 3 }
    ensures bounded { result < 2 ^ 27 }
{
    page.number() % (1 << 36) / 512
}

/// An entry of a table.
fn entry_at(frames: &Frames, table: PhysFrame, index: PageTableIndex) -> PageTableEntry
    requires { table < frame_count frames.now }
    ensures { result ≡ word_at frames.now table index }
{
    PageTableEntry::from_bits(frames.word(table, index.value()))
}

/// What maps the pages of a slot: the entries of its table, or one entry, as a large page with this first frame.
#[derive(Clone, Copy)]
pub(crate) enum SlotMap {
    Table(PhysFrame),
    LargePage(PhysFrame),
}

/// What maps the slot of a page that is mapped, from the root on.
fn slot_map(frames: &Frames, root: PhysFrame, page: Page) -> SlotMap
    requires page { HasPage frames.now root page }
    ensures { IsMapOf frames.now root (prefix_of page 3) result }
{
    let third = entry_at(frames, root, page.p4_index()).frame();
    let second = entry_at(frames, third, page.p3_index()).frame();
    let entry = entry_at(frames, second, page.p2_index());
    if entry.is_huge() {
        SlotMap::LargePage(entry.frame())
    } else {
        SlotMap::Table(entry.frame())
    }
}

/// The frame of a page that is mapped, from the table of its slot on.
fn frame_in_table(frames: &Frames, root: PhysFrame, table: PhysFrame, page: Page) -> PhysFrame
    requires page { HasPage frames.now root page }
    requires table { IsTable frames.now root (prefix_of page 3) table }
    ensures { LeadsTo frames.now root page result }
{
    entry_at(frames, table, page.p1_index()).frame()
}

/// The frame of a page that is mapped in a large page, from its first frame on.
fn frame_in_large_page(frames: &Frames, root: PhysFrame, first: PhysFrame, page: Page) -> PhysFrame
    requires page { HasPage frames.now root page }
    requires large_page { IsLargePage frames.now root (prefix_of page 3) first }
    ensures { LeadsTo frames.now root page result }
{
    first.after(page.number() % 512)
}

/// The frame of a page that is mapped, from the root on.
fn frame_by_walk(frames: &Frames, root: PhysFrame, page: Page) -> PhysFrame
    requires page { HasPage frames.now root page }
    ensures { LeadsTo frames.now root page result }
{
    let Some(mapped) = walk(frames, root, page) else {
        unreachable!()
    };
    mapped.frame
}

/// What a walk met: a page by its number and its frame, or a slot by its number and the frame of its table, or the first
/// frame of its large page.
#[derive(Clone, Copy)]
pub(crate) struct Met {
    number: u64,
    frame: PhysFrame,
}

/// Places that keep nothing.
fn none_met(frame: PhysFrame) -> [Met; PLACES]
    ensures { KeepsNone result }
{
    let none = Met {
        number: NO_NUMBER,
        frame,
    };
    [none; PLACES]
}

/// The frame that is kept for a number, if one is.
fn find(kept: &[Met; PLACES], number: u64) -> Option<PhysFrame>
    requires { number < 2 ^ 52 }
    ensures { IsKept kept.now number result }
{
    let met = kept[number as usize % PLACES];
    if met.number == number {
        Some(met.frame)
    } else {
        None
    }
}

/// Keeps a frame for a number, and forgets the one at its place.
fn put(kept: &mut [Met; PLACES], number: u64, frame: PhysFrame)
    ensures { KeepsToo kept.old number frame kept.new }
{
    kept[number as usize % PLACES] = Met { number, frame };
}

/// Pages that walks met, and slots, those with a table apart from those of large pages; of each at most one for each
/// remainder of their numbers. So a walk to a page that is kept reads no entry, nor does one into a large page that is
/// kept, and one to another page of a slot with a table reads only its last entry. Tables stay where they are; what is
/// kept of pages is forgotten when pages leave.
#[derive(Drop)]
pub(crate) struct MetSlots {
    pages: [Met; PLACES],
    tables: [Met; PLACES],
    large_pages: [Met; PLACES],
}

impl MetSlots {
    ghost use Rattle.mapped_regions.specs.MetSlots.{AreMet};

    /// None is kept.
    pub(crate) fn new(root: PhysFrame) -> Self
        ensures { (words : List ℕ) (root : ℕ) → AreMet words root result }
    {
        MetSlots {
            pages: none_met(root),
            tables: none_met(root),
            large_pages: none_met(root),
        }
    }

    /// Keeps what maps a slot, and forgets the one at its place.
    fn keep(&mut self, number: u64, map: SlotMap)
        ensures { (words : List ℕ) (root : ℕ) → IsMapOf words root number map → AreMet words root self.old → AreMet words root self.new }
    {
        match map {
            SlotMap::Table(table) => put(&mut self.tables, number, table),
            SlotMap::LargePage(first) => put(&mut self.large_pages, number, first),
        }
    }

    /// Forgets what is kept of pages and of large pages.
    pub(crate) fn forget_pages(&mut self, root: PhysFrame)
        ensures { (words : List ℕ) (root : ℕ) → AreTablesMet words root self.old.tables → AreMet words root self.new }
    {
        self.pages = none_met(root);
        self.large_pages = none_met(root);
    }

    /// The frame of a page that is mapped, by what is kept of its slot.
    fn frame_by_slot(&self, frames: &Frames, root: PhysFrame, page: Page) -> PhysFrame
        requires page { HasPage frames.now root page }
        requires met { AreMet frames.now root self.now }
        ensures { LeadsTo frames.now root page result }
    {
        let number = slot_number(page);
        if let Some(table) = find(&self.tables, number) {
            return frame_in_table(frames, root, table, page);
        }
        match find(&self.large_pages, number) {
            Some(first) => frame_in_large_page(frames, root, first, page),
            None => frame_by_walk(frames, root, page),
        }
    }

    /// The frame of a page that is mapped.
    pub(crate) fn frame(&self, frames: &Frames, root: PhysFrame, page: Page) -> PhysFrame
        requires page { HasPage frames.now root page }
        requires met { AreMet frames.now root self.now }
        ensures { LeadsTo frames.now root page result }
    {
        match find(&self.pages, page.number()) {
            Some(frame) => frame,
            None => self.frame_by_slot(frames, root, page),
        }
    }

    /// Keeps what maps the slot of a page that is mapped.
    fn keep_slot(&mut self, frames: &Frames, root: PhysFrame, page: Page)
        requires page { HasPage frames.now root page }
        requires met { AreMet frames.now root self.old }
        ensures { AreMet frames.now root self.new }
    {
        let map = slot_map(frames, root, page);
        self.keep(slot_number(page), map);
    }

    /// Keeps what maps the slot of a page that is mapped, if nothing is kept of it.
    fn keep_new_slot(&mut self, frames: &Frames, root: PhysFrame, page: Page)
        requires page { HasPage frames.now root page }
        requires met { AreMet frames.now root self.old }
        ensures { AreMet frames.now root self.new }
    {
        let number = slot_number(page);
        if find(&self.tables, number).is_none() && find(&self.large_pages, number).is_none() {
            self.keep_slot(frames, root, page);
        }
    }

    /// The frame of a page that is mapped. The page and its slot are kept from now on.
    pub(crate) fn meet(&mut self, frames: &Frames, root: PhysFrame, page: Page) -> PhysFrame
        requires page { HasPage frames.now root page }
        requires met { AreMet frames.now root self.old }
        ensures frame { LeadsTo frames.now root page result }
        ensures met { AreMet frames.now root self.new }
    {
        self.keep_new_slot(frames, root, page);
        let frame = self.frame_by_slot(frames, root, page);
        put(&mut self.pages, page.number(), frame);
        frame
    }

    /// The same as `meet`. It looks for the page first, and is so short that it is compiled into whoever stores a word.
    pub(crate) fn frame_kept(&mut self, frames: &Frames, root: PhysFrame, page: Page) -> PhysFrame
        requires page { HasPage frames.now root page }
        requires met { AreMet frames.now root self.old }
        ensures frame { LeadsTo frames.now root page result }
        ensures met { AreMet frames.now root self.new }
    {
        match find(&self.pages, page.number()) {
            Some(frame) => frame,
            None => self.meet(frames, root, page),
        }
    }
}
