//! A plain map of pages, which says what tables would answer.
use kernel_tables::{EntryFault, MapFault, RangeFault};
use paging_core::{Page, PageBits, Rights, VirtAddr};
use std::alloc::{AllocError, Global};

/// The first page of the window. Half of its pages lie below 2^18, so they have two tables of two indices.
pub(crate) const FIRST: u64 = (1 << 18) - 1024;

/// How many pages the window has: those of four slots.
pub(crate) const PAGES: u64 = 2048;

/// How a slot is mapped.
#[derive(Clone, Copy, PartialEq, Eq)]
pub(crate) enum Slot {
    Empty,
    Table,
    Large,
}

/// Where a page leads.
#[derive(Clone, Copy, PartialEq, Eq, Debug)]
pub(crate) struct Lead {
    pub(crate) frame: u64,
    pub(crate) bits: PageBits,
}

/// What a page is given: all bits of its entry, or its rights alone.
#[derive(Clone, Copy)]
pub(crate) enum Given {
    All(PageBits),
    Only(Rights),
}

impl Given {
    fn user(self) -> bool {
        match self {
            Given::All(bits) => bits.user,
            Given::Only(rights) => rights.user,
        }
    }

    fn bits(self, was: PageBits) -> PageBits {
        match self {
            Given::All(bits) => bits,
            Given::Only(rights) => PageBits {
                write: rights.write,
                user: rights.user,
                fetch: rights.fetch,
                ..was
            },
        }
    }
}

/// Pages in a row, by their places in the window.
#[derive(Clone, Copy)]
pub(crate) struct Pages {
    pub(crate) first: u64,
    pub(crate) count: u64,
}

impl Pages {
    /// The place after the last page.
    fn end(self) -> u64 {
        self.first.wrapping_add(self.count)
    }

    /// Whether the slot lies whole in the range.
    fn holds(self, slot: u64) -> bool {
        self.first <= slot.wrapping_mul(512)
            && slot.wrapping_mul(512).wrapping_add(512) <= self.end()
    }

    /// Whether the range has a page of the slot.
    fn meets(self, slot: u64) -> bool {
        self.first / 512 <= slot && slot.wrapping_mul(512) < self.end()
    }
}

/// The page at a place in the window.
pub(crate) fn page_at(place: u64) -> Page {
    Page::containing_address(VirtAddr::new_truncate(FIRST.wrapping_add(place).wrapping_mul(4096)))
}

/// The refusal of a range of one page, or of one slot, as that of a page.
fn map_fault_of(fault: RangeFault) -> MapFault {
    match fault {
        RangeFault::PastLimit => MapFault::PastLimit,
        RangeFault::InArea => MapFault::InArea,
        RangeFault::NoFrames { wanting } => MapFault::NoFrames { wanting },
        _ => MapFault::IsMapped,
    }
}

/// The refusal of a range of one page as that of its entry.
fn entry_fault_of(fault: RangeFault) -> EntryFault {
    match fault {
        RangeFault::NoFrames { wanting: _ } => EntryFault::NoFrames,
        RangeFault::LeadsIntoArea(_) => EntryFault::InArea,
        _ => EntryFault::NotMapped,
    }
}

/// The frames of the area and the limit.
#[derive(Clone, Copy)]
pub(crate) struct Frames {
    pub(crate) first: u64,
    pub(crate) end: u64,
    pub(crate) limit: u64,
}

/// Where each page leads, how each slot is mapped, which tables of one and two indices there are, and how many frames are free.
#[derive(Drop)]
pub(crate) struct Plain {
    leads: Vec<Option<Lead>>,
    slots: Vec<Slot>,
    top: bool,
    halves: Vec<bool>,
    pub(crate) free: u64,
    frames: Frames,
    shared: bool,
}

impl Plain {
    /// No page is mapped, and a frame is used for the root.
    pub(crate) fn new(alloc: Global, frames: Frames) -> Result<Self, AllocError> {
        Ok(Plain {
            leads: vec![in alloc; None; PAGES as usize]?,
            slots: vec![in alloc; Slot::Empty; 4]?,
            top: false,
            halves: vec![in alloc; false; 2]?,
            free: frames.end.wrapping_sub(frames.first).wrapping_sub(1),
            frames,
            shared: false,
        })
    }

    /// Lets pages that users do not reach lead into the area.
    pub(crate) fn share_area(&mut self) {
        self.shared = true;
    }

    /// Where the page at the place leads.
    pub(crate) fn lead(&self, place: u64) -> Option<Lead> {
        self.leads.get(place as usize).copied().flatten()
    }

    /// How the slot is mapped.
    pub(crate) fn slot(&self, slot: u64) -> Slot {
        self.slots
            .get(slot as usize)
            .copied()
            .unwrap_or(Slot::Empty)
    }

    fn half(&self, half: u64) -> bool {
        self.halves.get(half as usize).copied().unwrap_or(false)
    }

    fn put(&mut self, place: u64, lead: Option<Lead>) {
        if let Some(old) = self.leads.get_mut(place as usize) {
            *old = lead;
        }
    }

    fn set_slot(&mut self, slot: u64, new: Slot) {
        if let Some(old) = self.slots.get_mut(slot as usize) {
            *old = new;
        }
    }

    /// How many tables above its slots the range misses.
    fn wanted_above(&self, pages: Pages) -> u64 {
        let mut wanted = u64::from(!self.top);
        for half in 0..2u64 {
            let meets = pages.first / 1024 <= half && half.wrapping_mul(1024) < pages.end();
            if meets && !self.half(half) {
                wanted = wanted.wrapping_add(1);
            }
        }
        wanted
    }

    /// Whether the slot is mapped by one entry if the range is mapped to frames from this one on.
    fn becomes_large(&self, slot: u64, pages: Pages, frame: u64) -> bool {
        pages.holds(slot) && pages.first % 512 == frame % 512 && self.slot(slot) == Slot::Empty
    }

    /// How many tables are made if the range is mapped.
    fn wanted(&self, pages: Pages, frame: u64) -> u64 {
        let mut wanted = self.wanted_above(pages);
        for slot in 0..4 {
            let empty = self.slot(slot) != Slot::Table;
            if pages.meets(slot) && empty && !self.becomes_large(slot, pages, frame) {
                wanted = wanted.wrapping_add(1);
            }
        }
        wanted
    }

    /// Makes the tables above the slots of the range.
    fn make_above(&mut self, pages: Pages) {
        self.free = self.free.wrapping_sub(self.wanted_above(pages));
        self.top = true;
        for half in 0..2u64 {
            if pages.first / 1024 <= half && half.wrapping_mul(1024) < pages.end() {
                if let Some(old) = self.halves.get_mut(half as usize) {
                    *old = true;
                }
            }
        }
    }

    /// The lowest page of the range that is mapped, or is not.
    fn lowest(&self, pages: Pages, mapped: bool) -> Option<Page> {
        for place in pages.first..pages.end() {
            if self.lead(place).is_some() == mapped {
                return Some(page_at(place));
            }
        }
        None
    }

    /// Whether one of the frames is one of the area.
    fn meets_area(&self, frame: u64, count: u64) -> bool {
        frame < self.frames.end && self.frames.first < frame.wrapping_add(count)
    }

    /// The lowest page of the range that leads into the area.
    fn lowest_in_area(&self, pages: Pages) -> Option<Page> {
        for place in pages.first..pages.end() {
            if let Some(lead) = self.lead(place) {
                if self.meets_area(lead.frame, 1) {
                    return Some(page_at(place));
                }
            }
        }
        None
    }

    fn map_fault(&self, pages: Pages, lead: Lead) -> Option<RangeFault> {
        let frame = lead.frame;
        if let Some(page) = self.lowest(pages, true) {
            return Some(RangeFault::IsMapped(page));
        }
        if frame.wrapping_add(pages.count) > self.frames.limit {
            return Some(RangeFault::PastLimit);
        }
        let sees_area = self.shared && !lead.bits.user;
        if !sees_area && self.meets_area(frame, pages.count) {
            return Some(RangeFault::InArea);
        }
        let wanted = self.wanted(pages, frame);
        if wanted > self.free {
            return Some(RangeFault::NoFrames {
                wanting: wanted.wrapping_sub(self.free),
            });
        }
        None
    }

    /// Maps the range to frames in a row.
    pub(crate) fn map_range(&mut self, pages: Pages, lead: Lead) -> Result<(), RangeFault> {
        if pages.count == 0 {
            return Ok(());
        }
        if let Some(fault) = self.map_fault(pages, lead) {
            return Err(fault);
        }
        let wanted = self.wanted(pages, lead.frame);
        let above = self.wanted_above(pages);
        for slot in 0..4 {
            if self.becomes_large(slot, pages, lead.frame) {
                self.set_slot(slot, Slot::Large);
            } else if pages.meets(slot) {
                self.set_slot(slot, Slot::Table);
            }
        }
        self.make_above(pages);
        self.free = self.free.wrapping_sub(wanted.wrapping_sub(above));
        for step in 0..pages.count {
            let next = Lead {
                frame: lead.frame.wrapping_add(step),
                bits: lead.bits,
            };
            self.put(pages.first.wrapping_add(step), Some(next));
        }
        Ok(())
    }

    /// Maps a page.
    pub(crate) fn map(&mut self, place: u64, lead: Lead) -> Result<(), MapFault> {
        let pages = Pages {
            first: place,
            count: 1,
        };
        self.map_range(pages, lead).map_err(map_fault_of)
    }

    /// Maps a slot to 512 frames by one entry.
    pub(crate) fn map_large(&mut self, slot: u64, lead: Lead) -> Result<(), MapFault> {
        match self.slot(slot) {
            Slot::Large => return Err(MapFault::IsMapped),
            Slot::Table => return Err(MapFault::HasTable),
            Slot::Empty => {}
        }
        let pages = Pages {
            first: slot.wrapping_mul(512),
            count: 512,
        };
        self.map_range(pages, lead).map_err(map_fault_of)
    }

    /// Unmaps a large page.
    pub(crate) fn unmap_large(&mut self, slot: u64) -> Option<u64> {
        if self.slot(slot) != Slot::Large {
            return None;
        }
        let first = slot.wrapping_mul(512);
        let frame = self.lead(first).map(|lead| lead.frame / 512);
        for step in 0..512 {
            self.put(first.wrapping_add(step), None);
        }
        self.set_slot(slot, Slot::Empty);
        frame
    }

    /// How many large pages reach over an end of the range.
    fn splits(&self, pages: Pages) -> u64 {
        let mut splits = 0u64;
        for slot in 0..4 {
            if pages.meets(slot) && !pages.holds(slot) && self.slot(slot) == Slot::Large {
                splits = splits.wrapping_add(1);
            }
        }
        splits
    }

    /// Why pages are not changed; splits the large pages at the ends if they are.
    fn begin_change(&mut self, pages: Pages, user: bool) -> Option<RangeFault> {
        if let Some(page) = self.lowest(pages, false) {
            return Some(RangeFault::NotMapped(page));
        }
        if user {
            if let Some(page) = self.lowest_in_area(pages) {
                return Some(RangeFault::LeadsIntoArea(page));
            }
        }
        let splits = self.splits(pages);
        if splits > self.free {
            return Some(RangeFault::NoFrames {
                wanting: splits.wrapping_sub(self.free),
            });
        }
        self.free = self.free.wrapping_sub(splits);
        for slot in 0..4 {
            if pages.meets(slot) && !pages.holds(slot) {
                self.set_slot(slot, Slot::Table);
            }
        }
        None
    }

    /// Unmaps the range.
    pub(crate) fn unmap_range(&mut self, pages: Pages) -> Result<(), RangeFault> {
        if pages.count == 0 {
            return Ok(());
        }
        if let Some(fault) = self.begin_change(pages, false) {
            return Err(fault);
        }
        for place in pages.first..pages.end() {
            self.put(place, None);
        }
        for slot in 0..4 {
            if pages.holds(slot) && self.slot(slot) == Slot::Large {
                self.set_slot(slot, Slot::Empty);
            }
        }
        Ok(())
    }

    /// Gives the range new bits.
    pub(crate) fn protect_range(&mut self, pages: Pages, given: Given) -> Result<(), RangeFault> {
        if pages.count == 0 {
            return Ok(());
        }
        if let Some(fault) = self.begin_change(pages, given.user()) {
            return Err(fault);
        }
        for place in pages.first..pages.end() {
            let lead = self.lead(place).map(|lead| Lead {
                bits: given.bits(lead.bits),
                ..lead
            });
            self.put(place, lead);
        }
        Ok(())
    }

    /// Unmaps a page, and answers its frame.
    pub(crate) fn unmap(&mut self, place: u64) -> Result<u64, EntryFault> {
        let frame = self.lead(place).map(|lead| lead.frame);
        let pages = Pages {
            first: place,
            count: 1,
        };
        match self.unmap_range(pages) {
            Ok(()) => Ok(frame.unwrap_or(0)),
            Err(fault) => Err(entry_fault_of(fault)),
        }
    }

    /// Gives a page new bits.
    pub(crate) fn protect(&mut self, place: u64, given: Given) -> Result<(), EntryFault> {
        let pages = Pages {
            first: place,
            count: 1,
        };
        self.protect_range(pages, given).map_err(entry_fault_of)
    }
}
