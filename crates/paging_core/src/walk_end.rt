ghost use Rattle.std.specs.Prelude.{◌<◌};
ghost use Rattle.paging_core.specs.Memory.{frame_count};
ghost use Rattle.paging_core.specs.Walk.{mapped_place};
ghost use Rattle.paging_core.specs.WalkEnd.{IsWalkEnd, IsEndFrom, IsEndWithin};
ghost use Rattle.paging_core.specs.EntryPlace.{IsRoot};

use crate::page_table::PageTableEntry;
use crate::page_walk::{Mapped, follow, in_run, next};
use crate::pages::{Page, index_after};
use crate::phys_frames::PhysFrame;
use crate::physical_memory::PhysicalMemory;

/// An entry of a table.
#[derive(Clone, Copy, PartialEq, Eq, Debug)]
pub struct EntryPlace {
    /// The table, by its frame.
    pub table: PhysFrame,
    /// Which entry of the table it is: below 512.
    pub index: u16,
}

/// Where the walk to a page ends.
#[derive(Clone, Copy, PartialEq, Eq, Debug)]
pub enum WalkEnd {
    /// At the page's entry: the page's slot has a table.
    Entry {
        /// The entry.
        entry: EntryPlace,
        /// Where the page leads. None if it is not mapped.
        page: Option<Mapped>,
    },
    /// In a large page: where the page leads.
    Large(Mapped),
    /// Where a table is missing: the page is not mapped, and this many of its tables are missing, 1 to 3.
    Missing(u64),
}

/// The end of a walk that is at a table of the third step: by that entry of it, and then by the last entry, if it does
/// not map a large page.
#[inline(always)]
#[tactic(auto, unfolding(crate::specs::Walk::step, crate::specs::Walk::large_step))]
fn end_from<M: PhysicalMemory>(frames: &M, at: Mapped, index: u16, last: u16) -> WalkEnd
    requires frame { at.frame < frame_count (M.words frames.now) }
    requires index { index < 512 }
    requires last { last < 512 }
    ensures end { IsEndFrom (M.words frames.now) (mapped_place at) index last result }
    ensures within { IsEndWithin (M.area frames.now) (frame_count (M.words frames.now)) result }
{
    let entry = PageTableEntry::from_bits(frames.word(at.frame, index));
    let Some(to) = follow(frames, at, entry) else {
        return WalkEnd::Missing(1);
    };
    if entry.is_huge() {
        return match in_run(frames, to, last) {
            Some(page) => WalkEnd::Large(page),
            None => WalkEnd::Missing(1),
        };
    }
    WalkEnd::Entry {
        entry: EntryPlace {
            table: to.frame,
            index: last,
        },
        page: next(frames, 3, to, last),
    }
}

/// Where the walk to the page ends. It reads each entry on the way once.
#[inline(always)]
pub fn end_of_walk<M: PhysicalMemory>(frames: &M, root: PhysFrame, page: Page) -> WalkEnd
    requires { IsRoot (M.words frames.now) root }
    ensures end { IsWalkEnd (M.words frames.now) root page result }
    ensures within { IsEndWithin (M.area frames.now) (frame_count (M.words frames.now)) result }
{
    let Some(upper) = next(frames, 0, Mapped::full(root), index_after(page, 0)) else {
        return WalkEnd::Missing(3);
    };
    let Some(lower) = next(frames, 1, upper, index_after(page, 1)) else {
        return WalkEnd::Missing(2);
    };
    end_from(frames, lower, index_after(page, 2), index_after(page, 3))
}
