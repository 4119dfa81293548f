ghost use Rattle.std.specs.Prelude.{ℕ, ◌<◌, IsSome, List};
ghost use Rattle.paging_core.specs.Walk.{large_of};
ghost use Rattle.paging_core.specs.Pool.{free_count};
ghost use Rattle.paging_core.specs.Moments.{IsStill};
ghost use Rattle.paging_core.specs.Large.{slot_of};
ghost use Rattle.paging_core.specs.LargeChanges.{IsLargeRegranted};
ghost use Rattle.paging_core.specs.Outcomes.{IsTreeAndPool, IsSlotSplit, IsSlotGranted};
ghost use Rattle.paging_core.specs.Premises.{IsLargePage};

use crate::large::{LargeEntry, fill_table, large_entry};
use crate::page_table::{PageBits, PageTableEntry};
use crate::pages::{Page, Size2MiB};
use crate::phys_frames::PhysFrame;
use crate::physical_memory::PhysicalMemory;
use crate::table_frames::TableFrames;

/// Splits the large page of the slot: a table of 512 single entries maps the same frames with the same rights. The table
/// lies in the lowest free frame of the pool.
///
/// The slot is mapped by one entry, and the pool has a frame. Every page leads where it led at each moment, so another
/// processor may walk meanwhile: all entries of the table are written while nothing leads to it, and the entry that
/// leads to it is written last, by one store. What a processor kept of the old entry stays right, since it says the
/// same.
pub fn split_large<M: PhysicalMemory, P: TableFrames>(
    frames: &mut M,
    pool: &mut P,
    root: PhysFrame,
    page: Page<Size2MiB>,
)
    requires standing { IsTreeAndPool (M.area frames.old) (M.words frames.old) root (P.free pool.old) }
    requires large { IsSome (large_of (M.words frames.old) root (slot_of page)) }
    requires room { 0 < free_count (P.free pool.old) }
    requires seen { (now : List ℕ) → IsStill (M.area frames.old) (M.words frames.old) root now → M.allows now }
    ensures split { IsSlotSplit (M.area frames.old) (M.area frames.new) (M.words frames.old) (M.words frames.new) (P.free pool.old) (P.free pool.new) root page }
{
    let LargeEntry {
        table,
        index,
        large,
    } = large_entry(frames, root, page);
    let Some(made) = pool.take_frame() else {
        unreachable!()
    };
    fill_table(frames, made, large.frame, 512, large.bits());
    frames.set_word(table, index, PageTableEntry::to_table(made).bits());
}

/// Gives the pages of the slot these rights: its entry becomes the one that maps the same frames with them, and no other
/// word is changed.
///
/// The slot is mapped by one entry.
pub fn protect_large<M: PhysicalMemory>(
    frames: &mut M,
    root: PhysFrame,
    page: Page<Size2MiB>,
    rights: PageBits,
)
    requires page { IsLargePage (M.words frames.old) root page }
    requires seen { (now : List ℕ) → IsLargeRegranted (M.words frames.old) now root page rights → M.allows now }
    ensures granted { IsSlotGranted (M.area frames.old) (M.area frames.new) (M.words frames.old) (M.words frames.new) root page rights }
{
    let LargeEntry {
        table,
        index,
        large,
    } = large_entry(frames, root, page);
    let entry = PageTableEntry::to_large(large.frame, rights);
    frames.set_word(table, index, entry.bits());
}
