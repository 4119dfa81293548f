ghost use Rattle.std.specs.Prelude.{◌≡◌, ℕ, ◌+◌, ◌*◌, ◌^◌, ◌<◌, ◌≤◌, List, Bool, false, set};
ghost use Rattle.paging_core.specs.Area.{Whole};
ghost use Rattle.paging_core.specs.Entry.{page_entry};
ghost use Rattle.paging_core.specs.Memory.{frame_count};
ghost use Rattle.paging_core.specs.Pool.{is_frame_free, free_count, FreeIn};
ghost use Rattle.paging_core.specs.Tree.{IsTreeIn};
ghost use Rattle.paging_core.specs.Missing.{missing_of};
ghost use Rattle.paging_core.specs.Moments.{IsStill};
ghost use Rattle.paging_core.specs.Mapping.{IsPageAdded};
ghost use Rattle.paging_core.specs.Outcomes.{IsTreeAndPool, IsPagePut, IsPagePutWithTables};
ghost use Rattle.paging_core.specs.Premises.{IsPageEntry, IsMappable};

use crate::page_table::{PageBits, PageTableEntry};
use crate::pages::{Page, index_after};
use crate::phys_frames::PhysFrame;
use crate::physical_memory::PhysicalMemory;
use crate::table_frames::TableFrames;
use crate::tables::ensure_tables;

/// Maps the page to the frame with the rights by its entry, `index` of the table, where its walk ends. No other word is
/// changed.
///
/// The page is not mapped. In a whole memory the frame is no table's, and no other page leads to it; if the tables lie in
/// an area, a page may lead to any frame, to a table's too.
#[inline(always)]
pub fn map_at<M: PhysicalMemory>(
    frames: &mut M,
    root: PhysFrame,
    page: Page,
    table: PhysFrame,
    index: u16,
    frame: PhysFrame,
    rights: PageBits,
)
    requires place { IsPageEntry (M.area frames.old) (M.words frames.old) root page table index }
    requires mappable { IsMappable (M.area frames.old) (M.words frames.old) root page frame }
    requires seen { frame < 2 ^ 40 → M.allows (set (M.words frames.old) (512 * table + index) (page_entry frame rights)) }
    ensures fits { frame < 2 ^ 40 }
    ensures words { M.words frames.new ≡ set (M.words frames.old) (512 * table + index) (page_entry frame rights) }
    ensures area { M.area frames.new ≡ M.area frames.old }
    ensures known { (free : List Bool) → FreeIn (M.area frames.old) free (frame_count (M.words frames.old)) → FreeIn (M.area frames.new) free (frame_count (M.words frames.new)) }

    // If the tables are a tree that uses none of some free frames, and in the whole memory the frame is none of these, they
    // stay such a tree.
    ensures mapped { (free : List Bool) → IsTreeIn (M.area frames.old) (M.words frames.old) root free → (M.area frames.old ≡ Whole → is_frame_free free frame ≡ false) →
        IsPagePut (M.area frames.new) (M.words frames.old) (M.words frames.new) root free page frame rights }
{
    let _canonical = page.number();
    let entry = PageTableEntry::to_page(frame, rights);
    frames.set_word(table, index, entry.bits());
}

/// Maps the page to the frame with the rights. The tables that are missing for it are made, each in a
/// frame from the pool.
///
/// The page is not mapped. In a whole memory the frame is neither free nor a table's, and no other page leads to it; if
/// the tables lie in an area, a page may lead to any frame, to a table's too. The pool has the frames for the missing tables.
pub fn map_page<M: PhysicalMemory, P: TableFrames>(
    frames: &mut M,
    pool: &mut P,
    root: PhysFrame,
    page: Page,
    frame: PhysFrame,
    rights: PageBits,
)
    requires standing { IsTreeAndPool (M.area frames.old) (M.words frames.old) root (P.free pool.old) }
    requires mappable { IsMappable (M.area frames.old) (M.words frames.old) root page frame }
    requires used { M.area frames.old ≡ Whole → is_frame_free (P.free pool.old) frame ≡ false }
    requires room { missing_of (M.words frames.old) root page 1 ≤ free_count (P.free pool.old) }
    requires before { (now : List ℕ) → IsStill (M.area frames.old) (M.words frames.old) root now → M.allows now }
    requires seen { (now : List ℕ) (free : List Bool) → IsPageAdded (M.words frames.old) now (P.free pool.old) free root page frame rights → M.allows now }
    ensures put { IsPagePutWithTables (M.area frames.old) (M.area frames.new) (M.words frames.old) (M.words frames.new) (P.free pool.old) (P.free pool.new) root page frame rights }
{
    let table = ensure_tables(frames, pool, root, page, 3);
    let index = index_after(page, 3);
    map_at(frames, root, page, table, index, frame, rights);
}
