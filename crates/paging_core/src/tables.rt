ghost use Rattle.std.specs.Prelude.{◌≡◌, ℕ, ◌+◌, ◌<◌, ◌≤◌, None, Some, IfSome, MatchOption, true, List, Bool};
ghost use Rattle.paging_core.specs.Memory.{frame_count, cleared};
ghost use Rattle.paging_core.specs.Prefix.{prefix_of};
ghost use Rattle.paging_core.specs.Walk.{step, large_of, reach, top};
ghost use Rattle.paging_core.specs.Pool.{is_frame_free, free_count, FreeIn};
ghost use Rattle.paging_core.specs.Moments.{IsChangedIn, IsStill};
ghost use Rattle.paging_core.specs.Tree.{IsTreeIn};
ghost use Rattle.paging_core.specs.Tables.{IsTableMade, IsEnsured, IsPrepared, missing_past};
ghost use Rattle.paging_core.specs.Outcomes.{IsLowestFrameTaken, IsRootMade, IsTreeAndPool};
ghost use Rattle.paging_core.specs.Premises.{IsReadyForTable};

use crate::page_table::PageTableEntry;
use crate::page_walk::{Mapped, next};
use crate::pages::{Page, index_after};
use crate::phys_frames::PhysFrame;
use crate::physical_memory::PhysicalMemory;
use crate::table_frames::TableFrames;

/// Takes the lowest free frame for a root table, and clears it: nothing is mapped. None exactly if no frame is free;
/// then nothing is changed.
pub fn make_root<M: PhysicalMemory, P: TableFrames>(
    frames: &mut M,
    pool: &mut P,
) -> Option<PhysFrame>
    requires known { FreeIn (M.area frames.old) (P.free pool.old) (frame_count (M.words frames.old)) }
    requires seen { (now : List ℕ) (frame : ℕ) → is_frame_free (P.free pool.old) frame ≡ true → IsChangedIn (M.words frames.old) now frame → M.allows now }
    ensures frame { IsLowestFrameTaken (P.free pool.old) (P.free pool.new) result }
    ensures known { FreeIn (M.area frames.new) (P.free pool.new) (frame_count (M.words frames.new)) }
    ensures words { MatchOption result ((M.words frames.new) ≡ (M.words frames.old)) (λ root. (M.words frames.new) ≡ cleared (M.words frames.old) root) }
    ensures made { IfSome result (λ root. IsRootMade (M.area frames.new) (M.words frames.old) (M.words frames.new) (P.free pool.new) root) }
    ensures area { M.area frames.new ≡ M.area frames.old }
{
    let root = pool.take_frame()?;
    frames.clear_frame(root);
    Some(root)
}

/// The table that the entry names. If there is none, one is made: a free frame is taken and cleared, and then the entry
/// names it, in this order, so that nobody finds what the frame held.
fn ensure_table<M: PhysicalMemory, P: TableFrames>(
    frames: &mut M,
    pool: &mut P,
    level: u32,
    table: PhysFrame,
    index: u16,
) -> PhysFrame
    requires ready { IsReadyForTable (M.area frames.old) (M.words frames.old) (P.free pool.old) M.allows table index }
    requires room { step (M.words frames.old) level (top table) index ≡ None → 0 < free_count (P.free pool.old) }
    requires seen { step (M.words frames.old) level (top table) index ≡ None → (now : List ℕ) (free : List Bool) (made : ℕ) → IsTableMade (M.words frames.old) now (P.free pool.old) free table index made → M.allows now }
    ensures area { M.area frames.new ≡ M.area frames.old }
    ensures ensured { IsEnsured (step (M.words frames.old) level (top table) index) (M.words frames.old) (M.words frames.new) (P.free pool.old) (P.free pool.new) table index result }
{
    match next(frames, level, Mapped::full(table), index) {
        Some(met) => met.frame,
        None => {
            let Some(frame) = pool.take_frame() else {
                unreachable!()
            };
            let entry = PageTableEntry::to_table(frame);
            frames.clear_frame(frame);
            frames.set_word(table, index, entry.bits());
            frame
        }
    }
}

/// The page's table after this many steps, with all that is missing above it made.
pub(crate) fn ensure_tables<M: PhysicalMemory, P: TableFrames>(
    frames: &mut M,
    pool: &mut P,
    root: PhysFrame,
    page: Page,
    levels: u32,
) -> PhysFrame
    requires standing { IsTreeAndPool (M.area frames.old) (M.words frames.old) root (P.free pool.old) }
    requires levels { levels ≤ 3 }
    requires small { levels ≡ 3 → large_of (M.words frames.old) root (prefix_of page 3) ≡ None }
    requires room { missing_past (M.words frames.old) root page 0 ≤ free_count (P.free pool.old) + missing_past (M.words frames.old) root page levels }
    requires seen { (now : List ℕ) → IsStill (M.area frames.old) (M.words frames.old) root now → M.allows now }
    ensures tree { IsTreeIn (M.area frames.new) (M.words frames.new) root (P.free pool.new) }
    ensures met { reach (M.words frames.new) root levels (prefix_of page levels) ≡ Some (top result) }
    ensures area { M.area frames.new ≡ M.area frames.old }
    ensures prepared { IsPrepared (M.words frames.old) (M.words frames.new) (P.free pool.old) (P.free pool.new) root page levels }
{
    let mut table = root;
    for level in 0..levels {
        table = ensure_table(frames, pool, level, table, index_after(page, level));
    }
    table
}
