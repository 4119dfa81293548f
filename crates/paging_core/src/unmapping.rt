ghost use Rattle.std.specs.Prelude.{◌≡◌, ℕ, ◌+◌, ◌*◌, ◌<◌, IsSome, IfSome, List, set};
ghost use Rattle.paging_core.specs.Memory.{frame_count};
ghost use Rattle.paging_core.specs.Walk.{walk_of};
ghost use Rattle.paging_core.specs.Pool.{free_count, FreeBelow};
ghost use Rattle.paging_core.specs.Tree.{IsTree};
ghost use Rattle.paging_core.specs.PageChanges.{removal, IsPageChanged, ArePagesFreed, among};
ghost use Rattle.paging_core.specs.Outcomes.{IsRangeTakenOut, IsTreeAndFlags, IsPageCleared};
ghost use Rattle.paging_core.specs.Premises.{IsPageEntry, IsSmallPage, AreSmallPages};

use crate::frame_allocator::FrameDeallocator;
use crate::memory::Frames;
use crate::page_walk::{LastEntry, last_entry};
use crate::pages::Page;
use crate::phys_frames::PhysFrame;
use crate::physical_memory::PhysicalMemory;
use crate::pool::FramePool;

/// Unmaps the page: its entry, `index` of the table, where its walk ends, becomes 0, and no other word is changed.
///
/// The page is mapped. Its tables stay, and its frame is still handed out.
#[inline(always)]
pub fn clear_at<M: PhysicalMemory>(
    frames: &mut M,
    root: PhysFrame,
    page: Page,
    table: PhysFrame,
    index: u16,
)
    requires place { IsPageEntry (M.area frames.old) (M.words frames.old) root page table index }
    requires mapped { IsSome (walk_of (M.words frames.old) root page) }
    requires seen { M.allows (set (M.words frames.old) (512 * table + index) 0) }
    ensures cleared { IsPageCleared (M.area frames.old) (M.area frames.new) (M.words frames.old) (M.words frames.new) root page }
{
    let _canonical = page.number();
    frames.set_word(table, index, 0);
}

/// Unmaps the page: its last entry becomes 0, and no other word is changed. The answer is the frame to
/// which the page led.
///
/// The page is mapped by an entry of a last table, and not in a large page. Its tables stay, and its frame is still
/// handed out.
pub fn unmap_page<M: PhysicalMemory>(frames: &mut M, root: PhysFrame, page: Page) -> PhysFrame
    requires page { IsSmallPage (M.words frames.old) root page }
    requires seen { (now : List ℕ) → IsPageChanged (M.words frames.old) now root page removal → M.allows now }
    ensures frame { IfSome (walk_of (M.words frames.old) root page) (λ place. result ≡ place.frame) }
    ensures below { result < frame_count (M.words frames.new) }
    ensures cleared { IsPageCleared (M.area frames.old) (M.area frames.new) (M.words frames.old) (M.words frames.new) root page }
{
    let LastEntry {
        table,
        index,
        frame,
    } = last_entry(frames, root, page);
    clear_at(frames, root, page, table, index);
    frame
}

/// Unmaps the pages from `first` on, in ascending order, and gives their frames back. The tables stay.
///
/// The range lies in one canonical half, and each of its pages is mapped, none in a large page. The pool has a
/// flag for each frame.
pub fn unmap_range(
    frames: &mut Frames,
    pool: &mut FramePool,
    root: PhysFrame,
    first: Page,
    pages: u64,
)
    requires standing { IsTreeAndFlags frames.old root pool.old }
    requires pages { AreSmallPages frames.old root first pages }
    ensures freed { ArePagesFreed frames.old frames.new pool.old pool.new root (among first pages) }
    ensures tree { IsTree frames.new root pool.new }
    ensures count { free_count pool.new ≡ free_count pool.old + pages }
    ensures known { FreeBelow pool.old (frame_count frames.old) → FreeBelow pool.new (frame_count frames.new) }

    // The pages of the range are no longer mapped. No other page's walk is changed, and no byte of it.
    ensures gone { IsRangeTakenOut frames.old frames.new root first pages }
{
    for step in 0..pages {
        let frame = unmap_page(frames, root, first.after(step));
        pool.deallocate_frame(frame);
    }
}
