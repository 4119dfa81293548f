ghost use Rattle.std.specs.Prelude.{◌≡◌, ◌+◌, ◌≤◌, None, Some};
ghost use Rattle.paging_core.specs.Memory.{frame_count};
ghost use Rattle.paging_core.specs.Walk.{walk_of};
ghost use Rattle.paging_core.specs.Pool.{free_count, FreeBelow};
ghost use Rattle.paging_core.specs.Missing.{missing_of};
ghost use Rattle.paging_core.specs.Mapping.{IsRangeAdded};
ghost use Rattle.paging_core.specs.Outcomes.{AddsClearPages, IsTreeAndPool};
ghost use Rattle.paging_core.specs.Area.{Whole};
ghost use Rattle.paging_core.specs.Premises.{IsRangeMappable};

use crate::frame_allocator::FrameAllocator;
use crate::mapping::map_page;
use crate::memory::Frames;
use crate::page_table::PageBits;
use crate::pages::Page;
use crate::phys_frames::PhysFrame;
use crate::pool::FramePool;

/// Maps the page with the rights to a frame from the pool, which is cleared.
fn map_new_page(
    frames: &mut Frames,
    pool: &mut FramePool,
    root: PhysFrame,
    page: Page,
    rights: PageBits,
)
    requires standing { IsTreeAndPool Whole frames.old root pool.old }
    requires unmapped { walk_of frames.old root page ≡ None }
    requires room { 1 + missing_of frames.old root page 1 ≤ free_count pool.old }
    ensures { IsRangeAdded frames.old frames.new pool.old pool.new root page 1 rights }
{
    let Some(frame) = pool.allocate_frame() else {
        unreachable!()
    };
    frames.clear_frame(frame);
    map_page(frames, pool, root, page, frame, rights);
}

/// Maps the pages from `first` on, in ascending order, with the rights. Each goes to the lowest free frame, which is
/// cleared; the frames of the tables that are missing for it are taken after it.
///
/// The range lies in one canonical half, and none of its pages is mapped. The pool has the frames for
/// the pages and for the missing tables.
pub fn map_range(
    frames: &mut Frames,
    pool: &mut FramePool,
    root: PhysFrame,
    first: Page,
    pages: u64,
    rights: PageBits,
)
    requires standing { IsTreeAndPool Whole frames.old root pool.old }
    requires mappable { IsRangeMappable frames.old root pool.old first pages }
    ensures added { IsRangeAdded frames.old frames.new pool.old pool.new root first pages rights }
    ensures known { FreeBelow pool.new (frame_count frames.new) }
    ensures clear { AddsClearPages frames.old frames.new root first pages }
{
    for step in 0..pages {
        map_new_page(frames, pool, root, first.after(step), rights);
    }
}
