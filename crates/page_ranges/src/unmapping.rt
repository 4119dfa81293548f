ghost use Rattle.std.specs.Prelude.{◌+◌, ◌%◌, ◌<◌, ◌≤◌};
ghost use Rattle.paging_core.specs.Memory.{frame_count};
ghost use Rattle.paging_core.specs.Pool.{FreeBelow};
ghost use Rattle.paging_core.specs.Tree.{IsTree};
ghost use Rattle.page_ranges.specs.RangeUnmapping.{IsRangeUnmappable, AreUnmapped};
ghost use Rattle.paging_core.specs.Outcomes.{IsRangeTakenOut, IsTreeAndFlags};

use crate::slots::slot_at;
use paging_core::{
    FrameDeallocator, FramePool, Frames, Page, PhysFrame, Size2MiB, cut_large, large_page,
    unmap_large, unmap_range,
};

/// Unmaps pages of one slot from `first` on and gives their frames back, as `unmap_pages` does.
fn unmap_piece(frames: &mut Frames, pool: &mut FramePool, root: PhysFrame, first: Page, pages: u64)
    requires standing { IsTreeAndFlags frames.old root pool.old }
    requires unmappable { IsRangeUnmappable frames.old root first pages }
    requires one_slot { first % 512 + pages ≤ 512 }
    ensures { AreUnmapped frames.old frames.new pool.old pool.new root first pages }
{
    let slot = slot_at(first);
    let offset = first.number() % 512;
    if large_page(frames, root, slot).is_none() {
        unmap_range(frames, pool, root, first, pages);
    } else if offset == 0 {
        let run = unmap_large(frames, root, slot);
        FrameDeallocator::<Size2MiB>::deallocate_number(pool, run.number());
    } else {
        cut_large(frames, pool, root, slot, offset as u16);
    }
}

/// Unmaps the pages from `first` on and gives their frames back. A large page that lies whole in the range leaves by
/// its one entry. One in which the range begins is cut: its pages before the range stay, by a table in the frame of
/// the first page that leaves. It takes no memory and no free frame.
///
/// The range lies in one canonical half, each of its pages is mapped, and no large page reaches over its end. The pool
/// has a flag for each frame.
pub fn unmap_pages(
    frames: &mut Frames,
    pool: &mut FramePool,
    root: PhysFrame,
    first: Page,
    pages: u64,
)
    requires standing { IsTreeAndFlags frames.old root pool.old }
    requires unmappable { IsRangeUnmappable frames.old root first pages }
    ensures unmapped { AreUnmapped frames.old frames.new pool.old pool.new root first pages }
    ensures tree { IsTree frames.new root pool.new }
    ensures known { FreeBelow pool.old (frame_count frames.old) → FreeBelow pool.new (frame_count frames.new) }
    ensures gone { IsRangeTakenOut frames.old frames.new root first pages }
{
    let mut done = 0;
    while done < pages {
        let page = first.after(done);
        let count = (512 - page.number() % 512).min(pages - done);
        unmap_piece(frames, pool, root, page, count);
        done += count;
    }
}
