ghost use Rattle.std.specs.Prelude.{◌+◌, ◌-◌, ◌*◌, ◌/◌, ◌%◌, ◌<◌, ◌≤◌};
ghost use Rattle.paging_core.specs.Memory.{frame_count};
ghost use Rattle.paging_core.specs.Pool.{FreeBelow};
ghost use Rattle.page_ranges.specs.RangeMapping.{NoRunAt, AreSlotsAdded, IsRangeMapped};
ghost use Rattle.paging_core.specs.Outcomes.{AddsClearPages, IsTreeAndPool};
ghost use Rattle.paging_core.specs.Premises.{IsRangeMappable};
ghost use Rattle.paging_core.specs.Area.{Whole};

use crate::slots::slot_at;
use paging_core::{
    FramePool, Frames, Page, PageBits, PhysFrame, has_table, large_page, map_range, map_slot,
};

/// Goes in ascending order through the slots that lie whole in the range and have no table, and maps each with the
/// rights by one entry to the lowest run of frames that are all free, which is cleared. It stops if no such run is
/// left.
///
/// The answer is the slot at which it stopped, or that after the last one: exactly the slots below it are mapped. The range lies
/// in one canonical half, and none of its pages is mapped. The pool has the frames for the pages and for the missing tables.
pub fn map_slots(
    frames: &mut Frames,
    pool: &mut FramePool,
    root: PhysFrame,
    first: Page,
    pages: u64,
    rights: PageBits,
) -> u64
    requires standing { IsTreeAndPool Whole frames.old root pool.old }
    requires mappable { IsRangeMappable frames.old root pool.old first pages }
    ensures known { FreeBelow pool.new (frame_count frames.new) }
    ensures stop { result ≤ (first + pages) / 512 }
    ensures added { AreSlotsAdded frames.old frames.new pool.old pool.new root first pages result rights }
    ensures full { NoRunAt frames.old pool.new root first pages result }
{
    let end = (first.number() + pages) / 512;
    let start = first.number().div_ceil(512);
    for slot in start..end {
        let page = slot_at(first.after(512 * slot - first.number()));
        if !has_table(frames, root, page) && !map_slot(frames, pool, root, page, rights) {
            return slot;
        }
    }
    end
}

/// Maps the pages from `first` on with the rights. The slots that lie whole in the range and have no table are mapped by one
/// entry each, in ascending order, as long as a run of frames is free; then the other pages, by tables and single frames.
/// All frames are cleared.
///
/// The answer is that of `map_slots`. The range lies in one canonical half, and none of its pages is mapped. The pool
/// has the frames for the pages and for the missing tables, counted as if no large page were used.
pub fn map_pages(
    frames: &mut Frames,
    pool: &mut FramePool,
    root: PhysFrame,
    first: Page,
    pages: u64,
    rights: PageBits,
) -> u64
    requires standing { IsTreeAndPool Whole frames.old root pool.old }
    requires mappable { IsRangeMappable frames.old root pool.old first pages }
    ensures known { FreeBelow pool.new (frame_count frames.new) }
    ensures stop { result ≤ (first + pages) / 512 }
    ensures mapped { IsRangeMapped frames.old frames.new pool.old pool.new root first pages result rights }
    ensures clear { AddsClearPages frames.old frames.new root first pages }
{
    let stop = map_slots(frames, pool, root, first, pages, rights);
    let mut done = 0;
    while done < pages {
        let page = first.after(done);
        let count = (512 - page.number() % 512).min(pages - done);
        if large_page(frames, root, slot_at(page)).is_none() {
            map_range(frames, pool, root, page, count, rights);
        }
        done += count;
    }
    stop
}
