// The slots of a region that are mapped by one entry each, as large pages.
ghost use Rattle.std.specs.Prelude.{◌≡◌, ℕ, ◌+◌, ◌*◌, ◌/◌, ◌^◌, ◌<◌, ◌≤◌, None};
ghost use Rattle.paging_core.specs.Memory.{frame_count};
ghost use Rattle.paging_core.specs.Walk.{large_of};
ghost use Rattle.machine_model.specs.Slots.{IsSlotOf, slot_number};
ghost use Rattle.machine_model.specs.Machine.{AreLargeSlots};
ghost use Rattle.mapped_regions.specs.Mapped.{IsPageRange};
ghost use Rattle.mapped_regions.specs.Regions.{HasPlaces};

use machine_model::Region;
use paging_core::{Frames, Page, PageSize, PhysFrame, Size2MiB, Size4KiB, VirtAddr, large_page};

/// Lists the slots that lie whole in the region and are mapped by one entry each. None of them is `stop`, in counts of
/// 2 MiB, or after it.
pub(crate) fn list_large(
    slots: &mut Vec<u64>,
    frames: &Frames,
    root: PhysFrame,
    region: Region,
    stop: u64,
)
    requires root { root < frame_count frames.now }
    requires range { IsPageRange region.start region.pages }
    requires stop { stop ≤ (region.start / 4096 + region.pages) / 512 }
    requires rest { (slot : ℕ) → IsSlotOf region.start region.pages slot → stop ≤ slot / 2 ^ 21 → large_of frames.now root (slot_number slot) ≡ None }
    requires places { HasPlaces slots.old (region.pages / 512) }
    ensures { AreLargeSlots frames.now root region.start region.pages slots.new.items }
{
    let first = region.start / Size4KiB::SIZE;
    for slot in first.div_ceil(512)..stop {
        let address = slot * Size2MiB::SIZE;
        let page = Page::<Size2MiB>::containing_address(VirtAddr::new(address));
        if large_page(frames, root, page).is_some() {
            slots.push_reserved(address);
        }
    }
}
