// Memory of the heap that goes back to the system, as calls of the machine.
ghost use Rattle.kernel_heap.specs.LaidOut.{IsNumberedSound};
ghost use Rattle.kernel_heap.specs.Served.{IsServedOrNot};

use crate::numbered_heap::NumberedHeap;
use machine_model::{Answer, Call, RegionList, Reply};
use paged_systems::PagedSystem;
use paging_core::{PageSize, Size4KiB};
use std::alloc::AllocError;

impl NumberedHeap {
    /// Gives memory back that no block needs. The answer has its places before anything changes.
    pub(crate) fn trim(&mut self, pad: u64) -> Result<Answer, AllocError>
        requires sound { IsNumberedSound self.old }
        ensures sound { IsNumberedSound self.new }
        ensures served { IsServedOrNot self.old (Call.Trim pad) result self.new }
    {
        let count = self.heap.system().region_count();
        self.list.clear();
        self.list.reserve(count)?;
        let before = self.marks();
        self.heap.law_blocks_placed();
        self.heap.trim(pad);
        self.heap.law_blocks_placed();
        let regions = self.changed_regions(before);
        Ok(Answer {
            reply: Reply::Trimmed(regions.is_some()),
            regions,
            large: None,
        })
    }

    /// Ends all blocks and gives all memory of the heap back. A new heap begins over the system, with the granularity and
    /// the rate in force.
    pub(crate) fn reset(&mut self) -> Result<Answer, AllocError>
        requires sound { IsNumberedSound self.old }
        ensures sound { IsNumberedSound self.new }
        ensures served { IsServedOrNot self.old Call.Reset result self.new }
    {
        let other = PagedSystem::new(self.alloc, Size4KiB::SIZE, 1, 1)?;
        let free = self.heap.system().free_frames();
        self.heap.law_intact();
        self.heap.reset(other);
        self.blocks.end_all();
        let frames = self.heap.system().free_frames() - free;
        Ok(Answer {
            reply: Reply::Released(frames * Size4KiB::SIZE),
            regions: if frames == 0 {
                None
            } else {
                Some(RegionList::new(self.alloc))
            },
            large: None,
        })
    }
}
