// Laws of a sound heap, as calls that do nothing: a caller has them without a field of the heap.
ghost use Rattle.std.specs.List.{AllByRecursion};
ghost use Rattle.dlmalloc.specs.Blocks.{ArePlaced, BlocksAreApart};
ghost use Rattle.dlmalloc.specs.FreeExtents.{AreParted, IsUnused, EachHasOneFree};
ghost use Rattle.dlmalloc.specs.Heap.{state_of, IsSoundBy};
ghost use Rattle.dlmalloc.specs.Released.{IdleAreHandedOut};
ghost use Rattle.dlmalloc.specs.Resting.{RestsOutside, OrderRestsOutside};

use crate::heap::Dlmalloc;
use bins::laws::law_index_stays;
use heap_memory::Allocator;

impl<A: Allocator> Dlmalloc<A> {
    /// Each block is at a multiple of 16, and its bytes are granted; if it has none, one is (own).
    pub fn law_blocks_placed(&self)
        requires { IsSoundBy A.Links self.now }
        ensures { ArePlaced (A.regions self.now.system) (state_of A.word self.now) }
    {}

    /// Two blocks have no byte in common, with one byte for a block that has none, and after each there are 8 bytes
    /// before the next block's head ends (own).
    pub fn law_blocks_apart(&self)
        requires { IsSoundBy A.Links self.now }
        ensures { BlocksAreApart (state_of A.word self.now) }
    {}

    /// A sound heap rests on the regions of its segments, and on their words outside of blocks: what is done through
    /// `allocator_mut` leaves it sound, in its state and with its bins linked if it leaves these as they are (own).
    pub fn law_rests_outside(&self)
        ensures { RestsOutside A.regions A.word self.now }
    {
        law_index_stays();
    }

    /// The order of the bins rests on them too: what leaves these as they are leaves the chunks of each size in their
    /// order (own).
    pub fn law_order_rests_outside(&self)
        ensures { OrderRestsOutside A.regions A.word self.now }
    {
        law_index_stays();
    }

    /// Between two free extents of a segment there is one in use (own).
    pub fn law_free_extents_parted(&self)
        requires { IsSoundBy A.Links self.now }
        ensures { AllByRecursion (λ segment. AreParted segment.extents) (state_of A.word self.now).segments }
    {}

    /// If no extent is in use, each segment has one free extent, the head's being its top (own).
    pub fn law_unused_segments_free(&self)
        requires sound { IsSoundBy A.Links self.now }
        requires unused { IsUnused (state_of A.word self.now) }
        ensures { EachHasOneFree (state_of A.word self.now).segments }
    {}

    /// A release pass hands out a segment after the head exactly if it is idle, is the heap's to give back, and the
    /// system takes parts: no extent of it is in use, and its record has 80 bytes (own).
    pub fn law_idle_segments_returned(&self)
        requires { IsSoundBy A.Links self.now }
        ensures { IdleAreHandedOut (A.parts self.now.system) (state_of A.word self.now).segments }
    {}
}
