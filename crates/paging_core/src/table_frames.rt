use crate::frame_allocator::FrameAllocator;
use crate::pages::Size4KiB;
use crate::phys_frames::PhysFrame;
use crate::pool::FramePool;

/// What hands out frames for tables, the lowest that is free first.
pub trait TableFrames {
    ghost use Rattle.std.specs.Prelude.{◌≡◌, ℕ, ◌+◌, ◌<◌, List, Bool, false, IfSome, MatchOption};
    ghost use Rattle.paging_core.specs.Pool.{is_frame_free, free_count, IsFrameTaken};

    /// A flag for each frame, by its number: true if it is free.
    ghost free: { Self → List Bool };

    /// Hands out the lowest free frame, which is then no longer free. None exactly if no frame is
    /// free.
    fn take_frame(&mut self) -> Option<PhysFrame>
        ensures taken { IsFrameTaken (free self.old) (free self.new) result }
        ensures count { MatchOption result (free_count (free self.old) ≡ 0) (λ _. free_count (free self.new) + 1 ≡ free_count (free self.old)) }
        ensures lowest { IfSome result (λ frame. (lower : ℕ) → lower < frame → is_frame_free (free self.old) lower ≡ false) };
}

impl TableFrames for FramePool {
    ghost free = { λ p. p };

    fn take_frame(&mut self) -> Option<PhysFrame> {
        FrameAllocator::<Size4KiB>::allocate_frame(self)
    }
}
