use crate::pages::PageSize;
use crate::phys_frames::PhysFrame;

/// What hands out frames of a size.
pub trait FrameAllocator<S: PageSize> {
    ghost use Rattle.std.specs.Prelude.{List, Bool};
    ghost use Rattle.paging_core.specs.Pool.{IsFrameTaken};

    /// A flag for each frame, by its number: true if it is free.
    ghost free: { Self → List Bool };

    /// Hands out a free frame, which is then no longer free. None exactly if no frame is free.
    fn allocate_frame(&mut self) -> Option<PhysFrame<S>>
        ensures { IsFrameTaken (free self.old) (free self.new) result };
}

/// What takes frames of a size back.
pub trait FrameDeallocator<S: PageSize> {
    ghost use Rattle.std.specs.Prelude.{ℕ};

    /// The frame was handed out.
    ghost is_out: { Self → ℕ → Type 0 };

    /// The frame is free again, and all else is as before.
    ghost given: { Self → ℕ → Self → Type 0 };

    /// The frame with this number, which was handed out, is free again.
    fn deallocate_number(&mut self, number: u64)
        requires { is_out self.old number }
        ensures { given self.old number self.new };

    /// The frame is free again.
    ///
    /// It was handed out.
    final fn deallocate_frame(&mut self, frame: PhysFrame<S>)
        requires { is_out self.old frame }
        ensures { given self.old frame self.new }
    {
        self.deallocate_number(frame.number());
    }
}
