ghost use Rattle.std.specs.Prelude.{◌≡◌, ℕ, ◌+◌, ◌<◌, ◌≤◌, ◌^◌};
ghost use Rattle.paging_core.specs.Ahead.{ahead};
ghost use Rattle.paging_core.specs.Pool.{free_count};

use crate::addr::PhysAddr;
use crate::phys_frames::PhysFrame;
use crate::table_frames::TableFrames;
use std::marker::Model;

/// Frames in a row that are handed out in ascending order. None is given back, and no memory is needed to know which
/// are free.
#[derive(Drop)]
pub struct FramesAhead {
    next: u64,
    end: u64,
}

impl Model for FramesAhead {
    ghost use Rattle.std.specs.Prelude.{Bool, List, ◌≤◌, ◌<◌, ◌^◌};
    ghost use Rattle.paging_core.specs.Ahead.{ahead};

    ghost Value = { List Bool };

    ghost view = { λ a. ahead a.next a.end };

    ghost invariant = { λ a. (a.next ≤ a.end) × (a.end < 2 ^ 40) };
}

impl FramesAhead {
    /// The frames from `next` up to `end`, `end` excluded.
    pub fn new(next: u64, end: u64) -> FramesAhead
        requires order { next ≤ end }
        requires fits { end < 2 ^ 40 }
        ensures { result ≡ ahead next end }
    {
        FramesAhead { next, end }
    }

    /// How many frames are left.
    pub fn left(&self) -> u64
        ensures { result ≡ free_count self.now }
    {
        self.end - self.next
    }
}

impl TableFrames for FramesAhead {
    ghost free = { λ a. a };

    fn take_frame(&mut self) -> Option<PhysFrame> {
        if self.next == self.end {
            return None;
        }
        let frame = PhysFrame::containing_address(PhysAddr::new(self.next << 12));
        self.next += 1;
        Some(frame)
    }
}
