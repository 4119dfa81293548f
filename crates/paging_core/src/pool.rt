ghost use Rattle.std.specs.Prelude.{◌≡◌, ℕ, ◌+◌, ◌*◌, ◌/◌, ◌<◌, ◌≤◌, ◌^◌, IfOk, IfSome, MatchOption, replicate, List, Bool, true, false, length, set};
ghost use Rattle.paging_core.specs.Pool.{is_frame_free, free_count, FreeBelow, IsFrameTaken, IsOut, IsFrameGiven};
ghost use Rattle.paging_core.specs.Runs.{whole_runs, IsRunFree, IsRunOut, IsRunSet, IsRunTaken};

use crate::addr::PhysAddr;
use crate::frame_allocator::{FrameAllocator, FrameDeallocator};
use crate::pages::{Size2MiB, Size4KiB};
use crate::phys_frames::PhysFrame;
use number_set::NumberSet;
use std::alloc::{AllocError, Global};
use std::marker::Model;

/// How many frames a run has.
const RUN: u32 = 512;

/// The frames that are free. A frame is free until it is handed out.
///
/// A run is 512 frames, the first a multiple of 512: a frame of 2 MiB. Those that are wholly free are kept beside the
/// frames, and how many frames of each run are free, so no call looks at all frames.
#[derive(Drop)]
pub struct FramePool {
    free: NumberSet,
    whole: NumberSet,
    counts: Vec<u16>,
}

impl Model for FramePool {
    ghost use Rattle.std.specs.Prelude.{Bool, List};
    ghost use Rattle.paging_core.specs.Runs.{AreRunsCounted};

    ghost Value = { List Bool };

    ghost view = { λ p. p.free };

    ghost invariant = { λ p. AreRunsCounted p.free p.whole p.counts.items };
}

impl FramePool {
    /// A pool in which the frames 0 to count - 1 are free.
    pub fn new(alloc: Global, count: u32) -> Result<Self, AllocError>
        ensures free { IfOk result (λ pool. pool ≡ replicate count true) }
        ensures count { IfOk result (λ pool. free_count pool ≡ count) }
        ensures below { IfOk result (λ pool. FreeBelow pool count) }
    {
        let runs = count.div_ceil(RUN);
        let free = NumberSet::full(alloc, count)?;
        let mut whole = NumberSet::full(alloc, runs)?;
        let mut counts = vec![in alloc; RUN as u16; runs as usize]?;
        if count % RUN != 0 {
            whole.remove(count / RUN);
            counts[(count / RUN) as usize] = (count % RUN) as u16;
        }
        Ok(FramePool {
            free,
            whole,
            counts,
        })
    }

    /// How many frames are free.
    pub fn free_count(&self) -> u64
        ensures { result ≡ free_count self.now }
    {
        u64::from(self.free.len())
    }

    /// The frame is no longer free.
    fn take(&mut self, number: u32)
        requires { is_frame_free self.old number ≡ true }
        ensures { self.new ≡ set self.old number false }
    {
        let run = number / RUN;
        self.free.remove(number);
        self.whole.remove(run);
        let left = self.counts[run as usize] - 1;
        self.counts[run as usize] = left;
    }

    /// The frame is free again.
    fn give(&mut self, number: u64)
        requires { IsOut self.old number }
        ensures { self.new ≡ set self.old number true }
    {
        self.free.insert(number as u32);
        let run = number as u32 / RUN;
        let count = self.counts[run as usize] + 1;
        self.counts[run as usize] = count;
        if count == RUN as u16 {
            self.whole.insert(run);
        }
    }
}

impl FrameAllocator<Size4KiB> for FramePool {
    ghost free = { λ p. p };

    /// The lowest frame that is free.
    fn allocate_frame(&mut self) -> Option<PhysFrame>
        ensures taken { IsFrameTaken self.old self.new result }
        ensures count { MatchOption result (free_count self.old ≡ 0) (λ _. free_count self.new + 1 ≡ free_count self.old) }
        ensures lowest { IfSome result (λ frame. (lower : ℕ) → lower < frame → is_frame_free self.old lower ≡ false) }
    {
        let number = self.free.lowest()?;
        self.take(number);
        Some(PhysFrame::containing_address(PhysAddr::new(u64::from(number) << 12)))
    }
}

impl FrameDeallocator<Size4KiB> for FramePool {
    ghost is_out = { λ p frame. IsOut p frame };

    ghost given = { λ p frame p'. IsFrameGiven p p' frame };

    fn deallocate_number(&mut self, number: u64)
        requires out { IsOut self.old number }
        ensures given { IsFrameGiven self.old self.new number }
        ensures count { free_count self.new ≡ free_count self.old + 1 }
    {
        self.give(number);
    }
}

impl FrameAllocator<Size2MiB> for FramePool {
    ghost free = { λ p. whole_runs p };

    /// The lowest run of 512 frames that are all free.
    fn allocate_frame(&mut self) -> Option<PhysFrame<Size2MiB>>
        ensures taken { IsFrameTaken (whole_runs self.old) (whole_runs self.new) result }
        ensures run { IsRunTaken self.old self.new result }
        ensures count { IfSome result (λ _. free_count self.new + 512 ≡ free_count self.old) }
    {
        let run = self.whole.lowest()?;
        remove_run(&mut self.free, run);
        self.whole.remove(run);
        self.counts[run as usize] = 0;
        Some(PhysFrame::containing_address(PhysAddr::new(u64::from(run) << 21)))
    }
}

impl FrameDeallocator<Size2MiB> for FramePool {
    ghost is_out = { λ p run. IsRunOut p run };

    ghost given = { λ p run p'. IsRunSet p p' run true };

    fn deallocate_number(&mut self, number: u64)
        requires out { IsRunOut self.old number }
        ensures given { IsRunSet self.old self.new number true }
        ensures count { free_count self.new ≡ free_count self.old + 512 }
    {
        self.whole.insert(number as u32);
        let run = number as u32;
        insert_run(&mut self.free, run);
        self.counts[run as usize] = RUN as u16;
    }
}

/// No frame of the run is free any longer.
fn remove_run(free: &mut NumberSet, run: u32)
    requires bounded { length free.old < 2 ^ 32 }
    requires free { IsRunFree free.old run }
    ensures set { IsRunSet free.old free.new run false }
    ensures count { free_count free.new + 512 ≡ free_count free.old }
{
    let first = run * RUN;
    for number in first..first + RUN {
        free.remove(number);
    }
}

/// Each frame of the run is free.
fn insert_run(free: &mut NumberSet, run: u32)
    requires bounded { length free.old < 2 ^ 32 }
    requires out { IsRunOut free.old run }
    ensures set { IsRunSet free.old free.new run true }
    ensures count { free_count free.new ≡ free_count free.old + 512 }
{
    let first = run * RUN;
    for number in first..first + RUN {
        free.insert(number);
    }
}
