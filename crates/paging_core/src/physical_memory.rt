ghost use Rattle.std.specs.Prelude.{◌≡◌, ℕ, ◌+◌, ◌*◌, ◌<◌, ◌≤◌, ◌^◌, true, set, ⊤};
ghost use Rattle.paging_core.specs.Area.{in_area, Whole};
ghost use Rattle.paging_core.specs.Memory.{word_at, frame_count, cleared};

use crate::memory::Frames;
use crate::phys_frames::PhysFrame;

/// The physical memory as page tables need it: the words of an area of frames, in which the tables lie, and a limit below
/// which the frames of pages lie. Frame f has the physical address 4096 * f.
pub trait PhysicalMemory: Drop {
    ghost use Rattle.std.specs.Prelude.{◌≡◌, ℕ, ◌+◌, ◌*◌, ◌<◌, ◌≤◌, ◌^◌, ◌≢◌, true, set, List, ⊤};
    ghost use Rattle.paging_core.specs.Moments.{IsChangedIn};
    ghost use Rattle.paging_core.specs.Area.{Area, in_area};
    ghost use Rattle.paging_core.specs.EntryPlace.{IsEntryIn};
    ghost use Rattle.paging_core.specs.Memory.{word_at, frame_count, cleared};

    /// The words of all frames below the limit, 512 per frame. Those outside the area are 0 here, whatever the machine
    /// has there.
    ghost words: { Self → List ℕ };

    /// Where the tables lie.
    ghost area: { Self → Area };

    /// Which words the memory may hold at a moment: each store leaves some that it allows. It allows all, unless
    /// somebody reads it between two stores of a call, as a processor that walks the tables does. The clauses `seen` of
    /// the calls say for which words they ask this, and so what that reader may find: they are proved for every memory,
    /// however little it allows.
    ghost allows: { List ℕ → Type 0 } = { λ words. ⊤ };

    /// How many frames are below the limit.
    fn limit(&self) -> u64
        ensures count { result ≡ frame_count (words self.now) }
        ensures bounded { result < 2 ^ 40 };

    /// The word of the frame. Outside the area it is 0.
    fn word(&self, frame: PhysFrame, index: u16) -> u64
        requires frame { frame < frame_count (words self.now) }
        requires index { index < 512 }
        ensures word { result ≡ word_at (words self.now) frame index }
        ensures inside { result ≢ 0 → in_area (area self.now) frame ≡ true };

    /// Writes the word of the frame, which lies in the area.
    fn set_word(&mut self, frame: PhysFrame, index: u16, value: u64)
        requires entry { IsEntryIn (area self.old) (words self.old) frame index }
        requires seen { allows (set (words self.old) (512 * frame + index) value) }
        ensures words { words self.new ≡ set (words self.old) (512 * frame + index) value }
        ensures area { area self.new ≡ area self.old };

    /// Makes each word of the frame 0, in any order. The frame lies in the area.
    fn clear_frame(&mut self, frame: PhysFrame)
        requires inside { in_area (area self.old) frame ≡ true }
        requires frame { frame < frame_count (words self.old) }
        requires seen { (now : List ℕ) → IsChangedIn (words self.old) now frame → allows now }
        ensures words { words self.new ≡ cleared (words self.old) frame }
        ensures area { area self.new ≡ area self.old };
}

/// A program's memory is whole: each frame may be a table's, and pages have words too.
impl PhysicalMemory for Frames {
    ghost words = { λ f. f };

    ghost area = { λ f. Whole };

    fn limit(&self) -> u64 {
        u64::from(Frames::count(self))
    }

    fn word(&self, frame: PhysFrame, index: u16) -> u64 {
        Frames::word(self, frame, index)
    }

    fn set_word(&mut self, frame: PhysFrame, index: u16, value: u64) {
        Frames::set_word(self, frame, index, value);
    }

    fn clear_frame(&mut self, frame: PhysFrame) {
        Frames::clear_frame(self, frame);
    }
}
