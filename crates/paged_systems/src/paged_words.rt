// Words of the regions of a paged system, in a row: those of a page by one walk for many.
ghost use Rattle.std.specs.Prelude.{◌+◌, ◌*◌, ◌≤◌, ◌⊎◌};
ghost use Rattle.heap_memory.specs.Words.{AreWordsOf, AreFilled, AreCopied};
ghost use Rattle.machine_model.specs.Machine.{OnlyHeapBytesChange};
ghost use Rattle.mapped_regions.specs.Mapped.{word_reached};
ghost use Rattle.paged_systems.specs.System.{paged};
ghost use Rattle.paged_systems.specs.Words.{grants_of};
ghost use Rattle.paged_systems.specs.Written.{IsNextRun};

use crate::paged_system::PagedSystem;
use paging_core::{PageSize, Size4KiB};

/// How many words are put by one walk at most.
const RUN_WORDS: usize = 64;

/// How many words from a multiple of 8 on are put next, of those that are left: no more than stand in its page, and 64 at most.
fn run_of(at: u64, left: u64) -> u64
    ensures { IsNextRun at left result }
{
    let in_page = (Size4KiB::SIZE - at % Size4KiB::SIZE).div_ceil(8);
    in_page.min(RUN_WORDS as u64).min(left)
}

impl PagedSystem {
    /// Puts the same word at each of `count` places, from an address on, and changes nothing else.
    pub(crate) fn fill_words(&mut self, at: u64, count: u64, value: u64)
        requires { AreWordsOf (grants_of (paged self.old)) at count }
        ensures still { OnlyHeapBytesChange (paged self.old) (paged self.new) }
        ensures filled { AreFilled (grants_of (paged self.old)) (word_reached (paged self.old)) at count value (word_reached (paged self.new)) }
    {
        let words = [value; RUN_WORDS];
        let mut done = 0;
        while done < count {
            let next = at + 8 * done;
            let run = run_of(next, count - done);
            self.set_words(next, &words[..run as usize]);
            done += run;
        }
    }

    /// Copies `count` words from one place to another, apart from it, and changes nothing else.
    pub(crate) fn copy_words(&mut self, from: u64, to: u64, count: u64)
        requires from { AreWordsOf (grants_of (paged self.old)) from count }
        requires to { AreWordsOf (grants_of (paged self.old)) to count }
        requires apart { (from + 8 * count ≤ to) ⊎ (to + 8 * count ≤ from) }
        ensures still { OnlyHeapBytesChange (paged self.old) (paged self.new) }
        ensures copied { AreCopied (grants_of (paged self.old)) (word_reached (paged self.old)) from to count (word_reached (paged self.new)) }
    {
        let mut words = [0; RUN_WORDS];
        let mut done = 0;
        while done < count {
            let source = from + 8 * done;
            let target = to + 8 * done;
            let run = run_of(target, run_of(source, count - done));
            self.words(source, &mut words[..run as usize]);
            self.set_words(target, &words[..run as usize]);
            done += run;
        }
    }
}
