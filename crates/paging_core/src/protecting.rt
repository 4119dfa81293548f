ghost use Rattle.std.specs.Prelude.{◌≡◌, ℕ, ◌+◌, ◌*◌, ◌<◌, List, Bool, set};
ghost use Rattle.paging_core.specs.Entry.{page_entry};
ghost use Rattle.paging_core.specs.Tree.{IsTreeIn, HasTreeIn};
ghost use Rattle.paging_core.specs.PageChanges.{regrant, IsFrameOf, IsPageChanged, ArePagesChanged, among};
ghost use Rattle.paging_core.specs.Outcomes.{IsRangeRegranted, IsPageGranted};
ghost use Rattle.paging_core.specs.Premises.{IsPageEntry, IsSmallPage, AreSmallPages};

use crate::page_table::{PageBits, PageTableEntry};
use crate::page_walk::{LastEntry, last_entry};
use crate::pages::Page;
use crate::phys_frames::PhysFrame;
use crate::physical_memory::PhysicalMemory;

/// Gives the page these rights: its entry, `index` of the table, where its walk ends, becomes the one that maps its frame
/// with them, and no other word is changed.
///
/// The page leads to the frame.
#[inline(always)]
pub fn protect_at<M: PhysicalMemory>(
    frames: &mut M,
    root: PhysFrame,
    page: Page,
    table: PhysFrame,
    index: u16,
    frame: PhysFrame,
    rights: PageBits,
)
    requires place { IsPageEntry (M.area frames.old) (M.words frames.old) root page table index }
    requires frame { IsFrameOf (M.words frames.old) root page frame }
    requires seen { M.allows (set (M.words frames.old) (512 * table + index) (page_entry frame rights)) }
    ensures granted { IsPageGranted (M.area frames.old) (M.area frames.new) (M.words frames.old) (M.words frames.new) root page rights }
{
    let _canonical = page.number();
    let entry = PageTableEntry::to_page(frame, rights);
    frames.set_word(table, index, entry.bits());
}

/// Gives the page these rights: its last entry becomes the one that maps its frame with them, and no other
/// word is changed.
///
/// The page is mapped by an entry of a last table, and not in a large page.
pub fn protect_page<M: PhysicalMemory>(
    frames: &mut M,
    root: PhysFrame,
    page: Page,
    rights: PageBits,
)
    requires page { IsSmallPage (M.words frames.old) root page }
    requires seen { (now : List ℕ) → IsPageChanged (M.words frames.old) now root page (regrant rights) → M.allows now }
    ensures granted { IsPageGranted (M.area frames.old) (M.area frames.new) (M.words frames.old) (M.words frames.new) root page rights }
{
    let LastEntry {
        table,
        index,
        frame,
    } = last_entry(frames, root, page);
    protect_at(frames, root, page, table, index, frame, rights);
}

/// Gives the pages from `first` on these rights. Each keeps its frame.
///
/// The range lies in one canonical half, and each of its pages is mapped, none in a large page. The tables are a tree.
pub fn protect_range<M: PhysicalMemory>(
    frames: &mut M,
    root: PhysFrame,
    first: Page,
    pages: u64,
    rights: PageBits,
)
    requires tree { HasTreeIn (M.area frames.old) (M.words frames.old) root }
    requires pages { AreSmallPages (M.words frames.old) root first pages }
    requires seen { (before now : List ℕ) (done : ℕ) → done < pages → ArePagesChanged (M.words frames.old) before root (regrant rights) (among first done) →
        IsPageChanged before now root (first + done) (regrant rights) → M.allows now }
    ensures changed { ArePagesChanged (M.words frames.old) (M.words frames.new) root (regrant rights) (among first pages) }
    ensures area { M.area frames.new ≡ M.area frames.old }
    ensures tree { (free : List Bool) → IsTreeIn (M.area frames.old) (M.words frames.old) root free → IsTreeIn (M.area frames.new) (M.words frames.new) root free }

    // The pages of the range have the rights. No other page's walk is changed, and no byte of any page.
    ensures granted { IsRangeRegranted (M.area frames.old) (M.words frames.old) (M.words frames.new) root first pages rights }
{
    for step in 0..pages {
        protect_page(frames, root, first.after(step), rights);
    }
}
