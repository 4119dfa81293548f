ghost use Rattle.std.specs.Prelude.{◌≡◌, ◌+◌, ◌*◌, ◌%◌, ◌^◌, ◌<◌, ◌≤◌, IfSome, IsTrue, true, false, if◌then◌else◌, Some, None};
ghost use Rattle.std.specs.Option.{option_map};
ghost use Rattle.paging_core.specs.Area.{in_area};
ghost use Rattle.paging_core.specs.Memory.{frame_count};
ghost use Rattle.paging_core.specs.Prefix.{prefix_of};
ghost use Rattle.paging_core.specs.Walk.{is_present, is_run, named, step, large_step, page_in, reach, walk_of, mapped_place};
ghost use Rattle.paging_core.specs.Address.{is_canonical};
ghost use Rattle.paging_core.specs.PageChanges.{IsFrameOf, IsLastEntry};
ghost use Rattle.paging_core.specs.EntryPlace.{IsEntryIn, IsRoot};
ghost use Rattle.paging_core.specs.Premises.{IsMappedPage, IsSmallPage};

use crate::memory::Frames;
use crate::page_table::{PageBits, PageTableEntry};
use crate::pages::{Page, index_after};
use crate::phys_frames::PhysFrame;
use crate::physical_memory::PhysicalMemory;
use crate::walk_end::{WalkEnd, end_of_walk};

/// Where a walk arrives, with the rights that all entries on the way grant.
#[derive(Clone, Copy, PartialEq, Eq, Debug)]
pub struct Mapped {
    /// The frame of the page.
    pub frame: PhysFrame,
    /// All entries are writable.
    pub write: bool,
    /// All entries are accessible to users.
    pub user: bool,
    /// No entry denies fetches.
    pub fetch: bool,
    /// The last entry has bit 3, PWT.
    pub through: bool,
    /// The last entry has bit 4, PCD.
    pub uncached: bool,
    /// The last entry has bit 8, G.
    pub global: bool,
}

impl Mapped {
    /// The bits of an entry that leads to the place.
    pub(crate) fn bits(self) -> PageBits
        ensures { result ≡ record { write = self.write; user = self.user; fetch = self.fetch; through = self.through; uncached = self.uncached; global = self.global } }
    {
        PageBits {
            write: self.write,
            user: self.user,
            fetch: self.fetch,
            through: self.through,
            uncached: self.uncached,
            global: self.global,
        }
    }

    /// A place with all rights.
    pub fn full(frame: PhysFrame) -> Self
        ensures { result ≡ record { frame = frame; write = true; user = true; fetch = true; through = false; uncached = false; global = false } }
    {
        Mapped {
            frame,
            write: true,
            user: true,
            fetch: true,
            through: false,
            uncached: false,
            global: false,
        }
    }
}

/// What the entry names, from a place, be it present and its frame there or not.
pub(crate) fn led(from: Mapped, entry: PageTableEntry) -> Mapped
    ensures { mapped_place result ≡ named (mapped_place from) entry }
{
    Mapped {
        frame: entry.frame(),
        write: from.write & entry.is_writable(),
        user: from.user & entry.is_user_accessible(),
        fetch: from.fetch & !entry.is_no_execute(),
        through: entry.is_through(),
        uncached: entry.is_uncached(),
        global: entry.is_global(),
    }
}

/// Where the entry leads, from a place.
#[inline(always)]
pub(crate) fn follow<M: PhysicalMemory>(
    frames: &M,
    from: Mapped,
    entry: PageTableEntry,
) -> Option<Mapped>
    ensures led { option_map mapped_place result ≡ (if is_present (M.words frames.now) entry then Some (named (mapped_place from) entry) else None) }
    ensures below { IfSome result (λ to. to.frame < frame_count (M.words frames.now)) }
{
    if !entry.is_present() {
        return None;
    }
    let to = led(from, entry);
    if to.frame.number() >= frames.limit() {
        return None;
    }
    Some(to)
}

/// One step of the walk to a table or, from the last one, to a page's frame: from a table that was met after `level`
/// steps. None also if the entry maps a large page.
#[inline(always)]
#[tactic(auto, unfolding(crate::specs::Walk::step))]
pub(crate) fn next<M: PhysicalMemory>(
    frames: &M,
    level: u32,
    from: Mapped,
    index: u16,
) -> Option<Mapped>
    requires frame { from.frame < frame_count (M.words frames.now) }
    requires index { index < 512 }
    ensures step { option_map mapped_place result ≡ step (M.words frames.now) level (mapped_place from) index }
    ensures inside { IfSome result (λ _. in_area (M.area frames.now) from.frame ≡ true) }
    ensures below { IfSome result (λ to. to.frame < frame_count (M.words frames.now)) }
{
    let entry = PageTableEntry::from_bits(frames.word(from.frame, index));
    if level == 2 && entry.is_huge() {
        return None;
    }
    follow(frames, from, entry)
}

/// Whether a large page may begin at the frame: it is a multiple of 512, and the 512 frames from it on exist.
fn is_run<M: PhysicalMemory>(frames: &M, first: PhysFrame) -> bool
    ensures run { result ≡ is_run (M.words frames.now) first }
    ensures bounded { result ≡ true → first + 512 < 2 ^ 40 }
{
    let number = first.number();
    number % 512 == 0 && number + 511 < frames.limit()
}

/// The large page that the entry of a table of the third step maps, by its first frame.
#[tactic(auto, unfolding(crate::specs::Walk::large_step))]
pub(crate) fn large_at<M: PhysicalMemory>(frames: &M, at: Mapped, index: u16) -> Option<Mapped>
    requires frame { at.frame < frame_count (M.words frames.now) }
    requires index { index < 512 }
    ensures step { option_map mapped_place result ≡ large_step (M.words frames.now) (mapped_place at) index }
    ensures inside { IfSome result (λ _. in_area (M.area frames.now) at.frame ≡ true) }
    ensures bounded { IfSome result (λ large. large.frame + 512 < 2 ^ 40) }
{
    let entry = PageTableEntry::from_bits(frames.word(at.frame, index));
    let to = follow(frames, at, entry)?;
    if entry.is_huge() && is_run(frames, to.frame) {
        Some(to)
    } else {
        None
    }
}

/// The page with this index in a large page that begins at the place. None if the frames of the large page do not all
/// exist, or the first is no multiple of 512.
pub(crate) fn in_run<M: PhysicalMemory>(frames: &M, large: Mapped, index: u16) -> Option<Mapped>
    requires index { index < 512 }
    requires below { large.frame < frame_count (M.words frames.now) }
    ensures page { option_map mapped_place result ≡ (if is_run (M.words frames.now) large.frame then Some (page_in index (mapped_place large)) else None) }
    ensures below { IfSome result (λ page. page.frame < frame_count (M.words frames.now)) }
{
    if !is_run(frames, large.frame) {
        return None;
    }
    Some(Mapped {
        frame: large.frame.after(u64::from(index)),
        ..large
    })
}

/// The table at which the first steps of the page's walk arrive.
pub(crate) fn descend<M: PhysicalMemory>(
    frames: &M,
    root: PhysFrame,
    page: Page,
    levels: u32,
) -> Option<Mapped>
    requires root { IsRoot (M.words frames.now) root }
    requires levels { levels ≤ 3 }
    ensures reach { option_map mapped_place result ≡ reach (M.words frames.now) root levels (prefix_of page levels) }
    ensures below { IfSome result (λ at. at.frame < frame_count (M.words frames.now)) }
{
    let mut at = Mapped::full(root);
    for level in 0..levels {
        at = next(frames, level, at, index_after(page, level))?;
    }
    Some(at)
}

/// Where the page is mapped. The walk reads three entries if the third maps a large page, and else four. None if one of
/// them is not present, or the frames of the large page are not there.
pub fn walk<M: PhysicalMemory>(frames: &M, root: PhysFrame, page: Page) -> Option<Mapped>
    requires { IsRoot (M.words frames.now) root }
    ensures found { option_map mapped_place result ≡ walk_of (M.words frames.now) root page }
    ensures below { IfSome result (λ mapped. mapped.frame < frame_count (M.words frames.now)) }
{
    match end_of_walk(frames, root, page) {
        WalkEnd::Entry { page, .. } => page,
        WalkEnd::Large(page) => Some(page),
        WalkEnd::Missing(_) => None,
    }
}

/// The frame of the page, which is mapped.
pub(crate) fn frame_of_page(frames: &Frames, root: PhysFrame, page: Page) -> PhysFrame
    requires page { IsMappedPage frames.now root page }
    ensures place { IsFrameOf frames.now root page result }
    ensures frame { result < frame_count frames.now }
    ensures canonical { IsTrue (is_canonical (page * 4096)) }
{
    let Some(mapped) = walk(frames, root, page) else {
        unreachable!()
    };
    page.number();
    mapped.frame
}

/// The entry that maps a page: its table, its index there, and the frame that it names.
#[derive(Clone, Copy)]
pub(crate) struct LastEntry {
    pub(crate) table: PhysFrame,
    pub(crate) index: u16,
    pub(crate) frame: PhysFrame,
}

/// The last entry of the page, which is mapped by one: its slot has a table.
pub(crate) fn last_entry<M: PhysicalMemory>(frames: &M, root: PhysFrame, page: Page) -> LastEntry
    requires page { IsSmallPage (M.words frames.now) root page }
    ensures entry { IsLastEntry (M.words frames.now) root page result.table result.index result.frame }
    ensures place { IsEntryIn (M.area frames.now) (M.words frames.now) result.table result.index }
    ensures frame { result.frame < frame_count (M.words frames.now) }
    ensures canonical { IsTrue (is_canonical (page * 4096)) }
{
    let Some(at) = descend(frames, root, page, 3) else {
        unreachable!()
    };
    let table = at.frame;
    let index = index_after(page, 3);
    let Some(met) = next(frames, 3, at, index) else {
        unreachable!()
    };
    LastEntry {
        table,
        index,
        frame: met.frame,
    }
}
